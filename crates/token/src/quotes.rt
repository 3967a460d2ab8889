// Which quotes were taken off some tokens. It stands here, since `runs` finds it and `row` writes it.
ghost use Rattle.std.specs.Prelude.{◌≡◌, eqb};
ghost use Rattle.token.specs.Quotes.{mark_number, Decodes, Gives};

use crate::Run;

// `mark as u32` is its number.
#[derive(Clone, Copy, Debug, PartialEq, Eq)]
pub enum QuoteMark {
    None,
    Double,
    Single,
}

// What is left of some tokens when quotes are taken off: its run, and which quotes were taken.
#[derive(Clone, Copy, Debug, PartialEq, Eq)]
pub struct Unquoted {
    pub run: Run,
    pub mark: QuoteMark,
}

impl QuoteMark {
    // Whether no quotes were taken off.
    pub fn is_none(self) -> bool
        ensures { result ≡ eqb (mark_number self) 0 }
    {
        self == QuoteMark::None
    }
}

impl From<QuoteMark> for u32 {
    ghost from_gives = { Gives };

    fn from(mark: QuoteMark) -> u32 {
        mark as u32
    }
}

// A number that is no quote mark's. Its own type, as `NotAKind` is.
#[derive(Clone, Copy, Debug, PartialEq, Eq)]
pub struct NotAQuoteMark(pub u32);

impl TryFrom<u32> for QuoteMark {
    type Error = NotAQuoteMark;

    ghost try_from_gives = { Decodes };

    // Case by case: no derive makes a mark of a number.
    fn try_from(number: u32) -> Result<Self, NotAQuoteMark> {
        match number {
            0 => Ok(QuoteMark::None),
            1 => Ok(QuoteMark::Double),
            2 => Ok(QuoteMark::Single),
            _ => Err(NotAQuoteMark(number)),
        }
    }
}
