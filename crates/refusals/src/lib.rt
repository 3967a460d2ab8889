// Why a call is turned away: the README's table, in the order of its rows. C is told the numbers, and the programs print number and words, so both are
// pinned by contracts.
#![tactic(auto)]

ghost use Rattle.std.specs.Prelude.{◌≡◌, Some};
ghost use Rattle.refusals.specs.Refusals.{numbers};
ghost use Rattle.refusals.specs.Numbered.{Gives, refusal_number};
ghost use Rattle.refusals.specs.Words.{words};

use std::fmt;

// A row of the table. `refusal as usize` is its number.
#[derive(Clone, Copy, Debug, PartialEq, Eq)]
pub enum Refusal {
    // line: no tokens
    NoTokens = 1,
    // line: over 4,096 tokens, by the small viewer over 256; its words name the main reader's limit
    TooManyTokens,
    // text of a line: over 65,535 bytes
    TextTooLong,
    // pairs: not two numbers for each kind
    PairsNotTwo,
    // kinds: some kind over 50
    KindTooLarge,
    // pairs: one starts before the previous ends, or ends past the text
    PairsNotInOrder,
    // row buffer: under a row for each token
    RowsTooShort,
    // closing bracket: there is none
    NoClosingBracket,
    // subs text: over 65,535 bytes
    SubsTextTooLong,
    // set: not held
    SetNotHeld,
    // set, sheet mode: held but not sound
    SetNotSound,
    // line of an anchor, after the checks of a line and after "no anchor": it runs out, does not close as said, or its id has no bytes
    AnchorMalformed,
}

impl From<Refusal> for usize {
    ghost from_gives = { Gives };

    fn from(refusal: Refusal) -> usize {
        refusal as usize
    }
}

// What is wrong, in words.
impl fmt::Display for Refusal {
    ghost output = { λ refusal. Some (words refusal) };

    fn fmt<W: fmt::Write>(&self, f: &mut fmt::Formatter<W>) -> fmt::Result {
        f.write_str(match self {
            Refusal::NoTokens => "no tokens",
            Refusal::TooManyTokens => "over 4,096 tokens",
            Refusal::TextTooLong => "the text is over 65,535 bytes",
            Refusal::PairsNotTwo => "not two numbers for each kind",
            Refusal::KindTooLarge => "some kind is over 50",
            Refusal::PairsNotInOrder => {
                "a token starts before the previous ends, or ends past the text"
            }
            Refusal::RowsTooShort => "the row buffer is too short",
            Refusal::NoClosingBracket => "no closing bracket",
            Refusal::SubsTextTooLong => "the subs text is over 65,535 bytes",
            Refusal::SetNotHeld => "the set is not held",
            Refusal::SetNotSound => "the set is held but not sound",
            Refusal::AnchorMalformed => {
                "the anchor does not close as it should, or its id has no bytes"
            }
        })
    }
}

// Every number, in the order of the table; each by the name of its refusal, since an enum does not list its cases.
pub fn all() -> [usize; 12]
    ensures { result ≡ numbers }
{
    [
        Refusal::NoTokens as usize,
        Refusal::TooManyTokens as usize,
        Refusal::TextTooLong as usize,
        Refusal::PairsNotTwo as usize,
        Refusal::KindTooLarge as usize,
        Refusal::PairsNotInOrder as usize,
        Refusal::RowsTooShort as usize,
        Refusal::NoClosingBracket as usize,
        Refusal::SubsTextTooLong as usize,
        Refusal::SetNotHeld as usize,
        Refusal::SetNotSound as usize,
        Refusal::AnchorMalformed as usize,
    ]
}

// The number of a call that is refused, 0 where it is not: what C is told.
pub fn number_or_0(outcome: Result<(), Refusal>) -> usize
    ensures { result ≡ refusal_number outcome }
{
    match outcome {
        Ok(()) => 0,
        Err(refusal) => usize::from(refusal),
    }
}
