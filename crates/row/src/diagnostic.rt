// The diagnostics of a list. A row of one holds its number.
ghost use Rattle.std.specs.Prelude.{Some};
ghost use Rattle.row.specs.Diagnostic.{Decodes, Gives};
ghost use Rattle.row.specs.Words.{words};

use std::fmt;

// `diagnostic as usize` is its number.
#[derive(Clone, Copy, Debug, PartialEq, Eq)]
pub enum Diagnostic {
    InvalidIdAttribute = 1,
    InvalidAttrList,
    InvalidEmptyIdAttribute,
    MoreThanOneIdAttribute,
}

impl From<Diagnostic> for usize {
    ghost from_gives = { Gives };

    fn from(diagnostic: Diagnostic) -> usize {
        diagnostic as usize
    }
}

// A number that is no diagnostic's. Its own type, as `NotATag` is.
#[derive(Clone, Copy, Debug, PartialEq, Eq)]
pub struct NotADiagnostic(pub u32);

impl TryFrom<u32> for Diagnostic {
    type Error = NotADiagnostic;

    ghost try_from_gives = { Decodes };

    // Case by case: no derive makes a diagnostic of a number.
    fn try_from(number: u32) -> Result<Self, NotADiagnostic> {
        match number {
            1 => Ok(Diagnostic::InvalidIdAttribute),
            2 => Ok(Diagnostic::InvalidAttrList),
            3 => Ok(Diagnostic::InvalidEmptyIdAttribute),
            4 => Ok(Diagnostic::MoreThanOneIdAttribute),
            _ => Err(NotADiagnostic(number)),
        }
    }
}

// The words of document 01.
impl fmt::Display for Diagnostic {
    ghost output = { λ diagnostic. Some (words diagnostic) };

    fn fmt<W: fmt::Write>(&self, f: &mut fmt::Formatter<W>) -> fmt::Result {
        f.write_str(match self {
            Diagnostic::InvalidIdAttribute => "Invalid id attribute",
            Diagnostic::InvalidAttrList => "Invalid attr list",
            Diagnostic::InvalidEmptyIdAttribute => "Invalid empty id attribute",
            Diagnostic::MoreThanOneIdAttribute => "More than one id attribute",
        })
    }
}
