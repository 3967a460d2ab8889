// The tags of rows.
ghost use Rattle.std.specs.Prelude.{◌≡◌};
ghost use Rattle.row.specs.Row.{tags};
ghost use Rattle.row.specs.Tag.{Decodes, Gives};

// `tag as u32` is its number.
#[derive(Clone, Copy, Debug, PartialEq, Eq)]
pub enum Tag {
    EmptyPositional = 1,
    Positional,
    Named,
    Id,
    Role,
    Option,
    Diagnostic,
    Plain,
}

impl From<Tag> for u32 {
    ghost from_gives = { Gives };

    fn from(tag: Tag) -> u32 {
        tag as u32
    }
}

// A number that is no row's tag. Its own type: it tells which conversion failed, and one for all would stand in a crate that all import, and say less.
#[derive(Clone, Copy, Debug, PartialEq, Eq)]
pub struct NotATag(pub u32);

impl TryFrom<u32> for Tag {
    type Error = NotATag;

    ghost try_from_gives = { Decodes };

    // Case by case: no derive makes a tag of a number.
    fn try_from(number: u32) -> Result<Self, NotATag> {
        match number {
            1 => Ok(Tag::EmptyPositional),
            2 => Ok(Tag::Positional),
            3 => Ok(Tag::Named),
            4 => Ok(Tag::Id),
            5 => Ok(Tag::Role),
            6 => Ok(Tag::Option),
            7 => Ok(Tag::Diagnostic),
            8 => Ok(Tag::Plain),
            _ => Err(NotATag(number)),
        }
    }
}

// Every tag, in the order of document 01; each by its name, since an enum does not list its cases.
pub fn all() -> [u32; 8]
    ensures { result ≡ tags }
{
    [
        Tag::EmptyPositional as u32,
        Tag::Positional as u32,
        Tag::Named as u32,
        Tag::Id as u32,
        Tag::Role as u32,
        Tag::Option as u32,
        Tag::Diagnostic as u32,
        Tag::Plain as u32,
    ]
}
