// What a recorded call calls, by its first number.
use attr_list::entries::Entry;
use substitutions::Mode;

// A reading of a list, whether a line is a block attribute list, the anchor of a line, or from_meta.
#[derive(Clone, Copy, PartialEq, Eq)]
pub(crate) enum Call {
    List(Entry),
    IsBlock,
    Customize(Mode),
    Anchor { is_entire_line: bool },
}

// A number that names no call.
#[derive(Clone, Copy, Debug, PartialEq, Eq)]
pub(crate) struct NoCall;

impl TryFrom<u64> for Call {
    type Error = NoCall;

    // Number by number, as compare/record writes them; 0, which is what an empty line reads as, is a link's as well.
    fn try_from(number: u64) -> Result<Self, NoCall> {
        match number {
            1 => Ok(Call::List(Entry::Block)),
            2 => Ok(Call::List(Entry::BlockMacro)),
            3 => Ok(Call::List(Entry::Inline)),
            0 | 4 => Ok(Call::List(Entry::Link)),
            5 => Ok(Call::IsBlock),
            6 => Ok(Call::Customize(Mode::Port)),
            7 => Ok(Call::Customize(Mode::Sheet)),
            8 => Ok(Call::Anchor {
                is_entire_line: true,
            }),
            9 => Ok(Call::Anchor {
                is_entire_line: false,
            }),
            _ => Err(NoCall),
        }
    }
}
