// What a line of the file asks of the reader (docs/FORMAT.md).
use crate::tokens::{Fault, Line, Problem};
use attr_list::entries::Entry;
use std::alloc::Global;

// What a first word asks: whether the line is a block attribute list, one of the four readings, or the anchor, of a whole line or within one.
#[derive(Clone, Copy)]
pub(crate) enum Asked {
    IsBlock,
    List(Entry),
    Anchor { is_entire_line: bool },
}

impl TryFrom<&[u8]> for Asked {
    type Error = Problem;

    // Word by word: the words are the file's, and no derive makes a case of one.
    fn try_from(word: &[u8]) -> Result<Self, Problem> {
        match word {
            b"block" => Ok(Asked::List(Entry::Block)),
            b"macro" => Ok(Asked::List(Entry::BlockMacro)),
            b"inline" => Ok(Asked::List(Entry::Inline)),
            b"link" => Ok(Asked::List(Entry::Link)),
            b"is" => Ok(Asked::IsBlock),
            b"block-anchor" => Ok(Asked::Anchor {
                is_entire_line: true,
            }),
            b"inline-anchor" => Ok(Asked::Anchor {
                is_entire_line: false,
            }),
            _ => Err(Problem::UnknownEntry),
        }
    }
}

// A line of tokens, by which entry, and that entry's word.
#[derive(Drop)]
pub(crate) struct Call<'a> {
    pub(crate) word: &'a [u8],
    pub(crate) asked: Asked,
    pub(crate) line: Line,
}

impl<'a> Call<'a> {
    // Reads what is written, words with blanks between them.
    pub(crate) fn read(alloc: Global, written: &'a [u8]) -> Result<Call<'a>, Fault<'a>> {
        let mut words = written
            .split(|b| *b == b' ')
            .filter(|word| !word.is_empty());
        let word = words.next().unwrap_or(written);
        let asked = Asked::try_from(word).map_err(|problem| Fault::Wrong(problem, word))?;
        let mut line = Line::new(alloc);
        for token in words {
            line.push_word(alloc, token)?;
        }
        Ok(Call { word, asked, line })
    }
}
