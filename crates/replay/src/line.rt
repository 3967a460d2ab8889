// A recorded line of tokens.
use crate::input::{Numbers, u32_of};
use std::alloc::AllocError;
use token::kind::TokenKind;

// The most kinds, numbers of the pairs and bytes of the text: a few more than the library takes. A call with more is passed over.
const MOST_KINDS: usize = 4100;

const MOST_PAIRS: usize = 8200;

pub(crate) const MOST_BYTES: usize = 65540;

// A line of tokens, as it is lent to the library.
#[derive(Drop)]
pub(crate) struct Line {
    pub(crate) kinds: Vec<u8>,
    pub(crate) pairs: Vec<u32>,
    pub(crate) text: Vec<u8>,
}

impl Line {
    pub(crate) fn read(numbers: &mut Numbers<'_>) -> Result<Option<Line>, AllocError> {
        let kinds = numbers.bytes(MOST_KINDS, u8::from(TokenKind::CloseBracket))?;
        let pairs = numbers.array(MOST_PAIRS, 0, u32_of)?;
        let text = numbers.bytes(MOST_BYTES, b'a')?;
        Ok(match (kinds, pairs, text) {
            (Some(kinds), Some(pairs), Some(text)) => Some(Line { kinds, pairs, text }),
            _ => None,
        })
    }
}
