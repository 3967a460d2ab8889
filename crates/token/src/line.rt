// The checks of a line, and what is read of its tokens' lexemes.
ghost use Rattle.std.specs.Prelude.{◌≡◌, ◌+◌, ◌*◌, ◌≤◌, ◌<◌, length};
ghost use Rattle.refusals.specs.Numbered.{refusal_number};
ghost use Rattle.token.specs.Line.{offset_in, length_in, limits, some_over, misplaced, refusal};
ghost use Rattle.token.specs.Lent.{line};

use super::kind::TokenKind;
use super::{ByteOffset, TokenPlace};
use refusals::Refusal;

// The most tokens and the most bytes of a line.
pub const MOST_TOKENS: usize = 4096;

pub const MOST_BYTES: usize = 65535;

// The largest number of a kind.
const LARGEST: u8 = TokenKind::Word as u8;

// Both limits.
pub fn limits() -> [usize; 2]
    ensures { result ≡ limits }
{
    [MOST_TOKENS, MOST_BYTES]
}

// The byte offset of a token's lexeme. This and `length_of` ask of the pairs alone; `lent::Token` has the same of a checked line's token.
pub(crate) fn offset_of(pairs: &[u32], p: TokenPlace) -> ByteOffset
    requires { 2 * p.0 + 1 < length pairs.now }
    ensures { result.0 ≡ offset_in pairs.now p.0 }
{
    ByteOffset(pairs[2 * p.0] as usize)
}

// The length of a token's lexeme, in bytes.
pub(crate) fn length_of(pairs: &[u32], p: TokenPlace) -> usize
    requires { 2 * p.0 + 1 < length pairs.now }
    ensures { result ≡ length_in pairs.now p.0 }
{
    pairs[2 * p.0 + 1] as usize
}

// Whether some kind is over the largest. Every kind is looked at, and none decides where to go on, so that the compiler takes sixteen at a time.
fn some_over(kinds: &[u8]) -> bool
    ensures { result ≡ some_over kinds.now }
{
    kinds.iter().fold(false, |over, k| over | (*k > LARGEST))
}

// Whether some token starts before the previous ends, or ends past a text of `size` bytes. Where none does the first, no token ends after the last.
fn some_misplaced(pairs: &[u32], size: usize) -> bool
    ensures { result ≡ misplaced size 0 pairs.now }
{
    let mut end: usize = 0;
    for [offset, length] in pairs.as_chunks::<2>().0 {
        let start = *offset as usize;
        if start < end {
            return true;
        }
        end = start + *length as usize;
    }
    size < end
}

// Why a line of at most `most` tokens is refused, if it is: the first check that applies.
pub(crate) fn check_line(
    kinds: &[u8],
    text: &[u8],
    pairs: &[u32],
    most: usize,
) -> Result<(), Refusal>
    ensures { refusal_number result ≡ refusal most (line kinds.entry text.entry pairs.entry) }
{
    let tokens = kinds.len();
    if tokens == 0 {
        return Err(Refusal::NoTokens);
    }
    if tokens > most {
        return Err(Refusal::TooManyTokens);
    }
    if text.len() > MOST_BYTES {
        return Err(Refusal::TextTooLong);
    }
    if pairs.len() < tokens || pairs.len() - tokens != tokens {
        return Err(Refusal::PairsNotTwo);
    }
    if some_over(kinds) {
        return Err(Refusal::KindTooLarge);
    }
    if some_misplaced(pairs, text.len()) {
        return Err(Refusal::PairsNotInOrder);
    }
    Ok(())
}
