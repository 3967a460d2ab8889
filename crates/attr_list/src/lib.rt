// The entries: the four readings of an attribute list, from a line of tokens to rows, and whether a line is a block attribute list (document 01, "Lists
// and links"). What an entry answers and leaves is `Outcome` (specs/Outcome.antt); answers and buffers are defined in specs/Reading.antt, what holds of
// every line that is read as a list in specs/ReadAsList.antt.
#![tactic(auto)]

ghost use Rattle.std.specs.Prelude.{◌≡◌};
ghost use Rattle.token.specs.Lent.{line};
ghost use Rattle.token.specs.Line.{most_tokens};
ghost use Rattle.attr_list.specs.Told.{told, told_line};
ghost use Rattle.attr_list.specs.Outcome.{Outcome};
ghost use Rattle.attr_list.specs.Block.{block_line};

use block::bracketed;
use brackets::{Held, read_link, read_list};
use entries::Entry;
use refusals::Refusal;
use row::has_room;
use token::kind::TokenKind;
use token::lent::Line;

mod block;
mod brackets;
pub mod entries;
pub mod within;

// What is told of a line that is read: how many rows are written, how many tokens are consumed, and how many commas were taken back.
#[derive(Clone, Copy, Debug, PartialEq, Eq)]
pub struct Read {
    pub rows: usize,
    pub consumed: usize,
    pub rejoined: usize,
}

// Whether a line is a block attribute list; here its text begins with the opening bracket. Three slices and no `Line`, here and below: whether they are one is
// what is checked, and to ask for a `Line` would ask more of callers.
pub fn is_block_attr_list(kinds: &[u8], text: &[u8], pairs: &[u32]) -> Result<bool, Refusal>
    ensures { told_line result ≡ block_line (line kinds.entry text.entry pairs.entry) }
{
    let taken = Line::new(kinds, text, pairs)?;
    Ok(bracketed(taken.kinds))
}

// Reads a line by an entry: the attribute list of a block or a block macro, which is the rest of its line; of an inline macro, which the next bracket
// closes that is not escaped; or what a link macro's brackets hold, an attribute list, read as an inline macro's, or text. Nothing is written before every
// refusal has been ruled out. Inlined, so that a caller's entry, which is mostly known beforehand, is not asked for.
#[inline(always)]
pub fn parse_attr_list(
    entry: Entry,
    kinds: &[u8],
    text: &[u8],
    pairs: &[u32],
    rows: &mut [u32],
) -> Result<Read, Refusal>
    ensures { Outcome most_tokens entry (line kinds.entry text.entry pairs.entry) rows.old (told result) rows.new }
{
    let line = Line::new(kinds, text, pairs)?;
    if !has_room(rows.len(), kinds.len()) {
        return Err(Refusal::RowsTooShort);
    }
    if kinds[0] == TokenKind::CloseBracket as u8 {
        return Ok(Read {
            rows: 0,
            consumed: 1,
            rejoined: 0,
        });
    }
    let held = Held { line };
    // The entry chooses, so a `match`; a closure that is made for it and called once would say no more.
    match entry {
        Entry::Link => read_link(held, rows),
        _ => read_list(held, entry, rows),
    }
}
