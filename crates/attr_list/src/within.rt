// The four readings with a limit of tokens that is lower than the main reader's, for a reader that has no memory for an array of 4,096 numbers: the commas
// of a list are in an array of MOST numbers. Written beside `parse_attr_list`, and not with it in one function, so that the main reader is compiled and
// proved as it was. What a limit does is said in specs/Limit.antt, and proved once for any (LimitLaws).
ghost use Rattle.std.specs.Prelude.{◌*◌, ◌≤◌, length, min};
ghost use Rattle.token.specs.Checked.{line_in};
ghost use Rattle.token.specs.Lent.{line};
ghost use Rattle.token.specs.Line.{most_tokens};
ghost use Rattle.row.specs.Row.{width};
ghost use Rattle.closing.specs.Link.{link_macro};
ghost use Rattle.attr_list.specs.Entry.{is_block, full_line};
ghost use Rattle.attr_list.specs.Reading.{Gives, list_of, link_to};
ghost use Rattle.attr_list.specs.Told.{told};
ghost use Rattle.attr_list.specs.Outcome.{Outcome};

use super::brackets::{Held, read_list_in, read_text};
use super::entries::Entry;
use super::{Read, parse_attr_list};
use closing::{LinkMacro, link_macro};
use refusals::Refusal;
use row::has_room;
use token::kind::TokenKind;
use token::lent::Line;
use token::line::MOST_TOKENS;

// Reads a list of at most MOST tokens.
fn read_list_within<const MOST: usize>(
    held: Held<'_>,
    entry: Entry,
    rows: &mut [u32],
) -> Result<Read, Refusal>
    requires room { width * length held.line.kinds.now ≤ length rows.old }
    requires short { length held.line.kinds.now ≤ MOST }
    requires few { MOST ≤ most_tokens }
    ensures { Gives rows.old (list_of (line_in held.entry.line) (full_line entry) (is_block entry)) (told result) rows.new }
{
    let mut commas = [0u16; MOST];
    read_list_in(held, entry, &mut commas, rows)
}

// Reads what a link's brackets hold, of a line of at most MOST tokens.
fn read_link_within<const MOST: usize>(held: Held<'_>, rows: &mut [u32]) -> Result<Read, Refusal>
    requires room { width * length held.line.kinds.now ≤ length rows.old }
    requires short { length held.line.kinds.now ≤ MOST }
    requires few { MOST ≤ most_tokens }
    ensures { Gives rows.old (link_to (line_in held.entry.line) (link_macro held.entry.line.kinds.now held.entry.line.pairs.now)) (told result) rows.new }
{
    let line = held.line;
    match link_macro(line.kinds, line.pairs) {
        LinkMacro::AsList => read_list_within::<MOST>(held, Entry::Inline, rows),
        LinkMacro::AsText(end) => read_text(line, end, rows),
    }
}

// Reads a line of at most MOST tokens by an entry, as `parse_attr_list` does.
fn parse_within<const MOST: usize>(
    entry: Entry,
    kinds: &[u8],
    text: &[u8],
    pairs: &[u32],
    rows: &mut [u32],
) -> Result<Read, Refusal>
    requires short { length kinds.now ≤ MOST }
    requires few { MOST ≤ most_tokens }
    ensures { Outcome most_tokens entry (line kinds.entry text.entry pairs.entry) rows.old (told result) rows.new }
{
    let line = Line::new(kinds, text, pairs)?;
    if !has_room(rows.len(), kinds.len()) {
        return Err(Refusal::RowsTooShort);
    }
    if kinds[0] == TokenKind::CloseBracket as u8 {
        return Ok(Read {
            rows: 0,
            consumed: 1,
            rejoined: 0,
        });
    }
    let held = Held { line };
    match entry {
        Entry::Link => read_link_within::<MOST>(held, rows),
        _ => read_list_within::<MOST>(held, entry, rows),
    }
}

// Reads a line by an entry, as `parse_attr_list` does, but refuses one of more than MOST tokens. A limit over the main reader's is the main reader's. Never
// inlined: the four entries of a small reader share it.
#[inline(never)]
pub fn parse_attr_list_within<const MOST: usize>(
    entry: Entry,
    kinds: &[u8],
    text: &[u8],
    pairs: &[u32],
    rows: &mut [u32],
) -> Result<Read, Refusal>
    ensures { Outcome (min MOST most_tokens) entry (line kinds.entry text.entry pairs.entry) rows.old (told result) rows.new }
{
    if MOST > MOST_TOKENS {
        return parse_attr_list(entry, kinds, text, pairs, rows);
    }
    if kinds.len() > MOST {
        return Err(Refusal::TooManyTokens);
    }
    parse_within::<MOST>(entry, kinds, text, pairs, rows)
}
