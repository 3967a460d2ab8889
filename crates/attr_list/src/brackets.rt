// What the entries share: the rows of a line that refusals 1 to 7 do not turn away, and whose first token is no CloseBracket.
ghost use Rattle.std.specs.Prelude.{◌≡◌, false, ◌*◌, ◌≤◌, ◌<◌, length};
ghost use Rattle.token.specs.Checked.{line_in};
ghost use Rattle.token.specs.Kind.{close_bracket, kind_at};
ghost use Rattle.row.specs.Row.{width};
ghost use Rattle.closing.specs.Link.{link_macro};
ghost use Rattle.attr_list.specs.Entry.{is_block, full_line};
ghost use Rattle.attr_list.specs.Reading.{Gives, list_of, text_to, link_to};
ghost use Rattle.attr_list.specs.Told.{told};

use super::Read;
use super::entries::Entry;
use closing::{LinkMacro, closing_bracket, link_macro};
use delimiters::find_delimiters;
use list_rows::list_rows;
use refusals::Refusal;
use row::Row;
use row::tag::Tag;
use runs::places::Places;
use token::TokenPlace;
use token::kind::TokenKind;
use token::lent::Line;
use token::line::MOST_TOKENS;

// A line whose first token does not close it: what stands in its brackets.
#[derive(Clone, Copy)]
pub(crate) struct Held<'a> {
    pub(crate) line: Line<'a>,
    pub(crate) ghost open: { kind_at line.kinds.now 0 ≡ close_bracket → ⊥ },
}

// Lines of so many tokens have their commas in a small array, which is cleared sooner than the large one. Both are arrays, since there is no heap.
const SHORT: usize = 64;

// Reads a list whose commas are put into `commas`. Inlined into its calls: as a function of its own it takes the line through memory, and a line of three
// tokens took 10 cycles more.
#[inline(always)]
pub(crate) fn read_list_in(
    held: Held<'_>,
    entry: Entry,
    commas: &mut [u16],
    rows: &mut [u32],
) -> Result<Read, Refusal>
    requires room { width * length held.line.kinds.now ≤ length rows.old }
    requires commas_room { length held.line.kinds.now ≤ length commas.old }
    ensures { Gives rows.old (list_of (line_in held.entry.line) (full_line entry) (is_block entry)) (told result) rows.new }
{
    let line = held.line;
    let delimited = find_delimiters(line.kinds, commas);
    let dividing = &commas[..delimited.commas];
    let Some(end) = closing_bracket(line.kinds, dividing, entry.is_full_line()) else {
        return Err(Refusal::NoClosingBracket);
    };
    let written = list_rows(line, dividing, end, entry.is_block(), rows);
    Ok(Read {
        rows: written,
        consumed: end.0 + 1,
        rejoined: delimited.rejoined,
    })
}

// Reads a list.
pub(crate) fn read_list(held: Held<'_>, entry: Entry, rows: &mut [u32]) -> Result<Read, Refusal>
    requires { width * length held.line.kinds.now ≤ length rows.old }
    ensures { Gives rows.old (list_of (line_in held.entry.line) (full_line entry) (is_block entry)) (told result) rows.new }
{
    if held.line.kinds.len() <= SHORT {
        let mut few = [0u16; SHORT];
        return read_list_in(held, entry, &mut few, rows);
    }
    let mut commas = [0u16; MOST_TOKENS];
    read_list_in(held, entry, &mut commas, rows)
}

// Reads a link's text, which ends before the token at `end`. Inlined: the archive calls it for the main reader and for the small
// viewer, and the main reader's link is to be compiled as before.
#[inline(always)]
pub(crate) fn read_text(line: Line<'_>, end: TokenPlace, rows: &mut [u32]) -> Result<Read, Refusal>
    requires room { width * length line.kinds.now ≤ length rows.old }
    requires among { end.0 < length line.kinds.now }
    ensures { Gives rows.old (text_to (line_in line.entry) end.0) (told result) rows.new }
{
    if line.kinds[end.0] != TokenKind::CloseBracket as u8 {
        return Err(Refusal::NoClosingBracket);
    }
    let text = Places {
        kinds: line.kinds,
        from: TokenPlace(0),
        to: end,
    };
    Row::unquoted(Tag::Positional as u32, text.unquote()).put(rows, 0);
    let consumed = end.0 + 1;
    Ok(Read {
        rows: 1,
        consumed,
        rejoined: 0,
    })
}

// Reads what a link's brackets hold.
pub(crate) fn read_link(held: Held<'_>, rows: &mut [u32]) -> Result<Read, Refusal>
    requires { width * length held.line.kinds.now ≤ length rows.old }
    ensures { Gives rows.old (link_to (line_in held.entry.line) (link_macro held.entry.line.kinds.now held.entry.line.pairs.now)) (told result) rows.new }
{
    let line = held.line;
    match link_macro(line.kinds, line.pairs) {
        LinkMacro::AsList => read_list(held, Entry::Inline, rows),
        LinkMacro::AsText(end) => read_text(line, end, rows),
    }
}
