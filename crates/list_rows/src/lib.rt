// The attributes of a list: their rows.
#![tactic(auto)]

ghost use Rattle.std.specs.Prelude.{◌≡◌, ◌&&◌, ◌+◌, ◌*◌, ◌-◌, ◌≤◌, ◌<◌, eqb, length};
ghost use Rattle.token.specs.Kind.{word, kind_at};
ghost use Rattle.token.specs.Checked.{line_in};
ghost use Rattle.row.specs.Row.{width};
ghost use Rattle.attribute.specs.Outcome.{Attributed};
ghost use Rattle.delimiters.specs.Divide.{Ascending};
ghost use Rattle.list_rows.specs.ListRows.{WroteParted};

use attribute::parse_attr;
use put_rows::Written;
use row::Row;
use row::tag::Tag;
use runs::places::Tokens;
use token::kind::TokenKind;
use token::lent::Line;
use token::{Run, TokenPlace};

// Whether the tokens are one Word.
fn one_word(tokens: Tokens<'_>) -> bool
    requires { tokens.from.0 < tokens.to.0 }
    ensures { result ≡ (eqb tokens.entry.to.0 (tokens.entry.from.0 + 1) && eqb (kind_at tokens.entry.line.kinds.now tokens.entry.from.0) word) }
{
    tokens.to.0 == tokens.from.0 + 1 && tokens.line.kinds[tokens.from.0] == TokenKind::Word as u8
}

// Writes the rows of an attribute, as `parse_attr` does; one of no tokens, or of one Word, is not looked at further.
fn attr_rows(tokens: Tokens<'_>, block: bool, rows: &mut [u32], written: Written) -> Written
    requires { width * (written.rows + (tokens.to.0 - tokens.from.0) + 1) ≤ length rows.old }
    ensures { Attributed (line_in tokens.entry.line) tokens.entry.from.0 tokens.entry.to.0 block written.id rows.old written.rows result rows.new }
{
    if tokens.from.0 == tokens.to.0 {
        return written.put_empty(rows);
    }
    if one_word(tokens) {
        let word = Run {
            place: tokens.from,
            count: 1,
        };
        return written.put_one(rows, Row::one_run(Tag::Positional as u32, word));
    }
    parse_attr(tokens, block, rows, written)
}

// Writes the rows of the attributes that the commas part, first to last, and answers how many there are. The last attribute goes on to the closing
// bracket at `end`. `block` says that the entry is the block entry. Inlined: it is called for each of two arrays of commas, and once a line.
#[inline(always)]
pub fn list_rows(
    line: Line<'_>,
    commas: &[u16],
    end: TokenPlace,
    block: bool,
    rows: &mut [u32],
) -> usize
    requires among { end.0 ≤ length line.kinds.now }
    requires room { width * (end.0 + 1) ≤ length rows.old }
    requires ascending { Ascending 0 commas.now end.0 }
    ensures { WroteParted (line_in line.entry) block commas.now end.0 rows.old result rows.new }
{
    let mut from = TokenPlace(0);
    let mut written = Written { rows: 0, id: false };
    for comma in commas {
        let to = TokenPlace(usize::from(*comma));
        let attribute = Tokens { line, from, to };
        written = attr_rows(attribute, block, rows, written);
        from = TokenPlace(to.0 + 1);
    }
    let rest = Tokens {
        line,
        from,
        to: end,
    };
    let last = attr_rows(rest, block, rows, written);
    last.rows
}
