// One attribute: its rows.
#![tactic(auto)]

ghost use Rattle.std.specs.Prelude.{◌≡◌, ◌+◌, ◌*◌, ◌-◌, ◌≤◌, ◌<◌, length, get_or};
ghost use Rattle.token.specs.Kind.{attr_ref};
ghost use Rattle.token.specs.Checked.{line_in};
ghost use Rattle.row.specs.Row.{width};
ghost use Rattle.attribute.specs.Outcome.{Attributed, ToCut, Cut};

use attr_ir::{AttrIr, attr_ir};
use put_rows::Written;
use row::diagnostic::Diagnostic;
use runs::places::{Places, Tokens};
use symbols::find_symbol;
use token::lent::Line;
use token::quotes::Unquoted;
use token::{Run, TokenPlace};
use uncut::put_ir;

mod symbols;
mod uncut;

// The tokens of a run.
pub(crate) fn in_run<'a>(line: Line<'a>, run: Run) -> Tokens<'a>
    requires { run.place.0 + run.count ≤ length line.kinds.now }
    ensures line { result.line ≡ line.entry }
    ensures from { result.from ≡ run.place }
    ensures to { result.to.0 ≡ run.place.0 + run.count }
{
    Tokens {
        line,
        from: run.place,
        to: TokenPlace(run.place.0 + run.count),
    }
}

// The text of a positional that is to be cut; its mark is none.
fn text_to_cut(ir: AttrIr) -> Option<Unquoted>
    ensures { ToCut ir result }
{
    match ir {
        AttrIr::Positional { text, cut } => cut.then_some(text),
        _ => None,
    }
}

// Reads an attribute, and writes its rows past those that are written. `block` says that the entry is the block entry.
#[cycle(cut_positional_parse_attr)]
pub fn parse_attr(tokens: Tokens<'_>, block: bool, rows: &mut [u32], written: Written) -> Written
    requires { width * (written.rows + (tokens.to.0 - tokens.from.0) + 1) ≤ length rows.old }
    ensures { Attributed (line_in tokens.entry.line) tokens.entry.from.0 tokens.entry.to.0 block written.id rows.old written.rows result rows.new }
{
    let trimmed = tokens.places().trim();
    if trimmed.count == 0 {
        return written.put_empty(rows);
    }
    let ir = attr_ir(in_run(tokens.line, trimmed), block);
    match text_to_cut(ir) {
        Some(text) => cut_positional(in_run(tokens.line, text.run), block, rows, written),
        None => put_ir(tokens.line, ir, rows, written),
    }
}

// A positional cut before its first Dots, Hash or Percent: the row of what stands before it, then the rows of the tail, read as an attribute.
#[cycle(cut_positional_parse_attr)]
fn cut_positional(tokens: Tokens<'_>, block: bool, rows: &mut [u32], written: Written) -> Written
    requires some { tokens.from.0 < tokens.to.0 }
    requires first { get_or tokens.line.kinds.now tokens.from.0 0 ≡ attr_ref → ⊥ }
    requires room { width * (written.rows + (tokens.to.0 - tokens.from.0) + 1) ≤ length rows.old }
    ensures { Cut (line_in tokens.entry.line) tokens.entry.from.0 tokens.entry.to.0 block written.id rows.old written.rows result rows.new }
{
    let symbol = find_symbol(tokens.places());
    if symbol.0 <= tokens.from.0 {
        return written.put_diagnostic(rows, symbol, Diagnostic::InvalidAttrList as usize);
    }
    let before = Places {
        kinds: tokens.line.kinds,
        from: tokens.from,
        to: symbol,
    };
    let tail = Tokens {
        line: tokens.line,
        from: symbol,
        to: tokens.to,
    };
    let put = written.put_positional(rows, before);
    parse_attr(tail, block, rows, put)
}
