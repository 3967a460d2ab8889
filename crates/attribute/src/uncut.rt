// The rows of an attribute that is not cut.
ghost use Rattle.std.specs.Prelude.{◌+◌, ◌*◌, ◌≤◌, length};
ghost use Rattle.token.specs.Checked.{line_in};
ghost use Rattle.row.specs.Row.{width};
ghost use Rattle.attribute.specs.Outcome.{Uncut, most_rows, Put};

use super::in_run;
use attr_ir::AttrIr;
use put_rows::Written;
use row::Row;
use row::tag::Tag;
use token::kind::TokenKind;
use token::lent::Line;

// Writes the rows of an attribute by its runs, past those that are written.
pub(crate) fn put_ir(line: Line<'_>, ir: AttrIr, rows: &mut [u32], written: Written) -> Written
    requires uncut { Uncut (line_in line) ir }
    requires ir_in_bounds { width * (written.rows + most_rows ir) ≤ length rows.old }
    ensures { Put (line_in line.entry) ir written.id rows.old written.rows result rows.new }
{
    match ir {
        AttrIr::Positional { text, cut: _ } => {
            written.put_one(rows, Row::unquoted(Tag::Positional as u32, text))
        }
        AttrIr::Named { name, value } => written.put_named(rows, Tag::Named as u32, name, value),
        AttrIr::Plain { name, value } => written.put_named(rows, Tag::Plain as u32, name, value),
        AttrIr::Options(run) => {
            let places = in_run(line, run).places();
            written.put_groups(rows, places, TokenKind::Comma as u8, Tag::Option as u32)
        }
        AttrIr::Roles(run) => {
            let places = in_run(line, run).places();
            written.put_groups(rows, places, TokenKind::Whitespace as u8, Tag::Role as u32)
        }
        AttrIr::Id(text) => written.put_id(rows, text),
        AttrIr::Shorthand(run) => written.push_shorthand(rows, in_run(line, run)),
    }
}
