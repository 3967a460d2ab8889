// Rows that stand alone: one as it is given, an empty positional, a positional, a name and a value, a diagnostic, an id.
ghost use Rattle.std.specs.Prelude.{◌≡◌, ◌+◌, ◌*◌, ◌≤◌, length};
ghost use Rattle.token.specs.Line.{most_tokens};
ghost use Rattle.row.specs.Row.{width, empty_positional, two_runs, diagnostic, Fits, small};
ghost use Rattle.put_rows.specs.Rows.{one_row, id_run};
ghost use Rattle.put_rows.specs.Written.{WroteId, Positioned};

use super::Written;
use row::Row;
use row::diagnostic::Diagnostic;
use row::tag::Tag;
use runs::places::Places;
use token::quotes::Unquoted;
use token::{Run, TokenPlace};

impl Written {
    // Writes one row; whether the list has an id is handed on.
    pub fn put_one(self, rows: &mut [u32], row: Row) -> Written
        requires room { width * self.rows + width ≤ length rows.old }
        requires fits { Fits row }
        ensures { WroteId rows.old self.rows (one_row self.id row) rows.new result }
    {
        row.put(rows, self.rows);
        Written {
            rows: self.rows + 1,
            id: self.id,
        }
    }

    // Writes the row of an attribute of which nothing is left.
    pub fn put_empty(self, rows: &mut [u32]) -> Written
        requires room { width * self.rows + width ≤ length rows.old }
        ensures { WroteId rows.old self.rows (one_row self.id empty_positional) rows.new result }
    {
        self.put_one(rows, Row::one_run(Tag::EmptyPositional as u32, Run::EMPTY))
    }

    // Writes the row of the tokens kept of some places, a positional. One of a run that is known is a `Row` in one line: `Row::unquoted` in
    // `attribute::uncut` and `attr_list::brackets::read_text`, `Row::one_run` in `list_rows::attr_rows`.
    pub fn put_positional(self, rows: &mut [u32], places: Places<'_>) -> Written
        requires few { length places.kinds.now ≤ most_tokens }
        requires room { width * self.rows + width ≤ length rows.old }
        ensures { Positioned places.entry.kinds.now places.entry.from.0 places.entry.to.0 self.id rows.old self.rows result rows.new }
    {
        self.put_one(rows, Row::one_run(Tag::Positional as u32, places.run_of()))
    }

    // Writes a row of a name and a value; whether the list has an id is handed on.
    pub fn put_named(self, rows: &mut [u32], tag: u32, name: Run, value: Unquoted) -> Written
        requires room { width * self.rows + width ≤ length rows.old }
        requires fits { Fits (two_runs tag name value.run value.mark) }
        ensures { WroteId rows.old self.rows (one_row self.id (two_runs tag name value.run value.mark)) rows.new result }
    {
        let row = Row {
            tag,
            first: name,
            second: value.run,
            mark: value.mark,
        };
        self.put_one(rows, row)
    }

    // Writes a diagnostic. Its number stands where another row has a run's count: that is how document 01 lays out this row.
    pub fn put_diagnostic(self, rows: &mut [u32], place: TokenPlace, number: usize) -> Written
        requires room { width * self.rows + width ≤ length rows.old }
        requires small { small place.0 }
        requires small_number { small number }
        ensures { WroteId rows.old self.rows (one_row self.id (diagnostic place.0 number)) rows.new result }
    {
        let run = Run {
            place,
            count: number,
        };
        self.put_one(rows, Row::one_run(Tag::Diagnostic as u32, run))
    }

    // Writes the row of an id, or what is wrong with it.
    pub fn put_id(self, rows: &mut [u32], id: Unquoted) -> Written
        requires room { width * self.rows + width ≤ length rows.old }
        requires small_place { small id.run.place.0 }
        requires small_count { small id.run.count }
        ensures { WroteId rows.old self.rows (id_run self.id id.run id.mark) rows.new result }
    {
        if id.run.count == 0 {
            return self.put_diagnostic(
                rows,
                TokenPlace(0),
                Diagnostic::InvalidEmptyIdAttribute as usize,
            );
        }
        if self.id {
            return self.put_diagnostic(
                rows,
                id.run.place,
                Diagnostic::MoreThanOneIdAttribute as usize,
            );
        }
        let first = Written {
            rows: self.rows,
            id: true,
        };
        first.put_one(rows, Row::unquoted(Tag::Id as u32, id))
    }
}
