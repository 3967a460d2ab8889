// The groups of options and roles.
ghost use Rattle.std.specs.Prelude.{◌≡◌, ◌+◌, ◌*◌, ◌-◌, ◌≤◌, length};
ghost use Rattle.token.specs.Kind.{attr_ref};
ghost use Rattle.token.specs.Line.{most_tokens};
ghost use Rattle.row.specs.Row.{width};
ghost use Rattle.put_rows.specs.Rows.{group_row};
ghost use Rattle.put_rows.specs.Written.{RowsOf, Grouped};

use super::Written;
use row::Row;
use runs::places::Places;
use token::TokenPlace;

impl Written {
    // Writes the row of a group, if any token is left when it is trimmed. `few` stands here, below and at `put_positional`, since to ask for `Tokens`, whose
    // line has it, would be to ask for a text and for pairs as well.
    fn put_group(self, rows: &mut [u32], group: Places<'_>, tag: u32) -> Written
        requires few { length group.kinds.now ≤ most_tokens }
        requires room { width * (self.rows + (group.to.0 - group.from.0)) ≤ length rows.old }
        ensures rows { RowsOf (group_row tag) group.entry.kinds.now group.entry.from.0 group.entry.to.0 rows.old self.rows result.rows rows.new }
        ensures id { result.id ≡ self.id }
    {
        let run = group.trim();
        if run.count == 0 {
            return self;
        }
        self.put_one(rows, Row::one_run(tag, run))
    }

    // Writes a row for each group of some places, split at a kind; whether the list has an id is handed on. Not inlined, and shorthand neither: few
    // attributes have either, and reading the others is quicker without.
    #[inline(never)]
    pub fn put_groups(
        self,
        rows: &mut [u32],
        places: Places<'_>,
        delimiter: u8,
        tag: u32,
    ) -> Written
        requires few { length places.kinds.now ≤ most_tokens }
        requires no_attr_ref { delimiter ≡ attr_ref → ⊥ }
        requires room { width * (self.rows + (places.to.0 - places.from.0)) ≤ length rows.old }
        ensures { Grouped places.entry.kinds.now delimiter tag places.entry.from.0 places.entry.to.0 self.id rows.old self.rows result rows.new }
    {
        let mut written = self;
        let mut from = places.from;
        // No `for`: a turn takes a whole group, and the next begins past the delimiter at its end.
        loop {
            let left = Places {
                kinds: places.kinds,
                from,
                to: places.to,
            };
            let end = left.find_kind(delimiter);
            let group = Places {
                kinds: places.kinds,
                from,
                to: end,
            };
            written = written.put_group(rows, group, tag);
            if places.to.0 <= end.0 {
                return written;
            }
            from = TokenPlace(end.0 + 1);
        }
    }
}
