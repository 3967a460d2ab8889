// The rows of what an attribute holds: one row, the groups of options and roles, and shorthand.
#![tactic(auto)]

pub mod groups;
pub mod one_row;
pub mod shorthand;

// How many rows are written, and whether the list then has an id. A method of it writes the next rows, and answers how it stands then. The row buffer is no
// field of it: each contract would then say besides that the field is still the same loan (`ghost_name`), and the room for the rows would stand in it as now.
// Nor is it in what calls these, in `attribute`, `list_rows` and `attr_list`: each asks for another number of rows.
#[derive(Clone, Copy, Debug, PartialEq, Eq)]
pub struct Written {
    pub rows: usize,
    pub id: bool,
}
