// A lent line of tokens: their kinds, places and lexemes, and the checks of the line.
#![tactic(auto)]

pub mod kind;
pub mod lent;
pub mod line;
pub mod quotes;

// A token place: counts tokens.
#[derive(Clone, Copy, Debug, PartialEq, Eq)]
pub struct TokenPlace(pub usize);

// A byte offset of a lexeme: counts bytes.
#[derive(Clone, Copy, Debug, PartialEq, Eq)]
pub(crate) struct ByteOffset(pub(crate) usize);

// A run: the place of its first kept token, and how many places there are from it to its last. An empty run is 0, 0 and no
// Option, as document 01 has it in the rows.
#[derive(Clone, Copy, Debug, PartialEq, Eq)]
pub struct Run {
    pub place: TokenPlace,
    pub count: usize,
}

impl Run {
    pub const EMPTY: Run = Run {
        place: TokenPlace(0),
        count: 0,
    };
}
