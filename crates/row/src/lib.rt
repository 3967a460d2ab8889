// Rows, the room for them, and how one is written to the lent buffer.
#![tactic(auto)]

ghost use Rattle.std.specs.Prelude.{◌≡◌, ◌+◌, ◌*◌, ◌≤◌, length};
ghost use Rattle.std.proofs.lemmas.List.Edits.{sets};
ghost use Rattle.row.specs.Row.{width, numbers, marked_run, one_run, room_for, Fits};

use token::Run;
use token::quotes::{QuoteMark, Unquoted};

pub mod diagnostic;
pub mod tag;

// How many numbers a row has.
pub const WIDTH: usize = 6;

// A row: its tag, then two runs; an unused run is empty; then which quotes were taken off the last run that is used, if that was unquoted. Two runs whatever
// the tag, and no enum that gives each tag its own: document 01 says of each tag what the two runs of its row are, and the buffer has both. The tag is a
// number, `Tag::Id as u32`, and no `Tag`: a row of any number is made and written. That its numbers fit the buffer's is no fact of the type, since the rules
// make rows of any runs: `Fits` stands in the contracts.
#[derive(Clone, Copy, Debug, PartialEq, Eq)]
pub struct Row {
    pub tag: u32,
    pub first: Run,
    pub second: Run,
    pub mark: QuoteMark,
}

// The width of a row, for callers that size a buffer.
pub fn row_width() -> usize
    ensures { result ≡ width }
{
    WIDTH
}

// Whether a buffer of `room` numbers has room for a row for each token: the tokens are taken off it once for each number of a row. Nothing is multiplied or
// divided, which is the slowest thing in a short line on the processor of the scanner's console, and nothing is shifted in place of that (`tools/room` looks). No
// token counts are added up, so nothing can wrap.
pub fn has_room(room: usize, tokens: usize) -> bool
    ensures { result ≡ room_for tokens room }
{
    let mut left = room;
    for _ in 0..WIDTH {
        if left < tokens {
            return false;
        }
        left -= tokens;
    }
    true
}

impl Row {
    // A row of one run that went through unquoting.
    pub fn unquoted(tag: u32, text: Unquoted) -> Row
        ensures { result ≡ marked_run tag text.run text.mark }
    {
        Row {
            tag,
            first: text.run,
            second: Run::EMPTY,
            mark: text.mark,
        }
    }

    // A row of one run off which no quotes were taken.
    pub fn one_run(tag: u32, run: Run) -> Row
        ensures { result ≡ one_run tag run }
    {
        let mark = QuoteMark::None;
        Row::unquoted(tag, Unquoted { run, mark })
    }

    // Writes it as row `at` of the buffer; every other number keeps what it had. Number by number: as one array by `copy_from_slice`, which asks whether the
    // two overlap, a line of commas took half as long again, and missed the bar of five times the Rust's speed.
    pub fn put(self, rows: &mut [u32], at: usize)
        requires room { width * at + width ≤ length rows.old }
        requires fits { Fits self }
        ensures { rows.new ≡ sets rows.old (width * at) (numbers self) }
    {
        let i = WIDTH * at;
        rows[i] = self.tag;
        rows[i + 1] = self.first.place.0 as u32;
        rows[i + 2] = self.first.count as u32;
        rows[i + 3] = self.second.place.0 as u32;
        rows[i + 4] = self.second.count as u32;
        rows[i + 5] = u32::from(self.mark);
    }
}
