// Recorded calls that take a line of tokens.
ghost use Rattle.std.specs.Prelude.{◌≤◌, length};

use crate::input::Numbers;
use crate::library;
use crate::line::Line;
use attr_list::Read;
use attr_list::entries::Entry;
use refusals::Refusal;
use row::WIDTH;
use std::io;

// The most numbers of the row buffer, a few more than the library takes. A call with more is passed over.
const MOST_ROWS: usize = 24700;

// What each number of the row buffer is before a call.
const BEFORE: u32 = 4_000_000_000;

// How many numbers of the row buffer, in a part of it, are not what they were before the call.
fn changed(rows: &[u32]) -> usize
    ensures { result ≤ length rows.now }
{
    rows.iter().filter(|n| **n != BEFORE).count()
}

// The answer of a reading, its rows, and how many other numbers were changed.
fn write_list(rt: &impl Print, answer: Result<Read, Refusal>, rows: &[u32]) -> io::Result<()> {
    let (written, others) = match answer {
        Err(refusal) => {
            print!(rt; "{} 0 0 0", usize::from(refusal))?;
            rows.split_at(0)
        }
        Ok(read) => {
            print!(rt; "0 {} {} {}", read.rows, read.consumed, read.rejoined)?;
            rows.split_at(read.rows.saturating_mul(WIDTH).min(rows.len()))
        }
    };
    for number in written {
        print!(rt; " {number}")?;
    }
    println!(rt; " {}", changed(others))
}

// A call of a reading: its line, and the length of its row buffer.
pub(crate) fn replay_list(
    rt: &impl Print,
    numbers: &mut Numbers<'_>,
    entry: Entry,
) -> io::Result<()> {
    let line = Line::read(numbers)?;
    let room = numbers.number() as usize;
    match line {
        Some(line) if room <= MOST_ROWS => {
            let mut rows = vec![in numbers.alloc; BEFORE; room]?;
            let answer = library::parse(entry, &line, &mut rows);
            write_list(rt, answer, &rows)
        }
        _ => Ok(()),
    }
}

// A call that asks of its line whether it is a block attribute list.
pub(crate) fn replay_is_block(rt: &impl Print, numbers: &mut Numbers<'_>) -> io::Result<()> {
    let Some(line) = Line::read(numbers)? else {
        return Ok(());
    };
    match library::is_block(&line) {
        Err(refusal) => println!(rt; "{} 0", usize::from(refusal)),
        Ok(yes) => println!(rt; "0 {}", u8::from(yes)),
    }
}
