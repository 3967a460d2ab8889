// What is printed of a line of the file: what the reader answers, or what is wrong with the line.
use crate::call::{Asked, Call};
use crate::division::{Part, parts_of, parts_of_anchor, signs};
use crate::reader::{self, List, Reading};
use crate::rows::Shown;
use crate::soft::{softened, write_line};
use crate::tokens::{Fault, Line};
use anchor::Anchor;
use refusals::Refusal;
use std::io;

// Tells of a line of the file: a comment is printed as it stands, a line of blanks is passed over.
pub(crate) fn tell(rt: &(impl Print + AllocGlobal), number: u64, line: &[u8]) -> io::Result<()> {
    let Some(start) = line.iter().position(|b| *b != b' ') else {
        return Ok(());
    };
    let written = &line[start..];
    if written.starts_with(b"#") {
        return write_line(rt, written);
    }
    match Call::read(rt.alloc(), written) {
        Ok(call) => tell_call(rt, number, &call),
        Err(Fault::Wrong(problem, word)) => {
            print!(rt; "line {number}: {problem}: ")?;
            write_line(rt, word)
        }
        Err(Fault::OutOfMemory(error)) => Err(io::Error::from(error)),
    }
}

// Prints a line's text, and what the reader says of the line.
fn tell_call(rt: &(impl Print + AllocGlobal), number: u64, call: &Call<'_>) -> io::Result<()> {
    print!(rt; "line {number}, ")?;
    write_line(rt, call.word)?;
    rt.write_all(b"  ")?;
    write_line(rt, &call.line.text)?;
    match call.asked {
        Asked::IsBlock => match reader::is_block(rt.alloc(), &call.line)? {
            Ok(true) => println!(rt; "  a block attribute list: yes"),
            Ok(false) => println!(rt; "  a block attribute list: no"),
            Err(refusal) => tell_refusal(rt, refusal),
        },
        Asked::List(entry) => {
            let list = List {
                entry,
                line: &call.line,
            };
            match list.read(rt.alloc())? {
                Ok(reading) => tell_reading(rt, list, &reading),
                Err(refusal) => tell_refusal(rt, refusal),
            }
        }
        Asked::Anchor { is_entire_line } => {
            match reader::read_anchor(rt.alloc(), &call.line, is_entire_line)? {
                Ok(Some(anchor)) => tell_anchor(rt, &call.line, anchor),
                Ok(None) => println!(rt; "  no anchor"),
                Err(refusal) => tell_refusal(rt, refusal),
            }
        }
    }
}

// Writes a refusal: its number and its meaning.
fn tell_refusal(rt: &impl Print, refusal: Refusal) -> io::Result<()> {
    println!(rt; "  refused, {}: {refusal}", usize::from(refusal))
}

// Prints what a reading finds in a line: its division, its rows, how many tokens it consumed, and how many commas it took back, if any.
fn tell_reading(
    rt: &(impl Print + AllocGlobal),
    list: List<'_>,
    reading: &Reading,
) -> io::Result<()> {
    draw_division(rt, list, reading.consumed)?;
    let text = softened(rt.alloc(), &list.line.text)?;
    let shown = Shown {
        tokens: &list.line.tokens,
        text: &text,
    };
    for row in &reading.rows {
        shown.write_row(rt, *row)?;
    }
    tell_consumed(rt, reading.consumed)?;
    match reading.rejoined {
        0 => Ok(()),
        1 => println!(rt; "  1 comma taken back"),
        commas => println!(rt; "  {commas} commas taken back"),
    }
}

// Prints an anchor: a drawing of where its id and its reference text stand, the two in words, and how many tokens are consumed.
fn tell_anchor(rt: &(impl Print + AllocGlobal), line: &Line, anchor: Anchor) -> io::Result<()> {
    let parts = parts_of_anchor(rt.alloc(), &line.tokens, anchor)?;
    draw(rt, line, &parts)?;
    let text = softened(rt.alloc(), &line.text)?;
    let shown = Shown {
        tokens: &line.tokens,
        text: &text,
    };
    shown.write_anchor(rt, anchor)?;
    tell_consumed(rt, anchor.consumed)
}

fn tell_consumed(rt: &impl Print, consumed: usize) -> io::Result<()> {
    match consumed {
        1 => println!(rt; "  1 token consumed"),
        tokens => println!(rt; "  {tokens} tokens consumed"),
    }
}

// Draws signs under the text of a line.
fn draw(rt: &(impl Print + AllocGlobal), line: &Line, parts: &[Part]) -> io::Result<()> {
    rt.write_all(b"  ")?;
    write_line(rt, &signs(rt.alloc(), &line.text, parts)?)
}

// Draws the division of a line, under its text, up to the closing bracket, which is the last token consumed.
fn draw_division(
    rt: &(impl Print + AllocGlobal),
    list: List<'_>,
    consumed: usize,
) -> io::Result<()> {
    let alloc = rt.alloc();
    let line = list.line;
    let bracket = line.tokens.get(consumed.saturating_sub(1));
    let closing = bracket.map_or(0, |token| token.bytes().start);
    let division = list.division(alloc)?;
    let parts = parts_of(alloc, &line.tokens, &division, closing)?;
    draw(rt, line, &parts)
}
