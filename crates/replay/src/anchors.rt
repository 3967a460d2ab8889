// Recorded calls that ask for the anchor of a line.
use crate::input::Numbers;
use crate::library;
use crate::line::Line;
use std::io;

// The eight numbers of an answer: the refusal, 1 for an anchor, the runs of its id and of its reference text, how many tokens are consumed, and 1 where the
// text's first token counts as Discard.
pub(crate) fn replay_anchor(
    rt: &impl Print,
    numbers: &mut Numbers<'_>,
    is_entire_line: bool,
) -> io::Result<()> {
    let Some(line) = Line::read(numbers)? else {
        return Ok(());
    };
    match library::anchor(&line, is_entire_line) {
        Err(refusal) => println!(rt; "{} 0 0 0 0 0 0 0", usize::from(refusal)),
        Ok(None) => println!(rt; "0 0 0 0 0 0 0 0"),
        Ok(Some(anchor)) => {
            print!(rt; "0 1 {} {} ", anchor.id.place.0, anchor.id.count)?;
            print!(rt; "{} {} ", anchor.reftext.place.0, anchor.reftext.count)?;
            println!(rt; "{} {}", anchor.consumed, u8::from(anchor.discard))
        }
    }
}
