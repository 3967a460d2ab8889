// Recorded calls of from_meta.
use crate::input::{Numbers, byte_of};
use crate::library;
use crate::line::MOST_BYTES;
use refusals::{Refusal, number_or_0};
use std::{array, io};
use substitutions::{Mode, Substitutions};

// The answer of a call that was given a set, which is left as it is where the call is refused: the refusal, the set's places and flags, and the end of
// the line.
fn write_answer(
    rt: &impl Print,
    answer: Result<Substitutions, Refusal>,
    given: Substitutions,
) -> io::Result<()> {
    let left = answer.unwrap_or(given);
    print!(rt; "{}", number_or_0(answer.map(|_| ())))?;
    for place in left.places {
        print!(rt; " {place}")?;
    }
    println!(rt; " {}", left.flags)
}

// A call that takes a set: its places and flags, whether there is a subs attribute, and the text.
pub(crate) fn replay_set(
    rt: &impl Print,
    numbers: &mut Numbers<'_>,
    mode: Option<Mode>,
) -> io::Result<()> {
    let set = Substitutions {
        places: array::from_fn(|_| byte_of(numbers.number())),
        flags: byte_of(numbers.number()),
    };
    let present = numbers.number() == 1;
    let text = numbers.bytes(MOST_BYTES, b'a')?;
    let (Some(mode), Some(text)) = (mode, text) else {
        return Ok(());
    };
    let answer = library::from_meta(mode, set, present.then_some(text.as_slice()));
    write_answer(rt, answer, set)
}
