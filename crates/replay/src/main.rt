// Replays recorded calls and writes what each answers. The calls are in the file `stdin`, one a
// line, as decimal numbers; the answers that the Rust gave to them are in `stdout`. Both files
// are made by `compare/record`, which says what each number means.
#![tactic(auto)]

mod anchors;
mod call;
mod input;
mod library;
mod line;
mod lists;
mod sets;

use call::Call;
use input::Numbers;
use std::io::{self, Read};

// Each call takes at least one byte, so there are no more calls than bytes. `while let Some(number) = numbers.next()` was tried: that it ends did not
// close, since nothing says how much text is left after `array::from_fn`, whose calls read a set.
fn replay(rt: &(impl Print + AllocGlobal), recorded: &[u8]) -> io::Result<()> {
    let mut numbers = Numbers {
        alloc: rt.alloc(),
        text: recorded,
    };
    for _ in 0..recorded.len() {
        let Some(number) = numbers.next() else {
            break;
        };
        match Call::try_from(number) {
            Ok(Call::List(entry)) => lists::replay_list(rt, &mut numbers, entry)?,
            Ok(Call::IsBlock) => lists::replay_is_block(rt, &mut numbers)?,
            Ok(Call::Anchor { is_entire_line }) => {
                anchors::replay_anchor(rt, &mut numbers, is_entire_line)?
            }
            Ok(Call::Customize(mode)) => sets::replay_set(rt, &mut numbers, Some(mode))?,
            // It is passed over, with the numbers that a call of from_meta has.
            Err(_) => sets::replay_set(rt, &mut numbers, None)?,
        }
    }
    Ok(())
}

fn main(rt: HostRuntime) -> io::Result<()> {
    let mut recorded = Vec::new(rt.alloc());
    rt.reader().take(400_000).read_to_end(&mut recorded)?;
    replay(&rt, &recorded)
}
