// What C and Rust link. Each function restates, in its own numbers, the contract of what it calls.
#![tactic(auto)]

mod anchors;
mod lists;
mod sets;
mod subs;
mod viewer_lists;

ghost use Rattle.token.specs.Lent.{line};
ghost use Rattle.telfjost.specs.Outcome.{BlockNumbers, BlockOutcome};

use refusals::Refusal;

// A refusal, 0 for none, and 1 for yes: numbers, since C has to read them.
#[repr(C)]
#[derive(Clone, Copy)]
pub struct TelfjostBool {
    pub refusal: usize,
    pub yes: usize,
}

// A refusal, 0 for none, how many rows are written, how many tokens are consumed and how many commas were taken back; the last three are 0 where the
// call is refused. Numbers, since C has to read them.
#[repr(C)]
#[derive(Clone, Copy)]
pub struct TelfjostList {
    pub refusal: usize,
    pub rows: usize,
    pub consumed: usize,
    pub rejoined: usize,
}

impl From<Result<bool, Refusal>> for TelfjostBool {
    ghost from_gives = { BlockNumbers };

    fn from(outcome: Result<bool, Refusal>) -> TelfjostBool {
        match outcome {
            Ok(yes) => TelfjostBool {
                refusal: 0,
                yes: usize::from(yes),
            },
            Err(refusal) => TelfjostBool {
                refusal: usize::from(refusal),
                yes: 0,
            },
        }
    }
}

#[unsafe(no_mangle)]
pub extern "C" fn telfjost_is_block_attr_list<'a>(
    kinds: &'a [u8],
    text: &'a [u8],
    pairs: &'a [u32],
) -> TelfjostBool
    ensures { BlockOutcome (line kinds.entry text.entry pairs.entry) result }
{
    TelfjostBool::from(attr_list::is_block_attr_list(kinds, text, pairs))
}
