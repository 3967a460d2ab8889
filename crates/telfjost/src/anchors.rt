// The anchor of a line, a function for each name that C links.
ghost use Rattle.std.specs.Prelude.{true, false};
ghost use Rattle.token.specs.Lent.{line};
ghost use Rattle.telfjost.specs.Outcome.{AnchorNumbers, AnchorOutcome};

use anchor::Anchor;
use refusals::Refusal;

// A refusal, 0 for none; 1 for an anchor; the runs of its id and of its reference text; how many tokens are consumed; and 1 where the first token of
// the reference text counts as Discard. All but the refusal are 0 where there is no anchor. Numbers, since C has to read them.
#[repr(C)]
#[derive(Clone, Copy)]
pub struct TelfjostAnchor {
    pub refusal: usize,
    pub anchor: usize,
    pub id_place: usize,
    pub id_count: usize,
    pub text_place: usize,
    pub text_count: usize,
    pub consumed: usize,
    pub discard: usize,
}

impl TelfjostAnchor {
    // No anchor, and no refusal.
    const NO_ANCHOR: TelfjostAnchor = TelfjostAnchor {
        refusal: 0,
        anchor: 0,
        id_place: 0,
        id_count: 0,
        text_place: 0,
        text_count: 0,
        consumed: 0,
        discard: 0,
    };
}

impl From<Result<Option<Anchor>, Refusal>> for TelfjostAnchor {
    ghost from_gives = { AnchorNumbers };

    fn from(outcome: Result<Option<Anchor>, Refusal>) -> TelfjostAnchor {
        match outcome {
            Ok(None) => TelfjostAnchor::NO_ANCHOR,
            Ok(Some(anchor)) => TelfjostAnchor {
                refusal: 0,
                anchor: 1,
                id_place: anchor.id.place.0,
                id_count: anchor.id.count,
                text_place: anchor.reftext.place.0,
                text_count: anchor.reftext.count,
                consumed: anchor.consumed,
                discard: usize::from(anchor.discard),
            },
            Err(refusal) => TelfjostAnchor {
                refusal: usize::from(refusal),
                ..TelfjostAnchor::NO_ANCHOR
            },
        }
    }
}

// The anchor of a block, whose line is a whole one.
#[unsafe(no_mangle)]
pub extern "C" fn telfjost_block_anchor<'a>(
    kinds: &'a [u8],
    text: &'a [u8],
    pairs: &'a [u32],
) -> TelfjostAnchor
    ensures { AnchorOutcome true (line kinds.entry text.entry pairs.entry) result }
{
    TelfjostAnchor::from(anchor::parse_block_anchor(kinds, text, pairs))
}

// The anchor within a line.
#[unsafe(no_mangle)]
pub extern "C" fn telfjost_inline_anchor<'a>(
    kinds: &'a [u8],
    text: &'a [u8],
    pairs: &'a [u32],
) -> TelfjostAnchor
    ensures { AnchorOutcome false (line kinds.entry text.entry pairs.entry) result }
{
    TelfjostAnchor::from(anchor::parse_inline_anchor(kinds, text, pairs))
}
