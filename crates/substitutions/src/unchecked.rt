// The moves as defined, for every set and with no refusal. `customize_subs` checks a set once and then makes many moves; whoever
// has a set of unknown origin calls the methods of `Substitutions`, which check it.
ghost use Rattle.std.specs.Prelude.{◌≡◌, ◌≤◌};
ghost use Rattle.substitutions.specs.Kinds.{number_of};
ghost use Rattle.substitutions.specs.Moves.{room, insert_of, remove_of, prepend_of, moved};

use crate::places::{fill, lead, take_out};
use crate::{Mode, Move, Subs, Substitutions};

// The places that insert may fill.
fn places_to_fill(mode: Mode) -> usize
    ensures value { result ≡ room mode }
    ensures within { (6 ≤ result) × (result ≤ 7) }
{
    match mode {
        Mode::Port => 6,
        Mode::Sheet => 7,
    }
}

fn insert(mode: Mode, set: Substitutions, sub: Subs) -> Substitutions
    ensures { result ≡ insert_of (room mode) (number_of sub) set }
{
    let flags = set.flags;
    if sub.is_flagged(flags) {
        return set;
    }
    Substitutions {
        places: fill(set.places, places_to_fill(mode), sub),
        flags: flags + sub.flag(),
    }
}

fn remove(set: Substitutions, sub: Subs) -> Substitutions
    ensures { result ≡ remove_of (number_of sub) set }
{
    let flags = set.flags;
    if !sub.is_flagged(flags) {
        return set;
    }
    Substitutions {
        places: take_out(set.places, sub),
        flags: flags - sub.flag(),
    }
}

fn prepend(set: Substitutions, sub: Subs) -> Substitutions
    ensures { result ≡ prepend_of (number_of sub) set }
{
    let flags = set.flags;
    let places = set.places;
    let led = lead(places, sub);
    if sub.is_flagged(flags) {
        return Substitutions { places: led, flags };
    }
    Substitutions {
        places: led,
        flags: flags + sub.flag(),
    }
}

// The move that is asked for: a `match` and no closure, since the text of a subs attribute chooses the move. Never inlined, so that the
// parts of a text that leave the set as it is, which most do, pay nothing for it.
#[inline(never)]
pub fn make(strategy: Move, mode: Mode, set: Substitutions, sub: Subs) -> Substitutions
    ensures { result ≡ moved mode strategy (number_of sub) set }
{
    match strategy {
        Move::Insert => insert(mode, set, sub),
        Move::Remove => remove(set, sub),
        Move::Prepend => prepend(set, sub),
    }
}
