// What decides whether a set is held.
ghost use Rattle.std.specs.Prelude.{◌≡◌, ◌≤◌, ◌<◌, eqb};
ghost use Rattle.std.specs.List.{list_all};
ghost use Rattle.substitutions.specs.Loops.{few, left, Leaves};

use crate::{Subs, Substitutions};

// Whether all places are empty.
fn all_empty(places: &[u8]) -> bool
    ensures { result ≡ list_all (λ p. eqb p 0) places.now }
{
    places.iter().all(|p| *p == 0)
}

// Each place takes its kind's flag: the flags left, or none at a place that breaks a rule. Never inlined, since few sets need the walk.
#[inline(never)]
pub(crate) fn take_flags(set: Substitutions) -> Option<u8>
    requires { set.flags < 128 }
    ensures { Leaves result (left set.flags set.places) }
{
    let places = set.places;
    let mut f = set.flags;
    for (i, place) in places.iter().enumerate() {
        if *place == 0 {
            return all_empty(&places[i..]).then_some(f);
        }
        let Ok(sub) = Subs::try_from(*place) else {
            return None;
        };
        if !sub.is_flagged(f) {
            return None;
        }
        let taken = sub.flag();
        f -= taken;
    }
    Some(f)
}

// Whether a byte has at most one of the seven flags, and no bit 7.
#[tactic(auto, unfolding(crate::specs::Loops::few))]
pub(crate) fn at_most_one(flags: u8) -> bool
    ensures { result ≡ few flags }
{
    matches!(flags, 0 | 1 | 2 | 4 | 8 | 16 | 32 | 64)
}
