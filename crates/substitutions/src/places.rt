// The moves on the seven places alone.
ghost use Rattle.std.specs.Prelude.{◌≡◌, ◌≤◌, ◌<◌, eqb, position};
ghost use Rattle.substitutions.specs.Kinds.{number_of};
ghost use Rattle.substitutions.specs.Moves.{filled, without, led};
ghost use Rattle.substitutions.specs.Loops.{closed};

use crate::Subs;
use std::mem;

// The first of the places that has the byte.
fn first_with(places: &[u8], byte: u8) -> Option<usize>
    ensures { result ≡ position (λ p. eqb p byte) places.now }
{
    places.iter().position(|place| *place == byte)
}

// The first empty place among the first n is filled with the kind.
pub(crate) fn fill(places: [u8; 7], n: usize, sub: Subs) -> [u8; 7]
    requires { n ≤ 7 }
    ensures { result ≡ filled n (number_of sub) places }
{
    let mut p = places;
    if let Some(at) = first_with(&p[..n], 0) {
        p[at] = u8::from(sub);
    }
    p
}

// What stands behind place `at` moves forward by one.
pub(crate) fn close(places: [u8; 7], at: usize) -> [u8; 7]
    requires { at < 7 }
    ensures { result ≡ closed at places }
{
    let mut p = places;
    p.copy_within(at + 1.., at);
    p[6] = 0;
    p
}

pub(crate) fn take_out(places: [u8; 7], sub: Subs) -> [u8; 7]
    ensures { result ≡ without (number_of sub) places }
{
    match first_with(&places, u8::from(sub)) {
        Some(at) => close(places, at),
        None => places,
    }
}

// Each place takes what stood before it, up to where the kind stood.
pub(crate) fn lead(places: [u8; 7], sub: Subs) -> [u8; 7]
    ensures { result ≡ led (number_of sub) places }
{
    let kind = u8::from(sub);
    let mut p = places;
    let mut carried = kind;
    for place in &mut p {
        carried = mem::replace(place, carried);
        if carried == kind {
            break;
        }
    }
    p
}
