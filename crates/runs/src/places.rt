// Places of a line.
ghost use Rattle.std.specs.Prelude.{ℕ, ◌≤◌, ◌<◌, length};
ghost use Rattle.runs.specs.Places.{FirstOf, place_at};

use token::TokenPlace;
use token::lent::Line;

// The places of some kinds from `from` up to and without `to`. That there is one is asked by four functions, of these or of `Tokens`, and is no type: it would
// be made at each caller's test and taken apart at once. A literal of these two gives every field: Rattle has no `..self` for a struct with a ghost field.
#[derive(Clone, Copy)]
pub struct Places<'a> {
    pub kinds: &'a [u8],
    pub from: TokenPlace,
    pub to: TokenPlace,
    pub ghost within: { (from.0 ≤ to.0) × (to.0 ≤ length kinds.now) },
}

// The tokens of a line from `from` up to and without `to`. No `Places` of a line, since what reads kinds alone is asked of any kinds, checked or not.
#[derive(Clone, Copy)]
pub struct Tokens<'a> {
    pub line: Line<'a>,
    pub from: TokenPlace,
    pub to: TokenPlace,
    pub ghost within: { (from.0 ≤ to.0) × (to.0 ≤ length line.kinds.now) },
}

impl<'a> Places<'a> {
    // The first of the places at which `wanted` holds, or `to`. No Option: what `first_kept` and `find_kind` promise names `to` where there is none, and most
    // callers cut the places there. A `for`, as the places are two numbers and no items: a chain would make a range, places of its numbers and an Option of one,
    // and undo the last.
    pub fn find<F: Fn(TokenPlace) -> bool>(self, wanted: F) -> TokenPlace
        requires { (i : ℕ) → self.from.0 ≤ i → i < self.to.0 → F.pre wanted (place_at i) }
        ensures { FirstOf (F.post wanted) self.entry.from.0 self.entry.to.0 result.0 }
    {
        for i in self.from.0..self.to.0 {
            if wanted(TokenPlace(i)) {
                return TokenPlace(i);
            }
        }
        self.to
    }
}

impl<'a> Tokens<'a> {
    ghost use Rattle.std.specs.Prelude.{◌≡◌};
    ghost use Rattle.runs.specs.Kept.{places_in};

    // Their places.
    pub fn places(self) -> Places<'a>
        ensures { result ≡ places_in self.entry }
    {
        Places {
            kinds: self.line.kinds,
            from: self.from,
            to: self.to,
        }
    }
}
