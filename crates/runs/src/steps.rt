// A run read token by token, over kinds on loan. AttrRef tokens are stepped over.
ghost use Rattle.std.specs.Prelude.{◌<◌, ◌≤◌, length};
ghost use Rattle.runs.specs.Places.{all, EndsAt};
ghost use Rattle.runs.specs.Stepping.{Stepped};

use crate::places::Places;
use token::TokenPlace;

impl<'a> Places<'a> {
    // The one step, of what is left to read: past the token at the first place, to the next token kept, or to the place past the run.
    fn step(self) -> Places<'a>
        requires { self.from.0 < self.to.0 }
        ensures { Stepped self.entry result }
    {
        let rest = Places {
            kinds: self.kinds,
            from: TokenPlace(self.from.0 + 1),
            to: self.to,
        };
        rest.skip_attr_refs()
    }
}

// The place past the last token kept of the places from `from` up to `to`, or `from` where there is none, since `run_of` cuts there: a whole run is read
// token by token, by the step that document 01 names for this struct, so the loop is no `for`. Plain parameters: the struct is made here, and stepped along.
pub(crate) fn past_last_kept(kinds: &[u8], from: TokenPlace, to: TokenPlace) -> TokenPlace
    requires order { from.0 ≤ to.0 }
    requires among { to.0 ≤ length kinds.now }
    ensures { EndsAt all kinds.now from.0 to.0 result.0 }
{
    let run = Places { kinds, from, to };
    let mut left = run.skip_attr_refs();
    let mut past = from;
    while left.from.0 < to.0 {
        past = TokenPlace(left.from.0 + 1);
        left = left.step();
    }
    past
}
