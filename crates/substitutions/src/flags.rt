// The flag of a kind, in a flag byte.
ghost use Rattle.std.specs.Prelude.{◌≡◌, ◌≤◌};
ghost use Rattle.substitutions.specs.Kinds.{number_of, flag_of, flagged};

use crate::Subs;

impl Subs {
    pub fn flag(self) -> u8
        ensures value { result ≡ flag_of (number_of self) }
        ensures within { (1 ≤ result) × (result ≤ 64) }
    {
        1 << (self as u8 - 1)
    }

    #[tactic(auto, unfolding(crate::specs::Kinds::flagged))]
    pub(crate) fn is_flagged(self, flags: u8) -> bool
        ensures { result ≡ flagged (number_of self) flags }
    {
        (flags >> (self as u8 - 1)) % 2 == 1
    }
}
