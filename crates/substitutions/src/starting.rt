// The sets that the Rust starts a block with, as functions: a constant has no contract. Their places and flags are written as the numbers that C reads.
// Its `verbatim` is 1 and 7, while the text `verbatim` in port mode gives 1 and 4.
ghost use Rattle.std.specs.Prelude.{◌≡◌};
ghost use Rattle.substitutions.specs.Moves.{empty_set};
ghost use Rattle.substitutions.specs.Starting.{normal_set, verbatim_set, attr_value_set, only_special_chars_set, all_set};

use crate::Substitutions;

// The empty set.
pub fn none() -> Substitutions
    ensures { result ≡ empty_set }
{
    Substitutions {
        places: [0, 0, 0, 0, 0, 0, 0],
        flags: 0,
    }
}

// A paragraph's: every kind but callouts.
#[tactic(auto, unfolding(crate::specs::Order::flags_of))]
pub fn normal() -> Substitutions
    ensures { result ≡ normal_set }
{
    Substitutions {
        places: [1, 2, 3, 4, 5, 6, 0],
        flags: 63,
    }
}

// A listing's: specialchars and callouts.
#[tactic(auto, unfolding(crate::specs::Order::flags_of))]
pub fn verbatim() -> Substitutions
    ensures { result ≡ verbatim_set }
{
    Substitutions {
        places: [1, 7, 0, 0, 0, 0, 0],
        flags: 65,
    }
}

// A named attribute's value.
#[tactic(auto, unfolding(crate::specs::Order::flags_of))]
pub fn attr_value() -> Substitutions
    ensures { result ≡ attr_value_set }
{
    Substitutions {
        places: [1, 2, 3, 4, 0, 0, 0],
        flags: 15,
    }
}

#[tactic(auto, unfolding(crate::specs::Order::flags_of))]
pub fn only_special_chars() -> Substitutions
    ensures { result ≡ only_special_chars_set }
{
    Substitutions {
        places: [1, 0, 0, 0, 0, 0, 0],
        flags: 1,
    }
}

// Every kind.
#[tactic(auto, unfolding(crate::specs::Order::flags_of))]
pub fn all() -> Substitutions
    ensures { result ≡ all_set }
{
    Substitutions {
        places: [1, 2, 3, 4, 5, 6, 7],
        flags: 127,
    }
}
