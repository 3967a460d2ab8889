// The three moves on a set that is lent: the set is left altered, and a refusal is returned. Each is a thin call of the move by value.
#![tactic(auto)]

ghost use Rattle.std.specs.Prelude.{◌≡◌};
ghost use Rattle.refusals.specs.Numbered.{refusal_number};
ghost use Rattle.substitutions.specs.Moves.{insert_answer, remove_answer, prepend_answer};

use refusals::Refusal;
use substitutions::{Mode, Subs, Substitutions};

// A set that is refused is left as it was. Three functions and none that is told the move: document 01 ("Form by location") asks for insert, remove
// and prepend, "each a thin call of the by-value move".
pub fn insert_into(set: &mut Substitutions, mode: Mode, sub: Subs) -> Result<(), Refusal>
    ensures value { refusal_number result ≡ (insert_answer mode set.old sub).refusal }
    ensures left { set.new ≡ (insert_answer mode set.old sub).set }
{
    *set = set.insert(mode, sub)?;
    Ok(())
}

pub fn remove_from(set: &mut Substitutions, mode: Mode, sub: Subs) -> Result<(), Refusal>
    ensures value { refusal_number result ≡ (remove_answer mode set.old sub).refusal }
    ensures left { set.new ≡ (remove_answer mode set.old sub).set }
{
    *set = set.remove(mode, sub)?;
    Ok(())
}

pub fn prepend_to(set: &mut Substitutions, mode: Mode, sub: Subs) -> Result<(), Refusal>
    ensures value { refusal_number result ≡ (prepend_answer mode set.old sub).refusal }
    ensures left { set.new ≡ (prepend_answer mode set.old sub).set }
{
    *set = set.prepend(mode, sub)?;
    Ok(())
}
