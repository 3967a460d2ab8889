// What the text of a subs attribute makes of a substitution set, in port and in sheet mode.
#![tactic(auto)]

mod parts;
mod steps;

ghost use Rattle.std.specs.Prelude.{◌≡◌, true};
ghost use Rattle.std.specs.Option.{option_copied};
ghost use Rattle.substitutions.specs.Held.{held};
ghost use Rattle.substitutions.specs.Moves.{answer_of};
ghost use Rattle.customize_subs.specs.Text.{split};
ghost use Rattle.customize_subs.specs.Customizing.{part_of, start_of, stepped, through};
ghost use Rattle.customize_subs.specs.Outcome.{Makes, is_too_long};

use crate::parts::{begins_modified, has_modifier, part_in, strategy_and_name, to_comma};
use crate::steps::Asked;
use refusals::Refusal;
use subs_names::look_up;
use substitutions::{Mode, Substitutions};

// Any + or - in the text: the set given, else the empty set.
#[tactic(auto, unfolding(crate::specs::Customizing::start_of))]
fn start_of(set: Substitutions, text: &[u8]) -> Substitutions
    ensures { result ≡ start_of set text.now }
{
    if begins_modified(text) || has_modifier(text) {
        set
    } else {
        substitutions::starting::none()
    }
}

// The parts of the text, one after the other.
fn customize(mode: Mode, set: Substitutions, text: &[u8]) -> Substitutions
    requires { held set ≡ true }
    ensures { result ≡ through mode set (split text.now) }
{
    let mut next = set;
    // Where the next part begins. By its place: with `text.split(..)` a text of commas alone took half as long again.
    let mut start = 0;
    while start <= text.len() {
        let rest = &text[start..];
        let size = to_comma(rest);
        start += size + 1;
        let part = part_in(mode, &rest[..size]);
        // under 4 bytes is skipped
        if part.len() < 4 {
            continue;
        }
        let (strategy, name) = strategy_and_name(part);
        // a part whose name is not in the list is passed over
        let Some(step) = look_up(name) else {
            continue;
        };
        next = Asked { mode, strategy }.enter(step, next);
    }
    next
}

// Whether there is a text over 65,535 bytes.
fn is_too_long(text: Option<&[u8]>) -> bool
    ensures { result ≡ is_too_long (option_copied text.entry) }
{
    text.is_some_and(|text| text.len() > 65535)
}

// The text is `None` where the block has no subs attribute. `SubsTextTooLong` for a text over 65,535 bytes, then the refusals of the set.
pub fn from_meta(
    mode: Mode,
    set: Substitutions,
    text: Option<&[u8]>,
) -> Result<Substitutions, Refusal>
    ensures { Makes mode set (option_copied text.entry) (answer_of set result) }
{
    if is_too_long(text) {
        return Err(Refusal::SubsTextTooLong);
    }
    set.check(mode)?;
    match text {
        Some(text) => Ok(customize(mode, start_of(set, text), text)),
        None => Ok(set),
    }
}
