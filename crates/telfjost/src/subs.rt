// What a subs text makes of a set, a function for each name that C links. A set and an answer are handed over as the crate `substitutions` has them.
ghost use Rattle.std.specs.Prelude.{◌≡◌};
ghost use Rattle.customize_subs.specs.Outcome.{PortOutcome, SheetOutcome, MetaOutcome};

use customize_subs::from_meta;
use substitutions::{Mode, SetAnswer, Substitutions};

// `present` is false where the block has no subs attribute; the text is then not looked at. C has no `Option` of a text.
fn customized(mode: Mode, set: Substitutions, present: bool, text: &[u8]) -> SetAnswer
    ensures { MetaOutcome mode set present text.now result }
{
    set.answer(from_meta(mode, set, present.then_some(text)))
}

#[unsafe(no_mangle)]
pub extern "C" fn telfjost_from_meta(set: Substitutions, present: bool, text: &[u8]) -> SetAnswer
    ensures { PortOutcome set present text.now result }
{
    customized(Mode::Port, set, present, text)
}

#[unsafe(no_mangle)]
pub extern "C" fn telfjost_from_meta_sheet(
    set: Substitutions,
    present: bool,
    text: &[u8],
) -> SetAnswer
    ensures { SheetOutcome set present text.now result }
{
    customized(Mode::Sheet, set, present, text)
}
