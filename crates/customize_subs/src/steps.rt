// A name entered into a set by a part's move.
ghost use Rattle.std.specs.Prelude.{◌≡◌, true, [], ◌∷◌, map};
ghost use Rattle.substitutions.specs.Kinds.{number_of, flag_of};
ghost use Rattle.substitutions.specs.Held.{held};
ghost use Rattle.customize_subs.specs.Customizing.{move_of, verbatim_of, kinds_of, entered};
ghost use Rattle.substitutions.specs.Moves.{set};
ghost use Rattle.customize_subs.specs.Steps.{is_no_op, set_of_name};

use subs_names::StepOrGroup;
use substitutions::{Mode, Move, Subs, Substitutions, starting, unchecked};

// What a part asks for: its move, in the mode of the call. The Rust's name of the move is `strategy`.
#[derive(Clone, Copy)]
pub(crate) struct Asked {
    pub mode: Mode,
    pub strategy: Move,
}

const NORMAL: [Subs; 6] = [
    Subs::SpecialChars,
    Subs::InlineFormatting,
    Subs::AttrRefs,
    Subs::CharReplacement,
    Subs::Macros,
    Subs::PostReplacement,
];

fn verbatim(mode: Mode) -> [Subs; 2]
    ensures { map number_of result ≡ verbatim_of mode }
{
    match mode {
        Mode::Port => [Subs::SpecialChars, Subs::CharReplacement],
        Mode::Sheet => [Subs::SpecialChars, Subs::Callouts],
    }
}

// The set of one kind.
fn alone(sub: Subs) -> Substitutions
    ensures { result ≡ set (number_of sub ∷ 0 ∷ 0 ∷ 0 ∷ 0 ∷ 0 ∷ 0 ∷ []) (flag_of (number_of sub)) }
{
    Substitutions {
        places: [u8::from(sub), 0, 0, 0, 0, 0, 0],
        flags: sub.flag(),
    }
}

// The set that has the kinds of a name and no others. The names of one kind stand here and in `enter_kinds`: a function that gives a name's kind, if it has
// one, would leave each of the two a match on the three other names, with an arm that never comes. `StepOrGroup` has a case for each name, as the definitions
// `lookup_of` and `kinds_of` have.
#[tactic(auto, unfolding(substitutions::specs::Order::flags_of))]
fn set_of_name(mode: Mode, step: StepOrGroup) -> Substitutions
    ensures { result ≡ set_of_name mode step }
{
    match (step, mode) {
        (StepOrGroup::None, _) => starting::none(),
        (StepOrGroup::Normal, _) => starting::normal(),
        // no starting set of the Rust's: its text `verbatim` gives 1 and 4, as numbers, as the sets of `starting` have them
        (StepOrGroup::Verbatim, Mode::Port) => Substitutions {
            places: [1, 4, 0, 0, 0, 0, 0],
            flags: 9,
        },
        (StepOrGroup::Verbatim, Mode::Sheet) => starting::verbatim(),
        (StepOrGroup::SpecialChars, _) => alone(Subs::SpecialChars),
        (StepOrGroup::Quotes, _) => alone(Subs::InlineFormatting),
        (StepOrGroup::Attributes, _) => alone(Subs::AttrRefs),
        (StepOrGroup::Replacements, _) => alone(Subs::CharReplacement),
        (StepOrGroup::Macros, _) => alone(Subs::Macros),
        (StepOrGroup::PostReplacements, _) => alone(Subs::PostReplacement),
        (StepOrGroup::Callouts, _) => alone(Subs::Callouts),
    }
}

impl Asked {
    // Whether the move leaves the set as it is: an insert of what is in it, a remove of what is not.
    fn is_no_op(self, set: Substitutions, sub: Subs) -> bool
        ensures { result ≡ is_no_op self.strategy (number_of sub) set }
    {
        let there = set.contains(sub);
        match self.strategy {
            Move::Insert => there,
            Move::Prepend => false,
            Move::Remove => !there,
        }
    }

    // One kind. A set that the move leaves as it is is handed back at once; a move takes it apart and puts it together again. Always
    // inlined, so that handing it back is no call.
    #[inline(always)]
    fn enter_kind(self, set: Substitutions, sub: Subs) -> Substitutions
        ensures { result ≡ move_of self.mode self.strategy (number_of sub) set }
    {
        if self.is_no_op(set, sub) {
            return set;
        }
        unchecked::make(self.strategy, self.mode, set, sub)
    }

    // Kinds one after the other.
    fn enter_all(self, set: Substitutions, kinds: &[Subs]) -> Substitutions
        ensures { result ≡ entered self.mode self.strategy (map number_of kinds.now) set }
    {
        let mut next = set;
        for sub in kinds {
            next = self.enter_kind(next, *sub);
        }
        next
    }

    // The kinds of a name, one after the other. A slice of kinds for each name (`&[Subs::Macros]`) was tried: one loop over it took 120 parts
    // from 2,384 ns to 2,920, more than the Rust, which no subs text is to be slower than.
    #[tactic(auto, unfolding(crate::specs::Customizing::entered))]
    fn enter_kinds(self, step: StepOrGroup, set: Substitutions) -> Substitutions
        ensures { result ≡ entered self.mode self.strategy (kinds_of self.mode step) set }
    {
        let sub = match step {
            StepOrGroup::None => return set,
            StepOrGroup::Normal => return self.enter_all(set, &NORMAL),
            StepOrGroup::Verbatim => return self.enter_all(set, &verbatim(self.mode)),
            StepOrGroup::SpecialChars => Subs::SpecialChars,
            StepOrGroup::Quotes => Subs::InlineFormatting,
            StepOrGroup::Attributes => Subs::AttrRefs,
            StepOrGroup::Replacements => Subs::CharReplacement,
            StepOrGroup::Macros => Subs::Macros,
            StepOrGroup::PostReplacements => Subs::PostReplacement,
            StepOrGroup::Callouts => Subs::Callouts,
        };
        self.enter_kind(set, sub)
    }

    // A name. A held set with no flag is empty, and an insert makes of it the set of the name alone, which is known.
    pub(crate) fn enter(self, step: StepOrGroup, set: Substitutions) -> Substitutions
        requires { held set ≡ true }
        ensures { result ≡ entered self.mode self.strategy (kinds_of self.mode step) set }
    {
        match self.strategy {
            Move::Insert if set.flags == 0 => set_of_name(self.mode, step),
            _ => self.enter_kinds(step, set),
        }
    }
}
