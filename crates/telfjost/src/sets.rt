// The moves, the checks and the starting sets of a substitution set, a function for each name that C links. A kind is given by its number.
ghost use Rattle.std.specs.Prelude.{◌≡◌};
ghost use Rattle.substitutions.specs.Kinds.{kind_of};
ghost use Rattle.substitutions.specs.Moves.{empty_set, refusal_of, insert_answer, remove_answer, prepend_answer, answered};
ghost use Rattle.substitutions.specs.Starting.{normal_set, verbatim_set, attr_value_set, only_special_chars_set, all_set};
ghost use Rattle.telfjost.specs.ByNumber.{by_number, contains_number};

use refusals::number_or_0;
use substitutions::{Mode, Move, SetAnswer, Subs, Substitutions};

// A move of the kind that the number names. A number that names none is passed over: the set's own refusal, and the set given.
// Inlined, as `parsed` is, so that each name that C links has its move and its mode at compile time.
#[inline(always)]
fn make(strategy: Move, mode: Mode, set: Substitutions, kind: u8) -> SetAnswer
    ensures { result ≡ by_number (answered strategy) mode set (kind_of kind) }
{
    let outcome = match Subs::try_from(kind) {
        Ok(sub) => set.make(strategy, mode, sub),
        Err(_) => set.check(mode).map(|()| set),
    };
    set.answer(outcome)
}

#[unsafe(no_mangle)]
pub extern "C" fn telfjost_insert(set: Substitutions, kind: u8) -> SetAnswer
    ensures { result ≡ by_number insert_answer Mode.Port set (kind_of kind) }
{
    make(Move::Insert, Mode::Port, set, kind)
}

#[unsafe(no_mangle)]
pub extern "C" fn telfjost_remove(set: Substitutions, kind: u8) -> SetAnswer
    ensures { result ≡ by_number remove_answer Mode.Port set (kind_of kind) }
{
    make(Move::Remove, Mode::Port, set, kind)
}

#[unsafe(no_mangle)]
pub extern "C" fn telfjost_prepend(set: Substitutions, kind: u8) -> SetAnswer
    ensures { result ≡ by_number prepend_answer Mode.Port set (kind_of kind) }
{
    make(Move::Prepend, Mode::Port, set, kind)
}

#[unsafe(no_mangle)]
pub extern "C" fn telfjost_insert_sheet(set: Substitutions, kind: u8) -> SetAnswer
    ensures { result ≡ by_number insert_answer Mode.Sheet set (kind_of kind) }
{
    make(Move::Insert, Mode::Sheet, set, kind)
}

#[unsafe(no_mangle)]
pub extern "C" fn telfjost_remove_sheet(set: Substitutions, kind: u8) -> SetAnswer
    ensures { result ≡ by_number remove_answer Mode.Sheet set (kind_of kind) }
{
    make(Move::Remove, Mode::Sheet, set, kind)
}

#[unsafe(no_mangle)]
pub extern "C" fn telfjost_prepend_sheet(set: Substitutions, kind: u8) -> SetAnswer
    ensures { result ≡ by_number prepend_answer Mode.Sheet set (kind_of kind) }
{
    make(Move::Prepend, Mode::Sheet, set, kind)
}

#[unsafe(no_mangle)]
pub extern "C" fn telfjost_set_refusal(set: Substitutions) -> usize
    ensures { result ≡ refusal_of Mode.Port set }
{
    number_or_0(set.check(Mode::Port))
}

#[unsafe(no_mangle)]
pub extern "C" fn telfjost_set_refusal_sheet(set: Substitutions) -> usize
    ensures { result ≡ refusal_of Mode.Sheet set }
{
    number_or_0(set.check(Mode::Sheet))
}

#[unsafe(no_mangle)]
pub extern "C" fn telfjost_contains(set: Substitutions, kind: u8) -> bool
    ensures { result ≡ contains_number set (kind_of kind) }
{
    Subs::try_from(kind).is_ok_and(|sub| set.contains(sub))
}

#[unsafe(no_mangle)]
pub extern "C" fn telfjost_none() -> Substitutions
    ensures { result ≡ empty_set }
{
    substitutions::starting::none()
}

#[unsafe(no_mangle)]
pub extern "C" fn telfjost_normal() -> Substitutions
    ensures { result ≡ normal_set }
{
    substitutions::starting::normal()
}

#[unsafe(no_mangle)]
pub extern "C" fn telfjost_verbatim() -> Substitutions
    ensures { result ≡ verbatim_set }
{
    substitutions::starting::verbatim()
}

#[unsafe(no_mangle)]
pub extern "C" fn telfjost_attr_value() -> Substitutions
    ensures { result ≡ attr_value_set }
{
    substitutions::starting::attr_value()
}

#[unsafe(no_mangle)]
pub extern "C" fn telfjost_only_special_chars() -> Substitutions
    ensures { result ≡ only_special_chars_set }
{
    substitutions::starting::only_special_chars()
}

#[unsafe(no_mangle)]
pub extern "C" fn telfjost_all() -> Substitutions
    ensures { result ≡ all_set }
{
    substitutions::starting::all()
}
