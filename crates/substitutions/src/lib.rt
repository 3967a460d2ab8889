// A substitution set: seven places and a flag byte, by value, and its three moves in port and in sheet mode.
#![tactic(auto)]

mod flags;
mod places;
mod rules;
pub mod starting;
pub mod unchecked;

ghost use Rattle.std.specs.Prelude.{◌≡◌};
ghost use Rattle.refusals.specs.Numbered.{refusal_number};
ghost use Rattle.substitutions.specs.Kinds.{Gives, number_of, kind_of, flagged};
ghost use Rattle.substitutions.specs.Held.{held, sound};
ghost use Rattle.substitutions.specs.Moves.{refusal_of, refused_with, answer_of, insert_answer, remove_answer, prepend_answer, answered};
ghost use Rattle.substitutions.specs.Loops.{unclaimed_flags, Leaves};

use crate::rules::{at_most_one, take_flags};
use refusals::Refusal;

// Kinds 1 to 7, in this order.
#[derive(Clone, Copy, Debug, PartialEq, Eq)]
pub enum Subs {
    SpecialChars = 1,
    InlineFormatting,
    AttrRefs,
    CharReplacement,
    Macros,
    PostReplacement,
    Callouts,
}

// A number that names no kind. Its own type: it tells which conversion failed.
#[derive(Clone, Copy, Debug, PartialEq, Eq)]
pub struct NotAKind(pub u8);

impl From<Subs> for u8 {
    ghost from_gives = { Gives };

    fn from(sub: Subs) -> u8 {
        sub as u8
    }
}

// The cases are listed: of the kit's derives none makes a `TryFrom`, and Rust has no cast from a number to an enum.
impl TryFrom<u8> for Subs {
    type Error = NotAKind;

    ghost try_from_gives = { λ n r. r ≡ kind_of n };

    #[tactic(auto, unfolding(crate::specs::Kinds::kind_of))]
    fn try_from(number: u8) -> Result<Subs, NotAKind> {
        match number {
            1 => Ok(Subs::SpecialChars),
            2 => Ok(Subs::InlineFormatting),
            3 => Ok(Subs::AttrRefs),
            4 => Ok(Subs::CharReplacement),
            5 => Ok(Subs::Macros),
            6 => Ok(Subs::PostReplacement),
            7 => Ok(Subs::Callouts),
            _ => Err(NotAKind(number)),
        }
    }
}

// Port mode is the Rust's, with six places to insert into; sheet mode has seven.
#[derive(Clone, Copy, Debug, PartialEq, Eq)]
pub enum Mode {
    Port,
    Sheet,
}

// The three moves.
#[derive(Clone, Copy, Debug, PartialEq, Eq)]
pub enum Move {
    Insert,
    Remove,
    Prepend,
}

// Bare bytes and no `[Option<Subs>; 7]`: C reads the struct, and document 01 has seven places and a flag byte.
#[repr(C)]
#[derive(Clone, Copy, Debug, PartialEq, Eq)]
pub struct Substitutions {
    pub places: [u8; 7],
    pub flags: u8,
}

// What C is handed: the number of the refusal and the set given, or 0 and the set that a move gives.
// A struct and no `Result`, since C has to read it.
#[repr(C)]
#[derive(Clone, Copy, Debug, PartialEq, Eq)]
pub struct SetAnswer {
    pub refusal: usize,
    pub set: Substitutions,
}

// The flags that no place has taken, or none where a place breaks a rule or bit 7 is set.
fn unclaimed_flags(set: Substitutions) -> Option<u8>
    ensures { Leaves result (unclaimed_flags set) }
{
    if set.flags >= 128 {
        return None;
    }
    // the set that most blocks have, known without a walk: the compiler compares it as one number
    if set == starting::normal() {
        return Some(0);
    }
    take_flags(set)
}

// The one place where a refusal is made: its number, and the set given.
pub fn refused(number: usize, set: Substitutions) -> SetAnswer
    ensures { result ≡ refused_with number set }
{
    SetAnswer {
        refusal: number,
        set,
    }
}

impl Substitutions {
    // Whether the set has the flag of a kind.
    pub fn contains(self, sub: Subs) -> bool
        ensures { result ≡ flagged (number_of sub) self.flags }
    {
        sub.is_flagged(self.flags)
    }

    pub fn is_held(self) -> bool
        ensures { result ≡ held self }
    {
        unclaimed_flags(self).is_some_and(at_most_one)
    }

    pub fn is_sound(self) -> bool
        ensures { result ≡ sound self }
    {
        unclaimed_flags(self) == Some(0)
    }

    // `SetNotHeld` for a set that is not held, in sheet mode `SetNotSound` for one that is held but not sound.
    pub fn check(self, mode: Mode) -> Result<(), Refusal>
        ensures { refusal_number result ≡ refusal_of mode self }
    {
        match unclaimed_flags(self) {
            Some(left) if at_most_one(left) => match mode {
                Mode::Port => Ok(()),
                Mode::Sheet => if left == 0 {
                    Ok(())
                } else {
                    Err(Refusal::SetNotSound)
                },
            },
            _ => Err(Refusal::SetNotHeld),
        }
    }

    // The moves in either mode: a refusal, or what the move gives. Three functions beside `make`: document 01 has the three moves by value, of
    // which those on loan are thin calls.
    pub fn insert(self, mode: Mode, sub: Subs) -> Result<Substitutions, Refusal>
        ensures { answer_of self result ≡ insert_answer mode self sub }
    {
        self.make(Move::Insert, mode, sub)
    }

    pub fn remove(self, mode: Mode, sub: Subs) -> Result<Substitutions, Refusal>
        ensures { answer_of self result ≡ remove_answer mode self sub }
    {
        self.make(Move::Remove, mode, sub)
    }

    pub fn prepend(self, mode: Mode, sub: Subs) -> Result<Substitutions, Refusal>
        ensures { answer_of self result ≡ prepend_answer mode self sub }
    {
        self.make(Move::Prepend, mode, sub)
    }

    // The move that is asked for. Strategy and mode are two parameters and no struct, here, in `unchecked::make` and in `telfjost::sets::make`: whoever has one
    // set and one move would make a value of the two only to take it apart again.
    pub fn make(self, strategy: Move, mode: Mode, sub: Subs) -> Result<Substitutions, Refusal>
        ensures { answer_of self result ≡ answered strategy mode self sub }
    {
        self.check(mode)?;
        Ok(unchecked::make(strategy, mode, self, sub))
    }

    // A move's outcome as C reads it: 0 and the set that the move gives, or the refusal's number and this set, which the call was given.
    pub fn answer(self, outcome: Result<Substitutions, Refusal>) -> SetAnswer
        ensures { result ≡ answer_of self outcome }
    {
        match outcome {
            Ok(set) => SetAnswer { refusal: 0, set },
            Err(refusal) => refused(usize::from(refusal), self),
        }
    }
}
