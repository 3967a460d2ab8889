// Runs the three moves by value and on loan, in both modes, and counts the answers that differ: every held set with every kind, and sets that are
// not held with one kind each.
#![tactic(auto)]

ghost use Rattle.std.specs.Prelude.{◌≡◌, ◌≤◌};
ghost use Rattle.substitutions.specs.Moves.{answered};

use lent_moves::{insert_into, prepend_to, remove_from};
use refusals::number_or_0;
use std::io;
use substitutions::{Mode, Move, SetAnswer, Subs, Substitutions};

// How many sets are held, how many are refused because they are not, and how many answers differ.
#[derive(Clone, Copy, Default)]
struct Count {
    held: u64,
    refused: u64,
    differ: u64,
}

const KINDS: [Subs; 7] = [
    Subs::SpecialChars,
    Subs::InlineFormatting,
    Subs::AttrRefs,
    Subs::CharReplacement,
    Subs::Macros,
    Subs::PostReplacement,
    Subs::Callouts,
];

// What is asked of a set: a move, in a mode, of a kind.
#[derive(Clone, Copy)]
struct Case {
    strategy: Move,
    mode: Mode,
    sub: Subs,
}

impl Case {
    // The answer as C is handed it, and no `Result`: a refused set is compared too, and one definition (`answered`) says both.
    fn by_value(self, set: Substitutions) -> SetAnswer
        ensures { result ≡ answered self.strategy self.mode set self.sub }
    {
        set.answer(set.make(self.strategy, self.mode, self.sub))
    }

    // A copy of the set is lent to the move, and handed back with the number of the refusal that the move returns. A `match` and no closure
    // that is handed in: the contract names the move.
    fn on_loan(self, set: Substitutions) -> SetAnswer
        ensures { result ≡ answered self.strategy self.mode set self.sub }
    {
        let mut lent = set;
        let outcome = match self.strategy {
            Move::Insert => insert_into(&mut lent, self.mode, self.sub),
            Move::Remove => remove_from(&mut lent, self.mode, self.sub),
            Move::Prepend => prepend_to(&mut lent, self.mode, self.sub),
        };
        SetAnswer {
            refusal: number_or_0(outcome),
            set: lent,
        }
    }

    // 1 where the two answers differ, else 0. A number and no bool: the answers that differ are added up.
    fn differs(self, set: Substitutions) -> u64
        ensures { result ≤ 1 }
    {
        u64::from(self.by_value(set) != self.on_loan(set))
    }
}

// The three moves of one kind.
fn over_mode(mode: Mode, set: Substitutions, sub: Subs) -> u64
    ensures { result ≤ 3 }
{
    let differs = |strategy| Case {
        strategy,
        mode,
        sub,
    }
    .differs(set);
    differs(Move::Insert) + differs(Move::Remove) + differs(Move::Prepend)
}

// The same in both modes.
fn over_kind(set: Substitutions, sub: Subs) -> u64
    ensures { result ≤ 6 }
{
    over_mode(Mode::Port, set, sub) + over_mode(Mode::Sheet, set, sub)
}

fn over_kinds(set: Substitutions) -> u64
    ensures { result ≤ 42 }
{
    let mut differ = 0;
    for sub in KINDS {
        differ += over_kind(set, sub);
    }
    differ
}

// Every byte of flags, with these places. A set that is not held is refused whatever the kind, so one kind is enough.
fn over_flags(places: [u8; 7]) -> Count
    ensures { (result.held ≤ 256) × ((result.refused ≤ 256) × (result.differ ≤ 10752)) }
{
    let mut count = Count::default();
    // The kinds are taken in turn, by index. `(0..=255u8).zip(KINDS.iter().cycle())` was tried: that the sums fit did not close, since the turns of a
    // `zip` are not counted for the loop.
    for n in 0..256usize {
        let flags = n as u8;
        let set = Substitutions { places, flags };
        if set.is_held() {
            count.held += 1;
            count.differ += over_kinds(set);
        } else {
            count.refused += 1;
            count.differ += over_kind(set, KINDS[(n + 1) % 7]);
        }
    }
    count
}

// The flags of the kinds in the places.
fn flags_of(places: [u8; 7]) -> u8 {
    places
        .iter()
        .filter_map(|place| Subs::try_from(*place).ok())
        .fold(0, |flags, sub| flags | sub.flag())
}

// The places whose digits to the base 9 are the number's.
fn places_of(number: usize) -> [u8; 7] {
    let mut places = [0u8; 7];
    let mut rest = number;
    for place in &mut places {
        *place = (rest % 9) as u8;
        rest /= 9;
    }
    places
}

// All seven places from 0 to 8: with every byte of flags where the flags of the places give a held set, else with those flags alone, since
// with such places no flags do.
fn over_places() -> Count
    ensures { (result.held ≤ 1224440064) × (result.refused ≤ 1224440064) }
{
    let mut count = Count::default();
    // Numbers whose digits are the places. The kinds are taken in turn, by index, as in `over_flags`, where a `zip` with a cycle did not close.
    for number in 0..4782969usize {
        let places = places_of(number);
        let flags = flags_of(places);
        let set = Substitutions { places, flags };
        if set.is_held() {
            let more = over_flags(places);
            count.held += more.held;
            count.refused += more.refused;
            count.differ += more.differ;
        } else {
            count.refused += 1;
            count.differ += over_kind(set, KINDS[(number + 1) % 7]);
        }
    }
    count
}

fn main(rt: HostRuntime) -> io::Result<()> {
    let Count {
        held,
        refused,
        differ,
    } = over_places();
    print!(rt; "{held} held sets, {} moves; ", held * 42)?;
    print!(rt; "{refused} sets that are not held, {} moves; ", refused * 6)?;
    println!(rt; "by value and on loan, {differ} differ")
}
