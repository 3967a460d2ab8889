// Kept tokens and runs: code on places of the kinds. AttrRef tokens are stepped over.
#![tactic(auto)]

ghost use Rattle.std.specs.Prelude.{◌≡◌, List, ℕ, ◌+◌, ◌-◌, ◌≤◌, ◌<◌, length, get_or, eqb, ◌||◌};
ghost use Rattle.token.specs.Kind.{attr_ref, whitespace};
ghost use Rattle.token.specs.Line.{line_of};
ghost use Rattle.runs.specs.Run.{of_kind, trim_start, trim_end, trim, quote_mark, mark_of, unquote, unquoted, run_of, in_run, first_place, place_of_kind, between};
ghost use Rattle.runs.specs.Kept.{OfKept};
ghost use Rattle.runs.specs.Places.{Ends, all, StartsAt, EndsAt, Part, FoundAt};

use places::Places;
use steps::past_last_kept;
use token::kind::TokenKind;
use token::quotes::{QuoteMark, Unquoted};
use token::{Run, TokenPlace};

mod names;
pub mod places;
mod steps;

// The run of the places from `from` up to `to`.
fn run_between(from: TokenPlace, to: TokenPlace) -> Run
    ensures { result ≡ between from.0 to.0 }
{
    if from.0 < to.0 {
        return Run {
            place: from,
            count: to.0 - from.0,
        };
    }
    Run::EMPTY
}

// The mark of a quote of this kind; of any other kind, none.
fn mark_of(kind: u8) -> QuoteMark
    ensures { result ≡ mark_of kind }
{
    match TokenKind::try_from(kind) {
        Ok(TokenKind::DoubleQuote) => QuoteMark::Double,
        Ok(TokenKind::SingleQuote) => QuoteMark::Single,
        _ => QuoteMark::None,
    }
}

// Which quotes a run's first and last token are, two of one kind.
fn quotes_round(kinds: &[u8], r: Run) -> QuoteMark
    requires among { r.place.0 + r.count ≤ length kinds.now }
    requires ends { Ends kinds.now r.place.0 (r.place.0 + r.count) }
    ensures { (text pairs : List ℕ) → result ≡ quote_mark (in_run (line_of kinds.now text pairs) r) }
{
    if r.count < 2 {
        return QuoteMark::None;
    }
    let first = kinds[r.place.0];
    if kinds[r.place.0 + r.count - 1] != first {
        return QuoteMark::None;
    }
    mark_of(first)
}

// Whether a token of this kind is no part of a trimmed end: AttrRef and Whitespace.
pub(crate) fn is_passed(kind: u8) -> bool
    ensures { result ≡ (eqb kind attr_ref || eqb kind whitespace) }
{
    matches!(
        TokenKind::try_from(kind),
        Ok(TokenKind::AttrRef | TokenKind::Whitespace)
    )
}

impl<'a> Places<'a> {
    // The place of the first kept token, or `to`.
    pub fn first_kept(self) -> TokenPlace
        ensures place { OfKept (first_place self.entry.to.0) self.entry result.0 }
        ensures part { StartsAt all self.entry.kinds.now self.entry.from.0 self.entry.to.0 result.0 }
    {
        self.find(|p| self.kinds[p.0] != TokenKind::AttrRef as u8)
    }

    // The places from the first kept token on.
    pub(crate) fn skip_attr_refs(self) -> Places<'a>
        ensures kinds { result.kinds ≡ self.entry.kinds }
        ensures start { StartsAt all self.entry.kinds.now self.entry.from.0 self.entry.to.0 result.from.0 }
        ensures to { result.to ≡ self.entry.to }
    {
        Places {
            kinds: self.kinds,
            from: self.first_kept(),
            to: self.to,
        }
    }

    // The places from the first kept token on that is not Whitespace.
    fn trim_start(self) -> Places<'a>
        ensures kinds { result.kinds ≡ self.entry.kinds }
        ensures start { StartsAt trim_start self.entry.kinds.now self.entry.from.0 self.entry.to.0 result.from.0 }
        ensures to { result.to ≡ self.entry.to }
    {
        Places {
            kinds: self.kinds,
            from: self.find(|p| !is_passed(self.kinds[p.0])),
            to: self.to,
        }
    }

    // The place past the last kept token that is not Whitespace, or `from`: `trim` cuts there. By places from the end: `rposition` over the slice gives an
    // Option of a place in the slice, which is then to be moved by `from` and by one.
    fn trim_end(self) -> TokenPlace
        ensures { EndsAt trim_end self.entry.kinds.now self.entry.from.0 self.entry.to.0 result.0 }
    {
        for at in (self.from.0..self.to.0).rev() {
            if !is_passed(self.kinds[at]) {
                return TokenPlace(at + 1);
            }
        }
        self.from
    }

    // The place past the last token kept, or `from` where there is none, since `run_of` cuts there. Where the last place holds a kept token, as it does unless
    // an AttrRef ends the run, it is the place past that one; else the run is read.
    fn run_end(self) -> TokenPlace
        ensures { EndsAt all self.entry.kinds.now self.entry.from.0 self.entry.to.0 result.0 }
    {
        let end = self.to.0;
        if end <= self.from.0 || self.kinds[end - 1] != TokenKind::AttrRef as u8 {
            return self.to;
        }
        past_last_kept(self.kinds, self.from, self.to)
    }

    // The run of the kept tokens.
    pub fn run_of(self) -> Run
        ensures run { OfKept run_of self.entry result }
        ensures part { Part all self.entry.kinds.now self.entry.from.0 self.entry.to.0 result }
    {
        let rest = self.skip_attr_refs();
        run_between(rest.from, rest.run_end())
    }

    // The run of the kept tokens, less Whitespace at both ends.
    pub fn trim(self) -> Run
        ensures run { OfKept (λ ts. run_of (trim ts)) self.entry result }
        ensures part { Part trim self.entry.kinds.now self.entry.from.0 self.entry.to.0 result }
    {
        let rest = self.trim_start();
        run_between(rest.from, rest.trim_end())
    }

    // The run of the kept tokens, less two quotes of one kind round them, and which quotes these are. Inlined: a function of its own takes the places through
    // memory.
    #[inline(always)]
    pub fn unquote(self) -> Unquoted
        ensures text { OfKept unquoted self.entry result }
        ensures part { Part unquote self.entry.kinds.now self.entry.from.0 self.entry.to.0 result.run }
    {
        let run = self.run_of();
        let mark = quotes_round(self.kinds, run);
        if mark.is_none() {
            return Unquoted { run, mark };
        }
        let inside = Places {
            kinds: self.kinds,
            from: TokenPlace(run.place.0 + 1),
            to: TokenPlace(run.place.0 + run.count - 1),
        };
        Unquoted {
            run: inside.run_of(),
            mark,
        }
    }

    // The place of the first kept token of a kind, or `to`.
    pub fn find_kind(self, kind: u8) -> TokenPlace
        requires { kind ≡ attr_ref → ⊥ }
        ensures place { OfKept (place_of_kind kind self.entry.to.0) self.entry result.0 }
        ensures found { FoundAt (of_kind kind) self.entry.kinds.now self.entry.from.0 self.entry.to.0 result.0 }
    {
        self.find(|p| self.kinds[p.0] == kind)
    }
}
