// The reference text of an anchor, and the two brackets that close it.
ghost use Rattle.std.specs.Prelude.{◌≡◌, ◌+◌, ◌≤◌, ◌<◌, eqb, length, drop, position, IfSome};
ghost use Rattle.token.specs.Kind.{discard};
ghost use Rattle.anchor.specs.Anchor.{is_bracket, leading_kind, text_end, two_brackets, with_text};
ghost use Rattle.anchor.specs.Numbers.{numbers_or_12};

use super::{Anchor, run_at};
use token::Run;
use token::kind::TokenKind;

// The two brackets that close an anchor.
const BRACKETS: [u8; 2] = [TokenKind::CloseBracket as u8; 2];

// The place of the first bracket, if there is one.
fn first_bracket(rest: &[u8]) -> Option<usize>
    ensures { result ≡ position is_bracket rest.now }
{
    rest.iter()
        .position(|k| *k == TokenKind::CloseBracket as u8)
}

// Where the two brackets must stand among the tokens after the Comma: of a whole line at its last token but one, inline at the first bracket.
#[tactic(auto, unfolding(crate::specs::Anchor::text_end))]
fn text_end(rest: &[u8], is_entire_line: bool) -> Option<usize>
    ensures place { result ≡ text_end is_entire_line rest.now }
    ensures within { IfSome result (λ at. at ≤ length rest.now) }
{
    if is_entire_line {
        rest.len().checked_sub(2)
    } else {
        first_bracket(rest)
    }
}

// Whether two brackets stand at a place.
fn two_brackets(rest: &[u8], at: usize) -> bool
    requires { at ≤ length rest.now }
    ensures { result ≡ two_brackets rest.now at }
{
    rest[at..].starts_with(&BRACKETS)
}

// Whether a text that begins with a token of kind k begins with a Discard: one leading Whitespace becomes one.
fn begins_discard(k: u8) -> bool
    ensures { result ≡ eqb (leading_kind k) discard }
{
    k == TokenKind::Whitespace as u8 || k == TokenKind::Discard as u8
}

// An anchor whose id is n tokens, behind which a Comma stands. None: it runs out, or does not close as it should.
#[tactic(auto, unfolding(crate::specs::Anchor::with_text, crate::specs::Anchor::text_run, crate::specs::Anchor::counts_as_discard))]
pub(crate) fn with_reftext(kinds: &[u8], n: usize, is_entire_line: bool) -> Option<Anchor>
    requires { n < length kinds.now }
    ensures { numbers_or_12 result ≡ with_text n (drop (n + 1) kinds.now) (text_end is_entire_line (drop (n + 1) kinds.now)) }
{
    let from = n + 1;
    let rest = &kinds[from..];
    let count = text_end(rest, is_entire_line)?;
    if !two_brackets(rest, count) {
        return None;
    }
    let reftext = if count == 0 {
        Run::EMPTY
    } else {
        run_at(from, count)
    };
    Some(Anchor {
        id: run_at(0, n),
        reftext,
        consumed: from + count + 2,
        discard: begins_discard(rest[0]),
    })
}
