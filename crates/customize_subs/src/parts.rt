// The parts of the text between commas, and what each asks for.
ghost use Rattle.std.specs.Prelude.{◌≡◌, ◌≤◌, ◌<◌, eqb, length, get_or, position};
ghost use Rattle.std.specs.List.{position_or_len};
ghost use Rattle.customize_subs.specs.Text.{front, back, is_modifier, modified};
ghost use Rattle.customize_subs.specs.Customizing.{part_of, strategy_of, name_of};

use substitutions::{Mode, Move};

// Whether a byte is + or -.
fn is_modifier(b: u8) -> bool
    ensures { result ≡ is_modifier b }
{
    matches!(b, b'+' | b'-')
}

// Whether the text holds any + or -. Every byte is looked at, and none decides where to go on, so that the compiler takes sixteen at a time.
pub(crate) fn has_modifier(text: &[u8]) -> bool
    ensures { result ≡ modified text.now }
{
    let mut found = false;
    for b in text {
        found = found | is_modifier(*b);
    }
    found
}

// Whether the text begins with + or -, as most do that hold one.
pub(crate) fn begins_modified(text: &[u8]) -> bool
    ensures { result ≡ is_modifier (get_or text.now 0 0) }
{
    matches!(text, [b, ..] if is_modifier(*b))
}

// The place of the first comma, if there is one.
fn first_comma(text: &[u8]) -> Option<usize>
    ensures { result ≡ position (λ b. eqb b 44) text.now }
{
    text.iter().position(|b| *b == b',')
}

// How many bytes stand before the first comma: all of them, if there is none.
pub(crate) fn to_comma(text: &[u8]) -> usize
    ensures value { result ≡ position_or_len (λ b. eqb b 44) text.now }
    ensures within { result ≤ length text.now }
{
    first_comma(text).unwrap_or(text.len())
}

// The part without the spaces in front of it. Byte 32 alone: `trim_ascii` takes tabs and line ends off too.
fn skip_spaces(part: &[u8]) -> &[u8]
    ensures { result.now ≡ front part.now }
{
    let mut rest = part;
    while let [b' ', behind @ ..] = rest {
        rest = behind;
    }
    rest
}

// The same at the end: byte 32 alone, where `trim_ascii_end` takes tabs and line ends off too.
fn drop_spaces(part: &[u8]) -> &[u8]
    ensures { result.now ≡ back part.now }
{
    let mut rest = part;
    while let [before @ .., b' '] = rest {
        rest = before;
    }
    rest
}

// The part as the mode reads it: in sheet mode without the spaces at its ends.
pub(crate) fn part_in(mode: Mode, part: &[u8]) -> &[u8]
    ensures { result.now ≡ part_of mode part.now }
{
    match mode {
        Mode::Port => part,
        Mode::Sheet => drop_spaces(skip_spaces(part)),
    }
}

// Leading + inserts, else trailing + prepends, else leading - removes, else insert; the name is what is left. Slice patterns
// (`[b'+', name @ ..]`) were tried: their tests run together, and the proof did not close. The move is an enum, since the text chooses
// it, and a closure that is handed out would need a box.
#[tactic(auto, unfolding(crate::specs::Customizing::strategy_of, crate::specs::Customizing::name_of))]
pub(crate) fn strategy_and_name(part: &[u8]) -> (Move, &[u8])
    requires { 0 < length part.now }
    ensures strategy { result.0 ≡ strategy_of part.now }
    ensures name { result.1.now ≡ name_of part.now }
{
    let last = part.len() - 1;
    match (part[0], part[last]) {
        (b'+', _) => (Move::Insert, &part[1..]),
        (_, b'+') => (Move::Prepend, &part[..last]),
        (b'-', _) => (Move::Remove, &part[1..]),
        _ => (Move::Insert, part),
    }
}
