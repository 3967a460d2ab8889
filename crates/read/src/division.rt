// How a line that is read is divided, and where an anchor's id and reference text stand, drawn under its text.
ghost use Rattle.std.specs.Prelude.{◌<◌, length};

use crate::reader::Division;
use crate::tokens::Token;
use anchor::Anchor;
use std::alloc::{AllocError, Global};
use std::ops::Range;
use token::Run;
use token::kind::TokenKind;

// What a byte of the text belongs to.
#[derive(Clone, Copy, PartialEq, Eq)]
pub(crate) enum Part {
    Nothing,
    Attribute,
    Comma,
    TakenBack,
}

// Marks the bytes at some places.
fn mark(parts: &mut [Part], places: Range<usize>, part: Part) {
    if let Some(marked) = parts.get_mut(places) {
        marked.fill(part);
    }
}

// Marks the counted commas that do not divide: each was taken back, and is in an attribute.
fn mark_taken_back(parts: &mut [Part], tokens: &[Token], counted: usize) {
    for token in tokens.iter().take(counted) {
        let bytes = token.bytes();
        if token.kind == TokenKind::Comma && is_attribute(parts, bytes.start) {
            mark(parts, bytes, Part::TakenBack);
        }
    }
}

// What each byte belongs to of a text that ends where the closing bracket begins, at byte `closing`.
pub(crate) fn parts_of(
    alloc: Global,
    tokens: &[Token],
    division: &Division,
    closing: usize,
) -> Result<Vec<Part>, AllocError> {
    let mut parts = vec![in alloc; Part::Nothing; closing]?;
    let mut start = 0;
    for place in &division.dividing {
        if let Some(comma) = tokens.get(*place as usize) {
            let Range {
                start: from,
                end: to,
            } = comma.bytes();
            mark(&mut parts, start..from, Part::Attribute);
            mark(&mut parts, from..to, Part::Comma);
            start = to;
        }
    }
    mark(&mut parts, start..closing, Part::Attribute);
    mark_taken_back(&mut parts, tokens, division.counted);
    Ok(parts)
}

// The bytes from a run's first token to its last.
fn bytes_of(tokens: &[Token], run: Run) -> Range<usize> {
    let start = run.place.0;
    let among = tokens.get(start..start.saturating_add(run.count));
    match among.and_then(|run| run.first().zip(run.last())) {
        Some((first, last)) => first.bytes().start..last.bytes().end,
        None => 0..0,
    }
}

// What each byte belongs to of a text up to the brackets that close an anchor.
pub(crate) fn parts_of_anchor(
    alloc: Global,
    tokens: &[Token],
    anchor: Anchor,
) -> Result<Vec<Part>, AllocError> {
    let id = bytes_of(tokens, anchor.id);
    let comma = match tokens.get(anchor.id.count) {
        Some(token) if token.kind == TokenKind::Comma => token.bytes(),
        _ => id.end..id.end,
    };
    let reftext = bytes_of(tokens, anchor.reftext);
    let mut parts = vec![in alloc; Part::Nothing; comma.end.max(reftext.end)]?;
    mark(&mut parts, id, Part::Attribute);
    mark(&mut parts, comma, Part::Comma);
    mark(&mut parts, reftext, Part::Attribute);
    Ok(parts)
}

// Whether a byte goes on with a character: in UTF-8 these are the bytes from 128 to 191.
fn goes_on(b: u8) -> bool {
    matches!(b, 128..=191)
}

// Whether the byte at a place is of an attribute.
fn is_attribute(parts: &[Part], at: usize) -> bool {
    matches!(parts.get(at), Some(Part::Attribute | Part::TakenBack))
}

// The sign under a character from `at` up to `next`: of an attribute a bracket where it begins and where it ends, and a sign of its own under a comma
// that was taken back.
fn sign(parts: &[Part], at: usize, next: usize) -> u8
    requires { at < length parts.now }
{
    match parts[at] {
        Part::Nothing => b' ',
        Part::Comma => b'^',
        Part::TakenBack => b'~',
        Part::Attribute => {
            let before = at > 0 && is_attribute(parts, at - 1);
            match (before, is_attribute(parts, next)) {
                (true, true) => b'-',
                (true, false) => b']',
                (false, true) => b'[',
                (false, false) => b'|',
            }
        }
    }
}

// The signs under a text, one for each character.
pub(crate) fn signs(alloc: Global, text: &[u8], parts: &[Part]) -> Result<Vec<u8>, AllocError> {
    let mut drawn = Vec::new(alloc);
    let end = parts.len().min(text.len());
    for (at, b) in text[..end].iter().enumerate() {
        if at == 0 || !goes_on(*b) {
            let width = text[at + 1..].iter().take_while(|b| goes_on(**b)).count();
            drawn.push(sign(parts, at, at + 1 + width))?;
        }
    }
    Ok(drawn)
}
