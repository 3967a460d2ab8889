// Anchors, `[[id,text]]`, of a line that begins after the two brackets (document 02, slip 1). What is answered is defined in specs/Anchor.antt, its
// numbers in specs/Numbers.antt. "The lent kinds are not altered": what is lent is shared, so no clause need say it.
#![tactic(auto)]

mod id;
mod reftext;

ghost use Rattle.std.specs.Prelude.{◌≡◌, true, false};
ghost use Rattle.token.specs.Line.{run};
ghost use Rattle.token.specs.Checked.{line_in};
ghost use Rattle.token.specs.Lent.{line};
ghost use Rattle.anchor.specs.Anchor.{anchor, id_count, with_id};
ghost use Rattle.anchor.specs.Numbers.{numbers_of, numbers_or_12};

use id::{begins_none, has_bytes, id_count};
use reftext::with_reftext;
use refusals::Refusal;
use token::kind::TokenKind;
use token::lent::Line;
use token::{Run, TokenPlace};

// An anchor: the runs of its id and of its reference text, which is empty where there is none; how many tokens are consumed; and whether the first token of
// the reference text counts as Discard. AttrRef tokens belong to both runs, and who reads these does not skip them.
#[derive(Clone, Copy, Debug, PartialEq, Eq)]
pub struct Anchor {
    pub id: Run,
    pub reftext: Run,
    pub consumed: usize,
    pub discard: bool,
}

// The anchor of a block, whose line is a whole one.
pub fn parse_block_anchor(
    kinds: &[u8],
    text: &[u8],
    pairs: &[u32],
) -> Result<Option<Anchor>, Refusal>
    ensures { numbers_of result ≡ anchor true (line kinds.entry text.entry pairs.entry) }
{
    parse_anchor(kinds, text, pairs, true)
}

// The anchor within a line.
pub fn parse_inline_anchor(
    kinds: &[u8],
    text: &[u8],
    pairs: &[u32],
) -> Result<Option<Anchor>, Refusal>
    ensures { numbers_of result ≡ anchor false (line kinds.entry text.entry pairs.entry) }
{
    parse_anchor(kinds, text, pairs, false)
}

// The anchor of a line, if there is one. Three slices and no `Line`, as the entries of `attr_list` take them, since the check that they make one is part of
// the call. Whether the line is a whole one is a yes or no, as the Rust has it.
#[tactic(auto, unfolding(crate::specs::Anchor::anchor, crate::specs::Anchor::unrefused))]
pub fn parse_anchor(
    kinds: &[u8],
    text: &[u8],
    pairs: &[u32],
    is_entire_line: bool,
) -> Result<Option<Anchor>, Refusal>
    ensures { numbers_of result ≡ anchor is_entire_line (line kinds.entry text.entry pairs.entry) }
{
    let line = Line::new(kinds, text, pairs)?;
    if begins_none(line.kinds[0]) {
        return Ok(None);
    }
    read_anchor(line, is_entire_line)
        .map(Some)
        .ok_or(Refusal::AnchorMalformed)
}

// The anchor of a line whose first token may begin one. None is refused: the line runs out, does not close as it should, or its id has no bytes.
#[tactic(auto, unfolding(crate::specs::Anchor::with_id))]
fn read_anchor(line: Line<'_>, is_entire_line: bool) -> Option<Anchor>
    ensures { numbers_or_12 result ≡ with_id is_entire_line (line_in line.entry) (id_count line.entry.kinds.now) }
{
    let n = id_count(line.kinds)?;
    if !has_bytes(line, n) {
        return None;
    }
    if line.kinds[n] == TokenKind::CloseBracket as u8 {
        return Some(Anchor {
            id: run_at(0, n),
            reftext: Run::EMPTY,
            consumed: line.kinds.len().min(n + 2),
            discard: false,
        });
    }
    with_reftext(line.kinds, n, is_entire_line)
}

// A run of n tokens, the first at a place.
pub(crate) fn run_at(place: usize, n: usize) -> Run
    ensures { result ≡ run place n }
{
    Run {
        place: TokenPlace(place),
        count: n,
    }
}
