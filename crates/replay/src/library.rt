// The calls of the library: no other file of this program makes one.
use crate::line::Line;
use anchor::Anchor;
use attr_list::Read;
use attr_list::entries::Entry;
use refusals::Refusal;
use substitutions::{Mode, Substitutions};

pub(crate) fn parse(entry: Entry, line: &Line, rows: &mut [u32]) -> Result<Read, Refusal> {
    attr_list::parse_attr_list(entry, &line.kinds, &line.text, &line.pairs, rows)
}

pub(crate) fn is_block(line: &Line) -> Result<bool, Refusal> {
    attr_list::is_block_attr_list(&line.kinds, &line.text, &line.pairs)
}

pub(crate) fn anchor(line: &Line, is_entire_line: bool) -> Result<Option<Anchor>, Refusal> {
    anchor::parse_anchor(&line.kinds, &line.text, &line.pairs, is_entire_line)
}

pub(crate) fn from_meta(
    mode: Mode,
    set: Substitutions,
    text: Option<&[u8]>,
) -> Result<Substitutions, Refusal> {
    customize_subs::from_meta(mode, set, text)
}
