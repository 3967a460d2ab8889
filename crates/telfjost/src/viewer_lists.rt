// The four readings of the small viewer, a function for each name that C links.
ghost use Rattle.token.specs.Lent.{line};
ghost use Rattle.attr_list.specs.declared.entries.Entry.TheVariants.{Block, BlockMacro, Inline, Link};
ghost use Rattle.telfjost.specs.Outcome.{ViewerOutcome};

use super::TelfjostList;

// The attribute list of a block.
#[tactic(auto, using(crate::proofs::Outcomes::numbers_within))]
#[unsafe(no_mangle)]
pub extern "C" fn telfjost_viewer_block_attr_list<'a, 'b>(
    kinds: &'a [u8],
    text: &'a [u8],
    pairs: &'a [u32],
    rows: &'b mut [u32],
) -> TelfjostList
    ensures { ViewerOutcome Block (line kinds.entry text.entry pairs.entry) rows.old result rows.new }
{
    TelfjostList::from(viewer::parse_block_attr_list(kinds, text, pairs, rows))
}

// The attribute list of a block macro.
#[tactic(auto, using(crate::proofs::Outcomes::numbers_within))]
#[unsafe(no_mangle)]
pub extern "C" fn telfjost_viewer_block_macro_attr_list<'a, 'b>(
    kinds: &'a [u8],
    text: &'a [u8],
    pairs: &'a [u32],
    rows: &'b mut [u32],
) -> TelfjostList
    ensures { ViewerOutcome BlockMacro (line kinds.entry text.entry pairs.entry) rows.old result rows.new }
{
    TelfjostList::from(viewer::parse_block_macro_attr_list(kinds, text, pairs, rows))
}

// The attribute list of an inline macro.
#[tactic(auto, using(crate::proofs::Outcomes::numbers_within))]
#[unsafe(no_mangle)]
pub extern "C" fn telfjost_viewer_inline_macro_attr_list<'a, 'b>(
    kinds: &'a [u8],
    text: &'a [u8],
    pairs: &'a [u32],
    rows: &'b mut [u32],
) -> TelfjostList
    ensures { ViewerOutcome Inline (line kinds.entry text.entry pairs.entry) rows.old result rows.new }
{
    TelfjostList::from(viewer::parse_inline_macro_attr_list(kinds, text, pairs, rows))
}

// What a link macro's brackets hold.
#[tactic(auto, using(crate::proofs::Outcomes::numbers_within))]
#[unsafe(no_mangle)]
pub extern "C" fn telfjost_viewer_link_macro_attr_list<'a, 'b>(
    kinds: &'a [u8],
    text: &'a [u8],
    pairs: &'a [u32],
    rows: &'b mut [u32],
) -> TelfjostList
    ensures { ViewerOutcome Link (line kinds.entry text.entry pairs.entry) rows.old result rows.new }
{
    TelfjostList::from(viewer::parse_link_macro_attr_list(kinds, text, pairs, rows))
}
