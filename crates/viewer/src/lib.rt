// The small viewer: the four readings of the crate `attr_list` for lines of 256 tokens at most. What an entry answers and leaves is `Outcome`, as the
// main reader's is, with this limit. What a limit does is proved once for any, `reading-limited` of `attr_list/proofs/LimitLaws.antt`.
#![tactic(auto)]

ghost use Rattle.token.specs.Lent.{line};
ghost use Rattle.attr_list.specs.declared.entries.Entry.TheVariants.{Block, BlockMacro, Inline, Link};
ghost use Rattle.attr_list.specs.Told.{told};
ghost use Rattle.attr_list.specs.Outcome.{Outcome};
ghost use Rattle.viewer.specs.Limit.{viewer_tokens};

use attr_list::Read;
use attr_list::entries::Entry;
use attr_list::within::parse_attr_list_within;
use refusals::Refusal;

// The most tokens of a line that the viewer reads.
pub const MOST_TOKENS: usize = 256;

// Reads the attribute list of a block.
pub fn parse_block_attr_list(
    kinds: &[u8],
    text: &[u8],
    pairs: &[u32],
    rows: &mut [u32],
) -> Result<Read, Refusal>
    ensures { Outcome viewer_tokens Block (line kinds.entry text.entry pairs.entry) rows.old (told result) rows.new }
{
    parse_attr_list_within::<MOST_TOKENS>(Entry::Block, kinds, text, pairs, rows)
}

// Reads the attribute list of a block macro.
pub fn parse_block_macro_attr_list(
    kinds: &[u8],
    text: &[u8],
    pairs: &[u32],
    rows: &mut [u32],
) -> Result<Read, Refusal>
    ensures { Outcome viewer_tokens BlockMacro (line kinds.entry text.entry pairs.entry) rows.old (told result) rows.new }
{
    parse_attr_list_within::<MOST_TOKENS>(Entry::BlockMacro, kinds, text, pairs, rows)
}

// Reads the attribute list of an inline macro.
pub fn parse_inline_macro_attr_list(
    kinds: &[u8],
    text: &[u8],
    pairs: &[u32],
    rows: &mut [u32],
) -> Result<Read, Refusal>
    ensures { Outcome viewer_tokens Inline (line kinds.entry text.entry pairs.entry) rows.old (told result) rows.new }
{
    parse_attr_list_within::<MOST_TOKENS>(Entry::Inline, kinds, text, pairs, rows)
}

// Reads what a link macro's brackets hold.
pub fn parse_link_macro_attr_list(
    kinds: &[u8],
    text: &[u8],
    pairs: &[u32],
    rows: &mut [u32],
) -> Result<Read, Refusal>
    ensures { Outcome viewer_tokens Link (line kinds.entry text.entry pairs.entry) rows.old (told result) rows.new }
{
    parse_attr_list_within::<MOST_TOKENS>(Entry::Link, kinds, text, pairs, rows)
}
