// The main reader's four readings, a function for each name that C links.
ghost use Rattle.token.specs.Lent.{line};
ghost use Rattle.attr_list.specs.declared.entries.Entry.TheVariants.{Block, BlockMacro, Inline, Link};
ghost use Rattle.telfjost.specs.Outcome.{ListNumbers, ListOutcome};

use super::TelfjostList;
use attr_list::entries::Entry;
use attr_list::{Read, parse_attr_list};
use refusals::Refusal;

impl From<Result<Read, Refusal>> for TelfjostList {
    ghost from_gives = { ListNumbers };

    fn from(outcome: Result<Read, Refusal>) -> TelfjostList {
        match outcome {
            Ok(read) => TelfjostList {
                refusal: 0,
                rows: read.rows,
                consumed: read.consumed,
                rejoined: read.rejoined,
            },
            Err(refusal) => TelfjostList {
                refusal: usize::from(refusal),
                rows: 0,
                consumed: 0,
                rejoined: 0,
            },
        }
    }
}

// What an entry answers, in numbers. Inlined, so that each name that C links has its entry at compile time.
#[inline(always)]
fn parsed<'a, 'b>(
    entry: Entry,
    kinds: &'a [u8],
    text: &'a [u8],
    pairs: &'a [u32],
    rows: &'b mut [u32],
) -> TelfjostList
    ensures { ListOutcome entry (line kinds.entry text.entry pairs.entry) rows.old result rows.new }
{
    TelfjostList::from(parse_attr_list(entry, kinds, text, pairs, rows))
}

// The attribute list of a block.
#[unsafe(no_mangle)]
pub extern "C" fn telfjost_block_attr_list<'a, 'b>(
    kinds: &'a [u8],
    text: &'a [u8],
    pairs: &'a [u32],
    rows: &'b mut [u32],
) -> TelfjostList
    ensures { ListOutcome Block (line kinds.entry text.entry pairs.entry) rows.old result rows.new }
{
    parsed(Entry::Block, kinds, text, pairs, rows)
}

// The attribute list of a block macro.
#[unsafe(no_mangle)]
pub extern "C" fn telfjost_block_macro_attr_list<'a, 'b>(
    kinds: &'a [u8],
    text: &'a [u8],
    pairs: &'a [u32],
    rows: &'b mut [u32],
) -> TelfjostList
    ensures { ListOutcome BlockMacro (line kinds.entry text.entry pairs.entry) rows.old result rows.new }
{
    parsed(Entry::BlockMacro, kinds, text, pairs, rows)
}

// The attribute list of an inline macro.
#[unsafe(no_mangle)]
pub extern "C" fn telfjost_inline_macro_attr_list<'a, 'b>(
    kinds: &'a [u8],
    text: &'a [u8],
    pairs: &'a [u32],
    rows: &'b mut [u32],
) -> TelfjostList
    ensures { ListOutcome Inline (line kinds.entry text.entry pairs.entry) rows.old result rows.new }
{
    parsed(Entry::Inline, kinds, text, pairs, rows)
}

// What a link macro's brackets hold.
#[unsafe(no_mangle)]
pub extern "C" fn telfjost_link_macro_attr_list<'a, 'b>(
    kinds: &'a [u8],
    text: &'a [u8],
    pairs: &'a [u32],
    rows: &'b mut [u32],
) -> TelfjostList
    ensures { ListOutcome Link (line kinds.entry text.entry pairs.entry) rows.old result rows.new }
{
    parsed(Entry::Link, kinds, text, pairs, rows)
}
