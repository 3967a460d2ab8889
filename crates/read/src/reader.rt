// What the library is asked of a line of tokens: no other file of this program calls one of its readings.
ghost use Rattle.std.specs.Prelude.{◌≡◌, vec_len};

use crate::tokens::Line;
use anchor::Anchor;
use attr_list::entries::Entry;
use closing::LinkMacro;
use refusals::Refusal;
use row::WIDTH;
use std::alloc::{AllocError, Global};
use token::line::MOST_TOKENS;

// What a reading finds: its rows, each as the numbers that the library writes to the buffer it is lent, how many tokens it consumed, and how many
// commas it took back.
#[derive(Drop)]
pub(crate) struct Reading {
    pub(crate) rows: Vec<[u32; WIDTH]>,
    pub(crate) consumed: usize,
    pub(crate) rejoined: usize,
}

// How many tokens of a line are counted, and the places of the commas that divide it.
#[derive(Drop)]
pub(crate) struct Division {
    pub(crate) counted: usize,
    pub(crate) dividing: Vec<u16>,
}

// The kinds and the pairs of a line, each in an array of its own, as the library takes them.
#[derive(Drop)]
struct Lent {
    kinds: Vec<u8>,
    pairs: Vec<[u32; 2]>,
    ghost paired: { vec_len pairs ≡ vec_len kinds },
}

impl Lent {
    fn new(alloc: Global, line: &Line) -> Result<Lent, AllocError> {
        Ok(Lent {
            kinds: line.tokens.iter().map(|t| t.kind as u8).collect(alloc)?,
            pairs: line.tokens.iter().map(|t| [t.start, t.len]).collect(alloc)?,
        })
    }
}

// Whether a line is a block attribute list.
pub(crate) fn is_block(alloc: Global, line: &Line) -> Result<Result<bool, Refusal>, AllocError> {
    let lent = Lent::new(alloc, line)?;
    let pairs = lent.pairs.as_flattened();
    Ok(attr_list::is_block_attr_list(&lent.kinds, &line.text, pairs))
}

// The anchor of a line, a whole one or the rest of one.
pub(crate) fn read_anchor(
    alloc: Global,
    line: &Line,
    is_entire_line: bool,
) -> Result<Result<Option<Anchor>, Refusal>, AllocError> {
    let lent = Lent::new(alloc, line)?;
    let pairs = lent.pairs.as_flattened();
    Ok(anchor::parse_anchor(&lent.kinds, &line.text, pairs, is_entire_line))
}

// A line that one of the four readings is asked to read.
#[derive(Clone, Copy)]
pub(crate) struct List<'a> {
    pub(crate) entry: Entry,
    pub(crate) line: &'a Line,
}

impl List<'_> {
    // What the reading answers.
    pub(crate) fn read(self, alloc: Global) -> Result<Result<Reading, Refusal>, AllocError> {
        let lent = Lent::new(alloc, self.line)?;
        let pairs = lent.pairs.as_flattened();
        let mut rows = vec![in alloc; [0u32; WIDTH]; MOST_TOKENS]?;
        let buffer = rows.as_flattened_mut();
        let text = &self.line.text;
        let answer = attr_list::parse_attr_list(self.entry, &lent.kinds, text, pairs, buffer);
        Ok(answer.map(|read| {
            rows.truncate(read.rows);
            Reading {
                rows,
                consumed: read.consumed,
                rejoined: read.rejoined,
            }
        }))
    }

    // How the line is divided: a link's text is not.
    pub(crate) fn division(self, alloc: Global) -> Result<Division, AllocError> {
        let lent = Lent::new(alloc, self.line)?;
        let tokens = lent.kinds.len().min(MOST_TOKENS);
        let kinds = &lent.kinds[..tokens];
        if self.entry == Entry::Link {
            let holds = closing::link_macro(kinds, lent.pairs[..tokens].as_flattened());
            if matches!(holds, LinkMacro::AsText(_)) {
                return Ok(Division {
                    counted: 0,
                    dividing: Vec::new(alloc),
                });
            }
        }
        let mut dividing = vec![in alloc; 0u16; tokens]?;
        let found = delimiters::find_delimiters(kinds, &mut dividing);
        dividing.truncate(found.commas);
        Ok(Division {
            counted: found.counted,
            dividing,
        })
    }
}
