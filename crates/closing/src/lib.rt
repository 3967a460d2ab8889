// Where an attribute list closes, and whether a link's brackets hold a list or text (document 01, "Lists and links").
#![tactic(auto)]

mod bracket;
mod look;

ghost use Rattle.std.specs.Prelude.{◌≡◌, ◌*◌, ◌<◌, length};
ghost use Rattle.delimiters.specs.Delimit.{dividing};
ghost use Rattle.closing.specs.Closing.{numbers_of, last_begins, closing};
ghost use Rattle.closing.specs.Link.{holds_of, link_macro};

use bracket::{last_bracket, next_bracket};
use look::{Seen, turn_at};
use std::ops::ControlFlow;
use token::TokenPlace;

// What a link's brackets hold: a list, or text that ends before the token at a place. Both are readings, so neither is an Option's None.
#[derive(Clone, Copy, Debug, PartialEq, Eq)]
pub enum LinkMacro {
    AsList,
    AsText(TokenPlace),
}

// Where the last attribute begins: after the last dividing comma, or with the first token, if no comma divides.
fn last_begins(commas: &[u16]) -> TokenPlace
    ensures { result.0 ≡ last_begins 0 commas.now }
{
    match commas.last() {
        None => TokenPlace(0),
        Some(comma) => TokenPlace(usize::from(*comma) + 1),
    }
}

// The place of the closing bracket of a line, if there is one; `commas` are its dividing commas. `full` says that the list is the rest of a full line,
// which its last token closes: a yes or no, as the entry answers it, and no case of an enum, which would say no more.
pub fn closing_bracket(kinds: &[u8], commas: &[u16], full: bool) -> Option<TokenPlace>
    requires some { 0 < length kinds.now }
    requires commas { commas.now ≡ dividing kinds.now }
    ensures { numbers_of result ≡ numbers_of (closing full kinds.now) }
{
    if full {
        return last_bracket(kinds);
    }
    next_bracket(kinds, last_begins(commas))
}

// Whether a link's brackets hold a list, or text and where it ends. All tokens but the last are looked at. Kinds and pairs are two slices, since C
// lends them so. Inlined: the archive calls it for the main reader and for the small viewer, and the main reader's link is to be compiled as before.
#[inline(always)]
pub fn link_macro(kinds: &[u8], pairs: &[u32]) -> LinkMacro
    requires { length pairs.now ≡ 2 * length kinds.now }
    ensures { holds_of result ≡ holds_of (link_macro kinds.now pairs.now) }
{
    let mut seen = Seen {
        quoted: false,
        nested: false,
        escaped: false,
    };
    let last = kinds.len().saturating_sub(1);
    // A lexeme's length is read by its place, and the pairs are not zipped: a `zip` asks at each turn whether there is a pair. `turn_at` is inlined, so that
    // only an EqualSigns needs the length.
    for (i, kind) in kinds[..last].iter().enumerate() {
        match turn_at(seen, TokenPlace(i), *kind, pairs[2 * i + 1] == 1) {
            ControlFlow::Break(link) => return link,
            ControlFlow::Continue(next) => seen = next,
        }
    }
    LinkMacro::AsText(TokenPlace(last))
}
