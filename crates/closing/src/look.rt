// One token of a link's look.
ghost use Rattle.std.specs.Prelude.{◌≡◌};
ghost use Rattle.closing.specs.Link.{turn};

use super::LinkMacro;
use std::ops::ControlFlow;
use token::TokenPlace;
use token::kind::TokenKind;

// What has been seen: whether the look is in double quotes, whether it is in a nested list, and whether the token before was a Backslash.
#[derive(Clone, Copy, Debug, PartialEq, Eq)]
pub(crate) struct Seen {
    pub(crate) quoted: bool,
    pub(crate) nested: bool,
    pub(crate) escaped: bool,
}

// The kinds that decide something, by their numbers in a line. The others, which most tokens of a link have, go past all four by one look at the number; made a
// `TokenKind` first, each token goes through a table.
const OPEN_BRACKET: u8 = TokenKind::OpenBracket as u8;

const CLOSE_BRACKET: u8 = TokenKind::CloseBracket as u8;

const DOUBLE_QUOTE: u8 = TokenKind::DoubleQuote as u8;

const EQUAL_SIGNS: u8 = TokenKind::EqualSigns as u8;

// What a token of kind k at a place decides: that there is a list, that the text is closed before it, or nothing yet. `one` says that its length is 1.
// Inlined, as `link_macro` is.
#[inline(always)]
#[tactic(auto, unfolding(crate::specs::Link::turn))]
pub(crate) fn turn_at(seen: Seen, at: TokenPlace, k: u8, one: bool) -> ControlFlow<LinkMacro, Seen>
    ensures turn { result ≡ turn seen at.0 k one }
{
    let next = Seen {
        escaped: k == TokenKind::Backslash as u8,
        ..seen
    };
    match k {
        CLOSE_BRACKET if seen.nested => ControlFlow::Continue(Seen {
            nested: false,
            ..next
        }),
        CLOSE_BRACKET if !seen.escaped => ControlFlow::Break(LinkMacro::AsText(at)),
        OPEN_BRACKET if !seen.escaped => ControlFlow::Continue(Seen {
            nested: true,
            ..next
        }),
        DOUBLE_QUOTE if !seen.escaped => ControlFlow::Continue(Seen {
            quoted: !seen.quoted,
            ..next
        }),
        EQUAL_SIGNS if one && !seen.quoted => ControlFlow::Break(LinkMacro::AsList),
        _ => ControlFlow::Continue(next),
    }
}
