// The two rules of the closing bracket: the last token, and the next one that is not escaped.
ghost use Rattle.std.specs.Prelude.{◌≡◌, ◌<◌, length};
ghost use Rattle.closing.specs.Closing.{last_bracket, next_bracket};

use token::TokenPlace;
use token::kind::TokenKind;

// The closing bracket of the block and block macro entries: the last token, if it is a CloseBracket.
#[tactic(auto, unfolding(crate::specs::Closing::last_bracket))]
pub(crate) fn last_bracket(kinds: &[u8]) -> Option<TokenPlace>
    ensures { result ≡ last_bracket kinds.now }
{
    let last = kinds.last()?;
    if *last != TokenKind::CloseBracket as u8 {
        return None;
    }
    Some(TokenPlace(kinds.len() - 1))
}

// The closing bracket of the inline entry, whose last attribute begins at `from`: the token there, if it is a CloseBracket, else the next
// CloseBracket whose preceding token is not Backslash.
pub(crate) fn next_bracket(kinds: &[u8], from: TokenPlace) -> Option<TokenPlace>
    requires { from.0 < length kinds.now }
    ensures { result ≡ next_bracket kinds.now from.0 }
{
    if kinds[from.0] == TokenKind::CloseBracket as u8 {
        return Some(from);
    }
    let passed = kinds[from.0..].array_windows::<2>().position(|[before, k]| {
        *k == TokenKind::CloseBracket as u8 && *before != TokenKind::Backslash as u8
    })?;
    Some(TokenPlace(from.0 + 1 + passed))
}
