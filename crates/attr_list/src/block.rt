// The brackets round a block attribute list.
ghost use Rattle.std.specs.Prelude.{◌≡◌};
ghost use Rattle.attr_list.specs.Block.{is_block_attr_list};

use token::kind::TokenKind;

// Whether the tokens are a block attribute list.
pub(crate) fn bracketed(kinds: &[u8]) -> bool
    ensures { result ≡ is_block_attr_list kinds.now }
{
    let tokens = kinds.len();
    if tokens < 2 {
        return false;
    }
    if kinds[0] != TokenKind::OpenBracket as u8 {
        return false;
    }
    if kinds[tokens - 1] != TokenKind::CloseBracket as u8 {
        return false;
    }
    if kinds[tokens - 2] == TokenKind::Backslash as u8 {
        return false;
    }
    kinds[1] != TokenKind::OpenBracket as u8
}
