// The first token of an anchor's line, and its id.
ghost use Rattle.std.specs.Prelude.{◌≡◌, ◌≤◌, not, length};
ghost use Rattle.token.specs.Checked.{line_in};
ghost use Rattle.anchor.specs.Anchor.{begins_none, id_count, no_bytes};

use token::kind::TokenKind;
use token::lent::Line;

// Whether a line whose first token is of kind k has no anchor.
pub(crate) fn begins_none(k: u8) -> bool
    ensures { result ≡ begins_none k }
{
    matches!(
        TokenKind::try_from(k),
        Ok(
            TokenKind::SingleQuote
                | TokenKind::DoubleQuote
                | TokenKind::Whitespace
                | TokenKind::CloseBracket
                | TokenKind::Digits
                | TokenKind::Comma
        )
    )
}

// How many tokens the id has: those before the first Comma or CloseBracket, if there is one.
pub(crate) fn id_count(kinds: &[u8]) -> Option<usize>
    ensures { result ≡ id_count kinds.now }
{
    kinds.iter().position(|k| *k == TokenKind::Comma as u8 || *k == TokenKind::CloseBracket as u8)
}

// Whether any of the first n tokens has bytes, AttrRef ones too.
pub(crate) fn has_bytes(line: Line<'_>, n: usize) -> bool
    requires { n ≤ length line.kinds.now }
    ensures { result ≡ not (no_bytes (line_in line.entry) n) }
{
    let (lexemes, _) = line.pairs.as_chunks::<2>();
    lexemes[..n].iter().any(|[_, length]| *length != 0)
}
