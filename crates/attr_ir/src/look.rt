// How an attribute is read: its kept tokens are looked at from the left until decided.
ghost use Rattle.std.specs.Prelude.{◌≡◌, true, false, ◌+◌, ◌<◌};
ghost use Rattle.token.specs.Checked.{line_in, token_in};
ghost use Rattle.runs.specs.Run.{kept};
ghost use Rattle.runs.specs.Kept.{OfKept};
ghost use Rattle.attr_ir.specs.Look.{one_symbol, equals_sign, next_equals, symbol_sight, sight_at, look};

use super::{Reading, symbol_kind};
use runs::places::{Places, Tokens};
use std::ops::ControlFlow;
use token::TokenPlace;
use token::kind::TokenKind;
use token::lent::Token;

// Whether a token is Dots, Hash or Percent of length 1.
fn one_symbol(token: Token<'_>) -> bool
    ensures { result ≡ one_symbol (token_in token.entry) }
{
    symbol_kind(token.kind()) && token.length() == 1
}

// Whether a token is an EqualSigns token whose text is `=`.
fn equals_sign(token: Token<'_>) -> bool
    ensures { result ≡ equals_sign (token_in token.entry) }
{
    token.kind() == TokenKind::EqualSigns as u8 && token.lexeme() == b"=".as_slice()
}

// Whether the first of the kept tokens is such a token.
fn next_equals(after: Tokens<'_>) -> bool
    ensures { result ≡ next_equals (kept (line_in after.entry.line) after.entry.from.0 after.entry.to.0) }
{
    let place = after.places().first_kept();
    let line = after.line;
    place.0 < after.to.0 && equals_sign(Token { line, place })
}

// What a one-byte Dots, Hash or Percent decides, with the kept tokens after it; `short` says that it is the first, of the block entry.
fn symbol_sight(after: Places<'_>, short: bool) -> ControlFlow<Reading, bool>
    ensures { OfKept (symbol_sight short) after.entry result }
{
    let next = after.first_kept();
    if after.to.0 <= next.0 {
        return ControlFlow::Continue(true);
    }
    if short {
        return ControlFlow::Break(Reading::Shorthand);
    }
    ControlFlow::Continue(after.kinds[next.0] != TokenKind::Whitespace as u8)
}

// What the first of the tokens left decides, looked at from the left: how the attribute is read, or nothing yet, with the note so far.
fn sight_at(left: Tokens<'_>, block: bool, first: bool, noted: bool) -> ControlFlow<Reading, bool>
    requires { left.from.0 < left.to.0 }
    ensures { result ≡ sight_at block first noted (line_in left.entry.line) left.entry.from.0 (left.entry.from.0 + 1) left.entry.to.0 }
{
    let token = Token {
        line: left.line,
        place: left.from,
    };
    let after = Tokens {
        line: left.line,
        from: TokenPlace(left.from.0 + 1),
        to: left.to,
    };
    if one_symbol(token) {
        return symbol_sight(after.places(), block && first);
    }
    match TokenKind::try_from(token.kind()) {
        Ok(TokenKind::DoubleQuote | TokenKind::SingleQuote) => {
            ControlFlow::Break(Reading::Positional(noted))
        }
        Ok(TokenKind::Whitespace) if next_equals(after) => ControlFlow::Continue(noted),
        Ok(TokenKind::Whitespace) => ControlFlow::Break(Reading::Positional(noted)),
        Ok(TokenKind::EqualSigns) if first => ControlFlow::Break(Reading::Positional(noted)),
        Ok(TokenKind::EqualSigns) if token.length() == 1 => ControlFlow::Break(Reading::Named),
        _ => ControlFlow::Continue(noted),
    }
}

// How an attribute is read, of the tokens kept.
pub(crate) fn look(tokens: Tokens<'_>, block: bool) -> Reading
    ensures { result ≡ look block true false (kept (line_in tokens.entry.line) tokens.entry.from.0 tokens.entry.to.0) }
{
    let mut first = true;
    let mut noted = false;
    // By places: what stands behind a token is looked at as well.
    for i in tokens.from.0..tokens.to.0 {
        if tokens.line.kinds[i] == TokenKind::AttrRef as u8 {
            continue;
        }
        let left = Tokens {
            line: tokens.line,
            from: TokenPlace(i),
            to: tokens.to,
        };
        match sight_at(left, block, first, noted) {
            ControlFlow::Break(reading) => return reading,
            ControlFlow::Continue(note) => {
                noted = note;
                first = false;
            }
        }
    }
    Reading::Positional(noted)
}
