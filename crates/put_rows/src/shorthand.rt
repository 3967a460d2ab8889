// Shorthand: each symbol takes tokens up to the next.
ghost use Rattle.std.specs.Prelude.{◌≡◌, ◌+◌, ◌*◌, ◌-◌, ◌≤◌, ◌<◌, length};
ghost use Rattle.token.specs.Line.{token_at};
ghost use Rattle.token.specs.Checked.{line_in, token_in};
ghost use Rattle.row.specs.Row.{width};
ghost use Rattle.put_rows.specs.Rows.{is_stop, symbol_tag};
ghost use Rattle.put_rows.specs.Written.{StopsAt, StopFirst, Shorthanded};

use super::Written;
use row::Row;
use row::diagnostic::Diagnostic;
use row::tag::Tag;
use runs::places::{Places, Tokens};
use token::TokenPlace;
use token::kind::TokenKind;
use token::lent::Token;

// Whether a token is Hash, Percent or one-byte Dots.
fn is_stop(token: Token<'_>) -> bool
    ensures { result ≡ is_stop (token_in token.entry) }
{
    match TokenKind::try_from(token.kind()) {
        Ok(TokenKind::Hash | TokenKind::Percent) => true,
        Ok(TokenKind::Dots) => token.length() == 1,
        _ => false,
    }
}

// The place of the first Hash, Percent or one-byte Dots, or `to`.
fn find_stop(tokens: Tokens<'_>) -> TokenPlace
    ensures { StopsAt tokens.entry.line.kinds.now tokens.entry.line.text.now tokens.entry.line.pairs.now tokens.entry.from.0 tokens.entry.to.0 result.0 }
{
    let line = tokens.line;
    let stops = |place: TokenPlace| -> bool
        requires { place.0 < length line.kinds.now }
        ensures { result ≡ is_stop (token_at (line_in line.entry) place.0) }
    { is_stop(Token { line, place }) };
    tokens.places().find(stops)
}

// The tag of what a symbol gives: Hash an id, Percent an option, Dots a role.
fn symbol_tag(kind: u8) -> Tag
    ensures { result ≡ symbol_tag kind }
{
    match TokenKind::try_from(kind) {
        Ok(TokenKind::Hash) => Tag::Id,
        Ok(TokenKind::Percent) => Tag::Option,
        _ => Tag::Role,
    }
}

impl Written {
    // Writes the rows of an attribute in shorthand.
    #[inline(never)]
    pub fn push_shorthand(self, rows: &mut [u32], tokens: Tokens<'_>) -> Written
        requires room { width * (self.rows + (tokens.to.0 - tokens.from.0)) ≤ length rows.old }
        requires stop_first { StopFirst tokens.line.kinds.now tokens.line.text.now tokens.line.pairs.now tokens.from.0 tokens.to.0 }
        ensures { Shorthanded (line_in tokens.entry.line) tokens.entry.from.0 tokens.entry.to.0 self.id rows.old self.rows result rows.new }
    {
        let mut written = self;
        let mut symbol = tokens.from;
        // No `for`: a symbol takes the tokens up to the next, at which the next turn begins.
        while symbol.0 < tokens.to.0 {
            let after = Places {
                kinds: tokens.line.kinds,
                from: TokenPlace(symbol.0 + 1),
                to: tokens.to,
            };
            let start = after.first_kept();
            if tokens.to.0 <= start.0 {
                return written.put_diagnostic(
                    rows,
                    symbol,
                    Diagnostic::InvalidIdAttribute as usize,
                );
            }
            let kind = tokens.line.kinds[symbol.0];
            let hash = kind == TokenKind::Hash as u8;
            let has = written.id;
            if hash && has {
                return written.put_diagnostic(
                    rows,
                    symbol,
                    Diagnostic::MoreThanOneIdAttribute as usize,
                );
            }
            let end = find_stop(Tokens {
                line: tokens.line,
                from: start,
                to: tokens.to,
            });
            let taken = Places {
                kinds: tokens.line.kinds,
                from: start,
                to: end,
            };
            let next = Written {
                rows: written.rows,
                id: has || hash,
            };
            written = next.put_one(
                rows,
                Row::one_run(u32::from(symbol_tag(kind)), taken.run_of()),
            );
            symbol = end;
        }
        written
    }
}
