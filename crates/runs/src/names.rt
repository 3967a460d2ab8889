// Names by the bytes of their tokens, which are not copied.
ghost use Rattle.std.specs.Prelude.{◌≡◌};
ghost use Rattle.std.specs.Option.{option_copied};
ghost use Rattle.token.specs.Checked.{line_in};
ghost use Rattle.runs.specs.Run.{is_whitespace, without, kept};
ghost use Rattle.runs.specs.Names.{bytes, same_bytes, prefix, Stripped};

use crate::is_passed;
use crate::places::Tokens;
use token::TokenPlace;
use token::lent::Token;

// Whether `name` begins with `start`. This and `strip_prefix` are the library's too, and were tried as that: a call for each name that is asked for, with
// which the mix of docs/BENCHMARK.md took 1.3 times as long and missed the bar of five times the Rust's speed.
fn starts_with(start: &[u8], name: &[u8]) -> bool
    ensures { result ≡ prefix start.now name.now }
{
    start.len() <= name.len() && start.iter().zip(name).all(|(a, b)| a == b)
}

// What is left of `name` behind `start`, if it begins with that.
fn strip_prefix<'a>(name: &'a [u8], start: &[u8]) -> Option<&'a [u8]>
    ensures { Stripped start.now name.now (option_copied result) }
{
    if !starts_with(start, name) {
        return None;
    }
    Some(&name[start.len()..])
}

impl<'a> Tokens<'a> {
    // Whether the bytes of the kept tokens, less Whitespace, are `name`.
    pub fn name_is(self, name: &[u8]) -> bool
        ensures { result ≡ same_bytes (bytes (without is_whitespace (kept (line_in self.entry.line) self.entry.from.0 self.entry.to.0))) name.now }
    {
        let mut rest = name;
        // By places: a lexeme is a token's, which is a line and a place.
        for i in self.from.0..self.to.0 {
            if is_passed(self.line.kinds[i]) {
                continue;
            }
            let token = Token {
                line: self.line,
                place: TokenPlace(i),
            };
            let Some(left) = strip_prefix(rest, token.lexeme()) else {
                return false;
            };
            rest = left;
        }
        rest.is_empty()
    }
}
