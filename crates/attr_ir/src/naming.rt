// A named attribute: its name, what the name asks for, and its value.
ghost use Rattle.std.specs.Prelude.{◌≡◌};
ghost use Rattle.token.specs.Checked.{line_in};
ghost use Rattle.runs.specs.Run.{is_whitespace, without, kept, unquoted, run_of};
ghost use Rattle.runs.specs.Kept.{OfKept};
ghost use Rattle.runs.specs.Names.{bytes};
ghost use Rattle.runs.specs.Places.{Narrowed, Part};
ghost use Rattle.attr_ir.specs.Ir.{less_space, value, name_of, key_value_ir};
ghost use Rattle.attr_ir.specs.Places.{InLine, IrOf};

use super::{AttrIr, Name};
use runs::places::{Places, Tokens};
use token::kind::TokenKind;
use token::quotes::Unquoted;
use token::{Run, TokenPlace};

// What the name of the tokens kept asks for.
fn name_of(tokens: Tokens<'_>) -> Name
    ensures { result ≡ name_of (bytes (without is_whitespace (kept (line_in tokens.entry.line) tokens.entry.from.0 tokens.entry.to.0))) }
{
    // No table of names: these are the four tests of the rule, and a loop over six pairs would say no more.
    if tokens.name_is(b"options") || tokens.name_is(b"opts") {
        return Name::Options;
    }
    if tokens.name_is(b"role") {
        return Name::Role;
    }
    if tokens.name_is(b"id") {
        return Name::Id;
    }
    if tokens.name_is(b"subs") || tokens.name_is(b"cols") {
        return Name::Plain;
    }
    Name::Other
}

// The place past one Whitespace in front, or that of the first token kept, or `to` where there is none.
fn past_space(places: Places<'_>) -> TokenPlace
    ensures { Narrowed less_space places.entry.kinds.now places.entry.from.0 places.entry.to.0 result.0 places.entry.to.0 }
{
    let start = places.first_kept();
    if start.0 < places.to.0 && places.kinds[start.0] == TokenKind::Whitespace as u8 {
        return TokenPlace(start.0 + 1);
    }
    start
}

// A value: one Whitespace dropped, unquoted. Inlined: a function of its own answers run and mark through memory, and the mix of docs/BENCHMARK.md took 1.1
// times as long.
#[inline(always)]
fn value_of(places: Places<'_>) -> Unquoted
    ensures text { OfKept (λ ts. unquoted (less_space ts)) places.entry result }
    ensures part { Part value places.entry.kinds.now places.entry.from.0 places.entry.to.0 result.run }
{
    let rest = Places {
        kinds: places.kinds,
        from: past_space(places),
        to: places.to,
    };
    rest.unquote()
}

// The run of a name, less Whitespace: Whitespace inside it does not change its run.
fn name_run(tokens: Tokens<'_>) -> Run
    ensures run { result ≡ run_of (without is_whitespace (kept (line_in tokens.entry.line) tokens.entry.from.0 tokens.entry.to.0)) }
    ensures within { InLine tokens.entry.line.kinds.now tokens.entry.from.0 tokens.entry.to.0 result }
{
    tokens.places().trim()
}

// A named attribute by its runs, of the tokens kept.
pub(crate) fn parse_key_value_attr(tokens: Tokens<'_>) -> AttrIr
    ensures { IrOf key_value_ir (line_in tokens.entry.line) tokens.entry.from.0 tokens.entry.to.0 result }
{
    let equals = tokens.places().find_kind(TokenKind::EqualSigns as u8);
    let before = Tokens {
        line: tokens.line,
        from: tokens.from,
        to: equals,
    };
    let after = Places {
        kinds: tokens.line.kinds,
        from: TokenPlace(tokens.to.0.min(equals.0 + 1)),
        to: tokens.to,
    };
    let value = value_of(after);
    match name_of(before) {
        Name::Options => AttrIr::Options(value.run),
        Name::Role => AttrIr::Roles(value.run),
        Name::Id => AttrIr::Id(value),
        Name::Plain => AttrIr::Plain {
            name: name_run(before),
            value,
        },
        Name::Other => AttrIr::Named {
            name: name_run(before),
            value,
        },
    }
}
