// What an attribute is: its reading decided from the left, and its runs.
#![tactic(auto)]

ghost use Rattle.std.specs.Prelude.{◌≡◌, ◌&&◌, ◌||◌, eqb};
ghost use Rattle.token.specs.Kind.{dots, hash, percent};
ghost use Rattle.token.specs.Quotes.{mark_number};
ghost use Rattle.token.specs.Checked.{line_in};
ghost use Rattle.attr_ir.specs.Ir.{attr_ir};
ghost use Rattle.attr_ir.specs.Places.{IrOf};

use runs::places::Tokens;
use token::Run;
use token::kind::TokenKind;
use token::quotes::{QuoteMark, Unquoted};

mod look;
mod naming;

// How an attribute is read; a positional has its note. Public, though no other crate calls what answers it: the definition `Look.look` speaks of it, and laws of
// other crates of that.
#[derive(Clone, Copy, PartialEq, Eq)]
pub enum Reading {
    Shorthand,
    Positional(bool),
    Named,
}

// What a name asks for; `Plain` is `subs` or `cols`. Public as `Reading` is, for the definition `Ir.name_of`.
#[derive(Clone, Copy, PartialEq, Eq)]
pub enum Name {
    Options,
    Role,
    Id,
    Plain,
    Other,
}

// An attribute by its runs. `cut` says whether a positional is to be cut, as the definition `Ir.positional` has it: a flag and no case of its own, since what
// takes an attribute by its runs, `put_ir` and the definitions `runs_of` and `tokens_of`, takes a positional whole; `text_to_cut` alone asks for the flag.
#[derive(Clone, Copy, PartialEq, Eq)]
pub enum AttrIr {
    Positional { text: Unquoted, cut: bool },
    Named { name: Run, value: Unquoted },
    Plain { name: Run, value: Unquoted },
    Options(Run),
    Roles(Run),
    Id(Unquoted),
    Shorthand(Run),
}

// Whether a token of this kind is a symbol, of whatever length: Dots, Hash or Percent.
pub fn symbol_kind(kind: u8) -> bool
    ensures { result ≡ (eqb kind dots || eqb kind hash || eqb kind percent) }
{
    matches!(
        TokenKind::try_from(kind),
        Ok(TokenKind::Dots | TokenKind::Hash | TokenKind::Percent)
    )
}

// Whether a positional is to be cut: its note is yes, it is the block entry, and no quotes were taken.
fn to_cut(noted: bool, block: bool, mark: QuoteMark) -> bool
    ensures { result ≡ (noted && block && eqb (mark_number mark) 0) }
{
    noted && block && mark.is_none()
}

// An attribute by its runs, of the tokens kept, which are trimmed; `block` says that the entry is the block entry. A bool here and in all that this calls or
// that calls it: the rules ask this one question, and an enum of the four entries would be asked it again at each place. It is no field of `Tokens`, which is
// made anew for each part of an attribute, and most of whose users do not ask it.
pub fn attr_ir(tokens: Tokens<'_>, block: bool) -> AttrIr
    ensures { IrOf (attr_ir block) (line_in tokens.entry.line) tokens.entry.from.0 tokens.entry.to.0 result }
{
    let places = tokens.places();
    match look::look(tokens, block) {
        Reading::Shorthand => AttrIr::Shorthand(places.run_of()),
        Reading::Positional(noted) => {
            let text = places.unquote();
            AttrIr::Positional {
                text,
                cut: to_cut(noted, block, text.mark),
            }
        }
        Reading::Named => naming::parse_key_value_attr(tokens),
    }
}
