// The tokens of a line of the file, and their text (docs/FORMAT.md).
ghost use Rattle.std.specs.Prelude.{◌≤◌, ◌<◌, length, vec_len, IfSome};
ghost use Rattle.std.specs.Iterator.{at_most};

use std::alloc::{AllocError, Global};
use std::fmt;
use std::ops::Range;
use token::kind::TokenKind;
use token::line::{MOST_BYTES, MOST_TOKENS};

// The names of the kinds, in the order of their numbers. A table and no text of a derive: a name of the file is looked up in it.
const NAMES: [&str; 51] = [
    "Ampersand",
    "AttrDef",
    "AttrPassDbl",
    "AttrRef",
    "Backtick",
    "Backslash",
    "Bang",
    "CalloutNumber",
    "Caret",
    "CloseBrace",
    "CloseBracket",
    "CloseParens",
    "Colon",
    "Comma",
    "Dashes",
    "DelimiterLine",
    "Digits",
    "Directive",
    "Discard",
    "DoubleQuote",
    "Dots",
    "Email",
    "Entity",
    "EqualSigns",
    "Eof",
    "ForwardSlashes",
    "GreaterThan",
    "Hash",
    "LessThan",
    "MacroName",
    "MaybeEmail",
    "Newline",
    "NoBreakSpace",
    "OpenBrace",
    "OpenBracket",
    "OpenParens",
    "Percent",
    "Pipe",
    "Plus",
    "PreprocPassthru",
    "Punctuation",
    "QuestionMark",
    "SemiColon",
    "SingleQuote",
    "Star",
    "TermDelimiter",
    "Tilde",
    "Underscore",
    "UriScheme",
    "Whitespace",
    "Word",
];

// What can be wrong with a word of a line.
#[derive(Clone, Copy)]
pub(crate) enum Problem {
    NoColon,
    UnknownKind,
    UnknownEscape,
    UnknownEntry,
}

impl fmt::Display for Problem {
    fn fmt<W: fmt::Write>(&self, f: &mut fmt::Formatter<W>) -> fmt::Result {
        f.write_str(match self {
            Problem::NoColon => "a token without a colon",
            Problem::UnknownKind => "an unknown kind",
            Problem::UnknownEscape => "an unknown escape",
            Problem::UnknownEntry => "an unknown entry",
        })
    }
}

// Why a line of the file is not read: a word of it is wrong, or memory ran out.
#[derive(Clone, Copy)]
pub(crate) enum Fault<'a> {
    Wrong(Problem, &'a [u8]),
    OutOfMemory(AllocError),
}

impl From<AllocError> for Fault<'_> {
    fn from(error: AllocError) -> Self {
        Fault::OutOfMemory(error)
    }
}

// A token: its kind, and where its text stands in the text of the line.
#[derive(Clone, Copy)]
pub(crate) struct Token {
    pub(crate) kind: TokenKind,
    pub(crate) start: u32,
    pub(crate) len: u32,
}

impl Token {
    pub(crate) fn bytes(self) -> Range<usize> {
        let start = self.start as usize;
        start..start + self.len as usize
    }
}

// A line of tokens. It has room for one token and one byte more than the reader takes, so that a longer line is still refused.
#[derive(Drop)]
pub(crate) struct Line {
    pub(crate) tokens: Vec<Token>,
    pub(crate) text: Vec<u8>,
    ghost room: { vec_len text ≤ 65536 },
}

impl Line {
    pub(crate) fn new(alloc: Global) -> Line {
        Line {
            tokens: Vec::new(alloc),
            text: Vec::new(alloc),
        }
    }

    // Puts a token and its text behind the others, as far as there is room.
    fn push(&mut self, kind: TokenKind, text: &[u8]) -> Result<(), AllocError> {
        let start = self.text.len();
        let text = &text[..text.len().min(MOST_BYTES + 1 - start)];
        if self.tokens.len() <= MOST_TOKENS {
            self.tokens.push(Token {
                kind,
                start: start as u32,
                len: text.len() as u32,
            })?;
        }
        self.text.extend_from_slice(text)
    }

    // Puts a token that is written as a word of the file.
    pub(crate) fn push_word<'a>(&mut self, alloc: Global, word: &'a [u8]) -> Result<(), Fault<'a>> {
        let wrong = |problem| Fault::Wrong(problem, word);
        let colon = word
            .iter()
            .position(|b| *b == b':')
            .ok_or(wrong(Problem::NoColon))?;
        let kind = kind_named(&word[..colon]).ok_or(wrong(Problem::UnknownKind))?;
        let text: Vec<u8> = Written(&word[colon + 1..])
            .map(|b| b.ok_or(wrong(Problem::UnknownEscape)))
            .try_collect(alloc)?;
        self.push(kind, &text)?;
        Ok(())
    }
}

// The kind of a name. No `TryFrom`, since neither the trait nor the kind is this crate's.
fn kind_named(name: &[u8]) -> Option<TokenKind> {
    let number = NAMES.iter().position(|known| known.as_bytes() == name)?;
    TokenKind::try_from(number as u8).ok()
}

// What a hexadecimal digit counts: `to_digit(16)` takes capitals too.
fn hex(digit: u8) -> Option<u8>
    ensures { IfSome result (λ n. n < 16) }
{
    match digit {
        b'0'..=b'9' => Some(digit - b'0'),
        b'a'..=b'f' => Some(digit - b'a' + 10),
        _ => None,
    }
}

// The byte that an escape stands for, of which what follows the backslash is given, and what follows the escape.
fn unescaped(written: &[u8]) -> Option<(u8, &[u8])>
    ensures { IfSome result (λ p. length p.1.now ≤ length written.now) }
{
    match written {
        [b'\\', rest @ ..] => Some((b'\\', rest)),
        [b's', rest @ ..] => Some((b' ', rest)),
        [b't', rest @ ..] => Some((b'\t', rest)),
        [b'n', rest @ ..] => Some((b'\n', rest)),
        [b'x', high, low, rest @ ..] => Some((16 * hex(*high)? + hex(*low)?, rest)),
        _ => None,
    }
}

// The bytes of a token's text that is written in the file; `None` for an unknown escape.
#[derive(Drop)]
struct Written<'a>(&'a [u8]);

impl Iterator for Written<'_> {
    type Item = Option<u8>;

    ghost remaining = { λ s. at_most (length s.0.now) };

    fn next(&mut self) -> Option<Option<u8>> {
        let (first, rest) = self.0.split_first()?;
        self.0 = rest;
        if *first != b'\\' {
            return Some(Some(*first));
        }
        let Some((byte, rest)) = unescaped(rest) else {
            return Some(None);
        };
        self.0 = rest;
        Some(Some(byte))
    }
}
