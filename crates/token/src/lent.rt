// A line on loan that no check refuses, and its tokens.
ghost use Rattle.std.specs.Prelude.{◌<◌, length};
ghost use Rattle.token.specs.Lent.{Lent};

use super::line::{MOST_TOKENS, check_line, length_of, offset_of};
use super::{ByteOffset, TokenPlace};
use refusals::Refusal;

// The kinds of its tokens, its text, and two numbers for each token: the offset and the length of its lexeme, in bytes. Three arrays, as C lends them.
#[derive(Clone, Copy)]
pub struct Line<'a> {
    pub kinds: &'a [u8],
    pub text: &'a [u8],
    pub pairs: &'a [u32],
    pub ghost lent: { Lent kinds.now text.now pairs.now },
}

impl<'a> Line<'a> {
    ghost use Rattle.token.specs.Lent.{line};
    ghost use Rattle.token.specs.Checked.{Checked};

    // The line that three slices are, or why it is refused.
    pub fn new(kinds: &'a [u8], text: &'a [u8], pairs: &'a [u32]) -> Result<Line<'a>, Refusal>
        ensures { Checked (line kinds.entry text.entry pairs.entry) result }
    {
        check_line(kinds, text, pairs, MOST_TOKENS)?;
        Ok(Line { kinds, text, pairs })
    }
}

// A token of a line.
#[derive(Clone, Copy)]
pub struct Token<'a> {
    pub line: Line<'a>,
    pub place: TokenPlace,
    pub ghost within: { place.0 < length line.kinds.now },
}

impl<'a> Token<'a> {
    ghost use Rattle.std.specs.Prelude.{◌≡◌};
    ghost use Rattle.token.specs.Kind.{kind_at};
    ghost use Rattle.token.specs.Line.{offset_in, length_in, lexeme_in};

    // The number of its kind.
    pub fn kind(self) -> u8
        ensures { result ≡ kind_at self.entry.line.kinds.now self.entry.place.0 }
    {
        self.line.kinds[self.place.0]
    }

    // The byte offset of its lexeme.
    fn offset(self) -> ByteOffset
        ensures { result.0 ≡ offset_in self.entry.line.pairs.now self.entry.place.0 }
    {
        offset_of(self.line.pairs, self.place)
    }

    // The length of its lexeme, in bytes.
    pub fn length(self) -> usize
        ensures { result ≡ length_in self.entry.line.pairs.now self.entry.place.0 }
    {
        length_of(self.line.pairs, self.place)
    }

    pub fn lexeme(self) -> &'a [u8]
        ensures { result.now ≡ lexeme_in self.entry.line.text.now self.entry.line.pairs.now self.entry.place.0 }
    {
        let start = self.offset();
        let end = start.0 + self.length();
        &self.line.text[start.0..end]
    }
}
