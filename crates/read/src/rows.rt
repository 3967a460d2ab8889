// The rows that a reading finds, and an anchor, in words.
use crate::tokens::Token;
use anchor::Anchor;
use row::diagnostic::Diagnostic;
use row::tag::Tag;
use row::{Row, WIDTH};
use std::io;
use token::kind::TokenKind;
use token::quotes::QuoteMark;
use token::{Run, TokenPlace};

// A run of a row, which is told by two numbers.
fn run_of(place: u32, count: u32) -> Run {
    Run {
        place: TokenPlace(place as usize),
        count: count as usize,
    }
}

// The row that is told by its numbers, and its tag; none, where no row has them. No `TryFrom`, since neither the trait nor the row is this crate's; in
// `row` it would be a public conversion with a contract, for this one caller.
fn row_of(numbers: [u32; WIDTH]) -> Option<(Tag, Row)> {
    let [tag, place, count, second_place, second_count, mark] = numbers;
    let row = Row {
        tag,
        first: run_of(place, count),
        second: run_of(second_place, second_count),
        mark: QuoteMark::try_from(mark).ok()?,
    };
    Some((Tag::try_from(tag).ok()?, row))
}

// What is said of the quotes that were taken off a run.
fn quotes_told(mark: QuoteMark) -> &'static str {
    match mark {
        QuoteMark::None => "",
        QuoteMark::Double => ", in double quotes",
        QuoteMark::Single => ", in single quotes",
    }
}

// The tokens of a line, and their text as it is printed.
#[derive(Clone, Copy)]
pub(crate) struct Shown<'a> {
    pub(crate) tokens: &'a [Token],
    pub(crate) text: &'a [u8],
}

impl Shown<'_> {
    // Writes a label, and the texts of a run's tokens, of which those of one kind may be skipped.
    fn write_tokens(
        self,
        rt: &impl Print,
        label: &str,
        run: Run,
        skipped: Option<TokenKind>,
    ) -> io::Result<()> {
        print!(rt; "{label}`")?;
        for token in self.tokens.iter().skip(run.place.0).take(run.count) {
            if skipped != Some(token.kind) {
                rt.write_all(self.text.get(token.bytes()).unwrap_or(b""))?;
            }
        }
        rt.write_all(b"`")
    }

    // Writes a label, and what a run of a row says: AttrRef tokens are skipped.
    fn write_run(self, rt: &impl Print, label: &str, run: Run) -> io::Result<()> {
        self.write_tokens(rt, label, run, Some(TokenKind::AttrRef))
    }

    // Writes an anchor's id and its reference text, if it has one, each on a line of its own: AttrRef tokens are kept.
    pub(crate) fn write_anchor(self, rt: &impl Print, anchor: Anchor) -> io::Result<()> {
        self.write_tokens(rt, "  id ", anchor.id, None)?;
        rt.write_all(b"\n")?;
        if anchor.reftext.count == 0 {
            return Ok(());
        }
        self.write_tokens(rt, "  reference text ", anchor.reftext, None)?;
        if anchor.discard {
            rt.write_all(b", its first token as Discard")?;
        }
        rt.write_all(b"\n")
    }

    // Writes a row: its tag, then what its runs say.
    fn write_words(self, rt: &impl Print, tag: Tag, row: Row) -> io::Result<()> {
        match tag {
            Tag::EmptyPositional => rt.write_all(b"positional, empty"),
            Tag::Positional => self.write_run(rt, "positional ", row.first),
            Tag::Id => self.write_run(rt, "id ", row.first),
            Tag::Role => self.write_run(rt, "role ", row.first),
            Tag::Option => self.write_run(rt, "option ", row.first),
            Tag::Named => {
                self.write_run(rt, "named ", row.first)?;
                self.write_run(rt, " = ", row.second)
            }
            Tag::Plain => {
                self.write_run(rt, "named, read under none, ", row.first)?;
                self.write_run(rt, " = ", row.second)
            }
            Tag::Diagnostic => {
                let number = row.first.count;
                let decoded = u32::try_from(number).ok();
                if let Some(problem) = decoded.and_then(|n| Diagnostic::try_from(n).ok()) {
                    print!(rt;
                        "diagnostic {number}, {problem}, at token {}",
                        row.first.place.0
                    )?;
                }
                Ok(())
            }
        }
    }

    // Writes a row on a line of its own, and which quotes stood round its last run.
    pub(crate) fn write_row(self, rt: &impl Print, numbers: [u32; WIDTH]) -> io::Result<()> {
        rt.write_all(b"  ")?;
        if let Some((tag, row)) = row_of(numbers) {
            self.write_words(rt, tag, row)?;
            rt.write_all(quotes_told(row.mark).as_bytes())?;
        }
        rt.write_all(b"\n")
    }
}
