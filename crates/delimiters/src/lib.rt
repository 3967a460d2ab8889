// Delimiting: which commas of a line divide it into attributes, and how many were taken back. The rule stands in specs/Delimit.antt, what holds of
// every line in specs/Divide.antt.
#![tactic(auto)]

ghost use Rattle.std.specs.Prelude.{◌≤◌, length};
ghost use Rattle.delimiters.specs.Noted.{AtQuote};
ghost use Rattle.delimiters.specs.Outcome.{Outcome};

use token::kind::TokenKind;

// How many tokens are counted, how many of their commas divide, and how many were taken back: stretches that a second quote rejoined. A count of
// commas and no slice of the buffer: the contract says what each number of the buffer is as the call returns, and a buffer that the answer still
// borrows has no value then (tried).
#[derive(Clone, Copy, Debug, PartialEq, Eq)]
pub struct Delimited {
    pub counted: usize,
    pub commas: usize,
    pub rejoined: usize,
}

// What a quote does, by what is noted of its kind: the first notes how many stretches there are; the second takes the note, and answers how many
// stretches are to remain.
fn at_quote(noted: &mut Option<usize>, stretches: usize) -> Option<usize>
    ensures { AtQuote noted.old stretches noted.new result }
{
    match noted.take() {
        None => {
            *noted = Some(stretches);
            None
        }
        first => first,
    }
}

// Delimits a line by the kinds of its tokens, and leaves the places of the dividing commas, first to last, at the front of `commas`. The slice has
// room for every token, and its numbers for every place. Inlined: as a function of its own it hands its three numbers over in memory, and a list of
// three tokens took a tenth longer.
#[inline(always)]
pub fn find_delimiters(kinds: &[u8], commas: &mut [u16]) -> Delimited
    requires room { length kinds.now ≤ length commas.old }
    requires places_fit { length kinds.now ≤ 65536 }
    ensures { Outcome kinds.now commas.old result commas.new }
{
    let mut stretches: usize = 1;
    let mut rejoined: usize = 0;
    // What the first quote of each kind noted, while it waits for its second.
    let mut double: Option<usize> = None;
    let mut single: Option<usize> = None;
    let mut counted = kinds.len().saturating_sub(1);
    'tokens: for (i, kind) in kinds[..counted].iter().enumerate() {
        let remain = match TokenKind::try_from(*kind) {
            Ok(TokenKind::CloseBracket) => {
                counted = i;
                break 'tokens;
            }
            Ok(TokenKind::Comma) => {
                commas[stretches - 1] = i as u16;
                stretches += 1;
                None
            }
            Ok(TokenKind::DoubleQuote) => at_quote(&mut double, stretches),
            Ok(TokenKind::SingleQuote) => at_quote(&mut single, stretches),
            _ => None,
        };
        let Some(remain) = remain else {
            continue 'tokens;
        };
        // Rejoin the last stretch to the one before it while more than those remain. A turn takes back one comma, which was stored for a token of its
        // own, so over a whole line there are fewer turns than tokens (`rejoinings-few` of CommaLaws): the time is linear. A loop by hand, and no
        // `min`, as is the labelled loop around it: document 01 names these forms.
        while remain < stretches {
            stretches -= 1;
            rejoined += 1;
        }
    }
    Delimited {
        counted,
        commas: stretches - 1,
        rejoined,
    }
}
