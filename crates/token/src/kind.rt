// The token kinds by the Rust's names, 0 to 50 in the order of `TokenKind`. A line is lent with its kinds as bytes, as C has them, and there is no heap to
// make kinds of all of them: code that looks at one token compares its byte with a kind's, or makes a kind of it.
ghost use Rattle.std.specs.Prelude.{◌≡◌};
ghost use Rattle.token.specs.Kind.{order};
ghost use Rattle.token.specs.KindNumber.{Decodes, Gives};

// `kind as u8` is its number.
#[derive(Clone, Copy, Debug, PartialEq, Eq)]
pub enum TokenKind {
    Ampersand,
    AttrDef,
    AttrPassDbl,
    AttrRef,
    Backtick,
    Backslash,
    Bang,
    CalloutNumber,
    Caret,
    CloseBrace,
    CloseBracket,
    CloseParens,
    Colon,
    Comma,
    Dashes,
    DelimiterLine,
    Digits,
    Directive,
    Discard,
    DoubleQuote,
    Dots,
    Email,
    Entity,
    EqualSigns,
    Eof,
    ForwardSlashes,
    GreaterThan,
    Hash,
    LessThan,
    MacroName,
    MaybeEmail,
    Newline,
    NoBreakSpace,
    OpenBrace,
    OpenBracket,
    OpenParens,
    Percent,
    Pipe,
    Plus,
    PreprocPassthru,
    Punctuation,
    QuestionMark,
    SemiColon,
    SingleQuote,
    Star,
    TermDelimiter,
    Tilde,
    Underscore,
    UriScheme,
    Whitespace,
    Word,
}

// A byte that is no kind's number. Its own type: it tells which conversion failed, and one for all would stand in a crate that all import, and say less.
#[derive(Clone, Copy, Debug, PartialEq, Eq)]
pub struct NotAKind(pub u8);

impl From<TokenKind> for u8 {
    ghost from_gives = { Gives };

    fn from(kind: TokenKind) -> u8 {
        kind as u8
    }
}

impl TryFrom<u8> for TokenKind {
    type Error = NotAKind;

    ghost try_from_gives = { Decodes };

    // Case by case: no derive makes a kind of a number.
    fn try_from(number: u8) -> Result<Self, NotAKind> {
        match number {
            0 => Ok(TokenKind::Ampersand),
            1 => Ok(TokenKind::AttrDef),
            2 => Ok(TokenKind::AttrPassDbl),
            3 => Ok(TokenKind::AttrRef),
            4 => Ok(TokenKind::Backtick),
            5 => Ok(TokenKind::Backslash),
            6 => Ok(TokenKind::Bang),
            7 => Ok(TokenKind::CalloutNumber),
            8 => Ok(TokenKind::Caret),
            9 => Ok(TokenKind::CloseBrace),
            10 => Ok(TokenKind::CloseBracket),
            11 => Ok(TokenKind::CloseParens),
            12 => Ok(TokenKind::Colon),
            13 => Ok(TokenKind::Comma),
            14 => Ok(TokenKind::Dashes),
            15 => Ok(TokenKind::DelimiterLine),
            16 => Ok(TokenKind::Digits),
            17 => Ok(TokenKind::Directive),
            18 => Ok(TokenKind::Discard),
            19 => Ok(TokenKind::DoubleQuote),
            20 => Ok(TokenKind::Dots),
            21 => Ok(TokenKind::Email),
            22 => Ok(TokenKind::Entity),
            23 => Ok(TokenKind::EqualSigns),
            24 => Ok(TokenKind::Eof),
            25 => Ok(TokenKind::ForwardSlashes),
            26 => Ok(TokenKind::GreaterThan),
            27 => Ok(TokenKind::Hash),
            28 => Ok(TokenKind::LessThan),
            29 => Ok(TokenKind::MacroName),
            30 => Ok(TokenKind::MaybeEmail),
            31 => Ok(TokenKind::Newline),
            32 => Ok(TokenKind::NoBreakSpace),
            33 => Ok(TokenKind::OpenBrace),
            34 => Ok(TokenKind::OpenBracket),
            35 => Ok(TokenKind::OpenParens),
            36 => Ok(TokenKind::Percent),
            37 => Ok(TokenKind::Pipe),
            38 => Ok(TokenKind::Plus),
            39 => Ok(TokenKind::PreprocPassthru),
            40 => Ok(TokenKind::Punctuation),
            41 => Ok(TokenKind::QuestionMark),
            42 => Ok(TokenKind::SemiColon),
            43 => Ok(TokenKind::SingleQuote),
            44 => Ok(TokenKind::Star),
            45 => Ok(TokenKind::TermDelimiter),
            46 => Ok(TokenKind::Tilde),
            47 => Ok(TokenKind::Underscore),
            48 => Ok(TokenKind::UriScheme),
            49 => Ok(TokenKind::Whitespace),
            50 => Ok(TokenKind::Word),
            _ => Err(NotAKind(number)),
        }
    }
}

// Every kind, in the order of `TokenKind`; each by its name, since an enum does not list its cases.
pub fn all() -> [u8; 51]
    ensures { result ≡ order }
{
    [
        TokenKind::Ampersand as u8,
        TokenKind::AttrDef as u8,
        TokenKind::AttrPassDbl as u8,
        TokenKind::AttrRef as u8,
        TokenKind::Backtick as u8,
        TokenKind::Backslash as u8,
        TokenKind::Bang as u8,
        TokenKind::CalloutNumber as u8,
        TokenKind::Caret as u8,
        TokenKind::CloseBrace as u8,
        TokenKind::CloseBracket as u8,
        TokenKind::CloseParens as u8,
        TokenKind::Colon as u8,
        TokenKind::Comma as u8,
        TokenKind::Dashes as u8,
        TokenKind::DelimiterLine as u8,
        TokenKind::Digits as u8,
        TokenKind::Directive as u8,
        TokenKind::Discard as u8,
        TokenKind::DoubleQuote as u8,
        TokenKind::Dots as u8,
        TokenKind::Email as u8,
        TokenKind::Entity as u8,
        TokenKind::EqualSigns as u8,
        TokenKind::Eof as u8,
        TokenKind::ForwardSlashes as u8,
        TokenKind::GreaterThan as u8,
        TokenKind::Hash as u8,
        TokenKind::LessThan as u8,
        TokenKind::MacroName as u8,
        TokenKind::MaybeEmail as u8,
        TokenKind::Newline as u8,
        TokenKind::NoBreakSpace as u8,
        TokenKind::OpenBrace as u8,
        TokenKind::OpenBracket as u8,
        TokenKind::OpenParens as u8,
        TokenKind::Percent as u8,
        TokenKind::Pipe as u8,
        TokenKind::Plus as u8,
        TokenKind::PreprocPassthru as u8,
        TokenKind::Punctuation as u8,
        TokenKind::QuestionMark as u8,
        TokenKind::SemiColon as u8,
        TokenKind::SingleQuote as u8,
        TokenKind::Star as u8,
        TokenKind::TermDelimiter as u8,
        TokenKind::Tilde as u8,
        TokenKind::Underscore as u8,
        TokenKind::UriScheme as u8,
        TokenKind::Whitespace as u8,
        TokenKind::Word as u8,
    ]
}
