// Tokens, and what a text is refused for.

/// The classes of tokens.
#[derive(Clone, Copy, PartialEq, Eq, Debug)]
pub enum Class {
    Word,
    Quoted,
    Number,
    Str,
    Pound,
    At,
    Punct,
    Oper,
    LeftBracket,
    RightBracket,
}

/// A token by its places in the text, in bytes from 0. Its leading trivia is what stands from
/// `trivia` to `start`.
#[derive(Clone, Copy, PartialEq, Eq, Debug)]
pub struct Token {
    pub class: Class,
    pub start: u32,
    pub end: u32,
    pub trivia: u32,
}

/// The kinds of fault of a text.
#[derive(Clone, Copy, PartialEq, Eq, Debug)]
pub enum LexKind {
    NotUtf8,
    BadCharacter,
    OpenString,
    OpenComment,
    ExtendedRegex,
    UseInInterpolation,
}

/// The first fault of a text; `at` is its offset in bytes from 0.
#[derive(Clone, Copy, PartialEq, Eq, Debug)]
pub struct LexFault {
    pub at: u32,
    pub kind: LexKind,
}
