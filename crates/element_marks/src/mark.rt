// The elements of a list, each by its own text and by its neighbours.

use crate::words::Keyword;

pub const LINE_FEED: u8 = b'\n';

pub const CARRIAGE_RETURN: u8 = b'\r';

pub const LESS: u8 = b'<';

pub const GREATER: u8 = b'>';

/// What an element is.
#[derive(Clone, Copy, PartialEq, Eq, Debug)]
pub enum Sort {
    Word,
    Quoted,
    Number,
    Str,
    /// A `#` word that names a macro.
    Pound,
    /// A `#` word of Swift itself.
    BuiltinPound,
    At,
    Comma,
    Colon,
    Semicolon,
    Dot,
    Backslash,
    /// The operator `=`.
    Equals,
    /// The operator `->`.
    Arrow,
    Operator,
    Parentheses,
    Brackets,
    Braces,
}

/// An element by its place in the text, in bytes from 0, and what it is.
#[derive(Clone, Copy, PartialEq, Eq, Debug)]
pub struct Mark {
    pub sort: Sort,
    pub keyword: Keyword,
    /// Whether it is first on its line.
    pub first: bool,
    /// Whether trivia stand directly before it.
    pub spaced: bool,
    /// Whether it is an operator that begins with `<`.
    pub begins_angle: bool,
    /// Whether it is an operator that ends with a `<` past its first byte.
    pub ends_angle: bool,
    /// Whether it joins the elements around it.
    pub joins: bool,
    /// Whether it is a modifier.
    pub modifies: bool,
    pub start: u32,
    pub end: u32,
    /// How many `<` and `>` an operator other than `->` has.
    pub opens: u32,
    pub closes: u32,
    /// Of an operator that begins with `<`, how many elements from it on lead back to the angle depth before it;
    /// 0 where none do.
    pub angles: u32,
    /// How many elements the attributes, the modifiers and the starter of the declaration are that it begins; 0
    /// where it begins none.
    pub head: u32,
}
