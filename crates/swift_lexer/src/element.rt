// Tokens in bracket groups, and what a text's brackets are refused for.

use crate::token::Token;

/// How deep brackets may be nested.
pub const DEEPEST: usize = 200;

/// A token outside brackets of its level, or a bracketed group.
#[derive(Drop, Debug)]
#[cycle(elements)]
pub enum Element {
    Leaf(Token),
    Nest(Box<Group>),
}

/// A pair of brackets, and what stands between them.
#[derive(Drop, Debug)]
#[cycle(elements)]
pub struct Group {
    pub left: Token,
    pub inner: Vec<Element>,
    pub right: Token,
}

/// The kinds of fault of a text's brackets.
#[derive(Clone, Copy, PartialEq, Eq, Debug)]
pub enum GroupKind {
    /// A right bracket with none to close.
    Unopened,
    /// A left bracket that nothing closes.
    Unclosed,
    /// A right bracket of another kind than the one to close.
    Mismatched,
    /// A left bracket inside too many others.
    TooDeep,
}

/// The first fault of a text's brackets; `at` is the offset of the bracket in bytes from 0.
#[derive(Clone, Copy, PartialEq, Eq, Debug)]
pub struct GroupFault {
    pub at: u32,
    pub kind: GroupKind,
}
