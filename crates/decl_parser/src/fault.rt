// Why a text has no outline.

ghost use Rattle.std.specs.Prelude.{◌≡◌};
ghost use Rattle.swift_base.specs.declared.refusal.Refusal.TheVariants.{Fault};
ghost use Rattle.decl_parser.specs.Faults.{group_kind, lex_kind};

use swift_base::Refusal;
use swift_lexer::{GroupKind, LexKind};

/// The kinds of fault of a text.
#[derive(Clone, Copy, PartialEq, Eq, Debug)]
pub enum ParseKind {
    /// A text longer than it may be.
    SourceTooLarge,
    NotUtf8,
    BadCharacter,
    OpenString,
    OpenComment,
    ExtendedRegex,
    UseInInterpolation,
    Unopened,
    Unclosed,
    Mismatched,
    TooDeep,
    /// A name that begins as only names that macros make may.
    ReservedWord,
    /// Something else than a declaration, or a declaration of a kind that has no place there.
    NotADeclaration,
    /// A `#` word of Swift itself in a declaration's place.
    BuiltinItem,
    /// A macro use in a declaration's place with attributes or modifiers.
    AttributedUse,
    MissingName,
    MissingBlock,
    BadBinding,
    /// A declaration that ends with what joins it to more.
    DanglingJoiner,
    NotAnAttribute,
    NotAnAccessor,
    NotAnExpression,
    /// An expression without a token.
    Empty,
}

/// The first fault of a text; `at` is its offset in bytes from 0.
#[derive(Clone, Copy, PartialEq, Eq, Debug)]
pub struct ParseFault {
    pub at: u32,
    pub kind: ParseKind,
}

/// A fault of a text's tokens as one of the text.
pub fn of_lexing(kind: LexKind) -> ParseKind
    ensures { result ≡ lex_kind kind }
{
    match kind {
        LexKind::NotUtf8 => ParseKind::NotUtf8,
        LexKind::BadCharacter => ParseKind::BadCharacter,
        LexKind::OpenString => ParseKind::OpenString,
        LexKind::OpenComment => ParseKind::OpenComment,
        LexKind::ExtendedRegex => ParseKind::ExtendedRegex,
        LexKind::UseInInterpolation => ParseKind::UseInInterpolation,
    }
}

/// A fault of a text's brackets as one of the text.
pub fn of_grouping(kind: GroupKind) -> ParseKind
    ensures { result ≡ group_kind kind }
{
    match kind {
        GroupKind::Unopened => ParseKind::Unopened,
        GroupKind::Unclosed => ParseKind::Unclosed,
        GroupKind::Mismatched => ParseKind::Mismatched,
        GroupKind::TooDeep => ParseKind::TooDeep,
    }
}

/// The fault of that kind at the offset.
pub fn fault(at: u32, kind: ParseKind) -> Refusal<ParseFault>
    ensures { result ≡ Fault (record { at = at; kind = kind }) }
{
    Refusal::Fault(ParseFault { at, kind })
}
