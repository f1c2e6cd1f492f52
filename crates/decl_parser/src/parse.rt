// A text into its outline.

ghost use Rattle.std.specs.Prelude.{◌≡◌, ◌≤◌, ◌∷◌, [], IfOk, IfSome, List, Ok, false, length};
ghost use Rattle.swift_lexer.specs.Tokens.{IsLexed};
ghost use Rattle.swift_lexer.specs.declared.token.Token.{Token};
ghost use Rattle.swift_lexer.specs.Trees.{forest_of, forest_tokens, tree_of, tree_tokens};
ghost use Rattle.swift_tree.specs.Outlines.{outline_of};
ghost use Rattle.swift_tree.specs.declared.outline.Shape.TheVariants as shape;
ghost use Rattle.element_marks.specs.Answers.{Answers};
ghost use Rattle.decl_parser.specs.Outline.{IsOutline, allowed, elements_of, name_bytes, read_groups, read_tokens, unreserved};

use crate::fault::{ParseFault, ParseKind, fault, of_grouping, of_lexing};
use crate::fragments::by_shape;
use crate::lists::behind;
use element_marks::{RESERVED, is_reserved, part};
use memchr::memmem;
use std::alloc::Global;
use swift_base::Refusal;
use swift_lexer::{
    Class, Element, GroupFault, LexFault, Token, group, lex, one_group_outcome, one_token_outcome,
    read_elements,
};
use swift_tree::{Outline, Shape};

/// The length of the longest text that is read, in bytes.
pub const LONGEST_SOURCE: usize = 4_194_304;

/// The outline of a source file, or its first fault.
pub fn parse_file(alloc: Global, text: &[u8]) -> Result<Outline, Refusal<ParseFault>>
    ensures outline { Answers outline_of result (IsOutline text.now shape.File) }
    ensures groups { IfOk result (λ outline. Ok (forest_of outline.groups.items) ≡ elements_of text.now) }
{
    parse(alloc, text, Shape::File)
}

/// The outline of declarations in any place, or their first fault; the names that only macros make are names like
/// others there.
pub fn parse_items(alloc: Global, text: &[u8]) -> Result<Outline, Refusal<ParseFault>>
    ensures outline { Answers outline_of result (IsOutline text.now shape.Items) }
    ensures groups { IfOk result (λ outline. Ok (forest_of outline.groups.items) ≡ elements_of text.now) }
{
    parse(alloc, text, Shape::Items)
}

/// The outline of attributes and nothing else, or their first fault.
pub fn parse_attributes(alloc: Global, text: &[u8]) -> Result<Outline, Refusal<ParseFault>>
    ensures outline { Answers outline_of result (IsOutline text.now shape.Attributes) }
    ensures groups { IfOk result (λ outline. Ok (forest_of outline.groups.items) ≡ elements_of text.now) }
{
    parse(alloc, text, Shape::Attributes)
}

/// The outline of accessors, or of one pair of braces around them, or their first fault.
pub fn parse_accessors(alloc: Global, text: &[u8]) -> Result<Outline, Refusal<ParseFault>>
    ensures outline { Answers outline_of result (IsOutline text.now shape.Accessors) }
    ensures groups { IfOk result (λ outline. Ok (forest_of outline.groups.items) ≡ elements_of text.now) }
{
    parse(alloc, text, Shape::Accessors)
}

/// The outline of an expression, or its first fault.
pub fn parse_expression(alloc: Global, text: &[u8]) -> Result<Outline, Refusal<ParseFault>>
    ensures outline { Answers outline_of result (IsOutline text.now shape.Expression) }
    ensures groups { IfOk result (λ outline. Ok (forest_of outline.groups.items) ≡ elements_of text.now) }
{
    parse(alloc, text, Shape::Expression)
}

#[tactic(auto, unfolding(crate::specs::Outline::outline))]
fn parse(alloc: Global, text: &[u8], shape: Shape) -> Result<Outline, Refusal<ParseFault>>
    ensures outline { Answers outline_of result (IsOutline text.now shape) }
    ensures groups { IfOk result (λ outline. Ok (forest_of outline.groups.items) ≡ elements_of text.now) }
{
    let elements = read_all(alloc, text)?;
    allowed(text, shape, &elements)?;
    let mut outline = by_shape(alloc, text, shape, &elements)?;
    outline.groups = elements;
    Ok(outline)
}

/// The elements of a text, or the first fault of its length, its tokens, and then its brackets.
pub fn elements_of(alloc: Global, text: &[u8]) -> Result<Vec<Element>, Refusal<ParseFault>>
    ensures { Answers (λ elements. forest_of elements.items) result (λ outcome. outcome ≡ elements_of text.now) }
{
    read_all(alloc, text)
}

fn read_all(alloc: Global, text: &[u8]) -> Result<Vec<Element>, Refusal<ParseFault>>
    ensures elements { Answers (λ elements. forest_of elements.items) result (λ outcome. outcome ≡ elements_of text.now) }
    ensures short { IfOk result (λ _. length text.now ≤ LONGEST_SOURCE) }
{
    match read_at_once(alloc, text) {
        Some(elements) => Ok(elements),
        None => by_tokens(alloc, text),
    }
}

/// The elements of a text without a fault.
fn read_at_once(alloc: Global, text: &[u8]) -> Option<Vec<Element>>
    ensures elements { IfSome result (λ elements. Ok (forest_of elements.items) ≡ elements_of text.now) }
    ensures short { IfSome result (λ _. length text.now ≤ LONGEST_SOURCE) }
{
    if text.len() > LONGEST_SOURCE {
        return None;
    }
    read_elements(alloc, text)
}

/// The elements of a text by a list of its tokens, or its first fault.
#[tactic(auto, unfolding(crate::specs::Outline::elements_of))]
fn by_tokens(alloc: Global, text: &[u8]) -> Result<Vec<Element>, Refusal<ParseFault>>
    ensures elements { Answers (λ elements. forest_of elements.items) result (λ outcome. outcome ≡ elements_of text.now) }
    ensures short { IfOk result (λ _. length text.now ≤ LONGEST_SOURCE) }
{
    let tokens = tokens_of(alloc, text)?;
    groups_of(alloc, &tokens, text)
}

fn tokens_of(alloc: Global, text: &[u8]) -> Result<Vec<Token>, Refusal<ParseFault>>
    ensures tokens { Answers (λ tokens. tokens.items) result (λ outcome. outcome ≡ read_tokens text.now) }
    ensures lexed { IfOk result (λ tokens. IsLexed text.now (Ok tokens.items)) }
    ensures short { IfOk result (λ _. length text.now ≤ LONGEST_SOURCE) }
{
    if text.len() > LONGEST_SOURCE {
        return Err(fault(0, ParseKind::SourceTooLarge));
    }
    one_token_outcome();
    match lex(alloc, text) {
        Ok(tokens) => Ok(tokens),
        Err(swift_lexer::Refusal::Memory) => Err(Refusal::Memory),
        Err(swift_lexer::Refusal::Fault(LexFault { at, kind })) => Err(fault(at, of_lexing(kind))),
    }
}

fn groups_of(
    alloc: Global,
    tokens: &[Token],
    text: &[u8],
) -> Result<Vec<Element>, Refusal<ParseFault>>
    requires { IsLexed text.now (Ok tokens.now) }
    ensures { Answers (λ elements. forest_of elements.items) result (λ outcome. outcome ≡ read_groups text.now tokens.now) }
{
    one_group_outcome();
    match group(alloc, tokens, text) {
        Ok(elements) => Ok(elements),
        Err(swift_lexer::Refusal::Memory) => Err(Refusal::Memory),
        Err(swift_lexer::Refusal::Fault(GroupFault { at, kind })) => {
            Err(fault(at, of_grouping(kind)))
        }
    }
}

/// Only a file is looked through for reserved words.
fn allowed(text: &[u8], shape: Shape, elements: &[Element]) -> Result<(), Refusal<ParseFault>>
    ensures { Answers (λ fine. fine) result (λ outcome. outcome ≡ allowed text.now shape (forest_tokens (forest_of elements.now))) }
{
    match shape {
        Shape::File => unreserved(text, elements),
        _ => Ok(()),
    }
}

/// No word among the elements is one that only macros make.
fn unreserved(text: &[u8], elements: &[Element]) -> Result<(), Refusal<ParseFault>>
    ensures { Answers (λ fine. fine) result (λ outcome. outcome ≡ unreserved text.now (forest_tokens (forest_of elements.now))) }
{
    if !holds_reserved(text) {
        return Ok(());
    }
    'elements: for element in elements {
        unreserved_in(text, element)?;
    }
    Ok(())
}

/// Whether the bytes that such words begin with stand anywhere in the text.
fn holds_reserved(text: &[u8]) -> bool
    ensures { result ≡ false → (tokens : List Token) → unreserved text.now tokens ≡ Ok tt }
{
    match memmem::find(text, RESERVED) {
        Some(_) => true,
        None => false,
    }
}

/// The same of one element.
fn unreserved_in(text: &[u8], element: &Element) -> Result<(), Refusal<ParseFault>>
    ensures { Answers (λ fine. fine) result (λ outcome. outcome ≡ unreserved text.now (tree_tokens (tree_of element.now))) }
{
    match element {
        Element::Leaf(token) => unreserved_token(text, *token),
        Element::Nest(group) => {
            unreserved_token(text, group.left)?;
            let inner = group.inner.as_slice();
            'inner: for part in inner.iter() {
                unreserved_in(text, part)?;
            }
            unreserved_token(text, group.right)
        }
    }
}

fn unreserved_token(text: &[u8], token: Token) -> Result<(), Refusal<ParseFault>>
    ensures { Answers (λ fine. fine) result (λ outcome. outcome ≡ unreserved text.now (token ∷ [])) }
{
    if is_reserved(name_bytes(text, token)) {
        return Err(fault(token.start, ParseKind::ReservedWord));
    }
    Ok(())
}

/// A name's own bytes; other tokens have none.
fn name_bytes(text: &[u8], token: Token) -> &[u8]
    ensures { result.now ≡ name_bytes text.now token.class token }
{
    match token.class {
        Class::Word => part(text, token.start, token.end),
        Class::Quoted => behind(part(text, token.start, token.end.saturating_sub(1)), 1),
        _ => &[],
    }
}
