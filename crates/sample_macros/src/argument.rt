// The argument of a macro's use.
ghost use Rattle.std.specs.Prelude.{◌≡◌, ◌≤◌, IfOk, length, option_map, slice_range};
ghost use Rattle.std.specs.Str.{IsUtf8};
ghost use Rattle.plugin_messages.specs.Writable.{WhereSome};
ghost use Rattle.swift_lexer.specs.Trees.{tree_of, forest_of, nest};
ghost use Rattle.sample_macros.specs.Use.{readable, HasElements, HasArgumentWhereSome, is_round, first_round, start_of, end_of, end_of_last, text_of, argument_in};
ghost use Rattle.sample_macros.specs.Shapes.{tree_seen, round_in};

use std::alloc::{AllocError, Global};
use swift_lexer::{
    Element, Refusal, Token, group, groups_hold_the_tokens, lex, tokens_are_of_characters,
};

/// How many bytes the source of a use may have.
pub const LONGEST_SOURCE: usize = 4_194_304;

/// The argument of the use with this source, where it has one.
pub fn argument_of(alloc: Global, source: &[u8]) -> Result<Option<Vec<u8>>, AllocError>
    ensures argument { IfOk result (λ argument. HasArgumentWhereSome (readable source.now) (option_map (λ v. v.items) argument)) }
    ensures utf8 { IsUtf8 source.now → IfOk result (λ argument. WhereSome IsUtf8 (option_map (λ v. v.items) argument)) }
{
    groups_hold_the_tokens();
    tokens_are_of_characters();
    if source.len() > LONGEST_SOURCE {
        return Ok(None);
    }
    let Some(elements) = elements_of(alloc, source)? else {
        return Ok(None);
    };
    match argument_in(source, &elements) {
        Some(argument) => Ok(Some(Vec::from_slice(alloc, argument)?)),
        None => Ok(None),
    }
}

/// The elements of a text, where its tokens and brackets are accepted.
fn elements_of(alloc: Global, text: &[u8]) -> Result<Option<Vec<Element>>, AllocError>
    requires { length text.now ≤ LONGEST_SOURCE }
    ensures { IfOk result (λ elements. HasElements text.now (option_map (λ v. forest_of v.items) elements)) }
{
    let tokens = match lex(alloc, text) {
        Ok(tokens) => tokens,
        Err(Refusal::Memory) => return Err(AllocError),
        Err(Refusal::Fault(_)) => return Ok(None),
    };
    match group(alloc, &tokens, text) {
        Ok(elements) => Ok(Some(elements)),
        Err(Refusal::Memory) => Err(AllocError),
        Err(Refusal::Fault(_)) => Ok(None),
    }
}

// The text in the first round brackets, from the first token to the last.
#[tactic(auto, unfolding(crate::specs::Use::argument_in))]
fn argument_in<'a>(text: &'a [u8], elements: &[Element]) -> Option<&'a [u8]>
    ensures { option_map (λ s. s.now) result ≡ argument_in text.now (forest_of elements.now) }
{
    text_of(text, first_round(text, elements)?)
}

// What stands in the first group in round brackets.
#[tactic(auto, unfolding(crate::specs::Use::first_round))]
fn first_round<'a>(text: &[u8], elements: &'a [Element]) -> Option<&'a [Element]>
    ensures { option_map (λ inner. forest_of inner.now) result ≡ first_round text.now (forest_of elements.now) }
{
    let mut rest = elements;
    'elements: while let [first, others @ ..] = rest {
        if let Some(inner) = round_in(text, first) {
            return Some(inner);
        }
        rest = others;
    }
    None
}

// What stands in an element that is a group in round brackets.
fn round_in<'a>(text: &[u8], element: &'a Element) -> Option<&'a [Element]>
    ensures { option_map (λ inner. forest_of inner.now) result ≡ round_in text.now (tree_of element.now) }
{
    match shape_of(element) {
        Shape::Leaf(_) => None,
        Shape::Nest { left, inner, .. } => {
            if is_round(text, left) {
                Some(inner)
            } else {
                None
            }
        }
    }
}

fn is_round(text: &[u8], left: Token) -> bool
    ensures { result ≡ is_round text.now left }
{
    text.get(left.start as usize).copied().unwrap_or(0) == b'('
}

// The text from the first token of the elements to their last.
#[tactic(auto, unfolding(crate::specs::Use::text_of))]
fn text_of<'a>(text: &'a [u8], elements: &[Element]) -> Option<&'a [u8]>
    ensures { option_map (λ s. s.now) result ≡ text_of text.now (forest_of elements.now) }
{
    match elements {
        [] => None,
        [first, others @ ..] => {
            let end = end_of_last(end_of(first), others);
            Some(part(text, start_of(first), end))
        }
    }
}

#[tactic(auto, unfolding(crate::specs::Use::end_of_last))]
fn end_of_last(end: u32, elements: &[Element]) -> u32
    ensures { result ≡ end_of_last end (forest_of elements.now) }
{
    let mut last = end;
    let mut rest = elements;
    'elements: while let [first, others @ ..] = rest {
        last = end_of(first);
        rest = others;
    }
    last
}

fn start_of(element: &Element) -> u32
    ensures { result ≡ start_of (tree_of element.now) }
{
    match shape_of(element) {
        Shape::Leaf(token) => token.start,
        Shape::Nest { left, .. } => left.start,
    }
}

fn end_of(element: &Element) -> u32
    ensures { result ≡ end_of (tree_of element.now) }
{
    match shape_of(element) {
        Shape::Leaf(token) => token.end,
        Shape::Nest { right, .. } => right.end,
    }
}

// One level of an element.
#[derive(Clone, Copy)]
pub enum Shape<'a> {
    Leaf(Token),
    Nest {
        left: Token,
        inner: &'a [Element],
        right: Token,
    },
}

fn shape_of(element: &Element) -> Shape<'_>
    ensures { tree_of element.now ≡ tree_seen result }
{
    match element {
        Element::Leaf(token) => Shape::Leaf(*token),
        Element::Nest(group) => Shape::Nest {
            left: group.left,
            inner: &group.inner,
            right: group.right,
        },
    }
}

// The bytes from one place to another, as far as the text has them.
fn part(text: &[u8], start: u32, end: u32) -> &[u8]
    ensures { result.now ≡ slice_range text.now start end }
{
    let (_, behind) = text.split_at(text.len().min(start as usize));
    let len = end.saturating_sub(start) as usize;
    let (front, _) = behind.split_at(behind.len().min(len));
    front
}
