// What stands in a row of elements.
ghost use Rattle.std.specs.Prelude.{◌≡◌, ◌++◌, ◌-◌, IfOk, length, map, option_map, slice_range, take, drop};
ghost use Rattle.std.specs.Option.{option_copied};
ghost use Rattle.std.specs.List.{flat_map};
ghost use Rattle.swift_lexer.specs.Tiles.{bytes_of};
ghost use Rattle.swift_lexer.specs.Trees.{tree_of, forest_of, nest, tree_tokens};
ghost use Rattle.macro_decls.specs.Elements.{text_at, spells, inside_of, leaf_of, round_of, leaf_at, round_at, is_word, word_at, spells_at, joined, tree_seen};

use std::alloc::{AllocError, Global};
use swift_base::Span;
use swift_lexer::{Class, Element, Token};

// The first n elements, or all where there are fewer.
pub fn front<T>(items: &[T], n: usize) -> &[T]
    ensures { result.now ≡ take n items.now }
{
    if n < items.len() {
        let (front, _) = items.split_at(n);
        return front;
    }
    items
}

// What stands behind the first n elements.
pub fn behind<T>(items: &[T], n: usize) -> &[T]
    ensures { result.now ≡ drop n items.now }
{
    let (_, behind) = items.split_at(n.min(items.len()));
    behind
}

// The bytes from one place to another, as far as the text has them.
fn part(text: &[u8], start: u32, end: u32) -> &[u8]
    ensures { result.now ≡ slice_range text.now start end }
{
    front(
        behind(text, start as usize),
        end.saturating_sub(start) as usize,
    )
}

/// The bytes of a place.
pub fn text_at(text: &[u8], span: Span) -> &[u8]
    ensures { result.now ≡ text_at text.now span }
{
    part(text, span.start, span.end)
}

/// The bytes of a token.
pub fn bytes_of(text: &[u8], token: Token) -> &[u8]
    ensures { result.now ≡ bytes_of text.now token }
{
    part(text, token.start, token.end)
}

/// The bytes of a token between its first and its last.
pub fn inside_of(text: &[u8], token: Token) -> &[u8]
    ensures { result.now ≡ inside_of text.now token }
{
    behind(part(text, token.start, token.end.saturating_sub(1)), 1)
}

pub fn spells(text: &[u8], token: Token, word: &[u8]) -> bool
    ensures { result ≡ spells text.now token word.now }
{
    bytes_of(text, token) == word
}

// One level of an element.
#[derive(Clone, Copy)]
pub enum Shape<'a> {
    Leaf(Token),
    Nest {
        left: Token,
        inner: &'a [Element],
        right: Token,
    },
}

pub fn shape_of(element: &Element) -> Shape<'_>
    ensures { tree_of element.now ≡ tree_seen result }
{
    match element {
        Element::Leaf(token) => Shape::Leaf(*token),
        Element::Nest(group) => Shape::Nest {
            left: group.left,
            inner: &group.inner,
            right: group.right,
        },
    }
}

fn leaf_of(element: &Element) -> Option<Token>
    ensures { result ≡ leaf_of (tree_of element.now) }
{
    match shape_of(element) {
        Shape::Leaf(token) => Some(token),
        Shape::Nest { .. } => None,
    }
}

fn round_of<'a>(text: &[u8], element: &'a Element) -> Option<&'a [Element]>
    ensures { option_map (λ inner. map tree_of inner.now) result ≡ round_of text.now (tree_of element.now) }
{
    match shape_of(element) {
        Shape::Leaf(_) => None,
        Shape::Nest { left, inner, right } => round_from(text, left, inner, right),
    }
}

fn round_from<'a>(
    text: &[u8],
    left: Token,
    inner: &'a [Element],
    _right: Token,
) -> Option<&'a [Element]>
    ensures { option_map (λ inner. map tree_of inner.now) result ≡ round_of text.now (nest left (forest_of inner.now) _right) }
{
    if !spells(text, left, b"(") {
        return None;
    }
    Some(inner)
}

pub fn leaf_at(elements: &[Element], k: usize) -> Option<Token>
    ensures { result ≡ leaf_at (map tree_of elements.now) k }
{
    leaf_of(elements.get(k)?)
}

/// What stands in the group in round brackets at a place.
pub fn round_at<'a>(text: &[u8], elements: &'a [Element], k: usize) -> Option<&'a [Element]>
    ensures { option_map (λ inner. map tree_of inner.now) result ≡ round_at text.now (map tree_of elements.now) k }
{
    round_of(text, elements.get(k)?)
}

fn is_word(class: Class) -> bool
    ensures { result ≡ is_word class }
{
    matches!(class, Class::Word)
}

/// The word at a place.
pub fn word_at(elements: &[Element], k: usize) -> Option<Token>
    ensures { result ≡ word_at (map tree_of elements.now) k }
{
    let token = leaf_at(elements, k)?;
    if !is_word(token.class) {
        return None;
    }
    Some(token)
}

/// Whether the element at a place is a token that spells the word.
pub fn spells_at(text: &[u8], elements: &[Element], k: usize, word: &[u8]) -> bool
    ensures { result ≡ spells_at text.now (map tree_of elements.now) k word.now }
{
    match leaf_at(elements, k) {
        Some(token) => spells(text, token, word),
        None => false,
    }
}

/// The texts of the tokens at every depth, joined.
pub fn joined(alloc: Global, text: &[u8], elements: &[Element]) -> Result<Vec<u8>, AllocError>
    ensures { IfOk result (λ bytes. bytes.items ≡ joined text.now (map tree_of elements.now)) }
{
    let mut bytes = Vec::new(alloc);
    'elements: for element in elements {
        put_tokens(text, element, &mut bytes)?;
    }
    Ok(bytes)
}

fn put_token(text: &[u8], token: Token, bytes: &mut Vec<u8>) -> Result<(), AllocError>
    ensures { IfOk result (λ _. bytes.new.items ≡ bytes.old.items ++ bytes_of text.now token) }
{
    bytes.extend_from_slice(bytes_of(text, token))?;
    Ok(())
}

fn put_tokens(text: &[u8], element: &Element, bytes: &mut Vec<u8>) -> Result<(), AllocError>
    ensures { IfOk result (λ _. bytes.new.items ≡ bytes.old.items ++ flat_map (bytes_of text.now) (tree_tokens (tree_of element.now))) }
{
    match element {
        Element::Leaf(token) => put_token(text, *token, bytes),
        Element::Nest(group) => {
            put_token(text, group.left, bytes)?;
            'inner: for part in group.inner.iter() {
                put_tokens(text, part, bytes)?;
            }
            put_token(text, group.right, bytes)
        }
    }
}
