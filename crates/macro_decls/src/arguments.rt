// The arguments of an attribute.
ghost use Rattle.std.specs.Prelude.{◌≡◌, ◌≤◌, ◌<◌, ◌^◌, IfOk, None, length, map};
ghost use Rattle.swift_lexer.specs.Trees.{tree_of};
ghost use Rattle.macro_decls.specs.Arguments.{is_operator, token_angles, angle_count, is_comma, cut, before_comma, label_by, label_of, argument_in, arguments, is_names, is_conformances, argument_seen};

use crate::elements::{Shape, behind, bytes_of, front, shape_of, spells, spells_at, word_at};
use std::alloc::{AllocError, Global};
use swift_lexer::{Class, Element, Token};

/// The labels of lists.
#[derive(Clone, Copy, PartialEq, Eq, Debug)]
pub enum Label {
    Names,
    Conformances,
    /// Any other.
    Other,
}

/// An argument: the label of its list, whether it is the one with the label, and its elements behind that.
#[derive(Clone, Copy)]
pub struct Argument<'a> {
    pub label: Option<Label>,
    pub begins: bool,
    pub entry: &'a [Element],
}

fn is_operator(class: Class) -> bool
    ensures { result ≡ is_operator class }
{
    matches!(class, Class::Oper)
}

// How often the byte stands in an operator other than `->`.
fn angle_count(text: &[u8], byte: u8, element: &Element) -> usize
    ensures { result ≡ angle_count text.now byte (tree_of element.now) }
{
    match shape_of(element) {
        Shape::Leaf(token) => token_angles(text, byte, token),
        Shape::Nest { .. } => 0,
    }
}

fn token_angles(text: &[u8], byte: u8, token: Token) -> usize
    ensures { result ≡ token_angles text.now byte token }
{
    if is_operator(token.class) && !spells(text, token, b"->") {
        bytes_of(text, token).iter().filter(|b| **b == byte).count()
    } else {
        0
    }
}

fn is_comma(text: &[u8], element: &Element) -> bool
    ensures { result ≡ is_comma text.now (tree_of element.now) }
{
    match shape_of(element) {
        Shape::Leaf(token) => spells(text, token, b","),
        Shape::Nest { .. } => false,
    }
}

// How many elements stand before the first comma of angle depth 0.
fn before_comma(text: &[u8], elements: &[Element]) -> usize
    ensures value { result ≡ before_comma text.now 0 0 (map tree_of elements.now) }
    ensures bound { result ≤ length elements.now }
{
    let mut opened = 0u128;
    let mut closed = 0u128;
    let mut count = 0;
    'elements: for element in elements {
        if is_comma(text, element) && opened == closed {
            return count;
        }
        opened += angle_count(text, b'<', element) as u128;
        closed += angle_count(text, b'>', element) as u128;
        count += 1;
    }
    count
}

/// What stands between the commas of angle depth 0.
pub fn cut<'a>(
    alloc: Global,
    text: &[u8],
    elements: &'a [Element],
) -> Result<Vec<&'a [Element]>, AllocError>
    ensures { IfOk result (λ pieces. map (λ piece. map tree_of piece.now) pieces.items ≡ cut text.now 0 0 (map tree_of elements.now)) }
{
    let mut pieces = Vec::new(alloc);
    let mut rest = elements;
    'pieces: loop {
        let length = before_comma(text, rest);
        pieces.push(front(rest, length))?;
        if length >= rest.len() {
            return Ok(pieces);
        }
        rest = behind(rest, length + 1);
    }
}

fn label_by(word: &[u8]) -> Label
    ensures { result ≡ label_by word.now }
{
    if word == b"names".as_slice() {
        return Label::Names;
    }
    if word == b"conformances".as_slice() {
        return Label::Conformances;
    }
    Label::Other
}

// The label of a piece that begins with a word and a colon.
fn label_of(text: &[u8], piece: &[Element]) -> Option<Label>
    ensures { result ≡ label_of text.now (map tree_of piece.now) }
{
    if !spells_at(text, piece, 1, b":") {
        return None;
    }
    let word = word_at(piece, 0)?;
    Some(label_by(bytes_of(text, word)))
}

// A piece in the list that was begun before it.
fn argument_in<'a>(text: &[u8], current: Option<Label>, piece: &'a [Element]) -> Argument<'a>
    ensures { argument_seen result ≡ argument_in current (map tree_of piece.now) (label_of text.now (map tree_of piece.now)) }
{
    match label_of(text, piece) {
        None => Argument {
            label: current,
            begins: false,
            entry: piece,
        },
        Some(own) => Argument {
            label: Some(own),
            begins: true,
            entry: behind(piece, 2),
        },
    }
}

/// The pieces as arguments: a label begins a list, which goes on to the next label.
pub fn arguments<'a>(
    alloc: Global,
    text: &[u8],
    pieces: &[&'a [Element]],
) -> Result<Vec<Argument<'a>>, AllocError>
    ensures { IfOk result (λ list. map argument_seen list.items ≡ arguments text.now None (map (λ piece. map tree_of piece.now) pieces.now)) }
{
    let mut list = Vec::new(alloc);
    let mut current = None;
    'pieces: for piece in pieces {
        let next = argument_in(text, current, piece);
        current = next.label;
        list.push(next)?;
    }
    Ok(list)
}

pub fn is_names(label: Option<Label>) -> bool
    ensures { result ≡ is_names label }
{
    matches!(label, Some(Label::Names))
}

pub fn is_conformances(label: Option<Label>) -> bool
    ensures { result ≡ is_conformances label }
{
    matches!(label, Some(Label::Conformances))
}
