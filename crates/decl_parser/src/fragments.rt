// Attributes, accessors and expressions as whole texts.

ghost use Rattle.std.specs.Prelude.{◌≡◌, ◌≤◌, IfOk, length, option_map, true};
ghost use Rattle.swift_lexer.specs.Trees.{forest_of};
ghost use Rattle.swift_tree.specs.Outlines.{outline_of};
ghost use Rattle.element_marks.specs.Answers.{Answers};
ghost use Rattle.swift_tree.specs.declared.outline.Shape.TheVariants as shape;
ghost use Rattle.element_marks.specs.Accessors.{accessors_from};
ghost use Rattle.decl_parser.specs.Found.{found_in};
ghost use Rattle.decl_parser.specs.Levels.{insides, items_of_list};
ghost use Rattle.decl_parser.specs.Fragments.{accessor_marks, accessors_inside, all_of, attributes_from, bare, by_shape, expression, not_an_accessor, one_group, with_found, with_items};

use crate::attributes::{attr_of, span_from};
use crate::fault::{ParseFault, ParseKind, fault};
use crate::found::{Findings, found_in};
use crate::inside::{Inside, blank_list};
use crate::items::items;
use crate::levels::{group_inside, insides};
use crate::lists::{add, behind};
use crate::parse::LONGEST_SOURCE;
use crate::place::Place;
use element_marks::{
    Mark, accessor_words, attribute_length, between, is_braces, is_semicolon, marks_in,
};
use std::alloc::{AllocError, Global};
use swift_base::{Listed, Refusal, Span, Text};
use swift_lexer::Element;
use swift_tree::{Attr, Outline, Shape};

/// How many elements a declaration in whose brackets nothing stands may have, so that no list of what stands inside
/// each is made.
const BLANKS: usize = 64;

/// The outline of a text of the shape by its elements.
pub fn by_shape(
    alloc: Global,
    text: &[u8],
    shape: Shape,
    elements: &[Element],
) -> Result<Outline, Refusal<ParseFault>>
    requires { length text.now ≤ LONGEST_SOURCE }
    ensures { Answers outline_of result (λ outcome. outcome ≡ by_shape text.now shape (forest_of elements.now)) }
{
    match shape {
        Shape::File => declarations(alloc, text, shape, elements, Place::File),
        Shape::Items => declarations(alloc, text, shape, elements, Place::Anywhere),
        Shape::Attributes => attributes(alloc, text, elements),
        Shape::Accessors => accessors(alloc, text, elements),
        Shape::Expression => expression(alloc, text, elements),
    }
}

fn all_of(text: &[u8]) -> Span
    requires { length text.now ≤ LONGEST_SOURCE }
    ensures { result ≡ all_of text.now }
{
    Span {
        start: 0,
        end: text.len() as u32,
    }
}

/// An outline with nothing in it, of which that part is spliced.
fn bare(alloc: Global, text: &[u8], shape: Shape, inside: Span) -> Result<Outline, AllocError>
    ensures { IfOk result (λ outline. outline_of outline ≡ bare text.now shape inside) }
{
    Ok(Outline {
        text: Text::from_bytes(alloc, text)?,
        shape,
        items: Vec::new(alloc),
        attrs: Listed::from_vec(Vec::new(alloc)),
        accessors: Listed::from_vec(Vec::new(alloc)),
        inside,
        uses: Listed::from_vec(Vec::new(alloc)),
        locals: Listed::from_vec(Vec::new(alloc)),
        groups: Vec::new(alloc),
    })
}

fn declarations(
    alloc: Global,
    text: &[u8],
    shape: Shape,
    elements: &[Element],
    place: Place,
) -> Result<Outline, Refusal<ParseFault>>
    requires { length text.now ≤ LONGEST_SOURCE }
    ensures { Answers outline_of result (λ outcome. outcome ≡ with_items (bare text.now shape (all_of text.now)) (items_of_list place text.now (forest_of elements.now))) }
{
    let blanks = blank_list(alloc, BLANKS)?;
    let items = items(alloc, text, elements, place, &blanks)?;
    let mut outline = bare(alloc, text, shape, all_of(text))?;
    outline.items = items;
    Ok(outline)
}

fn attributes(
    alloc: Global,
    text: &[u8],
    elements: &[Element],
) -> Result<Outline, Refusal<ParseFault>>
    requires { length text.now ≤ LONGEST_SOURCE }
    ensures { Answers outline_of result (λ outcome. outcome ≡ by_shape text.now shape.Attributes (forest_of elements.now)) }
{
    let marks = marks_in(alloc, text, elements)?;
    let insides = insides(alloc, text, elements)?;
    let attrs = attributes_in(alloc, &marks, &insides)?;
    let mut outline = bare(alloc, text, Shape::Attributes, span_from(&marks))?;
    outline.attrs = Listed::from_vec(attrs);
    Ok(outline)
}

/// The attributes that the elements are.
fn attributes_in(
    alloc: Global,
    marks: &[Mark],
    insides: &[Inside],
) -> Result<Vec<Attr>, Refusal<ParseFault>>
    ensures { Answers (λ attrs. attrs.items) result (λ outcome. outcome ≡ attributes_from 0 marks.now insides.now) }
{
    let mut attrs = Vec::new(alloc);
    let mut at = 0;
    'attributes: while let Some(mark) = marks.get(at) {
        let rest = behind(marks, at);
        let length = attribute_length(rest);
        if length == 0 {
            return Err(fault(mark.start, ParseKind::NotAnAttribute));
        }
        let attr = attr_of(alloc, rest, behind(insides, at))?;
        add(&mut attrs, attr)?;
        at += length;
    }
    Ok(attrs)
}

/// Accessors in the text, or in the one pair of braces that it is.
fn accessors(
    alloc: Global,
    text: &[u8],
    elements: &[Element],
) -> Result<Outline, Refusal<ParseFault>>
    requires { length text.now ≤ LONGEST_SOURCE }
    ensures { Answers outline_of result (λ outcome. outcome ≡ by_shape text.now shape.Accessors (forest_of elements.now)) }
{
    let marks = marks_in(alloc, text, elements)?;
    let words = words_in(alloc, text, elements, &marks)?;
    let mut outline = bare(
        alloc,
        text,
        Shape::Accessors,
        accessors_inside(text, elements, &marks),
    )?;
    outline.accessors = Listed::from_vec(words);
    add_found(alloc, text, elements, &marks, &mut outline)?;
    Ok(outline)
}

fn accessors_inside(text: &[u8], elements: &[Element], marks: &[Mark]) -> Span
    requires { length text.now ≤ LONGEST_SOURCE }
    ensures { result ≡ accessors_inside text.now marks.now (one_group (forest_of elements.now)) }
{
    match (marks.first(), one_group(elements)) {
        (Some(braces), Some(_)) if is_braces(braces) => between(braces),
        _ => all_of(text),
    }
}

/// What stands inside the one group that the elements are.
fn one_group(elements: &[Element]) -> Option<&[Element]>
    ensures { option_map (λ inner. forest_of inner.now) result ≡ one_group (forest_of elements.now) }
{
    let (first, others) = elements.split_first()?;
    if !others.is_empty() {
        return None;
    }
    group_inside(first)
}

/// The words of the accessors in the text, or in the one pair of braces that it is.
fn words_in(
    alloc: Global,
    text: &[u8],
    elements: &[Element],
    marks: &[Mark],
) -> Result<Vec<Span>, Refusal<ParseFault>>
    ensures { Answers (λ words. words.items) result (λ outcome. outcome ≡ not_an_accessor (accessors_from true 0 (accessor_marks text.now marks.now (one_group (forest_of elements.now))))) }
{
    match (marks.first(), one_group(elements)) {
        (Some(braces), Some(inner)) if is_braces(braces) => {
            let inner = marks_in(alloc, text, inner)?;
            words_of(alloc, &inner)
        }
        _ => words_of(alloc, marks),
    }
}

fn words_of(alloc: Global, marks: &[Mark]) -> Result<Vec<Span>, Refusal<ParseFault>>
    ensures { Answers (λ words. words.items) result (λ outcome. outcome ≡ not_an_accessor (accessors_from true 0 marks.now)) }
{
    match accessor_words(alloc, marks) {
        Ok(words) => Ok(words),
        Err(Refusal::Memory) => Err(Refusal::Memory),
        Err(Refusal::Fault(at)) => Err(fault(at, ParseKind::NotAnAccessor)),
    }
}

/// An expression has an element, and no `;` among its elements.
fn expression(
    alloc: Global,
    text: &[u8],
    elements: &[Element],
) -> Result<Outline, Refusal<ParseFault>>
    requires { length text.now ≤ LONGEST_SOURCE }
    ensures { Answers outline_of result (λ outcome. outcome ≡ by_shape text.now shape.Expression (forest_of elements.now)) }
{
    let marks = marks_in(alloc, text, elements)?;
    expressed(&marks)?;
    let mut outline = bare(alloc, text, Shape::Expression, span_from(&marks))?;
    add_found(alloc, text, elements, &marks, &mut outline)?;
    Ok(outline)
}

fn expressed(marks: &[Mark]) -> Result<(), Refusal<ParseFault>>
    ensures { Answers (λ fine. fine) result (λ outcome. outcome ≡ expression marks.now) }
{
    if marks.is_empty() {
        return Err(fault(0, ParseKind::Empty));
    }
    'elements: for mark in marks {
        if is_semicolon(mark) {
            return Err(fault(mark.start, ParseKind::NotAnExpression));
        }
    }
    Ok(())
}

/// Sets the uses and the attributes of the whole text.
fn add_found(
    alloc: Global,
    text: &[u8],
    elements: &[Element],
    marks: &[Mark],
    outline: &mut Outline,
) -> Result<(), AllocError>
    ensures { IfOk result (λ _. outline_of outline.new ≡ with_found (outline_of outline.old) (found_in marks.now (insides text.now (forest_of elements.now)))) }
{
    let insides = insides(alloc, text, elements)?;
    let Findings {
        attrs: _,
        uses,
        locals,
    } = found_in(alloc, marks, &insides)?;
    outline.uses = Listed::from_vec(uses);
    outline.locals = Listed::from_vec(locals);
    Ok(())
}
