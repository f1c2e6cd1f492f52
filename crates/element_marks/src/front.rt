// A part of a list, as the whole list has it.

ghost use Rattle.std.specs.Prelude.{◌≡◌, ◌≤◌, ◌-◌, drop, length, min, take, IfOk, true};
ghost use Rattle.std.specs.List.{list_any};
ghost use Rattle.swift_lexer.specs.Trees.{forest_of};
ghost use Rattle.element_marks.specs.Levels.{level, own_marks};
ghost use Rattle.element_marks.specs.Fronts.{is_open, is_wall, is_walled, mark_before};

use crate::level::marks_behind;
use crate::mark::{Mark, Sort};
use crate::marks::mark_of;
use crate::quiet::sort_of;
use std::alloc::{AllocError, Global};
use swift_lexer::Element;

/// The marks of elements of a list from a place on: at least so many of them, where the list has so many.
pub fn front_marks(
    alloc: Global,
    text: &[u8],
    elements: &[Element],
    at: usize,
    least: usize,
) -> Result<Vec<Mark>, AllocError>
    ensures value { IfOk result (λ marks. marks.items ≡ take (length marks.items) (drop at (level text.now (forest_of elements.now)))) }
    ensures enough { IfOk result (λ marks. min least (length elements.now - at) ≤ length marks.items) }
{
    let previous = mark_before(text, elements, at);
    let rest = elements_behind(elements, at);
    let length = up_to_wall(text, rest, least);
    let marks = marks_behind(alloc, text, previous, &rest[..length])?;
    if length < rest.len() && has_open(&marks) {
        marks_behind(alloc, text, previous, rest)
    } else {
        Ok(marks)
    }
}

fn mark_before(text: &[u8], elements: &[Element], at: usize) -> Option<Mark>
    ensures { result ≡ mark_before at (own_marks text.now (forest_of elements.now)) }
{
    if at == 0 {
        return None;
    }
    match elements.get(at - 1) {
        Some(element) => Some(mark_of(text, element)),
        None => None,
    }
}

fn elements_behind(elements: &[Element], count: usize) -> &[Element]
    ensures { result.now ≡ drop count elements.now }
{
    let count = elements.len().min(count);
    &elements[count..]
}

/// How many elements stand before the first wall from a place on.
fn up_to_wall(text: &[u8], elements: &[Element], least: usize) -> usize
    ensures within { result ≤ length elements.now }
    ensures walled { is_walled text.now (forest_of (drop result elements.now)) ≡ true }
    ensures enough { min least (length elements.now) ≤ result }
{
    let mut length = elements.len().min(least);
    'elements: while let Some(element) = elements.get(length) {
        if is_wall(sort_of(text, element)) {
            return length;
        }
        length += 1;
    }
    length
}

/// Whether no attribute, modifier or starter begins with such an element, has it inside or looks at it.
fn is_wall(sort: Sort) -> bool
    ensures { result ≡ is_wall sort }
{
    matches!(
        sort,
        Sort::Number
            | Sort::Str
            | Sort::Comma
            | Sort::Colon
            | Sort::Semicolon
            | Sort::Backslash
            | Sort::Equals
            | Sort::Arrow
            | Sort::Brackets
            | Sort::Braces
    )
}

/// Whether an angle part is left open.
fn has_open(marks: &[Mark]) -> bool
    ensures { result ≡ list_any is_open marks.now }
{
    marks
        .iter()
        .any(|mark| mark.begins_angle && mark.angles == 0)
}
