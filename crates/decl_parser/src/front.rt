// The marks of a list's front, as far as its next declaration is read by them.

ghost use Rattle.std.specs.Prelude.{◌≡◌, ◌||◌, IfOk, drop, length};
ghost use Rattle.std.specs.List.{list_any};
ghost use Rattle.swift_lexer.specs.Trees.{forest_of};
ghost use Rattle.element_marks.specs.Levels.{level};
ghost use Rattle.element_marks.specs.Sorts.{is_use};
ghost use Rattle.decl_parser.specs.Fronts.{IsFront, Readable, has_use, is_all, is_readable, stands_alone};

use crate::items::count_of;
use crate::lists::{behind, upto};
use element_marks::{Mark, front_marks, is_use, marks_in};
use std::alloc::{AllocError, Global};
use swift_lexer::Element;

/// Of how many elements the marks are computed at once.
const FRONT: usize = 64;

/// The marks of a list's elements from one on.
#[derive(Drop)]
pub struct Front {
    pub from: usize,
    pub marks: Vec<Mark>,
}

/// The front, or another, by which the declaration is read that begins at the place.
pub fn reaching(
    alloc: Global,
    text: &[u8],
    elements: &[Element],
    at: usize,
    front: Front,
) -> Result<Front, AllocError>
    requires { IsFront (level text.now (forest_of elements.now)) front }
    ensures { IfOk result (λ reached. Readable (level text.now (forest_of elements.now)) reached at) }
{
    if is_readable(&front, at, elements.len()) {
        return Ok(front);
    }
    let further = Front {
        from: at,
        marks: front_marks(alloc, text, elements, at, FRONT)?,
    };
    if is_readable(&further, at, elements.len()) {
        return Ok(further);
    }
    Ok(Front {
        from: 0,
        marks: marks_in(alloc, text, elements)?,
    })
}

/// Whether the declaration at the place, in a list of so many elements, is read by the front as by the whole list.
fn is_readable(front: &Front, at: usize, total: usize) -> bool
    ensures { result ≡ is_readable front.now at total }
{
    is_all(front, total)
        || front.from <= at
            && stands_alone(
                behind(&front.marks, at - front.from),
                total.saturating_sub(at),
            )
}

fn is_all(front: &Front, total: usize) -> bool
    ensures { result ≡ is_all front.now total }
{
    front.from == 0 && front.marks.len() == total
}

/// Whether the declaration that begins here ends with these elements or before, where so many are left, and no use
/// begins in it.
fn stands_alone(marks: &[Mark], left: usize) -> bool
    ensures { result ≡ stands_alone marks.now left }
{
    let count = count_of(marks);
    !marks.is_empty()
        && (count < marks.len() || marks.len() == left)
        && !has_use(upto(marks, count))
}

fn has_use(marks: &[Mark]) -> bool
    ensures { result ≡ has_use marks.now }
{
    marks.iter().any(|mark| is_use(mark))
}
