// The elements of a list, each by its own text and by its neighbours.

ghost use Rattle.std.specs.Prelude.{◌≡◌, ◌+◌, ◌-◌, ◌<◌, ◌≤◌, ◌^◌, ◌++◌, drop, length, replicate, slice_get, take, IfOk, false, if◌then◌else◌};
ghost use Rattle.swift_lexer.specs.Trees.{forest_of};
ghost use Rattle.element_marks.specs.Heads.{with_angles, with_heads, with_joins, with_modifiers};
ghost use Rattle.element_marks.specs.Passes.{HeadsKnown, begins_alone, begins_nothing, closes_of, first_settled, opens_of};
ghost use Rattle.element_marks.specs.Levels.{level, own_marks};
ghost use Rattle.element_marks.specs.Fronts.{list_behind};

use crate::heads::{head, modifies};
use crate::mark::Mark;
use crate::marks::{joins, mark_of};
use crate::sorts::{is_at, is_at_or_pound};
use crate::words::{may_begin, starts_anywhere};
use std::alloc::{AllocError, Global};
use swift_lexer::Element;

/// The elements by their own text and by those before them, and how many `<` and `>` these have.
#[derive(Drop)]
struct Joined {
    marks: Vec<Mark>,
    opened: usize,
    closed: usize,
}

/// The marks of the elements of a list. A list of 2 ^ 32 elements or more, which no text that is read has, is answered
/// as want of memory.
#[tactic(auto, unfolding(crate::specs::Levels::level, crate::specs::Heads::in_list))]
pub fn marks_in(alloc: Global, text: &[u8], elements: &[Element]) -> Result<Vec<Mark>, AllocError>
    ensures { IfOk result (λ marks. marks.items ≡ level text.now (forest_of elements.now)) }
{
    marks_behind(alloc, text, None, elements)
}

/// The marks of the elements of a list from one on, by the one before it.
pub fn marks_behind(
    alloc: Global,
    text: &[u8],
    previous: Option<Mark>,
    elements: &[Element],
) -> Result<Vec<Mark>, AllocError>
    ensures { IfOk result (λ marks. marks.items ≡ list_behind previous (own_marks text.now (forest_of elements.now))) }
{
    if elements.len() > u32::MAX as usize {
        return Err(AllocError);
    }
    let joined = joined_marks(alloc, text, previous, elements)?;
    let mut behind = empty_table(alloc, joined.opened + joined.closed + 1)?;
    let mut marks = joined.marks;
    set_neighbours(&mut behind, joined.opened, &mut marks);
    Ok(marks)
}

/// As long as a text can have so many `<` and `>`.
fn joined_marks(
    alloc: Global,
    text: &[u8],
    before: Option<Mark>,
    elements: &[Element],
) -> Result<Joined, AllocError>
    ensures marks { IfOk result (λ joined. joined.marks.items ≡ with_joins before (own_marks text.now (forest_of elements.now))) }
    ensures opened { IfOk result (λ joined. joined.opened ≡ opens_of (with_joins before (own_marks text.now (forest_of elements.now)))) }
    ensures closed { IfOk result (λ joined. joined.closed ≡ closes_of (with_joins before (own_marks text.now (forest_of elements.now)))) }
    ensures few { IfOk result (λ joined. joined.opened + joined.closed < 2 ^ 32) }
{
    let mut marks = Vec::with_capacity(alloc, elements.len())?;
    let mut opened = 0usize;
    let mut closed = 0usize;
    let mut previous = before;
    'elements: for element in elements {
        let own = mark_of(text, element);
        opened += own.opens as usize;
        closed += own.closes as usize;
        if opened + closed > u32::MAX as usize {
            return Err(AllocError);
        }
        let mut mark = own;
        mark.joins = joins(previous, own);
        marks.push(mark)?;
        previous = Some(own);
    }
    Ok(Joined {
        marks,
        opened,
        closed,
    })
}

fn empty_table(alloc: Global, size: usize) -> Result<Vec<u32>, AllocError>
    ensures { IfOk result (λ table. table.items ≡ replicate size 0) }
{
    Ok(vec![in alloc; 0u32; size]?)
}

/// The angle parts, the modifiers and the heads, from the last element to the first: `behind` has for each angle depth
/// how many elements the list has up to the nearest one, from here on, behind which that depth is reached.
fn set_neighbours(behind: &mut [u32], opened: usize, marks: &mut [Mark])
    requires empty { behind.old ≡ replicate (opens_of marks.old + closes_of marks.old + 1) 0 }
    requires all_opened { opened ≡ opens_of marks.old }
    requires few { opens_of marks.old + closes_of marks.old < 2 ^ 32 }
    requires short { length marks.old < 2 ^ 32 }
    ensures { marks.new ≡ with_heads (with_modifiers (with_angles marks.old)) }
{
    let mut depth = opened;
    let mut at = marks.len();
    'elements: while at > 0 {
        behind[depth] = at as u32;
        at -= 1;
        depth = depth_before(depth, &marks[at]);
        settle(behind[depth], at, marks);
    }
}

/// The angle depth before the element, by that behind it.
#[inline(always)]
fn depth_before(depth: usize, mark: &Mark) -> usize
    requires small { depth < 2 ^ 33 }
    requires not_below { mark.now.opens ≤ depth + mark.now.closes }
    ensures { result + mark.now.opens ≡ depth + mark.now.closes }
{
    depth + mark.closes as usize - mark.opens as usize
}

/// Sets the element at a place by those behind it, which are set: its angle part, if it begins one, leads to `end`.
#[inline(always)]
fn settle(end: u32, at: usize, marks: &mut [Mark])
    requires within { at < length marks.old }
    requires short { length marks.old < 2 ^ 32 }
    requires known { HeadsKnown (drop (at + 1) marks.old) }
    ensures { marks.new ≡ take at marks.old ++ first_settled (end - at) (drop at marks.old) }
{
    if begins_nothing(&marks[at]) {
        set_alone(&mut marks[at], 0);
    } else if begins_alone(&marks[at]) {
        set_alone(&mut marks[at], 1);
    } else {
        settle_by_next(end, at, marks);
    }
}

/// Whether no attribute, angle part, modifier or starter begins with the element, as with nearly all.
#[inline(always)]
pub fn begins_nothing(mark: &Mark) -> bool
    ensures { result ≡ begins_nothing mark.now }
{
    !is_at_or_pound(mark) && !mark.begins_angle && !may_begin(mark.keyword)
}

/// Whether the element is a starter wherever it stands, and nothing else.
#[inline(always)]
pub fn begins_alone(mark: &Mark) -> bool
    ensures { result ≡ begins_alone mark.now }
{
    !is_at(mark) && !mark.begins_angle && starts_anywhere(mark.keyword)
}

/// Sets an element that begins no angle part and is no modifier.
#[inline(always)]
fn set_alone(mark: &mut Mark, count: u32)
    ensures { mark.new ≡ record mark.old { angles = 0; modifies = false; head = count } }
{
    mark.angles = 0;
    mark.modifies = false;
    mark.head = count;
}

/// Sets any element.
#[inline(never)]
fn settle_by_next(end: u32, at: usize, marks: &mut [Mark])
    requires within { at < length marks.old }
    requires short { length marks.old < 2 ^ 32 }
    requires known { HeadsKnown (drop (at + 1) marks.old) }
    ensures { marks.new ≡ take at marks.old ++ first_settled (end - at) (drop at marks.old) }
{
    let mut mark = marks[at];
    let next = mark_at(marks, at + 1);
    mark.angles = angle_part(mark.begins_angle, end, at);
    mark.modifies = modifies(&mark, next);
    marks[at] = mark;
    let count = head(&marks[at..]);
    mark.head = count as u32;
    marks[at] = mark;
}

fn mark_at(marks: &[Mark], at: usize) -> Option<Mark>
    ensures { result ≡ slice_get marks.now at }
{
    match marks.get(at) {
        Some(mark) => Some(*mark),
        None => None,
    }
}

fn angle_part(begins: bool, end: u32, at: usize) -> u32
    requires { at < 2 ^ 32 }
    ensures { result ≡ (if begins then end - at else 0) }
{
    if begins {
        end.saturating_sub(at as u32)
    } else {
        0
    }
}
