// How far a macro use goes.

ghost use Rattle.std.specs.Prelude.{◌≡◌, ◌≤◌, length, reverse};
ghost use Rattle.element_marks.specs.Sorts.{is_dot};
ghost use Rattle.element_marks.specs.Heads.{first_is};
ghost use Rattle.element_marks.specs.Uses.{call_length, closures_length, in_condition, is_closure, labels_length, use_angles, use_length};

use crate::blocks::Blocks;
use crate::heads::{behind, first_arguments, first_use};
use crate::mark::Mark;
use crate::sorts::{is_braces, is_colon, is_dot, is_semicolon, is_word};
use crate::words::is_condition;

/// Whether, going back over the elements, the first of braces, a `;` and a word that begins a condition is such a
/// word.
fn in_condition(before: &[Mark]) -> bool
    ensures { result ≡ in_condition (reverse before.now) }
{
    let mut rest = before;
    'elements: while let Some((mark, earlier)) = rest.split_last() {
        if is_braces(mark) || is_semicolon(mark) {
            return false;
        }
        if is_condition(mark.keyword) && !last_dot(earlier) {
            return true;
        }
        rest = earlier;
    }
    false
}

/// Whether the last element is a dot.
fn last_dot(marks: &[Mark]) -> bool
    ensures { result ≡ first_is is_dot (reverse marks.now) }
{
    match marks.split_last() {
        Some((last, _)) => is_dot(last),
        None => false,
    }
}

fn is_closure(blocks: Blocks, mark: &Mark) -> bool
    ensures { result ≡ is_closure blocks.entry.starts.now mark.now }
{
    is_braces(mark) && !mark.first && !blocks.holds(mark.start)
}

fn use_angles(marks: &[Mark]) -> usize
    ensures value { result ≡ use_angles marks.now }
    ensures bound { result ≤ length marks.now }
{
    match marks.first() {
        Some(mark) if mark.begins_angle && !mark.spaced && mark.angles as usize <= marks.len() => {
            mark.angles as usize
        }
        _ => 0,
    }
}

/// Further closures: a word, a colon and braces on the same line.
fn labels_length(blocks: Blocks, marks: &[Mark]) -> usize
    ensures value { result ≡ labels_length blocks.entry.starts.now marks.now }
    ensures bound { result ≤ length marks.now }
{
    let mut rest = marks;
    let mut count = 0;
    'labels: while let (Some(label), Some(colon), Some(closure)) = (
        rest.first(),
        rest.get(1),
        rest.get(2),
    ) {
        let named = is_word(label) && !label.first && is_colon(colon) && !colon.first;
        if !named || !is_closure(blocks, closure) {
            return count;
        }
        rest = behind(rest, 3);
        count += 3;
    }
    count
}

/// How many elements the angle part and the arguments of a use are.
fn call_length(marks: &[Mark]) -> usize
    ensures value { result ≡ call_length marks.now }
    ensures bound { result ≤ length marks.now }
{
    let angles = use_angles(marks);
    if first_arguments(behind(marks, angles)) {
        angles + 1
    } else {
        angles
    }
}

/// How many elements the closures are that begin `marks`.
fn closures_length(blocks: Blocks, before: &[Mark], marks: &[Mark]) -> usize
    ensures value { result ≡ closures_length blocks.entry.starts.now (reverse before.now) marks.now }
    ensures bound { result ≤ length marks.now }
{
    match marks.first() {
        Some(closure) if is_closure(blocks, closure) && !in_condition(before) => {
            1 + labels_length(blocks, behind(marks, 1))
        }
        _ => 0,
    }
}

/// How many elements the use is that begins `marks`; 0 where none does.
pub fn use_length(blocks: Blocks, before: &[Mark], marks: &[Mark]) -> usize
    ensures value { result ≡ use_length blocks.entry.starts.now (reverse before.now) marks.now }
    ensures bound { result ≤ length marks.now }
{
    if !first_use(marks) {
        return 0;
    }
    let name = behind(marks, 1);
    let call = call_length(name);
    1 + call + closures_length(blocks, before, behind(name, call))
}
