// How many elements declarations and bindings are.

ghost use Rattle.std.specs.Prelude.{◌≡◌, ◌≤◌, ◌+◌, false, length};
ghost use Rattle.element_marks.specs.Sorts.{is_braces, is_equals};
ghost use Rattle.element_marks.specs.Runs.{before, begins_binding, binding_length, item_length, run_length};

use crate::heads::{behind, first_colon, first_equals, first_pattern};
use crate::mark::Mark;
use crate::sorts::{is_braces, is_comma, is_equals, is_semicolon};

/// How many elements stand before the first braces.
pub fn before_braces(marks: &[Mark]) -> usize
    ensures value { result ≡ before is_braces marks.now }
    ensures bound { result ≤ length marks.now }
{
    let mut count = 0;
    'elements: for mark in marks {
        if is_braces(mark) {
            return count;
        }
        count += 1;
    }
    count
}

/// How many elements stand before the first `=`.
pub fn before_equals(marks: &[Mark]) -> usize
    ensures value { result ≡ before is_equals marks.now }
    ensures bound { result ≤ length marks.now }
{
    let mut count = 0;
    'elements: for mark in marks {
        if is_equals(mark) {
            return count;
        }
        count += 1;
    }
    count
}

/// How many elements stand before the first at which the declaration before has ended.
fn run_length(marks: &[Mark]) -> usize
    ensures value { result ≡ run_length false marks.now }
    ensures bound { result ≤ length marks.now }
{
    let mut joined = false;
    let mut count = 0;
    'elements: for mark in marks {
        if is_semicolon(mark) || (mark.first && mark.head > 0 && !joined) {
            return count;
        }
        joined = mark.joins;
        count += 1;
    }
    count
}

/// How many elements the declaration has that begins here with a head of so many.
pub fn item_length(head: usize, marks: &[Mark]) -> usize
    ensures value { result ≡ item_length head marks.now }
    ensures bound { result ≤ head + length marks.now }
{
    head + run_length(behind(marks, head))
}

/// Whether what follows a comma begins another binding, though an initializer stands before it.
fn begins_binding(marks: &[Mark]) -> bool
    ensures { result ≡ begins_binding marks.now }
{
    first_pattern(marks) && (first_colon(behind(marks, 1)) || first_equals(behind(marks, 1)))
}

/// How many elements a binding has behind its pattern.
pub fn binding_length(marks: &[Mark]) -> usize
    ensures value { result ≡ binding_length false 0 0 marks.now }
    ensures bound { result ≤ length marks.now }
{
    let mut initialized = false;
    let mut opened = 0u128;
    let mut closed = 0u128;
    let mut count = 0;
    'elements: for mark in marks {
        if is_comma(mark) {
            let ends = if initialized {
                begins_binding(behind(marks, count + 1))
            } else {
                opened == closed
            };
            if ends {
                return count;
            }
        }
        initialized = initialized || is_equals(mark);
        opened += mark.opens as u128;
        closed += mark.closes as u128;
        count += 1;
    }
    count
}
