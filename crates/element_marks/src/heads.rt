// With what a declaration begins: attributes, modifiers and a starter.

ghost use Rattle.std.specs.Prelude.{◌≡◌, ◌+◌, ◌<◌, ◌≤◌, ◌^◌, drop, length};
ghost use Rattle.element_marks.specs.Sorts.{is_arguments, is_braces, is_colon, is_equals, is_name, is_parentheses, is_pattern, is_use};
ghost use Rattle.element_marks.specs.Passes.{HeadsKnown};
ghost use Rattle.element_marks.specs.Heads.{attribute_length, before_member, modifies_before, dots_length, first_angles, first_is, head, modifier_length, name_tail, prefix_length, starts};

use crate::mark::Mark;
use crate::sorts::{
    is_at, is_braces, is_colon, is_dot, is_equals, is_name, is_parentheses, is_pattern, is_pound,
    is_use, is_word,
};
use crate::words::{Keyword, is_class, is_class_member, is_modifier, wants_name};

/// What stands behind so many elements.
pub fn behind(marks: &[Mark], count: usize) -> &[Mark]
    ensures { result.now ≡ drop count marks.now }
{
    let count = marks.len().min(count);
    &marks[count..]
}

// Whether there is a first element, and it is such a one.

pub fn first_parentheses(marks: &[Mark]) -> bool
    ensures { result ≡ first_is is_parentheses marks.now }
{
    match marks.first() {
        Some(mark) => is_parentheses(mark),
        None => false,
    }
}

pub fn first_braces(marks: &[Mark]) -> bool
    ensures { result ≡ first_is is_braces marks.now }
{
    match marks.first() {
        Some(mark) => is_braces(mark),
        None => false,
    }
}

pub fn first_name(marks: &[Mark]) -> bool
    ensures { result ≡ first_is is_name marks.now }
{
    match marks.first() {
        Some(mark) => is_name(mark),
        None => false,
    }
}

pub fn first_colon(marks: &[Mark]) -> bool
    ensures { result ≡ first_is is_colon marks.now }
{
    match marks.first() {
        Some(mark) => is_colon(mark),
        None => false,
    }
}

pub fn first_equals(marks: &[Mark]) -> bool
    ensures { result ≡ first_is is_equals marks.now }
{
    match marks.first() {
        Some(mark) => is_equals(mark),
        None => false,
    }
}

pub fn first_pattern(marks: &[Mark]) -> bool
    ensures { result ≡ first_is is_pattern marks.now }
{
    match marks.first() {
        Some(mark) => is_pattern(mark),
        None => false,
    }
}

pub fn first_use(marks: &[Mark]) -> bool
    ensures { result ≡ first_is is_use marks.now }
{
    match marks.first() {
        Some(mark) => is_use(mark),
        None => false,
    }
}

pub fn first_arguments(marks: &[Mark]) -> bool
    ensures { result ≡ first_is is_arguments marks.now }
{
    match marks.first() {
        Some(mark) => is_parentheses(mark) && !mark.first,
        None => false,
    }
}

/// How many elements the dots and words are behind an attribute's first name.
pub fn dots_length(marks: &[Mark]) -> usize
    ensures value { result ≡ dots_length marks.now }
    ensures bound { result ≤ length marks.now }
{
    let mut rest = marks;
    let mut count = 0;
    'dots: while let (Some(dot), Some(word)) = (rest.first(), rest.get(1)) {
        if !is_dot(dot) || !is_word(word) {
            return count;
        }
        rest = behind(rest, 2);
        count += 2;
    }
    count
}

/// How many elements the angle part is that begins here.
pub fn first_angles(marks: &[Mark]) -> usize
    ensures value { result ≡ first_angles marks.now }
    ensures bound { result ≤ length marks.now }
{
    match marks.first() {
        Some(mark) => (mark.angles as usize).min(marks.len()),
        None => 0,
    }
}

fn name_tail(marks: &[Mark]) -> usize
    ensures value { result ≡ name_tail marks.now }
    ensures bound { result ≤ length marks.now }
{
    let dots = dots_length(marks);
    let named = dots + first_angles(behind(marks, dots));
    if first_parentheses(behind(marks, named)) {
        named + 1
    } else {
        named
    }
}

/// How many elements the attribute is that begins here; 0 where none does.
#[tactic(auto, unfolding(crate::specs::Heads::attribute_length))]
pub fn attribute_length(marks: &[Mark]) -> usize
    ensures value { result ≡ attribute_length marks.now }
    ensures bound { result ≤ length marks.now }
{
    let (Some(at), Some(name)) = (marks.first(), marks.get(1)) else {
        return 0;
    };
    if is_at(at) && is_name(name) {
        2 + name_tail(behind(marks, 2))
    } else {
        0
    }
}

/// Whether an element is a modifier, by the next.
pub fn modifies(mark: &Mark, next: Option<Mark>) -> bool
    ensures { result ≡ modifies_before mark.now next }
{
    is_modifier(mark.keyword) || (is_class(mark.keyword) && before_member(next))
}

fn before_member(next: Option<Mark>) -> bool
    ensures { result ≡ before_member next }
{
    match next {
        Some(next) => next.modifies || is_class_member(next.keyword),
        None => false,
    }
}

fn modifier_length(marks: &[Mark]) -> usize
    ensures value { result ≡ modifier_length marks.now }
    ensures bound { result ≤ length marks.now }
{
    let Some(mark) = marks.first() else {
        return 0;
    };
    if !mark.modifies {
        return 0;
    }
    if first_arguments(behind(marks, 1)) {
        2
    } else {
        1
    }
}

/// How many elements the attribute or the modifier is that begins here; 0 where none does.
pub fn prefix_length(marks: &[Mark]) -> usize
    ensures value { result ≡ prefix_length marks.now }
    ensures bound { result ≤ length marks.now }
{
    let attribute = attribute_length(marks);
    if attribute == 0 {
        modifier_length(marks)
    } else {
        attribute
    }
}

/// Whether the first element is a starter.
pub fn starts(marks: &[Mark]) -> bool
    ensures { result ≡ starts marks.now }
{
    let Some(mark) = marks.first() else {
        return false;
    };
    if is_pound(mark) {
        return true;
    }
    match mark.keyword {
        Keyword::Starts(starter) => !wants_name(starter) || first_name(behind(marks, 1)),
        _ => false,
    }
}

/// The head of the first element, which is known.
fn known_head(marks: &[Mark]) -> usize
    requires { HeadsKnown marks.now }
    ensures value { result ≡ head marks.now }
    ensures bound { result ≤ length marks.now }
{
    match marks.first() {
        Some(mark) => mark.head as usize,
        None => 0,
    }
}

/// How many elements the head is that begins here, where those of the later elements are known; 0 where none does.
pub fn head(marks: &[Mark]) -> usize
    requires { HeadsKnown (drop 1 marks.now) }
    ensures { result ≡ head marks.now }
{
    let prefix = prefix_length(marks);
    if prefix == 0 {
        return if starts(marks) { 1 } else { 0 };
    }
    let later = known_head(behind(marks, prefix));
    if later == 0 { 0 } else { prefix + later }
}
