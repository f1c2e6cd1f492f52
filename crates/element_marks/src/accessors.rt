// Accessors.

ghost use Rattle.std.specs.Prelude.{◌≡◌, ◌-◌, ◌≤◌, ◌++◌, [], OnOk, false, true, drop, length};
ghost use Rattle.element_marks.specs.Answers.{Answers};
ghost use Rattle.element_marks.specs.Accessors.{accessor_front, accessor_length, accessors_from, effects_length, one_if, lists_accessors, observes_from, with_first, word_from};

use crate::heads::{attribute_length, behind, first_braces, first_parentheses, prefix_length};
use crate::mark::Mark;
use crate::sorts::is_parentheses;
use crate::spans::span_of;
use crate::words::{is_accessor, is_accessor_modifier, is_async, is_observer, is_throws};
use std::alloc::{AllocError, Global};
use swift_base::{Refusal, Span};

/// How many elements lead from an accessor's attributes and modifiers to its word; 0 where no word does.
fn word_length(marks: &[Mark]) -> usize
    ensures value { result ≡ word_from 0 0 marks.now }
    ensures bound { result ≤ length marks.now }
{
    let mut count = 0;
    'prefix: while let Some(mark) = marks.get(count) {
        let attribute = attribute_length(behind(marks, count));
        if attribute > 0 {
            count += attribute;
        } else if is_accessor_modifier(mark.keyword) {
            count += 1;
        } else {
            return if is_accessor(mark.keyword) {
                count + 1
            } else {
                0
            };
        }
    }
    0
}

/// `async` and `throws`, and the type that may follow `throws`.
fn effects_length(marks: &[Mark]) -> usize
    ensures value { result ≡ effects_length false marks.now }
    ensures bound { result ≤ length marks.now }
{
    let mut throwing = false;
    let mut count = 0;
    'effects: for mark in marks {
        if is_async(mark.keyword) {
            throwing = false;
        } else if is_throws(mark.keyword) {
            throwing = true;
        } else if throwing && is_parentheses(mark) {
            throwing = false;
        } else {
            return count;
        }
        count += 1;
    }
    count
}

/// How many elements the accessor is that begins here; 0 where none does, also where it lacks braces that it should
/// have.
#[tactic(auto, unfolding(crate::specs::Accessors::accessor_length))]
pub fn accessor_length(marks: &[Mark], braces_wanted: bool) -> usize
    ensures value { result ≡ accessor_length braces_wanted marks.now }
    ensures bound { result ≤ length marks.now }
{
    let words = word_length(marks);
    if words == 0 {
        return 0;
    }
    let front = accessor_front(words, marks);
    if first_braces(behind(marks, front)) {
        front + 1
    } else if braces_wanted {
        0
    } else {
        front
    }
}

/// How many elements an accessor is without its braces; its word is the last of so many.
fn accessor_front(words: usize, marks: &[Mark]) -> usize
    requires { words ≤ length marks.now }
    ensures value { result ≡ accessor_front words marks.now }
    ensures bound { result ≤ length marks.now }
{
    let named = words + one_if(first_parentheses(behind(marks, words)));
    named + effects_length(behind(marks, named))
}

fn one_if(b: bool) -> usize
    ensures value { result ≡ one_if b }
    ensures bound { result ≤ 1 }
{
    if b { 1 } else { 0 }
}

/// One more of the words: that of the accessor that begins here.
fn push_word(words: &mut Vec<Span>, marks: &[Mark]) -> Result<(), AllocError>
    ensures { OnOk result (words.new.items ≡ words.old.items ++ with_first (drop (word_from 0 0 marks.now - 1) marks.now) []) }
{
    match behind(marks, word_length(marks).saturating_sub(1)).first() {
        Some(mark) => {
            words.push(span_of(mark))?;
            Ok(())
        }
        None => Ok(()),
    }
}

/// Whether the elements are one accessor or more, with braces or without.
#[tactic(auto, unfolding(crate::specs::Accessors::lists_accessors))]
pub fn lists_accessors(marks: &[Mark]) -> bool
    ensures { result ≡ lists_accessors marks.now }
{
    let mut at = 0;
    'accessors: while at < marks.len() {
        let length = accessor_length(behind(marks, at), false);
        if length == 0 {
            return false;
        }
        at += length;
    }
    at > 0
}

/// Whether the first element past attributes and modifiers is the word of an accessor that observes.
pub fn observes(marks: &[Mark]) -> bool
    ensures { result ≡ observes_from 0 marks.now }
{
    let mut at = 0;
    'prefix: while let Some(mark) = marks.get(at) {
        let prefix = prefix_length(behind(marks, at));
        if prefix == 0 {
            return is_observer(mark.keyword);
        }
        at += prefix;
    }
    false
}

/// The words of the accessors that the elements are, each with its braces; or the offset of the first element that
/// begins no such accessor.
pub fn accessor_words(alloc: Global, marks: &[Mark]) -> Result<Vec<Span>, Refusal<u32>>
    ensures { Answers (λ words. words.items) result (λ outcome. outcome ≡ accessors_from true 0 marks.now) }
{
    let mut words = Vec::new(alloc);
    let mut at = 0;
    'accessors: while let Some(mark) = marks.get(at) {
        let length = accessor_length(behind(marks, at), true);
        if length == 0 {
            return Err(Refusal::Fault(mark.start));
        }
        push_word(&mut words, behind(marks, at))?;
        at += length;
    }
    Ok(words)
}
