// Lists of elements in which no macro use and no attribute begins, by the tokens that the elements begin with.

ghost use Rattle.std.specs.Prelude.{◌≡◌, ℕ, List};
ghost use Rattle.swift_lexer.specs.Trees.{forest_of, tree_of};
ghost use Rattle.element_marks.specs.Marks.{mark_of};
ghost use Rattle.element_marks.specs.Spans.{name_between, name_of};
ghost use Rattle.element_marks.specs.Words.{is_underscore};
ghost use Rattle.element_marks.specs.Quiet.{front, is_quiet, is_quiet_class, leads_accessor, may_list_accessors};

use crate::mark::Sort;
use crate::marks::{leaf_keyword, leaf_sort, part};
use crate::words::{
    Keyword, is_accessor, is_accessor_modifier, is_class, is_modifier, is_observer, is_underscore,
};
use swift_base::Span;
use swift_lexer::{Class, Element, Token};

/// The token that the element begins with.
fn front(element: &Element) -> Token
    ensures { result ≡ front (tree_of element.now) }
{
    match element {
        Element::Leaf(token) => *token,
        Element::Nest(group) => group.left,
    }
}

fn is_quiet_class(class: Class) -> bool
    ensures { result ≡ is_quiet_class class }
{
    !matches!(class, Class::Pound | Class::At)
}

/// Whether no element begins with a `#` word or an `@`.
#[inline(always)]
pub fn is_quiet(elements: &[Element]) -> bool
    ensures { result ≡ is_quiet (forest_of elements.now) }
{
    'elements: for element in elements {
        if !is_quiet_class(front(element).class) {
            return false;
        }
    }
    true
}

fn leads_accessor(keyword: Keyword) -> bool
    ensures { result ≡ leads_accessor keyword }
{
    is_modifier(keyword)
        || is_class(keyword)
        || is_accessor_modifier(keyword)
        || is_accessor(keyword)
        || is_observer(keyword)
}

/// Whether the first element may stand at an accessor's beginning, attributes aside.
#[inline(always)]
pub fn may_list_accessors(text: &[u8], elements: &[Element]) -> bool
    ensures { result ≡ may_list_accessors text.now (forest_of elements.now) }
{
    match elements.first() {
        Some(element) => leads_accessor(keyword_at(text, element)),
        None => false,
    }
}

/// What the word is for that the element is; of other elements nothing.
fn keyword_at(text: &[u8], element: &Element) -> Keyword
    ensures { result ≡ (mark_of text.now (tree_of element.now)).keyword }
{
    let token = front(element);
    leaf_keyword(token.class, part(text, token.start, token.end))
}

/// Whether the element is the word `_`.
pub fn is_blank(text: &[u8], element: &Element) -> bool
    ensures { result ≡ is_underscore (mark_of text.now (tree_of element.now)).keyword }
{
    is_underscore(keyword_at(text, element))
}

/// The name that the element is, by its sort.
pub fn name_at(element: &Element, sort: Sort) -> Span
    ensures { (text : List ℕ) → sort ≡ (mark_of text (tree_of element.now)).sort → result ≡ name_of (mark_of text (tree_of element.now)) }
{
    name_between(front(element).start, end_at(element), sort)
}

fn name_between(start: u32, end: u32, sort: Sort) -> Span
    ensures { result ≡ name_between start end sort }
{
    match sort {
        Sort::Quoted => Span {
            start: start.saturating_add(1).min(end),
            end: end.saturating_sub(1),
        },
        _ => Span { start, end },
    }
}

/// Where the element ends.
fn end_at(element: &Element) -> u32
    ensures { (text : List ℕ) → result ≡ (mark_of text (tree_of element.now)).end }
{
    match element {
        Element::Leaf(token) => token.end,
        Element::Nest(group) => group.right.end,
    }
}

/// What the element is by its own text.
pub fn sort_of(text: &[u8], element: &Element) -> Sort
    ensures { result ≡ (mark_of text.now (tree_of element.now)).sort }
{
    let token = front(element);
    leaf_sort(token.class, part(text, token.start, token.end))
}
