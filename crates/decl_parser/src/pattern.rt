// The names of a pattern.

ghost use Rattle.std.specs.Prelude.{◌≡◌, ◌++◌, ◌∷◌, [], ◌&&◌, not, IfOk, OnOk, if◌then◌else◌};
ghost use Rattle.swift_lexer.specs.Trees.{forest_of, tree_of};
ghost use Rattle.element_marks.specs.Heads.{first_is};
ghost use Rattle.element_marks.specs.Levels.{own_marks};
ghost use Rattle.element_marks.specs.Marks.{mark_of};
ghost use Rattle.element_marks.specs.Sorts.{is_colon, is_colon_sort, is_name, is_name_sort, is_parentheses_sort};
ghost use Rattle.element_marks.specs.Spans.{name_of};
ghost use Rattle.element_marks.specs.Words.{is_underscore};
ghost use Rattle.decl_parser.specs.Bindings.{names_inside, pattern_names};
ghost use Rattle.decl_parser.specs.Held.{first_held};
ghost use Rattle.decl_parser.specs.Levels.{held};

use crate::lists::{add, behind};
use element_marks::{
    Mark, Sort, is_blank, is_parentheses, is_underscore, name_at, name_of, sort_of,
};
use std::alloc::{AllocError, Global};
use swift_base::{SmallList, Span};
use swift_lexer::Element;

/// The names of the pattern that is the first of the elements.
#[inline(always)]
pub fn pattern_names(
    alloc: Global,
    text: &[u8],
    pattern: &Mark,
    elements: &[Element],
) -> Result<SmallList<Span>, AllocError>
    ensures { IfOk result (λ names. names ≡ pattern_names pattern.now (held text.now (forest_of elements.now))) }
{
    if is_parentheses(pattern) {
        let names = first_names(alloc, text, elements)?;
        return SmallList::from_vec(alloc, names);
    }
    if is_underscore(pattern.keyword) {
        return Ok(SmallList::none());
    }
    Ok(SmallList::one(name_of(pattern)))
}

/// The names in the brackets of the first element.
fn first_names(alloc: Global, text: &[u8], elements: &[Element]) -> Result<Vec<Span>, AllocError>
    ensures { IfOk result (λ names. names.items ≡ (first_held (held text.now (forest_of elements.now))).names) }
{
    let mut names = Vec::new(alloc);
    let Some(element) = elements.first() else {
        return Ok(names);
    };
    add_names_inside(&mut names, text, element)?;
    Ok(names)
}

/// Adds the names in the element's brackets.
#[tactic(auto, unfolding(crate::specs::Bindings::names_inside, crate::specs::Bindings::names_of))]
fn add_names_inside(names: &mut Vec<Span>, text: &[u8], element: &Element) -> Result<(), AllocError>
    ensures { OnOk result (names.new.items ≡ names.old.items ++ names_inside text.now (tree_of element.now)) }
{
    match element {
        Element::Leaf(_) => Ok(()),
        Element::Nest(group) => {
            let inner = group.inner.as_slice();
            let mut rest = inner;
            'inner: for part in inner.iter() {
                rest = behind(rest, 1);
                if is_parentheses_sort(sort_of(text, part)) {
                    add_names_inside(names, text, part)?;
                } else {
                    add_own_name(names, text, part, rest)?;
                }
            }
            Ok(())
        }
    }
}

/// Adds the name that the element is, behind which `others` stand, unless it is a label or `_`.
fn add_own_name(
    names: &mut Vec<Span>,
    text: &[u8],
    element: &Element,
    others: &[Element],
) -> Result<(), AllocError>
    ensures { OnOk result (names.new.items ≡ names.old.items ++ (if is_name (mark_of text.now (tree_of element.now)) && not (is_underscore (mark_of text.now (tree_of element.now)).keyword) && not (first_is is_colon (own_marks text.now (forest_of others.now))) then name_of (mark_of text.now (tree_of element.now)) ∷ [] else [])) }
{
    let sort = sort_of(text, element);
    if is_name_sort(sort) && !is_blank(text, element) && !first_colon(text, others) {
        return add(names, name_at(element, sort));
    }
    Ok(())
}

fn first_colon(text: &[u8], elements: &[Element]) -> bool
    ensures { result ≡ first_is is_colon (own_marks text.now (forest_of elements.now)) }
{
    match elements.first() {
        Some(element) => is_colon_sort(sort_of(text, element)),
        None => false,
    }
}

fn is_parentheses_sort(sort: Sort) -> bool
    ensures { result ≡ is_parentheses_sort sort }
{
    matches!(sort, Sort::Parentheses)
}

fn is_name_sort(sort: Sort) -> bool
    ensures { result ≡ is_name_sort sort }
{
    matches!(sort, Sort::Word | Sort::Quoted)
}

fn is_colon_sort(sort: Sort) -> bool
    ensures { result ≡ is_colon_sort sort }
{
    matches!(sort, Sort::Colon)
}
