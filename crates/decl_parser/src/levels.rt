// What stands inside each element of a list, at every depth.

ghost use Rattle.std.specs.Prelude.{◌≡◌, IfOk, IfSome, Some, length, option_map, true};
ghost use Rattle.swift_lexer.specs.Trees.{forest_of, tree_of};
ghost use Rattle.decl_parser.specs.Cut.{without};
ghost use Rattle.decl_parser.specs.Insides.{AreBlank, IsBlankList, listed_or};
ghost use Rattle.decl_parser.specs.Levels.{inside_of, insides, read_inside, tree_inside};

use crate::found::{Findings, found_in};
use crate::gathering::{finish, start};
use crate::inside::{Inside, nothing_inside};
use crate::lists::{add, behind, upto};
use crate::quiet::{are_silent, is_leaf};
use element_marks::{Mark, lists_accessors, observes};
use std::alloc::{AllocError, Global};
use swift_base::Listed;
use swift_lexer::Element;

/// What stands inside the brackets of an element, where it is a group.
pub fn group_inside(element: &Element) -> Option<&[Element]>
    ensures { option_map (λ inner. forest_of inner.now) result ≡ tree_inside (tree_of element.now) }
{
    match element {
        Element::Leaf(_) => None,
        Element::Nest(group) => Some(&group.inner),
    }
}

/// What stands inside an element, where it is a token.
#[tactic(auto, unfolding(crate::specs::Levels::inside_of))]
fn inside_leaf(alloc: Global, text: &[u8], element: &Element) -> Option<Inside>
    ensures { IfSome result (λ inside. inside ≡ inside_of text.now (tree_of element.now)) }
{
    match element {
        Element::Leaf(_) => Some(nothing_inside(alloc)),
        Element::Nest(_) => None,
    }
}

/// What stands inside an element.
#[tactic(auto, unfolding(crate::specs::Levels::inside_of, crate::specs::Levels::insides))]
fn inside_of(alloc: Global, text: &[u8], element: &Element) -> Result<Inside, AllocError>
    ensures { IfOk result (λ inside. inside ≡ inside_of text.now (tree_of element.now)) }
{
    match element {
        Element::Leaf(_) => Ok(nothing_inside(alloc)),
        Element::Nest(group) => {
            let inner = group.inner.as_slice();
            let mut read = start(alloc, text, inner)?;
            let mut rest = inner;
            'inner: for part in inner.iter() {
                rest = behind(rest, 1);
                if is_leaf(part) {
                    read.add_token(alloc, text, part, rest)?;
                } else {
                    let inside = inside_of(alloc, text, part)?;
                    read.add(alloc, text, part, rest, inside)?;
                }
            }
            finish(alloc, text, inner, read)
        }
    }
}

/// What stands inside each element.
#[tactic(auto, unfolding(crate::specs::Levels::insides))]
pub fn insides(alloc: Global, text: &[u8], elements: &[Element]) -> Result<Vec<Inside>, AllocError>
    ensures { IfOk result (λ list. list.items ≡ insides text.now (forest_of elements.now)) }
{
    let mut list = Vec::with_capacity(alloc, elements.len())?;
    'elements: for element in elements {
        match inside_leaf(alloc, text, element) {
            Some(inside) => list.push(inside)?,
            None => list.push(inside_of(alloc, text, element)?)?,
        }
    }
    Ok(list)
}

/// The same, where that is not looked at which stands inside the element at the place.
pub fn insides_without(
    alloc: Global,
    text: &[u8],
    elements: &[Element],
    place: Option<usize>,
) -> Result<Vec<Inside>, AllocError>
    ensures { IfOk result (λ list. list.items ≡ without place (insides text.now (forest_of elements.now))) }
{
    let Some(place) = place else {
        return insides(alloc, text, elements);
    };
    let mut list = insides(alloc, text, upto(elements, place))?;
    add(&mut list, nothing_inside(alloc))?;
    let mut others = insides(alloc, text, behind(behind(elements, place), 1))?;
    list.append(&mut others)?;
    Ok(list)
}

/// Whether nothing stands inside the elements, but for that at the place.
#[inline(always)]
pub fn are_blank(text: &[u8], elements: &[Element], place: Option<usize>) -> bool
    ensures { result ≡ true → IsBlankList (length elements.now) (without place (insides text.now (forest_of elements.now))) }
{
    match place {
        Some(place) => are_blank_around(text, elements, place),
        None => are_silent(text, elements),
    }
}

/// Whether nothing stands inside the elements before the place and behind it, where one stands there.
#[inline(always)]
fn are_blank_around(text: &[u8], elements: &[Element], place: usize) -> bool
    ensures { result ≡ true → IsBlankList (length elements.now) (without (Some place) (insides text.now (forest_of elements.now))) }
{
    if elements.len() <= place {
        return false;
    }
    are_silent(text, upto(elements, place)) && are_silent(text, behind(behind(elements, place), 1))
}

/// What stands inside each element, as `insides_without` lists it. There is no list where nothing stands inside any of
/// them, and they are no more than `blanks`.
#[inline(always)]
pub fn listed_insides(
    alloc: Global,
    text: &[u8],
    elements: &[Element],
    place: Option<usize>,
    blanks: &[Inside],
) -> Result<Option<Vec<Inside>>, AllocError>
    requires { AreBlank blanks.now }
    ensures { IfOk result (λ list. listed_or blanks.now (length elements.now) list ≡ without place (insides text.now (forest_of elements.now))) }
{
    if elements.len() <= blanks.len() && are_blank(text, elements, place) {
        return Ok(None);
    }
    let list = insides_without(alloc, text, elements, place)?;
    Ok(Some(list))
}

/// The list, or else the first `count` of `blanks`.
pub fn listed_or<'a>(
    blanks: &'a [Inside],
    count: usize,
    list: &'a Option<Vec<Inside>>,
) -> &'a [Inside]
    ensures { result.now ≡ listed_or blanks.now count list.now }
{
    match list {
        Some(list) => list,
        None => upto(blanks, count),
    }
}

/// What stands inside a group, by the marks of its list.
#[tactic(auto, unfolding(crate::specs::Levels::read_inside))]
pub fn read_inside(alloc: Global, marks: &[Mark], insides: &[Inside]) -> Result<Inside, AllocError>
    ensures { IfOk result (λ inside. inside ≡ read_inside marks.now insides.now) }
{
    let Findings {
        attrs: _,
        uses,
        locals,
    } = found_in(alloc, marks, insides)?;
    Ok(Inside {
        observes: observes(marks),
        lists_accessors: lists_accessors(marks),
        uses: Listed::from_vec(uses),
        locals: Listed::from_vec(locals),
    })
}
