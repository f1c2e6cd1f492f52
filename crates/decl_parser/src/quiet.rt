// Elements in whose brackets no macro use and no attribute stands, and what others of them have to tell.

ghost use Rattle.std.specs.Prelude.{◌≡◌, ◌++◌, ◌&&◌, not, IfOk, OnOk};
ghost use Rattle.std.specs.List.{flat_map};
ghost use Rattle.swift_lexer.specs.Trees.{forest_of, tree_of};
ghost use Rattle.element_marks.specs.Quiet.{is_quiet, may_list_accessors};
ghost use Rattle.decl_parser.specs.Levels.{are_silent, is_leaf, is_silent};

use crate::found::add_copies;
use crate::inside::Inside;
use element_marks::{is_quiet, may_list_accessors};
use std::alloc::{AllocError, Global};
use swift_lexer::Element;
use swift_tree::{Attr, MacroUse};

/// Whether no use, no attribute and no accessor stands in the brackets of any of the elements.
pub fn are_silent(text: &[u8], elements: &[Element]) -> bool
    ensures { result ≡ are_silent text.now (forest_of elements.now) }
{
    'elements: for element in elements {
        if !is_silent(text, element) {
            return false;
        }
    }
    true
}

/// The same of one element.
fn is_silent(text: &[u8], element: &Element) -> bool
    ensures { result ≡ is_silent text.now (tree_of element.now) }
{
    match element {
        Element::Leaf(_) => true,
        Element::Nest(group) => {
            let inner = group.inner.as_slice();
            if !begins_nothing(text, inner) {
                return false;
            }
            'inner: for part in inner.iter() {
                if !is_silent(text, part) {
                    return false;
                }
            }
            true
        }
    }
}

/// Whether no use, no attribute and no accessor begins in the list.
#[inline(always)]
pub fn begins_nothing(text: &[u8], elements: &[Element]) -> bool
    ensures { result ≡ (is_quiet (forest_of elements.now) && not (may_list_accessors text.now (forest_of elements.now))) }
{
    is_quiet(elements) && !may_list_accessors(text, elements)
}

/// Whether the element is a token.
pub fn is_leaf(element: &Element) -> bool
    ensures { result ≡ is_leaf (tree_of element.now) }
{
    match element {
        Element::Leaf(_) => true,
        Element::Nest(_) => false,
    }
}

pub fn all_uses(alloc: Global, insides: &[Inside]) -> Result<Vec<MacroUse>, AllocError>
    ensures { IfOk result (λ uses. uses.items ≡ flat_map (λ inside. inside.uses) insides.now) }
{
    let mut uses = Vec::new(alloc);
    'insides: for inside in insides {
        add_uses(&mut uses, inside.uses.items())?;
    }
    Ok(uses)
}

pub fn all_locals(alloc: Global, insides: &[Inside]) -> Result<Vec<Attr>, AllocError>
    ensures { IfOk result (λ locals. locals.items ≡ flat_map (λ inside. inside.locals) insides.now) }
{
    let mut locals = Vec::new(alloc);
    'insides: for inside in insides {
        add_locals(alloc, &mut locals, inside.locals.items())?;
    }
    Ok(locals)
}

// Most elements have none.

pub fn add_uses(list: &mut Vec<MacroUse>, uses: &[MacroUse]) -> Result<(), AllocError>
    ensures { OnOk result (list.new.items ≡ list.old.items ++ uses.now) }
{
    if uses.is_empty() {
        return Ok(());
    }
    list.extend_from_slice(uses)
}

pub fn add_locals(alloc: Global, list: &mut Vec<Attr>, attrs: &[Attr]) -> Result<(), AllocError>
    ensures { OnOk result (list.new.items ≡ list.old.items ++ attrs.now) }
{
    if attrs.is_empty() {
        return Ok(());
    }
    add_copies(alloc, list, attrs)
}
