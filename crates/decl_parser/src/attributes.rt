// Macro uses and attributes by their elements.

ghost use Rattle.std.specs.Prelude.{◌≡◌, ◌≤◌, IfOk, length};
ghost use Rattle.decl_parser.specs.Cut.{after};
ghost use Rattle.decl_parser.specs.Attributes.{args_place, args_span, args_uses, attr_of, attribute_name, pound_name, span_from, use_of};

use crate::inside::{Inside, first_uses};
use crate::lists::{behind, upto};
use element_marks::{
    Mark, attribute_length, behind_first, dots_length, first_angles, is_parentheses, is_semicolon,
    name_of, span_of, whole,
};
use std::alloc::{AllocError, Global};
use swift_base::{Listed, Span};
use swift_tree::{Attr, MacroUse};

const NOWHERE: Span = Span { start: 0, end: 0 };

/// From the first element to the last; of no elements, the text's beginning.
pub fn span_from(marks: &[Mark]) -> Span
    ensures { result ≡ span_from marks.now }
{
    whole(marks).unwrap_or(NOWHERE)
}

/// The end of a `;` that stands first, else this one.
pub fn after(end: u32, next: &[Mark]) -> u32
    ensures { result ≡ after end next.now }
{
    match next.first() {
        Some(mark) if is_semicolon(mark) => mark.end,
        _ => end,
    }
}

fn pound_name(marks: &[Mark]) -> Span
    ensures { result ≡ pound_name marks.now }
{
    match marks.first() {
        Some(pound) => behind_first(pound),
        None => NOWHERE,
    }
}

/// The use that the elements are.
pub fn use_of(marks: &[Mark]) -> MacroUse
    ensures { result ≡ use_of marks.now }
{
    MacroUse {
        span: span_from(marks),
        name: pound_name(marks),
    }
}

fn attribute_name(marks: &[Mark]) -> Span
    ensures { result ≡ attribute_name marks.now }
{
    let Some(name) = marks.first() else {
        return NOWHERE;
    };
    let dots = dots_length(behind(marks, 1));
    if dots == 0 {
        name_of(name)
    } else {
        span_from(upto(marks, dots + 1))
    }
}

/// How many elements stand before the arguments of the attribute that begins here.
fn args_place(marks: &[Mark]) -> usize
    ensures { result ≡ args_place marks.now }
{
    let named = 2 + dots_length(behind(marks, 2));
    named + first_angles(behind(marks, named))
}

fn args_span(marks: &[Mark]) -> Option<Span>
    ensures { result ≡ args_span marks.now }
{
    match marks.first() {
        Some(mark) if is_parentheses(mark) => Some(span_of(mark)),
        _ => None,
    }
}

fn args_uses<'a>(marks: &[Mark], insides: &'a [Inside]) -> &'a [MacroUse]
    ensures { result.now ≡ args_uses marks.now insides.now }
{
    match marks.first() {
        Some(mark) if is_parentheses(mark) => first_uses(insides),
        _ => &[],
    }
}

/// The attribute that begins the elements, where one does.
pub fn attr_of(alloc: Global, marks: &[Mark], insides: &[Inside]) -> Result<Attr, AllocError>
    ensures { IfOk result (λ attr. attr ≡ attr_of marks.now insides.now) }
{
    let place = args_place(marks);
    let uses = args_uses(behind(marks, place), behind(insides, place));
    Ok(Attr {
        span: span_from(upto(marks, attribute_length(marks))),
        name: attribute_name(behind(marks, 1)),
        dotted: dots_length(behind(marks, 2)) > 0,
        args: args_span(behind(marks, place)),
        uses: Listed::from_vec(Vec::from_slice(alloc, uses)?),
    })
}

/// The same attribute again.
pub fn copy_of(alloc: Global, attr: &Attr) -> Result<Attr, AllocError>
    ensures { IfOk result (λ copy. copy ≡ attr.now) }
{
    Ok(Attr {
        span: attr.span,
        name: attr.name,
        dotted: attr.dotted,
        args: attr.args,
        uses: Listed::from_vec(Vec::from_slice(alloc, attr.uses.items())?),
    })
}
