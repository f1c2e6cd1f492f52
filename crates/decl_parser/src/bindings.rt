// The bindings of `var` and `let`.

ghost use Rattle.std.specs.Prelude.{◌≡◌, ◌∷◌, [], IfSome, MatchResult, Ok, Some, None};
ghost use Rattle.swift_base.specs.declared.refusal.Refusal.TheVariants.{Fault};
ghost use Rattle.swift_lexer.specs.Trees.{forest_of};
ghost use Rattle.element_marks.specs.Answers.{Answers, Refuses};
ghost use Rattle.decl_parser.specs.declared.fault.ParseKind.TheVariants.{BadBinding};
ghost use Rattle.decl_parser.specs.Bindings.{binding_of, bindings_from, blocked, has_observers, tail_of, type_before, with_initializer, without_initializer};
ghost use Rattle.decl_parser.specs.Levels.{held};

use crate::attributes::span_from;
use crate::fault::{ParseFault, ParseKind, fault};
use crate::inside::{BlockAt, Inside, block_here, first_observes};
use crate::lists::{add, behind, upto};
use crate::pattern::pattern_names;
use element_marks::{
    Mark, before_braces, before_equals, binding_length, first_braces, is_braces, is_colon,
    is_pattern, whole,
};
use std::alloc::Global;
use swift_base::{Refusal, Span};
use swift_lexer::Element;
use swift_tree::Binding;

/// A binding, and its block where it has one.
#[derive(Debug, Drop)]
pub struct Bound {
    pub binding: Binding,
    pub block: Option<BlockAt>,
}

/// What a binding has behind its pattern: its type, its `=`, its initializer and its block.
#[derive(Clone, Copy, PartialEq, Eq, Debug)]
pub struct Tail {
    pub type_span: Option<Span>,
    pub equals: Option<u32>,
    pub init: Option<Span>,
    pub block: Option<BlockAt>,
}

fn bad(at: u32) -> Refusal<ParseFault>
    ensures { result ≡ Fault (record { at = at; kind = BadBinding }) }
{
    fault(at, ParseKind::BadBinding)
}

/// The binding behind the starter at `anchor`, where the elements are one alone.
#[inline(always)]
pub fn sole_binding(
    alloc: Global,
    text: &[u8],
    anchor: u32,
    marks: &[Mark],
    insides: &[Inside],
    elements: &[Element],
) -> Result<Option<Bound>, Refusal<ParseFault>>
    ensures { MatchResult result (λ found. IfSome found (λ bound. Ok (bound ∷ []) ≡ bindings_from (Some anchor) 0 marks.now insides.now (held text.now (forest_of elements.now))))
        (λ refusal. Refuses refusal (λ outcome. outcome ≡ bindings_from (Some anchor) 0 marks.now insides.now (held text.now (forest_of elements.now)))) }
{
    if marks.is_empty() {
        return Err(bad(anchor));
    }
    let count = 1 + binding_length(behind(marks, 1));
    if !behind(marks, count).is_empty() {
        return Ok(None);
    }
    let bound = binding_of(alloc, text, upto(marks, count), insides, elements)?;
    Ok(Some(bound))
}

/// The bindings behind the starter at `anchor`, which the elements are.
pub fn bindings(
    alloc: Global,
    text: &[u8],
    anchor: u32,
    marks: &[Mark],
    insides: &[Inside],
    elements: &[Element],
) -> Result<Vec<Bound>, Refusal<ParseFault>>
    ensures { Answers (λ bounds. bounds.items) result (λ outcome. outcome ≡ bindings_from (Some anchor) 0 marks.now insides.now (held text.now (forest_of elements.now))) }
{
    let mut bounds = Vec::with_capacity(alloc, 1)?;
    let mut before = anchor;
    let mut rest = marks;
    let mut within = insides;
    let mut left = elements;
    'bindings: loop {
        if rest.is_empty() {
            return Err(bad(before));
        }
        let count = 1 + binding_length(behind(rest, 1));
        let bound = binding_of(alloc, text, upto(rest, count), within, left)?;
        add(&mut bounds, bound)?;
        let Some((comma, others)) = behind(rest, count).split_first() else {
            return Ok(bounds);
        };
        before = comma.start;
        rest = others;
        within = behind(behind(within, count), 1);
        left = behind(behind(left, count), 1);
    }
}

/// The binding that the elements with the marks are.
#[inline(always)]
fn binding_of(
    alloc: Global,
    text: &[u8],
    marks: &[Mark],
    insides: &[Inside],
    elements: &[Element],
) -> Result<Bound, Refusal<ParseFault>>
    ensures { Answers (λ bound. bound) result (λ outcome. outcome ≡ binding_of marks.now insides.now (held text.now (forest_of elements.now))) }
{
    let Some(pattern) = marks.first() else {
        return Err(bad(0));
    };
    if !is_pattern(pattern) {
        return Err(bad(pattern.start));
    }
    let tail = tail_of(behind(marks, 1), behind(insides, 1))?;
    let names = pattern_names(alloc, text, pattern, elements)?;
    let binding = Binding {
        names,
        type_span: tail.type_span,
        equals: tail.equals,
        init: tail.init,
        end: span_from(marks).end,
    };
    Ok(Bound {
        binding,
        block: tail.block,
    })
}

/// What a binding has behind its pattern.
#[inline(always)]
fn tail_of(marks: &[Mark], insides: &[Inside]) -> Result<Tail, Refusal<ParseFault>>
    ensures { Answers (λ tail. tail) result (λ outcome. outcome ≡ tail_of marks.now insides.now) }
{
    let place = before_equals(marks);
    let Some((equals, init)) = behind(marks, place).split_first() else {
        return without_initializer(marks, insides);
    };
    let type_span = type_before(upto(marks, place))?;
    let behind_equals = behind(behind(insides, place), 1);
    with_initializer(type_span, equals.start, init, behind_equals)
}

/// What stands before a binding's `=` is nothing, or a colon and a type.
fn type_before(marks: &[Mark]) -> Result<Option<Span>, Refusal<ParseFault>>
    ensures { Answers (λ span. span) result (λ outcome. outcome ≡ type_before marks.now) }
{
    match marks.first() {
        None => Ok(None),
        Some(colon) if is_colon(colon) => Ok(whole(behind(marks, 1))),
        Some(other) => Err(bad(other.start)),
    }
}

/// Behind the `=` at `equals`.
#[inline(always)]
fn with_initializer(
    type_span: Option<Span>,
    equals: u32,
    marks: &[Mark],
    insides: &[Inside],
) -> Result<Tail, Refusal<ParseFault>>
    ensures { Answers (λ tail. tail) result (λ outcome. outcome ≡ with_initializer type_span equals marks.now insides.now) }
{
    let count = marks.len();
    if count == 0 {
        return Err(bad(equals));
    }
    if has_observers(marks, insides) {
        let block = block_here(true, behind(marks, count - 1), behind(insides, count - 1));
        return Ok(initialized(type_span, equals, whole(upto(marks, count - 1)), block));
    }
    Ok(initialized(type_span, equals, whole(marks), None))
}

fn initialized(
    type_span: Option<Span>,
    equals: u32,
    init: Option<Span>,
    block: Option<BlockAt>,
) -> Tail
    ensures { result ≡ record { type_span = type_span; equals = Some equals; init = init; block = block } }
{
    Tail {
        type_span,
        equals: Some(equals),
        init,
        block,
    }
}

/// Whether the last element, and not the only one, is the block that follows an initializer.
fn has_observers(marks: &[Mark], insides: &[Inside]) -> bool
    ensures { result ≡ has_observers marks.now insides.now }
{
    let count = marks.len();
    count > 1
        && first_braces(behind(marks, count - 1))
        && first_observes(behind(insides, count - 1))
}

/// A binding without `=`, behind its pattern.
fn without_initializer(marks: &[Mark], insides: &[Inside]) -> Result<Tail, Refusal<ParseFault>>
    ensures { Answers (λ tail. tail) result (λ outcome. outcome ≡ without_initializer marks.now insides.now) }
{
    match marks.first() {
        Some(colon) if is_colon(colon) => {
            let typed = behind(marks, 1);
            let place = before_braces(typed);
            let type_span = whole(upto(typed, place));
            let behind_colon = behind(insides, 1);
            blocked(type_span, behind(typed, place), behind(behind_colon, place))
        }
        _ => blocked(None, marks, insides),
    }
}

/// A binding without `=`, behind its type: nothing, or the block, which is the last element.
fn blocked(
    type_span: Option<Span>,
    marks: &[Mark],
    insides: &[Inside],
) -> Result<Tail, Refusal<ParseFault>>
    ensures { Answers (λ tail. tail) result (λ outcome. outcome ≡ blocked type_span marks.now insides.now) }
{
    match marks.first() {
        None => Ok(uninitialized(type_span, None)),
        Some(block) if is_braces(block) && behind(marks, 1).is_empty() => {
            Ok(uninitialized(type_span, block_here(true, marks, insides)))
        }
        Some(other) => Err(bad(other.start)),
    }
}

fn uninitialized(type_span: Option<Span>, block: Option<BlockAt>) -> Tail
    ensures { result ≡ record { type_span = type_span; equals = None; init = None; block = block } }
{
    Tail {
        type_span,
        equals: None,
        init: None,
        block,
    }
}
