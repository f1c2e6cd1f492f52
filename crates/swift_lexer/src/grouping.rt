// Tokens into bracket groups.

ghost use Rattle.std.specs.Prelude.{◌≡◌, ℕ, List, [], IfOk, Ok, slice_index};
ghost use Rattle.swift_lexer.specs.Answers.{Answers};
ghost use Rattle.swift_lexer.specs.Groups.{IsGrouped};
ghost use Rattle.swift_lexer.specs.Openings.{Stands, Takes};
ghost use Rattle.swift_lexer.specs.Tokens.{IsLexed};
ghost use Rattle.swift_lexer.specs.Trees.{closes, forest_of, leaf, nest, tree_of};
ghost use Rattle.swift_lexer.specs.declared.refusal.Refusal.TheVariants.{Fault};
ghost use Rattle.swift_lexer.specs.declared.token.Token.{Token};
ghost use Rattle.swift_lexer.specs.declared.token.Class.TheVariants.{LeftBracket, RightBracket};

use crate::bytes::is_bracket_pair;
use crate::element::{DEEPEST, Element, Group, GroupFault, GroupKind};
use crate::refusal::Refusal;
use crate::token::{Class, Token};
use std::alloc::{AllocError, Global};
use std::mem;

/// A left bracket that is still open, and what stands before it on its level.
#[derive(Drop)]
pub struct OpenGroup {
    pub before: Vec<Element>,
    pub left: Token,
}

/// The open brackets from the outermost on, and what stands on the innermost level. `spares` are lists of groups
/// that were closed, whose room the next ones take.
#[derive(Drop)]
pub struct Grouping {
    pub levels: Vec<OpenGroup>,
    pub here: Vec<Element>,
    pub spares: Vec<Vec<Element>>,
}

/// The tokens of a text in bracket groups, or the first fault of its brackets.
pub fn group(
    alloc: Global,
    tokens: &[Token],
    text: &[u8],
) -> Result<Vec<Element>, Refusal<GroupFault>>
    requires { IsLexed text.now (Ok tokens.now) }
    ensures { Answers (λ elements. forest_of elements.items) result (IsGrouped text.now tokens.now) }
{
    let mut grouping = nothing_open(alloc);
    for token in tokens {
        take(alloc, &mut grouping, *token, text)?;
    }
    finish(grouping)
}

/// No token is read yet.
pub fn nothing_open(alloc: Global) -> Grouping
    ensures levels { result.levels.items ≡ [] }
    ensures here { result.here.items ≡ [] }
{
    Grouping {
        levels: Vec::new(alloc),
        here: Vec::new(alloc),
        spares: Vec::new(alloc),
    }
}

/// Puts the token where it belongs.
#[inline(always)]
pub fn take(
    alloc: Global,
    grouping: &mut Grouping,
    token: Token,
    text: &[u8],
) -> Result<(), Refusal<GroupFault>>
    ensures { Takes text.now token grouping.old grouping.new result }
{
    match token.class {
        Class::LeftBracket => open_group(alloc, grouping, token),
        Class::RightBracket => close_group(alloc, grouping, token, text),
        _ => {
            grouping.here.push(leaf_of(token))?;
            Ok(())
        }
    }
}

#[inline(never)]
fn open_group(
    alloc: Global,
    grouping: &mut Grouping,
    left: Token,
) -> Result<(), Refusal<GroupFault>>
    requires { left.class ≡ LeftBracket }
    ensures { (text : List ℕ) → Takes text left grouping.old grouping.new result }
{
    let depth = grouping.levels.len();
    if depth >= DEEPEST {
        return Err(refusal_at(left, GroupKind::TooDeep));
    }
    let empty = empty_list(alloc, &mut grouping.spares);
    let before = mem::replace(&mut grouping.here, empty);
    grouping.levels.push(OpenGroup { before, left })?;
    Ok(())
}

/// An empty list, one that was used before where there is one.
fn empty_list(alloc: Global, spares: &mut Vec<Vec<Element>>) -> Vec<Element>
    ensures { result.items ≡ [] }
{
    match spares.pop() {
        Some(mut list) => {
            list.clear();
            list
        }
        None => Vec::new(alloc),
    }
}

#[inline(never)]
fn close_group(
    alloc: Global,
    grouping: &mut Grouping,
    right: Token,
    text: &[u8],
) -> Result<(), Refusal<GroupFault>>
    requires { right.class ≡ RightBracket }
    ensures { Takes text.now right grouping.old grouping.new result }
{
    let Some(OpenGroup { before, left }) = grouping.levels.pop() else {
        return Err(refusal_at(right, GroupKind::Unopened));
    };
    if !closes(text, left, right) {
        return Err(refusal_at(right, GroupKind::Mismatched));
    }
    let mut used = mem::replace(&mut grouping.here, before);
    let Ok(group) = group_of(alloc, left, &mut used, right) else {
        return Err(Refusal::Memory);
    };
    grouping.spares.push(used)?;
    grouping.here.push(group)?;
    Ok(())
}

/// A group around the elements of the list, in no more room than they need.
fn group_of(
    alloc: Global,
    left: Token,
    list: &mut Vec<Element>,
    right: Token,
) -> Result<Element, AllocError>
    ensures { IfOk result (λ element. tree_of element ≡ nest left (forest_of list.old.items) right) }
{
    let mut inner = Vec::with_capacity(alloc, list.len())?;
    inner.append(list)?;
    let group = Box::new(alloc, Group { left, inner, right })?;
    Ok(Element::Nest(group))
}

/// The groups, where no bracket is open any more.
pub fn finish(grouping: Grouping) -> Result<Vec<Element>, Refusal<GroupFault>>
    ensures { (text : List ℕ) (tokens : List Token) → Stands text tokens grouping [] → Answers (λ elements. forest_of elements.items) result (IsGrouped text tokens) }
{
    let Grouping {
        mut levels,
        here,
        spares: _,
    } = grouping;
    match levels.pop() {
        Some(group) => Err(refusal_at(group.left, GroupKind::Unclosed)),
        None => Ok(here),
    }
}

fn refusal_at(token: Token, kind: GroupKind) -> Refusal<GroupFault>
    ensures { result ≡ Fault (record { at = token.start; kind = kind }) }
{
    let at = token.start;
    Refusal::Fault(GroupFault { at, kind })
}

fn leaf_of(token: Token) -> Element
    ensures { tree_of result ≡ leaf token }
{
    Element::Leaf(token)
}

/// Whether the right bracket is of the kind of the left one.
#[tactic(auto, unfolding(crate::specs::Trees::closes))]
fn closes(text: &[u8], left: Token, right: Token) -> bool
    ensures { result ≡ closes text.now left right }
{
    is_bracket_pair(byte_at(text, left.start), byte_at(text, right.start))
}

/// The byte at a place, 0 past the end.
fn byte_at(text: &[u8], at: u32) -> u8
    ensures { result ≡ slice_index text.now at }
{
    text.get(at as usize).copied().unwrap_or(0)
}
