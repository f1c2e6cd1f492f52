// Extended types and inheritance clauses.

ghost use Rattle.std.specs.Prelude.{◌≡◌, ◌≤◌, ◌++◌, [], IfOk, OnOk, length};
ghost use Rattle.element_marks.specs.Inherits.{inherited, length_before, named_type, pieces, stops, with_piece};

use crate::heads::{attribute_length, behind, first_colon};
use crate::mark::Mark;
use crate::sorts::{is_braces, is_colon, is_comma};
use crate::spans::whole;
use crate::words::is_where;
use std::alloc::{AllocError, Global};
use swift_base::Span;

/// At what a part of a declaration's head ends.
#[derive(Clone, Copy, PartialEq, Eq, Debug)]
pub enum Stop {
    /// The braces of the block, and a colon or `where` at angle depth 0.
    Extended,
    /// A colon or `where` at angle depth 0.
    Clause,
    /// `where` at angle depth 0.
    Where,
    /// A comma at angle depth 0.
    Comma,
}

/// Whether the element is such an end; `outside` where the angle depth is 0.
fn stops(stop: Stop, mark: &Mark, outside: bool) -> bool
    ensures { result ≡ stops stop mark.now outside }
{
    match stop {
        Stop::Extended => is_braces(mark)
            || (outside && (is_colon(mark) || is_where(mark.keyword))),
        Stop::Clause => outside && (is_colon(mark) || is_where(mark.keyword)),
        Stop::Where => outside && is_where(mark.keyword),
        Stop::Comma => outside && is_comma(mark),
    }
}

/// How many elements stand before the end.
pub fn length_before(stop: Stop, marks: &[Mark]) -> usize
    ensures value { result ≡ length_before stop 0 0 marks.now }
    ensures bound { result ≤ length marks.now }
{
    let mut opened = 0u128;
    let mut closed = 0u128;
    let mut count = 0;
    'elements: for mark in marks {
        if stops(stop, mark, opened == closed) {
            return count;
        }
        opened += mark.opens as u128;
        closed += mark.closes as u128;
        count += 1;
    }
    count
}

/// What a piece names past its attributes.
fn named_type(marks: &[Mark]) -> Option<Span>
    ensures { result ≡ named_type 0 marks.now }
{
    let mut rest = marks;
    'attributes: loop {
        let length = attribute_length(rest);
        if length == 0 {
            return whole(rest);
        }
        rest = behind(rest, length);
    }
}

/// The types that a declaration names behind its first colon.
pub fn inherited(alloc: Global, marks: &[Mark]) -> Result<Vec<Span>, AllocError>
    ensures { IfOk result (λ types. types.items ≡ inherited marks.now) }
{
    let colon = length_before(Stop::Clause, marks);
    if !first_colon(behind(marks, colon)) {
        return Ok(Vec::new(alloc));
    }
    let clause = behind(marks, colon + 1);
    pieces(alloc, &clause[..length_before(Stop::Where, clause)])
}

/// What the pieces of a clause name.
fn pieces(alloc: Global, clause: &[Mark]) -> Result<Vec<Span>, AllocError>
    ensures { IfOk result (λ types. types.items ≡ pieces 0 clause.now) }
{
    let mut types = Vec::new(alloc);
    let mut rest = clause;
    'pieces: while !rest.is_empty() {
        let length = length_before(Stop::Comma, rest);
        push_piece(&mut types, named_type(&rest[..length]))?;
        rest = behind(behind(rest, length), 1);
    }
    Ok(types)
}

/// One more of the types, where the piece names one.
fn push_piece(types: &mut Vec<Span>, named: Option<Span>) -> Result<(), AllocError>
    ensures { OnOk result (types.new.items ≡ types.old.items ++ with_piece named []) }
{
    match named {
        Some(named) => {
            types.push(named)?;
            Ok(())
        }
        None => Ok(()),
    }
}
