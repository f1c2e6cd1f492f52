// A reply into its outline.
ghost use Rattle.std.specs.Prelude.{◌≡◌, IfOk, Some, option_map, if◌then◌else◌, None};
ghost use Rattle.std.specs.Option.{option_copied};
ghost use Rattle.swift_tree.specs.Outlines.{items_of, outline_of};
ghost use Rattle.element_marks.specs.Answers.{Answers};
ghost use Rattle.decl_parser.specs.Outline.{outline};
ghost use Rattle.result_reader.specs.Reading.{shape_of, uncovered_at, is_arbitrary_there, arbitrary, items_fault, fault_by, parsed, reading_of};

use crate::fault::{ResultFault, ResultKind};
use crate::fit::{
    any_arbitrary, first_declaration, first_forbidden, may_not_be_arbitrary, text_at,
};
use crate::names::{names_of, uncovered, uncovered_observer};
use decl_parser::{ParseFault, parse_accessors, parse_attributes, parse_expression, parse_items};
use role_names::NameList;
use std::alloc::{AllocError, Global};
use swift_base::{Refusal, Span, Text};
use swift_tree::{Item, Outline};
use unique_names::Role;

/// How a reply is read: by the role in which its macro was asked, whether it stands at file scope, the name of the
/// attached declaration where that has exactly one, the discriminator of the request, and the role's list of names.
#[derive(Debug, Drop)]
pub struct Reading {
    pub role: Role,
    pub file_scope: bool,
    pub attached: Option<Text>,
    pub discriminator: Text,
    pub names: NameList,
}

/// The outline of a reply, or its first fault. Of a reply of extensions only the text is looked at.
#[tactic(auto, unfolding(crate::specs::Reading::reading_of))]
pub fn read_result(
    alloc: Global,
    reading: &Reading,
    text: &[u8],
) -> Result<Outline, Refusal<ResultFault>>
    ensures { Answers outline_of result (λ outcome. outcome ≡ reading_of reading.now text.now) }
{
    let outline = parse_reply(alloc, text, reading.role)?;
    match first_fault(alloc, reading, text, &outline)? {
        Some(found) => Err(Refusal::Fault(found)),
        None => Ok(outline),
    }
}

fn parse_reply(alloc: Global, text: &[u8], role: Role) -> Result<Outline, Refusal<ResultFault>>
    ensures { Answers outline_of result (λ outcome. outcome ≡ parsed (outline text.now (shape_of role))) }
{
    match outline_by_role(alloc, text, role) {
        Ok(outline) => Ok(outline),
        Err(Refusal::Memory) => Err(Refusal::Memory),
        Err(Refusal::Fault(ParseFault { at, kind })) => Err(Refusal::Fault(ResultFault {
            at,
            kind: ResultKind::Parse(kind),
        })),
    }
}

fn outline_by_role(alloc: Global, text: &[u8], role: Role) -> Result<Outline, Refusal<ParseFault>>
    ensures { Answers outline_of result (λ outcome. outcome ≡ outline text.now (shape_of role)) }
{
    match role {
        Role::Expression => parse_expression(alloc, text),
        Role::MemberAttribute => parse_attributes(alloc, text),
        Role::Accessor => parse_accessors(alloc, text),
        Role::Declaration | Role::Member | Role::Peer | Role::Extension => parse_items(alloc, text),
    }
}

// The first fault of a reply that has an outline.
fn first_fault(
    alloc: Global,
    reading: &Reading,
    text: &[u8],
    outline: &Outline,
) -> Result<Option<ResultFault>, AllocError>
    ensures { IfOk result (λ found. found ≡ fault_by reading.now.role reading.now text.now (outline_of outline.now)) }
{
    match reading.role {
        Role::Declaration | Role::Member | Role::Peer => {
            items_fault(alloc, reading, text, &outline.items)
        }
        Role::Accessor => uncovered_fault(
            alloc,
            text,
            uncovered_observer(reading, text, outline.accessors.items()),
        ),
        Role::Expression | Role::MemberAttribute | Role::Extension => Ok(None),
    }
}

// The first fault of declarations: of their kinds, of their scope, of their names.
fn items_fault(
    alloc: Global,
    reading: &Reading,
    text: &[u8],
    items: &[Item],
) -> Result<Option<ResultFault>, AllocError>
    ensures { IfOk result (λ found. found ≡ items_fault reading.now text.now (items_of items.now)) }
{
    if let Some(at) = first_forbidden(reading.file_scope, text, items) {
        return Ok(Some(ResultFault {
            at,
            kind: ResultKind::ForbiddenKind,
        }));
    }
    if let Some(found) = arbitrary(reading, items) {
        return Ok(Some(found));
    }
    let names = names_of(alloc, items)?;
    uncovered_fault(alloc, text, uncovered(reading, text, &names))
}

fn is_arbitrary_there(reading: &Reading) -> bool
    ensures { result ≡ is_arbitrary_there reading.now }
{
    may_not_be_arbitrary(reading.role)
        && (reading.file_scope && any_arbitrary(reading.names.rules.items()))
}

// The first declaration, where none may stand.
fn arbitrary(reading: &Reading, items: &[Item]) -> Option<ResultFault>
    ensures { result ≡ arbitrary reading.now (items_of items.now) }
{
    if !is_arbitrary_there(reading) {
        return None;
    }
    match first_declaration(items) {
        Some(at) => Some(ResultFault {
            at,
            kind: ResultKind::FileScopeArbitrary,
        }),
        None => None,
    }
}

// The fault of the name, where there is one.
fn uncovered_fault(
    alloc: Global,
    text: &[u8],
    name: Option<&Span>,
) -> Result<Option<ResultFault>, AllocError>
    ensures { IfOk result (λ found. found ≡ option_map (uncovered_at text.now) (option_copied name.entry)) }
{
    match name {
        Some(name) => Ok(Some(ResultFault {
            at: name.start,
            kind: ResultKind::Uncovered(Text::from_bytes(alloc, text_at(text, *name))?),
        })),
        None => Ok(None),
    }
}
