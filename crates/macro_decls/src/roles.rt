// The attributes that give a macro its roles, and macros as they are written.
ghost use Rattle.std.specs.Prelude.{◌≡◌, ◌++◌, ◌<◌, ◌+◌, ◌^◌, IfOk, OnOk, filter, length, map, option_map};
ghost use Rattle.swift_lexer.specs.Trees.{tree_of};
ghost use Rattle.swift_tree.specs.Outlines.{outline_of};
ghost use Rattle.unique_names.specs.Roles.{among, role_of};
ghost use Rattle.macro_decls.specs.Roles.{trees_of, is_freestanding, is_attached, gives_role, inside_tree, group_inside, stands_free, is_of_sort, role_with, role_in, first_role, role_by, args_of, pieces_in, role_written};
ghost use Rattle.macro_decls.specs.Macros.{external_of_text, head_of, is_macro, macro_written, name_span, written_in, written_from};

use crate::arguments::{arguments, cut};
use crate::elements::{Shape, behind, bytes_of, shape_of, text_at, word_at};
use crate::external::{External, external_in};
use crate::rules::{conformances_in, names_in};
use crate::written::{MacroWritten, RoleWritten};
use decl_parser::elements_of;
use std::alloc::{AllocError, Global};
use swift_base::{Listed, Refusal, Span, Text};
use swift_lexer::Element;
use swift_tree::{Attr, Item, Kind, Outline};
use unique_names::{ROLES, Role};

// The elements of a text; none where it isn't read.
#[tactic(auto, unfolding(crate::specs::Roles::trees_of))]
fn read(alloc: Global, text: &[u8]) -> Result<Vec<Element>, AllocError>
    ensures { IfOk result (λ elements. map tree_of elements.items ≡ trees_of text.now) }
{
    match elements_of(alloc, text) {
        Ok(elements) => Ok(elements),
        Err(Refusal::Memory) => Err(AllocError),
        Err(Refusal::Fault(_)) => Ok(Vec::new(alloc)),
    }
}

fn is_freestanding(text: &[u8], attr: &Attr) -> bool
    ensures { result ≡ is_freestanding text.now attr.now }
{
    text_at(text, attr.name) == b"freestanding".as_slice()
}

fn is_attached(text: &[u8], attr: &Attr) -> bool
    ensures { result ≡ is_attached text.now attr.now }
{
    text_at(text, attr.name) == b"attached".as_slice()
}

fn gives_role(text: &[u8], attr: &Attr) -> bool
    ensures { result ≡ gives_role text.now attr.now }
{
    !attr.dotted && (is_freestanding(text, attr) || is_attached(text, attr))
}

fn inside_tree(element: &Element) -> &[Element]
    ensures { map tree_of result.now ≡ inside_tree (tree_of element.now) }
{
    match shape_of(element) {
        Shape::Leaf(_) => &[],
        Shape::Nest { inner, .. } => inner,
    }
}

// What stands inside the one group that arguments are.
fn group_inside(elements: &[Element]) -> &[Element]
    ensures { map tree_of result.now ≡ group_inside (map tree_of elements.now) }
{
    match elements.get(0) {
        Some(group) => inside_tree(group),
        None => &[],
    }
}

fn stands_free(role: Role) -> bool
    ensures { result ≡ stands_free role }
{
    matches!(role, Role::Expression | Role::Declaration)
}

fn is_of_sort(freestanding: bool, role: Role) -> bool
    ensures { result ≡ is_of_sort freestanding role }
{
    if freestanding {
        stands_free(role)
    } else {
        !stands_free(role)
    }
}

// The role of the first of these rows that has this text.
fn among(rows: &[(Role, u8, &str)], text: &[u8]) -> Option<Role>
    ensures { result ≡ among (λ row. row.0) (λ row. row.2.now) rows.now text.now }
{
    let (row, rest) = rows.split_first()?;
    if row.2.as_bytes() == text {
        Some(row.0)
    } else {
        among(rest, text)
    }
}

fn role_of(text: &[u8]) -> Option<Role>
    ensures { result ≡ role_of text.now }
{
    among(&ROLES, text)
}

// The role that a piece is.
fn role_in(text: &[u8], freestanding: bool, piece: &[Element]) -> Option<Role>
    ensures { result ≡ role_in text.now freestanding (map tree_of piece.now) }
{
    if piece.len() != 1 {
        return None;
    }
    let role = role_of(bytes_of(text, word_at(piece, 0)?))?;
    if !is_of_sort(freestanding, role) {
        return None;
    }
    Some(role)
}

fn first_role(text: &[u8], freestanding: bool, pieces: &[&[Element]]) -> Option<Role>
    ensures { result ≡ first_role text.now freestanding (map (λ piece. map tree_of piece.now) pieces.now) }
{
    role_in(text, freestanding, pieces.first()?)
}

#[tactic(auto, unfolding(crate::specs::Roles::role_by))]
fn role_by(
    alloc: Global,
    text: &[u8],
    at: u32,
    freestanding: bool,
    pieces: &[&[Element]],
) -> Result<RoleWritten, AllocError>
    ensures { IfOk result (λ role. role ≡ role_by text.now at freestanding (map (λ piece. map tree_of piece.now) pieces.now)) }
{
    let role = first_role(text, freestanding, pieces);
    let lists = arguments(alloc, text, behind(pieces, 1))?;
    let names = names_in(alloc, text, &lists)?;
    let conformances = conformances_in(alloc, text, role, &lists)?;
    Ok(RoleWritten {
        at,
        freestanding,
        role,
        names,
        conformances,
    })
}

fn args_of(text: &[u8], args: Option<Span>) -> &[u8]
    ensures { result.now ≡ args_of text.now args }
{
    match args {
        None => &[],
        Some(args) => text_at(text, args),
    }
}

// An attribute that gives a role, as it is written.
#[tactic(auto, unfolding(crate::specs::Roles::role_written, crate::specs::Roles::pieces_in))]
fn role_written(alloc: Global, text: &[u8], attr: &Attr) -> Result<RoleWritten, AllocError>
    ensures { IfOk result (λ role. role ≡ role_written text.now attr.now) }
{
    let args = args_of(text, attr.args);
    let elements = read(alloc, args)?;
    let pieces = cut(alloc, args, group_inside(&elements))?;
    role_by(
        alloc,
        args,
        attr.span.start,
        is_freestanding(text, attr),
        &pieces,
    )
}

fn roles_of(alloc: Global, text: &[u8], attrs: &[Attr]) -> Result<Vec<RoleWritten>, AllocError>
    ensures { IfOk result (λ roles. roles.items ≡ map (role_written text.now) (filter (gives_role text.now) attrs.now)) }
{
    let mut roles = Vec::new(alloc);
    'attrs: for attr in attrs {
        if gives_role(text, attr) {
            roles.push(role_written(alloc, text, attr)?)?;
        }
    }
    Ok(roles)
}

// The first name; without one, an empty text where the declaration begins.
fn name_span(item: &Item) -> Span
    ensures { result ≡ name_span (head_of item.now) }
{
    match item.names.items() {
        [name, ..] => *name,
        [] => Span {
            start: item.span.start,
            end: item.span.start,
        },
    }
}

#[tactic(auto, unfolding(crate::specs::Macros::external_of_text))]
fn external_of_text(alloc: Global, text: &[u8]) -> Result<Option<External>, AllocError>
    ensures { IfOk result (λ external. external ≡ external_of_text text.now) }
{
    let elements = read(alloc, text)?;
    external_in(alloc, text, &elements)
}

#[tactic(auto, unfolding(crate::specs::Macros::macro_written))]
fn macro_written(
    alloc: Global,
    outline: u32,
    text: &[u8],
    item: &Item,
) -> Result<MacroWritten, AllocError>
    ensures { IfOk result (λ written. written ≡ macro_written outline text.now (head_of item.now)) }
{
    let name = name_span(item);
    let roles = roles_of(alloc, text, item.further.attrs())?;
    Ok(MacroWritten {
        outline,
        at: name.start,
        name: Text::from_bytes(alloc, text_at(text, name))?,
        roles: Listed::from_vec(roles),
        external: external_of_text(alloc, text_at(text, item.span))?,
    })
}

fn is_macro(kind: Kind) -> bool
    ensures { result ≡ is_macro kind }
{
    matches!(kind, Kind::Macro)
}

fn put_written(
    alloc: Global,
    number: u32,
    outline: &Outline,
    written: &mut Vec<MacroWritten>,
) -> Result<(), AllocError>
    ensures { IfOk result (λ _. written.new.items ≡ written.old.items ++ written_in number (outline_of outline.now)) }
{
    'items: for item in &outline.items {
        if is_macro(item.kind) {
            written.push(macro_written(alloc, number, outline.text.bytes(), item)?)?;
        }
    }
    Ok(())
}

/// The macros of outlines, as they are written.
pub fn written_of(alloc: Global, outlines: &[&Outline]) -> Result<Vec<MacroWritten>, AllocError>
    requires { length outlines.now < 2 ^ 32 }
    ensures { IfOk result (λ written. written.items ≡ written_from 0 (map (λ outline. outline_of outline.now) outlines.now)) }
{
    let mut written = Vec::new(alloc);
    let mut number = 0;
    'outlines: for outline in outlines {
        put_written(alloc, number, outline, &mut written)?;
        number += 1;
    }
    Ok(written)
}
