// The sites of a source, in the order of their visits.
ghost use Rattle.std.specs.Prelude.{◌≡◌, ◌++◌, ◌≤◌, IfOk};
ghost use Rattle.std.specs.List.{flat_map};
ghost use Rattle.swift_tree.specs.Outlines.{block_of, item_of, items_of, outline_of};
ghost use Rattle.expansion_model.specs.Attributes.{carrier};
ghost use Rattle.expansion_model.specs.Sites.{is_use, use_at, local_sites, before_use, own_sites, one_if, is_member, count_members, members_in, sites_before, sites_behind, item_sites, block_sites, items_sites, sites_of, members_of};

use crate::attributes::{put_attributes, put_role};
use crate::macros::macro_of;
use crate::site::{Site, SiteKind, UseKind};
use crate::slices::{add, behind, front, text_at};
use crate::uses::{OF_EXPRESSION, fault_at, use_site};
use macro_decls::MacroTable;
use std::alloc::{AllocError, Global};
use swift_base::Plugin;
use swift_tree::{Attr, Block, BlockShape, Item, Kind, MacroUse, Outline};
use unique_names::Role;

fn is_use(kind: Kind) -> bool
    ensures { result ≡ is_use kind }
{
    matches!(kind, Kind::UseItem)
}

fn use_at(file_scope: bool, kind: Kind) -> UseKind
    ensures { result ≡ use_at file_scope kind }
{
    match kind {
        Kind::UseItem => UseKind {
            role: Role::Declaration,
            file_scope,
        },
        _ => OF_EXPRESSION,
    }
}

fn put_local(
    alloc: Global,
    text: &[u8],
    macros: &MacroTable,
    attribute: &Attr,
    sites: &mut Vec<Site>,
) -> Result<(), AllocError>
    ensures { IfOk result (λ _. sites.new.items ≡ sites.old.items ++ local_sites text.now macros.now attribute.now) }
{
    if macro_of(macros, text, attribute).is_none() {
        return Ok(());
    }
    let name = text_at(text, attribute.name);
    let site = fault_at(alloc, attribute.span.start, SiteKind::LocalAttached, name)?;
    add(sites, site)
}

#[inline(always)]
fn put_locals(
    alloc: Global,
    text: &[u8],
    macros: &MacroTable,
    locals: &[Attr],
    sites: &mut Vec<Site>,
) -> Result<(), AllocError>
    ensures { IfOk result (λ _. sites.new.items ≡ sites.old.items ++ flat_map (local_sites text.now macros.now) locals.now) }
{
    'locals: for attribute in locals {
        put_local(alloc, text, macros, attribute, sites)?;
    }
    Ok(())
}

/// How many of the local attributes begin before the use.
fn before_use(macro_use: MacroUse, locals: &[Attr]) -> usize
    ensures { result ≡ before_use macro_use locals.now }
{
    let mut count = 0;
    'locals: for attribute in locals {
        if attribute.span.start >= macro_use.span.start {
            return count;
        }
        count += 1;
    }
    count
}

/// Uses and local attributes by their offsets.
#[inline(always)]
fn put_own(
    alloc: Global,
    text: &[u8],
    macros: &MacroTable,
    plugins: &[Plugin],
    wanted: UseKind,
    uses: &[MacroUse],
    locals: &[Attr],
    sites: &mut Vec<Site>,
) -> Result<(), AllocError>
    ensures { IfOk result (λ _. sites.new.items
        ≡ sites.old.items ++ own_sites text.now macros.now plugins.now wanted uses.now locals.now) }
{
    let mut rest = locals;
    'uses: for macro_use in uses {
        let count = before_use(*macro_use, rest);
        put_locals(alloc, text, macros, front(rest, count), sites)?;
        let site = use_site(alloc, text, macros, plugins, wanted, *macro_use)?;
        add(sites, site)?;
        rest = behind(rest, count);
    }
    put_locals(alloc, text, macros, rest, sites)
}

/// One for a declaration, none for a macro use.
#[tactic(auto, using(crate::proofs::Parts::member_is))]
fn one_if_member(item: &Item) -> usize
    ensures count { result ≡ one_if (is_member (item_of item.now)) }
    ensures small { result ≤ 1 }
{
    if is_use(item.kind) { 0 } else { 1 }
}

/// The declarations in a row that are no macro uses.
fn count_members(items: &[Item]) -> usize
    ensures { result ≡ count_members (items_of items.now) }
{
    let mut count = 0;
    'items: for item in items {
        count += one_if_member(item);
    }
    count
}

fn members_in(block: &Block) -> usize
    ensures { result ≡ members_in (block_of block.now) }
{
    match block.shape {
        BlockShape::Members => count_members(&block.members),
        BlockShape::Body | BlockShape::Accessors => 0,
    }
}

#[inline(always)]
fn members_of(item: &Item) -> usize
    ensures { result ≡ members_of (item_of item.now) }
{
    match &item.block {
        Some(block) => members_in(block),
        None => 0,
    }
}

/// What is visited of a declaration before its members.
#[inline(always)]
#[tactic(auto, unfolding(crate::specs::Sites::sites_before))]
fn put_before(
    alloc: Global,
    text: &[u8],
    macros: &MacroTable,
    plugins: &[Plugin],
    file_scope: bool,
    item: &Item,
    sites: &mut Vec<Site>,
) -> Result<(), AllocError>
    ensures { IfOk result (λ _. sites.new.items
        ≡ sites.old.items ++ sites_before text.now macros.now plugins.now file_scope (carrier item.now) (members_of (item_of item.now))) }
{
    let members = members_of(item);
    put_attributes(alloc, text, macros, plugins, item, sites)?;
    put_role(
        text,
        macros,
        plugins,
        item,
        Role::MemberAttribute,
        members,
        sites,
    )?;
    put_role(text, macros, plugins, item, Role::Accessor, 1, sites)?;
    let (uses, locals) = (item.further.uses(), item.further.locals());
    put_own(
        alloc,
        text,
        macros,
        plugins,
        use_at(file_scope, item.kind),
        uses,
        locals,
        sites,
    )
}

/// What is visited of it behind them.
#[inline(always)]
#[tactic(auto, unfolding(crate::specs::Sites::sites_behind))]
fn put_behind(
    text: &[u8],
    macros: &MacroTable,
    plugins: &[Plugin],
    item: &Item,
    sites: &mut Vec<Site>,
) -> Result<(), AllocError>
    ensures { IfOk result (λ _. sites.new.items
        ≡ sites.old.items ++ sites_behind text.now macros.now plugins.now (carrier item.now)) }
{
    put_role(text, macros, plugins, item, Role::Member, 1, sites)?;
    put_role(text, macros, plugins, item, Role::Peer, 1, sites)?;
    put_role(text, macros, plugins, item, Role::Extension, 1, sites)
}

#[cycle(visits)]
fn put_item(
    alloc: Global,
    text: &[u8],
    macros: &MacroTable,
    plugins: &[Plugin],
    file_scope: bool,
    item: &Item,
    sites: &mut Vec<Site>,
) -> Result<(), AllocError>
    ensures { IfOk result (λ _. sites.new.items
        ≡ sites.old.items ++ item_sites text.now macros.now plugins.now file_scope (item_of item.now)) }
{
    put_before(alloc, text, macros, plugins, file_scope, item, sites)?;
    match &item.block {
        Some(block) => {
            put_block(alloc, text, macros, plugins, block, sites)?;
            put_behind(text, macros, plugins, item, sites)?;
            Ok(())
        }
        None => {
            put_behind(text, macros, plugins, item, sites)?;
            Ok(())
        }
    }
}

/// Only a block of members has members.
#[cycle(visits)]
fn put_block(
    alloc: Global,
    text: &[u8],
    macros: &MacroTable,
    plugins: &[Plugin],
    block: &Block,
    sites: &mut Vec<Site>,
) -> Result<(), AllocError>
    ensures { IfOk result (λ _. sites.new.items
        ≡ sites.old.items ++ block_sites text.now macros.now plugins.now (block_of block.now)) }
{
    match block.shape {
        BlockShape::Members => {
            put_items(alloc, text, macros, plugins, false, &block.members, sites)?;
            Ok(())
        }
        BlockShape::Body | BlockShape::Accessors => Ok(()),
    }
}

#[cycle(visits)]
fn put_items(
    alloc: Global,
    text: &[u8],
    macros: &MacroTable,
    plugins: &[Plugin],
    file_scope: bool,
    items: &[Item],
    sites: &mut Vec<Site>,
) -> Result<(), AllocError>
    ensures { IfOk result (λ _. sites.new.items
        ≡ sites.old.items ++ items_sites text.now macros.now plugins.now file_scope (items_of items.now)) }
{
    'items: for item in items {
        put_item(alloc, text, macros, plugins, file_scope, item, sites)?;
    }
    Ok(())
}

/// The sites of an outline in the order of their visits, at file scope or in a block.
#[tactic(auto, unfolding(crate::specs::Sites::sites_of))]
pub fn sites_of(
    alloc: Global,
    macros: &MacroTable,
    plugins: &[Plugin],
    file_scope: bool,
    outline: &Outline,
) -> Result<Vec<Site>, AllocError>
    ensures { IfOk result (λ sites. sites.items ≡ sites_of macros.now plugins.now file_scope (outline_of outline.now)) }
{
    let mut sites = Vec::new(alloc);
    let text = outline.text.bytes();
    let items = &outline.items;
    put_items(alloc, text, macros, plugins, file_scope, items, &mut sites)?;
    let (uses, locals) = (outline.uses.items(), outline.locals.items());
    put_own(
        alloc,
        text,
        macros,
        plugins,
        OF_EXPRESSION,
        uses,
        locals,
        &mut sites,
    )?;
    Ok(sites)
}
