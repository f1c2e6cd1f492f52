// The names that declarations declare.
ghost use Rattle.std.specs.Prelude.{◌≡◌, ◌++◌, IfOk, option_map};
ghost use Rattle.swift_tree.specs.Outlines.{block_from, block_of, item_of, items_of, unboxed};
ghost use Rattle.role_names.specs.DeclaredNames.{declared_names, member_names, names_in_row, own_names};

use std::alloc::{AllocError, Global};
use swift_base::Span;
use swift_tree::{Block, BlockShape, Item, Kind};

/// The places of the names that a declaration declares, in order; of an extension those of its members.
#[tactic(auto, using(crate::proofs::Outlines::names_of_extension, crate::proofs::Outlines::names_of_its_own))]
pub fn declared_names(alloc: Global, item: &Item) -> Result<Vec<Span>, AllocError>
    ensures { IfOk result (λ names. names.items ≡ declared_names (item_of item.now)) }
{
    match item.kind {
        Kind::Extension => inner_names(alloc, &item.block),
        _ => Vec::from_slice(alloc, item.names.items()),
    }
}

fn inner_names(alloc: Global, block: &Option<Box<Block>>) -> Result<Vec<Span>, AllocError>
    ensures { IfOk result (λ names. names.items ≡ member_names (block_from (option_map block_of (unboxed block.now)))) }
{
    match block {
        Some(block) => member_names(alloc, block),
        None => Ok(Vec::new(alloc)),
    }
}

#[tactic(auto, using(crate::proofs::Outlines::names_of_members, crate::proofs::Outlines::names_of_other))]
fn member_names(alloc: Global, block: &Block) -> Result<Vec<Span>, AllocError>
    ensures { IfOk result (λ names. names.items ≡ member_names (block_of block.now)) }
{
    match block.shape {
        BlockShape::Members => names_in_row(alloc, &block.members),
        BlockShape::Body | BlockShape::Accessors => Ok(Vec::new(alloc)),
    }
}

fn names_in_row(alloc: Global, items: &[Item]) -> Result<Vec<Span>, AllocError>
    ensures { IfOk result (λ names. names.items ≡ names_in_row (items_of items.now)) }
{
    let mut names = Vec::new(alloc);
    'items: for item in items {
        put_own_names(item, &mut names)?;
    }
    Ok(names)
}

#[tactic(auto, using(crate::proofs::Outlines::own_names_are))]
fn put_own_names(item: &Item, names: &mut Vec<Span>) -> Result<(), AllocError>
    ensures { IfOk result (λ _. names.new.items ≡ names.old.items ++ own_names (item_of item.now)) }
{
    names.extend_from_slice(item.names.items())?;
    Ok(())
}
