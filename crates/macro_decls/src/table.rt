// The table of macros by their names.
ghost use Rattle.std.specs.Prelude.{◌≡◌, ◌++◌, ◌<◌, ◌^◌, ◌∷◌, [], IfOk, None, OnOk, filter_map, length, map, option_map, slice_get};
ghost use Rattle.std.specs.List.{All};
ghost use Rattle.std.specs.Option.{option_copied};
ghost use Rattle.swift_tree.specs.Outlines.{outline_of};
ghost use Rattle.element_marks.specs.Answers.{Answers};
ghost use Rattle.macro_decls.specs.Macros.{IsDeclReadable, declared, declared_by, declaration_named, macros, role_declared, role_declared_by};
ghost use Rattle.macro_decls.specs.Tables.{AreFresh, AreNamed, declarations_in};

use crate::external::External;
use crate::fault::{MacroFault, faults_of};
use crate::roles::written_of;
use crate::written::{MacroWritten, RoleWritten};
use indexmap::IndexMap;
use role_names::NameList;
use std::alloc::{AllocError, Global};
use std::marker::Model;
use swift_base::{Listed, Refusal, Text};
use swift_tree::Outline;
use unique_names::Role;

/// A role of a macro, with what its attribute allows: the names that it may make, and the types to which an
/// extension may conform, each as the texts of its tokens, joined.
#[derive(Debug, Drop)]
pub struct RoleDecl {
    pub role: Role,
    pub names: NameList,
    pub conformances: Listed<Text>,
}

/// A macro: the module and the type that implement it, and its roles in order.
#[derive(Debug, Drop)]
pub struct MacroDecl {
    pub name: Text,
    pub module_name: Text,
    pub type_name: Text,
    pub roles: Listed<RoleDecl>,
}

/// Macros by their names. A contract sees the list of the declarations, in order.
#[derive(Drop)]
pub struct MacroTable {
    declarations: IndexMap<Vec<u8>, MacroDecl>,
}

impl Model for MacroTable {
    ghost use Rattle.std.specs.Prelude.{List};
    ghost use Rattle.macro_decls.specs.declared.table.MacroDecl.{MacroDecl};
    ghost use Rattle.macro_decls.specs.Tables.{AreNamed, declarations_in};

    ghost Value = { List MacroDecl };

    ghost view = { λ t. declarations_in t.declarations.entries };

    ghost invariant = { λ t. AreNamed t.declarations.entries };
}

impl MacroTable {
    /// The macros that outlines declare, members excepted, in order; or the first fault of each faulty declaration.
    pub fn from_outlines(
        alloc: Global,
        outlines: &[&Outline],
    ) -> Result<MacroTable, Refusal<Listed<MacroFault>>>
        requires { length outlines.now < 2 ^ 32 }
        ensures macros { Answers (λ table. table) result (λ outcome. outcome ≡ macros (map (λ outline. outline_of outline.now) outlines.now)) }
        ensures readable { IfOk result (λ table. All IsDeclReadable table) }
    {
        macros(alloc, outlines)
    }

    /// The declaration with this number, from 0.
    pub fn at(&self, index: usize) -> Option<&MacroDecl>
        ensures { option_copied result ≡ slice_get self.now index }
    {
        let (_, declared) = self.declarations.get_index(index)?;
        Some(declared)
    }

    /// The declaration of a name.
    pub fn find(&self, name: &[u8]) -> Option<&MacroDecl>
        ensures { option_copied result ≡ declaration_named name.now self.now }
    {
        self.declarations.get(name)
    }
}

fn role_declared(written: RoleWritten) -> Option<RoleDecl>
    ensures { result ≡ role_declared written }
{
    let RoleWritten {
        at: _,
        freestanding: _,
        role,
        names,
        conformances,
    } = written;
    match (role, names, conformances) {
        (Some(role), Some(names), Some(conformances)) => Some(RoleDecl {
            role,
            names,
            conformances,
        }),
        _ => None,
    }
}

fn roles_declared(alloc: Global, written: Vec<RoleWritten>) -> Result<Vec<RoleDecl>, AllocError>
    ensures { IfOk result (λ roles. roles.items ≡ filter_map role_declared written.items) }
{
    let mut roles = Vec::new(alloc);
    'roles: for one in written {
        if let Some(role) = role_declared(one) {
            roles.push(role)?;
        }
    }
    Ok(roles)
}

// The macro that is declared, where its implementation is named.
fn declared(alloc: Global, written: MacroWritten) -> Result<Option<MacroDecl>, AllocError>
    ensures { IfOk result (λ declaration. declaration ≡ declared written) }
{
    let MacroWritten {
        outline: _,
        at: _,
        name,
        roles,
        external,
    } = written;
    let Some(
        External {
            module_name,
            type_name,
        },
    ) = external
    else {
        return Ok(None);
    };
    let roles = Listed::from_vec(roles_declared(alloc, roles.into_vec())?);
    Ok(Some(MacroDecl {
        name,
        module_name,
        type_name,
        roles,
    }))
}

fn all_declared(alloc: Global, written: Vec<MacroWritten>) -> Result<Vec<MacroDecl>, AllocError>
    ensures { IfOk result (λ declarations. declarations.items ≡ filter_map declared written.items) }
{
    let mut declarations = Vec::new(alloc);
    'macros: for one in written {
        if let Some(declaration) = declared(alloc, one)? {
            declarations.push(declaration)?;
        }
    }
    Ok(declarations)
}

fn put_entry(
    alloc: Global,
    declaration: MacroDecl,
    entries: &mut IndexMap<Vec<u8>, MacroDecl>,
) -> Result<(), AllocError>
    requires named { AreNamed entries.old.entries }
    requires fresh { declaration_named declaration.name (declarations_in entries.old.entries) ≡ None }
    ensures named { OnOk result (AreNamed entries.new.entries) }
    ensures put { OnOk result (declarations_in entries.new.entries ≡ declarations_in entries.old.entries ++ declaration ∷ []) }
{
    let name = Vec::from_slice(alloc, declaration.name.bytes())?;
    entries.insert(name, declaration)?;
    Ok(())
}

// Declarations of distinct names.
fn table_of(alloc: Global, declarations: Vec<MacroDecl>) -> Result<MacroTable, AllocError>
    requires { AreFresh [] declarations.items }
    ensures { IfOk result (λ table. table ≡ declarations.items) }
{
    let mut entries = IndexMap::new(alloc);
    'declarations: for declaration in declarations {
        put_entry(alloc, declaration, &mut entries)?;
    }
    Ok(MacroTable {
        declarations: entries,
    })
}

#[tactic(auto, unfolding(crate::specs::Macros::macros))]
fn macros(alloc: Global, outlines: &[&Outline]) -> Result<MacroTable, Refusal<Listed<MacroFault>>>
    requires { length outlines.now < 2 ^ 32 }
    ensures { Answers (λ table. table) result (λ outcome. outcome ≡ macros (map (λ outline. outline_of outline.now) outlines.now)) }
{
    let written = written_of(alloc, outlines)?;
    let faults = faults_of(alloc, &written)?;
    if !faults.is_empty() {
        return Err(Refusal::Fault(Listed::from_vec(faults)));
    }
    let declarations = all_declared(alloc, written)?;
    Ok(table_of(alloc, declarations)?)
}
