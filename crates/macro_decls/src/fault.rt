// What is wrong with the declaration of a macro.
ghost use Rattle.std.specs.Prelude.{◌≡◌, ◌∷◌, ◌++◌, ◌||◌, [], ℕ, List, IfOk, OnOk, not};
ghost use Rattle.std.specs.Option.{option_copied};
ghost use Rattle.std.specs.Str.{bytes_eq};
ghost use Rattle.indexmap.specs.IndexSet.{contains};
ghost use Rattle.macro_decls.specs.Faults.{at_name, at_role, is_role, any_has_role, is_bad, bad_role, second_freestanding, bad_names, bad_conformances, first_fault, with_fault, is_among, faults_from};

use crate::elements::front;
use crate::written::{MacroWritten, RoleWritten};
use indexmap::IndexSet;
use std::alloc::{AllocError, Global};
use swift_base::Text;
use unique_names::Role;

/// The kinds of fault of a macro's declaration, in the order in which they are looked for.
#[derive(Clone, Copy, PartialEq, Eq, Debug)]
pub enum MacroKind {
    /// An earlier macro has the name.
    Duplicate,
    /// No attribute gives a role.
    NoRole,
    /// An attribute whose first argument is no role for it, or one that an earlier attribute gives.
    BadRole,
    /// A second `@freestanding`.
    BothFreestanding,
    /// What stands behind `names:` is no list of names.
    BadNames,
    /// The arguments behind the role are none that it takes.
    BadConformances,
    /// The implementation isn't named.
    NotExternal,
}

/// The first fault of a macro's declaration. `outline` is the outline's number from 0, `at` the offset in its text
/// in bytes from 0: of the macro's name, or of the attribute at fault.
#[derive(Debug, Drop)]
pub struct MacroFault {
    pub outline: u32,
    pub at: u32,
    pub name: Text,
    pub kind: MacroKind,
}

// A fault by its kind and its place.
#[derive(Clone, Copy)]
pub struct Found {
    pub kind: MacroKind,
    pub at: u32,
}

fn at_name(written: &MacroWritten, kind: MacroKind, wrong: bool) -> Option<Found>
    ensures { result ≡ at_name written.now kind wrong }
{
    if !wrong {
        return None;
    }
    Some(Found {
        kind,
        at: written.at,
    })
}

fn at_role(kind: MacroKind, role: Option<&RoleWritten>) -> Option<Found>
    ensures { result ≡ at_role kind (option_copied role.entry) }
{
    let role = role?;
    Some(Found { kind, at: role.at })
}

fn is_role(role: Role, other: Option<Role>) -> bool
    ensures { result ≡ is_role role other }
{
    match other {
        None => false,
        Some(other) => role as usize == other as usize,
    }
}

fn any_has_role(written: &[RoleWritten], role: Role) -> bool
    ensures { result ≡ any_has_role role written.now }
{
    written.iter().any(|one| is_role(role, one.role))
}

// No role, or one that an earlier attribute gives.
fn is_bad(earlier: &[RoleWritten], role: Option<Role>) -> bool
    ensures { result ≡ is_bad earlier.now role }
{
    match role {
        None => true,
        Some(role) => any_has_role(earlier, role),
    }
}

// The first attribute without a role, or with that of an earlier one.
fn bad_role(roles: &[RoleWritten]) -> Option<&RoleWritten>
    ensures { option_copied result ≡ bad_role [] roles.now }
{
    let mut at = 0;
    'roles: while let Some(role) = roles.get(at) {
        if is_bad(front(roles, at), role.role) {
            return Some(role);
        }
        at += 1;
    }
    None
}

fn second_freestanding(roles: &[RoleWritten]) -> Option<&RoleWritten>
    ensures { option_copied result ≡ second_freestanding roles.now }
{
    let mut passed = false;
    'roles: for one in roles {
        if one.freestanding {
            if passed {
                return Some(one);
            }
            passed = true;
        }
    }
    None
}

fn bad_names(roles: &[RoleWritten]) -> Option<&RoleWritten>
    ensures { option_copied result ≡ bad_names roles.now }
{
    roles.iter().find(|role| role.names.is_none())
}

fn bad_conformances(roles: &[RoleWritten]) -> Option<&RoleWritten>
    ensures { option_copied result ≡ bad_conformances roles.now }
{
    roles.iter().find(|role| role.conformances.is_none())
}

// The first fault of a declaration, by whether its name is an earlier one's.
#[tactic(auto, unfolding(crate::specs::Faults::first_fault))]
fn first_fault(repeated: bool, written: &MacroWritten) -> Option<Found>
    ensures { result ≡ first_fault repeated written.now }
{
    let roles = written.roles.items();
    at_name(written, MacroKind::Duplicate, repeated)
        .or(at_name(written, MacroKind::NoRole, roles.is_empty()))
        .or(at_role(MacroKind::BadRole, bad_role(roles)))
        .or(at_role(MacroKind::BothFreestanding, second_freestanding(roles)))
        .or(at_role(MacroKind::BadNames, bad_names(roles)))
        .or(at_role(MacroKind::BadConformances, bad_conformances(roles)))
        .or(at_name(written, MacroKind::NotExternal, written.external.is_none()))
}

fn put_fault(
    written: &MacroWritten,
    found: Option<Found>,
    faults: &mut Vec<MacroFault>,
) -> Result<(), AllocError>
    ensures { OnOk result (faults.new.items ≡ faults.old.items ++ with_fault written.now found []) }
{
    let Some(found) = found else {
        return Ok(());
    };
    faults.push(MacroFault {
        outline: written.outline,
        at: found.at,
        name: written.name.clone()?,
        kind: found.kind,
    })?;
    Ok(())
}

// Whether the name is a new one, which then is among the others.
fn is_new(names: &mut IndexSet<Text>, name: &Text) -> Result<bool, AllocError>
    ensures new { IfOk result (λ new. new ≡ not (contains bytes_eq names.old name.now)) }
    ensures added { OnOk result ((other : List ℕ) → contains bytes_eq names.new other ≡ (bytes_eq name.now other || contains bytes_eq names.old other)) }
{
    Ok(names.insert(name.clone()?)?)
}

/// The first fault of each faulty declaration.
pub fn faults_of(alloc: Global, written: &[MacroWritten]) -> Result<Vec<MacroFault>, AllocError>
    ensures { IfOk result (λ faults. faults.items ≡ faults_from [] written.now) }
{
    let mut names = IndexSet::new(alloc);
    let mut faults = Vec::new(alloc);
    'macros: for one in written {
        let repeated = !is_new(&mut names, &one.name)?;
        put_fault(one, first_fault(repeated, one), &mut faults)?;
    }
    Ok(faults)
}
