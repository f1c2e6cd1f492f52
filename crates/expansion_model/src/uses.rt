// What stands at a macro use.
ghost use Rattle.std.specs.Prelude.{◌≡◌, IfOk};
ghost use Rattle.expansion_model.specs.Uses.{fault_at, target_of, request_at, served_use, use_site};

use crate::macros::{has_plugin, has_role};
use crate::site::{Ask, Site, SiteFault, SiteKind, UseKind};
use crate::slices::text_at;
use macro_decls::{MacroDecl, MacroTable};
use plugin_messages::MacroRef;
use std::alloc::{AllocError, Global};
use swift_base::{Plugin, Text};
use swift_tree::MacroUse;
use unique_names::Role;

pub fn fault_at(alloc: Global, at: u32, kind: SiteKind, name: &[u8]) -> Result<Site, AllocError>
    ensures { IfOk result (λ site. site ≡ fault_at at kind name.now) }
{
    let name = Text::from_bytes(alloc, name)?;
    Ok(Site::Fault(SiteFault { at, kind, name }))
}

fn target_of(
    alloc: Global,
    text: &[u8],
    macro_use: MacroUse,
    declared: &MacroDecl,
) -> Result<MacroRef, AllocError>
    ensures { IfOk result (λ target. target ≡ target_of text.now macro_use declared.now) }
{
    let module = Text::from_bytes(alloc, declared.module_name.bytes())?;
    let type_name = Text::from_bytes(alloc, declared.type_name.bytes())?;
    let name = Text::from_bytes(alloc, text_at(text, macro_use.name))?;
    Ok(MacroRef {
        module,
        type_name,
        name,
    })
}

fn request_at(
    alloc: Global,
    text: &[u8],
    wanted: UseKind,
    macro_use: MacroUse,
    declared: &MacroDecl,
) -> Result<Site, AllocError>
    ensures { IfOk result (λ site. site ≡ request_at text.now wanted macro_use declared.now) }
{
    let target = target_of(alloc, text, macro_use, declared)?;
    Ok(Site::Asks(Ask {
        macro_use,
        target,
        stands_for: wanted,
    }))
}

fn served_use(
    alloc: Global,
    text: &[u8],
    plugins: &[Plugin],
    wanted: UseKind,
    macro_use: MacroUse,
    declared: &MacroDecl,
) -> Result<Site, AllocError>
    ensures { IfOk result (λ site. site ≡ served_use text.now plugins.now wanted macro_use declared.now) }
{
    let module = declared.module_name.bytes();
    if !has_plugin(module, plugins) {
        return fault_at(alloc, macro_use.span.start, SiteKind::NoPlugin, module);
    }
    request_at(alloc, text, wanted, macro_use, declared)
}

/// A use that stands for an expression.
pub const OF_EXPRESSION: UseKind = UseKind {
    role: Role::Expression,
    file_scope: false,
};

/// What stands at a use, where a macro for this is wanted.
#[tactic(auto, unfolding(crate::specs::Uses::use_site))]
pub fn use_site(
    alloc: Global,
    text: &[u8],
    macros: &MacroTable,
    plugins: &[Plugin],
    wanted: UseKind,
    macro_use: MacroUse,
) -> Result<Site, AllocError>
    ensures { IfOk result (λ site. site ≡ use_site text.now macros.now plugins.now wanted macro_use) }
{
    let (at, name) = (macro_use.span.start, text_at(text, macro_use.name));
    let Some(declared) = macros.find(name) else {
        return fault_at(alloc, at, SiteKind::UnknownMacro, name);
    };
    if !has_role(wanted.role, declared) {
        return fault_at(alloc, at, SiteKind::WrongRole, name);
    }
    served_use(alloc, text, plugins, wanted, macro_use, declared)
}
