// What stands at the attributes of a declaration.
ghost use Rattle.std.specs.Prelude.{◌≡◌, ◌++◌, ◌∷◌, [], map, replicate, option_copied, IfOk};
ghost use Rattle.std.specs.List.{flat_map, list_any};
ghost use Rattle.expansion_model.specs.Macros.{fits};
ghost use Rattle.expansion_model.specs.Uses.{of_expression, use_site};
ghost use Rattle.expansion_model.specs.declared.site.Site.TheVariants as Site;
ghost use Rattle.expansion_model.specs.Attributes.{carrier, has_one_name, has_body, variable_fault, place_fault, plugin_fault, fitting_fault, role_fault, first_fault, attribute_fault, named_by, macro_site, attribute_by, attribute_sites, is_none, asks_macro, asks_role, role_requests, role_sites};

use crate::macros::{fits, has_plugin, has_role, macro_of};
use crate::site::{Site, SiteKind};
use crate::slices::add;
use crate::uses::{OF_EXPRESSION, fault_at, use_site};
use macro_decls::{MacroDecl, MacroTable, RoleDecl};
use std::alloc::{AllocError, Global};
use swift_base::Plugin;
use swift_tree::{Attr, Binding, BlockShape, Item, Kind, MacroUse};
use unique_names::Role;

/// Exactly one binding, of exactly one name.
fn has_one_name(bindings: &[Binding]) -> bool
    ensures { result ≡ has_one_name bindings.now }
{
    match bindings {
        [binding] => binding.names.items().len() == 1,
        _ => false,
    }
}

fn has_body(item: &Item) -> bool
    ensures { result ≡ has_body (carrier item.now).shape }
{
    match &item.block {
        Some(block) => matches!(block.shape, BlockShape::Body),
        None => false,
    }
}

fn variable_fault(item: &Item) -> Option<SiteKind>
    ensures { result ≡ variable_fault (carrier item.now) }
{
    if !has_one_name(item.bindings.items()) {
        return Some(SiteKind::NotOneBinding);
    }
    if has_body(item) {
        return Some(SiteKind::AccessorOnBody);
    }
    None
}

fn place_fault(own: Role, item: &Item) -> Option<SiteKind>
    ensures { result ≡ place_fault own (carrier item.now) }
{
    match own {
        Role::Accessor => variable_fault(item),
        _ => None,
    }
}

fn plugin_fault(plugins: &[Plugin], declared: &MacroDecl) -> Option<SiteKind>
    ensures { result ≡ plugin_fault plugins.now declared.now }
{
    if has_plugin(declared.module_name.bytes(), plugins) {
        return None;
    }
    Some(SiteKind::NoPlugin)
}

/// The fault of a role that fits.
fn fitting_fault(
    plugins: &[Plugin],
    item: &Item,
    declared: &MacroDecl,
    own: Role,
) -> Option<SiteKind>
    ensures { result ≡ fitting_fault plugins.now (carrier item.now) declared.now own }
{
    place_fault(own, item).or(plugin_fault(plugins, declared))
}

/// A role that doesn't fit isn't asked, and has no fault of its own.
fn role_fault(plugins: &[Plugin], item: &Item, declared: &MacroDecl, own: Role) -> Option<SiteKind>
    ensures { result ≡ role_fault plugins.now (carrier item.now) declared.now own }
{
    if !fits(own, item.kind) {
        return None;
    }
    fitting_fault(plugins, item, declared, own)
}

fn first_fault(
    plugins: &[Plugin],
    item: &Item,
    declared: &MacroDecl,
    roles: &[RoleDecl],
) -> Option<SiteKind>
    ensures { result ≡ first_fault plugins.now (carrier item.now) declared.now roles.now }
{
    let mut rest = roles;
    'roles: while let [own, others @ ..] = rest {
        if let Some(fault) = role_fault(plugins, item, declared, own.role) {
            return Some(fault);
        }
        rest = others;
    }
    None
}

fn any_fits(roles: &[RoleDecl], kind: Kind) -> bool
    ensures { result ≡ list_any (λ own. fits own.role kind) roles.now }
{
    roles.iter().any(|own| fits(own.role, kind))
}

/// The fault of an attribute that names the macro.
fn attribute_fault(plugins: &[Plugin], item: &Item, declared: &MacroDecl) -> Option<SiteKind>
    ensures { result ≡ attribute_fault plugins.now (carrier item.now) declared.now }
{
    let roles = declared.roles.items();
    if !any_fits(roles, item.kind) {
        return Some(SiteKind::WrongRole);
    }
    first_fault(plugins, item, declared, roles)
}

/// A fault names the macro, or the module that has no plug-in.
fn named_by(kind: SiteKind, declared: &MacroDecl) -> &[u8]
    ensures { result.now ≡ named_by kind declared.now }
{
    match kind {
        SiteKind::NoPlugin => declared.module_name.bytes(),
        _ => declared.name.bytes(),
    }
}

fn macro_site(
    alloc: Global,
    attribute: &Attr,
    declared: &MacroDecl,
    fault: Option<SiteKind>,
) -> Result<Site, AllocError>
    ensures { IfOk result (λ site. site ≡ macro_site attribute.now declared.now fault) }
{
    match fault {
        Some(kind) => fault_at(alloc, attribute.span.start, kind, named_by(kind, declared)),
        None => Ok(Site::Attribute(attribute.span)),
    }
}

fn put_argument_uses(
    alloc: Global,
    text: &[u8],
    macros: &MacroTable,
    plugins: &[Plugin],
    uses: &[MacroUse],
    sites: &mut Vec<Site>,
) -> Result<(), AllocError>
    ensures { IfOk result (λ _. sites.new.items
        ≡ sites.old.items ++ map (use_site text.now macros.now plugins.now of_expression) uses.now) }
{
    'uses: for macro_use in uses {
        let site = use_site(alloc, text, macros, plugins, OF_EXPRESSION, *macro_use)?;
        add(sites, site)?;
    }
    Ok(())
}

#[tactic(auto, unfolding(crate::specs::Attributes::attribute_sites))]
fn put_attribute(
    alloc: Global,
    text: &[u8],
    macros: &MacroTable,
    plugins: &[Plugin],
    item: &Item,
    attribute: &Attr,
    sites: &mut Vec<Site>,
) -> Result<(), AllocError>
    ensures { IfOk result (λ _. sites.new.items
        ≡ sites.old.items ++ attribute_sites text.now macros.now plugins.now (carrier item.now) attribute.now) }
{
    match macro_of(macros, text, attribute) {
        Some(declared) => {
            let fault = attribute_fault(plugins, item, declared);
            let site = macro_site(alloc, attribute, declared, fault)?;
            add(sites, site)
        }
        None => {
            let uses = attribute.uses.items();
            put_argument_uses(alloc, text, macros, plugins, uses, sites)
        }
    }
}

/// What stands at the attributes of a declaration.
#[inline(always)]
pub fn put_attributes(
    alloc: Global,
    text: &[u8],
    macros: &MacroTable,
    plugins: &[Plugin],
    item: &Item,
    sites: &mut Vec<Site>,
) -> Result<(), AllocError>
    ensures { IfOk result (λ _. sites.new.items
        ≡ sites.old.items ++ flat_map (attribute_sites text.now macros.now plugins.now (carrier item.now)) (carrier item.now).head.attrs) }
{
    let attributes = item.further.attrs();
    'attributes: for attribute in attributes {
        put_attribute(alloc, text, macros, plugins, item, attribute, sites)?;
    }
    Ok(())
}

/// The macro is asked for the role: it has it, it fits, and has no fault there.
fn asks_macro(plugins: &[Plugin], item: &Item, wanted: Role, declared: &MacroDecl) -> bool
    ensures { result ≡ asks_macro plugins.now (carrier item.now) wanted declared.now }
{
    has_role(wanted, declared)
        && fits(wanted, item.kind)
        && fitting_fault(plugins, item, declared, wanted).is_none()
}

fn asks_role(plugins: &[Plugin], item: &Item, wanted: Role, declared: Option<&MacroDecl>) -> bool
    ensures { result ≡ asks_role plugins.now (carrier item.now) wanted (option_copied declared.entry) }
{
    match declared {
        Some(declared) => asks_macro(plugins, item, wanted, declared),
        None => false,
    }
}

fn put_not_built(at: u32, count: usize, sites: &mut Vec<Site>) -> Result<(), AllocError>
    ensures { IfOk result (λ _. sites.new.items ≡ sites.old.items ++ replicate count (Site.NotBuilt at)) }
{
    let mut left = count;
    'requests: while left > 0 {
        add(sites, Site::NotBuilt(at))?;
        left -= 1;
    }
    Ok(())
}

fn put_requests(
    text: &[u8],
    macros: &MacroTable,
    plugins: &[Plugin],
    item: &Item,
    wanted: Role,
    count: usize,
    attribute: &Attr,
    sites: &mut Vec<Site>,
) -> Result<(), AllocError>
    ensures { IfOk result (λ _. sites.new.items
        ≡ sites.old.items ++ role_requests text.now macros.now plugins.now (carrier item.now) wanted count attribute.now) }
{
    if !asks_role(plugins, item, wanted, macro_of(macros, text, attribute)) {
        return Ok(());
    }
    put_not_built(attribute.span.start, count, sites)
}

/// The requests of a declaration's attributes for one role, `count` each.
#[inline(always)]
#[tactic(auto, unfolding(crate::specs::Attributes::role_sites))]
pub fn put_role(
    text: &[u8],
    macros: &MacroTable,
    plugins: &[Plugin],
    item: &Item,
    wanted: Role,
    count: usize,
    sites: &mut Vec<Site>,
) -> Result<(), AllocError>
    ensures { IfOk result (λ _. sites.new.items
        ≡ sites.old.items ++ role_sites text.now macros.now plugins.now (carrier item.now) wanted count) }
{
    let attributes = item.further.attrs();
    'attributes: for attribute in attributes {
        put_requests(text, macros, plugins, item, wanted, count, attribute, sites)?;
    }
    Ok(())
}
