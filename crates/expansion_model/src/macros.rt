// What a declared macro may do at a place.
ghost use Rattle.std.specs.Prelude.{◌≡◌, option_copied};
ghost use Rattle.expansion_model.specs.Macros.{macro_of, plugin_for, has_plugin, has_role, is_own_type, has_members, is_variable, may_have_peers, fits};

use crate::slices::text_at;
use macro_decls::{MacroDecl, MacroTable};
use swift_base::Plugin;
use swift_tree::{Attr, Kind};
use unique_names::Role;

/// The macro that an attribute names.
pub fn macro_of<'a>(macros: &'a MacroTable, text: &[u8], attribute: &Attr) -> Option<&'a MacroDecl>
    ensures { option_copied result ≡ macro_of macros.now text.now attribute.now }
{
    if attribute.dotted {
        return None;
    }
    macros.find(text_at(text, attribute.name))
}

/// The plug-in of a module.
pub fn plugin_for<'a>(module_name: &[u8], plugins: &'a [Plugin]) -> Option<&'a Plugin>
    ensures { option_copied result ≡ plugin_for module_name.now plugins.now }
{
    let mut rest = plugins;
    'plugins: while let [first, others @ ..] = rest {
        if first.module.bytes() == module_name {
            return Some(first);
        }
        rest = others;
    }
    None
}

pub fn has_plugin(module_name: &[u8], plugins: &[Plugin]) -> bool
    ensures { result ≡ has_plugin module_name.now plugins.now }
{
    plugin_for(module_name, plugins).is_some()
}

pub fn has_role(wanted: Role, declared: &MacroDecl) -> bool
    ensures { result ≡ has_role wanted declared.now }
{
    declared.roles.items().iter().any(|own| own.role == wanted)
}

fn is_own_type(kind: Kind) -> bool
    ensures { result ≡ is_own_type kind }
{
    matches!(kind, Kind::Struct | Kind::Class | Kind::Enum | Kind::Actor)
}

fn has_members(kind: Kind) -> bool
    ensures { result ≡ has_members kind }
{
    match kind {
        Kind::Protocol | Kind::Extension => true,
        _ => is_own_type(kind),
    }
}

fn is_variable(kind: Kind) -> bool
    ensures { result ≡ is_variable kind }
{
    matches!(kind, Kind::Var)
}

fn may_have_peers(kind: Kind) -> bool
    ensures { result ≡ may_have_peers kind }
{
    !matches!(
        kind,
        Kind::Import | Kind::Operator | Kind::Precedencegroup | Kind::Macro | Kind::UseItem
    )
}

/// Whether the role of an attribute fits a declaration of the kind.
pub fn fits(role: Role, kind: Kind) -> bool
    ensures { result ≡ fits role kind }
{
    match role {
        Role::MemberAttribute | Role::Member => has_members(kind),
        Role::Accessor => is_variable(kind),
        Role::Peer => may_have_peers(kind),
        Role::Extension => is_own_type(kind),
        Role::Expression | Role::Declaration => false,
    }
}
