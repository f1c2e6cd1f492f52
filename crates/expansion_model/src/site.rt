// What stands at a site.

use plugin_messages::MacroRef;
use swift_base::{Span, Text};
use swift_tree::MacroUse;
use unique_names::Role;

/// What a use stands for: the role in which its macro is wanted, and whether that is at file scope, which only
/// declarations are.
#[derive(Clone, Copy, PartialEq, Eq, Debug)]
pub struct UseKind {
    pub role: Role,
    pub file_scope: bool,
}

/// A use that its macro's plug-in is asked for.
#[derive(Debug, PartialEq, Drop)]
pub struct Ask {
    pub macro_use: MacroUse,
    pub target: MacroRef,
    pub stands_for: UseKind,
}

/// Why nothing is asked at a use or at an attribute.
#[derive(Clone, Copy, PartialEq, Eq, Debug)]
pub enum SiteKind {
    /// No macro has the name of the use.
    UnknownMacro,
    /// A local attribute names a macro.
    LocalAttached,
    /// No role of the macro fits the place.
    WrongRole,
    /// An accessor macro stands at a variable that hasn't exactly one binding with exactly one name.
    NotOneBinding,
    /// An accessor macro stands at a variable whose block is no list of accessors.
    AccessorOnBody,
    /// No command is there for the macro's module.
    NoPlugin,
    /// The use stands in the reply to a request for the same macro in the same role, or in a reply within that.
    Recursive,
}

/// A fault at the byte offset of a `#` or `@`; `name` is the macro's, for `NoPlugin` the module's.
#[derive(Debug, PartialEq, Drop)]
pub struct SiteFault {
    pub at: u32,
    pub kind: SiteKind,
    pub name: Text,
}

/// What stands at a macro use or at an attribute that names a macro.
#[derive(Debug, PartialEq, Drop)]
pub enum Site {
    Asks(Ask),
    Fault(SiteFault),
    /// A request of a role that isn't asked yet, at the offset of its `#` or `@`.
    NotBuilt(u32),
    /// An attribute of a macro without a fault, which the expanded file doesn't have.
    Attribute(Span),
}
