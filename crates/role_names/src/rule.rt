// The list of names in the attribute of a role.

use swift_base::{Listed, Text};

/// One rule of a `names:` list (SE-0389). Its text is that between backquotes where the source has these.
#[derive(Debug, PartialEq, Drop)]
pub enum NameRule {
    /// This name.
    Named(Text),
    /// The name of the attached declaration.
    Overloaded,
    /// The name of the attached declaration behind this text.
    Prefixed(Text),
    /// The name of the attached declaration before this text.
    Suffixed(Text),
    /// Any name.
    Arbitrary,
}

/// The rules of a role's list, in order.
#[derive(Debug, Drop)]
pub struct NameList {
    pub rules: Listed<NameRule>,
}
