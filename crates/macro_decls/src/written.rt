// Macros and the attributes that give them roles, as they are written.
use crate::external::External;
use role_names::NameList;
use swift_base::{Listed, Text};
use unique_names::Role;

/// An attribute that gives a role: the offset of its `@`, whether it is `@freestanding`, and its arguments; what is
/// `None` of these can't be read.
#[derive(Debug, Drop)]
pub struct RoleWritten {
    pub at: u32,
    pub freestanding: bool,
    pub role: Option<Role>,
    pub names: Option<NameList>,
    pub conformances: Option<Listed<Text>>,
}

/// A macro: the number of its outline, its name and the offset of that, and its attributes that give roles.
#[derive(Debug, Drop)]
pub struct MacroWritten {
    pub outline: u32,
    pub at: u32,
    pub name: Text,
    pub roles: Listed<RoleWritten>,
    pub external: Option<External>,
}
