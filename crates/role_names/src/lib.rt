//! The names that a macro may make by the `names:` list of its role (SE-0389), and the names that a declaration
//! declares.
//! A caller may rely on `covers` deciding whether one of the five rules covers a name, and on `declared_names` giving
//! the names of the definition in order.
//! Which roles have their names checked, and with which attached name, is left to the reading of a reply.
#![tactic(auto)]

mod covering;
mod declaring;
mod rule;
#[cfg(test)]
mod tests;

pub use covering::{covered_names_are_decided, covers};
pub use declaring::declared_names;
pub use rule::{NameList, NameRule};
