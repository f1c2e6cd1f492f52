//! The macros that the declarations of outlines declare: their roles, and by what each is implemented.
//! A caller may rely on `MacroTable::from_outlines` answering exactly the table or the faults of the definition
//! `macros`, want of memory aside, and on `find` giving the declaration of a name.
//! What a macro is asked, and what its role and its names allow, is left to the expansion.
#![tactic(auto)]

mod arguments;
mod elements;
mod external;
mod fault;
mod laws;
mod roles;
mod rules;
mod table;
mod written;

pub use fault::{MacroFault, MacroKind};
pub use laws::every_macro_is_declared;
pub use table::{MacroDecl, MacroTable, RoleDecl};

#[cfg(test)]
mod tests;
