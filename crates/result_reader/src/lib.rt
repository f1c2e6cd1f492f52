//! What a macro's reply is read as, by its role (SE-0389, SE-0397).
//! A caller may rely on `read_result` answering the one outcome that `reading_of` gives, want of memory aside.
//! Where the reply is put is left to the caller.
#![tactic(auto)]

mod fault;
mod fit;
mod laws;
mod names;
mod reading;
#[cfg(test)]
mod tests;

pub use fault::{ResultFault, ResultKind};
pub use laws::{names_are_the_macros, outline_is_the_replys};
pub use reading::{Reading, read_result};
