//! The macros of the sample plug-in.
//! A caller may rely on each macro's reply being the one that `specs/Samples` gives a message, for every message.
//! Which macro is asked, frames and payloads are left to `plugin_kit` and the crates below it.
#![tactic(auto)]

mod argument;
mod func_unique;
mod literal;
mod replies;
mod stringify;

pub use func_unique::FuncUniqueMacro;
pub use stringify::StringifyMacro;

#[cfg(test)]
mod tests;
