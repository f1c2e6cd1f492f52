//! The top call: it reads a source and its macros, asks their plug-ins, and writes the expanded file or a list of faults.
//! A caller may rely on the clauses of `run`, which speak of all that files, streams and processes tell.
//! What these really are is left to the caller's implementations of the traits of `swift_base`.
#![tactic(auto)]

mod asking;
mod command;
mod driver;
mod ended;
mod faults;
mod meaning;
mod report;
mod slices;
mod texts;

pub use command::Command;
pub use driver::{LARGEST_SOURCE, run};
pub use ended::{Ended, Inputs, SourceRead};
pub use expansion_model::MOST_REQUESTS;
pub use link_driver::{Closed, MOST_BYTES, Stop, Unstarted};

#[cfg(test)]
mod tests;
