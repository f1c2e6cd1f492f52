//! Files, standard streams and child processes behind the traits of `swift_base`: the trusted edge.
//! A caller may rely on the traits' clauses; what a real device holds or has left is told by none of these.
//! All else is left to the operating system: which bytes a pipe carries, and when.
#![tactic(auto)]

mod child;
mod count;
mod files;
mod sink;

pub use child::{ChildSource, ChildStarter};
pub use files::StdFiles;
pub use sink::StdSink;
pub use source::StdSource;

mod source;
#[cfg(test)]
mod tests;
