//! Texts, places, and the traits by which the expander meets files, pipes and processes.
//! A caller may rely on the traits' clauses: counts of faults never fall, a fault comes only where its count rose.
//! What real devices do is left to `real_links`; the implementations in memory here do it exactly.
#![tactic(auto)]

mod listed;
mod lists;
mod memory;
mod outside;
mod place;
mod plugins;
mod refusal;
mod text;
mod write;

pub use listed::Listed;
pub use lists::{SmallList, ThinList};
pub use memory::{MemFiles, MemScript, MemSink, MemSource, MemStarter};
pub use outside::{FileFault, Files, ReadFault, Sink, Source, StartFault, Starter, WriteFault};
pub use place::{Span, line_column};
pub use plugins::{Plugin, Plugins};
pub use refusal::Refusal;
pub use text::Text;
pub use write::write_all;

#[cfg(test)]
mod tests;
