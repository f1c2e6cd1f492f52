//! What a plug-in is made of: macros, a registry that finds the one that is asked for, and the serving of a stream of requests.
//! A caller may rely on the relation between each message and its reply, and on which frames `serve` writes for which bytes.
//! What each macro does is left to the crates of macros, and where the streams come from to the program.
#![tactic(auto)]

mod asking;
mod refusing;
mod registry;
mod served;
mod serving;

pub use asking::{Answers, Macro};
pub use refusing::refusal;
pub use registry::{Entry, PROTOCOL_VERSION, Registry, answer_one};
pub use served::Served;
pub use serving::{MOST_BYTES, serve};

#[cfg(test)]
mod tests;
