//! The messages between the expander and its plug-ins: JSON payloads, and the values that they spell.
//! A caller may rely on the definitions of which bytes are written for a message and which message, or first reason, a payload has.
//! Frames, and who is asked when, are left to the crates of frames and sessions.
#![tactic(auto)]

pub mod labels;
mod laws;
mod message;
mod reading;
mod request;
mod table;
#[cfg(test)]
mod tests;
mod writing;

pub use laws::{tables_are_spelled, words_are_spelled, written_messages_are_read_again};
pub use message::{
    Cause, Diagnostic, HostMessage, Note, Outcome, PluginMessage, Reason, Refusal, SEVERITIES,
    Severity,
};
pub use reading::{read_host, read_plugin};
pub use request::{KINDS, Location, MacroRef, Parts, Request, Syntax, SyntaxKind};
pub use writing::{host_of, host_payload, plugin_payload};
