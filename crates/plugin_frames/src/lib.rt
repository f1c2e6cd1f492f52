//! The frames in which swift-syntax's plug-ins speak: a length as eight bytes, the lowest first, and then the payload.
//! A `FrameReader` is fed a stream in pieces and gives out its payloads; they are those of the whole, however it was cut.
//! What a payload says is left to whoever takes it, and so is what a rest at the end of the stream means.
#![tactic(auto)]

mod cutting;
mod heading;
mod laws;
mod reader;
mod refusal;

pub use heading::{LARGEST_PAYLOAD, header};
pub use laws::{frames_are_read, frames_go_on, one_reading};
pub use reader::FrameReader;
pub use refusal::{FrameFault, Refusal};

#[cfg(test)]
mod tests;
