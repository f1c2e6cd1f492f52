// The answer for a source and a table of outcomes.
use crate::message::Message;
use swift_base::{Listed, Text};

/// How many requests are asked for one source.
pub const MOST_REQUESTS: usize = 65_536;

/// Which limit was met: more requests than are asked, or more bytes of the plug-ins than are read.
#[derive(Clone, Copy, PartialEq, Eq, Debug)]
pub enum LimitKind {
    Requests,
    Bytes,
}

/// The expanded file, or all messages in the order of the visits, or a limit.
#[derive(Debug, Drop)]
pub enum Answer {
    File(Text),
    Faults(Listed<Message>),
    Limit(LimitKind),
}
