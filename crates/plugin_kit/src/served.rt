// How the serving of a stream came to its end.
ghost use Rattle.std.specs.Prelude.{◌≡◌};
ghost use Rattle.plugin_kit.specs.Served.{status_of};

use plugin_messages::Reason;

/// Why serving stopped. Requests before the stop were answered, in order, each once.
#[derive(Clone, Debug, PartialEq, Drop)]
pub enum Served {
    /// The input ended after a whole frame, or was empty.
    Ended { requests: u64 },
    /// The input ended inside a frame.
    Cut { requests: u64 },
    /// A read failed.
    ReadFault,
    /// A write failed.
    WriteFault,
    /// A header spells this length, in bytes, which is above the limit of frames.
    TooLong(u64),
    /// The payload of this number, from 0, is no request.
    BadRequest { place: u64, reason: Reason },
    /// More than `MOST_BYTES` were taken.
    Overrun,
    /// Want of memory.
    Memory,
}

impl Served {
    /// The status with which a plug-in ends.
    pub fn status(&self) -> u8
        ensures { result ≡ status_of self.now }
    {
        match self {
            Served::Ended { requests: _ } => 0,
            Served::Cut { requests: _ } => 1,
            Served::ReadFault => 3,
            Served::WriteFault => 4,
            Served::Memory => 5,
            Served::TooLong(_) => 6,
            Served::BadRequest {
                place: _,
                reason: _,
            } => 7,
            Served::Overrun => 8,
        }
    }
}
