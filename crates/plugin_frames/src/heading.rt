//! The eight bytes before a payload.

ghost use Rattle.std.specs.Prelude.{◌≡◌};
ghost use Rattle.plugin_frames.specs.Frames.{header_of, spelled};

/// How many bytes a payload has at most.
pub const LARGEST_PAYLOAD: u64 = 16_777_216;

/// The header of a payload of `len` bytes.
#[tactic(auto, unfolding(crate::specs::Frames::header_of))]
pub fn header(len: u64) -> [u8; 8]
    ensures bytes { result ≡ header_of len }
    ensures spells { spelled result ≡ len }
{
    len.to_le_bytes()
}
