// Edits of a text, and their order.
ghost use Rattle.std.specs.Prelude.{◌≡◌, IfOk};
ghost use Rattle.result_splice.specs.Edits.{rank, ordered};

use std::alloc::AllocError;
use swift_base::Text;

/// Bytes in the place of those from `start` to `end`, offsets in bytes from 0, `end` exclusive.
/// Where the two are equal, the bytes are put in there.
#[derive(Debug, Drop)]
pub struct Edit {
    pub start: u32,
    pub end: u32,
    pub bytes: Text,
}

pub(crate) fn in_order(edits: Vec<Edit>) -> Result<Vec<Edit>, AllocError>
    ensures { IfOk result (λ sorted. sorted.items ≡ ordered edits.items) }
{
    let mut sorted = edits;
    sorted.sort_by_key(|edit| rank(edit))?;
    Ok(sorted)
}

fn rank(edit: &Edit) -> u64
    ensures { result ≡ rank edit.now }
{
    let begins = 2 * u64::from(edit.start);
    if edit.start == edit.end {
        begins
    } else {
        begins + 1
    }
}
