// Texts as Swift string literals.
ghost use Rattle.std.specs.Prelude.{◌≡◌, ◌++◌, IfOk, OnOk};
ghost use Rattle.sample_macros.specs.Samples.{escaped_byte, escaped, stringified};

use std::alloc::{AllocError, Global};

/// `(A, "E")`: the argument, and its text as a string literal.
#[tactic(auto, unfolding(crate::specs::Samples::stringified))]
pub fn stringified(alloc: Global, argument: &[u8]) -> Result<Vec<u8>, AllocError>
    ensures { IfOk result (λ v. v.items ≡ stringified argument.now) }
{
    let mut text = Vec::from_slice(alloc, b"(")?;
    text.extend_from_slice(argument)?;
    text.extend_from_slice(b", \"")?;
    push_escaped(&mut text, argument)?;
    text.extend_from_slice(b"\")")?;
    Ok(text)
}

// The bytes as they are written between the quotes of a string literal.
fn push_escaped(text: &mut Vec<u8>, bytes: &[u8]) -> Result<(), AllocError>
    ensures { OnOk result (text.new.items ≡ text.old.items ++ escaped bytes.now) }
{
    'bytes: for byte in bytes {
        push_byte(text, *byte)?;
    }
    Ok(())
}

fn push_byte(text: &mut Vec<u8>, byte: u8) -> Result<(), AllocError>
    ensures { OnOk result (text.new.items ≡ text.old.items ++ escaped_byte byte) }
{
    match byte {
        b'\\' | b'"' => text.extend_from_slice(&[b'\\', byte])?,
        b'\n' => text.extend_from_slice(b"\\n")?,
        b'\r' => text.extend_from_slice(b"\\r")?,
        _ => text.push(byte)?,
    }
    Ok(())
}
