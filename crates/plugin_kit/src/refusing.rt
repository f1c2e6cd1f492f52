// Replies without a text, and with one error.
ghost use Rattle.std.specs.Prelude.{◌≡◌, IfOk, [], ◌∷◌};
ghost use Rattle.std.specs.Str.{IsUtf8};
ghost use Rattle.plugin_messages.specs.Writable.{WhereSome, IsLocationWritable, IsDiagnosticWritable, IsMacroWritable, ArePartsWritable, IsHostWritable, IsPluginWritable};
ghost use Rattle.plugin_kit.specs.Refusing.{location_of, asked_location, error_at, refusal_of, no_macro_text};

use plugin_messages::{
    Diagnostic, HostMessage, Location, MacroRef, Parts, PluginMessage, Severity,
};
use std::alloc::{AllocError, Global};
use swift_base::{Listed, Text};

// An error at a location, or at none.
fn error(
    alloc: Global,
    location: &Option<Location>,
    message: &[u8],
) -> Result<Diagnostic, AllocError>
    ensures error { IfOk result (λ d. d ≡ error_at location.now message.now) }
    ensures writable { WhereSome IsLocationWritable location.now → IsUtf8 message.now → IfOk result IsDiagnosticWritable }
{
    let message = Text::from_bytes(alloc, message)?;
    let notes = Listed::from_vec(Vec::new(alloc));
    match location {
        Some(location) => Ok(Diagnostic {
            message,
            severity: Severity::Error,
            file_name: location.file_name.clone()?,
            offset: u64::from(location.offset),
            notes,
        }),
        None => Ok(Diagnostic {
            message,
            severity: Severity::Error,
            file_name: Text::from_vec(Vec::new(alloc)),
            offset: 0,
            notes,
        }),
    }
}

fn error_in(alloc: Global, parts: &Parts, message: &[u8]) -> Result<Diagnostic, AllocError>
    ensures error { IfOk result (λ d. d ≡ error_at (location_of parts.now) message.now) }
    ensures writable { ArePartsWritable parts.now → IsUtf8 message.now → IfOk result IsDiagnosticWritable }
{
    match parts {
        Parts::Freestanding { syntax } => error(alloc, &syntax.location, message),
        Parts::Attached {
            attribute: _,
            decl,
            parent: _,
            extended: _,
            conformances: _,
        } => error(alloc, &decl.location, message),
    }
}

fn error_for(alloc: Global, asked: &HostMessage, message: &[u8]) -> Result<Diagnostic, AllocError>
    ensures error { IfOk result (λ d. d ≡ error_at (asked_location asked.now) message.now) }
    ensures writable { IsHostWritable asked.now → IsUtf8 message.now → IfOk result IsDiagnosticWritable }
{
    match asked {
        HostMessage::Expand {
            target: _,
            role: _,
            discriminator: _,
            parts,
        } => error_in(alloc, parts, message),
        HostMessage::GetCapability { version: _ } => error(alloc, &None, message),
        HostMessage::LoadLibrary { path: _, module: _ } => error(alloc, &None, message),
    }
}

/// The reply without a text and with one error, which stands at the use, or at the declaration with the attribute,
/// that is to be expanded. Where that has no location, or nothing is to be expanded, the file name is empty and the
/// offset 0.
#[tactic(auto, unfolding(crate::specs::Refusing::refusal_of))]
pub fn refusal(
    alloc: Global,
    asked: &HostMessage,
    message: &[u8],
) -> Result<PluginMessage, AllocError>
    ensures reply { IfOk result (λ reply. reply ≡ refusal_of asked.now message.now) }
    ensures writable { IsHostWritable asked.now → IsUtf8 message.now → IfOk result IsPluginWritable }
{
    let mut diagnostics = Vec::new(alloc);
    diagnostics.push(error_for(alloc, asked, message)?)?;
    Ok(PluginMessage::Result {
        text: None,
        diagnostics: Listed::from_vec(diagnostics),
    })
}
/// The text of the error where a plug-in has no such macro.
#[tactic(auto, unfolding(crate::specs::Refusing::no_macro_text))]
pub(crate) fn no_macro(alloc: Global, target: &MacroRef) -> Result<Vec<u8>, AllocError>
    ensures text { IfOk result (λ text. text.items ≡ no_macro_text target.now) }
    ensures utf8 { IsMacroWritable target.now → IfOk result (λ text. IsUtf8 text.items) }
{
    let mut text = Vec::from_slice(alloc, b"no macro ")?;
    text.extend_from_slice(target.module.bytes())?;
    text.extend_from_slice(b".")?;
    text.extend_from_slice(target.type_name.bytes())?;
    text.extend_from_slice(b" in this plug-in")?;
    Ok(text)
}
