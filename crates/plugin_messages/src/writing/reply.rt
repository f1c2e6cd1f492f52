// What a plug-in sends, as JSON.
ghost use Rattle.std.specs.Prelude.{◌≡◌, ◌^◌, ◌<◌, [], ◌∷◌, ◌++◌, map, IfOk, option_map};
ghost use Rattle.std.specs.Str.{IsUtf8};
ghost use Rattle.std.specs.List.{All};
ghost use Rattle.serde_json.specs.Data.{string};
ghost use Rattle.serde_json.specs.View.{view};
ghost use Rattle.plugin_messages.specs.Writable.{WhereSome, IsNoteWritable, IsDiagnosticWritable, IsPluginWritable};
ghost use Rattle.plugin_messages.specs.Written.{array_of, position_data, note_data, diagnostic_data};
ghost use Rattle.plugin_messages.specs.ReplyBytes.{reply_data, loading_data, plugin_data};

use crate::labels;
use crate::message::{Diagnostic, Note, PluginMessage};
use crate::table::Shape;
use crate::writing::fields::{capability, case, object, push, text, word};
use serde_json::Value;
use std::alloc::{AllocError, Global};
use swift_base::{Listed, Text};

fn position(alloc: Global, file_name: &Text, offset: u64) -> Result<Value, AllocError>
    requires { IsUtf8 file_name.now }
    ensures { IfOk result (λ v. view v ≡ position_data file_name.now offset) }
{
    let values = vec![in alloc; Some(text(alloc, file_name)?), Some(Value::from(offset))]?;
    object(alloc, Shape::Position, values)
}

fn note(alloc: Global, note: &Note) -> Result<Value, AllocError>
    requires { IsNoteWritable note.now }
    ensures { IfOk result (λ v. view v ≡ note_data note.now) }
{
    let values = vec![in alloc;
        Some(text(alloc, &note.message)?),
        Some(position(alloc, &note.file_name, note.offset)?),
    ]?;
    object(alloc, Shape::Note, values)
}

fn notes(alloc: Global, notes: &[Note]) -> Result<Value, AllocError>
    requires { All IsNoteWritable notes.now }
    ensures { IfOk result (λ v. view v ≡ array_of note_data notes.now) }
{
    let mut items = Vec::new(alloc);
    'notes: for item in notes {
        push(&mut items, note(alloc, item)?)?;
    }
    Ok(Value::Array(items))
}

#[tactic(auto, using(crate::proofs::Arrays::view_empty))]
fn diagnostic(alloc: Global, diagnostic: &Diagnostic) -> Result<Value, AllocError>
    requires { IsDiagnosticWritable diagnostic.now }
    ensures { IfOk result (λ v. view v ≡ diagnostic_data diagnostic.now) }
{
    let values = vec![in alloc;
        Some(text(alloc, &diagnostic.message)?),
        Some(word(alloc, diagnostic.severity.text())?),
        Some(position(alloc, &diagnostic.file_name, diagnostic.offset)?),
        Some(Value::Array(Vec::new(alloc))),
        Some(notes(alloc, diagnostic.notes.items())?),
        Some(Value::Array(Vec::new(alloc))),
    ]?;
    object(alloc, Shape::Diagnostic, values)
}

fn diagnostics(alloc: Global, diagnostics: &[Diagnostic]) -> Result<Value, AllocError>
    requires { All IsDiagnosticWritable diagnostics.now }
    ensures { IfOk result (λ v. view v ≡ array_of diagnostic_data diagnostics.now) }
{
    let mut items = Vec::new(alloc);
    'diagnostics: for item in diagnostics {
        push(&mut items, diagnostic(alloc, item)?)?;
    }
    Ok(Value::Array(items))
}

fn text_if(alloc: Global, found: &Option<Text>) -> Result<Option<Value>, AllocError>
    requires { WhereSome IsUtf8 found.now }
    ensures { IfOk result (λ v. option_map view v ≡ option_map string found.now) }
{
    match found {
        Some(found) => Ok(Some(text(alloc, found)?)),
        None => Ok(None),
    }
}

fn reply(alloc: Global, text: &Option<Text>, list: &Listed<Diagnostic>) -> Result<Value, AllocError>
    requires text { WhereSome IsUtf8 text.now }
    requires list { All IsDiagnosticWritable list.now }
    ensures { IfOk result (λ v. view v ≡ reply_data text.now list.now) }
{
    let values = vec![in alloc;
        text_if(alloc, text)?,
        Some(diagnostics(alloc, list.items())?),
    ]?;
    object(alloc, Shape::Reply, values)
}

fn loading(alloc: Global, loaded: bool, list: &Listed<Diagnostic>) -> Result<Value, AllocError>
    requires { All IsDiagnosticWritable list.now }
    ensures { IfOk result (λ v. view v ≡ loading_data loaded list.now) }
{
    let values = vec![in alloc;
        Some(Value::Bool(loaded)),
        Some(diagnostics(alloc, list.items())?),
    ]?;
    object(alloc, Shape::Loading, values)
}

#[tactic(auto, unfolding(crate::specs::ReplyBytes::plugin_data))]
pub(crate) fn plugin_value(alloc: Global, message: &PluginMessage) -> Result<Value, AllocError>
    requires { IsPluginWritable message.now }
    ensures { IfOk result (λ v. view v ≡ plugin_data message.now) }
{
    match message {
        PluginMessage::Capability { version } => {
            case(
                alloc,
                labels::GET_CAPABILITY_RESULT,
                capability(alloc, *version)?,
            )
        }
        PluginMessage::Result { text, diagnostics } => {
            case(
                alloc,
                labels::EXPAND_MACRO_RESULT,
                reply(alloc, text, diagnostics)?,
            )
        }
        PluginMessage::Loaded {
            loaded,
            diagnostics,
        } => {
            case(
                alloc,
                labels::LOAD_PLUGIN_LIBRARY_RESULT,
                loading(alloc, *loaded, diagnostics)?,
            )
        }
    }
}
