// Diagnostics and their notes, whose labels passed their check.
ghost use Rattle.std.specs.Prelude.{◌≡◌, [], ◌∷◌, ◌++◌, map, IfOk};
ghost use Rattle.std.specs.List.{All};
ghost use Rattle.serde_json.specs.View.{view};
ghost use Rattle.plugin_messages.specs.Writable.{IsNoteWritable, IsDiagnosticWritable};
ghost use Rattle.plugin_messages.specs.Diagnostics.{note_of, diagnostic_of, diagnostics_of};

use crate::labels;
use crate::message::{Diagnostic, Note};
use crate::reading::fields::{inside, items_at, offset_at, severity_at, text_at};
use serde_json::Value;
use std::alloc::{AllocError, Global};
use swift_base::Listed;

#[tactic(auto, unfolding(crate::specs::Diagnostics::note_of))]
fn note(alloc: Global, value: &Value) -> Result<Note, AllocError>
    ensures note { IfOk result (λ n. n ≡ note_of (view value.now)) }
    ensures writable { IfOk result IsNoteWritable }
{
    let position = inside(value, labels::POSITION);
    Ok(Note {
        message: text_at(alloc, value, labels::MESSAGE)?,
        file_name: text_at(alloc, position, labels::FILE_NAME)?,
        offset: offset_at(position, labels::OFFSET),
    })
}

fn push<T: Drop>(list: &mut Vec<T>, item: T) -> Result<(), AllocError>
    ensures { IfOk result (λ _. list.new.items ≡ list.old.items ++ item ∷ []) }
{
    list.push(item)?;
    Ok(())
}

fn notes(alloc: Global, items: &[Value]) -> Result<Listed<Note>, AllocError>
    ensures notes { IfOk result (λ ns. ns ≡ map note_of (map view items.now)) }
    ensures writable { IfOk result (All IsNoteWritable) }
{
    let mut notes = Vec::new(alloc);
    'notes: for item in items {
        push(&mut notes, note(alloc, item)?)?;
    }
    Ok(Listed::from_vec(notes))
}

#[tactic(auto, unfolding(crate::specs::Diagnostics::diagnostic_of))]
fn diagnostic(alloc: Global, value: &Value) -> Result<Diagnostic, AllocError>
    ensures diagnostic { IfOk result (λ d. d ≡ diagnostic_of (view value.now)) }
    ensures writable { IfOk result IsDiagnosticWritable }
{
    let position = inside(value, labels::POSITION);
    Ok(Diagnostic {
        message: text_at(alloc, value, labels::MESSAGE)?,
        severity: severity_at(value, labels::SEVERITY),
        file_name: text_at(alloc, position, labels::FILE_NAME)?,
        offset: offset_at(position, labels::OFFSET),
        notes: notes(alloc, items_at(value, labels::NOTES))?,
    })
}

fn each_diagnostic(alloc: Global, items: &[Value]) -> Result<Listed<Diagnostic>, AllocError>
    ensures diagnostics { IfOk result (λ ds. ds ≡ map diagnostic_of (map view items.now)) }
    ensures writable { IfOk result (All IsDiagnosticWritable) }
{
    let mut diagnostics = Vec::new(alloc);
    'diagnostics: for item in items {
        push(&mut diagnostics, diagnostic(alloc, item)?)?;
    }
    Ok(Listed::from_vec(diagnostics))
}

#[tactic(auto, unfolding(crate::specs::Diagnostics::diagnostics_of))]
pub(crate) fn diagnostics(alloc: Global, value: &Value) -> Result<Listed<Diagnostic>, AllocError>
    ensures diagnostics { IfOk result (λ ds. ds ≡ diagnostics_of (view value.now)) }
    ensures writable { IfOk result (All IsDiagnosticWritable) }
{
    each_diagnostic(alloc, items_at(value, labels::DIAGNOSTICS))
}
