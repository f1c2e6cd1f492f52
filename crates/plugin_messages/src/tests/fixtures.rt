// Messages of an exchange.
ghost use Rattle.std.specs.Prelude.{◌≡◌, [], ◌∷◌, IfOk};
ghost use Rattle.std.specs.List.{All};
ghost use Rattle.std.specs.Str.{IsUtf8};
ghost use Rattle.plugin_messages.specs.Writable.{IsNoteWritable, IsDiagnosticWritable, IsSyntaxWritable, IsMacroWritable, ArePartsWritable, IsRequestWritable};

use crate::{Diagnostic, Location, MacroRef, Note, Parts, Request, Severity, Syntax, SyntaxKind};
use std::alloc::{AllocError, Global};
use swift_base::{Listed, Text};
use unique_names::{Key, KeyStep, Role};

pub(super) fn text(alloc: Global, bytes: &str) -> Result<Text, AllocError>
    ensures { IfOk result IsUtf8 }
{
    Text::from_bytes(alloc, bytes.as_bytes())
}

pub(super) fn syntax(
    alloc: Global,
    kind: SyntaxKind,
    source: &str,
    offset: u32,
    line: u32,
    column: u32,
) -> Result<Syntax, AllocError>
    ensures { IfOk result IsSyntaxWritable }
{
    Ok(Syntax {
        kind,
        source: text(alloc, source)?,
        location: Some(Location {
            file_id: text(alloc, "main/r.swift")?,
            file_name: text(alloc, "r.swift")?,
            offset,
            line,
            column,
        }),
    })
}

pub(super) fn macro_of(
    alloc: Global,
    module: &str,
    type_name: &str,
    name: &str,
) -> Result<MacroRef, AllocError>
    ensures { IfOk result IsMacroWritable }
{
    Ok(MacroRef {
        module: text(alloc, module)?,
        type_name: text(alloc, type_name)?,
        name: text(alloc, name)?,
    })
}

pub(super) fn request_of(
    alloc: Global,
    step: KeyStep,
    target: MacroRef,
    parts: Parts,
) -> Result<Request, AllocError>
    requires target { IsMacroWritable target }
    requires parts { ArePartsWritable parts }
    ensures { IfOk result IsRequestWritable }
{
    Ok(Request {
        key: Key {
            steps: Vec::from_slice(alloc, &[step])?,
        },
        target,
        role: step.role,
        parts,
    })
}

pub(super) fn use_syntax(alloc: Global) -> Result<Syntax, AllocError>
    ensures { IfOk result IsSyntaxWritable }
{
    syntax(
        alloc,
        SyntaxKind::Expression,
        "#stringify(a + b)",
        145,
        2,
        9,
    )
}

pub(super) fn unplaced_syntax(alloc: Global) -> Result<Syntax, AllocError>
    ensures { IfOk result IsSyntaxWritable }
{
    Ok(Syntax {
        kind: SyntaxKind::Expression,
        source: text(alloc, "#stringify(a + b)")?,
        location: None,
    })
}

pub(super) fn use_of(alloc: Global, syntax: Syntax) -> Result<Request, AllocError>
    requires { IsSyntaxWritable syntax }
    ensures { IfOk result IsRequestWritable }
{
    let step = KeyStep {
        offset: 145,
        role: Role::Expression,
        member: 0,
    };
    let target = macro_of(alloc, "SampleMacros", "StringifyMacro", "stringify")?;
    request_of(alloc, step, target, Parts::Freestanding { syntax })
}

pub(super) fn attached_parts(alloc: Global) -> Result<Parts, AllocError>
    ensures { IfOk result ArePartsWritable }
{
    let attribute = syntax(alloc, SyntaxKind::Attribute, "@X", 0, 1, 1)?;
    let decl = syntax(alloc, SyntaxKind::Declaration, "@X struct S {}", 0, 1, 1)?;
    let extended = syntax(alloc, SyntaxKind::TypeName, "S", 10, 1, 11)?;
    let conformances = syntax(
        alloc,
        SyntaxKind::Declaration,
        "struct Placeholder: Equatable {}",
        0,
        1,
        1,
    )?;
    Ok(Parts::Attached {
        attribute,
        decl,
        parent: None,
        extended: Some(extended),
        conformances: Some(conformances),
    })
}

pub(super) fn attachment_of(alloc: Global, parts: Parts) -> Result<Request, AllocError>
    requires { ArePartsWritable parts }
    ensures { IfOk result IsRequestWritable }
{
    let step = KeyStep {
        offset: 0,
        role: Role::Extension,
        member: 0,
    };
    request_of(alloc, step, macro_of(alloc, "A", "XMacro", "X")?, parts)
}

pub(super) fn one<T: Drop>(alloc: Global, item: T) -> Result<Listed<T>, AllocError>
    ensures { IfOk result (λ list. list ≡ item ∷ []) }
{
    let mut items = Vec::new(alloc);
    items.push(item)?;
    Ok(Listed::from_vec(items))
}

pub(super) fn note(alloc: Global) -> Result<Note, AllocError>
    ensures { IfOk result IsNoteWritable }
{
    Ok(Note {
        message: text(alloc, "n")?,
        file_name: text(alloc, "g")?,
        offset: 2,
    })
}

pub(super) fn notes(alloc: Global) -> Result<Listed<Note>, AllocError>
    ensures { IfOk result (All IsNoteWritable) }
{
    one(alloc, note(alloc)?)
}

pub(super) fn diagnostic(alloc: Global) -> Result<Diagnostic, AllocError>
    ensures { IfOk result IsDiagnosticWritable }
{
    let notes = notes(alloc)?;
    Ok(Diagnostic {
        message: text(alloc, "m")?,
        severity: Severity::Remark,
        file_name: text(alloc, "f")?,
        offset: 1,
        notes,
    })
}

pub(super) fn diagnostics(alloc: Global) -> Result<Listed<Diagnostic>, AllocError>
    ensures { IfOk result (All IsDiagnosticWritable) }
{
    one(alloc, diagnostic(alloc)?)
}
