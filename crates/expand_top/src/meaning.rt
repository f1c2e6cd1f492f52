// What the files of a command mean: a source with its macros, or a refusal.
ghost use Rattle.std.specs.Prelude.{◌≡◌, ◌++◌, ◌∷◌, [], ◌<◌, ◌≤◌, ◌-◌, ◌^◌, IfOk, IfSome, length, map, option_map, slice_get};
ghost use Rattle.std.specs.Option.{option_copied};
ghost use Rattle.swift_tree.specs.Outlines.{OutlineSeen, outline_of};
ghost use Rattle.macro_decls.specs.Macros.{macros};
ghost use Rattle.expansion_model.specs.Requests.{place_of, IsPlaceIn};
ghost use Rattle.expand_top.specs.Faults.{fault_text, too_large};
ghost use Rattle.expand_top.specs.Lines.{faults, output_seen, refuses, refuses_at, unread};
ghost use Rattle.expand_top.specs.Meaning.{Refused, named_seen, by_table, fault_line, fault_lines, table_meaning, by_outline, source_meaning, text_meaning, by_source, by_file, meaning_of};
ghost use Rattle.expand_top.specs.Means.{meaning_seen, declared_seen, option_list, IsAt, IsShortText, AreShort, IsSoundSource, IsSound, AreReadable};
ghost use Rattle.expand_top.specs.Run.{IsShort};

use crate::ended::{Inputs, SourceRead};
use crate::faults::{fault_text, macro_fault_text};
use crate::report::{Output, error_at, faults, refuses, refuses_at, unread};
use crate::slices::add;
use crate::texts::NamedText;
use decl_parser::{ParseFault, ParseKind, outline_keeps_the_text, parse_file};
use expansion_model::{FIRST_PLACE, Place, place_from};
use macro_decls::{MacroFault, MacroTable};
use std::alloc::{AllocError, Global};
use swift_base::{Listed, Refusal};
use swift_tree::Outline;

/// What the files of a command mean.
#[derive(Drop)]
pub enum Meaning {
    /// Nothing is expanded, and this is written.
    Refused(Output),
    /// A source with its macros.
    Means(Outline, MacroTable),
}

// A place in the text of an outline with this number.
#[derive(Clone, Copy)]
struct At {
    outline: u32,
    place: Place,
}

#[tactic(auto, unfolding(expansion_model::specs::Requests::place_of))]
fn place_in(text: &[u8], from: At, fault: &MacroFault) -> Place
    requires short { length text.now ≤ 4194304 }
    requires from { from.outline ≡ fault.now.outline → IsPlaceIn text.now from.place }
    ensures { result ≡ place_of text.now fault.now.at }
{
    if from.outline == fault.outline {
        return place_from(text, from.place, fault.at);
    }
    place_from(text, FIRST_PLACE, fault.at)
}

fn file_at<'a>(files: &[NamedText<'a>], outline: u32) -> Option<NamedText<'a>>
    ensures { option_map named_seen result ≡ slice_get (map named_seen files.now) outline }
{
    files.get(outline as usize).copied()
}

// The file of a number.
fn file_of<'a>(files: &[NamedText<'a>], outline: u32) -> Option<NamedText<'a>>
    requires { AreShort (map named_seen files.now) }
    ensures file { option_map named_seen result ≡ slice_get (map named_seen files.now) outline }
    ensures short { IfSome result (λ named. IsShortText (named_seen named)) }
{
    file_at(files, outline)
}

#[tactic(auto, unfolding(expansion_model::specs::Requests::place_of))]
fn put_fault(
    alloc: Global,
    files: &[NamedText<'_>],
    from: At,
    fault: &MacroFault,
    lines: &mut Vec<u8>,
) -> Result<At, AllocError>
    requires short { AreShort (map named_seen files.now) }
    requires from { IsAt (map named_seen files.now) from }
    ensures lines { IfOk result (λ _. lines.new.items ≡ lines.old.items ++ fault_line (map named_seen files.now) fault.now) }
    ensures at { IfOk result (IsAt (map named_seen files.now)) }
{
    let Some(named) = file_of(files, fault.outline) else {
        return Ok(from);
    };
    let place = place_in(named.text, from, fault);
    let message = macro_fault_text(alloc, fault.kind, fault.name.bytes())?;
    let line = error_at(alloc, named.name, named.text, place, &message)?;
    lines.extend_from_slice(&line)?;
    Ok(At {
        outline: fault.outline,
        place,
    })
}

// The lines of the faults of declarations.
#[tactic(auto, unfolding(expansion_model::specs::Requests::place_of))]
fn fault_lines(
    alloc: Global,
    files: &[NamedText<'_>],
    found: &[MacroFault],
) -> Result<Vec<u8>, AllocError>
    requires { AreShort (map named_seen files.now) }
    ensures { IfOk result (λ lines. lines.items ≡ fault_lines (map named_seen files.now) found.now) }
{
    let mut lines = Vec::new(alloc);
    let mut at = At {
        outline: 0,
        place: FIRST_PLACE,
    };
    'faults: for fault in found {
        at = put_fault(alloc, files, at, fault, &mut lines)?;
    }
    Ok(lines)
}

// The macros of outlines, or what is written where a declaration is faulty.
#[derive(Drop)]
enum Declared {
    Table(MacroTable),
    Refused(Output),
}

// All of one lifetime, as the table of macros takes them.
fn borrowed(alloc: Global, outlines: &[Outline]) -> Result<Vec<&Outline>, AllocError>
    ensures { IfOk result (λ list. map (λ o. outline_of o.now) list.items ≡ map outline_of outlines.now) }
{
    let mut list = Vec::new(alloc);
    'outlines: for outline in outlines {
        list.push(outline)?;
    }
    Ok(list)
}

fn fault_output(
    alloc: Global,
    files: &[NamedText<'_>],
    found: &Listed<MacroFault>,
) -> Result<Output, AllocError>
    requires { AreShort (map named_seen files.now) }
    ensures { IfOk result (λ output. output_seen output ≡ faults (fault_lines (map named_seen files.now) found.now)) }
{
    let lines = fault_lines(alloc, files, found.items())?;
    Ok(faults(alloc, lines))
}

fn declare(
    alloc: Global,
    files: &[NamedText<'_>],
    outlines: &[Outline],
) -> Result<Declared, AllocError>
    requires short { AreShort (map named_seen files.now) }
    requires few { length outlines.now < 3 }
    ensures meaning { IfOk result (λ d. (source : OutlineSeen) → declared_seen source d ≡ by_table (map named_seen files.now) source (macros (map outline_of outlines.now))) }
    ensures readable { IfOk result AreReadable }
{
    let list = borrowed(alloc, outlines)?;
    match MacroTable::from_outlines(alloc, &list) {
        Ok(table) => Ok(Declared::Table(table)),
        Err(Refusal::Memory) => Err(AllocError),
        Err(Refusal::Fault(found)) => {
            let output = fault_output(alloc, files, &found)?;
            Ok(Declared::Refused(output))
        }
    }
}

fn refused(alloc: Global, named: NamedText<'_>, fault: ParseFault) -> Result<Meaning, AllocError>
    requires { IsShortText (named_seen named) }
    ensures meaning { IfOk result (λ m. meaning_seen m ≡ Refused (refuses_at (named_seen named.entry).name (named_seen named.entry).text fault.at (fault_text fault.kind))) }
    ensures sound { IfOk result IsSound }
{
    let message = fault_text(fault.kind);
    let output = refuses_at(alloc, named.name, named.text, fault.at, message)?;
    Ok(Meaning::Refused(output))
}

// A source that was read, behind the macros file where there is one.
#[tactic(auto, unfolding(crate::specs::Meaning::table_meaning))]
fn table_meaning(
    alloc: Global,
    files: &[NamedText<'_>],
    before: Vec<Outline>,
    source: Outline,
) -> Result<Meaning, AllocError>
    requires short { AreShort (map named_seen files.now) }
    requires few { length before.items < 2 }
    requires sound { IsSoundSource (outline_of source) }
    ensures meaning { IfOk result (λ m. meaning_seen m ≡ table_meaning (map named_seen files.now) (map outline_of before.items) (outline_of source)) }
    ensures sound { IfOk result IsSound }
{
    let mut outlines = before;
    outlines.push(source)?;
    let found = declare(alloc, files, &outlines)?;
    let Some(source) = outlines.pop() else {
        unreachable!()
    };
    match found {
        Declared::Table(table) => Ok(Meaning::Means(source, table)),
        Declared::Refused(output) => Ok(Meaning::Refused(output)),
    }
}

fn joined<'a>(
    alloc: Global,
    files: &[NamedText<'a>],
    source: NamedText<'a>,
) -> Result<Vec<NamedText<'a>>, AllocError>
    ensures { IfOk result (λ list. map named_seen list.items ≡ map named_seen files.now ++ named_seen source.entry ∷ []) }
{
    let mut all = Vec::from_slice(alloc, files)?;
    all.push(source)?;
    Ok(all)
}

#[tactic(auto, unfolding(crate::specs::Meaning::source_meaning))]
fn source_meaning<'a>(
    alloc: Global,
    files: &[NamedText<'a>],
    before: Vec<Outline>,
    source: NamedText<'a>,
) -> Result<Meaning, AllocError>
    requires short { AreShort (map named_seen files.now) }
    requires source { IsShortText (named_seen source) }
    requires few { length before.items < 2 }
    ensures meaning { IfOk result (λ m. meaning_seen m ≡ source_meaning (map named_seen files.now) (map outline_of before.items) (named_seen source.entry)) }
    ensures sound { IfOk result IsSound }
{
    outline_keeps_the_text();
    match parse_file(alloc, source.text) {
        Ok(outline) => {
            let all = joined(alloc, files, source)?;
            table_meaning(alloc, &all, before, outline)
        }
        Err(Refusal::Memory) => Err(AllocError),
        Err(Refusal::Fault(fault)) => refused(alloc, source, fault),
    }
}

fn one(alloc: Global, outline: Outline) -> Result<Vec<Outline>, AllocError>
    ensures { IfOk result (λ list. list.items ≡ outline ∷ []) }
{
    let mut list = Vec::new(alloc);
    list.push(outline)?;
    Ok(list)
}

// The macros file is read first.
fn text_meaning<'a>(
    alloc: Global,
    file: Option<NamedText<'a>>,
    source: NamedText<'a>,
) -> Result<Meaning, AllocError>
    requires file { AreShort (option_list (option_map named_seen file)) }
    requires source { IsShortText (named_seen source) }
    ensures meaning { IfOk result (λ m. meaning_seen m ≡ text_meaning (option_map named_seen file.entry) (named_seen source.entry)) }
    ensures sound { IfOk result IsSound }
{
    let Some(file) = file else {
        return source_meaning(alloc, &[], Vec::new(alloc), source);
    };
    match parse_file(alloc, file.text) {
        Ok(outline) => source_meaning(alloc, &[file], one(alloc, outline)?, source),
        Err(Refusal::Memory) => Err(AllocError),
        Err(Refusal::Fault(fault)) => refused(alloc, file, fault),
    }
}

fn too_large(alloc: Global, name: &[u8]) -> Result<Meaning, AllocError>
    ensures meaning { IfOk result (λ m. meaning_seen m ≡ Refused (refuses name.now 1 1 too_large)) }
    ensures sound { IfOk result IsSound }
{
    let message = fault_text(ParseKind::SourceTooLarge);
    Ok(Meaning::Refused(refuses(alloc, name, 1, 1, message)?))
}

fn not_read(alloc: Global, name: &[u8]) -> Result<Meaning, AllocError>
    ensures meaning { IfOk result (λ m. meaning_seen m ≡ Refused (unread name.now)) }
    ensures sound { IfOk result IsSound }
{
    Ok(Meaning::Refused(unread(alloc, name)?))
}

// A source by how it was read.
fn by_source<'a>(
    alloc: Global,
    name: &'a [u8],
    file: Option<NamedText<'a>>,
    source: &'a SourceRead,
) -> Result<Meaning, AllocError>
    requires file { AreShort (option_list (option_map named_seen file)) }
    requires source { IsShort source.now }
    ensures meaning { IfOk result (λ m. meaning_seen m ≡ by_source name.now (option_map named_seen file.entry) source.now) }
    ensures sound { IfOk result IsSound }
{
    match source {
        SourceRead::Nothing | SourceRead::Failed => not_read(alloc, name),
        SourceRead::Larger => too_large(alloc, name),
        SourceRead::Bytes(text) => {
            let text = text.bytes();
            text_meaning(alloc, file, NamedText { name, text })
        }
    }
}

// The macros file by how it was read, and then the source.
fn by_file<'a>(
    alloc: Global,
    file: &'a [u8],
    name: &'a [u8],
    inputs: &'a Inputs,
) -> Result<Meaning, AllocError>
    requires macros { IsShort inputs.now.macros }
    requires source { IsShort inputs.now.source }
    ensures meaning { IfOk result (λ m. meaning_seen m ≡ by_file file.now name.now inputs.now.macros inputs.now.source) }
    ensures sound { IfOk result IsSound }
{
    match &inputs.macros {
        SourceRead::Nothing | SourceRead::Failed => not_read(alloc, file),
        SourceRead::Larger => too_large(alloc, file),
        SourceRead::Bytes(text) => {
            let named = NamedText {
                name: file,
                text: text.bytes(),
            };
            by_source(alloc, name, Some(named), &inputs.source)
        }
    }
}

/// What the files of a command mean, by how they were read: `macros` is the name of the file of macros.
pub fn meaning_of<'a>(
    alloc: Global,
    macros: Option<&'a [u8]>,
    name: &'a [u8],
    inputs: &'a Inputs,
) -> Result<Meaning, AllocError>
    requires macros { IsShort inputs.now.macros }
    requires source { IsShort inputs.now.source }
    ensures meaning { IfOk result (λ m. meaning_seen m ≡ meaning_of (option_copied macros.entry) name.now inputs.now) }
    ensures sound { IfOk result IsSound }
{
    match macros {
        Some(file) => by_file(alloc, file, name, inputs),
        None => by_source(alloc, name, None, &inputs.source),
    }
}
