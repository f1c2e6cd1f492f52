// The top call.
ghost use Rattle.std.specs.Prelude.{◌≡◌, ◌≤◌, [], ◌∷◌, ℕ, List, Option, Some, None, length, map, IfOk, IfSome, OnOk, OnErr, string_bytes, option_map};
ghost use Rattle.std.specs.List.{All};
ghost use Rattle.std.specs.Option.{option_copied};
ghost use Rattle.swift_base.specs.Outside.{StarterSeen};
ghost use Rattle.swift_base.specs.declared.plugins.Plugin.{Plugin};
ghost use Rattle.swift_tree.specs.Outlines.{outline_of};
ghost use Rattle.macro_decls.specs.Macros.{IsDeclReadable};
ghost use Rattle.link_driver.specs.Links.{link_seen};
ghost use Rattle.expand_top.specs.declared.command.Command.TheVariants as Command;
ghost use Rattle.expand_top.specs.Command.{named_in, named_seen, command_named, command_of};
ghost use Rattle.expand_top.specs.Asking.{IsStartable, IsExpansion, asking_of};
ghost use Rattle.expand_top.specs.Lines.{output_seen};
ghost use Rattle.expand_top.specs.Meaning.{Means, meaning_of, source_of};
ghost use Rattle.expand_top.specs.Means.{meaning_seen, IsSound, IsSoundSource};
ghost use Rattle.expand_top.specs.Run.{IsDelivered, GainsAll, GainsFront, ReadsSource, ReadsNext, ReadsInputs, IsShort, IsRefused, IsUnwritten, Expands, usage};
ghost use Rattle.expand_top.specs.Promises.{AskedOnce, LinksServe, Starts, StopsHaveCause, FailedStartsHaveCause, KeepsBytes, StatusHasCause};

use crate::asking::{Answered, expand_source};
use crate::command::{Named, named_in, named_plugins};
use crate::ended::{Ended, Inputs, SourceRead};
use crate::meaning::{Meaning, meaning_of};
use crate::report::{Output, output_of};
use expansion_model::Buffer;
use link_driver::{Closed, Ran, Unstarted, only_last_keys_fail};
use macro_decls::MacroTable;
use result_splice::edits_are_made;
use std::alloc::{AllocError, Global};
use swift_base::{FileFault, Files, Plugin, Plugins, Sink, Starter, Text, WriteFault, write_all};
use swift_tree::Outline;

/// What is written for words that are no command. It names what is still to come, too.
pub const USAGE: &[u8] = b"\
usage: expand [--macros FILE] [--width N] SOURCE [MODULE=COMMAND]...
       check [--macros FILE] SOURCE
       show SOURCE
       measure N
";

/// How many bytes a source may have.
pub const LARGEST_SOURCE: u32 = 4_194_304;

fn put<S: Sink>(sink: &mut S, bytes: &Vec<u8>) -> Result<(), WriteFault>
    ensures all { OnOk result (GainsAll (S.seen sink.old) (S.seen sink.new) bytes.now.items) }
    ensures front { OnErr result (GainsFront (S.seen sink.old) (S.seen sink.new) bytes.now.items) }
{
    match write_all(sink, bytes) {
        Ok(()) => Ok(()),
        Err(fault) => Err(fault),
    }
}

fn deliver<O: Sink, E: Sink>(out: &mut O, err: &mut E, output: &Output) -> u8
    ensures { IsDelivered (O.seen out.old) (O.seen out.new) (E.seen err.old) (E.seen err.new) (output_seen output.now) result }
{
    let Ok(()) = put(out, &output.out) else {
        return 4;
    };
    let Ok(()) = put(err, &output.err) else {
        return 4;
    };
    output.status
}

fn read_source<F: Files>(alloc: Global, files: &mut F, name: &str) -> Result<SourceRead, AllocError>
    ensures { IfOk result (ReadsSource (F.seen files.old) (F.seen files.new) name.now) }
{
    match files.read(alloc, name, LARGEST_SOURCE) {
        Ok(bytes) => Ok(SourceRead::Bytes(Text::from_vec(bytes))),
        Err(FileFault::Failed) => Ok(SourceRead::Failed),
        Err(FileFault::Larger) => Ok(SourceRead::Larger),
        Err(FileFault::Memory) => Err(AllocError),
    }
}

// The source is read only where the macros file was.
fn read_next<F: Files>(
    alloc: Global,
    files: &mut F,
    macros: &SourceRead,
    name: &str,
) -> Result<SourceRead, AllocError>
    ensures { IfOk result (ReadsNext macros.now (F.seen files.old) (F.seen files.new) name.now) }
{
    match macros {
        SourceRead::Bytes(_) => read_source(alloc, files, name),
        SourceRead::Nothing | SourceRead::Failed | SourceRead::Larger => Ok(SourceRead::Nothing),
    }
}

fn read_both<F: Files>(
    alloc: Global,
    files: &mut F,
    file: &str,
    name: &str,
) -> Result<Inputs, AllocError>
    ensures { IfOk result (ReadsInputs (F.seen files.old) (F.seen files.new) (Some file.now) name.now) }
{
    let macros = read_source(alloc, files, file)?;
    let source = read_next(alloc, files, &macros, name)?;
    Ok(Inputs { macros, source })
}

// The file of macros is read first, where one is named.
fn read_inputs<F: Files>(
    alloc: Global,
    files: &mut F,
    macros: Option<&str>,
    name: &str,
) -> Result<Inputs, AllocError>
    ensures { IfOk result (ReadsInputs (F.seen files.old) (F.seen files.new) (option_copied macros.entry) name.now) }
{
    if let Some(file) = macros {
        return read_both(alloc, files, file, name);
    }
    let source = read_source(alloc, files, name)?;
    Ok(Inputs {
        macros: SourceRead::Nothing,
        source,
    })
}

// What is handed back and written.
#[derive(Drop)]
struct Expansion<W: Drop, R: Drop> {
    source: Option<Outline>,
    links: Vec<Closed<W, R>>,
    unstarted: Vec<Unstarted>,
    output: Output,
}

fn expanded_with<W: Drop, R: Drop>(
    source: Outline,
    ran: Ran<W, R>,
    output: Output,
) -> Expansion<W, R>
    ensures source { result.source ≡ Some source }
    ensures links { result.links ≡ ran.links }
    ensures unstarted { result.unstarted ≡ ran.unstarted }
    ensures output { result.output ≡ output }
{
    let Ran { links, unstarted } = ran;
    Expansion {
        source: Some(source),
        links,
        unstarted,
        output,
    }
}

// A refusal is written, and nothing is asked.
fn nothing_asked<W: Drop, R: Drop>(alloc: Global, output: Output) -> Expansion<W, R>
    ensures source { result.source ≡ None }
    ensures links { result.links.items ≡ [] }
    ensures unstarted { result.unstarted.items ≡ [] }
    ensures output { result.output ≡ output }
{
    Expansion {
        source: None,
        links: Vec::new(alloc),
        unstarted: Vec::new(alloc),
        output,
    }
}

// What is asked and written for a source.
fn expand_buffer<P: Starter>(
    alloc: Global,
    starter: &mut P,
    name: &[u8],
    plugins: &Plugins,
    source: Outline,
    macros: &MacroTable,
) -> Result<Expansion<P::Writer, P::Reader>, AllocError>
    requires sound { IsSoundSource (outline_of source) }
    requires readable { All IsDeclReadable macros.now }
    requires commands { All IsStartable plugins.now }
    ensures source { IfOk result (λ e. option_map outline_of e.source ≡ Some (outline_of source)) }
    ensures expansion { IfOk result (λ e. IsExpansion name.now plugins.now (Means (outline_of source) macros.now)
        (asking_of (map (link_seen P.Writer.seen P.Reader.seen) e.links.items) e.unstarted.items (P.seen starter.old) (P.seen starter.new)) (output_seen e.output)) }
{
    let buffer = Buffer::source(alloc, name, source)?;
    let Answered { ran, answer } = expand_source(alloc, starter, plugins, &buffer, macros)?;
    let output = output_of(alloc, name, answer)?;
    let Buffer { outline, .. } = buffer;
    Ok(expanded_with(outline, ran, output))
}

// What is asked and written for what the files mean.
fn expand_meaning<P: Starter>(
    alloc: Global,
    starter: &mut P,
    name: &[u8],
    plugins: &Plugins,
    means: Meaning,
) -> Result<Expansion<P::Writer, P::Reader>, AllocError>
    requires sound { IsSound means }
    requires commands { All IsStartable plugins.now }
    ensures source { IfOk result (λ e. option_map outline_of e.source ≡ source_of (meaning_seen means)) }
    ensures expansion { IfOk result (λ e. IsExpansion name.now plugins.now (meaning_seen means)
        (asking_of (map (link_seen P.Writer.seen P.Reader.seen) e.links.items) e.unstarted.items (P.seen starter.old) (P.seen starter.new)) (output_seen e.output)) }
{
    match means {
        Meaning::Refused(output) => Ok(nothing_asked(alloc, output)),
        Meaning::Means(source, macros) => {
            expand_buffer(alloc, starter, name, plugins, source, &macros)
        }
    }
}

// A command as far as nothing is written yet.
#[derive(Drop)]
struct Done<W: Drop, R: Drop> {
    read: Inputs,
    expansion: Expansion<W, R>,
}

fn expand<F: Files, P: Starter>(
    alloc: Global,
    macros: Option<&str>,
    name: &str,
    plugins: &Plugins,
    files: &mut F,
    starter: &mut P,
) -> Result<Done<P::Writer, P::Reader>, AllocError>
    requires { All IsStartable plugins.now }
    ensures read { IfOk result (λ d. ReadsInputs (F.seen files.old) (F.seen files.new) (option_copied macros.entry) name.now d.read) }
    ensures source { IfOk result (λ d. option_map outline_of d.expansion.source ≡ source_of (meaning_of (option_copied macros.entry) name.now d.read)) }
    ensures expansion { IfOk result (λ d. IsExpansion name.now plugins.now (meaning_of (option_copied macros.entry) name.now d.read)
        (asking_of (map (link_seen P.Writer.seen P.Reader.seen) d.expansion.links.items) d.expansion.unstarted.items (P.seen starter.old) (P.seen starter.new)) (output_seen d.expansion.output)) }
{
    let read = read_inputs(alloc, files, macros, name)?;
    let file = macros.map(|file| file.as_bytes());
    let means = meaning_of(alloc, file, name.as_bytes(), &read)?;
    let expansion = expand_meaning(alloc, starter, name.as_bytes(), plugins, means)?;
    Ok(Done { read, expansion })
}

fn nothing_read() -> Inputs {
    Inputs {
        macros: SourceRead::Nothing,
        source: SourceRead::Nothing,
    }
}

fn usage(alloc: Global) -> Result<Output, AllocError>
    ensures { IfOk result (λ output. output_seen output ≡ usage) }
{
    Ok(Output {
        out: Vec::new(alloc),
        err: Vec::from_slice(alloc, USAGE)?,
        status: 2,
    })
}

fn out_of_memory<W: Drop, R: Drop>(alloc: Global) -> Ended<W, R>
    ensures status { result.status ≡ 5 }
    ensures links { result.links.items ≡ [] }
    ensures unstarted { result.unstarted.items ≡ [] }
{
    Ended {
        status: 5,
        read: nothing_read(),
        source: None,
        links: Vec::new(alloc),
        unstarted: Vec::new(alloc),
    }
}

// Words that are no command: the usage text, and nothing is read or started.
fn refuse<W: Drop, R: Drop, O: Sink, E: Sink>(
    alloc: Global,
    out: &mut O,
    err: &mut E,
) -> Ended<W, R>
    ensures refused { IsRefused (O.seen out.old) (O.seen out.new) (E.seen err.old) (E.seen err.new) result.status result.links.items result.unstarted.items }
    ensures memory { result.status ≡ 5 → IsUnwritten (O.seen out.old) (O.seen out.new) (E.seen err.old) (E.seen err.new) }
{
    let Ok(output) = usage(alloc) else {
        return out_of_memory(alloc);
    };
    let status = deliver(out, err, &output);
    Ended {
        status,
        read: nothing_read(),
        source: None,
        links: Vec::new(alloc),
        unstarted: Vec::new(alloc),
    }
}

fn run_expand<F: Files, O: Sink, E: Sink, P: Starter>(
    alloc: Global,
    macros: Option<&str>,
    name: &str,
    plugins: &Plugins,
    files: &mut F,
    out: &mut O,
    err: &mut E,
    starter: &mut P,
) -> Ended<P::Writer, P::Reader>
    requires { All IsStartable plugins.now }
    ensures memory { result.status ≡ 5 → IsUnwritten (O.seen out.old) (O.seen out.new) (E.seen err.old) (E.seen err.new) }
    ensures source { (result.status ≡ 5 → ⊥) → option_map outline_of result.source ≡ source_of (meaning_of (option_copied macros.entry) name.now result.read) }
    ensures expanded { (result.status ≡ 5 → ⊥) → Expands (option_copied macros.entry) name.now plugins.now (F.seen files.old) (F.seen files.new)
        (O.seen out.old) (O.seen out.new) (E.seen err.old) (E.seen err.new) result.status result.read
        (asking_of (map (link_seen P.Writer.seen P.Reader.seen) result.links.items) result.unstarted.items (P.seen starter.old) (P.seen starter.new)) }
{
    let Ok(done) = expand(alloc, macros, name, plugins, files, starter) else {
        return out_of_memory(alloc);
    };
    let status = deliver(out, err, &done.expansion.output);
    Ended {
        status,
        read: done.read,
        source: done.expansion.source,
        links: done.expansion.links,
        unstarted: done.expansion.unstarted,
    }
}

fn run_named<F: Files, O: Sink, E: Sink, P: Starter>(
    alloc: Global,
    named: Named<'_>,
    files: &mut F,
    out: &mut O,
    err: &mut E,
    starter: &mut P,
) -> Ended<P::Writer, P::Reader>
    ensures refused { command_named (named_seen named.entry) ≡ None
        → IsRefused (O.seen out.old) (O.seen out.new) (E.seen err.old) (E.seen err.new) result.status result.links.items result.unstarted.items }
    ensures untouched { command_named (named_seen named.entry) ≡ None → (files.new ≡ files.old) × (starter.new ≡ starter.old) }
    ensures source { (name : List ℕ) (macros : Option (List ℕ)) (plugins : List Plugin) → command_named (named_seen named.entry) ≡ Some (Command.Expand name macros plugins)
        → (result.status ≡ 5 → ⊥) → option_map outline_of result.source ≡ source_of (meaning_of macros name result.read) }
    ensures expanded { (name : List ℕ) (macros : Option (List ℕ)) (plugins : List Plugin) → command_named (named_seen named.entry) ≡ Some (Command.Expand name macros plugins)
        → (result.status ≡ 5 → ⊥) → Expands macros name plugins (F.seen files.old) (F.seen files.new)
        (O.seen out.old) (O.seen out.new) (E.seen err.old) (E.seen err.new) result.status result.read
        (asking_of (map (link_seen P.Writer.seen P.Reader.seen) result.links.items) result.unstarted.items (P.seen starter.old) (P.seen starter.new)) }
    ensures memory { result.status ≡ 5 → IsUnwritten (O.seen out.old) (O.seen out.new) (E.seen err.old) (E.seen err.new) }
{
    let Ok(plugins) = named_plugins(alloc, named) else {
        return out_of_memory(alloc);
    };
    let Some(plugins) = plugins else {
        return refuse(alloc, out, err);
    };
    let macros = named.macros.map(|file| file.as_str());
    let name = named.source.as_str();
    run_expand(alloc, macros, name, &plugins, files, out, err, starter)
}

/// Does what the words after the program's name ask for: `expand [--macros FILE] SOURCE [MODULE=COMMAND]`.
/// The status is 0 where the file was written, 1 for faults, 2 for words that are no command, 3 where a file
/// could not be read, 4 where a write failed, and 5 where memory was wanting.
pub fn run<T: AllocGlobal + Copy + Drop, F: Files, O: Sink, E: Sink, P: Starter>(
    rt: T,
    words: &[String],
    files: &mut F,
    out: &mut O,
    err: &mut E,
    starter: &mut P,
) -> Ended<P::Writer, P::Reader>
    // Words that are no command: the usage text, and nothing is read or started.
    ensures refused { command_of (map string_bytes words.now) ≡ None
        → IsRefused (O.seen out.old) (O.seen out.new) (E.seen err.old) (E.seen err.new) result.status result.links.items result.unstarted.items }
    ensures untouched { command_of (map string_bytes words.now) ≡ None → (files.new ≡ files.old) × (starter.new ≡ starter.old) }

    // What the two streams gain is the output of the files and of what was asked; the files were read as it says.
    ensures output { (name : List ℕ) (macros : Option (List ℕ)) (plugins : List Plugin) → command_of (map string_bytes words.now) ≡ Some (Command.Expand name macros plugins)
        → (result.status ≡ 5 → ⊥) → Expands macros name plugins (F.seen files.old) (F.seen files.new)
        (O.seen out.old) (O.seen out.new) (E.seen err.old) (E.seen err.new) result.status result.read
        (asking_of (map (link_seen P.Writer.seen P.Reader.seen) result.links.items) result.unstarted.items (P.seen starter.old) (P.seen starter.new)) }
    ensures asked_once { (name : List ℕ) (macros : Option (List ℕ)) (plugins : List Plugin) → command_of (map string_bytes words.now) ≡ Some (Command.Expand name macros plugins)
        → (result.status ≡ 5 → ⊥) → AskedOnce macros name plugins result.read
        (asking_of (map (link_seen P.Writer.seen P.Reader.seen) result.links.items) result.unstarted.items (P.seen starter.old) (P.seen starter.new)) }
    ensures links_serve { (name : List ℕ) (macros : Option (List ℕ)) (plugins : List Plugin) → command_of (map string_bytes words.now) ≡ Some (Command.Expand name macros plugins)
        → (result.status ≡ 5 → ⊥) → LinksServe macros name plugins result.read
        (asking_of (map (link_seen P.Writer.seen P.Reader.seen) result.links.items) result.unstarted.items (P.seen starter.old) (P.seen starter.new)) }
    // What was read and started is what the starter tells, and each stop and each failed start has its cause.
    ensures started { (name : List ℕ) (macros : Option (List ℕ)) (plugins : List Plugin) → command_of (map string_bytes words.now) ≡ Some (Command.Expand name macros plugins)
        → (result.status ≡ 5 → ⊥) → Starts macros name plugins result.read
        (asking_of (map (link_seen P.Writer.seen P.Reader.seen) result.links.items) result.unstarted.items (P.seen starter.old) (P.seen starter.new)) }
    ensures stops { (name : List ℕ) (macros : Option (List ℕ)) (plugins : List Plugin) → command_of (map string_bytes words.now) ≡ Some (Command.Expand name macros plugins)
        → (result.status ≡ 5 → ⊥) → StopsHaveCause (map (link_seen P.Writer.seen P.Reader.seen) result.links.items) }
    ensures failed_starts { (name : List ℕ) (macros : Option (List ℕ)) (plugins : List Plugin) → command_of (map string_bytes words.now) ≡ Some (Command.Expand name macros plugins)
        → (result.status ≡ 5 → ⊥) → FailedStartsHaveCause
        (asking_of (map (link_seen P.Writer.seen P.Reader.seen) result.links.items) result.unstarted.items (P.seen starter.old) (P.seen starter.new)) }

    // The outline that is handed back is the source's, where its files mean one.
    ensures source { (name : List ℕ) (macros : Option (List ℕ)) (plugins : List Plugin) → command_of (map string_bytes words.now) ≡ Some (Command.Expand name macros plugins)
        → (result.status ≡ 5 → ⊥) → option_map outline_of result.source ≡ source_of (meaning_of macros name result.read) }

    ensures kept { (name : List ℕ) (macros : Option (List ℕ)) (plugins : List Plugin) → command_of (map string_bytes words.now) ≡ Some (Command.Expand name macros plugins)
        → (result.status ≡ 5 → ⊥) → KeepsBytes macros name plugins result.read result.status (O.seen out.old) (O.seen out.new) }
    ensures status { (name : List ℕ) (macros : Option (List ℕ)) (plugins : List Plugin) → command_of (map string_bytes words.now) ≡ Some (Command.Expand name macros plugins)
        → (result.status ≡ 5 → ⊥) → StatusHasCause result.status (F.seen files.old) (F.seen files.new)
        (O.seen out.old) (O.seen out.new) (E.seen err.old) (E.seen err.new) }

    // Want of memory is met before the first byte is written.
    ensures memory { result.status ≡ 5 → IsUnwritten (O.seen out.old) (O.seen out.new) (E.seen err.old) (E.seen err.new) }
{
    only_last_keys_fail();
    edits_are_made();
    let alloc = rt.alloc();
    let Some(named) = named_in(words) else {
        return refuse(alloc, out, err);
    };
    run_named(alloc, named, files, out, err, starter)
}
