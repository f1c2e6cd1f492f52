// Processes in memory that are asked, one request after another.
ghost use Rattle.std.specs.Prelude.{◌≡◌, IfOk};
ghost use Rattle.std.specs.Str.{IsUtf8};
ghost use Rattle.plugin_messages.specs.Writable.{IsMacroWritable, IsSyntaxWritable, IsRequestWritable};
ghost use Rattle.link_driver.specs.Driven.{driver_seen, IsSound};

use crate::{Closed, Driver, Ran, Stop, ask, finish, is_spent, link_table};
use plugin_messages::{MacroRef, Outcome, Parts, Request, Syntax, SyntaxKind};
use std::alloc::{AllocError, Global};
use std::process::Abort;
use std::test::Fail;
use swift_base::{Listed, MemScript, MemSink, MemSource, MemStarter, Starter, Text};
use unique_names::{Key, KeyStep, Role};

const GREETED: &str =
    "<\0\0\0\0\0\0\0{\"getCapabilityResult\":{\"capability\":{\"protocolVersion\":7}}}";

const REPLIED: &str =
    "=\0\0\0\0\0\0\0{\"expandMacroResult\":{\"diagnostics\":[],\"expandedSource\":\"1\"}}";

const LOADED: &str =
    "<\0\0\0\0\0\0\0{\"loadPluginLibraryResult\":{\"diagnostics\":[],\"loaded\":true}}";

const GREETING: &str =
    "6\0\0\0\0\0\0\0{\"getCapability\":{\"capability\":{\"protocolVersion\":7}}}";

const FIRST: &[u8] =
    b"\xb3\0\0\0\0\0\0\0{\"expandFreestandingMacro\":{\"discriminator\":\"$sX0e0_E\",\"macro\":{\"moduleName\":\"M\",\"name\":\"m\",\"typeName\":\"T\"},\"macroRole\":\"expression\",\"syntax\":{\"kind\":\"expression\",\"source\":\"#m\"}}}";

const SECOND: &[u8] =
    b"\xb3\0\0\0\0\0\0\0{\"expandFreestandingMacro\":{\"discriminator\":\"$sX1e0_E\",\"macro\":{\"moduleName\":\"M\",\"name\":\"m\",\"typeName\":\"T\"},\"macroRole\":\"expression\",\"syntax\":{\"kind\":\"expression\",\"source\":\"#m\"}}}";

fn text(alloc: Global, of: &str) -> Result<Text, AllocError>
    ensures { IfOk result IsUtf8 }
{
    Text::from_bytes(alloc, of.as_bytes())
}

fn target(alloc: Global, module: &str) -> Result<MacroRef, AllocError>
    ensures { IfOk result IsMacroWritable }
{
    Ok(MacroRef {
        module: text(alloc, module)?,
        type_name: text(alloc, "T")?,
        name: text(alloc, "m")?,
    })
}

fn syntax(alloc: Global) -> Result<Syntax, AllocError>
    ensures { IfOk result IsSyntaxWritable }
{
    Ok(Syntax {
        kind: SyntaxKind::Expression,
        source: text(alloc, "#m")?,
        location: None,
    })
}

// The request of a module for the use at an offset.
fn request(alloc: Global, module: &str, offset: u32) -> Result<Request, AllocError>
    ensures { IfOk result IsRequestWritable }
{
    let mut steps = Vec::new(alloc);
    steps.push(KeyStep {
        offset,
        role: Role::Expression,
        member: 0,
    })?;
    let target = target(alloc, module)?;
    let syntax = syntax(alloc)?;
    Ok(Request {
        key: Key { steps },
        target,
        role: Role::Expression,
        parts: Parts::Freestanding { syntax },
    })
}

// A process that gives these texts, the first `sizes` reads so many bytes at most.
fn script(alloc: Global, gives: &[&str], sizes: &[u32]) -> Result<MemScript, AllocError> {
    let mut bytes = Vec::new(alloc);
    for part in gives {
        bytes.extend_from_slice(part.as_bytes())?;
    }
    Ok(MemScript {
        gives: Text::from_vec(bytes),
        pieces: Listed::from_vec(Vec::from_slice(alloc, sizes)?),
        failing_reads: Listed::from_vec(Vec::new(alloc)),
        failing_writes: Listed::from_vec(Vec::new(alloc)),
        room: 4096,
    })
}

// `r` for a reply, `f` for a failure, `-` for none.
fn letter(outcome: &Option<Outcome>) -> u8 {
    match outcome {
        Some(Outcome::Reply { .. }) => b'r',
        Some(Outcome::Failed(_)) => b'f',
        None => b'-',
    }
}

// What was done, and one letter a request: what was told of it at once.
#[derive(Drop)]
struct Tried<W: Drop, R: Drop> {
    done: Ran<W, R>,
    told: Vec<u8>,
}

// Asks these modules, one after another, for the uses at 0, 1 and so on.
fn run<P: Starter>(
    alloc: Global,
    starter: &mut P,
    modules: &[&str],
) -> Result<Tried<P::Writer, P::Reader>, AllocError> {
    let mut driver = Driver::new(alloc);
    let mut told = Vec::new(alloc);
    let mut offset = 0u32;
    'modules: for module in modules {
        let request = request(alloc, module, offset)?;
        let asked = ask(alloc, driver, starter, "plug", &request)?;
        told.push(letter(&asked.outcome))?;
        driver = asked.driver;
        offset = offset.wrapping_add(1);
    }
    let done = finish(driver)?;
    Ok(Tried { done, told })
}

// The same of processes that give these texts; the starts in `failing` fail.
fn run_on(
    alloc: Global,
    gives: &[&[&str]],
    sizes: &[u32],
    failing: &[u64],
    modules: &[&str],
) -> Result<Tried<MemSink, MemSource>, AllocError> {
    let mut scripts = Vec::new(alloc);
    for parts in gives {
        scripts.push(script(alloc, parts, sizes)?)?;
    }
    let mut starter = MemStarter::new(alloc, scripts, Vec::from_slice(alloc, failing)?);
    run(alloc, &mut starter, modules)
}

// One letter a key; a `|` after each process.
fn letters(alloc: Global, links: &[Closed<MemSink, MemSource>]) -> Result<Vec<u8>, AllocError> {
    let mut letters = Vec::new(alloc);
    for link in links {
        for outcome in link_table(alloc, link)? {
            letters.push(letter(&outcome))?;
        }
        letters.push(b'|')?;
    }
    Ok(letters)
}

fn expect(
    rt: &impl Abort,
    alloc: Global,
    ran: &Tried<MemSink, MemSource>,
    wanted: &[u8],
) -> Result<(), AllocError> {
    assert_eq!(rt; letters(alloc, &ran.done.links)?.as_slice(), wanted);
    for link in &ran.done.links {
        assert_eq!(rt; link.stop, Stop::Ended);
        assert!(rt; !link.write_failed);
    }
    Ok(())
}

fn sent(alloc: Global) -> Result<Vec<u8>, AllocError> {
    let mut sent = Vec::from_slice(alloc, GREETING.as_bytes())?;
    sent.extend_from_slice(FIRST)?;
    sent.extend_from_slice(SECOND)?;
    Ok(sent)
}

#[test]
fn two_requests_of_one_process(rt: HostRuntime) -> Result<(), Fail> {
    let alloc = rt.alloc();
    let sizes = [68, 69, 69];
    let ran = run_on(
        alloc,
        &[&[GREETED, REPLIED, REPLIED]],
        &sizes,
        &[],
        &["M", "M"],
    )?;
    expect(&rt, alloc, &ran, b"rr|".as_slice())?;
    let sent = sent(alloc)?;
    assert_eq!(rt; ran.done.links.len(), 1);
    assert_eq!(rt; ran.done.links[0].writer.held(), sent.as_slice());
    assert_eq!(rt; ran.done.links[0].got.len(), 206);
    Ok(())
}

#[test]
fn pieces_of_one_byte(rt: HostRuntime) -> Result<(), Fail> {
    let alloc = rt.alloc();
    let sizes = Vec::from_elem(alloc, 1u32, 206)?;
    let ran = run_on(
        alloc,
        &[&[GREETED, REPLIED, REPLIED]],
        &sizes,
        &[],
        &["M", "M"],
    )?;
    expect(&rt, alloc, &ran, b"rr|".as_slice())?;
    Ok(())
}

#[test]
fn process_ends_after_its_greeting(rt: HostRuntime) -> Result<(), Fail> {
    let alloc = rt.alloc();
    let gives: [&[&str]; 2] = [&[GREETED], &[GREETED, REPLIED]];
    let ran = run_on(alloc, &gives, &[], &[], &["M", "M"])?;
    expect(&rt, alloc, &ran, b"f|r|".as_slice())?;
    Ok(())
}

#[test]
fn other_answer_retires(rt: HostRuntime) -> Result<(), Fail> {
    let alloc = rt.alloc();
    let sizes = [68, 68, 69];
    let gives: [&[&str]; 2] = [&[GREETED, LOADED, REPLIED], &[GREETED, REPLIED]];
    let ran = run_on(alloc, &gives, &sizes, &[], &["M", "M"])?;
    expect(&rt, alloc, &ran, b"f|r|".as_slice())?;
    let gives: [&[&str]; 2] = [&[LOADED, REPLIED], &[GREETED, REPLIED]];
    let ran = run_on(alloc, &gives, &sizes, &[], &["M", "M"])?;
    expect(&rt, alloc, &ran, b"f|r|".as_slice())?;
    Ok(())
}

#[test]
fn bytes_behind_a_reply_retire(rt: HostRuntime) -> Result<(), Fail> {
    let alloc = rt.alloc();
    let gives: [&[&str]; 2] = [&[GREETED, REPLIED, REPLIED], &[GREETED, REPLIED]];
    let ran = run_on(alloc, &gives, &[], &[], &["M", "M"])?;
    expect(&rt, alloc, &ran, b"r|r|".as_slice())?;
    // In a later piece they stand in the next reply's place.
    let gives: [&[&str]; 2] = [&[GREETED, REPLIED, "xxxxxxxx"], &[GREETED, REPLIED]];
    let ran = run_on(alloc, &gives, &[68, 69, 8], &[], &["M", "M", "M"])?;
    expect(&rt, alloc, &ran, b"rf|r|".as_slice())?;
    Ok(())
}

#[test]
fn failed_start(rt: HostRuntime) -> Result<(), Fail> {
    let alloc = rt.alloc();
    let ran = run_on(alloc, &[&[GREETED, REPLIED]], &[], &[0], &["M", "M"])?;
    expect(&rt, alloc, &ran, b"r|".as_slice())?;
    assert_eq!(rt; ran.done.unstarted.len(), 1);
    assert_eq!(rt;
        (ran.done.unstarted[0].before, ran.done.unstarted[0].after),
        (0, 1)
    );
    for step in &ran.done.unstarted[0].key.steps {
        assert_eq!(rt; step.offset, 0);
    }
    Ok(())
}

#[test]
fn another_module(rt: HostRuntime) -> Result<(), Fail> {
    let alloc = rt.alloc();
    let gives: [&[&str]; 3] = [
        &[GREETED, REPLIED],
        &[GREETED, REPLIED],
        &[GREETED, REPLIED],
    ];
    let ran = run_on(alloc, &gives, &[], &[], &["M", "N", "M"])?;
    expect(&rt, alloc, &ran, b"r|r|r|".as_slice())?;
    assert_eq!(rt; ran.done.links.len(), 3);
    assert_eq!(rt; ran.done.links[1].module_name.bytes(), b"N".as_slice());
    Ok(())
}

#[test]
fn outcomes_are_told_at_once(rt: HostRuntime) -> Result<(), Fail> {
    let alloc = rt.alloc();
    let sizes = [68, 69, 68];
    let gives: [&[&str]; 1] = [&[GREETED, REPLIED, LOADED]];
    let ran = run_on(alloc, &gives, &sizes, &[1], &["M", "M", "M"])?;
    assert_eq!(rt; ran.told.as_slice(), b"rff".as_slice());
    expect(&rt, alloc, &ran, b"rf|".as_slice())?;
    assert_eq!(rt; ran.done.unstarted.len(), 1);
    Ok(())
}

#[test]
fn nothing_is_spent_at_first(rt: HostRuntime) -> Result<(), Fail> {
    let driver: Driver<MemSink, MemSource> = Driver::new(rt.alloc());
    assert!(rt; !is_spent(&driver));
    Ok(())
}
