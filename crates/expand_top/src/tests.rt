use crate::{Ended, Stop, run};
use std::alloc::{AllocError, Global};
use std::process::Abort;
use std::test::Fail;
use swift_base::{Listed, MemFiles, MemScript, MemSink, MemSource, MemStarter, Sink, Text};

const DECLARATION: &str =
    "@freestanding(expression) macro stringify<T>(_ value: T) -> (T, String) = #externalMacro(module: \"SampleMacros\", type: \"StringifyMacro\")\n";

/// A file of macros. Module `N` has no plug-in.
const MACROS: &str = "\
@freestanding(expression) macro p(_ x: Int) -> Int = #externalMacro(module: \"A\", type: \"P\")
@freestanding(expression) macro outer(_ x: Int) -> Int = #externalMacro(module: \"A\", type: \"Outer\")
@freestanding(expression) macro inner(_ x: Int) -> Int = #externalMacro(module: \"A\", type: \"Inner\")
@freestanding(expression) macro absent() -> Int = #externalMacro(module: \"N\", type: \"Absent\")
@freestanding(expression) macro twice(_ x: Int) -> Int = #externalMacro(module: \"A\", type: \"Twice\")
@freestanding(expression) macro one(_ x: Int) -> Int = #externalMacro(module: \"A\", type: \"One\")
@freestanding(expression) macro loop(_ x: Int) -> Int = #externalMacro(module: \"A\", type: \"Loop\")
@freestanding(declaration) macro made() = #externalMacro(module: \"A\", type: \"Made\")
@freestanding(declaration, names: named(f)) macro d() = #externalMacro(module: \"A\", type: \"D\")
@freestanding(declaration, names: arbitrary) macro free() = #externalMacro(module: \"A\", type: \"Free\")
@attached(peer) macro Peered() = #externalMacro(module: \"A\", type: \"Peered\")
@attached(accessor) macro Stored() = #externalMacro(module: \"A\", type: \"Stored\")
@attached(memberAttribute) macro Given() = #externalMacro(module: \"A\", type: \"Given\")
@attached(member) @attached(extension) @attached(memberAttribute) macro Many() = #externalMacro(module: \"A\", type: \"Many\")
";

const GREETED: &str =
    "<\0\0\0\0\0\0\0{\"getCapabilityResult\":{\"capability\":{\"protocolVersion\":7}}}";

const REPLIED: &str =
    "N\0\0\0\0\0\0\0{\"expandMacroResult\":{\"diagnostics\":[],\"expandedSource\":\"(a + b, \\\"a + b\\\")\"}}";

const GREETING: &str =
    "6\0\0\0\0\0\0\0{\"getCapability\":{\"capability\":{\"protocolVersion\":7}}}";

const REQUEST: &str =
    "?\u{1}\0\0\0\0\0\0{\"expandFreestandingMacro\":{\"discriminator\":\"$sX145e0_E\",\"macro\":{\"moduleName\":\"SampleMacros\",\"name\":\"stringify\",\"typeName\":\"StringifyMacro\"},\"macroRole\":\"expression\",\"syntax\":{\"kind\":\"expression\",\"location\":{\"column\":9,\"fileID\":\"main/r.swift\",\"fileName\":\"r.swift\",\"line\":2,\"offset\":145},\"source\":\"#stringify(a + b)\"}}}";

/// Of `#p(1)` and of `#p(2)` in `TWO_USES`.
const FIRST_REQUEST: &str =
    "\u{f}\u{1}\0\0\0\0\0\0{\"expandFreestandingMacro\":{\"discriminator\":\"$sX8e0_E\",\"macro\":{\"moduleName\":\"A\",\"name\":\"p\",\"typeName\":\"P\"},\"macroRole\":\"expression\",\"syntax\":{\"kind\":\"expression\",\"location\":{\"column\":9,\"fileID\":\"main/r.swift\",\"fileName\":\"r.swift\",\"line\":1,\"offset\":8},\"source\":\"#p(1)\"}}}";

const SECOND_REQUEST: &str =
    "\u{11}\u{1}\0\0\0\0\0\0{\"expandFreestandingMacro\":{\"discriminator\":\"$sX22e0_E\",\"macro\":{\"moduleName\":\"A\",\"name\":\"p\",\"typeName\":\"P\"},\"macroRole\":\"expression\",\"syntax\":{\"kind\":\"expression\",\"location\":{\"column\":9,\"fileID\":\"main/r.swift\",\"fileName\":\"r.swift\",\"line\":2,\"offset\":22},\"source\":\"#p(2)\"}}}";

/// Of `#outer(#inner(1))` behind `let v = `.
const NESTED_REQUEST: &str =
    "#\u{1}\0\0\0\0\0\0{\"expandFreestandingMacro\":{\"discriminator\":\"$sX8e0_E\",\"macro\":{\"moduleName\":\"A\",\"name\":\"outer\",\"typeName\":\"Outer\"},\"macroRole\":\"expression\",\"syntax\":{\"kind\":\"expression\",\"location\":{\"column\":9,\"fileID\":\"main/r.swift\",\"fileName\":\"r.swift\",\"line\":1,\"offset\":8},\"source\":\"#outer(#inner(1))\"}}}";

/// Of `#twice(x)` behind `let t = `, and of the two uses in its reply `#one(x) + #one(x)`, without their lengths.
const TWICE_REQUEST: &str =
    "{\"expandFreestandingMacro\":{\"discriminator\":\"$sX8e0_E\",\"macro\":{\"moduleName\":\"A\",\"name\":\"twice\",\"typeName\":\"Twice\"},\"macroRole\":\"expression\",\"syntax\":{\"kind\":\"expression\",\"location\":{\"column\":9,\"fileID\":\"main/r.swift\",\"fileName\":\"r.swift\",\"line\":1,\"offset\":8},\"source\":\"#twice(x)\"}}}";

const LEFT_REQUEST: &str =
    "{\"expandFreestandingMacro\":{\"discriminator\":\"$sX8e0_0e0_E\",\"macro\":{\"moduleName\":\"A\",\"name\":\"one\",\"typeName\":\"One\"},\"macroRole\":\"expression\",\"syntax\":{\"kind\":\"expression\",\"location\":{\"column\":1,\"fileID\":\"main/$sX8e0_E.swift\",\"fileName\":\"$sX8e0_E.swift\",\"line\":1,\"offset\":0},\"source\":\"#one(x)\"}}}";

const RIGHT_REQUEST: &str =
    "{\"expandFreestandingMacro\":{\"discriminator\":\"$sX8e0_10e0_E\",\"macro\":{\"moduleName\":\"A\",\"name\":\"one\",\"typeName\":\"One\"},\"macroRole\":\"expression\",\"syntax\":{\"kind\":\"expression\",\"location\":{\"column\":11,\"fileID\":\"main/$sX8e0_E.swift\",\"fileName\":\"$sX8e0_E.swift\",\"line\":1,\"offset\":10},\"source\":\"#one(x)\"}}}";

/// The macros of the sample plug-in.
const SAMPLE_MACROS: &str = "\
@freestanding(expression) macro stringify<T>(_ value: T) -> (T, String) = #externalMacro(module: \"SampleMacros\", type: \"StringifyMacro\")
@freestanding(declaration) macro funcUnique() = #externalMacro(module: \"SampleMacros\", type: \"FuncUniqueMacro\")
@attached(peer, names: prefixed(_)) macro AddPeer() = #externalMacro(module: \"SampleMacros\", type: \"AddPeerMacro\")
@attached(member, names: arbitrary) macro CaseDetection() = #externalMacro(module: \"SampleMacros\", type: \"CaseDetectionMacro\")
@attached(memberAttribute) @attached(member, names: named(_storage)) macro Storage() = #externalMacro(module: \"SampleMacros\", type: \"StorageMembersMacro\")
@attached(accessor) macro StorageAccessor() = #externalMacro(module: \"SampleMacros\", type: \"StorageAccessorMacro\")
@attached(extension, conformances: Equatable) macro AddEquatable() = #externalMacro(module: \"SampleMacros\", type: \"EquatableExtensionMacro\")
";

const TWO_USES: &str = "let a = #p(1)\nlet b = #p(2)\n";

const WITH_MACROS: &str = "expand --macros m.swift r.swift A=a";

/// The reads of a process that gives a greeting's answer and a reply of one letter each time.
const ONE_FRAME_A_READ: [u32; 3] = [68, 69, 69];

#[derive(Drop)]
struct Ran {
    ended: Ended<MemSink, MemSource>,
    files: MemFiles,
    out: MemSink,
    err: MemSink,
}

fn text(alloc: Global, of: &str) -> Result<Text, AllocError> {
    Text::from_bytes(alloc, of.as_bytes())
}

fn joined(alloc: Global, parts: &[&str]) -> Result<String, AllocError> {
    let mut whole = String::new(alloc);
    for part in parts {
        whole.push_str(part)?;
    }
    Ok(whole)
}

fn words_of(alloc: Global, line: &str) -> Result<Vec<String>, AllocError> {
    let mut words = Vec::new(alloc);
    for word in line.split_whitespace() {
        words.push(String::from_str(alloc, word)?)?;
    }
    Ok(words)
}

fn files_of(alloc: Global, files: &[(&str, &str)]) -> Result<MemFiles, AllocError> {
    let mut contents = Vec::new(alloc);
    for (name, content) in files {
        contents.push((text(alloc, name)?, text(alloc, content)?))?;
    }
    Ok(MemFiles::new(alloc, contents, Vec::new(alloc)))
}

// A process that gives these bytes, the first `sizes` reads so many at most.
fn script(alloc: Global, gives: Vec<u8>, sizes: &[u32]) -> Result<MemScript, AllocError> {
    Ok(MemScript {
        gives: Text::from_vec(gives),
        pieces: Listed::from_vec(Vec::from_slice(alloc, sizes)?),
        failing_reads: Listed::from_vec(Vec::new(alloc)),
        failing_writes: Listed::from_vec(Vec::new(alloc)),
        room: 4096,
    })
}

fn one_script(alloc: Global, gives: Vec<u8>, sizes: &[u32]) -> Result<Vec<MemScript>, AllocError> {
    let mut scripts = Vec::new(alloc);
    scripts.push(script(alloc, gives, sizes)?)?;
    Ok(scripts)
}

// The words between spaces, over these files and processes, and an `out` whose calls in `failing` fail.
fn run_failing(
    rt: HostRuntime,
    words: &str,
    files: &[(&str, &str)],
    scripts: Vec<MemScript>,
    failing: Vec<u64>,
) -> Result<Ran, AllocError> {
    let alloc = rt.alloc();
    let words = words_of(alloc, words)?;
    let mut files = files_of(alloc, files)?;
    let mut starter = MemStarter::new(alloc, scripts, Vec::new(alloc));
    let mut out = MemSink::new(alloc, 4096, failing)?;
    let mut err = MemSink::new(alloc, 4096, Vec::new(alloc))?;
    let ended = run(rt, &words, &mut files, &mut out, &mut err, &mut starter);
    Ok(Ran {
        ended,
        files,
        out,
        err,
    })
}

fn run_on(
    rt: HostRuntime,
    words: &str,
    files: &[(&str, &str)],
    scripts: Vec<MemScript>,
) -> Result<Ran, AllocError> {
    run_failing(rt, words, files, scripts, Vec::new(rt.alloc()))
}

// No process is there to be asked.
fn run_alone(rt: HostRuntime, words: &str, files: &[(&str, &str)]) -> Result<Ran, AllocError> {
    run_on(rt, words, files, Vec::new(rt.alloc()))
}

// The source r.swift with the file of macros.
fn run_with_macros(
    rt: HostRuntime,
    content: &str,
    scripts: Vec<MemScript>,
) -> Result<Ran, AllocError> {
    let files = [("m.swift", MACROS), ("r.swift", content)];
    run_on(rt, WITH_MACROS, &files, scripts)
}

// The frame of a payload.
fn put_frame(frames: &mut Vec<u8>, payload: &[u8]) -> Result<(), AllocError> {
    frames.extend_from_slice(&(payload.len() as u64).to_le_bytes())?;
    frames.extend_from_slice(payload)
}

// What a process gives that answers the greeting, and then the requests with these texts.
fn answers(alloc: Global, replies: &[&str]) -> Result<Vec<u8>, AllocError> {
    let before = "{\"expandMacroResult\":{\"diagnostics\":[],\"expandedSource\":\"";
    let mut gives = Vec::from_slice(alloc, GREETED.as_bytes())?;
    for reply in replies {
        let payload = joined(alloc, &[before, reply, "\"}}"])?;
        put_frame(&mut gives, payload.as_bytes())?;
    }
    Ok(gives)
}

fn expect(rt: &impl Abort, ran: &Ran, status: u8, out: &str, err: &str) {
    assert_eq!(rt; ran.ended.status, status);
    assert_eq!(rt; ran.out.held(), out.as_bytes());
    assert_eq!(rt; ran.err.held(), err.as_bytes());
}

fn expect_unasked(rt: &impl Abort, ran: &Ran) {
    assert_eq!(rt; ran.ended.links.len(), 0);
    assert_eq!(rt; ran.ended.unstarted.len(), 0);
}

// Lines of faults, and nothing was asked.
fn expect_refused(rt: &impl Abort, ran: &Ran, lines: &str) {
    expect(rt, ran, 1, "", lines);
    expect_unasked(rt, ran);
}

// The files that were read, in order.
fn expect_read(rt: &impl Abort, ran: &Ran, names: &[&str]) {
    assert_eq!(rt; ran.files.names().len(), names.len());
    for (read, name) in ran.files.names().iter().zip(names) {
        assert_eq!(rt; read.bytes(), name.as_bytes());
    }
}

#[test]
fn empty_file_prints_nothing(rt: HostRuntime) -> Result<(), Fail> {
    let ran = run_alone(rt, "expand r.swift", &[("r.swift", "")])?;
    expect(&rt, &ran, 0, "", "");
    expect_unasked(&rt, &ran);
    expect_read(&rt, &ran, &["r.swift"]);
    Ok(())
}

#[test]
fn file_without_uses_stays(rt: HostRuntime) -> Result<(), Fail> {
    let content =
        "/* a /* b */ c */ struct S {\n  let t = #\"a \"b\" \\(x)\"#\n  let m = \"\"\"\n    \"q\" \\(f(1))\n    \"\"\"\n  var o: Int?\n  var p = a\n    ? b\n    : c\n  func f() { guard let x = y else { return } }\n}\n";
    let ran = run_alone(rt, "expand r.swift", &[("r.swift", content)])?;
    expect(&rt, &ran, 0, content, "");
    let content =
        "/* a /* b */ c */ let t = #\"a \"b\" \\(x)\"# // d\nlet m = \"\"\"\n  \"q\" \\(f(1))\n  \"\"\"\r\nlet é = (`x`)\n@a.b public final class C<T>: D, E where T: F {\n  var x: Int { get { 1 } set { y = newValue } }\n  var z = 2 { didSet { print(z) } }; let w = [1: \"a\"]\n  init?(_ v: T) throws { self.v = v }\n  func f(a: Int) async -> Int { if a > 1 { return a }; return { $0 }(2) }\n}\nenum G { case a, b(Int) }\n";
    let ran = run_alone(rt, "expand r.swift", &[("r.swift", content)])?;
    expect(&rt, &ran, 0, content, "");
    Ok(())
}

// The expansion of `stringify` where the process gives these bytes in such pieces.
fn expand_stringify(rt: HostRuntime, gives: Vec<u8>, sizes: &[u32]) -> Result<Ran, AllocError> {
    let alloc = rt.alloc();
    let source = joined(alloc, &[DECLARATION, "let r = #stringify(a + b)\n"])?;
    let scripts = one_script(alloc, gives, sizes)?;
    let files = [("r.swift", source.as_str())];
    run_on(rt, "expand r.swift SampleMacros=plug", &files, scripts)
}

// The same where it gives both frames.
fn exchange(rt: HostRuntime, piece: u32) -> Result<Ran, AllocError> {
    let alloc = rt.alloc();
    let gives = joined(alloc, &[GREETED, REPLIED])?;
    let sizes = Vec::from_elem(alloc, piece, 160)?;
    expand_stringify(rt, gives.into_bytes(), &sizes)
}

fn expanded(alloc: Global) -> Result<String, AllocError> {
    joined(alloc, &[DECLARATION, "let r = ((a + b, \"a + b\"))\n"])
}

#[test]
fn expands_stringify_in_place(rt: HostRuntime) -> Result<(), Fail> {
    let ran = exchange(rt, 68)?;
    expect(&rt, &ran, 0, &expanded(rt.alloc())?, "");
    Ok(())
}

#[test]
fn frames_of_the_exchange(rt: HostRuntime) -> Result<(), Fail> {
    let alloc = rt.alloc();
    let sent = joined(alloc, &[GREETING, REQUEST])?;
    let gives = joined(alloc, &[GREETED, REPLIED])?;
    let ran = exchange(rt, 68)?;
    assert_eq!(rt; ran.ended.links.len(), 1);
    let link = &ran.ended.links[0];
    assert_eq!(rt; link.writer.held(), sent.as_bytes());
    assert_eq!(rt; link.got.as_slice(), gives.as_bytes());
    assert_eq!(rt; link.stop, Stop::Ended);
    assert!(rt; !link.write_failed);
    Ok(())
}

#[test]
fn pieces_do_not_matter(rt: HostRuntime) -> Result<(), Fail> {
    for piece in [1u32, 1000] {
        let ran = exchange(rt, piece)?;
        expect(&rt, &ran, 0, &expanded(rt.alloc())?, "");
    }
    Ok(())
}

#[test]
fn wrong_words_print_the_usage(rt: HostRuntime) -> Result<(), Fail> {
    let usage =
        "usage: expand [--macros FILE] [--width N] SOURCE [MODULE=COMMAND]...\n       check [--macros FILE] SOURCE\n       show SOURCE\n       measure N\n";
    for words in [
        "",
        "expand",
        "show r.swift",
        "expand -r",
        "expand r.swift A",
        "expand r.swift A=",
        "expand r.swift 1=x",
        "expand a.swift A=x A=y",
        "expand --macros",
        "expand --macros r.swift",
        "expand --macros -m r.swift",
        "expand --macros r.swift r.swift A",
        "expand --macros r.swift --macros r.swift r.swift",
        "expand r.swift --macros r.swift",
    ] {
        let ran = run_alone(rt, words, &[("r.swift", "")])?;
        expect(&rt, &ran, 2, "", usage);
        expect_read(&rt, &ran, &[]);
    }
    Ok(())
}

#[test]
fn missing_file(rt: HostRuntime) -> Result<(), Fail> {
    let ran = run_alone(rt, "expand x.swift", &[])?;
    expect(&rt, &ran, 3, "", "x.swift: the file could not be read\n");
    Ok(())
}

// The file of macros is read first, and the source only where that succeeds.
#[test]
fn files_are_read_in_order(rt: HostRuntime) -> Result<(), Fail> {
    let words = "expand --macros m.swift r.swift";
    let ran = run_alone(
        rt,
        words,
        &[("r.swift", "let a = 1\n"), ("m.swift", MACROS)],
    )?;
    expect(&rt, &ran, 0, "let a = 1\n", "");
    expect_read(&rt, &ran, &["m.swift", "r.swift"]);
    let ran = run_alone(rt, words, &[("r.swift", "struct S {")])?;
    expect(&rt, &ran, 3, "", "m.swift: the file could not be read\n");
    expect_read(&rt, &ran, &["m.swift"]);
    let ran = run_alone(rt, words, &[("m.swift", "struct S {")])?;
    expect(&rt, &ran, 3, "", "r.swift: the file could not be read\n");
    expect_read(&rt, &ran, &["m.swift", "r.swift"]);
    Ok(())
}

// Lines of 32 bytes, one more than a file may have.
fn too_long(alloc: Global) -> Result<String, AllocError> {
    let mut content = String::new(alloc);
    for _ in 0..131_073 {
        content.push_str("let a = (b + c + d + e + f + g)\n")?;
    }
    Ok(content)
}

#[test]
fn source_above_the_limit(rt: HostRuntime) -> Result<(), Fail> {
    let content = too_long(rt.alloc())?;
    let ran = run_alone(rt, "expand r.swift", &[("r.swift", &content)])?;
    let line = "r.swift:1:1: error: the text is longer than 4194304 bytes\n";
    expect_refused(&rt, &ran, line);
    Ok(())
}

#[test]
fn macros_file_above_the_limit(rt: HostRuntime) -> Result<(), Fail> {
    let content = too_long(rt.alloc())?;
    let files = [("m.swift", content.as_str()), ("r.swift", "let a = 1\n")];
    let ran = run_alone(rt, "expand --macros m.swift r.swift", &files)?;
    let line = "m.swift:1:1: error: the text is longer than 4194304 bytes\n";
    expect_refused(&rt, &ran, line);
    expect_read(&rt, &ran, &["m.swift"]);
    Ok(())
}

// The first file that is refused names its fault; the table of macros comes after both.
#[test]
fn first_fault_of_two_files(rt: HostRuntime) -> Result<(), Fail> {
    let cases = [
        (
            "struct S {",
            "struct\n",
            "m.swift:1:10: error: this bracket is not closed\n",
        ),
        (
            "macro a()\n",
            "let b = 1\nstruct\n",
            "r.swift:2:1: error: a name was expected\n",
        ),
    ];
    for (macros, content, line) in cases {
        let files = [("m.swift", macros), ("r.swift", content)];
        let ran = run_alone(rt, WITH_MACROS, &files)?;
        expect_refused(&rt, &ran, line);
        expect_read(&rt, &ran, &["m.swift", "r.swift"]);
    }
    Ok(())
}

#[test]
fn first_write_fails(rt: HostRuntime) -> Result<(), Fail> {
    let alloc = rt.alloc();
    let source = joined(alloc, &[DECLARATION, "let r = #stringify(a + b)\n"])?;
    let gives = joined(alloc, &[GREETED, REPLIED])?;
    let ran = run_failing(
        rt,
        "expand r.swift SampleMacros=plug",
        &[("r.swift", &source)],
        one_script(alloc, gives.into_bytes(), &[])?,
        [0].to_vec(alloc)?,
    )?;
    expect(&rt, &ran, 4, "", "");
    Ok(())
}

#[test]
fn refusals_of_a_use(rt: HostRuntime) -> Result<(), Fail> {
    let alloc = rt.alloc();
    let source = joined(alloc, &[DECLARATION, "let r = #stringify(a + b)\n"])?;
    let cases = [
        (
            "expand r.swift",
            source.as_str(),
            "r.swift:2:9: error: no plug-in for module 'SampleMacros'\n",
        ),
        (
            "expand r.swift",
            "let r = #nope(1)\n",
            "r.swift:1:9: error: no macro named 'nope'\n",
        ),
        // There is no script left, so the start fails.
        (
            "expand r.swift SampleMacros=plug",
            source.as_str(),
            "r.swift:2:9: error: plug-in 'SampleMacros' gave no reply\n",
        ),
    ];
    for (words, content, line) in cases {
        let ran = run_alone(rt, words, &[("r.swift", content)])?;
        expect(&rt, &ran, 1, "", line);
        for entry in &ran.ended.unstarted {
            assert_eq!(rt; (entry.before, entry.after), (0, 1));
        }
    }
    Ok(())
}

// The source s.swift with this content, where no process is there to be asked.
fn on_source(rt: HostRuntime, content: &str) -> Result<Ran, AllocError> {
    let words = "expand s.swift SampleMacros=plug";
    run_alone(rt, words, &[("s.swift", content)])
}

#[test]
fn unclosed_bracket(rt: HostRuntime) -> Result<(), Fail> {
    let line = "s.swift:1:10: error: this bracket is not closed\n";
    let ran = on_source(rt, "struct S {")?;
    expect_refused(&rt, &ran, line);
    Ok(())
}

#[test]
fn missing_name(rt: HostRuntime) -> Result<(), Fail> {
    let line = "s.swift:1:1: error: a name was expected\n";
    let ran = on_source(rt, "struct\n")?;
    expect_refused(&rt, &ran, line);
    Ok(())
}

#[test]
fn dangling_operator(rt: HostRuntime) -> Result<(), Fail> {
    let line = "s.swift:1:11: error: the declaration does not end here\n";
    let ran = on_source(rt, "let a = 1 +\n")?;
    expect_refused(&rt, &ran, line);
    Ok(())
}

#[test]
fn use_in_an_interpolation(rt: HostRuntime) -> Result<(), Fail> {
    let line = "s.swift:1:12: error: a macro use in an interpolation is left out\n";
    let ran = on_source(rt, "let s = \"\\(#p(1))\"\n")?;
    expect_refused(&rt, &ran, line);
    Ok(())
}

#[test]
fn names_of_expansions_are_reserved(rt: HostRuntime) -> Result<(), Fail> {
    let line = "s.swift:2:10: error: names that begin with $sX are reserved\n";
    let ran = on_source(rt, "let r = 1\nlet s = ($sX1)\n")?;
    expect_refused(&rt, &ran, line);
    Ok(())
}

#[test]
fn one_process_two_uses(rt: HostRuntime) -> Result<(), Fail> {
    let alloc = rt.alloc();
    let gives = answers(alloc, &["1", "2"])?;
    let scripts = one_script(alloc, gives, &ONE_FRAME_A_READ)?;
    let ran = run_with_macros(rt, TWO_USES, scripts)?;
    expect(&rt, &ran, 0, "let a = (1)\nlet b = (2)\n", "");
    assert_eq!(rt; ran.ended.links.len(), 1);
    let link = &ran.ended.links[0];
    assert_eq!(rt; link.asked.len(), 2);
    for key in &link.asked {
        assert_eq!(rt; key.steps.len(), 1);
    }
    let sent = joined(alloc, &[GREETING, FIRST_REQUEST, SECOND_REQUEST])?;
    assert_eq!(rt; link.writer.held(), sent.as_bytes());
    Ok(())
}

#[test]
fn second_process_after_an_end(rt: HostRuntime) -> Result<(), Fail> {
    let alloc = rt.alloc();
    let mut scripts = one_script(alloc, answers(alloc, &[])?, &[])?;
    scripts.push(script(alloc, answers(alloc, &["2"])?, &[])?)?;
    let ran = run_with_macros(rt, TWO_USES, scripts)?;
    let line = "r.swift:1:9: error: plug-in 'A' gave no reply\n";
    expect(&rt, &ran, 1, "", line);
    assert_eq!(rt; ran.ended.links.len(), 2);
    assert_eq!(rt; ran.ended.unstarted.len(), 0);
    for (link, request) in ran.ended.links.iter().zip([FIRST_REQUEST, SECOND_REQUEST]) {
        assert_eq!(rt; link.asked.len(), 1);
        let sent = joined(alloc, &[GREETING, request])?;
        assert_eq!(rt; link.writer.held(), sent.as_bytes());
    }
    Ok(())
}

#[test]
fn use_in_arguments_is_text(rt: HostRuntime) -> Result<(), Fail> {
    let alloc = rt.alloc();
    let scripts = one_script(alloc, answers(alloc, &["1"])?, &[])?;
    let ran = run_with_macros(rt, "let v = #outer(#inner(1))\n", scripts)?;
    expect(&rt, &ran, 0, "let v = (1)\n", "");
    assert_eq!(rt; ran.ended.links.len(), 1);
    let sent = joined(alloc, &[GREETING, NESTED_REQUEST])?;
    assert_eq!(rt; ran.ended.links[0].writer.held(), sent.as_bytes());
    Ok(())
}

#[test]
fn module_without_a_plugin(rt: HostRuntime) -> Result<(), Fail> {
    let files = [("m.swift", MACROS), ("r.swift", "let a = #p(1)\n")];
    let ran = run_alone(rt, "expand --macros m.swift r.swift", &files)?;
    let line = "r.swift:1:9: error: no plug-in for module 'A'\n";
    expect_refused(&rt, &ran, line);
    Ok(())
}

// A name is one macro's, whichever of the two files declares it.
#[test]
fn macro_declared_twice(rt: HostRuntime) -> Result<(), Fail> {
    let alloc = rt.alloc();
    let macros = joined(alloc, &[DECLARATION, DECLARATION])?;
    let source = joined(alloc, &["let r = #stringify(1)\n", DECLARATION])?;
    let files = [("m.swift", macros.as_str()), ("r.swift", &source)];
    let ran = run_alone(
        rt,
        "expand --macros m.swift r.swift SampleMacros=plug",
        &files,
    )?;
    let lines =
        "m.swift:2:33: error: macro 'stringify' is declared twice\nr.swift:2:33: error: macro 'stringify' is declared twice\n";
    expect_refused(&rt, &ran, lines);
    Ok(())
}

/// Texts with what is written about them: the faults of declarations, of uses and of attributes, and several of them.
const FAULTS: [(&str, &str); 17] = [
    (
        "@freestanding(expression) macro p() = #externalMacro(module: \"A\", type: \"T\")\n",
        "r.swift:1:33: error: macro 'p' is declared twice\n",
    ),
    (
        "macro a() = #externalMacro(module: \"A\", type: \"T\")\n",
        "r.swift:1:7: error: macro 'a' has no role\n",
    ),
    (
        "@attached(body) macro a() = #externalMacro(module: \"A\", type: \"T\")\n",
        "r.swift:1:1: error: this role is left out or repeated\n",
    ),
    (
        "@freestanding(expression) @freestanding(declaration) macro a() = #externalMacro(module: \"A\", type: \"T\")\n",
        "r.swift:1:27: error: macro 'a' has two freestanding roles\n",
    ),
    (
        "@attached(peer, names: b) macro a() = #externalMacro(module: \"A\", type: \"T\")\n",
        "r.swift:1:1: error: this list of names is not understood\n",
    ),
    (
        "@attached(member, conformances: P) macro a() = #externalMacro(module: \"A\", type: \"T\")\n",
        "r.swift:1:1: error: this list of conformances is not understood\n",
    ),
    (
        "@attached(peer) macro a()\n",
        "r.swift:1:23: error: macro 'a' is not an external macro\n",
    ),
    (
        "let x = #absent()\nmacro a()\nlet y = 1; @attached(peer) macro b()\n",
        "r.swift:2:7: error: macro 'a' has no role\nr.swift:3:34: error: macro 'b' is not an external macro\n",
    ),
    (
        "let x = #nothing(1)\n",
        "r.swift:1:9: error: no macro named 'nothing'\n",
    ),
    (
        "func f() { @Peered var x = 1 }\n",
        "r.swift:1:12: error: macro 'Peered' is attached in a local place\n",
    ),
    (
        "@Stored func f() {}\n",
        "r.swift:1:1: error: macro 'Stored' has no role for this place\n",
    ),
    (
        "@Stored var a = 1, b = 2\n",
        "r.swift:1:1: error: an accessor macro needs a variable with one name\n",
    ),
    (
        "@Stored var a: Int { 1 }\n",
        "r.swift:1:1: error: an accessor macro needs a variable without a getter block\n",
    ),
    (
        "let x = #absent()\n",
        "r.swift:1:9: error: no plug-in for module 'N'\n",
    ),
    (
        "#p(1)\nlet x = #made()\n",
        "r.swift:1:1: error: macro 'p' has no role for this place\nr.swift:2:9: error: macro 'made' has no role for this place\n",
    ),
    (
        "func f() { #d }\n",
        "r.swift:1:12: error: macro 'd' has no role for this place\n",
    ),
    (
        "@p struct S {\n  #nothing\n  func f() { @p let x = #absent() }\n}\n",
        "r.swift:1:1: error: macro 'p' has no role for this place\nr.swift:2:3: error: no macro named 'nothing'\nr.swift:3:14: error: macro 'p' is attached in a local place\nr.swift:3:25: error: no plug-in for module 'N'\n",
    ),
];

#[test]
fn faults_of_declarations_and_sites(rt: HostRuntime) -> Result<(), Fail> {
    for (content, lines) in &FAULTS {
        let ran = run_with_macros(rt, content, Vec::new(rt.alloc()))?;
        expect_refused(&rt, &ran, lines);
    }
    Ok(())
}

/// Texts with the places at which a request of an attached role would be asked.
const NOT_BUILT: [(&str, &[&str]); 6] = [
    ("@Peered struct S {}\n", &["1:1"]),
    ("struct S {\n  @A @Stored var x = 1\n}\n", &["2:6"]),
    // one a member
    (
        "@Given struct S {\n  var a = 1\n  var b = 2\n}\n",
        &["1:1", "1:1"],
    ),
    // as an attribute of members, as a member and as an extension
    ("@Many struct S { var a = 1 }\n", &["1:1", "1:1", "1:1"]),
    ("@Many extension S {}\n", &["1:1"]),
    // in the order of visits, not of places
    ("@Peered struct S { @Stored var x = 1 }\n", &["1:20", "1:1"]),
];

#[test]
fn places_that_are_not_built_yet(rt: HostRuntime) -> Result<(), Fail> {
    let alloc = rt.alloc();
    for (content, places) in &NOT_BUILT {
        let mut lines = String::new(alloc);
        for place in *places {
            let line = ["r.swift:", place, ": error: this form is not built yet\n"];
            lines.push_str(&joined(alloc, &line)?)?;
        }
        let ran = run_with_macros(rt, content, Vec::new(alloc))?;
        expect_refused(&rt, &ran, &lines);
    }
    Ok(())
}

// The uses between places that are faulty or not built are asked all the same.
#[test]
fn uses_beside_faults_are_asked(rt: HostRuntime) -> Result<(), Fail> {
    let alloc = rt.alloc();
    let content =
        "@Peered func f() {}\nlet a = #p(1)\n@Peered struct S { let b = #nothing }\nlet c = #p(2)\nlet d = #p(3)\n";
    let gives = answers(alloc, &["1", "2"])?;
    let scripts = one_script(alloc, gives, &ONE_FRAME_A_READ)?;
    let ran = run_with_macros(rt, content, scripts)?;
    let lines =
        "r.swift:1:1: error: this form is not built yet\nr.swift:3:28: error: no macro named 'nothing'\nr.swift:3:1: error: this form is not built yet\nr.swift:5:9: error: plug-in 'A' gave no reply\n";
    expect(&rt, &ran, 1, "", lines);
    assert_eq!(rt; ran.ended.links.len(), 1);
    assert_eq!(rt; ran.ended.links[0].asked.len(), 3);
    Ok(())
}

// An attribute of a macro that asks nothing there is replaced by one space, and its arguments with it.
#[test]
fn attribute_that_asks_nothing(rt: HostRuntime) -> Result<(), Fail> {
    let alloc = rt.alloc();
    let cases = [
        ("@Given enum E {}\n", "  enum E {}\n"),
        ("@Given(#p(1)) @b\nstruct S {}\n", "  @b\nstruct S {}\n"),
        (
            "let a = 1\n@Given@c extension E {}\n",
            "let a = 1\n @c extension E {}\n",
        ),
    ];
    for (content, whole) in cases {
        let ran = run_with_macros(rt, content, Vec::new(alloc))?;
        expect(&rt, &ran, 0, whole, "");
        expect_unasked(&rt, &ran);
    }
    Ok(())
}

// A parameter, a body, an attribute's argument and a member, in the order of their requests.
#[test]
fn uses_in_visit_order(rt: HostRuntime) -> Result<(), Fail> {
    let alloc = rt.alloc();
    let content =
        "func f(x: Int = #p(0)) { g(#p(1)) }\n@c(#p(2)) class C { var y: Int { #p(3) } }\n@Given enum E {}\n";
    let whole =
        "func f(x: Int = (a)) { g((b)) }\n@c((c)) class C { var y: Int { (d) } }\n  enum E {}\n";
    let gives = answers(alloc, &["a", "b", "c", "d"])?;
    let scripts = one_script(alloc, gives, &[68, 69, 69, 69, 69])?;
    let ran = run_with_macros(rt, content, scripts)?;
    expect(&rt, &ran, 0, whole, "");
    assert_eq!(rt; ran.ended.links.len(), 1);
    Ok(())
}

#[test]
fn bad_replies_are_no_reply(rt: HostRuntime) -> Result<(), Fail> {
    let alloc = rt.alloc();
    let cut = joined(alloc, &[GREETED, "N\0\0\0\0\0\0\0{\"expandMacroResult\""])?;
    let empty = joined(alloc, &[GREETED, "\u{2}\0\0\0\0\0\0\0{}"])?;
    let no_greeting = joined(alloc, &["\u{2}\0\0\0\0\0\0\0{}", REPLIED])?;
    let greeted_twice = joined(alloc, &[GREETED, GREETED])?;
    let no_reply = "r.swift:2:9: error: plug-in 'SampleMacros' gave no reply\n";
    for gives in [
        "",
        GREETED,
        cut.as_str(),
        empty.as_str(),
        no_greeting.as_str(),
        greeted_twice.as_str(),
    ] {
        let gives = Vec::from_slice(alloc, gives.as_bytes())?;
        let ran = expand_stringify(rt, gives, &[])?;
        expect(&rt, &ran, 1, "", no_reply);
    }
    Ok(())
}

#[test]
fn replies_without_a_text_or_with_a_diagnostic(rt: HostRuntime) -> Result<(), Fail> {
    let alloc = rt.alloc();
    let warned =
        "\u{1}\u{1}\0\0\0\0\0\0{\"expandMacroResult\":{\"diagnostics\":[{\"fixIts\":[],\"highlights\":[],\"message\":\"the value is named twice here; it will be worked out once, and shown one time\",\"notes\":[],\"position\":{\"fileName\":\"r.swift\",\"offset\":8},\"severity\":\"warning\"}],\"expandedSource\":\"1\"}}";
    let cases = [
        (
            "(\0\0\0\0\0\0\0{\"expandMacroResult\":{\"diagnostics\":[]}}",
            "r.swift:2:9: error: macro 'stringify' gave no text\n",
        ),
        (warned, "r.swift:2:9: error: this form is not built yet\n"),
    ];
    for (reply, line) in cases {
        let gives = joined(alloc, &[GREETED, reply])?;
        let ran = expand_stringify(rt, gives.into_bytes(), &[])?;
        expect(&rt, &ran, 1, "", line);
    }
    Ok(())
}

#[test]
fn refused_replies(rt: HostRuntime) -> Result<(), Fail> {
    let alloc = rt.alloc();
    let cases = [
        (
            "a + )",
            "$sX145e0_E.swift:1:5: error: this bracket was not opened\n",
        ),
        (
            "(a",
            "$sX145e0_E.swift:1:1: error: this bracket is not closed\n",
        ),
        (
            "a\\n; b",
            "$sX145e0_E.swift:2:1: error: an expression was expected\n",
        ),
        ("", "$sX145e0_E.swift:1:1: error: the reply is empty\n"),
        // a use of the same macro, one of none, and a local attribute
        (
            "f(#stringify(1))",
            "$sX145e0_E.swift:1:3: error: macro 'stringify' expands to itself in the same role\n",
        ),
        (
            "a +\\n  #nothing",
            "$sX145e0_E.swift:2:3: error: no macro named 'nothing'\n",
        ),
        (
            "{ @stringify x in x }",
            "$sX145e0_E.swift:1:3: error: macro 'stringify' is attached in a local place\n",
        ),
    ];
    for (reply, line) in cases {
        let ran = expand_stringify(rt, answers(alloc, &[reply])?, &[])?;
        expect(&rt, &ran, 1, "", line);
        assert_eq!(rt; ran.ended.links.len(), 1);
    }
    Ok(())
}

#[test]
fn reply_is_put_in_from_its_first_token_to_its_last(rt: HostRuntime) -> Result<(), Fail> {
    let alloc = rt.alloc();
    let whole = joined(
        alloc,
        &[DECLARATION, "let r = (@b.stringify /* c */ $sX1)\n"],
    )?;
    let gives = answers(alloc, &[" // a\\n@b.stringify /* c */ $sX1 "])?;
    let ran = expand_stringify(rt, gives, &[])?;
    expect(&rt, &ran, 0, &whole, "");
    Ok(())
}

// The use may stand anywhere, and the declaration too, on several lines.
#[test]
fn use_deep_inside(rt: HostRuntime) -> Result<(), Fail> {
    let alloc = rt.alloc();
    let declaration =
        "@freestanding(expression)\nmacro p(_: Int) -> Int\n  = #externalMacro(\n    module: \"SampleMacros\", type: \"P\"\n  )\n";
    let cases = [
        ("struct S {\n  func f() {\n    g(", ")\n  }\n}\n"),
        ("let c = { x in ", " }\n"),
        ("@A(", ") class C {}\n"),
        ("var x: Int {\n  get { ", " }\n}\n"),
    ];
    for (before, behind) in cases {
        let content = joined(alloc, &[before, "#p(#p(1))", behind, declaration])?;
        let whole = joined(alloc, &[before, "(2)", behind, declaration])?;
        let scripts = one_script(alloc, answers(alloc, &["2"])?, &[])?;
        let words = "expand s.swift SampleMacros=plug";
        let ran = run_on(rt, words, &[("s.swift", &content)], scripts)?;
        expect(&rt, &ran, 0, &whole, "");
    }
    Ok(())
}

// A process that replies with these texts, one frame a read.
fn replying(alloc: Global, replies: &[&str]) -> Result<MemScript, AllocError> {
    let mut sizes = Vec::from_slice(alloc, &[68u32])?;
    for reply in replies {
        sizes.push(reply.len().min(4096) as u32 + 68)?;
    }
    script(alloc, answers(alloc, replies)?, &sizes)
}

// The source r.swift, where the process of module `A` replies with these texts.
fn expand_replying(rt: HostRuntime, content: &str, replies: &[&str]) -> Result<Ran, AllocError> {
    let mut scripts = Vec::new(rt.alloc());
    scripts.push(replying(rt.alloc(), replies)?)?;
    run_with_macros(rt, content, scripts)
}

// One process was started, and was asked so many requests.
fn expect_asked(rt: &impl Abort, ran: &Ran, count: usize) {
    assert_eq!(rt; (ran.ended.links.len(), ran.ended.unstarted.len()), (1, 0));
    assert_eq!(rt; ran.ended.links[0].asked.len(), count);
}

// One process was started, and was given these bytes.
fn expect_given(rt: &impl Abort, ran: &Ran, frames: &[u8]) {
    assert_eq!(rt; (ran.ended.links.len(), ran.ended.unstarted.len()), (1, 0));
    assert_eq!(rt; ran.ended.links[0].writer.held(), frames);
}

// What a process was given: the greeting, and these requests.
fn sent(alloc: Global, requests: &[&str]) -> Result<Vec<u8>, AllocError> {
    let mut frames = Vec::from_slice(alloc, GREETING.as_bytes())?;
    for request in requests {
        put_frame(&mut frames, request.as_bytes())?;
    }
    Ok(frames)
}

#[test]
fn nested_uses_answered_in_any_order(rt: HostRuntime) -> Result<(), Fail> {
    let alloc = rt.alloc();
    let replies = ["#one(x) + #one(x)", "x1", "x2"];
    let ran = expand_replying(rt, "let t = #twice(x)\n", &replies)?;
    expect(&rt, &ran, 0, "let t = ((x1) + (x2))\n", "");
    expect_asked(&rt, &ran, 3);
    let frames = sent(alloc, &[TWICE_REQUEST, LEFT_REQUEST, RIGHT_REQUEST])?;
    expect_given(&rt, &ran, &frames);
    Ok(())
}

// The process ends behind its second reply, and the third request starts another one.
#[test]
fn nested_use_without_a_reply(rt: HostRuntime) -> Result<(), Fail> {
    let alloc = rt.alloc();
    let replies = ["#one(x) + #one(x)", "x1"];
    let ran = expand_replying(rt, "let t = #twice(x)\n", &replies)?;
    let line = "$sX8e0_E.swift:1:11: error: plug-in 'A' gave no reply\n";
    expect(&rt, &ran, 1, "", line);
    expect_asked(&rt, &ran, 3);
    let frames = sent(alloc, &[TWICE_REQUEST, LEFT_REQUEST, RIGHT_REQUEST])?;
    expect_given(&rt, &ran, &frames);
    Ok(())
}

#[test]
fn recursion_is_refused(rt: HostRuntime) -> Result<(), Fail> {
    let ran = expand_replying(rt, "let v = #loop(1)\n", &["#loop(1)"])?;
    let line = "$sX8e0_E.swift:1:1: error: macro 'loop' expands to itself in the same role\n";
    expect(&rt, &ran, 1, "", line);
    expect_asked(&rt, &ran, 1);
    Ok(())
}

#[test]
fn equal_uses_get_different_names(rt: HostRuntime) -> Result<(), Fail> {
    let alloc = rt.alloc();
    let mut scripts = Vec::new(alloc);
    let replies = [
        "func $sX0d0_E7__localfMu_() {}",
        "func $sX12d0_E7__localfMu_() {}",
    ];
    scripts.push(replying(alloc, &replies)?)?;
    let words = "expand --macros m.swift r.swift SampleMacros=plug";
    let files = [
        ("m.swift", SAMPLE_MACROS),
        ("r.swift", "#funcUnique\n#funcUnique\n"),
    ];
    let ran = run_on(rt, words, &files, scripts)?;
    let whole = "\nfunc $sX0d0_E7__localfMu_() {}\n\n\nfunc $sX12d0_E7__localfMu_() {}\n\n";
    expect(&rt, &ran, 0, whole, "");
    expect_asked(&rt, &ran, 2);
    Ok(())
}

#[test]
fn import_is_forbidden(rt: HostRuntime) -> Result<(), Fail> {
    let ran = expand_replying(rt, "#d\n", &["import X"])?;
    let line = "$sX0d0_E.swift:1:1: error: macro 'd' may not make this declaration here\n";
    expect(&rt, &ran, 1, "", line);
    expect_asked(&rt, &ran, 1);
    Ok(())
}

#[test]
fn empty_declaration_reply(rt: HostRuntime) -> Result<(), Fail> {
    let ran = expand_replying(rt, "#d\n", &[""])?;
    expect(&rt, &ran, 0, " \n", "");
    expect_asked(&rt, &ran, 1);
    Ok(())
}

/// Texts, the replies of one process in order, and the expanded files.
const EXPANDED: [(&str, &[&str], &str); 7] = [
    // a use in arguments of a reply's use is text, too
    (
        "let v = #outer(1)\n",
        &["#inner(#p(2))", "#p(3) + 1", "4"],
        "let v = (((4) + 1))\n",
    ),
    // each macro in replies of the other's sibling
    (
        "let v = [#outer(1), #inner(1)]\n",
        &["#inner(2)", "#outer(2)", "a", "b"],
        "let v = [((a)), ((b))]\n",
    ),
    ("#d\n", &["// nothing"], " \n"),
    (
        "#d\n",
        &["func f() { #p(1) }", "2"],
        "\nfunc f() { (2) }\n\n",
    ),
    (
        "#d\n",
        &["#made", "let $sX0d0_0d0_E1aMu_ = 1"],
        "\n\nlet $sX0d0_0d0_E1aMu_ = 1\n\n\n",
    ),
    (
        "struct S {\n  #free\n}\n",
        &["init() {}; var x = 1"],
        "struct S {\n  \ninit() {}; var x = 1\n\n}\n",
    ),
    ("struct S { #free }\n", &[""], "struct S {   }\n"),
];

#[test]
fn replies_are_expanded_in_place(rt: HostRuntime) -> Result<(), Fail> {
    for (content, replies, whole) in &EXPANDED {
        let ran = expand_replying(rt, content, replies)?;
        expect(&rt, &ran, 0, whole, "");
        expect_asked(&rt, &ran, replies.len());
    }
    Ok(())
}

/// Texts, the replies of one process in order, and what is written about them.
const REFUSED: [(&str, &[&str], &str); 11] = [
    // the other use is asked all the same
    (
        "let t = #twice(x)\n",
        &["#absent + #one(x)", "x2"],
        "$sX8e0_E.swift:1:1: error: no plug-in for module 'N'\n",
    ),
    (
        "let v = #outer(1)\n",
        &["#inner(1)", "#outer(1)"],
        "$sX8e0_0e0_E.swift:1:1: error: macro 'outer' expands to itself in the same role\n",
    ),
    (
        "#d\n",
        &["#d"],
        "$sX0d0_E.swift:1:1: error: macro 'd' expands to itself in the same role\n",
    ),
    (
        "#d\n",
        &["func f() {}\\nfunc g() {}"],
        "$sX0d0_E.swift:2:6: error: the name 'g' is not in the list of macro 'd'\n",
    ),
    (
        "#d\n#d\n",
        &["let $sX0d0_E1aMu_ = 1", "let $sX0d0_E1aMu_ = 1"],
        "$sX3d0_E.swift:1:5: error: the name '$sX0d0_E1aMu_' is not in the list of macro 'd'\n",
    ),
    (
        "#free\n",
        &["let x = 1"],
        "$sX0d0_E.swift:1:1: error: arbitrary names are not allowed at file scope\n",
    ),
    (
        "#free\n",
        &["init() {}"],
        "$sX0d0_E.swift:1:1: error: macro 'free' may not make this declaration here\n",
    ),
    (
        "struct S { #free }\n",
        &["extension S {}"],
        "$sX11d0_E.swift:1:1: error: macro 'free' may not make this declaration here\n",
    ),
    (
        "#d\n",
        &["struct"],
        "$sX0d0_E.swift:1:1: error: a name was expected\n",
    ),
    // what is said of a reply stands where its use does
    (
        "let a = #nothing\nlet b = #p(1)\nlet c = #nothing\n",
        &[")"],
        "r.swift:1:9: error: no macro named 'nothing'\n$sX25e0_E.swift:1:1: error: this bracket was not opened\nr.swift:3:9: error: no macro named 'nothing'\n",
    ),
    // the members of a type with an attribute that isn't built yet
    (
        "@Given struct S {\n  var a = 1\n  #made\n}\n",
        &["let x = 1"],
        "r.swift:1:1: error: this form is not built yet\n$sX32d0_E.swift:1:5: error: the name 'x' is not in the list of macro 'made'\n",
    ),
];

#[test]
fn replies_that_may_not_stand(rt: HostRuntime) -> Result<(), Fail> {
    for (content, replies, lines) in &REFUSED {
        let ran = expand_replying(rt, content, replies)?;
        expect(&rt, &ran, 1, "", lines);
        expect_asked(&rt, &ran, replies.len());
    }
    Ok(())
}

#[test]
fn declaration_without_a_text(rt: HostRuntime) -> Result<(), Fail> {
    let alloc = rt.alloc();
    let no_text = "(\0\0\0\0\0\0\0{\"expandMacroResult\":{\"diagnostics\":[]}}";
    let gives = joined(alloc, &[GREETED, no_text])?;
    let scripts = one_script(alloc, gives.into_bytes(), &[])?;
    let ran = run_with_macros(rt, "#d\n", scripts)?;
    expect(
        &rt,
        &ran,
        1,
        "",
        "r.swift:1:1: error: macro 'd' gave no text\n",
    );
    Ok(())
}

// So many uses, in one list.
fn many_uses(alloc: Global, count: u32) -> Result<String, AllocError> {
    let mut content = String::from_str(alloc, "let a = [#p")?;
    for _ in 1..count {
        content.push_str(",#p")?;
    }
    content.push_str("]\n")?;
    Ok(content)
}

#[test]
fn more_uses_than_are_asked(rt: HostRuntime) -> Result<(), Fail> {
    let alloc = rt.alloc();
    let content = many_uses(alloc, 65_537)?;
    let scripts = one_script(alloc, answers(alloc, &["1"])?, &[])?;
    let ran = run_with_macros(rt, &content, scripts)?;
    let line = "r.swift:1:1: error: the file needs more than 65536 expansions\n";
    expect_refused(&rt, &ran, line);
    Ok(())
}

// Behind the first reply the process gives more bytes than are read of all, so the second use isn't asked.
#[test]
fn more_bytes_than_are_read(rt: HostRuntime) -> Result<(), Fail> {
    let alloc = rt.alloc();
    let mut gives = answers(alloc, &["1"])?;
    gives.resize(67_108_865, 255)?;
    let ran = run_with_macros(rt, TWO_USES, one_script(alloc, gives, &[])?)?;
    let line = "r.swift:1:1: error: the plug-ins sent more than 67108864 bytes\n";
    expect(&rt, &ran, 1, "", line);
    assert_eq!(rt; ran.ended.links.len(), 1);
    let link = &ran.ended.links[0];
    assert_eq!(rt; (link.asked.len(), link.got.len()), (1, 67_108_865));
    assert_eq!(rt; link.stop, Stop::Overrun);
    Ok(())
}
