// Worked examples: the fault of each site, what is text alone, orders of visits, and steps of an expansion.
ghost use Rattle.std.specs.Prelude.{Ok, IfOk};
ghost use Rattle.std.specs.List.{All};
ghost use Rattle.swift_tree.specs.Outlines.{outline_of};
ghost use Rattle.decl_parser.specs.Outline.{IsOutline};
ghost use Rattle.macro_decls.specs.Macros.{IsDeclReadable};
ghost use Rattle.expansion_model.specs.Buffers.{IsSound, buffer_seen};

use super::*;
use decl_parser::{outline_keeps_the_text, parse_file, parse_items};
use macro_decls::MacroTable;
use plugin_messages::{Outcome, Parts, Request};
use role_names::declared_names;
use std::alloc::Global;
use std::fmt::Write;
use std::process::Abort;
use std::test::Fail;
use swift_base::{Listed, Plugin, Plugins, Span, Text};
use swift_tree::Outline;
use unique_names::{Key, KeyStep, Role};

/// The macros of the examples. Module `N` has no plug-in.
const MACROS: &str = "\
@freestanding(expression) macro outer(_ x: Int) -> Int = #externalMacro(module: \"M\", type: \"Outer\")
@freestanding(expression) macro inner(_ x: Int) -> Int = #externalMacro(module: \"M\", type: \"Inner\")
@freestanding(declaration) macro made() = #externalMacro(module: \"M\", type: \"Made\")
@freestanding(expression) macro absent() -> Int = #externalMacro(module: \"N\", type: \"Absent\")
@attached(peer) macro Peered() = #externalMacro(module: \"M\", type: \"Peered\")
@attached(peer) macro Lost() = #externalMacro(module: \"N\", type: \"Lost\")
@attached(accessor) macro Stored() = #externalMacro(module: \"M\", type: \"Stored\")
@attached(memberAttribute) macro Given() = #externalMacro(module: \"M\", type: \"Given\")
@attached(member) macro Membered() = #externalMacro(module: \"M\", type: \"Membered\")
@attached(extension) macro Extended() = #externalMacro(module: \"M\", type: \"Extended\")
@attached(peer) @attached(accessor) macro Both() = #externalMacro(module: \"M\", type: \"Both\")
@attached(extension) @attached(peer) @attached(member) @attached(memberAttribute) macro Many() = #externalMacro(module: \"M\", type: \"Many\")
";

fn macros(alloc: Global) -> Result<MacroTable, Fail>
    ensures { IfOk result (λ table. All IsDeclReadable table) }
{
    let outline = parse_file(alloc, MACROS.as_bytes())?;
    let table = MacroTable::from_outlines(alloc, &[&outline])?;
    Ok(table)
}

fn plugins(alloc: Global) -> Result<Plugins, Fail> {
    let mut list = Vec::new(alloc);
    list.push(Plugin {
        module: Text::from_bytes(alloc, b"M")?,
        command: Text::from_bytes(alloc, b"plug")?,
    })?;
    Ok(Plugins::new(list))
}

fn accepted(alloc: Global, text: &str) -> Result<Outline, Fail>
    ensures { IfOk result (λ outline. IsOutline outline.text outline.shape (Ok (outline_of outline))) }
{
    outline_keeps_the_text();
    let outline = parse_file(alloc, text.as_bytes())?;
    Ok(outline)
}

/// The source r.swift with this text.
fn source(alloc: Global, text: &str) -> Result<Buffer, Fail>
    ensures { IfOk result (λ buffer. IsSound (buffer_seen buffer)) }
{
    let outline = accepted(alloc, text)?;
    let buffer = Buffer::source(alloc, b"r.swift", outline)?;
    Ok(buffer)
}

fn str_of(text: &Text) -> &str {
    str::from_utf8(text.bytes()).unwrap_or("?")
}

fn put_site(alloc: Global, line: &mut String, site: &Site) -> Result<(), Fail> {
    match site {
        Site::Asks(ask) => {
            let target = &ask.target;
            let (module, type_name) = (str_of(&target.module), str_of(&target.type_name));
            write!(
                line,
                " {} asks {}={module}.{type_name}",
                ask.macro_use.span.start,
                str_of(&target.name)
            )?
        }
        Site::Fault(fault) => write!(
            line,
            " {} {:?} {}",
            fault.at,
            fault.kind,
            str_of(&fault.name)
        )?,
        Site::NotBuilt(at) => write!(line, " {at} request")?,
        Site::Attribute(span) => write!(line, " {}-{}", span.start, span.end)?,
    }
    Ok(line.push_str(";")?)
}

fn sites(alloc: Global, text: &str) -> Result<Vec<Site>, Fail> {
    let source = source(alloc, text)?;
    let macros = macros(alloc)?;
    let plugins = plugins(alloc)?;
    let sites = buffer_sites(alloc, &macros, plugins.list(), &source)?;
    Ok(sites)
}

/// The sites of a text, one behind the other.
fn sites_in(alloc: Global, text: &str) -> Result<String, Fail> {
    let mut line = String::new(alloc);
    for site in &sites(alloc, text)? {
        put_site(alloc, &mut line, site)?;
    }
    Ok(line)
}

/// Each fault at a use, at an attribute, and at a local one.
const FAULTS: [(&str, &str); 18] = [
    ("let v = #nothing(1)", " 8 UnknownMacro nothing;"),
    ("#nothing()", " 0 UnknownMacro nothing;"),
    ("let v = #Peered(1)", " 8 WrongRole Peered;"),
    ("let v = #made()", " 8 WrongRole made;"),
    ("#outer(1)", " 0 WrongRole outer;"),
    ("let v = #absent(1)", " 8 NoPlugin N;"),
    ("@Stored func f() {}", " 0 WrongRole Stored;"),
    ("@Stored let a = 1", " 0 WrongRole Stored;"),
    ("@outer(1) func f() {}", " 0 WrongRole outer;"),
    (
        "@Given enum E {}; @Given func f() {}",
        " 0-6; 18 WrongRole Given;",
    ),
    ("@Peered import A", " 0 WrongRole Peered;"),
    ("@Stored var a = 1, b = 2", " 0 NotOneBinding Stored;"),
    ("@Stored var (a, b) = (1, 2)", " 0 NotOneBinding Stored;"),
    ("@Stored var a: Int { 1 }", " 0 AccessorOnBody Stored;"),
    (
        "@Both var a: Int { 1 }",
        " 0 AccessorOnBody Both; 0 request;",
    ),
    ("@Lost func f() {}", " 0 NoPlugin N;"),
    (
        "func f() { @Peered var x = 1 }",
        " 11 LocalAttached Peered;",
    ),
    (
        "func f() { @Lost(#inner(1)) var x = 1 }",
        " 11 LocalAttached Lost; 17 asks inner=M.Inner;",
    ),
];

#[test]
fn each_site_fault(rt: HostRuntime) -> Result<(), Fail> {
    for (text, want) in &FAULTS {
        assert_eq!(rt; sites_in(rt.alloc(), text)?.as_str(), *want, "of {text:?}");
    }
    Ok(())
}

/// Uses in arguments, and names that no macro has.
const TEXTS: [(&str, &str); 8] = [
    ("let v = #outer(#inner(1))", " 8 asks outer=M.Outer;"),
    ("@Peered(#inner(1)) func f() {}", " 0-18; 0 request;"),
    ("@other(#inner(1)) func f() {}", " 7 asks inner=M.Inner;"),
    ("@other func f() {}", ""),
    ("@M.Peered func f() {}", ""),
    (
        "@M.Peered(#inner(1)) func f() {}",
        " 10 asks inner=M.Inner;",
    ),
    ("func f() { @M.Peered var x = 1 }", ""),
    (
        "func f() { @other(#inner(1)) var x = 1 }",
        " 18 asks inner=M.Inner;",
    ),
];

#[test]
fn use_in_arguments_is_text(rt: HostRuntime) -> Result<(), Fail> {
    for (text, want) in &TEXTS {
        assert_eq!(rt; sites_in(rt.alloc(), text)?.as_str(), *want, "of {text:?}");
    }
    Ok(())
}

const VISITS: [(&str, &str); 10] = [
    ("#made()", " 0 asks made=M.Made;"),
    (
        "@Peered @other(#outer(1)) var x = #inner(1)",
        " 0-7; 15 asks outer=M.Outer; 34 asks inner=M.Inner; 0 request;",
    ),
    (
        "@Both @Peered var x = #inner(1)",
        " 0-5; 6-13; 0 request; 22 asks inner=M.Inner; 0 request; 6 request;",
    ),
    (
        "@Stored var x: Int { get { #inner(1) } }",
        " 0-7; 0 request; 27 asks inner=M.Inner;",
    ),
    (
        "func f() { #outer(1); @Peered var x = #inner(1); #outer(2) }",
        " 11 asks outer=M.Outer; 22 LocalAttached Peered; 38 asks inner=M.Inner; 49 asks outer=M.Outer;",
    ),
    (
        "@Many struct S { #made() \n var a = #inner(1); func f() { var b = 1 } }",
        " 0-5; 0 request; 0 request; 17 asks made=M.Made; 35 asks inner=M.Inner; 0 request; 0 request; 0 request;",
    ),
    (
        "@Extended @Peered @Membered @Given struct S { var a = #inner(1) }",
        " 0-9; 10-17; 18-27; 28-34; 28 request; 54 asks inner=M.Inner; 18 request; 10 request; 0 request;",
    ),
    (
        "@Given extension E { struct T { var a = 1 } \n @Given protocol P { @Peered func f() } }",
        " 0-6; 0 request; 0 request; 46-52; 46 request; 66-73; 66 request;",
    ),
    (
        "@Given @Peered actor A { let a = #inner(1) }; let b = #outer(1)",
        " 0-6; 7-14; 0 request; 33 asks inner=M.Inner; 7 request; 54 asks outer=M.Outer;",
    ),
    (
        "struct S { var a: Int { #inner(1) }; struct T { var b = #outer(1) } }",
        " 24 asks inner=M.Inner; 56 asks outer=M.Outer;",
    ),
];

#[test]
fn sites_in_visit_order(rt: HostRuntime) -> Result<(), Fail> {
    for (text, want) in &VISITS {
        assert_eq!(rt; sites_in(rt.alloc(), text)?.as_str(), *want, "of {text:?}");
    }
    Ok(())
}

/// From a declaration as it is parsed to the names that it declares.
#[test]
fn names_of_a_case(rt: HostRuntime) -> Result<(), Fail> {
    let alloc = rt.alloc();
    let outline = parse_items(alloc, b"case a, b(Int)")?;
    assert_eq!(rt; outline.items.len(), 1);
    let names = declared_names(alloc, &outline.items[0])?;
    let wanted = [Span { start: 5, end: 6 }, Span { start: 8, end: 9 }];
    assert_eq!(rt; names.as_slice(), wanted.as_slice());
    Ok(())
}

/// What is asked: the steps of its key, and the text of its use.
fn asked(alloc: Global, request: &Request) -> Result<String, Fail> {
    let mut line = String::new(alloc);
    for step in &request.key.steps {
        write!(line, "{:?} at {} ", step.role, step.offset)?;
    }
    if let Parts::Freestanding { syntax } = &request.parts {
        line.push_str(str_of(&syntax.source))?;
    }
    Ok(line)
}

fn reply(alloc: Global, text: &str) -> Result<Outcome, Fail> {
    Ok(Outcome::Reply {
        text: Some(Text::from_bytes(alloc, text.as_bytes())?),
        diagnostics: Listed::from_vec(Vec::new(alloc)),
    })
}

fn step(alloc: Global, text: &str, table: &Table) -> Result<Step, Fail> {
    let source = source(alloc, text)?;
    let macros = macros(alloc)?;
    let plugins = plugins(alloc)?;
    let step = expand_with(alloc, &source, &macros, &plugins, table)?;
    Ok(step)
}

/// What is to be asked first, or the expanded file.
fn step_in(alloc: Global, text: &str, table: &Table) -> Result<String, Fail> {
    match step(alloc, text, table)? {
        Step::Missing(first, _) => asked(alloc, &first),
        Step::Done(Answer::File(bytes)) => Ok(String::from_str(alloc, str_of(&bytes))?),
        Step::Done(_) => Ok(String::from_str(alloc, "no file")?),
    }
}

/// The key of a use of an expression macro in the source.
fn key_at(alloc: Global, offset: u32) -> Result<Key, Fail> {
    let mut key = Key::source(alloc);
    key.steps.push(KeyStep {
        offset,
        role: Role::Expression,
        member: 0,
    })?;
    Ok(key)
}

#[test]
fn sites_and_first_missing(rt: HostRuntime) -> Result<(), Fail> {
    let alloc = rt.alloc();
    let text = "let v = #outer(#inner(1))\n";
    assert_eq!(rt; sites_in(alloc, text)?.as_str(), " 8 asks outer=M.Outer;");
    let mut table = Table::new(alloc);
    let first = step_in(alloc, text, &table)?;
    assert_eq!(rt; first.as_str(), "Expression at 8 #outer(#inner(1))");
    table.put(key_at(alloc, 8)?, reply(alloc, "1")?)?;
    assert_eq!(rt; step_in(alloc, text, &table)?.as_str(), "let v = (1)\n");
    // the use in another reply is asked with a key of two steps
    table.put(key_at(alloc, 8)?, reply(alloc, "a + #inner(2)")?)?;
    let second = step_in(alloc, text, &table)?;
    assert_eq!(rt;
        second.as_str(),
        "Expression at 8 Expression at 4 #inner(2)"
    );
    Ok(())
}
