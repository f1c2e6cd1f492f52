// Worked examples: declarations as libraries have them, and each fault at its place.

use super::*;
use decl_parser::parse_file;
use role_names::NameRule;
use std::alloc::{AllocError, Global};
use std::fmt::Write;
use std::process::Abort;
use std::test::Fail;
use swift_base::{Listed, Refusal, Text};
use swift_tree::Outline;

fn parsed(alloc: Global, texts: &[&str]) -> Result<Vec<Outline>, Fail> {
    let mut outlines = Vec::new(alloc);
    for text in texts {
        outlines.push(parse_file(alloc, text.as_bytes())?)?;
    }
    Ok(outlines)
}

fn references(alloc: Global, outlines: &[Outline]) -> Result<Vec<&Outline>, AllocError> {
    let mut seen = Vec::new(alloc);
    for outline in outlines {
        seen.push(outline)?;
    }
    Ok(seen)
}

/// The table of at most a hundred outlines.
fn table_of(
    alloc: Global,
    outlines: &[Outline],
) -> Result<MacroTable, Refusal<Listed<MacroFault>>> {
    let seen = references(alloc, outlines)?;
    if seen.len() > 100 {
        return Err(Refusal::Memory);
    }
    MacroTable::from_outlines(alloc, &seen)
}

/// The faults of texts: in a line each, outline, offset, name and kind.
fn faults_in(alloc: Global, texts: &[&str]) -> Result<String, Fail> {
    let outlines = parsed(alloc, texts)?;
    match table_of(alloc, &outlines) {
        Ok(_) => Ok(String::new(alloc)),
        Err(Refusal::Memory) => Err(AllocError.into()),
        Err(Refusal::Fault(faults)) => lines_of(alloc, faults.items()),
    }
}

fn lines_of(alloc: Global, faults: &[MacroFault]) -> Result<String, Fail> {
    let mut lines = String::new(alloc);
    for fault in faults {
        let name = str_of(&fault.name);
        write!(
            lines,
            "{} {} {} {:?}\n",
            fault.outline, fault.at, name, fault.kind
        )?;
    }
    Ok(lines)
}

#[test]
fn macro_declared_twice(rt: HostRuntime) -> Result<(), Fail> {
    let line =
        "@freestanding(expression) macro stringify<T>(_ value: T) -> (T, String) = #externalMacro(module: \"SampleMacros\", type: \"StringifyMacro\")\n";
    let mut text = String::from_str(rt.alloc(), line)?;
    text.push_str(line)?;
    let faults = faults_in(rt.alloc(), &[&text])?;
    assert_eq!(rt; faults.as_str(), "0 169 stringify Duplicate\n");
    Ok(())
}

/// Heads of a macro named `a`, with the kind and the place of the first fault.
const FAULTY: [(&str, MacroKind, u32); 43] = [
    ("macro a()", MacroKind::NoRole, 6),
    ("@A.attached(peer) macro a()", MacroKind::NoRole, 24),
    ("@available(swift 6) macro a()", MacroKind::NoRole, 26),
    ("@attached(expression) macro a()", MacroKind::BadRole, 0),
    ("@attached(body) macro a()", MacroKind::BadRole, 0),
    ("@freestanding(peer) macro a()", MacroKind::BadRole, 0),
    ("@freestanding(codeItem) macro a()", MacroKind::BadRole, 0),
    ("@attached macro a()", MacroKind::BadRole, 0),
    ("@attached() macro a()", MacroKind::BadRole, 0),
    ("@attached(`peer`) macro a()", MacroKind::BadRole, 0),
    (
        "@attached(names: arbitrary) macro a()",
        MacroKind::BadRole,
        0,
    ),
    ("@attached(peer member) macro a()", MacroKind::BadRole, 0),
    ("@attached((peer)) macro a()", MacroKind::BadRole, 0),
    (
        "@attached(peer) @attached(peer) macro a()",
        MacroKind::BadRole,
        16,
    ),
    (
        "@attached(peer, x) @freestanding(expression) @freestanding(expression) macro a()",
        MacroKind::BadRole,
        45,
    ),
    (
        "@freestanding(expression) @attached(peer, x) @freestanding(declaration) macro a()",
        MacroKind::BothFreestanding,
        45,
    ),
    ("@attached(peer, names: ) macro a()", MacroKind::BadNames, 0),
    (
        "@attached(peer, names: foo) macro a()",
        MacroKind::BadNames,
        0,
    ),
    (
        "@attached(peer, names: named) macro a()",
        MacroKind::BadNames,
        0,
    ),
    (
        "@attached(peer, names: named()) macro a()",
        MacroKind::BadNames,
        0,
    ),
    (
        "@attached(peer, names: named(a b)) macro a()",
        MacroKind::BadNames,
        0,
    ),
    (
        "@attached(peer, names: named(a[b])) macro a()",
        MacroKind::BadNames,
        0,
    ),
    (
        "@attached(peer, names: named(a)(b)) macro a()",
        MacroKind::BadNames,
        0,
    ),
    (
        "@attached(peer, names: named[a]) macro a()",
        MacroKind::BadNames,
        0,
    ),
    (
        "@attached(peer, names: named(1)) macro a()",
        MacroKind::BadNames,
        0,
    ),
    (
        "@attached(peer, names: named(\"a\")) macro a()",
        MacroKind::BadNames,
        0,
    ),
    (
        "@attached(peer, names: overloaded(a)) macro a()",
        MacroKind::BadNames,
        0,
    ),
    (
        "@attached(peer, names: foo(a)) macro a()",
        MacroKind::BadNames,
        0,
    ),
    (
        "@attached(peer, names: named(a), arbitrary,) macro a()",
        MacroKind::BadNames,
        0,
    ),
    (
        "@attached(peer, names: named(a), , arbitrary) macro a()",
        MacroKind::BadNames,
        0,
    ),
    (
        "@attached(peer, names: named(a) arbitrary) macro a()",
        MacroKind::BadNames,
        0,
    ),
    (
        "@attached(peer, x) @attached(member, names: x) macro a()",
        MacroKind::BadNames,
        19,
    ),
    (
        "@attached(peer) @attached(member, names: x) @attached(accessor, names: x) macro a()",
        MacroKind::BadNames,
        16,
    ),
    (
        "@attached(peer, x) macro a()",
        MacroKind::BadConformances,
        0,
    ),
    ("@attached(peer,) macro a()", MacroKind::BadConformances, 0),
    (
        "@attached(peer, other: x) macro a()",
        MacroKind::BadConformances,
        0,
    ),
    (
        "@attached(peer, names: named(a), names: named(b)) macro a()",
        MacroKind::BadConformances,
        0,
    ),
    (
        "@attached(member, conformances: P) macro a()",
        MacroKind::BadConformances,
        0,
    ),
    (
        "@attached(extension, conformances:) macro a()",
        MacroKind::BadConformances,
        0,
    ),
    (
        "@attached(extension, conformances: P,) macro a()",
        MacroKind::BadConformances,
        0,
    ),
    (
        "@attached(extension, conformances: P, , Q) macro a()",
        MacroKind::BadConformances,
        0,
    ),
    (
        "@attached(extension, conformances: P, conformances: Q) macro a()",
        MacroKind::BadConformances,
        0,
    ),
    (
        "@attached(peer) @attached(member, x) @attached(accessor, x) macro a()",
        MacroKind::BadConformances,
        16,
    ),
];

#[test]
fn each_fault_of_a_declaration(rt: HostRuntime) -> Result<(), Fail> {
    for (head, kind, at) in &FAULTY {
        let text = format!(in rt.alloc(); "{head} = #externalMacro(module: \"M\", type: \"T\")")?;
        let faults = faults_in(rt.alloc(), &[&text])?;
        let want = format!(in rt.alloc(); "0 {at} a {kind:?}\n")?;
        assert_eq!(rt; faults, want, "of {head:?}");
    }
    Ok(())
}

/// What stands behind the parameters of a macro of which no implementation is named.
const UNNAMED: [&str; 13] = [
    "",
    " = b()",
    " = #externalMacro",
    " = #externalMacro(module: \"M\")",
    " = #externalMacro(type: \"T\", module: \"M\")",
    " = #externalMacro(module: \"M\", type: \"T\",)",
    " = #externalMacro(module: \"M\\n\", type: \"T\")",
    " = #externalMacro(module: \"M\", type: \"\"\"\n  T\n  \"\"\")",
    " = #externalMacro(module: #\"M\"#, type: \"T\")",
    " = #externalMacro(module: M, type: \"T\")",
    " = #externalMacro[module: \"M\", type: \"T\"]",
    " -> #externalMacro(module: \"M\", type: \"T\")",
    " = (#externalMacro(module: \"M\", type: \"T\"))",
];

#[test]
fn implementation_not_named(rt: HostRuntime) -> Result<(), Fail> {
    for tail in &UNNAMED {
        let text = format!(in rt.alloc(); "@attached(peer) macro a(){tail}")?;
        let faults = faults_in(rt.alloc(), &[&text])?;
        assert_eq!(rt; faults.as_str(), "0 22 a NotExternal\n", "of {tail:?}");
    }
    Ok(())
}

#[test]
fn one_fault_of_each_declaration(rt: HostRuntime) -> Result<(), Fail> {
    let first =
        "macro a()\n@attached(peer) macro b() = #externalMacro(module: \"M\", type: \"B\")\nmacro b()";
    let second = "func f() { macro c() }\nmacro c()\n@attached(peer) macro a() = x";
    let faults = faults_in(rt.alloc(), &[first, second])?;
    assert_eq!(rt;
        faults.as_str(),
        "0 6 a NoRole\n0 83 b Duplicate\n1 29 c NoRole\n1 55 a Duplicate\n"
    );
    Ok(())
}

/// Declarations, with the name of each, and what is read of it.
const DECLARED: [(&str, &str, &str); 11] = [
    (
        "@freestanding(expression) macro stringify<T>(_ value: T) -> (T, String) = #externalMacro(module: \"SampleMacros\", type: \"StringifyMacro\")",
        "stringify",
        "SampleMacros.StringifyMacro Expression[][]",
    ),
    (
        "@freestanding(declaration) macro funcUnique() = #externalMacro(module: \"SampleMacros\", type: \"FuncUniqueMacro\")",
        "funcUnique",
        "SampleMacros.FuncUniqueMacro Declaration[][]",
    ),
    (
        "@attached(peer, names: prefixed(_)) macro AddPeer() = #externalMacro(module: \"SampleMacros\", type: \"AddPeerMacro\")",
        "AddPeer",
        "SampleMacros.AddPeerMacro Peer[_*][]",
    ),
    (
        "@attached(member, names: arbitrary) macro CaseDetection() = #externalMacro(module: \"SampleMacros\", type: \"CaseDetectionMacro\")",
        "CaseDetection",
        "SampleMacros.CaseDetectionMacro Member[*][]",
    ),
    (
        "@attached(memberAttribute) @attached(member, names: named(_storage)) macro Storage() = #externalMacro(module: \"SampleMacros\", type: \"StorageMembersMacro\")",
        "Storage",
        "SampleMacros.StorageMembersMacro MemberAttribute[][] Member[_storage][]",
    ),
    (
        "@attached(accessor) macro StorageAccessor() = #externalMacro(module: \"SampleMacros\", type: \"StorageAccessorMacro\")",
        "StorageAccessor",
        "SampleMacros.StorageAccessorMacro Accessor[][]",
    ),
    (
        "@attached(extension, conformances: Equatable) macro AddEquatable() = #externalMacro(module: \"SampleMacros\", type: \"EquatableExtensionMacro\")",
        "AddEquatable",
        "SampleMacros.EquatableExtensionMacro Extension[][Equatable]",
    ),
    (
        "@attached(member, names: named(_observationRegistrar), named(access), named(withMutation(_:)), named(==), named(`init`)) @attached(memberAttribute) @attached(extension, conformances: Observable) public macro Observable() = #externalMacro(module: \"ObservationMacros\", type: \"ObservableMacro\")",
        "Observable",
        "ObservationMacros.ObservableMacro Member[_observationRegistrar,access,withMutation,==,init][] MemberAttribute[][] Extension[][Observable]",
    ),
    (
        "@attached(accessor, names: named(init), named(get), named(set)) @attached(peer, names: prefixed(`_`), suffixed(Key), overloaded) macro `default`() = #externalMacro(module: \"M\", type: \"DefaultMacro\")",
        "default",
        "M.DefaultMacro Accessor[init,get,set][] Peer[_*,*Key,+][]",
    ),
    (
        "@attached(extension, conformances: P<A, B>, (Q & R)<[S]>, T<(A) -> B>, names: named(init(_:)), arbitrary)\n@available(swift 6)\nmacro many<T>(of: T) = #externalMacro(module: \"\", type: \"T\") where T: P<Int>",
        "many",
        ".T Extension[init,*][P<A,B>,(Q&R)<[S]>,T<(A)->B>]",
    ),
    (
        "@A.freestanding(peer, x) @freestanding(expression, names: named(a)) macro dotted(_ x: Int = #externalMacro) -> Int = #externalMacro(module: \"M\", type: \"D\")",
        "dotted",
        "M.D Expression[a][]",
    ),
];

fn put_rule(text: &mut String, rule: &NameRule) -> Result<(), Fail> {
    match rule {
        NameRule::Named(name) => text.push_str(str_of(name))?,
        NameRule::Overloaded => text.push_str("+")?,
        NameRule::Prefixed(prefix) => write!(text, "{}*", str_of(prefix))?,
        NameRule::Suffixed(suffix) => write!(text, "*{}", str_of(suffix))?,
        NameRule::Arbitrary => text.push_str("*")?,
    }
    Ok(())
}

fn put_role(text: &mut String, role: &RoleDecl) -> Result<(), Fail> {
    write!(text, " {:?}[", role.role)?;
    let mut mark = "";
    for rule in role.names.rules.items() {
        text.push_str(mark)?;
        put_rule(text, rule)?;
        mark = ",";
    }
    text.push_str("][")?;
    mark = "";
    for name in role.conformances.items() {
        text.push_str(mark)?;
        text.push_str(str_of(name))?;
        mark = ",";
    }
    text.push_str("]")?;
    Ok(())
}

fn str_of(text: &Text) -> &str {
    str::from_utf8(text.bytes()).unwrap_or("?")
}

fn description(alloc: Global, declaration: &MacroDecl) -> Result<String, Fail> {
    let module_name = str_of(&declaration.module_name);
    let mut text = format!(in alloc; "{}.{}", module_name, str_of(&declaration.type_name))?;
    for role in declaration.roles.items() {
        put_role(&mut text, role)?;
    }
    Ok(text)
}

#[test]
fn declarations_of_libraries(rt: HostRuntime) -> Result<(), Fail> {
    let mut texts = Vec::new(rt.alloc());
    for (text, _, _) in &DECLARED {
        texts.push(*text)?;
    }
    let table = table_of(rt.alloc(), &parsed(rt.alloc(), &texts)?)?;
    for (text, name, want) in &DECLARED {
        let Some(declaration) = table.find(name.as_bytes()) else {
            assert!(rt; false, "{name} is declared");
            return Ok(());
        };
        assert_eq!(rt; str_of(&declaration.name), *name);
        assert_eq!(rt;
            description(rt.alloc(), declaration)?.as_str(),
            *want,
            "of {text:?}"
        );
    }
    assert!(rt; table.find(b"other").is_none());
    Ok(())
}
