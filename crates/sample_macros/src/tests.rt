// Worked examples of the sample macros: a request's payload, and that of the reply.
use crate::literal::stringified;
use crate::{FuncUniqueMacro, StringifyMacro};
use plugin_kit::Macro;
use plugin_messages::{plugin_payload, read_host};
use std::alloc::{AllocError, Global};
use std::process::Abort;
use std::test::Fail;

// A source and the text of the reply, both as JSON writes them.
fn uses() -> [(&'static str, &'static str); 8] {
    [
        ("#stringify(a + b)", "(a + b, \\\"a + b\\\")"),
        ("#stringify( a + b )", "(a + b, \\\"a + b\\\")"),
        ("#stringify (f(x), [y])", "(f(x), [y], \\\"f(x), [y]\\\")"),
        (
            "#stringify(\\\"x\\\")",
            "(\\\"x\\\", \\\"\\\\\\\"x\\\\\\\"\\\")",
        ),
        (
            "#stringify(\\n  a\\n+ b\\n)",
            "(a\\n+ b, \\\"a\\\\n+ b\\\")",
        ),
        ("#stringify[a](b)(c)", "(b, \\\"b\\\")"),
        ("#stringify{ (a) }(b)", "(b, \\\"b\\\")"),
        ("x (1)", "(1, \\\"1\\\")"),
    ]
}

// A role and a source that has no argument, or isn't read.
fn misfits() -> [(&'static str, &'static str); 11] {
    [
        ("expression", ""),
        ("expression", "#stringify"),
        ("expression", "#stringify()"),
        ("expression", "#stringify( )(a)"),
        ("expression", "#stringify[a]"),
        ("expression", "#stringify{ (a) }"),
        ("expression", "#stringify((a)"),
        ("expression", "#stringify(a))"),
        ("expression", "#stringify(a]"),
        ("expression", "#stringify(\\\"a)"),
        ("declaration", "#stringify(a + b)"),
    ]
}

fn request(alloc: Global, role: &str, source: &str) -> Result<String, AllocError> {
    format!(in alloc;
        "{{\"expandFreestandingMacro\":{{\"discriminator\":\"$sX145e0_E\",\"macro\":{{\"moduleName\":\"SampleMacros\",\"name\":\"stringify\",\"typeName\":\"StringifyMacro\"}},\"macroRole\":\"{role}\",\"syntax\":{{\"kind\":\"expression\",\"location\":{{\"column\":9,\"fileID\":\"main/r.swift\",\"fileName\":\"r.swift\",\"line\":2,\"offset\":145}},\"source\":\"{source}\"}}}}}}"
    )
}

fn reply(alloc: Global, text: &str) -> Result<String, AllocError> {
    format!(in alloc;
        "{{\"expandMacroResult\":{{\"diagnostics\":[],\"expandedSource\":\"{text}\"}}}}"
    )
}

fn misfit(alloc: Global, file_name: &str, offset: u32) -> Result<String, AllocError> {
    format!(in alloc;
        "{{\"expandMacroResult\":{{\"diagnostics\":[{{\"fixIts\":[],\"highlights\":[],\"message\":\"this macro does not fit here\",\"notes\":[],\"position\":{{\"fileName\":\"{file_name}\",\"offset\":{offset}}},\"severity\":\"error\"}}]}}}}"
    )
}

fn replies(
    rt: &impl Abort,
    alloc: Global,
    body: &impl Macro,
    payload: &str,
    wanted: &str,
) -> Result<(), Fail> {
    let asked = read_host(alloc, payload.as_bytes())?;
    let reply = body.expand(alloc, &asked)?;
    let written = plugin_payload(alloc, &reply)?;
    assert_eq!(rt; written.as_slice(), wanted.as_bytes(), "{payload}");
    Ok(())
}

#[test]
fn expands_stringify(rt: HostRuntime) -> Result<(), Fail> {
    let alloc = rt.alloc();
    for (source, text) in uses() {
        let payload = request(alloc, "expression", source)?;
        let wanted = reply(alloc, text)?;
        replies(&rt, alloc, &StringifyMacro, &payload, &wanted)?;
    }
    Ok(())
}

#[test]
fn says_that_it_does_not_fit(rt: HostRuntime) -> Result<(), Fail> {
    let alloc = rt.alloc();
    let wanted = misfit(alloc, "r.swift", 145)?;
    for (role, source) in misfits() {
        let payload = request(alloc, role, source)?;
        replies(&rt, alloc, &StringifyMacro, &payload, &wanted)?;
    }
    Ok(())
}

// Messages of other kinds: the payload, and where the error stands.
fn others() -> [(&'static str, &'static str, u32); 5] {
    [
        (
            "{\"getCapability\":{\"capability\":{\"protocolVersion\":7}}}",
            "",
            0,
        ),
        (
            "{\"loadPluginLibrary\":{\"libraryPath\":\"l\",\"moduleName\":\"M\"}}",
            "",
            0,
        ),
        (
            "{\"expandFreestandingMacro\":{\"discriminator\":\"\",\"macro\":{\"moduleName\":\"M\",\"name\":\"n\",\"typeName\":\"T\"},\"macroRole\":\"expression\",\"syntax\":{\"kind\":\"expression\",\"source\":\"#n\"}}}",
            "",
            0,
        ),
        (
            "{\"expandAttachedMacro\":{\"attributeSyntax\":{\"kind\":\"attribute\",\"location\":{\"column\":1,\"fileID\":\"m/a.swift\",\"fileName\":\"a.swift\",\"line\":1,\"offset\":0},\"source\":\"@N(a)\"},\"declSyntax\":{\"kind\":\"declaration\",\"location\":{\"column\":7,\"fileID\":\"m/a.swift\",\"fileName\":\"a.swift\",\"line\":1,\"offset\":6},\"source\":\"#f(a)\"},\"discriminator\":\"\",\"macro\":{\"moduleName\":\"M\",\"name\":\"N\",\"typeName\":\"T\"},\"macroRole\":\"expression\"}}",
            "a.swift",
            6,
        ),
        (
            "{\"expandAttachedMacro\":{\"attributeSyntax\":{\"kind\":\"attribute\",\"location\":{\"column\":1,\"fileID\":\"m/a.swift\",\"fileName\":\"a.swift\",\"line\":1,\"offset\":4},\"source\":\"@N\"},\"declSyntax\":{\"kind\":\"declaration\",\"source\":\"let a\"},\"discriminator\":\"\",\"macro\":{\"moduleName\":\"M\",\"name\":\"N\",\"typeName\":\"T\"},\"macroRole\":\"peer\"}}",
            "",
            0,
        ),
    ]
}

#[test]
fn answers_messages_of_other_kinds(rt: HostRuntime) -> Result<(), Fail> {
    let alloc = rt.alloc();
    for (payload, file_name, offset) in others() {
        let wanted = misfit(alloc, file_name, offset)?;
        replies(&rt, alloc, &StringifyMacro, payload, &wanted)?;
    }
    Ok(())
}

#[test]
fn escapes_what_a_literal_cannot_hold(rt: HostRuntime) -> Result<(), Fail> {
    let text = stringified(rt.alloc(), b"\\a\"\r\n\t'\xc3\xa9")?;
    let wanted = b"(\\a\"\r\n\t'\xc3\xa9, \"\\\\a\\\"\\r\\n\t'\xc3\xa9\")";
    assert_eq!(rt; text.as_slice(), wanted.as_slice());
    Ok(())
}

// A use of `#funcUnique()` at the beginning of a source.
fn func_request(alloc: Global, role: &str) -> Result<String, AllocError> {
    format!(in alloc;
        "{{\"expandFreestandingMacro\":{{\"discriminator\":\"$sX0d0_E\",\"macro\":{{\"moduleName\":\"SampleMacros\",\"name\":\"funcUnique\",\"typeName\":\"FuncUniqueMacro\"}},\"macroRole\":\"{role}\",\"syntax\":{{\"kind\":\"declaration\",\"location\":{{\"column\":1,\"fileID\":\"main/f.swift\",\"fileName\":\"f.swift\",\"line\":1,\"offset\":0}},\"source\":\"#funcUnique()\"}}}}}}"
    )
}

#[test]
fn makes_a_function_with_a_unique_name(rt: HostRuntime) -> Result<(), Fail> {
    let alloc = rt.alloc();
    let payload = func_request(alloc, "declaration")?;
    let wanted = reply(alloc, "func $sX0d0_E7__localfMu_() {}")?;
    replies(&rt, alloc, &FuncUniqueMacro, &payload, &wanted)?;
    Ok(())
}

#[test]
fn makes_no_function_where_none_fits(rt: HostRuntime) -> Result<(), Fail> {
    let alloc = rt.alloc();
    let payload = func_request(alloc, "expression")?;
    let wanted = misfit(alloc, "f.swift", 0)?;
    replies(&rt, alloc, &FuncUniqueMacro, &payload, &wanted)?;
    for (payload, file_name, offset) in others() {
        let wanted = misfit(alloc, file_name, offset)?;
        replies(&rt, alloc, &FuncUniqueMacro, payload, &wanted)?;
    }
    Ok(())
}
