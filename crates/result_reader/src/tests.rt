// Replies by role, and what is said of them.

use crate::{Reading, ResultFault, ResultKind, read_result};
use role_names::{NameList, NameRule};
use std::alloc::{AllocError, Global};
use std::test::Fail;
use swift_base::{Listed, Refusal, Text};
use unique_names::Role;

/// A rule of a list.
#[derive(Clone, Copy)]
enum Rule {
    Named(&'static [u8]),
    Overloaded,
    Prefixed(&'static [u8]),
    Arbitrary,
}

/// What is said of a reply.
#[derive(Clone, Copy, Debug, PartialEq)]
enum Verdict {
    Fits,
    Parse,
    Forbidden,
    Arbitrary,
    Uncovered,
}

/// A role, whether at file scope, the list, the reply, what is said of it, and where. The attached name is `x`, and
/// the discriminator of the request `$sX8p0_E`.
type Row = (Role, bool, &'static [Rule], &'static [u8], Verdict, u32);

const ARBITRARY: &[Rule] = &[Rule::Arbitrary];

const PREFIXED: &[Rule] = &[Rule::Named(b"a"), Rule::Prefixed(b"_")];

const ROWS: [Row; 36] = [
    (Role::Expression, true, &[], b"1 + x", Verdict::Fits, 0),
    (Role::Expression, true, &[], b"1 +)", Verdict::Parse, 3),
    (
        Role::MemberAttribute,
        true,
        &[],
        b"@main @Other",
        Verdict::Fits,
        0,
    ),
    (
        Role::MemberAttribute,
        true,
        &[],
        b"func a() {}",
        Verdict::Parse,
        0,
    ),
    (
        Role::Accessor,
        true,
        &[],
        b"get { 1 } set {}",
        Verdict::Fits,
        0,
    ),
    (
        Role::Accessor,
        true,
        &[],
        b"get { 1 } didSet {}",
        Verdict::Uncovered,
        10,
    ),
    (
        Role::Accessor,
        true,
        &[],
        b"{ willSet {} }",
        Verdict::Uncovered,
        2,
    ),
    (
        Role::Accessor,
        true,
        &[Rule::Named(b"didSet")],
        b"didSet {}",
        Verdict::Fits,
        0,
    ),
    (
        Role::Peer,
        true,
        PREFIXED,
        b"func _x() {}",
        Verdict::Fits,
        0,
    ),
    (
        Role::Peer,
        true,
        PREFIXED,
        b"func a() {}\nfunc y() {}\nfunc z() {}",
        Verdict::Uncovered,
        17,
    ),
    (
        Role::Peer,
        true,
        PREFIXED,
        b"let a = 1, _x = 2, b = 3, c = 4",
        Verdict::Uncovered,
        19,
    ),
    (
        Role::Peer,
        true,
        PREFIXED,
        b"func `b`() {}",
        Verdict::Uncovered,
        6,
    ),
    (
        Role::Peer,
        true,
        &[Rule::Overloaded],
        b"func x(_ a: Int) {}",
        Verdict::Fits,
        0,
    ),
    (
        Role::Peer,
        true,
        &[],
        b"func $sX8p0_E1yfMu_() {}",
        Verdict::Fits,
        0,
    ),
    (
        Role::Peer,
        true,
        &[],
        b"func $sX9p0_E1yfMu_() {}",
        Verdict::Uncovered,
        5,
    ),
    (
        Role::Peer,
        true,
        &[],
        b"func $sX8p0_E() {}",
        Verdict::Uncovered,
        5,
    ),
    (Role::Peer, true, &[], b"", Verdict::Fits, 0),
    (Role::Peer, true, &[], b"func {", Verdict::Parse, 5),
    (
        Role::Peer,
        true,
        ARBITRARY,
        b"#other\nfunc a() {}",
        Verdict::Arbitrary,
        7,
    ),
    (Role::Peer, true, ARBITRARY, b"#other", Verdict::Fits, 0),
    (
        Role::Peer,
        false,
        ARBITRARY,
        b"func a() {}",
        Verdict::Fits,
        0,
    ),
    (
        Role::Declaration,
        true,
        ARBITRARY,
        b"func a() {}",
        Verdict::Arbitrary,
        0,
    ),
    (
        Role::Declaration,
        true,
        ARBITRARY,
        b"import a",
        Verdict::Forbidden,
        0,
    ),
    (
        Role::Declaration,
        false,
        ARBITRARY,
        b"func a() {}\nimport b",
        Verdict::Forbidden,
        12,
    ),
    (
        Role::Declaration,
        true,
        &[],
        b"func y() {}\n@main struct a {}",
        Verdict::Forbidden,
        12,
    ),
    (
        Role::Declaration,
        true,
        PREFIXED,
        b"@other.main struct a {}",
        Verdict::Fits,
        0,
    ),
    (
        Role::Declaration,
        true,
        PREFIXED,
        b"struct a { func y() {} ; init() {} }",
        Verdict::Fits,
        0,
    ),
    (
        Role::Declaration,
        true,
        PREFIXED,
        b"operator a",
        Verdict::Forbidden,
        0,
    ),
    (
        Role::Declaration,
        true,
        PREFIXED,
        b"prefix operator ++",
        Verdict::Forbidden,
        0,
    ),
    (
        Role::Declaration,
        true,
        PREFIXED,
        b"init() {}",
        Verdict::Forbidden,
        0,
    ),
    (
        Role::Member,
        false,
        ARBITRARY,
        b"init() {} ; deinit {}",
        Verdict::Fits,
        0,
    ),
    (
        Role::Member,
        false,
        ARBITRARY,
        b"case a, b",
        Verdict::Fits,
        0,
    ),
    (
        Role::Member,
        false,
        PREFIXED,
        b"case a, b",
        Verdict::Uncovered,
        8,
    ),
    (
        Role::Member,
        false,
        ARBITRARY,
        b"var a = 1 ; extension b {}",
        Verdict::Forbidden,
        12,
    ),
    (
        Role::Member,
        false,
        ARBITRARY,
        b"macro a() = #externalMacro(module: \"M\", type: \"T\")",
        Verdict::Forbidden,
        0,
    ),
    (
        Role::Member,
        true,
        ARBITRARY,
        b"var a = 1",
        Verdict::Fits,
        0,
    ),
];

fn rule_of(alloc: Global, rule: Rule) -> Result<NameRule, AllocError> {
    Ok(match rule {
        Rule::Named(name) => NameRule::Named(Text::from_bytes(alloc, name)?),
        Rule::Overloaded => NameRule::Overloaded,
        Rule::Prefixed(prefix) => NameRule::Prefixed(Text::from_bytes(alloc, prefix)?),
        Rule::Arbitrary => NameRule::Arbitrary,
    })
}

fn list_of(alloc: Global, rules: &[Rule]) -> Result<NameList, AllocError> {
    let mut list = Vec::new(alloc);
    for rule in rules {
        list.push(rule_of(alloc, *rule)?)?;
    }
    Ok(NameList {
        rules: Listed::from_vec(list),
    })
}

fn verdict_on(read: Result<(), Refusal<ResultFault>>) -> Result<(Verdict, u32), AllocError> {
    match read {
        Ok(()) => Ok((Verdict::Fits, 0)),
        Err(Refusal::Memory) => Err(AllocError),
        Err(Refusal::Fault(found)) => Ok((verdict_of(&found.kind), found.at)),
    }
}

fn verdict_of(kind: &ResultKind) -> Verdict {
    match kind {
        ResultKind::Parse(_) => Verdict::Parse,
        ResultKind::ForbiddenKind => Verdict::Forbidden,
        ResultKind::FileScopeArbitrary => Verdict::Arbitrary,
        ResultKind::Uncovered(_) => Verdict::Uncovered,
    }
}

fn reply_verdict(
    alloc: Global,
    role: Role,
    file_scope: bool,
    rules: &[Rule],
    reply: &[u8],
) -> Result<(Verdict, u32), AllocError> {
    if matches!(role, Role::Extension) {
        return Ok((Verdict::Fits, 0));
    }
    let reading = Reading {
        role,
        file_scope,
        attached: Some(Text::from_bytes(alloc, b"x")?),
        discriminator: Text::from_bytes(alloc, b"$sX8p0_E")?,
        names: list_of(alloc, rules)?,
    };
    verdict_on(read_result(alloc, &reading, reply).map(|_| ()))
}

#[test]
fn readings_refused(rt: HostRuntime) -> Result<(), Fail> {
    for (role, file_scope, rules, reply, what, at) in ROWS {
        assert_eq!(rt;
            reply_verdict(rt.alloc(), role, file_scope, rules, reply)?,
            (what, at)
        );
    }
    Ok(())
}

#[test]
fn import_is_forbidden(rt: HostRuntime) -> Result<(), Fail> {
    let told = reply_verdict(rt.alloc(), Role::Declaration, true, PREFIXED, b"import a")?;
    assert_eq!(rt; told, (Verdict::Forbidden, 0));
    Ok(())
}
