// Worked examples, from the grammar's text.

ghost use Rattle.swift_lexer.specs.Answers.{Answers};
ghost use Rattle.swift_lexer.specs.Tokens.{IsLexed};

use super::*;
use std::alloc::Global;
use std::process::Abort;
use std::test::Fail;

const STRINGIFY: &str =
    "@freestanding(expression) macro stringify<T>(_ value: T) -> (T, String) = #externalMacro(module: \"SampleMacros\", type: \"StringifyMacro\")";

/// Texts that are read, with the class and the places of each token.
const READ: [(&str, &[(Class, u32, u32)]); 21] = [
    ("", &[]),
    (" \n\t\r\u{b}\u{c}", &[]),
    ("\u{feff}a", &[(Class::Word, 3, 4)]),
    (
        "a+#b",
        &[
            (Class::Word, 0, 1),
            (Class::Oper, 1, 2),
            (Class::Pound, 2, 4),
        ],
    ),
    ("x//c", &[(Class::Word, 0, 1)]),
    ("x//c\ry", &[(Class::Word, 0, 1), (Class::Word, 5, 6)]),
    ("+/*c*/-", &[(Class::Oper, 0, 1), (Class::Oper, 6, 7)]),
    (
        "a/*/*b*/c*/d",
        &[(Class::Word, 0, 1), (Class::Word, 11, 12)],
    ),
    (
        "a..<b",
        &[
            (Class::Word, 0, 1),
            (Class::Oper, 1, 4),
            (Class::Word, 4, 5),
        ],
    ),
    ("...", &[(Class::Oper, 0, 3)]),
    ("+..", &[(Class::Oper, 0, 1), (Class::Oper, 1, 3)]),
    (".5", &[(Class::Punct, 0, 1), (Class::Number, 1, 2)]),
    (
        "1.5e3.f",
        &[
            (Class::Number, 0, 5),
            (Class::Punct, 5, 6),
            (Class::Word, 6, 7),
        ],
    ),
    ("a$0", &[(Class::Word, 0, 1), (Class::Word, 1, 3)]),
    ("`a b`", &[(Class::Quoted, 0, 5)]),
    (
        "\u{e9}t\u{301}\u{d7}\u{bb}",
        &[(Class::Word, 0, 5), (Class::Oper, 5, 9)],
    ),
    ("\"\\(a[)\"", &[(Class::Str, 0, 7)]),
    ("##\"a\"#\"##x", &[(Class::Str, 0, 9), (Class::Word, 9, 10)]),
    (
        "\"\"\"a\n\"\"\\(f(\"\\(b)\\\"\"\n))\"\"\"",
        &[(Class::Str, 0, 25)],
    ),
    ("#\"a\\#(b)\\(c\"#", &[(Class::Str, 0, 13)]),
    ("\"\\(#file /* ) */)\"", &[(Class::Str, 0, 18)]),
];

/// Texts that are refused, with the place and the kind of the first fault.
const REFUSED: [(&[u8], u32, LexKind); 25] = [
    (b"a '", 2, LexKind::BadCharacter),
    (b"a \x00", 2, LexKind::BadCharacter),
    (b"a``", 1, LexKind::BadCharacter),
    (b"`a\n`", 0, LexKind::BadCharacter),
    (b"a #", 2, LexKind::BadCharacter),
    (b"#1", 0, LexKind::BadCharacter),
    (b"#$a", 0, LexKind::BadCharacter),
    (b"##a", 0, LexKind::BadCharacter),
    (b" \xef\xbb\xbf", 1, LexKind::BadCharacter),
    (b"#/a/#", 0, LexKind::ExtendedRegex),
    (b"a ##/", 2, LexKind::ExtendedRegex),
    (b"a /* /* */", 2, LexKind::OpenComment),
    (b"/*/", 0, LexKind::OpenComment),
    (b"a \"b", 2, LexKind::OpenString),
    (b"\"a\nb\"", 0, LexKind::OpenString),
    (b"\"a\\\nb\"", 0, LexKind::OpenString),
    (b" \"\"\"a\"\" ", 1, LexKind::OpenString),
    (b" #\"a\"", 1, LexKind::OpenString),
    (b"\"a\\(b", 0, LexKind::OpenString),
    (b"\"a\\(\"b)\"", 0, LexKind::OpenString),
    (b"\"a\\(\"b)", 4, LexKind::OpenString),
    (b"\"\\(#p(1))\"", 3, LexKind::UseInInterpolation),
    (b"\"\\(#files)\"", 3, LexKind::UseInInterpolation),
    (b"\"\\(a ')\"", 5, LexKind::BadCharacter),
    (b"' \xff", 2, LexKind::NotUtf8),
];

const UNGROUPED: [(&str, u32, GroupKind); 11] = [
    (")", 0, GroupKind::Unopened),
    ("a ) b", 2, GroupKind::Unopened),
    ("(a))", 3, GroupKind::Unopened),
    ("(]", 1, GroupKind::Mismatched),
    ("([)]", 2, GroupKind::Mismatched),
    ("{ a [b} ]", 6, GroupKind::Mismatched),
    ("(", 0, GroupKind::Unclosed),
    ("(a) [b", 4, GroupKind::Unclosed),
    ("{ ( ) [", 6, GroupKind::Unclosed),
    ("{ ( [ ] )", 0, GroupKind::Unclosed),
    ("(]((", 1, GroupKind::Mismatched),
];

fn lexed(rt: &impl Abort, alloc: Global, text: &[u8]) -> Result<Vec<Token>, Refusal<LexFault>>
    ensures { Answers (λ tokens. tokens.items) result (IsLexed text.now) }
{
    assert!(rt; text.len() <= LONGEST_TEXT);
    lex(alloc, text)
}

/// The groups of a text that is read into tokens.
fn grouped(
    rt: &impl Abort,
    alloc: Global,
    text: &[u8],
) -> Option<Result<Vec<Element>, Refusal<GroupFault>>> {
    match lexed(rt, alloc, text) {
        Ok(tokens) => Some(group(alloc, &tokens, text)),
        Err(_) => None,
    }
}

fn token(class: Class, start: u32, end: u32, trivia: u32) -> Token {
    Token {
        class,
        start,
        end,
        trivia,
    }
}

#[test]
fn reads_tokens(rt: HostRuntime) {
    for (text, wanted) in READ {
        match lexed(&rt, rt.alloc(), text.as_bytes()) {
            Ok(tokens) => assert!(rt; are_chained(&tokens, wanted), "{text}"),
            Err(_) => assert!(rt; false, "{text}"),
        }
    }
}

#[test]
fn lexes_a_pound_word(rt: HostRuntime) {
    let wanted = [
        (Class::Word, 0, 1),
        (Class::Oper, 1, 2),
        (Class::Pound, 2, 4),
    ];
    match lexed(&rt, rt.alloc(), b"a+#b") {
        Ok(tokens) => assert!(rt; are_chained(&tokens, &wanted)),
        Err(_) => assert!(rt; false),
    }
}

/// Whether these are the classes and places of the tokens, and each trivia begins at the token before.
fn are_chained(tokens: &[Token], wanted: &[(Class, u32, u32)]) -> bool {
    let mut trivia = 0;
    for (i, token) in tokens.iter().enumerate() {
        if wanted.get(i) != Some(&(token.class, token.start, token.end)) || token.trivia != trivia {
            return false;
        }
        trivia = token.end;
    }
    tokens.len() == wanted.len()
}

#[test]
fn reads_the_declaration_of_stringify(rt: HostRuntime) -> Result<(), Fail> {
    let alloc = rt.alloc();
    let tokens = lexed(&rt, alloc, STRINGIFY.as_bytes())
        .ok()
        .ok_or("refused")?;
    assert_eq!(rt; tokens.len(), 33);
    let some = [
        (0, token(Class::At, 0, 1, 0)),
        (1, token(Class::Word, 1, 13, 1)),
        (7, token(Class::Oper, 41, 42, 41)),
        (16, token(Class::Oper, 57, 59, 56)),
        (23, token(Class::Pound, 74, 88, 73)),
        (27, token(Class::Str, 97, 111, 96)),
        (32, token(Class::RightBracket, 135, 136, 135)),
    ];
    for (place, wanted) in some {
        assert_eq!(rt; tokens.get(place).copied(), Some(wanted), "at {place}");
    }
    Ok(())
}

#[test]
fn refuses_at_the_first_fault(rt: HostRuntime) {
    for (text, at, kind) in REFUSED {
        match lexed(&rt, rt.alloc(), text) {
            Err(Refusal::Fault(fault)) => assert_eq!(rt; fault, LexFault { at, kind }),
            _ => assert!(rt; false, "at {at}"),
        }
    }
}

#[test]
fn groups_and_mismatches(rt: HostRuntime) {
    match grouped(&rt, rt.alloc(), b"(a)") {
        Some(Ok(elements)) => assert!(rt; is_one_leaf_in_brackets(&elements)),
        _ => assert!(rt; false),
    }
    match grouped(&rt, rt.alloc(), b"") {
        Some(Ok(elements)) => assert!(rt; elements.is_empty()),
        _ => assert!(rt; false),
    }
    for (text, at, kind) in UNGROUPED {
        match grouped(&rt, rt.alloc(), text.as_bytes()) {
            Some(Err(Refusal::Fault(fault))) => assert_eq!(rt;
                fault,
                GroupFault { at, kind },
                "{text}"
            ),
            _ => assert!(rt; false, "{text}"),
        }
    }
}

/// Groups that are read at once are there wherever the tokens and their groups are.
#[test]
fn groups_are_read_at_once(rt: HostRuntime) {
    let alloc = rt.alloc();
    for (text, _) in READ {
        let found = read_at_once(&rt, alloc, text.as_bytes());
        let wanted = grouped(&rt, alloc, text.as_bytes()).is_some_and(|groups| groups.is_ok());
        assert_eq!(rt; found.is_some(), wanted, "{text}");
    }
    match read_at_once(&rt, alloc, b"(a)") {
        Some(elements) => assert!(rt; is_one_leaf_in_brackets(&elements)),
        None => assert!(rt; false),
    }
    for (text, at, _) in REFUSED {
        assert!(rt; read_at_once(&rt, alloc, text).is_none(), "at {at}");
    }
    for (text, _, _) in UNGROUPED {
        assert!(rt;
            read_at_once(&rt, alloc, text.as_bytes()).is_none(),
            "{text}"
        );
    }
}

fn read_at_once(rt: &impl Abort, alloc: Global, text: &[u8]) -> Option<Vec<Element>> {
    assert!(rt; text.len() <= LONGEST_TEXT);
    read_elements(alloc, text)
}

fn is_one_leaf_in_brackets(elements: &[Element]) -> bool {
    match elements {
        [Element::Nest(group)] => match group.inner.as_slice() {
            [Element::Leaf(leaf)] => group.left == token(Class::LeftBracket, 0, 1, 0)
                && *leaf == token(Class::Word, 1, 2, 1)
                && group.right == token(Class::RightBracket, 2, 3, 2),
            _ => false,
        },
        _ => false,
    }
}

#[test]
fn brackets_are_nested_at_most_200_deep(rt: HostRuntime) -> Result<(), Fail> {
    let alloc = rt.alloc();
    for depth in [199usize, 200] {
        let mut text = vec![in alloc; b'('; depth]?;
        for _ in 0..depth {
            text.push(b')')?;
        }
        assert!(rt; grouped(&rt, alloc, &text).is_some_and(|groups| groups.is_ok()));
    }
    let text = vec![in alloc; b'{'; 201]?;
    let kind = GroupKind::TooDeep;
    match grouped(&rt, alloc, &text) {
        Some(Err(Refusal::Fault(fault))) => assert_eq!(rt; fault, GroupFault { at: 200, kind }),
        _ => assert!(rt; false),
    }
    Ok(())
}
