// Worked examples, from the grammar's text.

ghost use Rattle.swift_lexer.specs.Answers.{Answers};
ghost use Rattle.swift_lexer.specs.Tokens.{IsLexed};

use super::*;
use std::alloc::Global;
use std::process::Abort;
use std::test::Fail;
use swift_base::Span;
use swift_lexer::{Element, LONGEST_TEXT, LexFault, Refusal, Token, group, lex};

/// How many elements the attribute is with which a text begins, and the head.
const HEADS: [(&str, usize, u32); 11] = [
    ("@A.B<Int>(x) func f()", 8, 9),
    ("@objc(a:b:) (c) func f()", 3, 0),
    ("@main struct A {}", 2, 3),
    ("private(set) var x", 0, 3),
    ("private\n(set)", 0, 0),
    ("public class func f()", 0, 3),
    ("class C {}", 0, 1),
    ("class var x = 1", 0, 2),
    ("actor A {}", 0, 1),
    ("actor = 1", 0, 0),
    ("a.class.func()", 0, 0),
];

/// How many elements the angle part is that begins at a place.
const ANGLES: [(&str, usize, u32); 7] = [
    ("A<B<C>> x", 1, 5),
    ("A<B<C>> x", 3, 0),
    ("A<B<C>>=d", 1, 5),
    ("a < b", 1, 0),
    ("A<(B) -> C>", 1, 5),
    ("a <B> -> c", 1, 3),
    ("a<b<c>d>e", 3, 3),
];

/// How many elements the use is that begins at a place.
const USES: [(&str, usize, usize); 8] = [
    ("#m(x) { }", 0, 3),
    ("#m<A, B>(x)", 0, 7),
    ("#m <A>", 0, 1),
    ("if #m(x) { }", 1, 2),
    ("a.if #m(x) { }", 3, 3),
    ("if a { }; #m { }", 4, 2),
    ("#m { } done: { } other: { }", 0, 8),
    ("#m { }\ndone: { }", 0, 2),
];

/// How many elements a use with three closures is, where blocks begin at these places.
const CLOSURES: [(&[u32], usize); 7] = [
    (&[0, 2, 4, 12, 14, 23, 25], 8),
    (&[25, 23, 14, 12, 4, 2, 0], 8),
    (&[2, 24, 30], 5),
    (&[30, 24, 2], 5),
    (&[1, 13, 24], 2),
    (&[24, 1, 13], 2),
    (&[24, 13, 3], 1),
];

/// How many elements the declaration is that begins with a head of one element.
const ITEMS: [(&str, usize); 5] = [
    ("let a =\n1\nfunc f() {}", 4),
    ("let a = 1; let b = 2", 4),
    ("func f() {}\nvar b: Int", 4),
    ("var a: Int\n@A var b: Int", 4),
    ("func +\n(a: B) {}\nfunc f() {}", 4),
];

/// How many elements a binding has behind its pattern.
const BINDINGS: [(&str, usize); 3] = [
    (": D<B, C> = x, b = y", 9),
    (": A, b: C", 2),
    (" = f < g, h > (1), c = 2", 8),
];

/// What a type inherits.
const INHERITED: [(&str, &[(u32, u32)]); 4] = [
    ("", &[]),
    ("<A: B>: C", &[(8, 9)]),
    (
        ": @unchecked Sendable, D<E, F> where T: X",
        &[(13, 21), (23, 30)],
    ),
    ("where T: X", &[]),
];

/// The words of accessors, or the offset at which none begins.
const ACCESSORS: [(&str, Result<&[(u32, u32)], u32>); 4] = [
    (
        "get async throws { } nonmutating set { }",
        Ok(&[(0, 3), (33, 36)]),
    ),
    (
        "@A.B(c) get throws(E) { } set(x) { }",
        Ok(&[(8, 11), (26, 29)]),
    ),
    ("get { } x", Err(8)),
    ("get set", Err(0)),
];

/// How many elements the front has that is taken from the first on, of one element or more.
const FRONTS: [(&str, usize); 7] = [
    ("let a = 1\nlet b = 2", 2),
    ("@a(b)\npublic class func x<T>() { }\nlet y = 1", 11),
    ("let a: b < c\nlet d = e > f, g = h", 2),
    ("f<a, b> = c", 8),
    ("f<a, b", 5),
    ("@ = a, b", 1),
    ("a", 1),
];

/// The tokens of a text that is short enough to be read.
fn lexed(rt: &impl Abort, alloc: Global, text: &[u8]) -> Result<Vec<Token>, Refusal<LexFault>>
    ensures { Answers (λ tokens. tokens.items) result (IsLexed text.now) }
{
    assert!(rt; text.len() <= LONGEST_TEXT);
    lex(alloc, text)
}

/// The elements of a text on its outermost level, where it is read.
fn elements_of(rt: &impl Abort, alloc: Global, text: &[u8]) -> Vec<Element> {
    match lexed(rt, alloc, text) {
        Ok(tokens) => match group(alloc, &tokens, text) {
            Ok(elements) => elements,
            Err(_) => Vec::new(alloc),
        },
        Err(_) => Vec::new(alloc),
    }
}

/// Their marks.
fn marks_of(rt: &impl Abort, alloc: Global, text: &[u8]) -> Vec<Mark> {
    match marks_in(alloc, text, &elements_of(rt, alloc, text)) {
        Ok(marks) => marks,
        Err(_) => Vec::new(alloc),
    }
}

fn mark_at(marks: &[Mark], place: usize) -> Option<Mark> {
    marks.get(place).copied()
}

#[test]
fn heads_and_attributes(rt: HostRuntime) {
    for (text, attribute, head) in HEADS {
        let marks = marks_of(&rt, rt.alloc(), text.as_bytes());
        assert_eq!(rt; attribute_length(&marks), attribute, "{text}");
        assert_eq!(rt;
            mark_at(&marks, 0).map(|mark| mark.head),
            Some(head),
            "{text}"
        );
    }
}

#[test]
fn angle_parts_and_uses(rt: HostRuntime) {
    for (text, place, angles) in ANGLES {
        let marks = marks_of(&rt, rt.alloc(), text.as_bytes());
        assert_eq!(rt;
            mark_at(&marks, place).map(|mark| mark.angles),
            Some(angles),
            "{text}"
        );
    }
    for (text, place, length) in USES {
        let marks = marks_of(&rt, rt.alloc(), text.as_bytes());
        assert!(rt; place < marks.len(), "{text}");
        assert_eq!(rt;
            use_length(Blocks::new(&[]), &marks[..place], &marks[place..]),
            length,
            "{text}"
        );
    }
}

#[test]
fn blocks_are_no_closures(rt: HostRuntime) {
    let marks = marks_of(&rt, rt.alloc(), b"#m { } done: { } other: { }");
    for (starts, length) in CLOSURES {
        assert_eq!(rt;
            use_length(Blocks::new(starts), &[], &marks),
            length,
            "{starts:?}"
        );
    }
}

#[test]
fn declarations_and_bindings(rt: HostRuntime) {
    for (text, length) in ITEMS {
        let marks = marks_of(&rt, rt.alloc(), text.as_bytes());
        assert_eq!(rt; item_length(1, &marks), length, "{text}");
    }
    for (text, length) in BINDINGS {
        let marks = marks_of(&rt, rt.alloc(), text.as_bytes());
        assert_eq!(rt; binding_length(&marks), length, "{text}");
    }
}

fn are_at(spans: &[Span], places: &[(u32, u32)]) -> bool {
    spans.len() == places.len()
        && spans.iter().zip(places).all(|(span, place)| span.start == place.0
            && span.end == place.1)
}

#[test]
fn inherited_types_and_accessors(rt: HostRuntime) -> Result<(), Fail> {
    for (text, types) in INHERITED {
        let marks = marks_of(&rt, rt.alloc(), text.as_bytes());
        assert!(rt; are_at(&inherited(rt.alloc(), &marks)?, types), "{text}");
    }
    for (text, words) in ACCESSORS {
        let marks = marks_of(&rt, rt.alloc(), text.as_bytes());
        match accessor_words(rt.alloc(), &marks) {
            Ok(spans) => assert!(rt; are_at(&spans, words.unwrap_or(&[])), "{text}"),
            Err(swift_base::Refusal::Fault(at)) => assert_eq!(rt; words.err(), Some(at), "{text}"),
            Err(swift_base::Refusal::Memory) => assert!(rt; false, "{text}"),
        }
    }
    assert!(rt; lists_accessors(&marks_of(&rt, rt.alloc(), b"get set")));
    assert!(rt; !lists_accessors(&marks_of(&rt, rt.alloc(), b"get = set")));
    assert!(rt; observes(&marks_of(&rt, rt.alloc(), b"@A willSet(x) { }")));
    assert!(rt; !observes(&marks_of(&rt, rt.alloc(), b"get { }")));
    Ok(())
}

#[test]
fn fronts(rt: HostRuntime) -> Result<(), Fail> {
    for (text, length) in FRONTS {
        let bytes = text.as_bytes();
        let elements = elements_of(&rt, rt.alloc(), bytes);
        let marks = marks_in(rt.alloc(), bytes, &elements)?;
        assert_eq!(rt;
            front_marks(rt.alloc(), bytes, &elements, 0, 1)?.len(),
            length,
            "{text}"
        );
        for at in 0..marks.len() + 2 {
            for least in 0..4usize {
                let front = front_marks(rt.alloc(), bytes, &elements, at, least)?;
                let rest = behind(&marks, at);
                assert!(rt; front.len() >= least.min(rest.len()), "{text} at {at}");
                assert!(rt; front.len() <= rest.len(), "{text} at {at}");
                assert!(rt; front.as_slice() == &rest[..front.len()], "{text} at {at}");
            }
        }
    }
    Ok(())
}
