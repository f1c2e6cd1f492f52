// Worked examples, from the grammar's text.

use super::*;
use std::alloc::{AllocError, Global};
use std::process::Abort;
use std::test::Fail;
use swift_base::{Refusal, Span};
use swift_tree::{Attr, Binding, Block, BlockShape, Item, MacroUse, Outline, Shape};

fn parse_as(alloc: Global, shape: Shape, text: &[u8]) -> Result<Outline, Refusal<ParseFault>> {
    match shape {
        Shape::File => parse_file(alloc, text),
        Shape::Items => parse_items(alloc, text),
        Shape::Attributes => parse_attributes(alloc, text),
        Shape::Accessors => parse_accessors(alloc, text),
        Shape::Expression => parse_expression(alloc, text),
    }
}

/// What a test shows of an outline, in the words of its text.
#[derive(Drop)]
struct Sketch<'a> {
    text: &'a [u8],
    out: Vec<u8>,
}

impl<'a> Sketch<'a> {
    fn put(&mut self, bytes: &[u8]) -> Result<(), AllocError> {
        self.out.extend_from_slice(bytes)?;
        Ok(())
    }

    fn span(&mut self, before: &[u8], span: Span) -> Result<(), AllocError> {
        self.put(before)?;
        let part = self.text.get(span.start as usize..span.end as usize);
        self.put(part.unwrap_or(b"?"))
    }

    fn spans(&mut self, before: &[u8], spans: &[Span]) -> Result<(), AllocError> {
        let mut mark = before;
        for span in spans {
            self.span(mark, *span)?;
            mark = b",";
        }
        Ok(())
    }

    fn attrs(&mut self, before: &[u8], attrs: &[Attr]) -> Result<(), AllocError> {
        for attr in attrs {
            self.span(before, attr.name)?;
            if let Some(args) = attr.args {
                self.span(b"", args)?;
            }
            if attr.dotted {
                self.put(b"!")?;
            }
            self.uses(b"^", attr.uses.items())?;
        }
        Ok(())
    }

    fn uses(&mut self, before: &[u8], uses: &[MacroUse]) -> Result<(), AllocError> {
        for used in uses {
            self.span(before, used.span)?;
            self.span(b"/", used.name)?;
        }
        Ok(())
    }

    fn binding(&mut self, binding: &Binding) -> Result<(), AllocError> {
        self.put(b" (")?;
        self.spans(b"", binding.names.items())?;
        if let Some(span) = binding.type_span {
            self.span(b": ", span)?;
        }
        if let Some(span) = binding.init {
            self.span(b" = ", span)?;
        }
        self.put(b")")
    }

    #[cycle(sketch)]
    fn block(&mut self, block: &Block) -> Result<(), AllocError> {
        match block.shape {
            BlockShape::Members => {
                self.put(b" {")?;
                self.items(&block.members)?;
                self.put(b"}")
            }
            BlockShape::Body => self.put(b" body"),
            BlockShape::Accessors => self.put(b" accessors"),
        }
    }

    #[cycle(sketch)]
    fn item(&mut self, item: &Item) -> Result<(), AllocError> {
        self.put(kind_text(item))?;
        self.spans(b" ", item.names.items())?;
        if let Some(span) = item.further.extended() {
            self.span(b" of ", span)?;
        }
        self.spans(b" : ", item.further.inherits())?;
        self.attrs(b" @", item.further.attrs())?;
        self.uses(b" ", item.further.uses())?;
        self.attrs(b" ~", item.further.locals())?;
        for binding in item.bindings.items() {
            self.binding(binding)?;
        }
        match &item.block {
            Some(block) => self.block(block),
            None => Ok(()),
        }
    }

    #[cycle(sketch)]
    fn items(&mut self, items: &[Item]) -> Result<(), AllocError> {
        let mut mark: &[u8] = b"";
        for item in items {
            self.put(mark)?;
            self.item(item)?;
            mark = b"; ";
        }
        Ok(())
    }
}

fn kind_text(item: &Item) -> &'static [u8] {
    match item.kind {
        swift_tree::Kind::Import => b"import",
        swift_tree::Kind::Typealias => b"typealias",
        swift_tree::Kind::Associatedtype => b"associatedtype",
        swift_tree::Kind::Struct => b"struct",
        swift_tree::Kind::Class => b"class",
        swift_tree::Kind::Enum => b"enum",
        swift_tree::Kind::Protocol => b"protocol",
        swift_tree::Kind::Extension => b"extension",
        swift_tree::Kind::Func => b"func",
        swift_tree::Kind::Var => b"var",
        swift_tree::Kind::Let => b"let",
        swift_tree::Kind::Init => b"init",
        swift_tree::Kind::Deinit => b"deinit",
        swift_tree::Kind::Subscript => b"subscript",
        swift_tree::Kind::Case => b"case",
        swift_tree::Kind::Operator => b"operator",
        swift_tree::Kind::Precedencegroup => b"precedencegroup",
        swift_tree::Kind::Actor => b"actor",
        swift_tree::Kind::Macro => b"macro",
        swift_tree::Kind::UseItem => b"use",
    }
}

/// Texts that are read, with what is shown of them.
const READ: &[(Shape, &str, &str)] = &[
    (Shape::File, "", ""),
    (Shape::File, "struct S {}\n", "struct S {}"),
    (
        Shape::File,
        "/* a /* b */ c */ struct S {\n  let t = #\"a \"b\" \\(x)\"#\n  let m = \"\"\"\n    \"q\" \\(f(1))\n    \"\"\"\n  var o: Int?\n  var p = a\n    ? b\n    : c\n  func f() { guard let x = y else { return } }\n}\n",
        "struct S {let t (t = #\"a \"b\" \\(x)\"#); let m (m = \"\"\"\n    \"q\" \\(f(1))\n    \"\"\"); var o (o: Int?); var p (p = a\n    ? b\n    : c); func f body}",
    ),
    (
        Shape::File,
        "import Foundation\n\n/// A counter.\n@Watch\nfinal class Counter {\n  var count: Int = 0\n  func bump() { count += 1 }\n}\n",
        "import; class Counter @Watch {var count (count: Int = 0); func bump body}",
    ),
    (Shape::Items, "case a, b(Int)", "case a,b"),
    (Shape::Attributes, "@A @B(1)", "@A@B(1)"),
    (Shape::Accessors, "get { 1 }", "get"),
    (
        Shape::Accessors,
        "{ get { #p } set(v) { x = v } }",
        "get,set #p/p",
    ),
    (Shape::Accessors, "{}", ""),
    (Shape::Accessors, "", ""),
    (
        Shape::Accessors,
        "@inlinable mutating get async throws(E) { 1 } _modify { yield &x }",
        "get,_modify ~inlinable",
    ),
    (Shape::Attributes, "", ""),
    (
        Shape::Attributes,
        "@a.b.C<Int, [D]>(#p(#q), 1)\n@`d`",
        "@a.b.C(#p(#q), 1)!^#p(#q)/p@d",
    ),
    (
        Shape::Expression,
        "f(#p { 1 } g: { #q }, #r<Int>(1))",
        " #p { 1 } g: { #q }/p #r<Int>(1)/r",
    ),
    (
        Shape::Expression,
        "#outer(#inner(1))",
        " #outer(#inner(1))/outer",
    ),
    (Shape::File, "let x = -1", "let x (x = -1)"),
    (Shape::File, "var x: Int?=nil", "var x (x: Int?=nil)"),
    (Shape::File, "let x: = 1", "let x (x = 1)"),
    (
        Shape::File,
        "var a: [B<C, D>], e = f, g = h",
        "var a,e,g (a: [B<C, D>]) (e = f) (g = h)",
    ),
    (
        Shape::File,
        "var a = b < c, d = e",
        "var a,d (a = b < c) (d = e)",
    ),
    (Shape::File, "var a = b, c", "var a (a = b, c)"),
    (
        Shape::File,
        "let (a, b: (c, _)), `d`: Int",
        "let a,c,d (a,c) (d: Int)",
    ),
    (
        Shape::File,
        "var x: Int { 1 } = 2",
        "var x (x: Int { 1 } = 2)",
    ),
    (
        Shape::File,
        "var x: Int { get }",
        "var x (x: Int) accessors",
    ),
    (
        Shape::File,
        "var x: Int { get; set }",
        "var x (x: Int) body",
    ),
    (
        Shape::File,
        "var x = { willSet }",
        "var x (x = { willSet })",
    ),
    (
        Shape::File,
        "var x = 1 { willSet { f() } didSet {} }",
        "var x (x = 1) accessors",
    ),
    (
        Shape::File,
        "var x = #p { willSet {} }",
        "var x #p/p (x = #p) accessors",
    ),
    (
        Shape::File,
        "var x = #p { 1 }",
        "var x #p { 1 }/p (x = #p { 1 })",
    ),
    (
        Shape::File,
        "var x { 1 }, y: Int { 2 }",
        "var x,y (x) (y: Int) body",
    ),
    (
        Shape::File,
        "func ==<T>(a: T, b: T) -> Bool {}",
        "func == body",
    ),
    (Shape::File, "func < (a: S, b: S) -> Bool {}", "func < body"),
    (
        Shape::File,
        "func `f g`()\nfunc <<T>(a: T) {}",
        "func f g; func < body",
    ),
    (
        Shape::Items,
        "init?(x: Int) {}\ndeinit {}\nsubscript(i: Int) -> Int { get { 1 } }\nassociatedtype A",
        "init init body; deinit deinit body; subscript subscript accessors; associatedtype A",
    ),
    (
        Shape::File,
        "class C<T: P>: @unchecked B<T, U>, P where T: Q {}",
        "class C : B<T, U>,P ~unchecked {}",
    ),
    (Shape::File, "struct S<T> where T: P {}", "struct S {}"),
    (
        Shape::File,
        "extension A.B<C>: @retroactive P, Q where C: R {}",
        "extension of A.B<C> : P,Q ~retroactive {}",
    ),
    (
        Shape::File,
        "extension S where T: P {}",
        "extension of S {}",
    ),
    (
        Shape::File,
        "protocol P {\n  associatedtype A: B\n  var x: Int { get set }\n  func f()\n  init()\n}",
        "protocol P {associatedtype A; var x (x: Int) accessors; func f; init init}",
    ),
    (
        Shape::File,
        "enum E { indirect case a, b(c: Int); case d = 1 }",
        "enum E {case a,b; case d}",
    ),
    (
        Shape::File,
        "let a = b\n  + c\n  .d\nlet e = f",
        "let a (a = b\n  + c\n  .d); let e (e = f)",
    ),
    (
        Shape::File,
        "let a = b.\n  init(x)",
        "let a (a = b.\n  init(x))",
    ),
    (
        Shape::File,
        "infix operator +++ : A\nprecedencegroup A { x: y }",
        "operator; precedencegroup",
    ),
    (
        Shape::File,
        "class func f() {}\nclass var x = 1\nclass C {}",
        "func f body; var x (x = 1); class C {}",
    ),
    (
        Shape::File,
        "@A\n@B(\n1) public private(set)\nvar x = 1 ;; #p",
        "var x @A @B(\n1) (x = 1); use #p/p",
    ),
    (
        Shape::File,
        "func f() { if #p { 1 } else { #q {} } }",
        "func f #p/p #q {}/q body",
    ),
    (
        Shape::File,
        "func f() { if x.if(#p { 1 }), #r { } }",
        "func f #p { 1 }/p #r/r body",
    ),
    (
        Shape::File,
        "func f() {\n  @L(#u) func g(@M a: Int) {}\n  #v(@N b)\n}",
        "func f #u/u #v(@N b)/v ~L(#u)^#u/u ~M body",
    ),
    (
        Shape::File,
        "private(#a) @A(#b) let x = #c",
        "let x @A(#b)^#b/b #a/a #c/c (x = #c)",
    ),
    (Shape::File, "func f() -> #T { 1 }", "func f #T/T body"),
    (
        Shape::File,
        "#p<A>(1) { 2 } c: { 3 }\n#q",
        "use #p<A>(1) { 2 } c: { 3 }/p; use #q/q",
    ),
    (
        Shape::File,
        "macro m() = #externalMacro(module: \"A\", type: \"B\")",
        "macro m",
    ),
    (
        Shape::File,
        "let a =\n#p\nlet b = 1",
        "let a #p/p (a = #p); let b (b = 1)",
    ),
    (Shape::File, "let _ = 1", "let ( = 1)"),
    (
        Shape::File,
        "let a = #p<T >\nlet b",
        "let a #p<T >/p (a = #p<T >\nlet b)",
    ),
    (
        Shape::File,
        "let a = #p < b\n\nlet c: D<E",
        "let a #p/p (a = #p < b); let c (c: D<E)",
    ),
    (
        Shape::File,
        "let a = @b<c\n>d\nlet e = @f<g\nlet h",
        "let a ~b (a = @b<c\n>d); let e ~f (e = @f<g); let h (h)",
    ),
    (
        Shape::File,
        "func f() { a = b ? #p { 1 } : c; while #q { } }",
        "func f #p { 1 }/p #q/q body",
    ),
];

/// Texts that are refused, with the place and the kind of the first fault.
const REFUSED: &[(Shape, &str, u32, ParseKind)] = &[
    (Shape::File, "struct\n", 0, ParseKind::MissingName),
    (Shape::File, "let a = 1 +\n", 10, ParseKind::DanglingJoiner),
    (
        Shape::File,
        "let s = \"\\(#p(1))\"\n",
        11,
        ParseKind::UseInInterpolation,
    ),
    (Shape::File, "struct S {", 9, ParseKind::Unclosed),
    (Shape::File, "let a = (]", 9, ParseKind::Mismatched),
    (Shape::File, ")", 0, ParseKind::Unopened),
    (Shape::File, "let a = '", 8, ParseKind::BadCharacter),
    (Shape::File, "let a = \"", 8, ParseKind::OpenString),
    (Shape::File, "/* a", 0, ParseKind::OpenComment),
    (Shape::File, "let a = #/b/#", 8, ParseKind::ExtendedRegex),
    (Shape::File, "let a = $sXb", 8, ParseKind::ReservedWord),
    (Shape::File, "x\nlet `$sX` = 1", 6, ParseKind::ReservedWord),
    (Shape::Expression, "", 0, ParseKind::Empty),
    (Shape::Expression, " /* a */ ", 0, ParseKind::Empty),
    (Shape::Expression, "a; b", 1, ParseKind::NotAnExpression),
    (Shape::Attributes, "@A x", 3, ParseKind::NotAnAttribute),
    (Shape::Attributes, "@A @ 1", 3, ParseKind::NotAnAttribute),
    (
        Shape::Accessors,
        "get { 1 } x",
        10,
        ParseKind::NotAnAccessor,
    ),
    (
        Shape::Accessors,
        "get { 1 } @A set",
        10,
        ParseKind::NotAnAccessor,
    ),
    (
        Shape::Accessors,
        "{ get { 1 }; set { } }",
        11,
        ParseKind::NotAnAccessor,
    ),
    (Shape::Accessors, "{ 1 }", 2, ParseKind::NotAnAccessor),
    (Shape::Accessors, "[]", 0, ParseKind::NotAnAccessor),
    (Shape::File, "1", 0, ParseKind::NotADeclaration),
    (
        Shape::File,
        "let a = 1\n;f()",
        11,
        ParseKind::NotADeclaration,
    ),
    (Shape::File, "@A init() {}", 0, ParseKind::NotADeclaration),
    (
        Shape::File,
        "struct S { macro m() }",
        11,
        ParseKind::NotADeclaration,
    ),
    (Shape::File, "struct S { case }", 11, ParseKind::MissingName),
    (Shape::File, "struct S {} x", 12, ParseKind::NotADeclaration),
    (
        Shape::File,
        "func f() {} ()",
        12,
        ParseKind::NotADeclaration,
    ),
    (Shape::File, "#p(1) x", 6, ParseKind::NotADeclaration),
    (Shape::File, "#p\n(1)", 3, ParseKind::NotADeclaration),
    (
        Shape::File,
        "private\n(set) var x",
        0,
        ParseKind::NotADeclaration,
    ),
    (Shape::File, "#if A\n#endif", 0, ParseKind::BuiltinItem),
    (Shape::File, "@A #if", 3, ParseKind::AttributedUse),
    (Shape::File, "public #p", 7, ParseKind::AttributedUse),
    (Shape::File, "#p<T >", 5, ParseKind::DanglingJoiner),
    (Shape::File, "class final {}", 0, ParseKind::NotADeclaration),
    (Shape::File, "actor\n{}", 0, ParseKind::NotADeclaration),
    (Shape::File, "struct S", 0, ParseKind::MissingBlock),
    (Shape::File, "extension : P {}", 0, ParseKind::MissingName),
    (Shape::File, "extension S: P", 0, ParseKind::MissingBlock),
    (Shape::File, "func (x) {}", 0, ParseKind::MissingName),
    (
        Shape::File,
        "enum E { case a, 1 }",
        15,
        ParseKind::MissingName,
    ),
    (
        Shape::File,
        "enum E { case a, }",
        15,
        ParseKind::MissingName,
    ),
    (Shape::File, "let x=-1", 5, ParseKind::BadBinding),
    (Shape::File, "let", 0, ParseKind::BadBinding),
    (Shape::File, "let 1", 4, ParseKind::BadBinding),
    (Shape::File, "let a, ", 5, ParseKind::BadBinding),
    (Shape::File, "let a = ", 6, ParseKind::BadBinding),
    (Shape::File, "let a = , b = 1", 6, ParseKind::BadBinding),
    (Shape::File, "let x y", 6, ParseKind::BadBinding),
    (
        Shape::File,
        "var x: Int { 1 } foo",
        11,
        ParseKind::BadBinding,
    ),
    (Shape::File, "var x { 1 } = 2", 6, ParseKind::BadBinding),
    (Shape::File, "let x:", 5, ParseKind::DanglingJoiner),
    (
        Shape::File,
        "struct S { let a = 1 + }\nlet",
        21,
        ParseKind::DanglingJoiner,
    ),
    (
        Shape::File,
        "struct S { let a } let",
        19,
        ParseKind::NotADeclaration,
    ),
];

#[test]
fn texts_are_read(rt: HostRuntime) -> Result<(), Fail> {
    for (shape, text, shown) in READ {
        let outline = match parse_as(rt.alloc(), *shape, text.as_bytes()) {
            Ok(outline) => outline,
            Err(refusal) => {
                assert!(rt; false, "{text:?}: {refusal:?}");
                return Ok(());
            }
        };
        let mut sketch = Sketch {
            text: text.as_bytes(),
            out: Vec::new(rt.alloc()),
        };
        sketch.items(&outline.items)?;
        sketch.attrs(b"@", outline.attrs.items())?;
        sketch.spans(b"", outline.accessors.items())?;
        sketch.uses(b" ", outline.uses.items())?;
        sketch.attrs(b" ~", outline.locals.items())?;
        let Sketch { text: _, out } = sketch;
        assert_eq!(rt;
            std::str::from_utf8(&out).unwrap_or("?"),
            *shown,
            "of {text:?}"
        );
        assert_eq!(rt; outline.print(rt.alloc())?.as_slice(), text.as_bytes());
    }
    Ok(())
}

#[test]
fn texts_are_refused(rt: HostRuntime) -> Result<(), Fail> {
    for (shape, text, at, kind) in REFUSED {
        let refusal = match parse_as(rt.alloc(), *shape, text.as_bytes()) {
            Ok(_) => None,
            Err(refusal) => Some(refusal),
        };
        let wanted = Some(Refusal::Fault(ParseFault {
            at: *at,
            kind: *kind,
        }));
        assert_eq!(rt; refusal, wanted, "of {text:?}");
    }
    Ok(())
}

/// A type whose members have comments, strings and operators in them.
const MEMBERS: &[u8] =
    b"/* a /* b */ c */ struct S {\n  let t = #\"a \"b\" \\(x)\"#\n  let m = \"\"\"\n    \"q\" \\(f(1))\n    \"\"\"\n  var o: Int?\n  var p = a\n    ? b\n    : c\n  func f() { guard let x = y else { return } }\n}\n";

#[test]
fn outline_prints_its_text(rt: HostRuntime) -> Result<(), Fail> {
    let outline = parse_file(rt.alloc(), MEMBERS)?;
    assert_eq!(rt; outline.print(rt.alloc())?.as_slice(), MEMBERS);
    let members = match outline.items.first() {
        Some(
            Item {
                block: Some(block),
                ..
            },
        ) => block.members.len(),
        _ => 0,
    };
    assert_eq!(rt; members, 5);
    Ok(())
}

#[test]
fn names_of_a_case(rt: HostRuntime) -> Result<(), Fail> {
    let outline = parse_items(rt.alloc(), b"case a, b(Int)")?;
    assert_eq!(rt; outline.items.len(), 1);
    let wanted = [Span { start: 5, end: 6 }, Span { start: 8, end: 9 }];
    assert_eq!(rt; outline.items[0].names.items(), wanted.as_slice());
    Ok(())
}

#[test]
fn fragments(rt: HostRuntime) -> Result<(), Fail> {
    assert_eq!(rt;
        parse_attributes(rt.alloc(), b"@A @B(1)")?
            .attrs
            .items()
            .len(),
        2
    );
    assert_eq!(rt;
        parse_accessors(rt.alloc(), b"get { 1 }")?
            .accessors
            .items()
            .len(),
        1
    );
    let refusal = match parse_expression(rt.alloc(), b"") {
        Ok(_) => None,
        Err(refusal) => Some(refusal),
    };
    let kind = ParseKind::Empty;
    assert_eq!(rt; refusal, Some(Refusal::Fault(ParseFault { at: 0, kind })));
    Ok(())
}

/// A source with its members; `show` lists the offsets of their first tokens.
const COUNTER: &[u8] =
    b"import Foundation\n\n/// A counter.\n@Watch\nfinal class Counter {\n  var count: Int = 0\n  func bump() { count += 1 }\n}\n";

#[test]
fn declarations_lie_in_their_places(rt: HostRuntime) -> Result<(), Fail> {
    let outline = parse_file(rt.alloc(), COUNTER)?;
    assert_eq!(rt; outline.items.len(), 2);
    assert_eq!(rt; outline.items[0].span, Span { start: 0, end: 17 });
    assert_eq!(rt;
        outline.items[1].span,
        Span {
            start: 34,
            end: 114
        }
    );
    let Some(block) = &outline.items[1].block else {
        assert!(rt; false, "a class has a block");
        return Ok(());
    };
    assert_eq!(rt;
        block.span,
        Span {
            start: 61,
            end: 114
        }
    );
    assert_eq!(rt; block.members.len(), 2);
    assert_eq!(rt; block.members[0].span, Span { start: 65, end: 83 });
    assert_eq!(rt;
        block.members[1].span,
        Span {
            start: 86,
            end: 112
        }
    );
    assert_eq!(rt; outline.inside, Span { start: 0, end: 115 });
    Ok(())
}

#[test]
fn a_semicolon_is_no_part_of_a_declaration(rt: HostRuntime) -> Result<(), Fail> {
    let outline = parse_file(rt.alloc(), b"let a = 1, b: C ;\nlet d")?;
    assert_eq!(rt; outline.items.len(), 2);
    assert_eq!(rt; outline.items[0].span, Span { start: 0, end: 15 });
    assert_eq!(rt; outline.items[0].after, 17);
    assert_eq!(rt; outline.items[1].after, 23);
    let bindings = outline.items[0].bindings.items();
    assert_eq!(rt; bindings.len(), 2);
    assert_eq!(rt; bindings[0].equals, Some(6));
    assert_eq!(rt; bindings[0].init, Some(Span { start: 8, end: 9 }));
    assert_eq!(rt; bindings[0].end, 9);
    assert_eq!(rt; bindings[1].equals, None);
    assert_eq!(rt; bindings[1].end, 15);
    Ok(())
}

/// Texts of fragments, with the part of each that is spliced.
const INSIDE: [(Shape, &str, u32, u32); 6] = [
    (Shape::Attributes, " @A /* a */ @B ", 1, 14),
    (Shape::Attributes, " // a", 0, 0),
    (Shape::Accessors, " { get { 1 } } ", 2, 13),
    (Shape::Accessors, " get { 1 } ", 0, 11),
    (Shape::Expression, " a + b // c", 1, 6),
    (Shape::Items, " func f() {} ", 0, 13),
];

#[test]
fn fragments_have_a_part_that_is_spliced(rt: HostRuntime) -> Result<(), Fail> {
    for (shape, text, start, end) in &INSIDE {
        let outline = parse_as(rt.alloc(), *shape, text.as_bytes())?;
        assert_eq!(rt;
            outline.inside,
            Span {
                start: *start,
                end: *end
            },
            "of {text:?}"
        );
    }
    Ok(())
}

#[test]
fn a_text_may_be_so_long_and_no_longer(rt: HostRuntime) -> Result<(), Fail> {
    let blanks = vec![in rt.alloc(); b' '; LONGEST_SOURCE + 1]?;
    let outline = parse_file(rt.alloc(), &blanks[1..])?;
    assert_eq!(rt; outline.items.len(), 0);
    let refusal = match parse_file(rt.alloc(), &blanks) {
        Ok(_) => None,
        Err(refusal) => Some(refusal),
    };
    let kind = ParseKind::SourceTooLarge;
    assert_eq!(rt; refusal, Some(Refusal::Fault(ParseFault { at: 0, kind })));
    Ok(())
}

/// More elements than are marked at once, and a `#` word behind them.
#[test]
fn a_long_list_is_read_to_its_end(rt: HostRuntime) -> Result<(), Fail> {
    let mut text = Vec::new(rt.alloc());
    for _ in 0..30 {
        text.extend_from_slice(b"let a = b + c\n")?;
    }
    text.extend_from_slice(b"#p {}\nclass func f() {}")?;
    let outline = parse_file(rt.alloc(), &text)?;
    assert_eq!(rt; outline.items.len(), 32);
    assert_eq!(rt;
        outline.items[29].span,
        Span {
            start: 406,
            end: 419
        }
    );
    assert_eq!(rt;
        outline.items[30].span,
        Span {
            start: 420,
            end: 425
        }
    );
    assert_eq!(rt;
        outline.items[31].span,
        Span {
            start: 426,
            end: 443
        }
    );
    Ok(())
}
