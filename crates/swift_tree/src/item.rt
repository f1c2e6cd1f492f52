// Declarations and their parts.

ghost use Rattle.std.specs.Prelude.{◌≡◌, IfOk, true};
ghost use Rattle.swift_tree.specs.Further.{nothing_further};

use std::alloc::{AllocError, Global};
use std::marker::Model;
use swift_base::{Listed, SmallList, Span, ThinList};

/// The kinds of declaration: one for each word that starts a declaration, and a macro use in a declaration's place.
#[derive(Clone, Copy, PartialEq, Eq, Debug)]
pub enum Kind {
    Import,
    Typealias,
    Associatedtype,
    Struct,
    Class,
    Enum,
    Protocol,
    Extension,
    Func,
    Var,
    Let,
    Init,
    Deinit,
    Subscript,
    Case,
    Operator,
    Precedencegroup,
    Actor,
    Macro,
    UseItem,
}

/// A macro use: from its `#` to its last token, and the name without the `#`.
#[derive(Clone, Copy, PartialEq, Eq, Debug)]
pub struct MacroUse {
    pub span: Span,
    pub name: Span,
}

/// An attribute: from its `@` to its last token, its name, whether the name has a dot, its arguments with
/// their parentheses, and the macro uses in these.
#[derive(Debug, Drop)]
pub struct Attr {
    pub span: Span,
    pub name: Span,
    pub dotted: bool,
    pub args: Option<Span>,
    pub uses: Listed<MacroUse>,
}

/// A binding of `var` or `let`. `equals` is the offset of its `=`, `init` what stands behind that, and `end` the
/// end of its last token, its block included.
#[derive(Debug, Drop)]
pub struct Binding {
    pub names: SmallList<Span>,
    pub type_span: Option<Span>,
    pub equals: Option<u32>,
    pub init: Option<Span>,
    pub end: u32,
}

/// What stands in the braces of a declaration.
#[derive(Clone, Copy, PartialEq, Eq, Debug)]
pub enum BlockShape {
    /// The members of a type or an extension.
    Members,
    /// Statements.
    Body,
    /// One or more accessors.
    Accessors,
}

/// The braces of a declaration, from the left one to the right one; only a block of members has members.
#[derive(Debug, Drop)]
#[cycle(outline)]
pub struct Block {
    pub span: Span,
    pub shape: BlockShape,
    pub members: Vec<Item>,
}

/// What few declarations have: attributes, inherited types, what an extension extends, and the macro uses and the local
/// attributes in it, at every depth, outside its own attributes and its members.
#[derive(Debug, Drop)]
pub struct FurtherParts {
    pub attrs: ThinList<Attr>,
    pub inherits: SmallList<Span>,
    pub extended: Option<Span>,
    pub uses: ThinList<MacroUse>,
    pub locals: ThinList<Attr>,
}

/// The same in little room: where a declaration has none of them, no memory is asked for. A contract sees it as the
/// parts that it stands for.
#[derive(Debug, Drop)]
pub struct Further {
    held: Option<Box<FurtherParts>>,
}

impl Model for Further {
    ghost use Rattle.swift_tree.specs.declared.item.FurtherParts.{FurtherParts};
    ghost use Rattle.swift_tree.specs.Further.{further_parts};

    ghost Value = { FurtherParts };

    ghost view = { λ further. further_parts further.held };
}

impl Further {
    pub fn none() -> Further
        ensures { result ≡ nothing_further }
    {
        Further { held: None }
    }

    /// The same parts.
    pub fn from_parts(alloc: Global, parts: FurtherParts) -> Result<Further, AllocError>
        ensures { IfOk result (λ further. further ≡ parts) }
    {
        if parts.is_nothing() {
            return Ok(Further::none());
        }
        Ok(Further {
            held: Some(Box::new(alloc, parts)?),
        })
    }

    pub fn attrs(&self) -> &[Attr]
        ensures { result.now ≡ self.now.attrs }
    {
        match &self.held {
            Some(parts) => parts.attrs.items(),
            None => &[],
        }
    }

    pub fn inherits(&self) -> &[Span]
        ensures { result.now ≡ self.now.inherits }
    {
        match &self.held {
            Some(parts) => parts.inherits.items(),
            None => &[],
        }
    }

    pub fn extended(&self) -> Option<Span>
        ensures { result ≡ self.now.extended }
    {
        match &self.held {
            Some(parts) => parts.extended,
            None => None,
        }
    }

    pub fn uses(&self) -> &[MacroUse]
        ensures { result.now ≡ self.now.uses }
    {
        match &self.held {
            Some(parts) => parts.uses.items(),
            None => &[],
        }
    }

    pub fn locals(&self) -> &[Attr]
        ensures { result.now ≡ self.now.locals }
    {
        match &self.held {
            Some(parts) => parts.locals.items(),
            None => &[],
        }
    }
}

impl FurtherParts {
    /// Whether there is none of them.
    fn is_nothing(&self) -> bool
        ensures { result ≡ true → self.now ≡ nothing_further }
    {
        self.extended.is_none()
            && self.attrs.items().is_empty()
            && self.inherits.items().is_empty()
            && self.uses.items().is_empty()
            && self.locals.items().is_empty()
    }
}

/// A declaration. `span` goes from its first token, attributes included, to its last; `after` is the end of the `;`
/// behind it, else its own end.
#[derive(Debug, Drop)]
#[cycle(outline)]
pub struct Item {
    pub span: Span,
    pub after: u32,
    pub kind: Kind,
    pub names: SmallList<Span>,
    pub bindings: SmallList<Binding>,
    pub block: Option<Box<Block>>,
    pub further: Further,
}
