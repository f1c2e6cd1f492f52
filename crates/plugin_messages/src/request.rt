// What a plug-in is asked, as plain data.
ghost use Rattle.std.specs.Prelude.{◌≡◌, IfOk};
ghost use Rattle.plugin_messages.specs.Tables.{kind_text};

use std::alloc::AllocError;
use swift_base::Text;
use unique_names::{Key, Role};

/// A place in a buffer: byte offset from 0, line and column from 1, the column in bytes.
#[derive(Debug, PartialEq, Drop)]
pub struct Location {
    pub file_id: Text,
    pub file_name: Text,
    pub offset: u32,
    pub line: u32,
    pub column: u32,
}

#[derive(Clone, Copy, Debug, PartialEq, Eq)]
pub enum SyntaxKind {
    Declaration,
    Statement,
    Expression,
    TypeName,
    Pattern,
    Attribute,
}

/// The text of each kind in a message, in the order of the kinds.
pub const KINDS: [(SyntaxKind, &str); 6] = [
    (SyntaxKind::Declaration, "declaration"),
    (SyntaxKind::Statement, "statement"),
    (SyntaxKind::Expression, "expression"),
    (SyntaxKind::TypeName, "type"),
    (SyntaxKind::Pattern, "pattern"),
    (SyntaxKind::Attribute, "attribute"),
];

impl SyntaxKind {
    pub fn text(self) -> &'static str
        ensures { result.now ≡ kind_text self }
    {
        KINDS[self as usize].1
    }
}

/// A piece of source text, and where it stands.
#[derive(Debug, PartialEq, Drop)]
pub struct Syntax {
    pub kind: SyntaxKind,
    pub source: Text,
    pub location: Option<Location>,
}

/// A macro: the module and the type that implement it, and its name.
#[derive(Debug, PartialEq, Drop)]
pub struct MacroRef {
    pub module: Text,
    pub type_name: Text,
    pub name: Text,
}

/// The syntaxes of a request: a use, or an attribute with its declaration and, for some roles, the type around it,
/// the extended type and the conformances that are asked for.
#[derive(Debug, PartialEq, Drop)]
pub enum Parts {
    Freestanding {
        syntax: Syntax,
    },
    Attached {
        attribute: Syntax,
        decl: Syntax,
        parent: Option<Syntax>,
        extended: Option<Syntax>,
        conformances: Option<Syntax>,
    },
}

/// One expansion that is asked for.
#[derive(Clone, Debug, Drop)]
pub struct Request {
    pub key: Key,
    pub target: MacroRef,
    pub role: Role,
    pub parts: Parts,
}

impl Clone for Location {
    ghost is_clone = { λ a b. b ≡ a };

    fn clone(&self) -> Result<Location, AllocError> {
        Ok(Location {
            file_id: self.file_id.clone()?,
            file_name: self.file_name.clone()?,
            offset: self.offset,
            line: self.line,
            column: self.column,
        })
    }
}

impl Clone for Syntax {
    ghost is_clone = { λ a b. b ≡ a };

    fn clone(&self) -> Result<Syntax, AllocError> {
        Ok(Syntax {
            kind: self.kind,
            source: self.source.clone()?,
            location: location_clone(&self.location)?,
        })
    }
}

impl Clone for MacroRef {
    ghost is_clone = { λ a b. b ≡ a };

    fn clone(&self) -> Result<MacroRef, AllocError> {
        Ok(MacroRef {
            module: self.module.clone()?,
            type_name: self.type_name.clone()?,
            name: self.name.clone()?,
        })
    }
}

impl Clone for Parts {
    ghost is_clone = { λ a b. b ≡ a };

    fn clone(&self) -> Result<Parts, AllocError> {
        match self {
            Parts::Freestanding { syntax } => Ok(Parts::Freestanding {
                syntax: syntax.clone()?,
            }),
            Parts::Attached {
                attribute,
                decl,
                parent,
                extended,
                conformances,
            } => Ok(Parts::Attached {
                attribute: attribute.clone()?,
                decl: decl.clone()?,
                parent: syntax_clone(parent)?,
                extended: syntax_clone(extended)?,
                conformances: syntax_clone(conformances)?,
            }),
        }
    }
}

fn location_clone(found: &Option<Location>) -> Result<Option<Location>, AllocError>
    ensures { IfOk result (λ copy. copy ≡ found.now) }
{
    match found {
        Some(found) => Ok(Some(found.clone()?)),
        None => Ok(None),
    }
}

fn syntax_clone(found: &Option<Syntax>) -> Result<Option<Syntax>, AllocError>
    ensures { IfOk result (λ copy. copy ≡ found.now) }
{
    match found {
        Some(found) => Ok(Some(found.clone()?)),
        None => Ok(None),
    }
}
