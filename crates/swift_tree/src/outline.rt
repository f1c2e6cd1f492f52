// The outline of a text.

ghost use Rattle.std.specs.Prelude.{◌≡◌, IfOk};

use crate::item::{Attr, Item, MacroUse};
use std::alloc::{AllocError, Global};
use swift_base::{Listed, Span, Text};
use swift_lexer::Element;

/// As what a text was read.
#[derive(Clone, Copy, PartialEq, Eq, Debug)]
pub enum Shape {
    /// A source file.
    File,
    /// Declarations in any place.
    Items,
    /// Attributes and nothing else.
    Attributes,
    /// Accessors, or one pair of braces around them.
    Accessors,
    Expression,
}

/// A text and what it holds. `items` are of the shapes File and Items, `attrs` of the shape Attributes;
/// `accessors` are the words that begin the accessors of the shape Accessors, as `get`; `uses` and `locals` are
/// those of the shapes Accessors and Expression. `inside` is the part that is spliced: from the first to the last
/// token of attributes and of an expression, what stands between the braces around accessors, else the whole text.
/// `groups` are the bracket groups of the text, from which the rest was read.
#[derive(Debug, Drop)]
pub struct Outline {
    pub text: Text,
    pub shape: Shape,
    pub items: Vec<Item>,
    pub attrs: Listed<Attr>,
    pub accessors: Listed<Span>,
    pub inside: Span,
    pub uses: Listed<MacroUse>,
    pub locals: Listed<Attr>,
    pub groups: Vec<Element>,
}

impl Outline {
    /// The bytes of the text.
    pub fn print(&self, alloc: Global) -> Result<Vec<u8>, AllocError>
        ensures { IfOk result (λ bytes. bytes.items ≡ self.now.text) }
    {
        Vec::from_slice(alloc, self.text.bytes())
    }
}
