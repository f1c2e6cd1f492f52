// What is said of a site or of a reply.
use crate::site::SiteKind;
use decl_parser::ParseKind;
use swift_base::Text;

/// What a message says.
#[derive(Debug, PartialEq, Drop)]
pub enum MessageText {
    /// The first fault of a reply's text.
    Parse(ParseKind),
    /// The fault of a site; the name is the macro's, for `NoPlugin` the module's.
    Site { kind: SiteKind, name: Text },
    /// This form isn't expanded yet.
    NotBuilt,
    /// The plug-in of the module gave no reply.
    NoReply { module_name: Text },
    /// The macro's reply has no text.
    NoText { macro_name: Text },
    /// The macro made a declaration that it may not make there.
    ForbiddenKind { macro_name: Text },
    /// The macro's list has `arbitrary` at file scope.
    FileScopeArbitrary,
    /// The macro made a name that its list doesn't cover.
    Uncovered { name: Text, macro_name: Text },
}

/// An error at a place of a buffer, by the buffer's name; line and column count bytes from 1.
#[derive(Debug, PartialEq, Drop)]
pub struct Message {
    pub name: Text,
    pub line: u32,
    pub column: u32,
    pub text: MessageText,
}
