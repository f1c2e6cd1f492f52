// What is wrong with a reply.
use decl_parser::ParseKind;
use swift_base::Text;

/// The kinds of fault of a reply, in the order in which they are looked for.
#[derive(Debug, Drop)]
pub enum ResultKind {
    /// The text has no outline of the role's shape.
    Parse(ParseKind),
    /// A declaration that has no place there, or one with `@main`; at its start.
    ForbiddenKind,
    /// A declaration at file scope of a macro that may make any name; at its start.
    FileScopeArbitrary,
    /// A name that the macro may not make; at the name.
    Uncovered(Text),
}

/// The first fault of a reply; `at` is its offset in the reply in bytes from 0.
#[derive(Debug, Drop)]
pub struct ResultFault {
    pub at: u32,
    pub kind: ResultKind,
}
