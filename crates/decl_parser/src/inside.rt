// What stands in the brackets of an element, as far as the elements around it have to know.

ghost use Rattle.std.specs.Prelude.{◌≡◌, IfOk};
ghost use Rattle.decl_parser.specs.Insides.{AreBlank, block_here, first_inside, nothing_inside};

use crate::lists::add;
use element_marks::{Mark, span_of};
use std::alloc::{AllocError, Global};
use swift_base::{Listed, Span};
use swift_tree::{Attr, BlockShape, MacroUse};

/// What stands inside an element, read as each of the things that it may be.
#[derive(Debug, Drop)]
pub struct Inside {
    /// Whether observers of a variable stand there.
    pub observes: bool,
    /// Whether one accessor or more do, with braces or without.
    pub lists_accessors: bool,
    /// The macro uses and the attributes, at every depth.
    pub uses: Listed<MacroUse>,
    pub locals: Listed<Attr>,
}

/// The braces of a declaration's block, and what the block is.
#[derive(Clone, Copy, PartialEq, Eq, Debug)]
pub struct BlockAt {
    pub span: Span,
    pub shape: BlockShape,
}

/// What stands inside so many tokens.
pub fn blank_list(alloc: Global, count: usize) -> Result<Vec<Inside>, AllocError>
    ensures { IfOk result (λ list. AreBlank list.items) }
{
    let mut list = Vec::with_capacity(alloc, count)?;
    'tokens: for _ in 0..count {
        add(&mut list, nothing_inside(alloc))?;
    }
    Ok(list)
}

/// What stands inside a token.
pub fn nothing_inside(alloc: Global) -> Inside
    ensures { result ≡ nothing_inside }
{
    Inside {
        observes: false,
        lists_accessors: false,
        uses: Listed::from_vec(Vec::new(alloc)),
        locals: Listed::from_vec(Vec::new(alloc)),
    }
}

// What stands inside the first element, where there is one.

pub fn first_uses(insides: &[Inside]) -> &[MacroUse]
    ensures { result.now ≡ (first_inside insides.now).uses }
{
    match insides.first() {
        Some(inside) => inside.uses.items(),
        None => &[],
    }
}

pub fn first_locals(insides: &[Inside]) -> &[Attr]
    ensures { result.now ≡ (first_inside insides.now).locals }
{
    match insides.first() {
        Some(inside) => inside.locals.items(),
        None => &[],
    }
}

pub fn first_observes(insides: &[Inside]) -> bool
    ensures { result ≡ (first_inside insides.now).observes }
{
    match insides.first() {
        Some(inside) => inside.observes,
        None => false,
    }
}

pub fn first_lists_accessors(insides: &[Inside]) -> bool
    ensures { result ≡ (first_inside insides.now).lists_accessors }
{
    match insides.first() {
        Some(inside) => inside.lists_accessors,
        None => false,
    }
}

/// The block that stands first: of accessors, where it may list such and does, else of statements.
pub fn block_here(may_list: bool, marks: &[Mark], insides: &[Inside]) -> Option<BlockAt>
    ensures { result ≡ block_here may_list marks.now insides.now }
{
    let braces = marks.first()?;
    let shape = if may_list && first_lists_accessors(insides) {
        BlockShape::Accessors
    } else {
        BlockShape::Body
    };
    Some(BlockAt {
        span: span_of(braces),
        shape,
    })
}
