// What is kept of a group's elements while they are read, one after another.

ghost use Rattle.std.specs.Prelude.{◌≡◌, IfOk, OnOk, true};
ghost use Rattle.swift_lexer.specs.Trees.{Forest, cons, forest_of, none, tree_of};
ghost use Rattle.element_marks.specs.Levels.{level};
ghost use Rattle.decl_parser.specs.Gathering.{IsGathered};
ghost use Rattle.decl_parser.specs.Levels.{inside_of, insides, is_leaf, read_inside};

use crate::inside::{Inside, nothing_inside};
use crate::levels::read_inside;
use crate::lists::add;
use crate::quiet::{add_locals, add_uses};
use element_marks::{is_quiet, marks_in, may_list_accessors};
use std::alloc::{AllocError, Global};
use swift_base::Listed;
use swift_lexer::Element;
use swift_tree::{Attr, MacroUse};

/// What a group in whose list no macro use and no attribute begins has to tell.
#[derive(Drop)]
pub struct Told {
    pub uses: Vec<MacroUse>,
    pub locals: Vec<Attr>,
}

/// What was read so far of a group's elements.
#[derive(Drop)]
pub enum Gathered {
    /// What stands inside each.
    Each(Vec<Inside>),
    /// Where the marks of the list aren't needed, only what it tells.
    Quiet(Told),
}

/// Nothing is read yet.
pub fn start(alloc: Global, text: &[u8], elements: &[Element]) -> Result<Gathered, AllocError>
    ensures { IfOk result (λ read. IsGathered text.now read (forest_of elements.now) (forest_of elements.now)) }
{
    if is_quiet(elements) && !may_list_accessors(text, elements) {
        return Ok(Gathered::Quiet(Told {
            uses: Vec::new(alloc),
            locals: Vec::new(alloc),
        }));
    }
    let list = Vec::with_capacity(alloc, elements.len())?;
    Ok(Gathered::Each(list))
}

impl Gathered {
    /// Adds an element, behind which `others` stand, and inside which `inside` does.
    pub fn add(
        &mut self,
        alloc: Global,
        text: &[u8],
        element: &Element,
        others: &[Element],
        inside: Inside,
    ) -> Result<(), AllocError>
        requires { inside ≡ inside_of text.now (tree_of element.now) }
        ensures { (elements : Forest) → IsGathered text.now self.old (cons (tree_of element.now) (forest_of others.now)) elements
            → OnOk result (IsGathered text.now self.new (forest_of others.now) elements) }
    {
        match self {
            Gathered::Each(list) => add(list, inside),
            Gathered::Quiet(told) => {
                add_uses(&mut told.uses, inside.uses.items())?;
                add_locals(alloc, &mut told.locals, inside.locals.items())
            }
        }
    }

    /// Adds a token, behind which `others` stand.
    pub fn add_token(
        &mut self,
        alloc: Global,
        text: &[u8],
        element: &Element,
        others: &[Element],
    ) -> Result<(), AllocError>
        requires { is_leaf (tree_of element.now) ≡ true }
        ensures { (elements : Forest) → IsGathered text.now self.old (cons (tree_of element.now) (forest_of others.now)) elements
            → OnOk result (IsGathered text.now self.new (forest_of others.now) elements) }
    {
        match self {
            Gathered::Each(list) => add(list, nothing_inside(alloc)),
            Gathered::Quiet(_) => Ok(()),
        }
    }
}

/// What stands inside a group, of which each element is read.
pub fn finish(
    alloc: Global,
    text: &[u8],
    elements: &[Element],
    read: Gathered,
) -> Result<Inside, AllocError>
    requires { IsGathered text.now read none (forest_of elements.now) }
    ensures { IfOk result (λ inside. inside ≡ read_inside (level text.now (forest_of elements.now)) (insides text.now (forest_of elements.now))) }
{
    match read {
        Gathered::Each(list) => {
            let marks = marks_in(alloc, text, elements)?;
            read_inside(alloc, &marks, &list)
        }
        Gathered::Quiet(told) => Ok(Inside {
            observes: false,
            lists_accessors: false,
            uses: Listed::from_vec(told.uses),
            locals: Listed::from_vec(told.locals),
        }),
    }
}
