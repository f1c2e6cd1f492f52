// The macro uses and the attributes of elements, at every depth.

ghost use Rattle.std.specs.List.{list_any};
ghost use Rattle.std.specs.Prelude.{◌≡◌, ◌||◌, ◌+◌, ◌++◌, ◌-◌, ◌<◌, ◌≤◌, IfOk, OnOk, suc, drop, length, nat_lt, if◌then◌else◌};
ghost use Rattle.element_marks.specs.Heads.{attribute_length};
ghost use Rattle.element_marks.specs.Sorts.{is_at, is_use};
ghost use Rattle.decl_parser.specs.Found.{all_within, found_from, found_in, found_step, joined, local_attributes, seen, within};

use crate::attributes::{attr_of, copy_of, use_of};
use crate::inside::{Inside, first_locals, first_uses};
use crate::lists::{add, behind, upto};
use crate::quiet::{all_locals, all_uses};
use element_marks::{Blocks, Mark, attribute_length, is_at, is_use, use_length};
use std::alloc::{AllocError, Global};
use swift_tree::{Attr, MacroUse};

/// The attributes of the declaration itself, and the uses and the attributes in it.
#[derive(Drop)]
pub struct Findings {
    pub attrs: Vec<Attr>,
    pub uses: Vec<MacroUse>,
    pub locals: Vec<Attr>,
}

/// Where is looked for what.
#[derive(Clone, Copy)]
pub struct Search<'a, 'b> {
    /// The elements, up to the last that is looked through.
    pub list: &'a [Mark],
    /// The place of the first that is looked through.
    pub from: usize,
    /// Attributes that begin before this place are the declaration's own.
    pub own: usize,
    /// Where the braces begin that are blocks of the declaration.
    pub blocks: Blocks<'b>,
    /// What stands inside the elements that are looked through.
    pub insides: &'a [Inside],
}

/// What is found in the last elements of a list.
#[inline(always)]
pub fn found(alloc: Global, search: Search) -> Result<Findings, AllocError>
    requires { search.from ≤ length search.list.now }
    ensures { IfOk result (λ findings. seen findings ≡ found_from search.entry.blocks.starts.now search.entry.own search.entry.list.now search.entry.from 0 (length search.entry.list.now - search.entry.from) search.entry.insides.now) }
{
    let marks = behind(search.list, search.from);
    if search.insides.len() <= marks.len() && !begins_any(marks) {
        return all_within(alloc, search.insides);
    }
    found_by_steps(alloc, search)
}

/// Whether a use or an attribute begins with one of the elements.
fn begins_any(marks: &[Mark]) -> bool
    ensures { result ≡ list_any (λ mark. is_use mark || is_at mark) marks.now }
{
    marks.iter().any(|mark| is_use(mark) || is_at(mark))
}

/// What stands inside the elements.
#[inline(always)]
fn all_within(alloc: Global, insides: &[Inside]) -> Result<Findings, AllocError>
    ensures { IfOk result (λ findings. seen findings ≡ all_within insides.now) }
{
    Ok(Findings {
        attrs: Vec::new(alloc),
        uses: all_uses(alloc, insides)?,
        locals: all_locals(alloc, insides)?,
    })
}

/// What is found where uses or attributes begin.
fn found_by_steps(alloc: Global, search: Search) -> Result<Findings, AllocError>
    requires { search.from ≤ length search.list.now }
    ensures { IfOk result (λ findings. seen findings ≡ found_from search.entry.blocks.starts.now search.entry.own search.entry.list.now search.entry.from 0 (length search.entry.list.now - search.entry.from) search.entry.insides.now) }
{
    let mut findings = Findings {
        attrs: Vec::new(alloc),
        uses: Vec::new(alloc),
        locals: Vec::new(alloc),
    };
    let mut at = search.from;
    'elements: while at < search.list.len() {
        let count = step(alloc, search, at, &mut findings)?;
        at += count;
    }
    Ok(findings)
}

/// What is found in a whole list.
pub fn found_in(alloc: Global, marks: &[Mark], insides: &[Inside]) -> Result<Findings, AllocError>
    ensures { IfOk result (λ findings. seen findings ≡ found_in marks.now insides.now) }
{
    found(
        alloc,
        Search {
            list: marks,
            from: 0,
            own: 0,
            blocks: Blocks::new(&[]),
            insides,
        },
    )
}

/// Adds what begins at the place, and answers how many elements it is.
fn step(
    alloc: Global,
    search: Search,
    at: usize,
    findings: &mut Findings,
) -> Result<usize, AllocError>
    requires reached { search.from ≤ at }
    requires inside { at < length search.list.now }
    ensures more { IfOk result (λ length. length ≡ suc (found_step search.entry.blocks.starts.now search.entry.own search.entry.list.now at (drop (at - search.entry.from) search.entry.insides.now)).more) }
    ensures found { OnOk result (seen findings.new ≡ joined (seen findings.old) (found_step search.entry.blocks.starts.now search.entry.own search.entry.list.now at (drop (at - search.entry.from) search.entry.insides.now)).found) }
    ensures bound { IfOk result (λ count. at + count ≤ length search.entry.list.now) }
{
    let marks = behind(search.list, at);
    let insides = behind(search.insides, at - search.from);
    let used = use_length(search.blocks, upto(search.list, at), marks);
    if used > 0 {
        add(&mut findings.uses, use_of(upto(marks, used)))?;
        return Ok(used);
    }
    let own = own_length(search.own, at, marks);
    if own > 0 {
        add(&mut findings.attrs, attr_of(alloc, marks, insides)?)?;
        return Ok(own);
    }
    add_local(alloc, marks, insides, &mut findings.locals)?;
    add_inside(alloc, insides, findings)?;
    Ok(1)
}

/// How many elements the attribute of the declaration's own is that begins at the place; 0 where none does.
fn own_length(own: usize, at: usize, marks: &[Mark]) -> usize
    ensures value { result ≡ (if nat_lt at own then attribute_length marks.now else 0) }
    ensures bound { result ≤ length marks.now }
{
    if at < own { attribute_length(marks) } else { 0 }
}

/// Adds the attribute that begins the elements, where one does.
fn add_local(
    alloc: Global,
    marks: &[Mark],
    insides: &[Inside],
    locals: &mut Vec<Attr>,
) -> Result<(), AllocError>
    ensures { OnOk result (locals.new.items ≡ locals.old.items ++ local_attributes marks.now insides.now) }
{
    if attribute_length(marks) == 0 {
        return Ok(());
    }
    add(locals, attr_of(alloc, marks, insides)?)
}

/// Adds what stands inside the first element.
fn add_inside(alloc: Global, insides: &[Inside], findings: &mut Findings) -> Result<(), AllocError>
    ensures { OnOk result (seen findings.new ≡ joined (seen findings.old) (within insides.now)) }
{
    findings.uses.extend_from_slice(first_uses(insides))?;
    add_copies(alloc, &mut findings.locals, first_locals(insides))
}

pub fn add_copies(alloc: Global, list: &mut Vec<Attr>, attrs: &[Attr]) -> Result<(), AllocError>
    ensures { OnOk result (list.new.items ≡ list.old.items ++ attrs.now) }
{
    'attributes: for attr in attrs {
        add(list, copy_of(alloc, attr)?)?;
    }
    Ok(())
}
