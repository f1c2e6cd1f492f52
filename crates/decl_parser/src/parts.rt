// The parts of a declaration by its kind.

ghost use Rattle.std.specs.Prelude.{◌≡◌, ◌++◌, ◌∷◌, [], List, IfOk, MatchResult, Ok, OnOk, Some, None, map};
ghost use Rattle.swift_lexer.specs.Trees.{forest_of};
ghost use Rattle.element_marks.specs.declared.mark.Mark.{Mark};
ghost use Rattle.element_marks.specs.Answers.{Answers, Refuses};
ghost use Rattle.decl_parser.specs.Levels.{held};
ghost use Rattle.decl_parser.specs.Parts.{all_blocks, all_names, block_start, case_names, code, comma_start, first_name, function_name, has_members, last_block, named, names_only, of_case, of_extension, of_function, of_type, of_variable, operator_name, parts, prefixed, variable_parts, with_body, with_members};

use crate::bindings::{Bound, bindings, sole_binding};
use crate::fault::{ParseFault, ParseKind, fault};
use crate::inside::{BlockAt, Inside, block_here};
use crate::lists::{add, behind, upto};
use element_marks::{
    Mark, Stop, before_braces, inherited, is_comma, is_name, is_operator, is_word, length_before,
    name_of, span_of, whole,
};
use std::alloc::{AllocError, Global};
use swift_base::{Listed, Refusal, SmallList, Span};
use swift_lexer::Element;
use swift_tree::{Binding, BlockShape, Kind};

/// What a declaration has behind its starter, but for what stands inside its members' braces.
#[derive(Debug, Drop)]
pub struct Parts {
    pub names: SmallList<Span>,
    pub bindings: SmallList<Binding>,
    pub inherits: SmallList<Span>,
    pub extended: Option<Span>,
    pub block: Option<BlockAt>,
    /// How many elements stand before the braces behind which nothing may stand.
    pub body: Option<usize>,
    /// Where the braces begin that are blocks.
    pub blocks: Listed<u32>,
}

/// A list of one.
fn one<T: Drop>(alloc: Global, value: T) -> Result<Listed<T>, AllocError>
    ensures { IfOk result (λ list. list ≡ value ∷ []) }
{
    let mut list = Vec::with_capacity(alloc, 1)?;
    add(&mut list, value)?;
    Ok(Listed::from_vec(list))
}

fn none<T>(alloc: Global) -> Listed<T>
    ensures { result ≡ [] }
{
    Listed::from_vec(Vec::new(alloc))
}

/// Names and nothing else.
fn names_only(alloc: Global, names: SmallList<Span>) -> Parts
    ensures { result ≡ names_only names }
{
    Parts {
        names,
        bindings: SmallList::none(),
        inherits: SmallList::none(),
        extended: None,
        block: None,
        body: None,
        blocks: none(alloc),
    }
}

/// The parts of a declaration of the kind, by its starter and the elements behind that.
#[inline(always)]
pub fn parts_of(
    alloc: Global,
    text: &[u8],
    kind: Kind,
    starter: &Mark,
    marks: &[Mark],
    insides: &[Inside],
    elements: &[Element],
) -> Result<Parts, Refusal<ParseFault>>
    ensures { Answers (λ parts. parts) result (λ outcome. outcome ≡ parts kind starter.now marks.now insides.now (held text.now (forest_of elements.now))) }
{
    match kind {
        Kind::Import | Kind::Operator | Kind::Precedencegroup | Kind::UseItem => {
            Ok(names_only(alloc, SmallList::none()))
        }
        Kind::Typealias | Kind::Associatedtype | Kind::Macro => named(alloc, starter, marks),
        Kind::Struct | Kind::Class | Kind::Enum | Kind::Protocol | Kind::Actor => {
            of_type(alloc, starter, marks)
        }
        Kind::Extension => of_extension(alloc, starter, marks),
        Kind::Func => of_function(alloc, starter, marks, insides),
        Kind::Init | Kind::Deinit => Ok(code(alloc, false, span_of(starter), marks, insides)?),
        Kind::Subscript => Ok(code(alloc, true, span_of(starter), marks, insides)?),
        Kind::Var | Kind::Let => of_variable(alloc, text, starter, marks, insides, elements),
        Kind::Case => of_case(alloc, starter, marks),
    }
}

/// Whether the block of a declaration of the kind holds declarations.
pub fn has_members(kind: Kind) -> bool
    ensures { result ≡ has_members kind }
{
    matches!(
        kind,
        Kind::Struct | Kind::Class | Kind::Enum | Kind::Protocol | Kind::Extension | Kind::Actor
    )
}

/// The name that has to stand first.
fn first_name(starter: &Mark, marks: &[Mark]) -> Result<Span, Refusal<ParseFault>>
    ensures { Answers (λ name. name) result (λ outcome. outcome ≡ first_name starter.now marks.now) }
{
    match marks.first() {
        Some(name) if is_name(name) => Ok(name_of(name)),
        _ => Err(fault(starter.start, ParseKind::MissingName)),
    }
}

fn named(alloc: Global, starter: &Mark, marks: &[Mark]) -> Result<Parts, Refusal<ParseFault>>
    ensures { Answers (λ parts. parts) result (λ outcome. outcome ≡ named starter.now marks.now) }
{
    let name = first_name(starter, marks)?;
    Ok(names_only(alloc, SmallList::one(name)))
}

fn of_type(alloc: Global, starter: &Mark, marks: &[Mark]) -> Result<Parts, Refusal<ParseFault>>
    ensures { Answers (λ parts. parts) result (λ outcome. outcome ≡ of_type starter.now marks.now) }
{
    let name = first_name(starter, marks)?;
    let place = before_braces(marks);
    let names = SmallList::one(name);
    let clause = behind(upto(marks, place), 1);
    with_members(
        alloc,
        starter,
        names,
        None,
        clause,
        place,
        behind(marks, place),
    )
}

fn of_extension(alloc: Global, starter: &Mark, marks: &[Mark]) -> Result<Parts, Refusal<ParseFault>>
    ensures { Answers (λ parts. parts) result (λ outcome. outcome ≡ of_extension starter.now marks.now) }
{
    let Some(extended) = whole(upto(marks, length_before(Stop::Extended, marks))) else {
        return Err(fault(starter.start, ParseKind::MissingName));
    };
    let place = before_braces(marks);
    let clause = upto(marks, place);
    with_members(
        alloc,
        starter,
        SmallList::none(),
        Some(extended),
        clause,
        place,
        behind(marks, place),
    )
}

/// A type or an extension by its names, what it extends, what stands between its name and its braces, the place of
/// these, and what stands from there on.
fn with_members(
    alloc: Global,
    starter: &Mark,
    names: SmallList<Span>,
    extended: Option<Span>,
    clause: &[Mark],
    place: usize,
    marks: &[Mark],
) -> Result<Parts, Refusal<ParseFault>>
    ensures { Answers (λ parts. parts) result (λ outcome. outcome ≡ with_members starter.now names extended clause.now place marks.now) }
{
    let Some(braces) = marks.first() else {
        return Err(fault(starter.start, ParseKind::MissingBlock));
    };
    Ok(Parts {
        names,
        bindings: SmallList::none(),
        inherits: SmallList::from_vec(alloc, inherited(alloc, clause)?)?,
        extended,
        block: Some(BlockAt {
            span: span_of(braces),
            shape: BlockShape::Members,
        }),
        body: Some(place),
        blocks: one(alloc, braces.start)?,
    })
}

/// The name of a function, which may be an operator.
fn function_name(starter: &Mark, marks: &[Mark]) -> Result<Span, Refusal<ParseFault>>
    ensures { Answers (λ name. name) result (λ outcome. outcome ≡ function_name starter.now marks.now) }
{
    match marks.first() {
        Some(name) if is_name(name) => Ok(name_of(name)),
        Some(name) if is_operator(name) => Ok(operator_name(name, behind(marks, 1))),
        _ => Err(fault(starter.start, ParseKind::MissingName)),
    }
}

/// A last `<` directly before a word begins the generic parameters.
fn operator_name(name: &Mark, marks: &[Mark]) -> Span
    ensures { result ≡ operator_name name.now marks.now }
{
    match marks.first() {
        Some(next) if name.ends_angle && is_word(next) && !next.spaced => Span {
            start: name.start,
            end: name.end.saturating_sub(1),
        },
        _ => span_of(name),
    }
}

fn of_function(
    alloc: Global,
    starter: &Mark,
    marks: &[Mark],
    insides: &[Inside],
) -> Result<Parts, Refusal<ParseFault>>
    ensures { Answers (λ parts. parts) result (λ outcome. outcome ≡ of_function starter.now marks.now insides.now) }
{
    let name = function_name(starter, marks)?;
    Ok(code(alloc, false, name, marks, insides)?)
}

/// A function by its name.
fn code(
    alloc: Global,
    may_list: bool,
    name: Span,
    marks: &[Mark],
    insides: &[Inside],
) -> Result<Parts, AllocError>
    ensures { IfOk result (λ parts. parts ≡ code may_list name marks.now insides.now) }
{
    let place = before_braces(marks);
    let within = behind(insides, place);
    with_body(alloc, may_list, name, place, behind(marks, place), within)
}

/// A function by its name, the place of its braces, and what stands from there on.
fn with_body(
    alloc: Global,
    may_list: bool,
    name: Span,
    place: usize,
    marks: &[Mark],
    insides: &[Inside],
) -> Result<Parts, AllocError>
    ensures { IfOk result (λ parts. parts ≡ with_body may_list name place marks.now insides.now) }
{
    let names = SmallList::one(name);
    let Some(braces) = marks.first() else {
        return Ok(names_only(alloc, names));
    };
    Ok(Parts {
        names,
        bindings: SmallList::none(),
        inherits: SmallList::none(),
        extended: None,
        block: block_here(may_list, marks, insides),
        body: Some(place),
        blocks: one(alloc, braces.start)?,
    })
}

#[inline(always)]
fn of_variable(
    alloc: Global,
    text: &[u8],
    starter: &Mark,
    marks: &[Mark],
    insides: &[Inside],
    elements: &[Element],
) -> Result<Parts, Refusal<ParseFault>>
    ensures { Answers (λ parts. parts) result (λ outcome. outcome ≡ of_variable starter.now marks.now insides.now (held text.now (forest_of elements.now))) }
{
    let found = sole_binding(alloc, text, starter.start, marks, insides, elements)?;
    if let Some(bound) = found {
        return one_variable(alloc, bound);
    }
    let bounds = bindings(alloc, text, starter.start, marks, insides, elements)?;
    Ok(variable_parts(alloc, bounds)?)
}

fn variable_parts(alloc: Global, bounds: Vec<Bound>) -> Result<Parts, AllocError>
    ensures { IfOk result (λ parts. parts ≡ variable_parts bounds.items) }
{
    let names = all_names(alloc, &bounds)?;
    let blocks = all_blocks(alloc, &bounds)?;
    let block = last_block(&bounds);
    Ok(Parts {
        names: SmallList::from_vec(alloc, names)?,
        bindings: SmallList::from_vec(alloc, only_bindings(alloc, bounds)?)?,
        inherits: SmallList::none(),
        extended: None,
        block,
        body: None,
        blocks: Listed::from_vec(blocks),
    })
}

/// The parts of a variable with this binding alone.
#[inline(always)]
fn one_variable(alloc: Global, bound: Bound) -> Result<Parts, Refusal<ParseFault>>
    ensures { Answers (λ parts. parts) result (λ outcome. outcome ≡ Ok (variable_parts (bound ∷ []))) }
{
    let Bound { binding, block } = bound;
    Ok(Parts {
        names: SmallList::from_slice(alloc, binding.names.items())?,
        bindings: SmallList::one(binding),
        inherits: SmallList::none(),
        extended: None,
        block,
        body: None,
        blocks: start_of_block(alloc, block)?,
    })
}

fn start_of_block(alloc: Global, block: Option<BlockAt>) -> Result<Listed<u32>, AllocError>
    ensures { IfOk result (λ starts. starts ≡ block_start block) }
{
    match block {
        Some(block) => one(alloc, block.span.start),
        None => Ok(none(alloc)),
    }
}

fn all_names(alloc: Global, bounds: &[Bound]) -> Result<Vec<Span>, AllocError>
    ensures { IfOk result (λ names. names.items ≡ all_names bounds.now) }
{
    let mut names = Vec::with_capacity(alloc, bounds.len())?;
    'bounds: for bound in bounds {
        names.extend_from_slice(bound.binding.names.items())?;
    }
    Ok(names)
}

fn all_blocks(alloc: Global, bounds: &[Bound]) -> Result<Vec<u32>, AllocError>
    ensures { IfOk result (λ blocks. blocks.items ≡ all_blocks bounds.now) }
{
    let mut blocks = Vec::new(alloc);
    'bounds: for bound in bounds {
        add_block(&mut blocks, bound.block)?;
    }
    Ok(blocks)
}

fn add_block(blocks: &mut Vec<u32>, block: Option<BlockAt>) -> Result<(), AllocError>
    ensures { OnOk result (blocks.new.items ≡ blocks.old.items ++ block_start block) }
{
    match block {
        Some(block) => add(blocks, block.span.start),
        None => Ok(()),
    }
}

fn last_block(bounds: &[Bound]) -> Option<BlockAt>
    ensures { result ≡ last_block bounds.now }
{
    match bounds.last() {
        Some(bound) => bound.block,
        None => None,
    }
}

fn only_bindings(alloc: Global, bounds: Vec<Bound>) -> Result<Vec<Binding>, AllocError>
    ensures { IfOk result (λ bindings. bindings.items ≡ map (λ bound. bound.binding) bounds.items) }
{
    let mut bindings = Vec::with_capacity(alloc, bounds.len())?;
    'bounds: for bound in bounds {
        bindings.push(only_binding(bound))?;
    }
    Ok(bindings)
}

fn only_binding(bound: Bound) -> Binding
    ensures { result ≡ bound.binding }
{
    let Bound { binding, block: _ } = bound;
    binding
}

/// The names behind `case` and behind each comma.
fn of_case(alloc: Global, starter: &Mark, marks: &[Mark]) -> Result<Parts, Refusal<ParseFault>>
    ensures { Answers (λ parts. parts) result (λ outcome. outcome ≡ of_case starter.now marks.now) }
{
    let names = case_names(alloc, starter.start, marks)?;
    Ok(names_only(alloc, SmallList::from_vec(alloc, names)?))
}

fn case_names(alloc: Global, anchor: u32, marks: &[Mark]) -> Result<Vec<Span>, Refusal<ParseFault>>
    ensures { Answers (λ names. names.items) result (λ outcome. outcome ≡ case_names (Some anchor) marks.now) }
{
    let mut names = Vec::new(alloc);
    let mut wanted = Some(anchor);
    let mut rest = marks;
    'elements: while let Some((mark, others)) = rest.split_first() {
        wanted = case_step(&mut names, wanted, mark)?;
        rest = others;
    }
    match wanted {
        Some(at) => Err(fault(at, ParseKind::MissingName)),
        None => Ok(names),
    }
}

/// The offset of the `case` or the comma behind which the next element has to be a name.
fn case_step(
    names: &mut Vec<Span>,
    anchor: Option<u32>,
    mark: &Mark,
) -> Result<Option<u32>, Refusal<ParseFault>>
    ensures { (rest : List Mark) → MatchResult result (λ next. prefixed names.new.items (case_names next rest) ≡ prefixed names.old.items (case_names anchor (mark.now ∷ rest))) (λ refusal. Refuses refusal (λ outcome. outcome ≡ case_names anchor (mark.now ∷ rest))) }
{
    match anchor {
        None => Ok(comma_start(mark)),
        Some(_) if is_name(mark) => {
            add(names, name_of(mark))?;
            Ok(None)
        }
        Some(at) => Err(fault(at, ParseKind::MissingName)),
    }
}

fn comma_start(mark: &Mark) -> Option<u32>
    ensures { result ≡ comma_start mark.now }
{
    if is_comma(mark) {
        Some(mark.start)
    } else {
        None
    }
}
