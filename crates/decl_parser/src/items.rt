// Lists of elements cut into declarations.

ghost use Rattle.std.specs.Prelude.{◌≡◌, ◌<◌, ◌≤◌, ◌+◌, ℕ, List, Ok, Some, IfOk, drop, length, map, option_map};
ghost use Rattle.swift_lexer.specs.Trees.{forest_of};
ghost use Rattle.swift_tree.specs.Outlines.{item_of};
ghost use Rattle.element_marks.specs.Answers.{Answers};
ghost use Rattle.element_marks.specs.Heads.{first_is};
ghost use Rattle.element_marks.specs.Sorts.{is_semicolon};
ghost use Rattle.decl_parser.specs.Cut.{all_ends, beginning, block_of, braces_seen, closed, count_of, ends, head_of, item_at, kind_of, members_at, members_place, nothing_more, start_of, starter_of, use_ends, use_fits, whole_item, word_kind};
ghost use Rattle.decl_parser.specs.declared.place.Place.{Place};
ghost use Rattle.decl_parser.specs.Insides.{AreBlank};
ghost use Rattle.decl_parser.specs.Parts.{parts};
ghost use Rattle.decl_parser.specs.Levels.{forest_size, held, insides, items_of_list, members_by};

use crate::attributes::{after, span_from};
use crate::fault::{ParseFault, ParseKind, fault};
use crate::found::{Findings, Search, found};
use crate::front::{Front, reaching};
use crate::inside::{BlockAt, Inside};
use crate::levels::{group_inside, listed_insides, listed_or};
use crate::lists::{add, behind, upto};
use crate::parts::{Parts, has_members, parts_of};
use crate::place::{Place, has_place};
use crate::plain::variable_at;
use element_marks::{
    Blocks, Keyword, Mark, Starter, before_braces, is_builtin_pound, is_pound, is_semicolon,
    item_length, use_length,
};
use std::alloc::{AllocError, Global};
use swift_base::{Refusal, Span, ThinList};
use swift_lexer::Element;
use swift_tree::{Block, Further, FurtherParts, Item, Kind};

/// The kind of declaration that a word begins.
fn word_kind(starter: Starter) -> Kind
    ensures { result ≡ word_kind starter }
{
    match starter {
        Starter::Import => Kind::Import,
        Starter::Typealias => Kind::Typealias,
        Starter::Associatedtype => Kind::Associatedtype,
        Starter::Struct => Kind::Struct,
        Starter::Class => Kind::Class,
        Starter::Enum => Kind::Enum,
        Starter::Protocol => Kind::Protocol,
        Starter::Extension => Kind::Extension,
        Starter::Func => Kind::Func,
        Starter::Var => Kind::Var,
        Starter::Let => Kind::Let,
        Starter::Init => Kind::Init,
        Starter::Deinit => Kind::Deinit,
        Starter::Subscript => Kind::Subscript,
        Starter::Case => Kind::Case,
        Starter::Operator => Kind::Operator,
        Starter::Precedencegroup => Kind::Precedencegroup,
        Starter::Actor => Kind::Actor,
        Starter::Macro => Kind::Macro,
    }
}

fn kind_of(starter: &Mark) -> Kind
    ensures { result ≡ kind_of starter.now }
{
    if is_pound(starter) {
        return Kind::UseItem;
    }
    match starter.keyword {
        Keyword::Starts(word) => word_kind(word),
        _ => Kind::UseItem,
    }
}

/// A declaration's elements: the last of `list`, from the place `from` on. `blanks` serve where nothing stands in
/// their brackets.
#[derive(Clone, Copy)]
struct Own<'a> {
    text: &'a [u8],
    list: &'a [Mark],
    from: usize,
    elements: &'a [Element],
    blanks: &'a [Inside],
}

/// The declarations that the elements are, or the first fault; the more `blanks`, the less memory is asked for.
#[cycle(items)]
pub fn items(
    alloc: Global,
    text: &[u8],
    elements: &[Element],
    place: Place,
    blanks: &[Inside],
) -> Result<Vec<Item>, Refusal<ParseFault>>
    requires { AreBlank blanks.now }
    ensures { Answers (λ items. map item_of items.items) result (λ outcome. outcome ≡ items_of_list place text.now (forest_of elements.now)) }
{
    let mut items = Vec::new(alloc);
    let mut front = Front {
        from: 0,
        marks: Vec::new(alloc),
    };
    let mut at = 0;
    'items: while at < elements.len() {
        if let Some(read) = variable_at(text, behind(elements, at)) {
            add(&mut items, read.item)?;
            at += read.count;
            continue;
        }
        front = reaching(alloc, text, elements, at, front)?;
        let here = at - front.from;
        let rest = behind(&front.marks, here);
        if first_semicolon(rest) {
            at += 1;
        } else if head_of(rest) == 0 {
            return Err(fault(start_of(rest), ParseKind::NotADeclaration));
        } else {
            let count = count_of(rest);
            let own = Own {
                text,
                list: upto(&front.marks, here + count),
                from: here,
                elements: upto(behind(elements, at), count),
                blanks,
            };
            let item = item_at(alloc, own, behind(&front.marks, here + count), place)?;
            add(&mut items, item)?;
            at += count;
        }
    }
    Ok(items)
}

fn first_semicolon(marks: &[Mark]) -> bool
    ensures { result ≡ first_is is_semicolon marks.now }
{
    match marks.first() {
        Some(mark) => is_semicolon(mark),
        None => false,
    }
}

/// The declaration that the elements are, or its first fault; `next` stands behind it.
#[cycle(items)]
#[tactic(auto, unfolding(crate::specs::Cut::item_at))]
fn item_at(
    alloc: Global,
    own: Own,
    next: &[Mark],
    place: Place,
) -> Result<Item, Refusal<ParseFault>>
    requires within { own.from ≤ length own.list.now }
    requires blank { AreBlank own.blanks.now }
    ensures { Answers item_of result (λ outcome. outcome ≡ item_at place own.entry.list.now own.entry.from next.now (insides own.entry.text.now (forest_of own.entry.elements.now)) (held own.entry.text.now (forest_of own.entry.elements.now))) }
{
    let marks = behind(own.list, own.from);
    let head = head_of(marks);
    let starter = beginning(place, marks)?;
    let braces = members_place(&starter, head, marks);
    let list = listed_insides(alloc, own.text, own.elements, braces, own.blanks)?;
    let insides = listed_or(own.blanks, own.elements.len(), &list);
    let kind = kind_of(&starter);
    let parts = own_parts(alloc, own, kind, &starter, head, insides)?;
    let members = members_at(alloc, own.text, own.elements, braces, own.blanks)?;
    all_ends(parts.body, &starter, own.list, own.from)?;
    assembled(alloc, own, next, kind, parts, insides, members)
}

/// The parts of a declaration, of whose elements so many are its head.
#[inline(always)]
fn own_parts(
    alloc: Global,
    own: Own,
    kind: Kind,
    starter: &Mark,
    head: usize,
    insides: &[Inside],
) -> Result<Parts, Refusal<ParseFault>>
    ensures { Answers (λ parts. parts) result (λ outcome. outcome ≡ parts kind starter.now (drop head (drop own.entry.from own.entry.list.now)) (drop head insides.now) (drop head (held own.entry.text.now (forest_of own.entry.elements.now)))) }
{
    let marks = behind(behind(own.list, own.from), head);
    let elements = behind(own.elements, head);
    let insides = behind(insides, head);
    parts_of(alloc, own.text, kind, starter, marks, insides, elements)
}

/// The declarations in the braces at the place.
#[cycle(items)]
fn members_at(
    alloc: Global,
    text: &[u8],
    elements: &[Element],
    place: Option<usize>,
    blanks: &[Inside],
) -> Result<Vec<Item>, Refusal<ParseFault>>
    requires { AreBlank blanks.now }
    ensures { Answers (λ items. map item_of items.items) result (λ outcome. outcome ≡ members_at place (held text.now (forest_of elements.now))) }
{
    match members_in(elements, place) {
        Some(inner) => {
            let mut members = items(alloc, text, inner, Place::Members, blanks)?;
            members.shrink_to_fit();
            Ok(members)
        }
        None => Ok(Vec::new(alloc)),
    }
}

/// The starter of a declaration that may stand there.
#[inline(always)]
fn beginning(place: Place, own: &[Mark]) -> Result<Mark, Refusal<ParseFault>>
    ensures { Answers (λ starter. starter) result (λ outcome. outcome ≡ beginning place own.now) }
{
    let starter = starter_of(place, own)?;
    use_fits(head_of(own), &starter)?;
    Ok(starter)
}

/// The declaration ends as it should.
#[inline(always)]
fn all_ends(
    body: Option<usize>,
    starter: &Mark,
    list: &[Mark],
    from: usize,
) -> Result<(), Refusal<ParseFault>>
    ensures { Answers (λ fine. fine) result (λ outcome. outcome ≡ all_ends body starter.now list.now from) }
{
    let own = behind(list, from);
    closed(body, behind(own, head_of(own)))?;
    use_ends(starter, list, from)?;
    ends(own)
}

/// How many elements the declaration is that begins here.
#[inline(always)]
pub fn count_of(marks: &[Mark]) -> usize
    ensures value { result ≡ count_of marks.now }
    ensures bound { result ≤ length marks.now + length marks.now }
{
    item_length(head_of(marks), marks)
}

/// What stands inside the braces at the place.
fn members_in(elements: &[Element], place: Option<usize>) -> Option<&[Element]>
    ensures members { (text : List ℕ) → members_by text (option_map (λ inner. forest_of inner.now) result) ≡ members_at place (held text (forest_of elements.now)) }
    ensures smaller { (inner : _) → result ≡ Some inner → forest_size (forest_of inner.now) < forest_size (forest_of elements.now) }
{
    group_inside(elements.get(place?)?)
}

fn head_of(own: &[Mark]) -> usize
    ensures value { result ≡ head_of own.now }
    ensures bound { result ≤ length own.now }
{
    match own.first() {
        Some(first) => (first.head as usize).min(own.len()),
        None => 0,
    }
}

fn start_of(own: &[Mark]) -> u32
    ensures { result ≡ start_of own.now }
{
    match own.first() {
        Some(first) => first.start,
        None => 0,
    }
}

/// The starter of a declaration, which has to have a place there.
fn starter_of(place: Place, own: &[Mark]) -> Result<Mark, Refusal<ParseFault>>
    ensures { Answers (λ starter. starter) result (λ outcome. outcome ≡ starter_of place own.now) }
{
    match behind(own, head_of(own).saturating_sub(1)).first() {
        Some(starter) if has_place(place, kind_of(starter)) => Ok(*starter),
        _ => Err(fault(start_of(own), ParseKind::NotADeclaration)),
    }
}

/// Where the braces of the members are among a declaration's elements.
fn members_place(starter: &Mark, head: usize, own: &[Mark]) -> Option<usize>
    requires { head ≤ length own.now }
    ensures { result ≡ members_place starter.now head own.now }
{
    if has_members(kind_of(starter)) {
        Some(head + before_braces(behind(own, head)))
    } else {
        None
    }
}

/// A macro use in a declaration's place has no attributes and no modifiers.
fn use_fits(head: usize, starter: &Mark) -> Result<(), Refusal<ParseFault>>
    ensures { Answers (λ fits. fits) result (λ outcome. outcome ≡ use_fits head starter.now) }
{
    if !is_pound(starter) {
        return Ok(());
    }
    if head != 1 {
        return Err(fault(starter.start, ParseKind::AttributedUse));
    }
    if is_builtin_pound(starter) {
        return Err(fault(starter.start, ParseKind::BuiltinItem));
    }
    Ok(())
}

fn nothing_more(marks: &[Mark]) -> Result<(), Refusal<ParseFault>>
    ensures { Answers (λ fine. fine) result (λ outcome. outcome ≡ nothing_more marks.now) }
{
    match marks.first() {
        Some(mark) => Err(fault(mark.start, ParseKind::NotADeclaration)),
        None => Ok(()),
    }
}

/// Nothing stands behind a macro use in a declaration's place.
fn use_ends(starter: &Mark, list: &[Mark], from: usize) -> Result<(), Refusal<ParseFault>>
    ensures { Answers (λ fine. fine) result (λ outcome. outcome ≡ use_ends starter.now list.now from) }
{
    if !is_pound(starter) {
        return Ok(());
    }
    let own = behind(list, from);
    nothing_more(behind(own, use_length(Blocks::new(&[]), upto(list, from), own)))
}

/// Nothing stands behind the braces at the place.
fn closed(place: Option<usize>, marks: &[Mark]) -> Result<(), Refusal<ParseFault>>
    ensures { Answers (λ fine. fine) result (λ outcome. outcome ≡ closed place marks.now) }
{
    match place {
        Some(place) => nothing_more(behind(behind(marks, place), 1)),
        None => Ok(()),
    }
}

/// The last element doesn't join.
fn ends(own: &[Mark]) -> Result<(), Refusal<ParseFault>>
    ensures { Answers (λ fine. fine) result (λ outcome. outcome ≡ ends own.now) }
{
    match own.last() {
        Some(mark) if mark.joins => Err(fault(mark.start, ParseKind::DanglingJoiner)),
        _ => Ok(()),
    }
}

#[inline(always)]
fn block_of(
    alloc: Global,
    block: Option<BlockAt>,
    members: Vec<Item>,
) -> Result<Option<Box<Block>>, AllocError>
    ensures { IfOk result (λ braces. braces_seen braces ≡ block_of block (map item_of members.items)) }
{
    let Some(BlockAt { span, shape }) = block else {
        return Ok(None);
    };
    let braces = Block {
        span,
        shape,
        members,
    };
    Ok(Some(Box::new(alloc, braces)?))
}

/// The declaration by its elements, its parts and its members.
#[inline(always)]
fn assembled(
    alloc: Global,
    own: Own,
    next: &[Mark],
    kind: Kind,
    parts: Parts,
    insides: &[Inside],
    members: Vec<Item>,
) -> Result<Item, Refusal<ParseFault>>
    requires { own.from ≤ length own.list.now }
    ensures { Answers item_of result (λ outcome. outcome ≡ Ok (whole_item own.entry.list.now own.entry.from next.now kind parts insides.now (map item_of members.items))) }
{
    let marks = behind(own.list, own.from);
    let Findings {
        attrs,
        uses,
        locals,
    } = found(
        alloc,
        Search {
            list: own.list,
            from: own.from,
            own: own.from + head_of(marks),
            blocks: Blocks::new(parts.blocks.items()),
            insides,
        },
    )?;
    let own_attrs = ThinList::from_vec(alloc, attrs)?;
    let all_uses = ThinList::from_vec(alloc, uses)?;
    let all_locals = ThinList::from_vec(alloc, locals)?;
    let span = span_from(marks);
    let Parts {
        names,
        bindings,
        inherits,
        extended,
        block,
        body: _,
        blocks: _,
    } = parts;
    let braces = block_of(alloc, block, members)?;
    let further = Further::from_parts(
        alloc,
        FurtherParts {
            attrs: own_attrs,
            inherits,
            extended,
            uses: all_uses,
            locals: all_locals,
        },
    )?;
    Ok(Item {
        span,
        after: after(span.end, next),
        kind,
        names,
        bindings,
        block: braces,
        further,
    })
}
