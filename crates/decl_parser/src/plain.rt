// Variables of one name with an initializer, as most declarations are, read by the elements of their list.

ghost use Rattle.std.specs.Prelude.{◌≡◌, ◌≤◌, ◌∷◌, ℕ, List, Some, IfSome, drop, false, length};
ghost use Rattle.swift_lexer.specs.Trees.{forest_of};
ghost use Rattle.swift_lexer.specs.declared.element.Element.{Element};
ghost use Rattle.swift_tree.specs.Outlines.{item_of};
ghost use Rattle.element_marks.specs.Heads.{with_joins};
ghost use Rattle.element_marks.specs.Levels.{own_marks};
ghost use Rattle.element_marks.specs.declared.mark.Mark.{Mark};
ghost use Rattle.decl_parser.specs.declared.place.Place.{Place};
ghost use Rattle.decl_parser.specs.Cut.{after};
ghost use Rattle.decl_parser.specs.Plain.{BeginsVariable, IsRead, is_plain, is_plain_name, plain_item, run_from, set_by, stops_first};

use crate::lists::upto;
use crate::quiet::are_silent;
use element_marks::{
    Keyword, Mark, Sort, Starter, begins_alone, begins_nothing, is_equals, is_parentheses,
    is_pattern, is_semicolon, is_underscore, is_word, joins, mark_of, name_of,
};
use swift_base::{SmallList, Span};
use swift_lexer::Element;
use swift_tree::{Binding, Further, Item, Kind};

/// A declaration, and how many elements it is.
#[derive(Drop)]
pub struct Read {
    pub item: Item,
    pub count: usize,
}

/// How far a declaration goes behind its starter.
#[derive(Clone, Copy)]
pub struct Run {
    /// How many elements it has there.
    pub count: usize,
    /// Where the last ends.
    pub end: u32,
    /// Whether the last joins.
    pub joins: bool,
    /// The end of a `;` behind it, else its own.
    pub after: u32,
}

/// The declaration that begins the elements, where it is `let` or `var`, a name, `=` and an initializer in which
/// neither a use nor an attribute begins, no comma and no braces stand and whose brackets have nothing to tell, and
/// where these elements alone tell where it ends.
pub fn variable_at(text: &[u8], elements: &[Element]) -> Option<Read>
    ensures read { IfSome result (λ read. (place : Place) (list : List Element) (at : ℕ) → drop at list ≡ elements.now → IsRead place text.now (forest_of list) at read) }
    ensures bound { IfSome result (λ read. read.count ≤ length elements.now) }
{
    let (first, others) = elements.split_first()?;
    let (second, behind_name) = others.split_first()?;
    let (third, init) = behind_name.split_first()?;
    let (fourth, _) = init.split_first()?;
    let starter = mark_of(text, first);
    let kind = variable_kind(&starter)?;
    let name = mark_of(text, second);
    let equals = mark_of(text, third);
    if !is_plain_name(&name) || !is_equals(&equals) {
        return None;
    }
    let run = run_behind(text, starter, others)?;
    if run.count < 3 || run.joins || !are_silent(text, upto(elements, run.count + 1)) {
        return None;
    }
    let value = mark_of(text, fourth);
    Some(Read {
        item: plain_item(kind, starter.start, &name, equals.start, value.start, run),
        count: run.count + 1,
    })
}

/// The kind of a variable without attributes and modifiers.
#[inline(always)]
fn variable_kind(starter: &Mark) -> Option<Kind>
    ensures { IfSome result (λ kind. BeginsVariable starter.now kind) }
{
    if !is_word(starter) || !begins_alone(starter) {
        return None;
    }
    match starter.keyword {
        Keyword::Starts(Starter::Let) => Some(Kind::Let),
        Keyword::Starts(Starter::Var) => Some(Kind::Var),
        _ => None,
    }
}

#[inline(always)]
fn is_plain_name(name: &Mark) -> bool
    ensures { result ≡ is_plain_name name.now }
{
    is_pattern(name) && !is_parentheses(name) && !is_underscore(name.keyword)
}

#[inline(always)]
fn is_plain(mark: &Mark) -> bool
    ensures { result ≡ is_plain mark.now }
{
    !matches!(
        mark.sort,
        Sort::Comma | Sort::At | Sort::Pound | Sort::Braces
    )
}

/// How far the declaration goes behind its starter, where its elements are plain and tell it alone.
#[inline(always)]
fn run_behind(text: &[u8], starter: Mark, elements: &[Element]) -> Option<Run>
    ensures run { IfSome result (λ run. Some run ≡ run_from 0 starter.end false (set_by (with_joins (Some starter) (own_marks text.now (forest_of elements.now))))) }
    ensures bound { IfSome result (λ run. run.count ≤ length elements.now) }
{
    let mut run = Run {
        count: 0,
        end: starter.end,
        joins: false,
        after: starter.end,
    };
    let mut previous = starter;
    'elements: for element in elements {
        let own = mark_of(text, element);
        let mut mark = own;
        mark.joins = joins(Some(previous), own);
        if stops_at(&mark, run.joins)? {
            return Some(Run {
                after: after_mark(run.end, &mark),
                ..run
            });
        }
        if !is_plain(&mark) {
            return None;
        }
        run = Run {
            count: run.count + 1,
            end: mark.end,
            joins: mark.joins,
            after: mark.end,
        };
        previous = own;
    }
    Some(run)
}

/// Whether a declaration has ended before the element, where that doesn't depend on what stands behind it.
#[inline(always)]
fn stops_at(mark: &Mark, joined: bool) -> Option<bool>
    ensures { IfSome result (λ stops. (behind : List Mark) → stops ≡ stops_first joined (set_by (mark.now ∷ behind))) }
{
    if is_semicolon(mark) {
        return Some(true);
    }
    if !mark.first {
        return Some(false);
    }
    if joined {
        return Some(false);
    }
    if begins_nothing(mark) {
        return Some(false);
    }
    if begins_alone(mark) { Some(true) } else { None }
}

/// The end of the element behind a declaration, where it is a `;`, else this one.
#[inline(always)]
fn after_mark(end: u32, mark: &Mark) -> u32
    ensures { (behind : List Mark) → result ≡ after end (mark.now ∷ behind) }
{
    if is_semicolon(mark) { mark.end } else { end }
}

/// The declaration by its parts.
#[inline(always)]
fn plain_item(kind: Kind, start: u32, name: &Mark, equals: u32, value: u32, run: Run) -> Item
    ensures { item_of result ≡ plain_item kind start name.now equals value run }
{
    Item {
        span: Span {
            start,
            end: run.end,
        },
        after: run.after,
        kind,
        names: SmallList::one(name_of(name)),
        bindings: SmallList::one(Binding {
            names: SmallList::one(name_of(name)),
            type_span: None,
            equals: Some(equals),
            init: Some(Span {
                start: value,
                end: run.end,
            }),
            end: run.end,
        }),
        block: None,
        further: Further::none(),
    }
}
