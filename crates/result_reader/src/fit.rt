// Which declarations of a reply have a place there.
ghost use Rattle.std.specs.Prelude.{◌≡◌};
ghost use Rattle.std.specs.List.{list_any};
ghost use Rattle.swift_tree.specs.Outlines.{item_of, items_of};
ghost use Rattle.result_reader.specs.Fit.{text_at, outer_head, is_never_made, is_member_alone, has_no_place, is_main, is_forbidden, is_declaration, first_start, is_arbitrary, may_not_be_arbitrary};

use element_marks::part;
use role_names::NameRule;
use swift_base::Span;
use swift_tree::{Attr, Item, Kind};
use unique_names::Role;

/// The bytes of a place.
pub fn text_at(text: &[u8], span: Span) -> &[u8]
    ensures { result.now ≡ text_at text.now span }
{
    part(text, span.start, span.end)
}

fn is_never_made(kind: Kind) -> bool
    ensures { result ≡ is_never_made kind }
{
    matches!(
        kind,
        Kind::Import | Kind::Operator | Kind::Precedencegroup | Kind::Macro | Kind::Extension
    )
}

fn is_member_alone(kind: Kind) -> bool
    ensures { result ≡ is_member_alone kind }
{
    matches!(
        kind,
        Kind::Init | Kind::Deinit | Kind::Subscript | Kind::Case | Kind::Associatedtype
    )
}

fn has_no_place(file_scope: bool, kind: Kind) -> bool
    ensures { result ≡ has_no_place file_scope kind }
{
    is_never_made(kind) || (file_scope && is_member_alone(kind))
}

fn is_main(text: &[u8], attr: &Attr) -> bool
    ensures { result ≡ is_main text.now attr.now }
{
    !attr.dotted && text_at(text, attr.name) == b"main".as_slice()
}

fn has_main(text: &[u8], attrs: &[Attr]) -> bool
    ensures { result ≡ list_any (is_main text.now) attrs.now }
{
    attrs.iter().any(|attr| is_main(text, attr))
}

fn is_declaration(kind: Kind) -> bool
    ensures { result ≡ is_declaration kind }
{
    !matches!(kind, Kind::UseItem)
}

#[tactic(auto, using(crate::proofs::Heads::kind_is))]
fn kind_of(item: &Item) -> Kind
    ensures { result ≡ (outer_head (item_of item.now)).kind }
{
    item.kind
}

#[tactic(auto, using(crate::proofs::Heads::start_is))]
fn start_of(item: &Item) -> u32
    ensures { result ≡ (outer_head (item_of item.now)).span.start }
{
    item.span.start
}

#[tactic(auto, using(crate::proofs::Heads::attrs_are))]
fn attrs_of(item: &Item) -> &[Attr]
    ensures { result.now ≡ (outer_head (item_of item.now)).attrs }
{
    item.further.attrs()
}

fn is_forbidden(file_scope: bool, text: &[u8], item: &Item) -> bool
    ensures { result ≡ is_forbidden file_scope text.now (outer_head (item_of item.now)) }
{
    has_no_place(file_scope, kind_of(item)) || has_main(text, attrs_of(item))
}

/// Where the first declaration begins that has no place there.
pub fn first_forbidden(file_scope: bool, text: &[u8], items: &[Item]) -> Option<u32>
    ensures { result ≡ first_start (is_forbidden file_scope text.now) (items_of items.now) }
{
    'items: for item in items {
        if is_forbidden(file_scope, text, item) {
            return Some(start_of(item));
        }
    }
    None
}

/// Where the first begins that is no macro use.
pub fn first_declaration(items: &[Item]) -> Option<u32>
    ensures { result ≡ first_start (λ head. is_declaration head.kind) (items_of items.now) }
{
    'items: for item in items {
        if is_declaration(kind_of(item)) {
            return Some(start_of(item));
        }
    }
    None
}

fn is_arbitrary(rule: &NameRule) -> bool
    ensures { result ≡ is_arbitrary rule.now }
{
    matches!(rule, NameRule::Arbitrary)
}

pub fn any_arbitrary(rules: &[NameRule]) -> bool
    ensures { result ≡ list_any is_arbitrary rules.now }
{
    rules.iter().any(|rule| is_arbitrary(rule))
}

pub fn may_not_be_arbitrary(role: Role) -> bool
    ensures { result ≡ may_not_be_arbitrary role }
{
    matches!(role, Role::Declaration | Role::Peer)
}
