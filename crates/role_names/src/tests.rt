// Worked examples of names.

use crate::{NameList, NameRule, covers, declared_names};
use std::alloc::{AllocError, Global};
use std::test::Fail;
use swift_base::{Listed, SmallList, Span, Text};
use swift_tree::{Block, BlockShape, Further, Item, Kind};

#[derive(Clone, Copy)]
enum Sort {
    Named,
    Overloaded,
    Prefixed,
    Suffixed,
    Arbitrary,
}

/// A rule by its sort and its text, the attached name, a name, and whether the rule covers that.
const RULES: [(Sort, &[u8], Option<&[u8]>, &[u8], bool); 30] = [
    (Sort::Named, b"a", None, b"a", true),
    (Sort::Named, b"a", Some(b"x"), b"a", true),
    (Sort::Named, b"a", Some(b"x"), b"x", false),
    (Sort::Named, b"a", None, b"ab", false),
    (Sort::Named, b"", None, b"", true),
    (Sort::Named, b"", None, b"a", false),
    (Sort::Overloaded, b"", Some(b"x"), b"x", true),
    (Sort::Overloaded, b"", Some(b"x"), b"xy", false),
    (Sort::Overloaded, b"", Some(b""), b"", true),
    (Sort::Overloaded, b"", None, b"x", false),
    (Sort::Overloaded, b"", None, b"", false),
    (Sort::Prefixed, b"_", Some(b"x"), b"_x", true),
    (Sort::Prefixed, b"_", Some(b"x"), b"x_", false),
    (Sort::Prefixed, b"_", Some(b"x"), b"_", false),
    (Sort::Prefixed, b"_", Some(b""), b"_", true),
    (Sort::Prefixed, b"ab", Some(b"ba"), b"aba", false),
    (Sort::Prefixed, b"ab", Some(b"ba"), b"abba", true),
    (Sort::Prefixed, b"", Some(b"x"), b"x", true),
    (Sort::Prefixed, b"_", None, b"_", false),
    (Sort::Prefixed, b"", None, b"", false),
    (Sort::Suffixed, b"_", Some(b"x"), b"x_", true),
    (Sort::Suffixed, b"_", Some(b"x"), b"_x", false),
    (Sort::Suffixed, b"_", Some(b"x"), b"_", false),
    (Sort::Suffixed, b"_", Some(b""), b"_", true),
    (Sort::Suffixed, b"", Some(b"x"), b"x", true),
    (Sort::Suffixed, b"_", None, b"_", false),
    (Sort::Suffixed, b"", None, b"", false),
    (Sort::Arbitrary, b"", Some(b"x"), b"y", true),
    (Sort::Arbitrary, b"", None, b"y", true),
    (Sort::Arbitrary, b"", None, b"", true),
];

fn rule_of(alloc: Global, sort: Sort, bytes: &[u8]) -> Result<NameRule, AllocError> {
    let text = Text::from_bytes(alloc, bytes)?;
    Ok(match sort {
        Sort::Named => NameRule::Named(text),
        Sort::Overloaded => NameRule::Overloaded,
        Sort::Prefixed => NameRule::Prefixed(text),
        Sort::Suffixed => NameRule::Suffixed(text),
        Sort::Arbitrary => NameRule::Arbitrary,
    })
}

fn list_of(alloc: Global, rules: &[(Sort, &[u8])]) -> Result<NameList, AllocError> {
    let mut list = Vec::new(alloc);
    for (sort, bytes) in rules {
        list.push(rule_of(alloc, *sort, bytes)?)?;
    }
    Ok(NameList {
        rules: Listed::from_vec(list),
    })
}

#[test]
fn prefixed_name_is_covered(rt: HostRuntime) -> Result<(), Fail> {
    let list = list_of(rt.alloc(), &[(Sort::Prefixed, b"_")])?;
    assert!(rt; covers(&list, Some(b"x"), b"_x"));
    assert!(rt; !covers(&list, Some(b"x"), b"y"));
    Ok(())
}

#[test]
fn each_rule_covers(rt: HostRuntime) -> Result<(), Fail> {
    let alloc = rt.alloc();
    for (sort, bytes, attached, name, covered) in RULES {
        let list = list_of(alloc, &[(sort, bytes)])?;
        assert_eq!(rt; covers(&list, attached, name), covered);
    }
    Ok(())
}

#[test]
fn any_rule_of_a_list_covers(rt: HostRuntime) -> Result<(), Fail> {
    let alloc = rt.alloc();
    let list = list_of(alloc, &[(Sort::Named, b"a"), (Sort::Suffixed, b"s")])?;
    assert!(rt; covers(&list, Some(b"x"), b"a"));
    assert!(rt; covers(&list, Some(b"x"), b"xs"));
    assert!(rt; !covers(&list, Some(b"x"), b"as"));
    assert!(rt; !covers(&list_of(alloc, &[])?, Some(b"x"), b"x"));
    Ok(())
}

fn span(start: u32) -> Span {
    Span { start, end: start }
}

fn item(
    alloc: Global,
    kind: Kind,
    names: &[Span],
    block: Option<Block>,
) -> Result<Item, AllocError> {
    let block = match block {
        Some(block) => Some(Box::new(alloc, block)?),
        None => None,
    };
    Ok(Item {
        span: span(0),
        after: 1,
        kind,
        names: SmallList::from_slice(alloc, names)?,
        bindings: SmallList::none(),
        block,
        further: Further::none(),
    })
}

/// A block of a variable with two names, and of a type with one name and a member.
fn block(alloc: Global) -> Result<Block, AllocError> {
    let inner = Block {
        span: span(60),
        shape: BlockShape::Members,
        members: vec![in alloc; item(alloc, Kind::Func, &[span(70)], None)?]?,
    };
    let variable = item(alloc, Kind::Var, &[span(30), span(40)], None)?;
    let structure = item(alloc, Kind::Struct, &[span(50)], Some(inner))?;
    Ok(Block {
        span: span(20),
        shape: BlockShape::Members,
        members: vec![in alloc; variable, structure]?,
    })
}

#[test]
fn names_of_a_case(rt: HostRuntime) -> Result<(), Fail> {
    let alloc = rt.alloc();
    let case = item(alloc, Kind::Case, &[span(5), span(8)], None)?;
    let names = declared_names(alloc, &case)?;
    assert_eq!(rt; names.as_slice(), [span(5), span(8)].as_slice());
    Ok(())
}

#[test]
fn names_of_an_extension(rt: HostRuntime) -> Result<(), Fail> {
    let alloc = rt.alloc();
    let extension = item(alloc, Kind::Extension, &[], Some(block(alloc)?))?;
    let names = declared_names(alloc, &extension)?;
    assert_eq!(rt; names.as_slice(), [span(30), span(40), span(50)].as_slice());
    Ok(())
}
