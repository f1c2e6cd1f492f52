// Which names a reply may bring in.
ghost use Rattle.std.specs.Prelude.{◌≡◌, ◌++◌, IfOk, find};
ghost use Rattle.std.specs.Option.{option_copied};
ghost use Rattle.swift_tree.specs.Outlines.{items_of};
ghost use Rattle.role_names.specs.Decided.{is_covered_by_list};
ghost use Rattle.result_reader.specs.Names.{may_make, names_of, is_uncovered, is_observer, is_uncovered_observer};

use crate::fit::text_at;
use crate::reading::Reading;
use role_names::{covered_names_are_decided, covers, declared_names};
use std::alloc::{AllocError, Global};
use swift_base::Span;
use swift_tree::Item;
use unique_names::is_unique;

fn attached_name(reading: &Reading) -> Option<&[u8]>
    ensures { option_copied result ≡ reading.now.attached }
{
    match &reading.attached {
        Some(name) => Some(name.bytes()),
        None => None,
    }
}

fn is_listed(reading: &Reading, name: &[u8]) -> bool
    ensures { result ≡ is_covered_by_list reading.now.names.rules reading.now.attached name.now }
{
    covered_names_are_decided();
    covers(&reading.names, attached_name(reading), name)
}

fn may_make(reading: &Reading, name: &[u8]) -> bool
    ensures { result ≡ may_make reading.now name.now }
{
    is_listed(reading, name) || is_unique(reading.discriminator.bytes(), name)
}

/// The names that the declarations declare, in order.
pub fn names_of(alloc: Global, items: &[Item]) -> Result<Vec<Span>, AllocError>
    ensures { IfOk result (λ names. names.items ≡ names_of (items_of items.now)) }
{
    let mut names = Vec::new(alloc);
    'items: for item in items {
        names.extend_from_slice(&declared_names(alloc, item)?)?;
    }
    Ok(names)
}

fn is_uncovered(reading: &Reading, text: &[u8], name: Span) -> bool
    ensures { result ≡ is_uncovered reading.now text.now name }
{
    !may_make(reading, text_at(text, name))
}

/// The first of these names that the macro may not make.
pub fn uncovered<'a>(reading: &Reading, text: &[u8], names: &'a [Span]) -> Option<&'a Span>
    ensures { option_copied result ≡ find (is_uncovered reading.now text.now) names.now }
{
    names
        .iter()
        .find(|name| is_uncovered(reading, text, **name))
}

fn is_observer(word: &[u8]) -> bool
    ensures { result ≡ is_observer word.now }
{
    word == b"willSet".as_slice() || word == b"didSet".as_slice()
}

fn is_uncovered_observer(reading: &Reading, text: &[u8], word: Span) -> bool
    ensures { result ≡ is_uncovered_observer reading.now text.now word }
{
    is_observer(text_at(text, word)) && is_uncovered(reading, text, word)
}

/// The first of these words of accessors that observes and that the macro may not make.
pub fn uncovered_observer<'a>(reading: &Reading, text: &[u8], words: &'a [Span]) -> Option<&'a Span>
    ensures { option_copied result ≡ find (is_uncovered_observer reading.now text.now) words.now }
{
    words
        .iter()
        .find(|word| is_uncovered_observer(reading, text, **word))
}
