// What stands behind `names:` and behind `conformances:`.
ghost use Rattle.std.specs.Prelude.{◌≡◌, ◌++◌, ◌∷◌, [], IfOk, OnOk, map, option_copied, option_map};
ghost use Rattle.swift_lexer.specs.Trees.{tree_of};
ghost use Rattle.macro_decls.specs.Arguments.{argument_seen};
ghost use Rattle.macro_decls.specs.Rules.{name_of, named, bare_rule, rule_with, called_name, called_rule, rule_of, rules_in, names_in, is_extension, is_stray, begins_names, begins_conformances, any_stray, names_lists, conformances_lists, most_conformances, fits, conformances_listed, conformances_in};

use crate::arguments::{Argument, Label, is_conformances, is_names};
use crate::elements::{bytes_of, inside_of, joined, leaf_at, round_at, spells_at};
use role_names::{NameList, NameRule};
use std::alloc::{AllocError, Global};
use swift_base::{Listed, Text};
use swift_lexer::{Class, Element, Token};
use unique_names::Role;

// A word, an operator, or what stands between backquotes.
fn name_of(text: &[u8], token: Token) -> Option<&[u8]>
    ensures { option_copied result ≡ name_of text.now token }
{
    match token.class {
        Class::Word | Class::Oper => Some(bytes_of(text, token)),
        Class::Quoted => Some(inside_of(text, token)),
        _ => None,
    }
}

// A name, perhaps followed by a group in round brackets.
fn named<'a>(text: &'a [u8], elements: &[Element]) -> Option<&'a [u8]>
    ensures { option_copied result ≡ named text.now (map tree_of elements.now) }
{
    let fits = elements.len() == 1
        || (elements.len() == 2 && round_at(text, elements, 1).is_some());
    if !fits {
        return None;
    }
    name_of(text, leaf_at(elements, 0)?)
}

fn bare_rule(text: &[u8], entry: &[Element]) -> Option<NameRule>
    ensures { result ≡ bare_rule text.now (map tree_of entry.now) }
{
    if spells_at(text, entry, 0, b"overloaded") {
        return Some(NameRule::Overloaded);
    }
    if spells_at(text, entry, 0, b"arbitrary") {
        return Some(NameRule::Arbitrary);
    }
    None
}

fn rule_with(
    alloc: Global,
    text: &[u8],
    entry: &[Element],
    name: &[u8],
) -> Result<Option<NameRule>, AllocError>
    ensures { IfOk result (λ rule. rule ≡ rule_with text.now (map tree_of entry.now) name.now) }
{
    if spells_at(text, entry, 0, b"named") {
        return Ok(Some(NameRule::Named(Text::from_bytes(alloc, name)?)));
    }
    if spells_at(text, entry, 0, b"prefixed") {
        return Ok(Some(NameRule::Prefixed(Text::from_bytes(alloc, name)?)));
    }
    if spells_at(text, entry, 0, b"suffixed") {
        return Ok(Some(NameRule::Suffixed(Text::from_bytes(alloc, name)?)));
    }
    Ok(None)
}

fn called_name<'a>(text: &'a [u8], entry: &[Element]) -> Option<&'a [u8]>
    ensures { option_copied result ≡ called_name text.now (map tree_of entry.now) }
{
    named(text, round_at(text, entry, 1)?)
}

fn called_rule(
    alloc: Global,
    text: &[u8],
    entry: &[Element],
) -> Result<Option<NameRule>, AllocError>
    ensures { IfOk result (λ rule. rule ≡ called_rule text.now (map tree_of entry.now)) }
{
    match called_name(text, entry) {
        Some(name) => rule_with(alloc, text, entry, name),
        None => Ok(None),
    }
}

// The rule that an entry is.
#[tactic(auto, unfolding(crate::specs::Rules::rule_of))]
fn rule_of(alloc: Global, text: &[u8], entry: &[Element]) -> Result<Option<NameRule>, AllocError>
    ensures { IfOk result (λ rule. rule ≡ rule_of text.now (map tree_of entry.now)) }
{
    match entry.len() {
        1 => Ok(bare_rule(text, entry)),
        2 => called_rule(alloc, text, entry),
        _ => Ok(None),
    }
}

fn rules_in(
    alloc: Global,
    text: &[u8],
    arguments: &[Argument<'_>],
) -> Result<Option<Vec<NameRule>>, AllocError>
    ensures { IfOk result (λ rules. option_map (λ list. list.items) rules ≡ rules_in text.now (map argument_seen arguments.now)) }
{
    let mut rules = Vec::new(alloc);
    'arguments: for argument in arguments {
        if is_names(argument.label) {
            let Some(rule) = rule_of(alloc, text, argument.entry)? else {
                return Ok(None);
            };
            rules.push(rule)?;
        }
    }
    Ok(Some(rules))
}

/// The rules of the entries of `names:`; `None` where an entry is no rule.
pub fn names_in(
    alloc: Global,
    text: &[u8],
    arguments: &[Argument<'_>],
) -> Result<Option<NameList>, AllocError>
    ensures { IfOk result (λ names. names ≡ names_in text.now (map argument_seen arguments.now)) }
{
    match rules_in(alloc, text, arguments)? {
        Some(rules) => Ok(Some(NameList {
            rules: Listed::from_vec(rules),
        })),
        None => Ok(None),
    }
}

fn is_extension(role: Option<Role>) -> bool
    ensures { result ≡ is_extension role }
{
    matches!(role, Some(Role::Extension))
}

// An argument without a list or of an unknown one, or an empty conformance.
fn is_stray(argument: &Argument<'_>) -> bool
    ensures { result ≡ is_stray (argument_seen argument.now) }
{
    match argument.label {
        None | Some(Label::Other) => true,
        Some(Label::Names) => false,
        Some(Label::Conformances) => argument.entry.is_empty(),
    }
}

fn begins_names(argument: &Argument<'_>) -> bool
    ensures { result ≡ begins_names (argument_seen argument.now) }
{
    argument.begins && is_names(argument.label)
}

fn begins_conformances(argument: &Argument<'_>) -> bool
    ensures { result ≡ begins_conformances (argument_seen argument.now) }
{
    argument.begins && is_conformances(argument.label)
}

fn any_stray(arguments: &[Argument<'_>]) -> bool
    ensures { result ≡ any_stray (map argument_seen arguments.now) }
{
    'arguments: for argument in arguments {
        if is_stray(argument) {
            return true;
        }
    }
    false
}

fn names_lists(arguments: &[Argument<'_>]) -> usize
    ensures { result ≡ names_lists (map argument_seen arguments.now) }
{
    arguments
        .iter()
        .filter(|argument| begins_names(*argument))
        .count()
}

fn conformances_lists(arguments: &[Argument<'_>]) -> usize
    ensures { result ≡ conformances_lists (map argument_seen arguments.now) }
{
    arguments
        .iter()
        .filter(|argument| begins_conformances(*argument))
        .count()
}

fn most_conformances(role: Option<Role>) -> usize
    ensures { result ≡ most_conformances role }
{
    if is_extension(role) { 1 } else { 0 }
}

// The arguments behind the first are lists that the role takes, each at most once.
fn fits(role: Option<Role>, arguments: &[Argument<'_>]) -> bool
    ensures { result ≡ fits role (map argument_seen arguments.now) }
{
    !any_stray(arguments)
        && names_lists(arguments) <= 1
        && conformances_lists(arguments) <= most_conformances(role)
}

fn conformances_listed(
    alloc: Global,
    text: &[u8],
    arguments: &[Argument<'_>],
) -> Result<Vec<Text>, AllocError>
    ensures { IfOk result (λ types. types.items ≡ conformances_listed text.now (map argument_seen arguments.now)) }
{
    let mut types = Vec::new(alloc);
    'arguments: for argument in arguments {
        if is_conformances(argument.label) {
            types.push(Text::from_vec(joined(alloc, text, argument.entry)?))?;
        }
    }
    Ok(types)
}

/// The types behind `conformances:`; `None` where the arguments don't fit the role.
#[tactic(auto, unfolding(crate::specs::Rules::conformances_in))]
pub fn conformances_in(
    alloc: Global,
    text: &[u8],
    role: Option<Role>,
    arguments: &[Argument<'_>],
) -> Result<Option<Listed<Text>>, AllocError>
    ensures { IfOk result (λ types. types ≡ conformances_in text.now role (map argument_seen arguments.now)) }
{
    if !fits(role, arguments) {
        return Ok(None);
    }
    let types = conformances_listed(alloc, text, arguments)?;
    Ok(Some(Listed::from_vec(types)))
}
