// Where a macro is implemented.
ghost use Rattle.std.specs.Prelude.{◌≡◌, IfOk, map, option_copied, option_map};
ghost use Rattle.swift_lexer.specs.Trees.{tree_of};
ghost use Rattle.macro_decls.specs.External.{is_string, begins_with_quote, holds_escape, quoted, quoted_at, names_external, external_by, external_of, external_at, external_in, strings_seen};

use crate::elements::{bytes_of, inside_of, leaf_at, round_at, spells_at};
use std::alloc::{AllocError, Global};
use swift_base::Text;
use swift_lexer::{Class, Element, Token};

/// The module and the type behind `#externalMacro`.
#[derive(Debug, Drop)]
pub struct External {
    pub module_name: Text,
    pub type_name: Text,
}

// The same, still in the text.
#[derive(Clone, Copy)]
struct Strings<'a> {
    module_name: &'a [u8],
    type_name: &'a [u8],
}

fn is_string(class: Class) -> bool
    ensures { result ≡ is_string class }
{
    matches!(class, Class::Str)
}

fn begins_with_quote(bytes: &[u8]) -> bool
    ensures { result ≡ begins_with_quote bytes.now }
{
    match bytes {
        [first, ..] => *first == b'"',
        [] => false,
    }
}

fn holds_escape(inside: &[u8]) -> bool
    ensures { result ≡ holds_escape inside.now }
{
    inside.iter().any(|b| *b == b'"' || *b == b'\\')
}

// What stands between the quotes of a string of one line without `\`.
fn quoted(text: &[u8], token: Token) -> Option<&[u8]>
    ensures { option_copied result ≡ quoted text.now token }
{
    let inside = inside_of(text, token);
    if is_string(token.class) && begins_with_quote(bytes_of(text, token)) && !holds_escape(inside) {
        return Some(inside);
    }
    None
}

fn quoted_at<'a>(text: &'a [u8], elements: &[Element], k: usize) -> Option<&'a [u8]>
    ensures { option_copied result ≡ quoted_at text.now (map tree_of elements.now) k }
{
    quoted(text, leaf_at(elements, k)?)
}

fn names_external(text: &[u8], elements: &[Element]) -> bool
    ensures { result ≡ names_external text.now (map tree_of elements.now) }
{
    elements.len() == 7
        && spells_at(text, elements, 0, b"module")
        && spells_at(text, elements, 1, b":")
        && spells_at(text, elements, 3, b",")
        && spells_at(text, elements, 4, b"type")
        && spells_at(text, elements, 5, b":")
}

fn external_of<'a>(text: &'a [u8], elements: &[Element]) -> Option<Strings<'a>>
    ensures { option_map strings_seen result ≡ external_of text.now (map tree_of elements.now) }
{
    if !names_external(text, elements) {
        return None;
    }
    let module_name = quoted_at(text, elements, 2)?;
    let type_name = quoted_at(text, elements, 6)?;
    Some(Strings {
        module_name,
        type_name,
    })
}

fn external_at<'a>(text: &'a [u8], elements: &[Element]) -> Option<Strings<'a>>
    ensures { option_map strings_seen result ≡ external_at text.now (map tree_of elements.now) }
{
    if !spells_at(text, elements, 0, b"=") || !spells_at(text, elements, 1, b"#externalMacro") {
        return None;
    }
    external_of(text, round_at(text, elements, 2)?)
}

// The first such in a row of elements.
fn first_external<'a>(text: &'a [u8], elements: &[Element]) -> Option<Strings<'a>>
    ensures { option_map strings_seen result ≡ external_in text.now (map tree_of elements.now) }
{
    let mut rest = elements;
    'elements: while let [_, others @ ..] = rest {
        let found = external_at(text, rest);
        if found.is_some() {
            return found;
        }
        rest = others;
    }
    None
}

/// Where the elements of a declaration say that the macro is implemented.
pub fn external_in(
    alloc: Global,
    text: &[u8],
    elements: &[Element],
) -> Result<Option<External>, AllocError>
    ensures { IfOk result (λ external. external ≡ external_in text.now (map tree_of elements.now)) }
{
    let Some(strings) = first_external(text, elements) else {
        return Ok(None);
    };
    Ok(Some(External {
        module_name: Text::from_bytes(alloc, strings.module_name)?,
        type_name: Text::from_bytes(alloc, strings.type_name)?,
    }))
}
