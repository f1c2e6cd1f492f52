// An element by its own text.

ghost use Rattle.std.specs.Prelude.{◌≡◌, ◌<◌, ◌^◌, length, slice_index, slice_range};
ghost use Rattle.swift_lexer.specs.Tiles.{bytes_of};
ghost use Rattle.swift_lexer.specs.Trees.{tree_of};
ghost use Rattle.element_marks.specs.Marks.{mark_of, mark_between, leaf_sort, leaf_keyword, mark_sort, operator_sort, pound_sort, group_sort, is_first, angle_count, begins_angle, ends_angle, is_punctuation, joins, operator_joins};

use crate::mark::{CARRIAGE_RETURN, GREATER, LESS, LINE_FEED, Mark, Sort};
use crate::words::{Keyword, is_builtin, is_joining, is_operator_name, keyword_of};
use swift_lexer::{Class, Element, Token};

/// The bytes from one place to another, as far as the text has them.
pub fn part(text: &[u8], start: u32, end: u32) -> &[u8]
    ensures bytes { result.now ≡ slice_range text.now start end }
    ensures short { length result.now < 2 ^ 32 }
{
    let end = text.len().min(end as usize);
    let start = end.min(start as usize);
    &text[start..end]
}

/// An element without its neighbours.
#[inline(always)]
pub fn mark_of(text: &[u8], element: &Element) -> Mark
    ensures { result ≡ mark_of text.now (tree_of element.now) }
{
    match element {
        Element::Leaf(token) => mark_between(text, *token, token.end),
        Element::Nest(group) => mark_between(text, group.left, group.right.end),
    }
}

#[inline(always)]
#[tactic(auto, unfolding(crate::specs::Marks::mark_between))]
fn mark_between(text: &[u8], token: Token, end: u32) -> Mark
    ensures { result ≡ mark_between text.now token end }
{
    let bytes = part(text, token.start, token.end);
    let sort = leaf_sort(token.class, bytes);
    Mark {
        sort,
        keyword: leaf_keyword(token.class, bytes),
        first: is_first(text, token),
        spaced: token.trivia < token.start,
        begins_angle: begins_angle(sort, bytes),
        ends_angle: ends_angle(sort, bytes),
        joins: false,
        modifies: false,
        start: token.start,
        end,
        opens: angle_count(LESS, sort, bytes),
        closes: angle_count(GREATER, sort, bytes),
        angles: 0,
        head: 0,
    }
}

#[inline(always)]
pub fn leaf_sort(class: Class, bytes: &[u8]) -> Sort
    requires { length bytes.now < 2 ^ 32 }
    ensures { result ≡ leaf_sort class bytes.now }
{
    match class {
        Class::Word => Sort::Word,
        Class::Quoted => Sort::Quoted,
        Class::Number => Sort::Number,
        Class::Str => Sort::Str,
        Class::Pound => pound_sort(part(bytes, 1, bytes.len() as u32)),
        Class::At => Sort::At,
        Class::Punct => mark_sort(byte_at(bytes, 0)),
        Class::Oper => operator_sort(bytes),
        Class::LeftBracket | Class::RightBracket => group_sort(byte_at(bytes, 0)),
    }
}

#[inline(always)]
pub fn leaf_keyword(class: Class, bytes: &[u8]) -> Keyword
    ensures { result ≡ leaf_keyword class bytes.now }
{
    match class {
        Class::Word => keyword_of(bytes),
        _ => Keyword::Plain,
    }
}

/// The byte at a place, 0 past the end.
pub fn byte_at(bytes: &[u8], at: usize) -> u8
    ensures { result ≡ slice_index bytes.now at }
{
    bytes.get(at).copied().unwrap_or(0)
}

#[tactic(auto, unfolding(crate::specs::Marks::pound_sort))]
fn pound_sort(word: &[u8]) -> Sort
    ensures { result ≡ pound_sort word.now }
{
    if is_builtin(word) {
        Sort::BuiltinPound
    } else {
        Sort::Pound
    }
}

#[tactic(auto, unfolding(crate::specs::Marks::mark_sort))]
fn mark_sort(byte: u8) -> Sort
    ensures { result ≡ mark_sort byte }
{
    match byte {
        b',' => Sort::Comma,
        b':' => Sort::Colon,
        b';' => Sort::Semicolon,
        b'.' => Sort::Dot,
        _ => Sort::Backslash,
    }
}

#[tactic(auto, unfolding(crate::specs::Marks::operator_sort))]
fn operator_sort(bytes: &[u8]) -> Sort
    ensures { result ≡ operator_sort bytes.now }
{
    match bytes {
        b"=" => Sort::Equals,
        b"->" => Sort::Arrow,
        _ => Sort::Operator,
    }
}

#[tactic(auto, unfolding(crate::specs::Marks::group_sort))]
fn group_sort(byte: u8) -> Sort
    ensures { result ≡ group_sort byte }
{
    match byte {
        b'(' => Sort::Parentheses,
        b'[' => Sort::Brackets,
        _ => Sort::Braces,
    }
}

/// Whether the trivia before the token hold a line's end.
#[tactic(auto, unfolding(crate::specs::Marks::is_first))]
fn is_first(text: &[u8], token: Token) -> bool
    ensures { result ≡ is_first text.now token }
{
    part(text, token.trivia, token.start)
        .iter()
        .any(|byte| *byte == LINE_FEED || *byte == CARRIAGE_RETURN)
}

/// How often the byte stands in an operator other than `->`.
fn angle_count(byte: u8, sort: Sort, bytes: &[u8]) -> u32
    requires { length bytes.now < 2 ^ 32 }
    ensures { result ≡ angle_count byte sort bytes.now }
{
    match sort {
        Sort::Operator => bytes.iter().filter(|b| **b == byte).count() as u32,
        _ => 0,
    }
}

fn begins_angle(sort: Sort, bytes: &[u8]) -> bool
    ensures { result ≡ begins_angle sort bytes.now }
{
    match sort {
        Sort::Operator => byte_at(bytes, 0) == LESS,
        _ => false,
    }
}

fn ends_angle(sort: Sort, bytes: &[u8]) -> bool
    ensures { result ≡ ends_angle sort bytes.now }
{
    match sort {
        Sort::Operator => bytes.len() > 1 && byte_at(bytes, bytes.len() - 1) == LESS,
        _ => false,
    }
}

#[inline(always)]
fn is_punctuation(sort: Sort) -> bool
    ensures { result ≡ is_punctuation sort }
{
    matches!(
        sort,
        Sort::Comma | Sort::Colon | Sort::Semicolon | Sort::Dot | Sort::Backslash
    )
}

#[inline(always)]
fn operator_joins(previous: Option<Mark>, spaced: bool) -> bool
    ensures { result ≡ operator_joins previous spaced }
{
    match previous {
        None => true,
        Some(previous) => {
            !is_operator_name(previous.keyword) && (spaced || is_punctuation(previous.sort))
        }
    }
}

/// Whether the element joins those around it, by the one before it.
#[inline(always)]
pub fn joins(previous: Option<Mark>, mark: Mark) -> bool
    ensures { result ≡ joins previous mark mark.sort }
{
    match mark.sort {
        Sort::Comma | Sort::Colon | Sort::Dot | Sort::Backslash | Sort::Equals | Sort::Arrow =>
            true,
        Sort::Operator => operator_joins(previous, mark.spaced),
        Sort::Word => is_joining(mark.keyword),
        _ => false,
    }
}
