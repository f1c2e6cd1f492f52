// The tables of characters, and with what a text may go on by its first character.

ghost use Rattle.std.specs.Prelude.{◌≡◌};
ghost use Rattle.swift_lexer.specs.Bytes.{is_left_bracket, is_right_bracket};
ghost use Rattle.swift_lexer.specs.Chars.{
  is_blank,
  is_line_end,
  is_mark,
  is_word_start,
  is_word_part,
  is_name_start,
  is_number_part,
  is_in_ranges,
  is_wide_operator,
  is_operator,
  operator_part,
  is_quoted_part,
  is_plain,
  goes_on,
  front_of,
};

use crate::bytes::BRACKETS;
use unicode_ident::{is_xid_continue, is_xid_start};

pub const BLANKS: [char; 6] = [' ', '\n', '\t', '\r', '\u{b}', '\u{c}'];

pub const LINE_ENDS: [char; 2] = ['\n', '\r'];

/// The marks that are tokens by themselves; a dot is one only before no other.
pub const MARKS: [char; 4] = [',', ':', ';', '\\'];

/// The operator characters of ASCII.
pub const OPERATORS: [char; 14] = [
    '/', '=', '-', '+', '!', '*', '%', '<', '>', '&', '|', '^', '~', '?',
];

/// The operator characters past ASCII: the first and the last of each range. What may stand in a
/// word is none of them.
pub const OPERATOR_RANGES: [(char, char); 22] = [
    ('\u{a1}', '\u{a7}'),
    ('\u{a9}', '\u{a9}'),
    ('\u{ab}', '\u{ac}'),
    ('\u{ae}', '\u{ae}'),
    ('\u{b0}', '\u{b1}'),
    ('\u{b6}', '\u{b6}'),
    ('\u{bb}', '\u{bb}'),
    ('\u{bf}', '\u{bf}'),
    ('\u{d7}', '\u{d7}'),
    ('\u{f7}', '\u{f7}'),
    ('\u{2016}', '\u{2017}'),
    ('\u{2020}', '\u{2027}'),
    ('\u{2030}', '\u{203e}'),
    ('\u{2041}', '\u{2053}'),
    ('\u{2055}', '\u{205e}'),
    ('\u{2190}', '\u{23ff}'),
    ('\u{2500}', '\u{2775}'),
    ('\u{2794}', '\u{2bff}'),
    ('\u{2e00}', '\u{2e7f}'),
    ('\u{3001}', '\u{3003}'),
    ('\u{3008}', '\u{3020}'),
    ('\u{3030}', '\u{3030}'),
];

pub const UNDERSCORE: char = '_';

pub const DOLLAR: char = '$';

pub const QUOTE: char = '"';

pub const BACKQUOTE: char = '`';

pub const BACKSLASH: char = '\\';

pub const POUND: char = '#';

pub const AT: char = '@';

pub const DOT: char = '.';

pub const SLASH: char = '/';

pub const STAR: char = '*';

pub const LEFT_PARENTHESIS: char = '(';

pub const RIGHT_PARENTHESIS: char = ')';

pub const BYTE_ORDER_MARK: char = '\u{feff}';

/// With what a text outside strings may go on, by its first character.
#[derive(Clone, Copy, PartialEq, Eq, Debug)]
pub enum Front {
    Word,
    Blank,
    Digit,
    Mark,
    Dot,
    Left,
    Right,
    Slash,
    Quote,
    Pound,
    At,
    Backquote,
    Operator,
    Other,
}

/// With what a text may go on that begins with the character, for those of ASCII.
const FRONTS: [Front; 128] = [
    Front::Other,
    Front::Other,
    Front::Other,
    Front::Other,
    Front::Other,
    Front::Other,
    Front::Other,
    Front::Other,
    Front::Other,
    Front::Blank,
    Front::Blank,
    Front::Blank,
    Front::Blank,
    Front::Blank,
    Front::Other,
    Front::Other,
    Front::Other,
    Front::Other,
    Front::Other,
    Front::Other,
    Front::Other,
    Front::Other,
    Front::Other,
    Front::Other,
    Front::Other,
    Front::Other,
    Front::Other,
    Front::Other,
    Front::Other,
    Front::Other,
    Front::Other,
    Front::Other,
    Front::Blank,
    Front::Operator,
    Front::Quote,
    Front::Pound,
    Front::Word,
    Front::Operator,
    Front::Operator,
    Front::Other,
    Front::Left,
    Front::Right,
    Front::Operator,
    Front::Operator,
    Front::Mark,
    Front::Operator,
    Front::Dot,
    Front::Slash,
    Front::Digit,
    Front::Digit,
    Front::Digit,
    Front::Digit,
    Front::Digit,
    Front::Digit,
    Front::Digit,
    Front::Digit,
    Front::Digit,
    Front::Digit,
    Front::Mark,
    Front::Mark,
    Front::Operator,
    Front::Operator,
    Front::Operator,
    Front::Operator,
    Front::At,
    Front::Word,
    Front::Word,
    Front::Word,
    Front::Word,
    Front::Word,
    Front::Word,
    Front::Word,
    Front::Word,
    Front::Word,
    Front::Word,
    Front::Word,
    Front::Word,
    Front::Word,
    Front::Word,
    Front::Word,
    Front::Word,
    Front::Word,
    Front::Word,
    Front::Word,
    Front::Word,
    Front::Word,
    Front::Word,
    Front::Word,
    Front::Word,
    Front::Word,
    Front::Word,
    Front::Left,
    Front::Mark,
    Front::Right,
    Front::Operator,
    Front::Word,
    Front::Backquote,
    Front::Word,
    Front::Word,
    Front::Word,
    Front::Word,
    Front::Word,
    Front::Word,
    Front::Word,
    Front::Word,
    Front::Word,
    Front::Word,
    Front::Word,
    Front::Word,
    Front::Word,
    Front::Word,
    Front::Word,
    Front::Word,
    Front::Word,
    Front::Word,
    Front::Word,
    Front::Word,
    Front::Word,
    Front::Word,
    Front::Word,
    Front::Word,
    Front::Word,
    Front::Word,
    Front::Left,
    Front::Operator,
    Front::Right,
    Front::Operator,
    Front::Other,
];

/// The runs of characters in trivia and tokens.
#[derive(Clone, Copy, PartialEq, Eq, Debug)]
pub enum Run {
    Blank,
    Line,
    WordPart,
    NumberPart,
    QuotedPart,
    Plain,
}

pub fn is_blank(c: char) -> bool
    ensures { result ≡ is_blank c }
{
    BLANKS.contains(&c)
}

pub fn is_line_end(c: char) -> bool
    ensures { result ≡ is_line_end c }
{
    LINE_ENDS.contains(&c)
}

fn is_mark(c: char) -> bool
    ensures { result ≡ is_mark c }
{
    MARKS.contains(&c)
}

#[tactic(auto, unfolding(crate::specs::Chars::is_word_start))]
fn is_word_start(c: char) -> bool
    ensures { result ≡ is_word_start c }
{
    is_xid_start(c) || c == UNDERSCORE || c == DOLLAR
}

/// Of ASCII the same as in a number.
#[inline(always)]
#[tactic(auto, unfolding(crate::specs::Chars::is_word_part))]
pub fn is_word_part(c: char) -> bool
    ensures { result ≡ is_word_part c }
{
    if c < '\u{80}' {
        return is_number_part(c);
    }
    is_xid_continue(c)
}

/// With which the word behind a `#` begins.
#[tactic(auto, unfolding(crate::specs::Chars::is_name_start))]
pub fn is_name_start(c: char) -> bool
    ensures { result ≡ is_name_start c }
{
    is_word_start(c) && c != DOLLAR
}

#[inline(always)]
#[tactic(auto, unfolding(crate::specs::Chars::is_number_part))]
fn is_number_part(c: char) -> bool
    ensures { result ≡ is_number_part c }
{
    c.is_ascii_alphanumeric() || c == UNDERSCORE
}

#[tactic(auto, unfolding(crate::specs::Chars::is_wide_operator))]
fn is_wide_operator(c: char) -> bool
    ensures { result ≡ is_wide_operator c }
{
    c >= '\u{80}' && !is_xid_continue(c) && is_in_ranges(c)
}

fn is_in_ranges(c: char) -> bool
    ensures { result ≡ is_in_ranges c }
{
    OPERATOR_RANGES
        .iter()
        .any(|range| range.0 <= c && c <= range.1)
}

#[tactic(auto, unfolding(crate::specs::Chars::is_operator))]
fn is_operator(c: char) -> bool
    ensures { result ≡ is_operator c }
{
    OPERATORS.contains(&c) || is_wide_operator(c)
}

/// In an operator, where `dots` one that begins with two dots.
#[tactic(auto, unfolding(crate::specs::Chars::operator_part))]
pub fn is_operator_part(dots: bool, c: char) -> bool
    ensures { result ≡ operator_part dots c }
{
    (dots && c == DOT) || is_operator(c)
}

/// Between backquotes.
#[tactic(auto, unfolding(crate::specs::Chars::is_quoted_part))]
pub fn is_quoted_part(c: char) -> bool
    ensures { result ≡ is_quoted_part c }
{
    c != BACKQUOTE && !is_line_end(c)
}

/// Inside a string, without a meaning of its own.
#[tactic(auto, unfolding(crate::specs::Chars::is_plain))]
fn is_plain(c: char) -> bool
    ensures { result ≡ is_plain c }
{
    c != QUOTE && c != BACKSLASH && !is_line_end(c)
}

fn is_left_bracket(c: char) -> bool
    ensures { result ≡ is_left_bracket c }
{
    BRACKETS.iter().any(|pair| pair.0 as char == c)
}

fn is_right_bracket(c: char) -> bool
    ensures { result ≡ is_right_bracket c }
{
    BRACKETS.iter().any(|pair| pair.1 as char == c)
}

/// Whether the run goes on with the character.
#[inline(always)]
pub fn goes_on(run: Run, c: char) -> bool
    ensures { result ≡ goes_on run c }
{
    match run {
        Run::Blank => is_blank(c),
        Run::Line => !is_line_end(c),
        Run::WordPart => is_word_part(c),
        Run::NumberPart => is_number_part(c),
        Run::QuotedPart => is_quoted_part(c),
        Run::Plain => is_plain(c),
    }
}

/// With what a text outside strings may go on.
pub fn front_of(c: char) -> Front
    ensures { result ≡ front_of c }
{
    match FRONTS.get(c as usize) {
        Some(front) => *front,
        None => any_front(c),
    }
}

/// The same of any character, by the tables of each kind.
#[tactic(auto, unfolding(crate::specs::Chars::front_of))]
fn any_front(c: char) -> Front
    ensures { result ≡ front_of c }
{
    if is_word_start(c) {
        Front::Word
    } else if is_blank(c) {
        Front::Blank
    } else if c.is_ascii_digit() {
        Front::Digit
    } else if is_mark(c) {
        Front::Mark
    } else if c == DOT {
        Front::Dot
    } else if is_left_bracket(c) {
        Front::Left
    } else if is_right_bracket(c) {
        Front::Right
    } else if c == SLASH {
        Front::Slash
    } else if c == QUOTE {
        Front::Quote
    } else if c == POUND {
        Front::Pound
    } else if c == AT {
        Front::At
    } else if c == BACKQUOTE {
        Front::Backquote
    } else if is_operator(c) {
        Front::Operator
    } else {
        Front::Other
    }
}
