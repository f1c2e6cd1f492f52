// What stands inside strings and their interpolations.

ghost use Rattle.std.specs.Prelude.{◌≡◌, ◌<◌, ◌^◌, None, Some, length, option_map};
ghost use Rattle.std.specs.List.{list_any};
ghost use Rattle.std.specs.Str.{chars};
ghost use Rattle.swift_lexer.specs.Answers.{Answers};
ghost use Rattle.swift_lexer.specs.declared.strings.Open.TheVariants.{InString};
ghost use Rattle.swift_lexer.specs.Strings.{closing, line_end, escaped, escape, in_string, begins_word, is_builtin, token_inside, inside_found, step_in};
ghost use Rattle.swift_lexer.specs.Tokens.{place, string_start, Closes};

use crate::chars::{
    BACKSLASH, LEFT_PARENTHESIS, POUND, QUOTE, RIGHT_PARENTHESIS, Run, is_line_end, is_word_part,
};
use crate::found::{Found, Quotes, at_front};
use crate::refusal::Refusal;
use crate::texts::{after_marks, after_run, begins, behind, first};
use crate::token::{LexFault, LexKind};
use std::alloc::Global;

/// The words behind a `#` that the language has built in, so that none of them names a macro.
pub const BUILTIN_WORDS: [&[u8]; 24] = [
    b"file",
    b"fileID",
    b"filePath",
    b"line",
    b"column",
    b"function",
    b"dsohandle",
    b"selector",
    b"keyPath",
    b"available",
    b"unavailable",
    b"_hasSymbol",
    b"if",
    b"elseif",
    b"else",
    b"endif",
    b"sourceLocation",
    b"warning",
    b"error",
    b"colorLiteral",
    b"imageLiteral",
    b"fileLiteral",
    b"externalMacro",
    b"isolation",
];

/// What is open around a text that is no part of the outermost level.
#[derive(Clone, Copy, PartialEq, Eq, Debug)]
pub enum Open {
    InString(Quotes),
    /// Those of an interpolation, or further ones inside it.
    InParentheses,
}

/// A step inside what is open.
#[derive(Clone, Copy, PartialEq, Eq, Debug)]
pub enum Step {
    Ends,
    GoesOn,
    Opens(Open),
    Fails(LexKind),
}

/// What is open, and where the innermost string begins.
#[derive(Clone, Copy, PartialEq, Eq, Debug)]
struct Level {
    within: Open,
    start: u32,
}

/// Behind the end of a string that begins at `start`, for a text inside it; `total` is the length
/// of the whole text in bytes.
pub fn after_string(
    alloc: Global,
    total: usize,
    quotes: Quotes,
    start: u32,
    inside: &str,
) -> Result<&str, Refusal<LexFault>>
    requires { total < 2 ^ 32 }
    ensures { Answers (λ rest. chars rest.now) result (Closes total (InString quotes) start (chars inside.now)) }
{
    let mut around: Vec<Level> = Vec::new(alloc);
    let mut level = Level {
        within: Open::InString(quotes),
        start,
    };
    let mut rest = inside;
    'steps: loop {
        let Some((step, after)) = step_in(level.within, rest) else {
            let kind = LexKind::OpenString;
            let at = level.start;
            return Err(Refusal::Fault(LexFault { at, kind }));
        };
        match step {
            Step::GoesOn => rest = after,
            Step::Opens(opened) => {
                let inner = Level {
                    within: opened,
                    start: string_start(opened, level.start, place(total, rest)),
                };
                around.push(level)?;
                level = inner;
                rest = after;
            }
            Step::Ends => {
                let Some(outer) = around.pop() else {
                    return Ok(after);
                };
                level = outer;
                rest = after;
            }
            Step::Fails(kind) => {
                let at = place(total, after);
                return Err(Refusal::Fault(LexFault { at, kind }));
            }
        }
    }
}

/// The place at which the last bytes of a text begin.
#[tactic(auto, unfolding(crate::specs::Tokens::place))]
pub fn place(total: usize, rest: &str) -> u32
    requires { total < 2 ^ 32 }
    ensures { result ≡ place total (chars rest.now) }
{
    total.saturating_sub(rest.len()) as u32
}

fn string_start(opened: Open, around: u32, here: u32) -> u32
    ensures { result ≡ string_start opened around here }
{
    match opened {
        Open::InString(_) => here,
        Open::InParentheses => around,
    }
}

#[tactic(auto, unfolding(crate::specs::Strings::step_in))]
fn step_in(opened: Open, text: &str) -> Option<(Step, &str)>
    ensures value { option_map (λ (step, rest). (step, chars rest.now)) result ≡ step_in opened (chars text.now) }
{
    match opened {
        Open::InString(quotes) => in_string(quotes, text),
        Open::InParentheses => {
            let (what, rest) = at_front(text)?;
            Some(inside_found(what, text, rest))
        }
    }
}

fn inside_found<'a>(what: Found, text: &'a str, rest: &'a str) -> (Step, &'a str)
    ensures { (result.0, chars result.1.now) ≡ inside_found what (chars text.now) (chars rest.now) }
{
    match what {
        Found::Trivia => (Step::GoesOn, rest),
        Found::Token(_) => token_inside(text, rest),
        Found::Opens(quotes) => (Step::Opens(Open::InString(quotes)), rest),
        Found::Fails(kind) => (Step::Fails(kind), rest),
    }
}

#[tactic(auto, unfolding(crate::specs::Strings::token_inside))]
fn token_inside<'a>(text: &'a str, rest: &'a str) -> (Step, &'a str)
    ensures { (result.0, chars result.1.now) ≡ token_inside (chars text.now) (chars rest.now) }
{
    if begins(text, LEFT_PARENTHESIS) {
        return (Step::Opens(Open::InParentheses), rest);
    }
    if begins(text, RIGHT_PARENTHESIS) {
        return (Step::Ends, rest);
    }
    if begins(text, POUND) && !is_builtin(behind(text)) {
        return (Step::Fails(LexKind::UseInInterpolation), text);
    }
    (Step::GoesOn, rest)
}

#[tactic(auto, unfolding(crate::specs::Strings::is_builtin))]
fn is_builtin(text: &str) -> bool
    ensures { result ≡ is_builtin (chars text.now) }
{
    begins_one(&BUILTIN_WORDS, text)
}

fn begins_one(words: &[&[u8]], text: &str) -> bool
    ensures { result ≡ list_any (λ word. begins_word word.now (chars text.now)) words.now }
{
    words.iter().any(|word| begins_word(word, text))
}

/// Whether the word stands at the front of the text and ends there.
#[tactic(auto, unfolding(crate::specs::Strings::begins_word))]
fn begins_word(word: &[u8], text: &str) -> bool
    ensures { result ≡ begins_word word.now (chars text.now) }
{
    let mut left = word;
    let mut rest = text;
    'word: while let [w, others @ ..] = left {
        let Some((c, after)) = first(rest) else {
            return false;
        };
        if *w as char != c {
            return false;
        }
        left = others;
        rest = after;
    }
    match first(rest) {
        Some((c, _)) => !is_word_part(c),
        None => true,
    }
}

#[tactic(auto, unfolding(crate::specs::Strings::in_string))]
fn in_string(quotes: Quotes, text: &str) -> Option<(Step, &str)>
    ensures value { option_map (λ (step, rest). (step, chars rest.now)) result ≡ in_string quotes (chars text.now) }
{
    let (c, rest) = first(text)?;
    if c == QUOTE {
        return Some(closing(quotes, text, rest));
    }
    if c == BACKSLASH {
        return escape(quotes, rest);
    }
    if is_line_end(c) {
        return line_end(quotes, rest);
    }
    Some((Step::GoesOn, after_run(rest, Run::Plain)))
}

/// The quotes and pound signs that end the string, or a quote that is a character of it.
#[tactic(auto, unfolding(crate::specs::Strings::closing))]
fn closing<'a>(quotes: Quotes, text: &'a str, rest: &'a str) -> (Step, &'a str)
    ensures { (result.0, chars result.1.now) ≡ closing quotes (chars text.now) (chars rest.now) }
{
    let count = if quotes.triple { 3 } else { 1 };
    let Some(signs) = after_marks(text, QUOTE, count) else {
        return (Step::GoesOn, rest);
    };
    match after_marks(signs, POUND, quotes.pounds) {
        Some(after) => (Step::Ends, after),
        None => (Step::GoesOn, rest),
    }
}

#[tactic(auto, unfolding(crate::specs::Strings::line_end))]
fn line_end(quotes: Quotes, rest: &str) -> Option<(Step, &str)>
    ensures value { option_map (λ (step, rest). (step, chars rest.now)) result ≡ line_end quotes (chars rest.now) }
{
    if quotes.triple {
        Some((Step::GoesOn, rest))
    } else {
        None
    }
}

/// An escape behind its backslash, where the string's pound signs follow.
#[tactic(auto, unfolding(crate::specs::Strings::escape))]
fn escape(quotes: Quotes, rest: &str) -> Option<(Step, &str)>
    ensures value { option_map (λ (step, rest). (step, chars rest.now)) result ≡ escape quotes (chars rest.now) }
{
    match after_marks(rest, POUND, quotes.pounds) {
        Some(text) => escaped(quotes, text),
        None => Some((Step::GoesOn, rest)),
    }
}

fn escaped(quotes: Quotes, text: &str) -> Option<(Step, &str)>
    ensures value { option_map (λ (step, rest). (step, chars rest.now)) result ≡ escaped quotes (chars text.now) }
{
    let (c, rest) = first(text)?;
    if c == LEFT_PARENTHESIS {
        return Some((Step::Opens(Open::InParentheses), rest));
    }
    if is_line_end(c) {
        return line_end(quotes, rest);
    }
    Some((Step::GoesOn, rest))
}
