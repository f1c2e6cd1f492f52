// Characters at the front of a text, and what stands behind them.

ghost use Rattle.std.specs.Prelude.{◌≡◌, ◌∷◌, [], ◌<◌, ◌≤◌, ◌+◌, ◌^◌, ⊤, None, MatchOption, length, option_map, ◌==◌};
ghost use Rattle.std.specs.Str.{chars};
ghost use Rattle.swift_lexer.specs.Chars.{goes_on, operator_part};
ghost use Rattle.swift_lexer.specs.declared.chars.TheConstants.{POUND};
ghost use Rattle.swift_lexer.specs.Texts.{begins, behind, after_run, begins_comment, after_operator, after_marks, pounds, ends_comment, opens_comment, after_comment};

use crate::chars::{POUND, Run, SLASH, STAR, goes_on, is_operator_part};

/// The first character and what stands behind it.
pub fn first(text: &str) -> Option<(char, &str)>
    ensures split { MatchOption result (chars text.now ≡ []) (λ (c, rest). chars text.now ≡ c ∷ chars rest.now) }
    ensures shorter { MatchOption result (length text.now ≡ 0) (λ (c, rest). length rest.now < length text.now) }
{
    let mut chars = text.chars();
    let c = chars.next()?;
    Some((c, chars.as_str()))
}

pub fn begins(text: &str, mark: char) -> bool
    ensures { result ≡ begins mark (chars text.now) }
{
    match first(text) {
        Some((c, _)) => c == mark,
        None => false,
    }
}

/// Behind the first character.
pub fn behind(text: &str) -> &str
    ensures { chars result.now ≡ behind (chars text.now) }
{
    match first(text) {
        Some((_, rest)) => rest,
        None => text,
    }
}

/// Behind the longest run.
#[inline(always)]
pub fn after_run(text: &str, run: Run) -> &str
    ensures { chars result.now ≡ after_run (goes_on run) (chars text.now) }
{
    let mut rest = text;
    'run: while let Some((c, after)) = first(rest) {
        if !goes_on(run, c) {
            return rest;
        }
        rest = after;
    }
    rest
}

/// Behind the longest run of operator characters, where `dots` also of dots, with which no comment begins.
pub fn after_operator(text: &str, dots: bool) -> &str
    ensures { chars result.now ≡ after_operator (operator_part dots) (chars text.now) }
{
    let mut rest = text;
    'run: while let Some((c, after)) = first(rest) {
        if !is_operator_part(dots, c) || begins_comment(rest) {
            return rest;
        }
        rest = after;
    }
    rest
}

fn begins_comment(text: &str) -> bool
    ensures { result ≡ begins_comment (chars text.now) }
{
    if !begins(text, SLASH) {
        return false;
    }
    let rest = behind(text);
    begins(rest, SLASH) || begins(rest, STAR)
}

/// Behind `count` times the mark, where the text begins so.
pub fn after_marks(text: &str, mark: char, count: usize) -> Option<&str>
    ensures { option_map (λ rest. chars rest.now) result ≡ after_marks mark count (chars text.now) }
{
    let mut rest = text;
    let mut left = count;
    'marks: while left > 0 {
        let (c, after) = first(rest)?;
        if c != mark {
            return None;
        }
        rest = after;
        left -= 1;
    }
    Some(rest)
}

/// How many pound signs begin the text, and what stands behind them.
pub fn pounds(text: &str) -> (usize, &str)
    ensures count { result.0 ≡ pounds (chars text.now) }
    ensures rest { chars result.1.now ≡ after_run (λ c. c == POUND) (chars text.now) }
{
    let mut rest = text;
    let mut count = 0usize;
    'pounds: while let Some((c, after)) = first(rest) {
        if c != POUND {
            return (count, rest);
        }
        rest = after;
        count += 1;
    }
    (count, rest)
}

/// Behind the end of a comment, for a text inside it. Comments nest.
pub fn after_comment(text: &str) -> Option<&str>
    ensures { option_map (λ rest. chars rest.now) result ≡ after_comment 1 (chars text.now) }
{
    let mut rest = text;
    let mut depth = 1usize;
    'comment: while depth > 0 {
        let (inner, after) = comment_step(depth, rest)?;
        depth = inner;
        rest = after;
    }
    Some(rest)
}

/// A step inside so many comments: inside how many it leads, and what stands behind it.
fn comment_step(depth: usize, text: &str) -> Option<(usize, &str)>
    requires inside { 0 < depth }
    requires fits { depth + length text.now ≤ 2 ^ 64 }
    ensures value { MatchOption result (after_comment depth (chars text.now) ≡ None) (λ (inner, rest). after_comment depth (chars text.now) ≡ after_comment inner (chars rest.now)) }
    ensures bound { MatchOption result ⊤ (λ (inner, rest). inner + length rest.now ≤ depth + length text.now) }
    ensures shorter { MatchOption result ⊤ (λ (inner, rest). length rest.now < length text.now) }
{
    let (c, after) = first(text)?;
    let (d, behind) = first(after)?;
    if ends_comment(c, d) {
        return Some((depth - 1, behind));
    }
    if opens_comment(c, d) {
        return Some((depth + 1, behind));
    }
    Some((depth, after))
}

#[tactic(auto, unfolding(crate::specs::Texts::ends_comment))]
fn ends_comment(c: char, d: char) -> bool
    ensures { result ≡ ends_comment c d }
{
    c == STAR && d == SLASH
}

#[tactic(auto, unfolding(crate::specs::Texts::opens_comment))]
fn opens_comment(c: char, d: char) -> bool
    ensures { result ≡ opens_comment c d }
{
    c == SLASH && d == STAR
}
