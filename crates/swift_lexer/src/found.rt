// What stands at the front of a text outside strings.

ghost use Rattle.std.specs.Prelude.{◌≡◌, ◌<◌, ◌≤◌, ◌+◌, ◌==◌, ⊤, None, Some, MatchOption, length, option_map};
ghost use Rattle.std.specs.Str.{chars};
ghost use Rattle.std.specs.Char.{is_ascii_digit};
ghost use Rattle.swift_lexer.specs.declared.chars.TheConstants.{POUND};
ghost use Rattle.swift_lexer.specs.Chars.{is_name_start, is_quoted_part};
ghost use Rattle.swift_lexer.specs.Texts.{starts, after_run, pounds};
ghost use Rattle.swift_lexer.specs.Fronts.{after_fraction, opening, slash, quoted, pound, dot, by_front, at_front};

use crate::chars::{
    BACKQUOTE, DOT, Front, QUOTE, Run, SLASH, STAR, front_of, is_name_start, is_quoted_part,
};
use crate::texts::{
    after_comment, after_marks, after_operator, after_run, begins, behind, first, pounds,
};
use crate::token::{Class, LexKind};

/// The quotes of a string: three or one, and how many `#` stand before and behind them.
#[derive(Clone, Copy, PartialEq, Eq, Debug)]
pub struct Quotes {
    pub pounds: usize,
    pub triple: bool,
}

/// What stands at the front of a text.
#[derive(Clone, Copy, PartialEq, Eq, Debug)]
pub enum Found {
    Trivia,
    Token(Class),
    /// A string, of which only the quotes are read.
    Opens(Quotes),
    Fails(LexKind),
}

/// What stands at the front of the text, and what stands behind it; for a fault, where it stands.
#[inline(always)]
#[tactic(auto, unfolding(crate::specs::Fronts::at_front))]
pub fn at_front(text: &str) -> Option<(Found, &str)>
    ensures { option_map (λ (what, rest). (what, chars rest.now)) result ≡ at_front (chars text.now) }
{
    let (c, rest) = first(text)?;
    Some(by_front(front_of(c), text, rest))
}

#[inline(always)]
fn by_front<'a>(front: Front, text: &'a str, rest: &'a str) -> (Found, &'a str)
    ensures { (result.0, chars result.1.now) ≡ by_front front (chars text.now) (chars rest.now) }
{
    match front {
        Front::Word => (Found::Token(Class::Word), after_run(rest, Run::WordPart)),
        Front::Blank => (Found::Trivia, after_run(rest, Run::Blank)),
        Front::Digit => (
            Found::Token(Class::Number),
            after_fraction(after_run(rest, Run::NumberPart)),
        ),
        Front::Mark => (Found::Token(Class::Punct), rest),
        Front::Dot => dot(rest),
        Front::Left => (Found::Token(Class::LeftBracket), rest),
        Front::Right => (Found::Token(Class::RightBracket), rest),
        Front::Slash => slash(text, rest),
        Front::Quote => opening(0, rest),
        Front::Pound => {
            let (count, after) = pounds(text);
            pound(text, count, after)
        }
        Front::At => (Found::Token(Class::At), rest),
        Front::Backquote => quoted(text, rest),
        Front::Operator => (Found::Token(Class::Oper), after_operator(rest, false)),
        Front::Other => (Found::Fails(LexKind::BadCharacter), text),
    }
}

/// Behind the whole part of a number: behind its fraction, where one follows.
#[tactic(auto, unfolding(crate::specs::Fronts::after_fraction))]
fn after_fraction(text: &str) -> &str
    ensures { chars result.now ≡ after_fraction (chars text.now) }
{
    if !begins(text, DOT) {
        return text;
    }
    let fraction = behind(text);
    if !starts_with_digit(fraction) {
        return text;
    }
    after_run(fraction, Run::NumberPart)
}

fn starts_with_digit(text: &str) -> bool
    ensures { result ≡ starts is_ascii_digit (chars text.now) }
{
    match first(text) {
        Some((c, _)) => c.is_ascii_digit(),
        None => false,
    }
}

fn starts_with_name(text: &str) -> bool
    ensures { result ≡ starts is_name_start (chars text.now) }
{
    match first(text) {
        Some((c, _)) => is_name_start(c),
        None => false,
    }
}

fn starts_with_quoted_part(text: &str) -> bool
    ensures { result ≡ starts is_quoted_part (chars text.now) }
{
    match first(text) {
        Some((c, _)) => is_quoted_part(c),
        None => false,
    }
}

#[tactic(auto, unfolding(crate::specs::Fronts::dot))]
fn dot(rest: &str) -> (Found, &str)
    ensures { (result.0, chars result.1.now) ≡ dot (chars rest.now) }
{
    if begins(rest, DOT) {
        (Found::Token(Class::Oper), after_operator(rest, true))
    } else {
        (Found::Token(Class::Punct), rest)
    }
}

/// A comment or an operator, behind a `/`.
#[inline(never)]
#[tactic(auto, unfolding(crate::specs::Fronts::slash))]
fn slash<'a>(text: &'a str, rest: &'a str) -> (Found, &'a str)
    ensures { (result.0, chars result.1.now) ≡ slash (chars text.now) (chars rest.now) }
{
    if begins(rest, SLASH) {
        return (Found::Trivia, after_run(behind(rest), Run::Line));
    }
    if begins(rest, STAR) {
        return match after_comment(behind(rest)) {
            Some(after) => (Found::Trivia, after),
            None => (Found::Fails(LexKind::OpenComment), text),
        };
    }
    (Found::Token(Class::Oper), after_operator(rest, false))
}

/// A string whose first quote, behind so many `#`, stands before the text.
#[inline(never)]
#[tactic(auto, unfolding(crate::specs::Fronts::opening))]
fn opening(pounds: usize, text: &str) -> (Found, &str)
    ensures { (result.0, chars result.1.now) ≡ opening pounds (chars text.now) }
{
    match after_marks(text, QUOTE, 2) {
        Some(inside) => (
            Found::Opens(Quotes {
                pounds,
                triple: true,
            }),
            inside,
        ),
        None => (
            Found::Opens(Quotes {
                pounds,
                triple: false,
            }),
            text,
        ),
    }
}

/// A name between backquotes, behind the first one.
#[inline(never)]
#[tactic(auto, unfolding(crate::specs::Fronts::quoted))]
fn quoted<'a>(text: &'a str, rest: &'a str) -> (Found, &'a str)
    ensures { (result.0, chars result.1.now) ≡ quoted (chars text.now) (chars rest.now) }
{
    let end = after_run(rest, Run::QuotedPart);
    if starts_with_quoted_part(rest) && begins(end, BACKQUOTE) {
        (Found::Token(Class::Quoted), behind(end))
    } else {
        (Found::Fails(LexKind::BadCharacter), text)
    }
}

/// What begins with so many `#`, behind them.
#[inline(never)]
#[tactic(auto, unfolding(crate::specs::Fronts::pound))]
fn pound<'a>(text: &'a str, count: usize, rest: &'a str) -> (Found, &'a str)
    ensures { (result.0, chars result.1.now) ≡ pound (chars text.now) count (chars rest.now) }
{
    if begins(rest, QUOTE) {
        return opening(count, behind(rest));
    }
    if begins(rest, SLASH) {
        return (Found::Fails(LexKind::ExtendedRegex), text);
    }
    if count == 1 && starts_with_name(rest) {
        return (
            Found::Token(Class::Pound),
            after_run(behind(rest), Run::WordPart),
        );
    }
    (Found::Fails(LexKind::BadCharacter), text)
}
