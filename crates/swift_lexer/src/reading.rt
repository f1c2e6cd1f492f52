// A text into its bracket groups, with no list of its tokens.

ghost use Rattle.std.specs.Prelude.{◌≡◌, ◌<◌, ◌≤◌, ◌^◌, IfSome, length};
ghost use Rattle.std.specs.Str.{chars};
ghost use Rattle.swift_lexer.specs.Openings.{Takes};
ghost use Rattle.swift_lexer.specs.Reads.{ReadsAs, ReadsFrom};
ghost use Rattle.swift_lexer.specs.Trees.{forest_of};

use crate::chars::Run;
use crate::element::Element;
use crate::found::{Found, at_front};
use crate::grouping::{Grouping, finish, nothing_open, take};
use crate::lexing::{LONGEST_TEXT, after_mark, token_between};
use crate::strings::{after_string, place};
use crate::texts::after_run;
use crate::token::Class;
use std::alloc::Global;
use std::str;

/// The bracket groups of a text, read at once; `lex` and `group` give the same from one list of its tokens. None where
/// the text has a fault, which these two tell, or memory is wanting.
pub fn read_elements(alloc: Global, text: &[u8]) -> Option<Vec<Element>>
    requires { length text.now ≤ LONGEST_TEXT }
    ensures { IfSome result (λ elements. ReadsAs text.now (forest_of elements.items)) }
{
    let Ok(utf8) = str::from_utf8(text) else {
        return None;
    };
    read_from(alloc, text, text.len(), after_mark(utf8))
}

fn read_from(alloc: Global, bytes: &[u8], total: usize, text: &str) -> Option<Vec<Element>>
    requires { total < 2 ^ 32 }
    ensures { IfSome result (λ elements. ReadsFrom bytes.now total (chars text.now) (forest_of elements.items)) }
{
    let mut grouping = nothing_open(alloc);
    let mut rest = text;
    let mut trivia = 0;
    'tokens: while let Some((what, after)) = at_front(rest) {
        match what {
            Found::Trivia => rest = after,
            Found::Token(class) => {
                let token = token_between(total, trivia, class, rest, after);
                let Ok(()) = take(alloc, &mut grouping, token, bytes) else {
                    return None;
                };
                rest = after_run(after, Run::Blank);
                trivia = token.end;
            }
            Found::Opens(quotes) => {
                let start = place(total, rest);
                let Ok(behind) = after_string(alloc, total, quotes, start, after) else {
                    return None;
                };
                let token = token_between(total, trivia, Class::Str, rest, behind);
                let Ok(()) = take(alloc, &mut grouping, token, bytes) else {
                    return None;
                };
                rest = after_run(behind, Run::Blank);
                trivia = token.end;
            }
            Found::Fails(_) => return None,
        }
    }
    match finish(grouping) {
        Ok(elements) => Some(elements),
        Err(_) => None,
    }
}
