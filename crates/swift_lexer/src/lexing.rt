// A text into its tokens.

ghost use Rattle.std.specs.Prelude.{◌≡◌, ◌<◌, ◌≤◌, ◌^◌, length};
ghost use Rattle.std.specs.Str.{chars};
ghost use Rattle.swift_lexer.specs.Answers.{Answers};
ghost use Rattle.swift_lexer.specs.Tokens.{after_mark, token_between, IsLexed, IsLexedFrom};

use crate::chars::BYTE_ORDER_MARK;
use crate::found::{Found, at_front};
use crate::refusal::Refusal;
use crate::strings::{after_string, place};
use crate::texts::{begins, behind};
use crate::token::{Class, LexFault, LexKind, Token};
use std::alloc::Global;
use std::str;

/// The length of the longest text that is read, in bytes.
pub const LONGEST_TEXT: usize = 16_777_216;

/// The tokens of a text, or its first fault.
pub fn lex(alloc: Global, text: &[u8]) -> Result<Vec<Token>, Refusal<LexFault>>
    requires { length text.now ≤ LONGEST_TEXT }
    ensures { Answers (λ tokens. tokens.items) result (IsLexed text.now) }
{
    match str::from_utf8(text) {
        Ok(utf8) => lex_from(alloc, text.len(), after_mark(utf8)),
        Err(error) => {
            let at = error.valid_up_to() as u32;
            let kind = LexKind::NotUtf8;
            Err(Refusal::Fault(LexFault { at, kind }))
        }
    }
}

/// Behind a byte order mark at the very beginning.
pub fn after_mark(text: &str) -> &str
    ensures { chars result.now ≡ after_mark (chars text.now) }
{
    if begins(text, BYTE_ORDER_MARK) {
        behind(text)
    } else {
        text
    }
}

fn lex_from(alloc: Global, total: usize, text: &str) -> Result<Vec<Token>, Refusal<LexFault>>
    requires { total < 2 ^ 32 }
    ensures { Answers (λ tokens. tokens.items) result (IsLexedFrom total 0 (chars text.now)) }
{
    let mut tokens = Vec::new(alloc);
    let mut rest = text;
    let mut trivia = 0;
    'tokens: while let Some((what, after)) = at_front(rest) {
        match what {
            Found::Trivia => rest = after,
            Found::Token(class) => {
                let token = token_between(total, trivia, class, rest, after);
                tokens.push(token)?;
                rest = after;
                trivia = token.end;
            }
            Found::Opens(quotes) => {
                let behind = after_string(alloc, total, quotes, place(total, rest), after)?;
                let token = token_between(total, trivia, Class::Str, rest, behind);
                tokens.push(token)?;
                rest = behind;
                trivia = token.end;
            }
            Found::Fails(kind) => {
                let at = place(total, after);
                return Err(Refusal::Fault(LexFault { at, kind }));
            }
        }
    }
    Ok(tokens)
}

#[inline(always)]
pub fn token_between(total: usize, trivia: u32, class: Class, text: &str, rest: &str) -> Token
    requires { total < 2 ^ 32 }
    ensures { result ≡ token_between total trivia class (chars text.now) (chars rest.now) }
{
    let start = place(total, text);
    let end = place(total, rest);
    Token {
        class,
        start,
        end,
        trivia,
    }
}
