// Reads a Swift text into tokens, and tokens into bracket groups.
// A caller may rely on `lex` and `group` answering the one outcome that `IsLexed` and `IsGrouped` give, want of memory
// aside, and on the laws of these definitions.
// What the tokens and groups mean is left to the crates above.
#![tactic(auto)]

mod bytes;
mod chars;
mod element;
mod found;
mod grouping;
mod laws;
mod lexing;
mod reading;
mod refusal;
mod strings;
mod texts;
mod token;

pub use element::{DEEPEST, Element, Group, GroupFault, GroupKind};
pub use grouping::group;
pub use laws::{
    accepted_texts_are_utf8, groups_hold_the_tokens, one_group_outcome, one_token_outcome,
    some_token_outcome, token_bytes, tokens_are_of_characters, tokens_tile,
};
pub use lexing::{LONGEST_TEXT, lex};
pub use reading::read_elements;
pub use refusal::Refusal;
pub use strings::BUILTIN_WORDS;
pub use token::{Class, LexFault, LexKind, Token};

#[cfg(test)]
mod tests;
