// The elements of a text on each level of its brackets: what each is by its own text and by its neighbours, and how
// many elements a declaration, an attribute, a macro use, a binding, an accessor and an inherited type are.
// A caller may rely on each call answering what its definition gives for the marks of the elements.
// Declarations and their parts, and what stands inside brackets, are left to `decl_parser`.
#![tactic(auto)]

mod accessors;
mod blocks;
mod front;
mod heads;
mod inherits;
mod level;
mod mark;
mod marks;
mod quiet;
mod runs;
mod sorts;
mod spans;
mod uses;
mod words;

pub use accessors::{accessor_words, lists_accessors, observes};
pub use blocks::Blocks;
pub use front::front_marks;
pub use heads::{
    attribute_length, behind, dots_length, first_angles, first_braces, first_colon,
    first_parentheses,
};
pub use inherits::{Stop, inherited, length_before};
pub use level::{begins_alone, begins_nothing, marks_in};
pub use mark::{Mark, Sort};
pub use marks::{joins, mark_of, part};
pub use quiet::{is_blank, is_quiet, may_list_accessors, name_at, sort_of};
pub use runs::{before_braces, before_equals, binding_length, item_length};
pub use sorts::{
    is_at, is_braces, is_builtin_pound, is_colon, is_comma, is_dot, is_equals, is_name,
    is_operator, is_parentheses, is_pattern, is_pound, is_quoted, is_semicolon, is_use, is_word,
};
pub use spans::{behind_first, between, name_of, span_of, whole};
pub use uses::use_length;
pub use words::{Keyword, RESERVED, Starter, is_reserved, is_underscore};

#[cfg(test)]
mod tests;
