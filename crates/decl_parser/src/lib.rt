// Reads Swift declarations into outlines.
// A caller may rely on each `parse_*` answering the one outcome that `IsOutline` gives, want of memory aside.
// What the declarations mean is left to the crates above.
#![tactic(auto)]

mod attributes;
mod bindings;
mod fault;
mod found;
mod fragments;
mod front;
mod gathering;
mod inside;
mod items;
mod laws;
mod levels;
mod lists;
mod parse;
mod parts;
mod pattern;
mod place;
mod plain;
mod quiet;

pub use fault::{ParseFault, ParseKind};
pub use laws::{
    accepted_texts_tile, one_outline, outline_keeps_the_text, some_outline, spans_in_order,
};
pub use parse::{
    LONGEST_SOURCE, elements_of, parse_accessors, parse_attributes, parse_expression, parse_file,
    parse_items,
};

#[cfg(test)]
mod tests;
