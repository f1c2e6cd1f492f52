//! Edits of a text.
//! A caller may rely on `apply` putting each edit's bytes in the place of what it replaces, and keeping all other bytes.
//! Which edits a text has, and whether they can be made, is left to the caller.
#![tactic(auto)]

mod edit;
mod laws;
mod piece;
mod slices;
#[cfg(test)]
mod tests;

pub use edit::Edit;
pub use laws::{bytes_outside_edits_are_kept, edits_are_made, pieces_are_the_text};
pub use piece::{PieceOf, Pieces, apply, edited_text};
