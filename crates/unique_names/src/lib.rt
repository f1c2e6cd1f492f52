//! Keys of expansion requests, and the discriminators by which names that a macro makes are told apart.
//! A caller may rely on `discriminator`: the text of the definition, and by `discriminators_are_prefix_free` no text of one key begins another's.
//! `UniqueNames` makes the names of one request, and by `unique_names_tell_keys` no name is one of two requests.
//! Which keys a source has is left to the expansion model.
#![tactic(auto)]

mod key;
mod naming;
mod role;
mod step;
#[cfg(test)]
mod tests;
mod unique;

pub use key::{Key, equal_keys_are_one};
pub use naming::{discriminator, discriminators_are_prefix_free, discriminators_are_utf8};
pub use role::{ROLES, Role, roles_are_spelled, texts_tell_roles};
pub use step::KeyStep;
pub use unique::{
    UniqueNames, is_unique, made_names_are_unique, unique_names_are_decided, unique_names_tell_keys,
};
