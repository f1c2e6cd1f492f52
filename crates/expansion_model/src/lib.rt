//! What expansion means: where a source asks plug-ins, what is asked there, and what its replies make of it.
//! A caller may rely on `expand_with` answering what the definitions give for a source and a table of outcomes: the
//! requests that have none yet, or the file, the messages or the limit.
//! Who asks the plug-ins, and in which order, is left to the crates above.
#![tactic(auto)]

mod answer;
mod attributes;
mod buffer;
mod expanding;
mod laws;
mod macros;
mod message;
mod place;
mod recursion;
mod request;
mod site;
mod slices;
mod table;
mod uses;
mod visited;
mod visiting;
mod visits;

pub use answer::{Answer, LimitKind, MOST_REQUESTS};
pub use buffer::{Ancestor, Buffer};
pub use expanding::{Step, expand_with};
pub use laws::{
    answers_by_asked_alone, asked_by_rules, asked_requests_grow, asks_are_readable,
    edits_replace_sites, requests_are_writable, sites_lie_apart, visits_repeat,
    words_are_not_unique,
};
pub use macros::plugin_for;
pub use message::{Message, MessageText};
pub use place::{FIRST_PLACE, Place, place_from};
pub use recursion::buffer_sites;
pub use request::request_of;
pub use site::{Ask, Site, SiteFault, SiteKind, UseKind};
pub use table::Table;

#[cfg(test)]
mod tests;
