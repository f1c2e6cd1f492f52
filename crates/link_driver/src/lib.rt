//! Asks plug-in processes one request after another, over the traits by which `swift_base` meets the outside.
//! A caller may rely on `IsDriven` and `HasTable` from ask to ask, on `HasRun` and `IsRunTable` at the end, and on the
//! laws that follow from them.
//! What is asked, and in which order, is left to the caller; what becomes of a reply is too.
#![tactic(auto)]

mod driver;
mod frames;
mod laws;
mod link;
mod messages;
mod pieces;
mod replies;
mod retiring;
mod starting;
mod table;
mod talk;

pub use driver::{Asked, Driver, Ran, ask, finish, is_spent};
pub use laws::{
    each_request_is_asked_once, only_last_keys_fail, processes_serve, starts_are_wanted,
};
pub use link::{Closed, MOST_BYTES, Stop, Unstarted};
pub use table::link_table;

#[cfg(test)]
mod tests;
