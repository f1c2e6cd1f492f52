// What is kept of a visit.
ghost use Rattle.std.specs.Prelude.{◌≡◌, IfOk};
ghost use Rattle.expansion_model.specs.Table.{Look};
ghost use Rattle.expansion_model.specs.Visit.{nothing};
ghost use Rattle.expansion_model.specs.Visited.{a_message, a_missing, a_request, an_edit, visited_of, visited_seen, with_more};

use crate::message::Message;
use plugin_messages::Request;
use result_splice::Edit;
use std::alloc::{AllocError, Global};
use unique_names::Role;

/// The role of each request that is asked, the requests that have no outcome, what is said, and what is replaced.
#[derive(Drop)]
pub struct Visited {
    pub asked: Vec<Role>,
    pub missing: Vec<Request>,
    pub messages: Vec<Message>,
    pub edits: Vec<Edit>,
}

/// Nothing was found yet. This takes no memory.
#[tactic(auto, unfolding(crate::specs::Visited::visited_of))]
pub fn nothing_found(alloc: Global) -> Visited
    ensures { (table : Look) → visited_seen result ≡ visited_of table nothing }
{
    Visited {
        asked: Vec::new(alloc),
        missing: Vec::new(alloc),
        messages: Vec::new(alloc),
        edits: Vec::new(alloc),
    }
}

#[tactic(auto, unfolding(crate::specs::Visited::with_more))]
pub fn put_message(visited: &mut Visited, message: Message) -> Result<(), AllocError>
    ensures { IfOk result (λ _. visited_seen visited.new ≡ with_more (visited_seen visited.old) (a_message message)) }
{
    visited.messages.push(message)?;
    Ok(())
}

#[tactic(auto, unfolding(crate::specs::Visited::with_more))]
pub fn put_edit(visited: &mut Visited, edit: Edit) -> Result<(), AllocError>
    ensures { IfOk result (λ _. visited_seen visited.new ≡ with_more (visited_seen visited.old) (an_edit edit)) }
{
    visited.edits.push(edit)?;
    Ok(())
}

/// One request more that has an outcome.
#[tactic(auto, unfolding(crate::specs::Visited::with_more))]
pub fn put_asked(visited: &mut Visited, role: Role) -> Result<(), AllocError>
    ensures { IfOk result (λ _. visited_seen visited.new ≡ with_more (visited_seen visited.old) (a_request role)) }
{
    visited.asked.push(role)?;
    Ok(())
}

/// One request more that has no outcome.
#[tactic(auto, unfolding(crate::specs::Visited::with_more))]
pub fn put_missing(visited: &mut Visited, request: Request) -> Result<(), AllocError>
    ensures { IfOk result (λ _. visited_seen visited.new ≡ with_more (visited_seen visited.old) (a_missing request)) }
{
    visited.asked.push(request.role)?;
    visited.missing.push(request)?;
    Ok(())
}
