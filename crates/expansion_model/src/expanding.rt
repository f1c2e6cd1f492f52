// The step of a source: what is still to be asked, or the answer.
ghost use Rattle.std.specs.Prelude.{◌≡◌, ◌<◌, ◌^◌, IfOk, length};
ghost use Rattle.std.specs.List.{All};
ghost use Rattle.macro_decls.specs.Macros.{IsDeclReadable};
ghost use Rattle.expansion_model.specs.Answer.{by_messages};
ghost use Rattle.expansion_model.specs.Buffers.{IsSound, buffer_seen};
ghost use Rattle.expansion_model.specs.Steps.{IsStep, step_by, step_of, step_seen};
ghost use Rattle.expansion_model.specs.Table.{Look, look};
ghost use Rattle.expansion_model.specs.Visit.{Found};
ghost use Rattle.expansion_model.specs.Visited.{visited_of, visited_seen};

use crate::answer::{Answer, LimitKind, MOST_REQUESTS};
use crate::buffer::Buffer;
use crate::message::Message;
use crate::table::Table;
use crate::visited::Visited;
use crate::visiting::visit;
use macro_decls::MacroTable;
use plugin_messages::Request;
use result_splice::{Edit, edited_text};
use std::alloc::{AllocError, Global};
use swift_base::{Listed, Plugins, Text};

/// The answer for a source, or the requests that have no outcome yet: the first in the order of the visit, and those
/// behind it.
#[derive(Drop)]
pub enum Step {
    Done(Answer),
    Missing(Request, Vec<Request>),
}

fn by_messages(
    alloc: Global,
    text: &[u8],
    messages: Vec<Message>,
    edits: Vec<Edit>,
) -> Result<Answer, AllocError>
    requires { length text.now < 2 ^ 32 }
    ensures { (found : Found) → found.messages ≡ messages.items → found.edits ≡ edits.items
        → IfOk result (λ answer. answer ≡ by_messages text.now found messages.items) }
{
    if messages.len() == 0 {
        let bytes = edited_text(alloc, text, edits)?;
        return Ok(Answer::File(Text::from_vec(bytes)));
    }
    Ok(Answer::Faults(Listed::from_vec(messages)))
}

#[tactic(auto, unfolding(crate::specs::Visited::visited_of))]
fn step_by(alloc: Global, text: &[u8], visited: Visited) -> Result<Step, AllocError>
    requires { length text.now < 2 ^ 32 }
    ensures { (table : Look) (found : Found) → visited_seen visited ≡ visited_of table found
        → IfOk result (λ step. step_seen step ≡ step_by table text.now found) }
{
    let Visited {
        asked,
        mut missing,
        messages,
        edits,
    } = visited;
    if asked.len() > MOST_REQUESTS {
        return Ok(Step::Done(Answer::Limit(LimitKind::Requests)));
    }
    if missing.len() == 0 {
        return Ok(Step::Done(by_messages(alloc, text, messages, edits)?));
    }
    let first = missing.remove(0);
    Ok(Step::Missing(first, missing))
}

/// What is still to be asked for a source with this table of outcomes, or the answer: a limit where more than
/// `MOST_REQUESTS` requests are asked, else the messages, where there are some, else the file.
#[tactic(auto, unfolding(crate::specs::Steps::step_of))]
pub fn expand_with(
    alloc: Global,
    source: &Buffer,
    macros: &MacroTable,
    plugins: &Plugins,
    table: &Table,
) -> Result<Step, AllocError>
    requires readable { All IsDeclReadable macros.now }
    requires sound { IsSound (buffer_seen source.now) }
    ensures step { IfOk result (λ step. step_seen step ≡ step_of macros.now plugins.now (look table.now) (buffer_seen source.now)) }
    ensures answer { IfOk result (λ step. IsStep macros.now plugins.now (look table.now) (buffer_seen source.now) (step_seen step)) }
{
    let visited = visit(alloc, macros, plugins.list(), table, source)?;
    let step = step_by(alloc, source.outline.text.bytes(), visited)?;
    Ok(step)
}
