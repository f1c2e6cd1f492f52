// What a plug-in sends, read by the host.
ghost use Rattle.std.specs.Prelude.{◌≡◌, IfOk};
ghost use Rattle.serde_json.specs.View.{view};
ghost use Rattle.plugin_messages.specs.Answers.{Answers};
ghost use Rattle.plugin_messages.specs.Writable.{IsPluginWritable};
ghost use Rattle.plugin_messages.specs.PluginOf.{reply_of, loading_of, plugin_case, plugin_message_of};

use crate::labels;
use crate::message::{PluginMessage, Reason, Refusal};
use crate::reading::case::{capability, case, json};
use crate::reading::check::check;
use crate::reading::diagnostics::diagnostics;
use crate::reading::fields::{flag_at, text_if};
use crate::table::Shape;
use serde_json::Value;
use std::alloc::{AllocError, Global};

#[tactic(auto, unfolding(crate::specs::PluginOf::reply_of))]
fn reply(alloc: Global, value: &Value) -> Result<PluginMessage, AllocError>
    ensures message { IfOk result (λ m. m ≡ reply_of (view value.now)) }
    ensures writable { IfOk result IsPluginWritable }
{
    Ok(PluginMessage::Result {
        text: text_if(alloc, value, labels::EXPANDED_SOURCE)?,
        diagnostics: diagnostics(alloc, value)?,
    })
}

#[tactic(auto, unfolding(crate::specs::PluginOf::loading_of))]
fn loading(alloc: Global, value: &Value) -> Result<PluginMessage, AllocError>
    ensures message { IfOk result (λ m. m ≡ loading_of (view value.now)) }
    ensures writable { IfOk result IsPluginWritable }
{
    Ok(PluginMessage::Loaded {
        loaded: flag_at(value, labels::LOADED),
        diagnostics: diagnostics(alloc, value)?,
    })
}

#[tactic(auto, unfolding(crate::specs::PluginOf::plugin_case), using(crate::proofs::Steps::passes))]
fn read_case(alloc: Global, name: &str, value: &Value) -> Result<PluginMessage, Refusal<Reason>>
    ensures answers { Answers result (plugin_case name.now (view value.now)) }
    ensures writable { IfOk result IsPluginWritable }
{
    if name == labels::GET_CAPABILITY_RESULT {
        check(alloc, Shape::Greeting, value)?;
        Ok(PluginMessage::Capability {
            version: capability(value),
        })
    } else if name == labels::EXPAND_MACRO_RESULT {
        check(alloc, Shape::Reply, value)?;
        Ok(reply(alloc, value)?)
    } else if name == labels::LOAD_PLUGIN_LIBRARY_RESULT {
        check(alloc, Shape::Loading, value)?;
        Ok(loading(alloc, value)?)
    } else {
        Err(Refusal::Fault(Reason::UnknownCase))
    }
}

/// The plug-in message that the payload spells, or the first reason why it spells none.
#[tactic(auto, unfolding(crate::specs::PluginOf::plugin_message_of), using(crate::proofs::Steps::passes_as))]
pub fn read_plugin(alloc: Global, payload: &[u8]) -> Result<PluginMessage, Refusal<Reason>>
    ensures answers { Answers result (plugin_message_of payload.now) }
    ensures writable { IfOk result IsPluginWritable }
{
    let value = json(alloc, payload)?;
    let (name, labels) = case(&value)?;
    read_case(alloc, name, labels)
}
