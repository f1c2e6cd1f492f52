// What the host sends, read by the plug-in's side.
ghost use Rattle.std.specs.Prelude.{◌≡◌, IfOk};
ghost use Rattle.serde_json.specs.View.{view};
ghost use Rattle.plugin_messages.specs.Answers.{Answers};
ghost use Rattle.plugin_messages.specs.Writable.{IsHostWritable};
ghost use Rattle.plugin_messages.specs.HostOf.{expand_of, load_of, host_case, host_message_of};
ghost use Rattle.plugin_messages.specs.RequestParts.{freestanding_of, attached_of};

use crate::labels;
use crate::message::{HostMessage, Reason, Refusal};
use crate::reading::case::{capability, case, json};
use crate::reading::check::check;
use crate::reading::fields::{inside, role_at, text_at};
use crate::reading::parts::{attached, freestanding, macro_ref};
use crate::table::Shape;
use serde_json::Value;
use std::alloc::{AllocError, Global};

#[tactic(auto, unfolding(crate::specs::HostOf::expand_of))]
fn expand_freestanding(alloc: Global, value: &Value) -> Result<HostMessage, AllocError>
    ensures message { IfOk result (λ m. m ≡ expand_of freestanding_of (view value.now)) }
    ensures writable { IfOk result IsHostWritable }
{
    Ok(HostMessage::Expand {
        target: macro_ref(alloc, inside(value, labels::MACRO))?,
        role: role_at(value, labels::MACRO_ROLE),
        discriminator: text_at(alloc, value, labels::DISCRIMINATOR)?,
        parts: freestanding(alloc, value)?,
    })
}

#[tactic(auto, unfolding(crate::specs::HostOf::expand_of))]
fn expand_attached(alloc: Global, value: &Value) -> Result<HostMessage, AllocError>
    ensures message { IfOk result (λ m. m ≡ expand_of attached_of (view value.now)) }
    ensures writable { IfOk result IsHostWritable }
{
    Ok(HostMessage::Expand {
        target: macro_ref(alloc, inside(value, labels::MACRO))?,
        role: role_at(value, labels::MACRO_ROLE),
        discriminator: text_at(alloc, value, labels::DISCRIMINATOR)?,
        parts: attached(alloc, value)?,
    })
}

#[tactic(auto, unfolding(crate::specs::HostOf::load_of))]
fn load(alloc: Global, value: &Value) -> Result<HostMessage, AllocError>
    ensures message { IfOk result (λ m. m ≡ load_of (view value.now)) }
    ensures writable { IfOk result IsHostWritable }
{
    Ok(HostMessage::LoadLibrary {
        path: text_at(alloc, value, labels::LIBRARY_PATH)?,
        module: text_at(alloc, value, labels::MODULE_NAME)?,
    })
}

#[tactic(auto, unfolding(crate::specs::HostOf::host_case), using(crate::proofs::Steps::passes))]
fn read_case(alloc: Global, name: &str, value: &Value) -> Result<HostMessage, Refusal<Reason>>
    ensures answers { Answers result (host_case name.now (view value.now)) }
    ensures writable { IfOk result IsHostWritable }
{
    if name == labels::GET_CAPABILITY {
        check(alloc, Shape::Greeting, value)?;
        Ok(HostMessage::GetCapability {
            version: capability(value),
        })
    } else if name == labels::EXPAND_FREESTANDING_MACRO {
        check(alloc, Shape::Freestanding, value)?;
        Ok(expand_freestanding(alloc, value)?)
    } else if name == labels::EXPAND_ATTACHED_MACRO {
        check(alloc, Shape::Attached, value)?;
        Ok(expand_attached(alloc, value)?)
    } else if name == labels::LOAD_PLUGIN_LIBRARY {
        check(alloc, Shape::Load, value)?;
        Ok(load(alloc, value)?)
    } else {
        Err(Refusal::Fault(Reason::UnknownCase))
    }
}

/// The host message that the payload spells, or the first reason why it spells none.
#[tactic(auto, unfolding(crate::specs::HostOf::host_message_of), using(crate::proofs::Steps::passes_as))]
pub fn read_host(alloc: Global, payload: &[u8]) -> Result<HostMessage, Refusal<Reason>>
    ensures answers { Answers result (host_message_of payload.now) }
    ensures writable { IfOk result IsHostWritable }
{
    let value = json(alloc, payload)?;
    let (name, labels) = case(&value)?;
    read_case(alloc, name, labels)
}
