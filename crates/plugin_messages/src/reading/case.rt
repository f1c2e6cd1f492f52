// A payload's JSON, its case, and the version that both sides announce.
ghost use Rattle.std.specs.Prelude.{◌≡◌, option_map};
ghost use Rattle.serde_json.specs.View.{view, members_view};
ghost use Rattle.plugin_messages.specs.declared.message.Reason.TheVariants.{NotJson, NoCase};
ghost use Rattle.plugin_messages.specs.Answers.{AnswersAs};
ghost use Rattle.plugin_messages.specs.Fields.{found_or};
ghost use Rattle.plugin_messages.specs.HostOf.{json_of, sole, case_of, capability_of};

use crate::labels;
use crate::message::{Reason, Refusal};
use crate::reading::fields::{inside, version_at};
use serde_json::{Map, Value};
use std::alloc::Global;

/// The JSON value of a payload.
#[tactic(auto, unfolding(crate::specs::HostOf::json_of))]
pub(crate) fn json(alloc: Global, payload: &[u8]) -> Result<Value, Refusal<Reason>>
    ensures { AnswersAs view result (found_or NotJson (json_of payload.now)) }
{
    let Ok(text) = str::from_utf8(payload) else {
        return Err(Refusal::Fault(Reason::NotJson));
    };
    match Value::from_str(alloc, text) {
        Ok(value) => Ok(value),
        Err(error) => {
            if error.is_memory() {
                Err(Refusal::Memory)
            } else {
                Err(Refusal::Fault(Reason::NotJson))
            }
        }
    }
}

// The name and the value of an object's only member.
fn sole_member(members: &Map<String, Value>) -> Option<(&str, &Value)>
    ensures { option_map (λ p. (p.0.now, view p.1.now)) result ≡ sole (members_view members.now.entries) }
{
    let (name, value) = members.first_key_value()?;
    if members.len() == 1 {
        Some((name.as_str(), value))
    } else {
        None
    }
}

/// The case: the only member, whose value is an object.
#[tactic(auto, unfolding(crate::specs::HostOf::case_of))]
pub(crate) fn case(value: &Value) -> Result<(&str, &Value), Refusal<Reason>>
    ensures { AnswersAs (λ p. (p.0.now, view p.1.now)) result (found_or NoCase (case_of (view value.now))) }
{
    let Some(members) = value.as_object() else {
        return Err(Refusal::Fault(Reason::NoCase));
    };
    match sole_member(members) {
        Some((name, labels)) if labels.is_object() => Ok((name, labels)),
        _ => Err(Refusal::Fault(Reason::NoCase)),
    }
}

/// The version that a side announces.
#[tactic(auto, unfolding(crate::specs::HostOf::capability_of))]
pub(crate) fn capability(value: &Value) -> i64
    ensures { result ≡ capability_of (view value.now) }
{
    version_at(inside(value, labels::CAPABILITY), labels::PROTOCOL_VERSION)
}
