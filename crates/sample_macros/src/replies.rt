// The two replies of the macros here: a text, and the error of a message that doesn't fit.
ghost use Rattle.std.specs.Prelude.{◌≡◌, IfOk, Some, []};
ghost use Rattle.std.specs.Str.{IsUtf8};
ghost use Rattle.plugin_messages.specs.Writable.{IsHostWritable, IsPluginWritable};
ghost use Rattle.plugin_kit.specs.Refusing.{refusal_of};
ghost use Rattle.sample_macros.specs.Samples.{misfit};

use plugin_kit::refusal;
use plugin_messages::{HostMessage, PluginMessage};
use std::alloc::{AllocError, Global};
use swift_base::{Listed, Text};

/// What a macro says to a message that isn't for it, or that lacks what the reply needs.
const MISFIT: &[u8] = b"this macro does not fit here";

/// The reply with this text and no diagnostic.
pub fn text_reply(alloc: Global, text: Vec<u8>) -> PluginMessage
    ensures reply { result ≡ PluginMessage.Result (Some text.items) [] }
    ensures writable { IsUtf8 text.items → IsPluginWritable result }
{
    let text = Some(Text::from_vec(text));
    let diagnostics = Listed::from_vec(Vec::new(alloc));
    PluginMessage::Result { text, diagnostics }
}

/// The reply to a message that isn't for the macro, or that lacks what the reply needs.
#[tactic(auto, using(crate::proofs::Literals::misfit_utf8), unfolding(crate::specs::Samples::misfit))]
pub fn misfit_reply(alloc: Global, asked: &HostMessage) -> Result<PluginMessage, AllocError>
    ensures reply { IfOk result (λ reply. reply ≡ refusal_of asked.now misfit) }
    ensures writable { IsHostWritable asked.now → IfOk result IsPluginWritable }
{
    refusal(alloc, asked, MISFIT)
}
