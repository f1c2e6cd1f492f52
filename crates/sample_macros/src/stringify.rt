// `#stringify(value)`: a value beside its text.
ghost use Rattle.std.specs.Prelude.{◌≡◌, IfOk, Some, [], option_map, option_and_then};
ghost use Rattle.std.specs.Str.{IsUtf8};
ghost use Rattle.plugin_messages.specs.Writable.{WhereSome, IsHostWritable, IsPluginWritable};
ghost use Rattle.sample_macros.specs.Use.{readable, HasArgumentWhereSome};
ghost use Rattle.sample_macros.specs.Samples.{expression_source, stringified, stringify_reply, IsStringifyReply};
ghost use Rattle.sample_macros.specs.OneReply.{one_stringify_reply};

use crate::argument::argument_of;
use crate::literal::stringified;
use crate::replies::{misfit_reply, text_reply};
use plugin_kit::Macro;
use plugin_messages::{HostMessage, Parts, PluginMessage};
use std::alloc::{AllocError, Global};
use unique_names::Role;

/// The macro that replies `(A, "E")` to a use with the argument A: A is what stands in its first round brackets,
/// from the first token to the last, and E is A as it is written in a string literal.
#[derive(Clone, Copy, Debug)]
pub struct StringifyMacro;

impl Macro for StringifyMacro {
    ghost meaning = { λ it asked reply. IsStringifyReply asked reply };

    ghost one_reply = { λ it. one_stringify_reply };

    fn expand(&self, alloc: Global, asked: &HostMessage) -> Result<PluginMessage, AllocError> {
        stringify_reply(alloc, asked)
    }
}

#[tactic(auto, unfolding(crate::specs::Samples::stringify_reply))]
fn stringify_reply(alloc: Global, asked: &HostMessage) -> Result<PluginMessage, AllocError>
    ensures reply { IfOk result (IsStringifyReply asked.now) }
    ensures writable { IsHostWritable asked.now → IfOk result IsPluginWritable }
{
    match argument_in(alloc, asked)? {
        Some(argument) => reply_with(alloc, &argument),
        None => misfit_reply(alloc, asked),
    }
}

// The argument of the use that is to be expanded as an expression.
fn argument_in(alloc: Global, asked: &HostMessage) -> Result<Option<Vec<u8>>, AllocError>
    ensures argument { IfOk result (λ argument. HasArgumentWhereSome (option_and_then readable (expression_source asked.now)) (option_map (λ v. v.items) argument)) }
    ensures utf8 { IsHostWritable asked.now → IfOk result (λ argument. WhereSome IsUtf8 (option_map (λ v. v.items) argument)) }
{
    match expression_source(asked) {
        Some(source) => argument_of(alloc, source),
        None => Ok(None),
    }
}

fn expression_source(asked: &HostMessage) -> Option<&[u8]>
    ensures source { option_map (λ s. s.now) result ≡ expression_source asked.now }
    ensures utf8 { IsHostWritable asked.now → WhereSome IsUtf8 (expression_source asked.now) }
{
    match asked {
        HostMessage::Expand {
            role: Role::Expression,
            parts: Parts::Freestanding { syntax },
            ..
        } => Some(syntax.source.bytes()),
        _ => None,
    }
}

// The reply to a use with this argument.
fn reply_with(alloc: Global, argument: &[u8]) -> Result<PluginMessage, AllocError>
    ensures reply { IfOk result (λ reply. reply ≡ PluginMessage.Result (Some (stringified argument.now)) []) }
    ensures writable { IsUtf8 argument.now → IfOk result IsPluginWritable }
{
    let text = stringified(alloc, argument)?;
    Ok(text_reply(alloc, text))
}
