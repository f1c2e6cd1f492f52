// `#funcUnique()`: a function with a name of its own.
ghost use Rattle.std.specs.Prelude.{◌≡◌, IfOk, option_map};
ghost use Rattle.std.proofs.Common.{sym, ◌∙◌};
ghost use Rattle.std.specs.Str.{IsUtf8};
ghost use Rattle.plugin_messages.specs.Writable.{WhereSome, IsHostWritable, IsPluginWritable};
ghost use Rattle.sample_macros.specs.Samples.{declaration_discriminator, unique_func, func_unique_reply};

use crate::replies::{misfit_reply, text_reply};
use plugin_kit::Macro;
use plugin_messages::{HostMessage, Parts, PluginMessage};
use std::alloc::{AllocError, Global};
use swift_base::Text;
use unique_names::{Role, UniqueNames};

/// The declaration macro that replies `func U() {}`, where U is the first unique name that its request's discriminator
/// and no base make.
#[derive(Clone, Copy, Debug)]
pub struct FuncUniqueMacro;

impl Macro for FuncUniqueMacro {
    ghost meaning = { λ it asked reply. reply ≡ func_unique_reply asked };

    ghost one_reply = { λ it asked one other is again. is ∙ sym again };

    fn expand(&self, alloc: Global, asked: &HostMessage) -> Result<PluginMessage, AllocError> {
        func_unique_reply(alloc, asked)
    }
}

#[tactic(auto, unfolding(crate::specs::Samples::func_unique_reply))]
fn func_unique_reply(alloc: Global, asked: &HostMessage) -> Result<PluginMessage, AllocError>
    ensures reply { IfOk result (λ reply. reply ≡ func_unique_reply asked.now) }
    ensures writable { IsHostWritable asked.now → IfOk result IsPluginWritable }
{
    match declaration_discriminator(asked) {
        Some(discriminator) => {
            let text = unique_func(alloc, discriminator)?;
            Ok(text_reply(alloc, text))
        }
        None => misfit_reply(alloc, asked),
    }
}

// The discriminator of the use that is to be expanded as a declaration.
fn declaration_discriminator(asked: &HostMessage) -> Option<&[u8]>
    ensures is { option_map (λ s. s.now) result ≡ declaration_discriminator asked.now }
    ensures utf8 { IsHostWritable asked.now → WhereSome IsUtf8 (declaration_discriminator asked.now) }
{
    match asked {
        HostMessage::Expand {
            role: Role::Declaration,
            discriminator,
            parts: Parts::Freestanding { .. },
            ..
        } => Some(discriminator.bytes()),
        _ => None,
    }
}

// `func U() {}`
#[tactic(auto, unfolding(crate::specs::Samples::unique_func))]
fn unique_func(alloc: Global, discriminator: &[u8]) -> Result<Vec<u8>, AllocError>
    ensures { IfOk result (λ text. text.items ≡ unique_func discriminator.now) }
{
    let mut names = UniqueNames::new(Text::from_bytes(alloc, discriminator)?);
    let name = names.make(alloc, "")?;
    let mut text = Vec::from_slice(alloc, b"func ")?;
    text.extend_from_slice(name.bytes())?;
    text.extend_from_slice(b"() {}")?;
    Ok(text)
}
