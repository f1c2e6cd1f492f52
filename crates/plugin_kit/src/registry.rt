// The macros of a plug-in, found by their names.
ghost use Rattle.std.specs.Prelude.{◌≡◌, IfOk};
ghost use Rattle.plugin_messages.specs.Writable.{IsMacroWritable, IsHostWritable, IsPluginWritable};
ghost use Rattle.plugin_kit.specs.Given.{is_named, first_named, IsExpansion, IsGiven, one_given};

use crate::asking::{Answers, Macro};
use crate::refusing::{no_macro, refusal};
use plugin_messages::{HostMessage, MacroRef, PluginMessage};
use std::alloc::{AllocError, Global};
use swift_base::{Listed, Text};

/// A macro, and the module and the type by which it is asked for.
#[derive(Drop)]
pub struct Entry {
    pub module: Text,
    pub type_name: Text,
    pub body: Box<dyn Macro + Send>,
}

/// The macros of a plug-in. Of two that have the same names the first counts.
#[derive(Drop)]
pub struct Registry {
    entries: Vec<Entry>,
}

impl Registry {
    /// A registry of these macros.
    pub fn new(entries: Vec<Entry>) -> Registry
        ensures { result.entries.items ≡ entries.items }
    {
        Registry { entries }
    }
}

/// The version of the messages, which is the answer to the greeting.
pub const PROTOCOL_VERSION: i64 = 7;

/// What the first entry with the names of the macro gives to a request, and the answers to the other messages:
/// the version, and that no library was loaded. Where no entry has the names, the reply has no text and one error,
/// which says so.
pub fn answer_one(
    alloc: Global,
    registry: &Registry,
    message: &HostMessage,
) -> Result<PluginMessage, AllocError>
    ensures reply { IfOk result (IsGiven (λ e. e.module) (λ e. e.type_name) (λ e. meaning e.body) registry.now.entries.items message.now) }
    ensures writable { IsHostWritable message.now → IfOk result IsPluginWritable }
{
    match message {
        HostMessage::GetCapability { version: _ } => Ok(PluginMessage::Capability {
            version: PROTOCOL_VERSION,
        }),
        HostMessage::Expand {
            target,
            role: _,
            discriminator: _,
            parts: _,
        } => expansion(alloc, registry, target, message),
        HostMessage::LoadLibrary { path: _, module: _ } => Ok(PluginMessage::Loaded {
            loaded: false,
            diagnostics: Listed::from_vec(Vec::new(alloc)),
        }),
    }
}

impl Answers for Registry {
    ghost given = { λ r. IsGiven (λ e. e.module) (λ e. e.type_name) (λ e. (Macro-box e.body).meaning e.body.value) r.entries.items };

    ghost one_answer = { λ r. one_given (λ e. e.module) (λ e. e.type_name) (λ e. (Macro-box e.body).meaning e.body.value) (λ e. (Macro-box e.body).one_reply e.body.value) r.entries.items };

    fn answer(&self, alloc: Global, message: &HostMessage) -> Result<PluginMessage, AllocError> {
        answer_one(alloc, self, message)
    }
}

fn expansion(
    alloc: Global,
    registry: &Registry,
    target: &MacroRef,
    asked: &HostMessage,
) -> Result<PluginMessage, AllocError>
    ensures reply { IfOk result (IsExpansion (λ e. meaning e.body)
        (first_named (λ e. e.module) (λ e. e.type_name) registry.now.entries.items target.now) target.now asked.now) }
    ensures writable { IsMacroWritable target.now → IsHostWritable asked.now → IfOk result IsPluginWritable }
{
    'entries: for entry in &registry.entries {
        if names(entry, target) {
            return ask(alloc, entry, asked);
        }
    }
    refusal(alloc, asked, &no_macro(alloc, target)?)
}

fn names(entry: &Entry, target: &MacroRef) -> bool
    ensures { result ≡ is_named entry.now.module entry.now.type_name target.now }
{
    entry.module == target.module && entry.type_name == target.type_name
}

fn ask(alloc: Global, entry: &Entry, asked: &HostMessage) -> Result<PluginMessage, AllocError>
    ensures reply { IfOk result (meaning entry.now.body asked.now) }
    ensures writable { IsHostWritable asked.now → IfOk result IsPluginWritable }
{
    entry.body.expand(alloc, asked)
}
