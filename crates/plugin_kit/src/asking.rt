// Who answers messages of the host.
ghost use Rattle.std.specs.Prelude.{◌≡◌, IfOk};
ghost use Rattle.plugin_messages.specs.declared.message.HostMessage.{HostMessage};
ghost use Rattle.plugin_messages.specs.declared.message.PluginMessage.{PluginMessage};
ghost use Rattle.plugin_messages.specs.Writable.{IsHostWritable, IsPluginWritable};

use plugin_messages::{HostMessage, PluginMessage};
use std::alloc::{AllocError, Global};

/// A macro. Its meaning is the reply that it gives to each message.
pub trait Macro: Drop {
    ghost meaning: { Self → HostMessage → PluginMessage → Type 0 };

    // There is one reply to each message. A boxed macro keeps this, too.
    ghost one_reply: { (it : Self) (asked : HostMessage) (a b : PluginMessage) → meaning it asked a → meaning it asked b → a ≡ b };

    /// The reply to the message.
    fn expand(&self, alloc: Global, asked: &HostMessage) -> Result<PluginMessage, AllocError>
        ensures reply { IfOk result (meaning self.now asked.now) }
        ensures writable { IsHostWritable asked.now → IfOk result IsPluginWritable };
}

/// Gives a reply to each message of the host.
pub trait Answers {
    ghost given: { Self → HostMessage → PluginMessage → Type 0 };

    // There is one reply to each message.
    ghost one_answer: { (it : Self) (message : HostMessage) (a b : PluginMessage) → given it message a → given it message b → a ≡ b };

    /// The reply to the message.
    fn answer(&self, alloc: Global, message: &HostMessage) -> Result<PluginMessage, AllocError>
        ensures reply { IfOk result (given self.now message.now) }
        ensures writable { IsHostWritable message.now → IfOk result IsPluginWritable };
}
