// The messages of both sides, and what becomes of a request.
ghost use Rattle.std.specs.Prelude.{◌≡◌};
ghost use Rattle.plugin_messages.specs.Tables.{severity_text};
ghost use Rattle.plugin_messages.specs.declared.message.Refusal.TheVariants.{Memory};

use crate::request::{MacroRef, Parts};
use std::alloc::AllocError;
use swift_base::{Listed, Text};
use unique_names::Role;

/// What the host sends.
#[derive(Clone, Debug, PartialEq, Drop)]
pub enum HostMessage {
    GetCapability {
        version: i64,
    },
    Expand {
        target: MacroRef,
        role: Role,
        discriminator: Text,
        parts: Parts,
    },
    LoadLibrary {
        path: Text,
        module: Text,
    },
}

/// What a plug-in sends.
#[derive(Clone, Debug, Drop)]
pub enum PluginMessage {
    Capability {
        version: i64,
    },
    Result {
        text: Option<Text>,
        diagnostics: Listed<Diagnostic>,
    },
    Loaded {
        loaded: bool,
        diagnostics: Listed<Diagnostic>,
    },
}

/// A diagnostic of a macro. Its offset is in bytes from 0 in the named file, as the plug-in gave it.
#[derive(Clone, Debug, Drop)]
pub struct Diagnostic {
    pub message: Text,
    pub severity: Severity,
    pub file_name: Text,
    pub offset: u64,
    pub notes: Listed<Note>,
}

#[derive(Clone, Debug, Drop)]
pub struct Note {
    pub message: Text,
    pub file_name: Text,
    pub offset: u64,
}

#[derive(Clone, Copy, Debug, PartialEq, Eq)]
pub enum Severity {
    Error,
    Warning,
    Remark,
    Note,
}

/// The text of each severity in a message, in the order of the severities.
pub const SEVERITIES: [(Severity, &str); 4] = [
    (Severity::Error, "error"),
    (Severity::Warning, "warning"),
    (Severity::Remark, "remark"),
    (Severity::Note, "note"),
];

impl Severity {
    pub fn text(self) -> &'static str
        ensures { result.now ≡ severity_text self }
    {
        SEVERITIES[self as usize].1
    }
}

/// What became of a request: a reply, whose text may be missing, or a failure.
#[derive(Clone, Debug, Drop)]
pub enum Outcome {
    Reply {
        text: Option<Text>,
        diagnostics: Listed<Diagnostic>,
    },
    Failed(Cause),
}

/// Why a request has no reply.
#[derive(Clone, Copy, Debug, PartialEq, Eq)]
pub enum Cause {
    NoReply,
}

/// Why a payload is no message, or not the awaited one.
#[derive(Clone, Debug, PartialEq, Drop)]
pub enum Reason {
    /// No JSON, or not UTF-8.
    NotJson,
    /// No object with exactly one member whose value is an object.
    NoCase,
    UnknownCase,
    /// A message of another case than the awaited one. The readers here never give it.
    WrongCase,
    /// The first label that is missing though required, of the wrong type or out of range.
    BadField(Text),
}

/// Want of memory, or a fault of the input.
#[derive(Clone, Debug, PartialEq, Drop)]
pub enum Refusal<F> {
    Memory,
    Fault(F),
}

impl<F> From<AllocError> for Refusal<F> {
    ghost from_gives = { λ _ r. r ≡ Memory };

    fn from(_: AllocError) -> Refusal<F> {
        Refusal::Memory
    }
}
