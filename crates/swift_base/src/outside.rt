// The traits by which the expander meets readers, writers, files and processes.
// A count never falls and stands still at its end; what is told is told as long as the object lives.
ghost use Rattle.std.specs.Prelude.{◌≡◌, ◌≤◌, ◌<◌, ℕ, take, length, IfOk, OnOk, OnErr, IsErrOf};
ghost use Rattle.swift_base.specs.Told.{Tells, prepend, then_bytes, then_name, Rose};
ghost use Rattle.swift_base.specs.Outside.{SourceSeen, SinkSeen, FilesSeen, StarterSeen, IsAtEnd, IsClosedBy, HasContent, IsFreshWriter, IsFreshReader, TakesLink, then_started, then_failed};

use std::alloc::Global;
use thiserror::Error;

/// Why a reader gave nothing.
#[derive(Clone, Copy, Debug, PartialEq, Eq, Error)]
pub enum ReadFault {
    #[error("a read failed")]
    Failed,
}

/// Why a writer took nothing.
#[derive(Clone, Copy, Debug, PartialEq, Eq, Error)]
pub enum WriteFault {
    #[error("a write failed")]
    Failed,
}

/// Why a file was not given: it could not be read, it has more bytes than the limit, or memory ran out.
#[derive(Clone, Copy, Debug, PartialEq, Eq, Error)]
pub enum FileFault {
    #[error("the file could not be read")]
    Failed,
    #[error("the file is larger than the limit")]
    Larger,
    #[error("out of memory")]
    Memory,
}

/// Why nothing was started: the start failed, or memory ran out.
#[derive(Clone, Copy, Debug, PartialEq, Eq, Error)]
pub enum StartFault {
    #[error("the program could not be started")]
    Failed,
    #[error("out of memory")]
    Memory,
}

/// Gives bytes, one after another, as a pipe does.
pub trait Source: Drop {
    ghost seen: { Self → SourceSeen };

    /// Puts the next bytes at the front of the room. `Ok(0)` at a room that isn't empty is the end.
    fn read(&mut self, room: &mut [u8]) -> Result<usize, ReadFault>
        ensures count { IfOk result (λ n. n ≤ length room.new) }
        ensures given { IfOk result (λ n. (seen self.old).left ≡ prepend (take n room.new) (seen self.new).left) }
        ensures kept { OnErr result ((seen self.new).left ≡ (seen self.old).left) }

        // A fault and an end have their causes, and no other call changes a count.
        ensures failed { OnErr result (Rose (seen self.old).faults (seen self.new).faults) }
        ensures ended { IfOk result (λ n. n ≡ 0 → 0 < length room.old → Rose (seen self.old).ends (seen self.new).ends) }
        ensures at_end { IfOk result (λ n. n ≡ 0 → 0 < length room.old → IsAtEnd (seen self.old).left) }
        ensures steady_faults { IfOk result (λ n. 0 < n → (seen self.new).faults ≡ (seen self.old).faults) }
        ensures steady_ends { IfOk result (λ n. 0 < n → (seen self.new).ends ≡ (seen self.old).ends) }
        ensures faults { (seen self.old).faults ≤ (seen self.new).faults }
        ensures ends { (seen self.old).ends ≤ (seen self.new).ends };
}

/// Takes bytes. A call with the empty piece closes it.
pub trait Sink: Drop {
    ghost seen: { Self → SinkSeen };

    /// Takes a front of the piece, at least a byte where the piece isn't empty.
    fn write(&mut self, piece: &[u8]) -> Result<usize, WriteFault>
        ensures count { IfOk result (λ n. n ≤ length piece.now) }
        ensures some { IfOk result (λ n. 0 < length piece.now → 0 < n) }
        ensures taken { IfOk result (λ n. (seen self.new).held ≡ then_bytes (seen self.old).held (take n piece.now)) }
        ensures kept { OnErr result ((seen self.new).held ≡ (seen self.old).held) }

        ensures failed { OnErr result (Rose (seen self.old).faults (seen self.new).faults) }
        ensures steady { OnOk result ((seen self.new).faults ≡ (seen self.old).faults) }
        ensures faults { (seen self.old).faults ≤ (seen self.new).faults }

        // The first call with the empty piece counts as the closing, whether or not it fails.
        ensures open { 0 < length piece.now → (seen self.new).closing ≡ (seen self.old).closing }
        ensures closed { length piece.now ≡ 0 → IsClosedBy (seen self.old).held (seen self.old).closing (seen self.new).closing };
}

/// Reads files by their names.
pub trait Files {
    ghost seen: { Self → FilesSeen };

    /// The file's bytes, where there are at most `limit` of them.
    fn read(&mut self, alloc: Global, name: &str, limit: u32) -> Result<Vec<u8>, FileFault>
        ensures within { IfOk result (λ v. length v.items ≤ limit) }
        ensures content { IfOk result (λ v. HasContent (seen self.old).contents name.now (λ bytes. v.items ≡ bytes)) }
        ensures larger { IsErrOf result FileFault.Larger → HasContent (seen self.old).contents name.now (λ bytes. limit < length bytes) }
        ensures contents { (seen self.new).contents ≡ (seen self.old).contents }

        // Each name is kept, but for one that found no memory.
        ensures asked { OnOk result ((seen self.new).names ≡ then_name (seen self.old).names name.now) }
        ensures asked_larger { IsErrOf result FileFault.Larger → (seen self.new).names ≡ then_name (seen self.old).names name.now }
        ensures asked_failed { IsErrOf result FileFault.Failed → (seen self.new).names ≡ then_name (seen self.old).names name.now }
        ensures not_asked { IsErrOf result FileFault.Memory → (seen self.new).names ≡ (seen self.old).names }

        ensures failed { IsErrOf result FileFault.Failed → Rose (seen self.old).faults (seen self.new).faults }
        ensures steady { OnOk result ((seen self.new).faults ≡ (seen self.old).faults) }
        ensures steady_larger { IsErrOf result FileFault.Larger → (seen self.new).faults ≡ (seen self.old).faults }
        ensures steady_memory { IsErrOf result FileFault.Memory → (seen self.new).faults ≡ (seen self.old).faults };
}

/// Starts programs, whose input it gives as a writer and whose output as a reader.
pub trait Starter: Drop {
    type Writer: Sink;

    type Reader: Source + Send + 'static;

    ghost seen: { Self → StarterSeen };

    /// Starts the program of this command, with no arguments.
    fn start(
        &mut self,
        alloc: Global,
        command: &str,
    ) -> Result<(Self::Writer, Self::Reader), StartFault>
        ensures writer { IfOk result (λ p. IsFreshWriter (Self.Writer.seen p.0)) }
        ensures reader { IfOk result (λ p. IsFreshReader (Self.Reader.seen p.1)) }

        // The first of the links to come is the one that was started, and no other start takes one.
        ensures link { IfOk result (λ p. TakesLink (seen self.old).links (seen self.new).links (Self.Reader.seen p.1).left) }
        ensures no_link { OnErr result ((seen self.new).links ≡ (seen self.old).links) }

        ensures started { OnOk result ((seen self.new).commands ≡ then_started (seen self.old).commands command.now) }
        ensures not_started { IsErrOf result StartFault.Failed → (seen self.new).commands ≡ then_failed (seen self.old).commands command.now }
        ensures no_memory { IsErrOf result StartFault.Memory → (seen self.new).commands ≡ (seen self.old).commands }

        ensures failed { IsErrOf result StartFault.Failed → Rose (seen self.old).faults (seen self.new).faults }
        ensures faults { (seen self.old).faults ≤ (seen self.new).faults };

    /// How many starts failed.
    fn faults(&self) -> u64
        ensures { result ≡ (seen self.now).faults };
}
