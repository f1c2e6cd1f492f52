// Files by their names.
ghost use Rattle.std.specs.Prelude.{◌≡◌, ◌≤◌, ◌<◌, ◌++◌, ◌∷◌, [], Some, None, Err, nat_lt, length, is_none, IfOk, OnOk, OnErr, IsErrOf, MatchOption, option_map, option_copied, if◌then◌else◌};
ghost use Rattle.swift_base.specs.Memory.{raised, is_listed};
ghost use Rattle.swift_base.specs.MemoryFiles.{FilesState, content_of, found_content, after_file};

use crate::memory::{lists, raise};
use crate::outside::{FileFault, Files};
use crate::text::Text;
use std::alloc::{AllocError, Global};
use std::marker::Model;

/// Files in memory: names with their bytes, the first of a name counting.
#[derive(Drop)]
pub struct MemFiles {
    files: Vec<(Text, Text)>,
    failing: Vec<u64>,
    calls: u64,
    faults: u64,
    names: Vec<Text>,
}

impl Model for MemFiles {
    ghost use Rattle.swift_base.specs.MemoryFiles.{FilesState};

    ghost Value = { FilesState };

    ghost view = { λ s. record {
      files = s.files.items;
      failing = s.failing.items;
      calls = s.calls;
      faults = s.faults;
      names = s.names.items;
    } };
}

impl MemFiles {
    /// The calls in `failing`, counted from 0, fail, and so does one for a name that isn't there. A call that
    /// finds no memory changes nothing and isn't counted.
    pub fn new(alloc: Global, files: Vec<(Text, Text)>, failing: Vec<u64>) -> MemFiles
        ensures { result ≡ record {
          files = files.items;
          failing = failing.items;
          calls = 0;
          faults = 0;
          names = [];
        } }
    {
        MemFiles {
            files,
            failing,
            calls: 0,
            faults: 0,
            names: Vec::new(alloc),
        }
    }

    /// The names that it was asked for, in order.
    pub fn names(&self) -> &[Text]
        ensures { result.now ≡ self.now.names }
    {
        &self.names
    }
}

fn content<'a>(files: &'a [(Text, Text)], name: &[u8]) -> Option<&'a Text>
    ensures { option_copied result ≡ content_of files.now name.now }
{
    let file = files.iter().find(|file| file.0.bytes() == name)?;
    Some(&file.1)
}

// The bytes, a fault where there are none or too many, or no memory.
fn answer(alloc: Global, content: Option<&Text>, limit: u32) -> Result<Vec<u8>, FileFault>
    ensures within { IfOk result (λ v. length v.items ≤ limit) }
    ensures content { IfOk result (λ v. option_copied content.entry ≡ Some v.items) }
    ensures failed { IsErrOf result FileFault.Failed → option_copied content.entry ≡ None }
    ensures larger { IsErrOf result FileFault.Larger → MatchOption (option_copied content.entry) ⊥ (λ b. limit < length b) }
{
    let Some(text) = content else {
        return Err(FileFault::Failed);
    };
    let bytes = text.bytes();
    if bytes.len() > limit as usize {
        return Err(FileFault::Larger);
    }
    Vec::from_slice(alloc, bytes).map_err(|_| FileFault::Memory)
}

fn faults_after(faults: u64, found: bool) -> u64
    ensures { result ≡ (if found then faults else raised faults) }
{
    if found { faults } else { raise(faults) }
}

impl Files for MemFiles {
    ghost use Rattle.std.specs.Prelude.{Some};
    ghost use Rattle.swift_base.specs.MemoryFiles.{content_of};

    ghost seen = { λ s. record { faults = s.faults; contents = Some (content_of s.files); names = Some s.names } };

    fn read(&mut self, alloc: Global, name: &str, limit: u32) -> Result<Vec<u8>, FileFault>
        ensures ok { IfOk result (λ v. (found_content self.old name.now ≡ Some v.items) × (length v.items ≤ limit)) }
        ensures failed { IsErrOf result FileFault.Failed → found_content self.old name.now ≡ None }
        ensures larger { IsErrOf result FileFault.Larger
            → MatchOption (found_content self.old name.now) ⊥ (λ bytes. limit < length bytes) }
        ensures after { OnOk result (self.new ≡ after_file self.old name.now) }
        ensures after_failed { IsErrOf result FileFault.Failed → self.new ≡ after_file self.old name.now }
        ensures after_larger { IsErrOf result FileFault.Larger → self.new ≡ after_file self.old name.now }
        ensures memory { IsErrOf result FileFault.Memory → self.new ≡ self.old }
    {
        let asked = Text::from_bytes(alloc, name.as_bytes()).map_err(|_| FileFault::Memory)?;
        let found = if lists(&self.failing, self.calls) {
            None
        } else {
            content(&self.files, name.as_bytes())
        };
        let is_found = found.is_some();
        let read = answer(alloc, found, limit);
        if let Err(FileFault::Memory) = read {
            return Err(FileFault::Memory);
        }
        if self.names.push(asked).is_err() {
            return Err(FileFault::Memory);
        }
        self.calls = raise(self.calls);
        self.faults = faults_after(self.faults, is_found);
        read
    }
}
