// Unique names: those that begin with a request's key text, and how a macro makes them.
ghost use Rattle.std.specs.Prelude.{◌≡◌, ◌++◌, ◌+◌, ◌-◌, ◌^◌, ◌<◌, IfOk, OnOk, OnErr, string_bytes};
ghost use Rattle.unique_names.specs.Unique.{is_unique, base_read, index_text, ending_of, made_name, none_made, one_more};
ghost use Rattle.unique_names.specs.UniqueLaws.{UniqueNamesAreDecided, UniqueNamesTellKeys, MadeNamesAreUnique, MadeNamesDiffer, MadeNamesAreUtf8};

use crate::naming::put_number;
use std::alloc::{AllocError, Global};
use std::marker::Model;
use swift_base::Text;

/// Whether the name is one of those that only the request with this key text may make. This takes no memory.
pub fn is_unique(key_text: &[u8], name: &[u8]) -> bool
    ensures { result ≡ is_unique key_text.now name.now }
{
    name.starts_with(key_text) && key_text.len() < name.len()
}

/// Makes the unique names of one request. Its key text is the discriminator that the request gives.
/// A contract sees the key text, and how many names were made.
#[derive(Debug, Drop)]
pub struct UniqueNames {
    key_text: Text,
    made: u32,
}

impl Model for UniqueNames {
    ghost use Rattle.unique_names.specs.Unique.{Made};

    ghost Value = { Made };

    ghost view = { λ names. record { key_text = names.key_text; count = names.made } };
}

impl UniqueNames {
    /// No name is made yet. This takes no memory.
    pub fn new(key_text: Text) -> UniqueNames
        ensures { result ≡ none_made key_text }
    {
        UniqueNames { key_text, made: 0 }
    }

    /// How many names were made.
    pub fn made(&self) -> u32
        ensures { result ≡ self.now.count }
    {
        self.made
    }

    /// The next name, which shows this base; an empty one is read as `__local`.
    pub fn make(&mut self, alloc: Global, base: &str) -> Result<Text, AllocError>
        requires { self.old.count < 2 ^ 32 - 1 }
        ensures name { IfOk result (λ name. name ≡ made_name self.old.key_text base.now self.old.count) }
        ensures counted { OnOk result (self.new ≡ one_more self.old) }
        ensures err { OnErr result (self.new ≡ self.old) }
    {
        let name = made_name(alloc, self.key_text.bytes(), base, self.made)?;
        self.made += 1;
        Ok(name)
    }
}

#[tactic(auto, unfolding(crate::specs::Unique::made_name))]
fn made_name(alloc: Global, key_text: &[u8], base: &str, index: u32) -> Result<Text, AllocError>
    ensures { IfOk result (λ name. name ≡ made_name key_text.now base.now index) }
{
    let ending = ending_of(alloc, base_read(base), index)?;
    let mut name = Vec::from_slice(alloc, key_text)?;
    name.extend_from_slice(ending.as_bytes())?;
    Ok(Text::from_vec(name))
}

fn base_read(base: &str) -> &str
    ensures { result.now ≡ base_read base.now }
{
    if base.is_empty() { "__local" } else { base }
}

// What stands behind the key text.
#[tactic(auto, unfolding(crate::specs::Unique::ending_of))]
fn ending_of(alloc: Global, base: &str, index: u32) -> Result<String, AllocError>
    ensures { IfOk result (λ text. string_bytes text ≡ ending_of base.now index) }
{
    let mut text = String::new(alloc);
    put_number(&mut text, base.len())?;
    text.push_str(base)?;
    text.push_str("fMu")?;
    put_index(&mut text, index)?;
    text.push('_')?;
    Ok(text)
}

#[tactic(auto, unfolding(crate::specs::Unique::index_text))]
fn put_index(text: &mut String, index: u32) -> Result<(), AllocError>
    ensures { OnOk result (string_bytes text.new ≡ string_bytes text.old ++ index_text index) }
{
    if let Some(before) = index.checked_sub(1) {
        put_number(text, before as usize)?;
    }
    Ok(())
}

/// The test of unique names holds exactly of these.
pub fn unique_names_are_decided()
    ensures { UniqueNamesAreDecided }
{}

/// No word is a unique name of two keys, so names of different requests are never the same.
pub fn unique_names_tell_keys()
    ensures { UniqueNamesTellKeys }
{}

/// What is made is a unique name of its key text, and no other name that is made of it, and UTF-8 where its parts are.
pub fn made_names_are_unique()
    ensures unique { MadeNamesAreUnique }
    ensures apart { MadeNamesDiffer }
    ensures utf8 { MadeNamesAreUtf8 }
{}
