// A source, or the text of a reply.
ghost use Rattle.std.specs.Prelude.{◌≡◌, ◌++◌, ◌∷◌, [], IfOk};
ghost use Rattle.swift_tree.specs.Outlines.{outline_of};
ghost use Rattle.expansion_model.specs.Buffers.{source_buffer, step_of, key_of, pair_of, same_pair, is_among, reply_name, reply_buffer, buffer_seen};

use crate::site::Ask;
use std::alloc::{AllocError, Global};
use swift_base::{Listed, Text};
use swift_tree::Outline;
use unique_names::{Key, KeyStep, Role, discriminator};

/// A macro and the role in which it was asked.
#[derive(Debug, PartialEq, Drop)]
pub struct Ancestor {
    pub macro_name: Text,
    pub role: Role,
}

/// An outline and what its requests have to know of it: the name by which messages call the buffer, its key, the macros
/// and roles in whose replies it stands, outermost first, and whether it stands at file scope.
#[derive(Drop)]
pub struct Buffer {
    pub outline: Outline,
    pub name: Text,
    pub key: Key,
    pub ancestors: Listed<Ancestor>,
    pub file_scope: bool,
}

impl Buffer {
    /// A source file of this name.
    pub fn source(alloc: Global, name: &[u8], outline: Outline) -> Result<Buffer, AllocError>
        ensures { IfOk result (λ buffer. buffer_seen buffer ≡ source_buffer name.now (outline_of outline)) }
    {
        Ok(Buffer {
            outline,
            name: Text::from_bytes(alloc, name)?,
            key: Key::source(alloc),
            ancestors: Listed::from_vec(Vec::new(alloc)),
            file_scope: true,
        })
    }
}

fn step_of(ask: &Ask) -> KeyStep
    ensures { result ≡ step_of ask.now }
{
    KeyStep {
        offset: ask.macro_use.span.start,
        role: ask.stands_for.role,
        member: 0,
    }
}

/// The key of a use's request, in the buffer with this key.
pub fn key_of(key: &Key, ask: &Ask) -> Result<Key, AllocError>
    ensures { IfOk result (λ longer. longer ≡ key_of key.now ask.now) }
{
    let mut longer = key.clone()?;
    longer.steps.push(step_of(ask))?;
    Ok(longer)
}

fn pair_of(ask: &Ask) -> Result<Ancestor, AllocError>
    ensures { IfOk result (λ pair. pair ≡ pair_of ask.now) }
{
    Ok(Ancestor {
        macro_name: ask.target.name.clone()?,
        role: ask.stands_for.role,
    })
}

fn is_pair(ask: &Ask, other: &Ancestor) -> bool
    ensures { result ≡ same_pair (pair_of ask.now) other.now }
{
    ask.target.name.bytes() == other.macro_name.bytes() && ask.stands_for.role == other.role
}

/// Whether the macro and the role of a use stand among the ancestors.
pub fn is_recursive(ask: &Ask, ancestors: &[Ancestor]) -> bool
    ensures { result ≡ is_among (pair_of ask.now) ancestors.now }
{
    ancestors.iter().any(|other| is_pair(ask, other))
}

/// The name of the buffer of the reply to the request with this key.
pub fn reply_name(alloc: Global, key: &Key) -> Result<Text, AllocError>
    ensures { IfOk result (λ name. name ≡ reply_name key.now) }
{
    let mut name = discriminator(alloc, key)?.into_vec();
    name.extend_from_slice(b".swift")?;
    Ok(Text::from_vec(name))
}

fn copied(ancestor: &Ancestor) -> Result<Ancestor, AllocError>
    ensures { IfOk result (λ copy. copy ≡ ancestor.now) }
{
    Ok(Ancestor {
        macro_name: ancestor.macro_name.clone()?,
        role: ancestor.role,
    })
}

fn with_pair(
    alloc: Global,
    ancestors: &[Ancestor],
    ask: &Ask,
) -> Result<Listed<Ancestor>, AllocError>
    ensures { IfOk result (λ list. list ≡ ancestors.now ++ pair_of ask.now ∷ []) }
{
    let mut list = Vec::with_capacity(alloc, ancestors.len())?;
    'ancestors: for ancestor in ancestors {
        list.push(copied(ancestor)?)?;
    }
    list.push(pair_of(ask)?)?;
    Ok(Listed::from_vec(list))
}

/// The buffer of the reply to a use, as this outline.
pub fn reply_buffer(
    alloc: Global,
    buffer: &Buffer,
    ask: &Ask,
    outline: Outline,
) -> Result<Buffer, AllocError>
    ensures { IfOk result (λ inner. buffer_seen inner ≡ reply_buffer (buffer_seen buffer.now) ask.now (outline_of outline)) }
{
    let key = key_of(&buffer.key, ask)?;
    Ok(Buffer {
        outline,
        name: reply_name(alloc, &key)?,
        key,
        ancestors: with_pair(alloc, buffer.ancestors.items(), ask)?,
        file_scope: ask.stands_for.file_scope,
    })
}
