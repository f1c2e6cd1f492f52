// What an edited text is made of.
ghost use Rattle.std.specs.Prelude.{◌≡◌, ◌<◌, ◌^◌, ◌++◌, [], ◌∷◌, IfOk, length};
ghost use Rattle.result_splice.specs.Edits.{edited_text};
ghost use Rattle.result_splice.specs.Pieces.{span, pieces, piece_bytes, pieces_bytes};
ghost use Rattle.result_splice.specs.declared.piece.PieceOf.TheVariants.{Kept, Fresh};

use crate::edit::{Edit, in_order};
use crate::laws::pieces_are_the_text;
use crate::slices::between;
use std::alloc::{AllocError, Global};
use std::marker::Model;
use swift_base::{Span, Text};

/// A part of an edited text: bytes of the text that was edited, or an edit's own.
#[derive(Debug, Drop)]
pub enum PieceOf {
    Kept(Span),
    Fresh(Text),
}

/// An edited text in parts, in order. What is kept before an edit or behind the last one may be empty.
/// A contract sees the list of parts.
#[derive(Debug, Drop)]
pub struct Pieces {
    pub parts: Vec<PieceOf>,
}

impl Model for Pieces {
    ghost use Rattle.std.specs.Prelude.{List};
    ghost use Rattle.result_splice.specs.declared.piece.PieceOf.{PieceOf};

    ghost Value = { List PieceOf };

    ghost view = { λ p. p.parts.items };
}

/// The parts of the text with the edits made, which may be in any order.
/// Edits that begin at one place keep the order that they have here, but what is put in there stands before what replaces.
pub fn apply(alloc: Global, buffer: &[u8], edits: Vec<Edit>) -> Result<Pieces, AllocError>
    requires { length buffer.now < 2 ^ 32 }
    ensures { IfOk result (λ made. made ≡ pieces buffer.now edits.items) }
{
    let mut parts = Vec::new(alloc);
    let mut from = 0;
    'edits: for edit in in_order(edits)? {
        let end = edit.end;
        put_edit(&mut parts, from, edit)?;
        from = end;
    }
    put_kept(&mut parts, from, buffer.len() as u32)?;
    Ok(Pieces { parts })
}

fn put_kept(parts: &mut Vec<PieceOf>, start: u32, end: u32) -> Result<(), AllocError>
    ensures { IfOk result (λ _. parts.new.items ≡ parts.old.items ++ Kept (span start end) ∷ []) }
{
    parts.push(PieceOf::Kept(Span { start, end }))?;
    Ok(())
}

// What stands before the edit, and then the edit's bytes.
fn put_edit(parts: &mut Vec<PieceOf>, from: u32, edit: Edit) -> Result<(), AllocError>
    ensures { IfOk result (λ _. parts.new.items ≡ parts.old.items ++ Kept (span from edit.start) ∷ Fresh edit.bytes ∷ []) }
{
    put_kept(parts, from, edit.start)?;
    parts.push(PieceOf::Fresh(edit.bytes))?;
    Ok(())
}

impl Pieces {
    /// The bytes of the parts, joined; `buffer` is the text that was edited.
    pub fn bytes(&self, alloc: Global, buffer: &[u8]) -> Result<Vec<u8>, AllocError>
        ensures { IfOk result (λ bytes. bytes.items ≡ pieces_bytes buffer.now self.now) }
    {
        let mut bytes = Vec::with_capacity(alloc, buffer.len())?;
        'parts: for part in &self.parts {
            bytes.extend_from_slice(part.bytes(buffer))?;
        }
        Ok(bytes)
    }
}

impl PieceOf {
    /// Its bytes; `buffer` is the text that was edited.
    pub fn bytes<'a>(&'a self, buffer: &'a [u8]) -> &'a [u8]
        ensures { result.now ≡ piece_bytes buffer.now self.now }
    {
        match self {
            PieceOf::Kept(span) => between(buffer, span.start as usize, span.end as usize),
            PieceOf::Fresh(bytes) => bytes.bytes(),
        }
    }
}

/// The text with the edits made, as `apply` makes them.
pub fn edited_text(alloc: Global, buffer: &[u8], edits: Vec<Edit>) -> Result<Vec<u8>, AllocError>
    requires { length buffer.now < 2 ^ 32 }
    ensures { IfOk result (λ bytes. bytes.items ≡ edited_text buffer.now edits.items) }
{
    pieces_are_the_text();
    let pieces = apply(alloc, buffer, edits)?;
    let bytes = pieces.bytes(alloc, buffer)?;
    Ok(bytes)
}
