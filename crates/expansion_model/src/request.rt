// What is asked at a site.
ghost use Rattle.std.specs.Prelude.{◌≡◌, ◌<◌, ◌-◌, ◌^◌, ◌++◌, IfOk, length};
ghost use Rattle.std.specs.Str.{IsUtf8};
ghost use Rattle.std.specs.Str.Lossy.{utf8_lossy};
ghost use Rattle.plugin_messages.specs.Writable.{IsLocationWritable, IsMacroWritable, IsSyntaxWritable, IsRequestWritable};
ghost use Rattle.expansion_model.specs.Readable.{IsAskReadable};
ghost use Rattle.expansion_model.specs.Buffers.{buffer_seen};
ghost use Rattle.expansion_model.specs.Requests.{place_of, last_part, file_id, location_of, kind_for, syntax_of, request_of};

use crate::buffer::{Buffer, key_of};
use crate::place::Place;
use crate::site::Ask;
use crate::slices::text_at;
use plugin_messages::{Location, MacroRef, Parts, Request, Syntax, SyntaxKind};
use std::alloc::{AllocError, Global};
use swift_base::Text;
use unique_names::Role;

// What stands after the last slash.
fn last_part(name: &[u8]) -> &[u8]
    ensures { result.now ≡ last_part name.now }
{
    let mut last = name;
    let mut rest = name;
    'parts: while let [first, more @ ..] = rest {
        if *first == b'/' {
            last = more;
        }
        rest = more;
    }
    last
}

fn file_id(alloc: Global, name: &[u8]) -> Result<Vec<u8>, AllocError>
    ensures { IfOk result (λ id. id.items ≡ file_id name.now) }
{
    let mut id = Vec::from_slice(alloc, b"main/")?;
    id.extend_from_slice(last_part(name))?;
    Ok(id)
}

// The bytes as UTF-8, with a replacement character for each part that is none.
fn readable(alloc: Global, bytes: &[u8]) -> Result<Text, AllocError>
    ensures text { IfOk result (λ text. text ≡ utf8_lossy bytes.now) }
    ensures utf8 { IfOk result IsUtf8 }
{
    let text = String::from_utf8_lossy(alloc, bytes)?;
    Text::from_bytes(alloc, text.as_str().as_bytes())
}

#[tactic(auto, unfolding(crate::specs::Requests::location_of))]
fn location_of(alloc: Global, name: &[u8], place: Place) -> Result<Location, AllocError>
    ensures location { IfOk result (λ location. location ≡ location_of name.now place) }
    ensures writable { IfOk result IsLocationWritable }
{
    let file_id = readable(alloc, &file_id(alloc, name)?)?;
    let file_name = readable(alloc, name)?;
    let Place { at, line, column } = place;
    Ok(Location {
        file_id,
        file_name,
        offset: at,
        line,
        column,
    })
}

fn copied(alloc: Global, target: &MacroRef) -> Result<MacroRef, AllocError>
    ensures { IfOk result (λ copy. copy ≡ target.now) }
{
    let module = Text::from_bytes(alloc, target.module.bytes())?;
    let type_name = Text::from_bytes(alloc, target.type_name.bytes())?;
    let name = Text::from_bytes(alloc, target.name.bytes())?;
    Ok(MacroRef {
        module,
        type_name,
        name,
    })
}

fn kind_for(role: Role) -> SyntaxKind
    ensures { result ≡ kind_for role }
{
    match role {
        Role::Declaration => SyntaxKind::Declaration,
        _ => SyntaxKind::Expression,
    }
}

#[tactic(auto, unfolding(crate::specs::Requests::syntax_of))]
fn syntax_of(alloc: Global, buffer: &Buffer, place: Place, ask: &Ask) -> Result<Syntax, AllocError>
    requires place { place ≡ place_of buffer.now.outline.text ask.now.macro_use.span.start }
    requires readable { IsAskReadable buffer.now.outline.text ask.now }
    ensures syntax { IfOk result (λ syntax. syntax ≡ syntax_of (buffer_seen buffer.now) ask.now) }
    ensures writable { IfOk result IsSyntaxWritable }
{
    let text = buffer.outline.text.bytes();
    let source = Text::from_bytes(alloc, text_at(text, ask.macro_use.span))?;
    let location = location_of(alloc, buffer.name.bytes(), place)?;
    Ok(Syntax {
        kind: kind_for(ask.stands_for.role),
        source,
        location: Some(location),
    })
}

/// What is asked for a use in a buffer; `place` is that of its `#`.
#[tactic(auto, unfolding(crate::specs::Requests::request_of))]
pub fn request_of(
    alloc: Global,
    buffer: &Buffer,
    place: Place,
    ask: &Ask,
) -> Result<Request, AllocError>
    requires place { place ≡ place_of buffer.now.outline.text ask.now.macro_use.span.start }
    requires readable { IsAskReadable buffer.now.outline.text ask.now }
    ensures request { IfOk result (λ request. request ≡ request_of (buffer_seen buffer.now) ask.now) }
    ensures writable { IfOk result IsRequestWritable }
{
    let key = key_of(&buffer.key, ask)?;
    let target = copied(alloc, &ask.target)?;
    let syntax = syntax_of(alloc, buffer, place, ask)?;
    Ok(Request {
        key,
        target,
        role: ask.stands_for.role,
        parts: Parts::Freestanding { syntax },
    })
}
