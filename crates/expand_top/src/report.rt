// What is written to the two streams.
ghost use Rattle.std.specs.Prelude.{◌≡◌, ◌<◌, ◌-◌, ◌^◌, ◌++◌, [], length, map, take, decimal, codes, IfOk, string_bytes};
ghost use Rattle.expansion_model.specs.Requests.{place_of};
ghost use Rattle.std.specs.List.{flat_map};
ghost use Rattle.expand_top.specs.Answers.{message_line, output_of};
ghost use Rattle.expand_top.specs.Lines.{plain_byte, plain, error_line, error_at, prints, faults, refuses, refuses_at, unread, output_seen};

use crate::faults::{limit_text, message_text};
use crate::slices::front;
use expansion_model::{Answer, Message, Place};
use std::alloc::{AllocError, Global};
use swift_base::line_column;

/// What is written to standard output and to standard error, and the status.
#[derive(Drop)]
pub struct Output {
    pub out: Vec<u8>,
    pub err: Vec<u8>,
    pub status: u8,
}

fn plain_byte(byte: u8) -> u8
    ensures { result ≡ plain_byte byte }
{
    if byte < 32 || byte == 127 { 32 } else { byte }
}

fn plain(alloc: Global, bytes: &[u8]) -> Result<Vec<u8>, AllocError>
    ensures { IfOk result (λ v. v.items ≡ plain bytes.now) }
{
    bytes.iter().map(|b| plain_byte(*b)).collect(alloc)
}

fn put_plain(alloc: Global, to: &mut Vec<u8>, bytes: &[u8]) -> Result<(), AllocError>
    ensures { IfOk result (λ _. to.new.items ≡ to.old.items ++ plain bytes.now) }
{
    to.extend_from_slice(&plain(alloc, bytes)?)?;
    Ok(())
}

fn put_number(alloc: Global, to: &mut Vec<u8>, number: u32) -> Result<(), AllocError>
    ensures { IfOk result (λ _. to.new.items ≡ to.old.items ++ decimal number) }
{
    let digits = format!(in alloc; "{number}")?;
    to.extend_from_slice(digits.as_bytes())?;
    Ok(())
}

pub fn error_line(
    alloc: Global,
    name: &[u8],
    line: u32,
    column: u32,
    text: &[u8],
) -> Result<Vec<u8>, AllocError>
    ensures { IfOk result (λ v. v.items ≡ error_line name.now line column text.now) }
{
    let mut bytes = plain(alloc, name)?;
    bytes.extend_from_slice(b":")?;
    put_number(alloc, &mut bytes, line)?;
    bytes.extend_from_slice(b":")?;
    put_number(alloc, &mut bytes, column)?;
    bytes.extend_from_slice(b": error: ")?;
    put_plain(alloc, &mut bytes, text)?;
    bytes.extend_from_slice(b"\n")?;
    Ok(bytes)
}

/// The line of a place.
#[tactic(auto, unfolding(expansion_model::specs::Requests::place_of))]
pub fn error_at(
    alloc: Global,
    name: &[u8],
    source: &[u8],
    place: Place,
    text: &[u8],
) -> Result<Vec<u8>, AllocError>
    requires { place ≡ place_of source.now place.at }
    ensures { IfOk result (λ v. v.items ≡ error_at name.now source.now place.at text.now) }
{
    error_line(alloc, name, place.line, place.column, text)
}

pub fn prints(alloc: Global, out: Vec<u8>) -> Output
    ensures { output_seen result ≡ prints out.items }
{
    Output {
        out,
        err: Vec::new(alloc),
        status: 0,
    }
}

/// Lines of faults, and nothing else.
pub fn faults(alloc: Global, err: Vec<u8>) -> Output
    ensures { output_seen result ≡ faults err.items }
{
    Output {
        out: Vec::new(alloc),
        err,
        status: 1,
    }
}

pub fn refuses(
    alloc: Global,
    name: &[u8],
    line: u32,
    column: u32,
    text: &[u8],
) -> Result<Output, AllocError>
    ensures { IfOk result (λ output. output_seen output ≡ refuses name.now line column text.now) }
{
    let err = error_line(alloc, name, line, column, text)?;
    Ok(faults(alloc, err))
}

/// The refusal at an offset of a text.
pub fn refuses_at(
    alloc: Global,
    name: &[u8],
    source: &[u8],
    at: u32,
    text: &[u8],
) -> Result<Output, AllocError>
    requires { length source.now < 2 ^ 32 - 1 }
    ensures { IfOk result (λ output. output_seen output ≡ refuses_at name.now source.now at text.now) }
{
    let before = front(source, at as usize);
    let (line, column) = line_column(before, before.len() as u32);
    refuses(alloc, name, line, column, text)
}

pub fn unread(alloc: Global, name: &[u8]) -> Result<Output, AllocError>
    ensures { IfOk result (λ output. output_seen output ≡ unread name.now) }
{
    let mut err = Vec::from_slice(alloc, name)?;
    err.extend_from_slice(b": the file could not be read\n")?;
    Ok(Output {
        out: Vec::new(alloc),
        err,
        status: 3,
    })
}

fn put_message(alloc: Global, lines: &mut Vec<u8>, message: &Message) -> Result<(), AllocError>
    ensures { IfOk result (λ _. lines.new.items ≡ lines.old.items ++ message_line message.now) }
{
    let text = message_text(alloc, &message.text)?;
    let name = message.name.bytes();
    let line = error_line(alloc, name, message.line, message.column, &text)?;
    lines.extend_from_slice(&line)?;
    Ok(())
}

fn message_lines(alloc: Global, messages: &[Message]) -> Result<Vec<u8>, AllocError>
    ensures { IfOk result (λ lines. lines.items ≡ flat_map message_line messages.now) }
{
    let mut lines = Vec::new(alloc);
    'messages: for message in messages {
        put_message(alloc, &mut lines, message)?;
    }
    Ok(lines)
}

/// What is written for an answer; a limit stands at the beginning of the file of this name.
pub fn output_of(alloc: Global, name: &[u8], answer: Answer) -> Result<Output, AllocError>
    ensures { IfOk result (λ output. output_seen output ≡ output_of name.now answer) }
{
    match answer {
        Answer::File(bytes) => Ok(prints(alloc, bytes.into_vec())),
        Answer::Faults(messages) => {
            let lines = message_lines(alloc, messages.items())?;
            Ok(faults(alloc, lines))
        }
        Answer::Limit(kind) => refuses(alloc, name, 1, 1, limit_text(kind)),
    }
}
