//! The program `bench_messages`: the time that frames and messages take, by the machine's clock.
//! Given `frames` or `messages` and a number of bytes it prints a line for each call: its name and microseconds.
//! Given nothing it takes one small reply through the same calls, and prints what comes out.
#![tactic(auto)]

ghost use Rattle.std.specs.Prelude.{◌<◌, IfSome};
ghost use Rattle.plugin_messages.specs.Writable.{IsPluginWritable};

use plugin_frames::{FrameReader, header};
use plugin_messages::{PluginMessage, plugin_payload, read_plugin};
use std::alloc::Global;
use std::process::ExitCode;
use std::time::Instant;
use std::{env, io};
use swift_base::{Listed, Text};

const LINE: &str = "let title = \"number, spelled out\"\n";

fn microseconds(rt: &HostRuntime, begun: Instant) -> Option<u128> {
    Some(begun.elapsed(rt).ok()?.as_micros())
}

fn source(alloc: Global, lines: usize) -> Option<String> {
    let mut text = String::new(alloc);
    for _ in 0..lines {
        text.push_str(LINE).ok()?;
    }
    Some(text)
}

fn reply(alloc: Global, text: &str) -> Option<PluginMessage>
    ensures { IfSome result IsPluginWritable }
{
    Some(PluginMessage::Result {
        text: Some(Text::from_bytes(alloc, text.as_bytes()).ok()?),
        diagnostics: Listed::from_vec(Vec::new(alloc)),
    })
}

fn frame_of(alloc: Global, payload: &[u8]) -> Option<Vec<u8>> {
    let mut frame = Vec::from_slice(alloc, &header(payload.len() as u64)).ok()?;
    frame.extend_from_slice(payload).ok()?;
    Some(frame)
}

// The first payload of a frame that is fed in pieces of this width.
fn fed(alloc: Global, frame: &[u8], width: usize) -> Option<Vec<u8>>
    requires { 0 < width }
{
    let mut reader = FrameReader::new(alloc);
    let mut payloads = Vec::new(alloc);
    for piece in frame.chunks(width) {
        reader.feed(piece, &mut payloads).ok()?;
    }
    payloads.pop()
}

fn time_frames(rt: &HostRuntime, size: usize) -> Option<(u128, u128)> {
    let alloc = rt.alloc();
    let mut payload = Vec::new(alloc);
    payload.resize(size, b'a').ok()?;
    let frame = frame_of(alloc, &payload)?;
    let begun = Instant::now(rt).ok()?;
    let whole = fed(alloc, &frame, 16_777_224)?;
    let at_once = microseconds(rt, begun)?;
    let begun = Instant::now(rt).ok()?;
    let pieced = fed(alloc, &frame, 1)?;
    let by_bytes = microseconds(rt, begun)?;
    if whole == payload && pieced == payload {
        Some((at_once, by_bytes))
    } else {
        None
    }
}

fn time_messages(rt: &HostRuntime, size: usize) -> Option<(u128, u128)> {
    let alloc = rt.alloc();
    let message = reply(alloc, source(alloc, size / LINE.len())?.as_str())?;
    let begun = Instant::now(rt).ok()?;
    let payload = plugin_payload(alloc, &message).ok()?;
    let written = microseconds(rt, begun)?;
    let begun = Instant::now(rt).ok()?;
    let _message = read_plugin(alloc, &payload).ok()?;
    Some((written, microseconds(rt, begun)?))
}

// The length of a small reply's payload that went through a frame in pieces and is read again as it was.
fn round_trip(alloc: Global) -> Option<usize> {
    let payload = plugin_payload(alloc, &reply(alloc, LINE)?).ok()?;
    let frame = frame_of(alloc, &payload)?;
    let message = read_plugin(alloc, &fed(alloc, &frame, 1)?).ok()?;
    let again = plugin_payload(alloc, &message).ok()?;
    if again == payload {
        Some(payload.len())
    } else {
        None
    }
}

fn main(rt: HostRuntime) -> io::Result<ExitCode> {
    let mut words = env::args(&rt)?.skip(1);
    let Some(what) = words.next() else {
        let length = round_trip(rt.alloc()).unwrap_or(0);
        println!(rt; "{length} bytes of payload, framed, and read again")?;
        return Ok(ExitCode::SUCCESS);
    };
    let size = words.next().and_then(|word| word.parse().ok()).unwrap_or(0);
    let times = match what.as_str() {
        "frames" => time_frames(&rt, size),
        "messages" => time_messages(&rt, size),
        _ => None,
    };
    let Some((first, second)) = times else {
        return Ok(ExitCode::FAILURE);
    };
    println!(rt; "{first} {second}")?;
    Ok(ExitCode::SUCCESS)
}
