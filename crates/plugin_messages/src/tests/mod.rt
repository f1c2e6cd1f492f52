// The bytes of an exchange, and the reasons of payloads that spell no message.
ghost use Rattle.plugin_messages.specs.Writable.{IsRequestWritable, IsHostWritable, IsPluginWritable};

mod fixtures;
mod payloads;

use crate::tests::fixtures::{
    attached_parts, attachment_of, diagnostics, text, unplaced_syntax, use_of, use_syntax,
};
use crate::tests::payloads::{
    attached_payload, bad_replies, bad_requests, greeted, greeting, noted_payload, odd_versions,
    reply_payload, use_payload, use_without_location,
};
use crate::{
    HostMessage, PluginMessage, Reason, Refusal, Request, host_of, host_payload, plugin_payload,
    read_host, read_plugin,
};
use std::alloc::{AllocError, Global};
use std::process::Abort;
use std::test::Fail;
use swift_base::Listed;

// The payload is written as these bytes, and read again as the message.
fn asks(rt: &impl Abort, alloc: Global, message: HostMessage, payload: &str) -> Result<(), Fail>
    requires { IsHostWritable message }
{
    let written = host_payload(alloc, &message)?;
    assert_eq!(rt; written.as_slice(), payload.as_bytes());
    let read = read_host(alloc, &written)?;
    assert!(rt; read == message);
    Ok(())
}

fn answers(
    rt: &impl Abort,
    alloc: Global,
    message: PluginMessage,
    payload: &str,
) -> Result<(), Fail>
    requires { IsPluginWritable message }
{
    let written = plugin_payload(alloc, &message)?;
    assert_eq!(rt; written.as_slice(), payload.as_bytes());
    let read = read_plugin(alloc, &written)?;
    let again = plugin_payload(alloc, &read)?;
    assert_eq!(rt; again.as_slice(), payload.as_bytes());
    Ok(())
}

fn asks_for(rt: &impl Abort, alloc: Global, request: &Request, payload: &str) -> Result<(), Fail>
    requires { IsRequestWritable request.now }
{
    asks(rt, alloc, host_of(alloc, request)?, payload)
}

fn asks_for_a_use(rt: &impl Abort, alloc: Global) -> Result<(), Fail> {
    asks_for(
        rt,
        alloc,
        &use_of(alloc, use_syntax(alloc)?)?,
        use_payload(),
    )
}

fn asks_for_an_attachment(rt: &impl Abort, alloc: Global) -> Result<(), Fail> {
    asks_for(
        rt,
        alloc,
        &attachment_of(alloc, attached_parts(alloc)?)?,
        attached_payload(),
    )
}

fn answers_with_text(rt: &impl Abort, alloc: Global) -> Result<(), Fail> {
    let message = PluginMessage::Result {
        text: Some(text(alloc, "(a + b, \"a + b\")")?),
        diagnostics: Listed::from_vec(Vec::new(alloc)),
    };
    answers(rt, alloc, message, reply_payload())
}

fn answers_with_a_note(rt: &impl Abort, alloc: Global) -> Result<(), Fail> {
    let message = PluginMessage::Loaded {
        loaded: true,
        diagnostics: diagnostics(alloc)?,
    };
    answers(rt, alloc, message, noted_payload())
}

#[test]
fn messages_of_the_exchange(rt: HostRuntime) -> Result<(), Fail> {
    asks(
        &rt,
        rt.alloc(),
        HostMessage::GetCapability { version: 7 },
        greeting(),
    )?;
    answers(
        &rt,
        rt.alloc(),
        PluginMessage::Capability { version: 7 },
        greeted(),
    )?;
    asks_for_a_use(&rt, rt.alloc())?;
    asks_for_an_attachment(&rt, rt.alloc())?;
    answers_with_text(&rt, rt.alloc())?;
    answers_with_a_note(&rt, rt.alloc())
}

#[test]
fn lengths_of_the_exchange(rt: HostRuntime) {
    assert_eq!(rt; greeting().len(), 54);
    assert_eq!(rt; use_payload().len(), 319);
    assert_eq!(rt; greeted().len(), 60);
    assert_eq!(rt; reply_payload().len(), 78);
}

#[test]
fn request_without_location(rt: HostRuntime) -> Result<(), Fail> {
    let alloc = rt.alloc();
    asks_for(
        &rt,
        alloc,
        &use_of(alloc, unplaced_syntax(alloc)?)?,
        use_without_location(),
    )
}

// The reason's name, or the label at fault.
fn shown(reason: &Reason) -> &[u8] {
    match reason {
        Reason::NotJson => b"NotJson",
        Reason::NoCase => b"NoCase",
        Reason::UnknownCase => b"UnknownCase",
        Reason::WrongCase => b"WrongCase",
        Reason::BadField(label) => label.bytes(),
    }
}

fn refused<M: Drop>(rt: &impl Abort, read: Result<M, Refusal<Reason>>, expected: &str) {
    match read {
        Err(Refusal::Fault(reason)) => assert_eq!(rt; shown(&reason), expected.as_bytes()),
        _ => panic!(rt; "no reason {expected}"),
    }
}

fn refused_reply(rt: &impl Abort, alloc: Global, line: &str) {
    let (reason, payload) = line.split_once(' ').expect(rt, "a reason and a payload");
    refused(rt, read_plugin(alloc, payload.as_bytes()), reason);
}

fn refused_request(rt: &impl Abort, alloc: Global, line: &str) {
    let (reason, payload) = line.split_once(' ').expect(rt, "a reason and a payload");
    refused(rt, read_host(alloc, payload.as_bytes()), reason);
}

#[test]
fn reasons_of_bad_payloads(rt: HostRuntime) {
    for line in bad_replies().lines() {
        refused_reply(&rt, rt.alloc(), line);
    }
    for line in bad_requests().lines() {
        refused_request(&rt, rt.alloc(), line);
    }
    refused(
        &rt,
        read_plugin(rt.alloc(), b"{\"getCapabilityResult\":\"\xff\"}"),
        "NotJson",
    );
    refused(&rt, read_plugin(rt.alloc(), b""), "NotJson");
}

fn version_of(alloc: Global, payload: &[u8]) -> Option<i64> {
    match read_plugin(alloc, payload) {
        Ok(PluginMessage::Capability { version }) => Some(version),
        _ => None,
    }
}

fn has_version(rt: &impl Abort, alloc: Global, line: &str) {
    let (version, payload) = line.split_once(' ').expect(rt, "a version and a payload");
    assert_eq!(rt;
        version_of(alloc, payload.as_bytes()),
        version.parse::<i64>().ok()
    );
}

#[test]
fn duplicate_keys_and_bounds(rt: HostRuntime) {
    for line in odd_versions().lines() {
        has_version(&rt, rt.alloc(), line);
    }
}

// A capability result whose object has one more label, whose value is this.
fn with_unknown(alloc: Global, value: &str) -> Result<String, AllocError> {
    format!(in alloc;
        "{{\"getCapabilityResult\":{{\"x\":{value},\"capability\":{{\"protocolVersion\":7}}}}}}"
    )
}

// The piece, many times.
fn repeated(alloc: Global, piece: &str, times: u32) -> Result<String, AllocError> {
    let mut text = String::new(alloc);
    for _ in 0..times {
        text.push_str(piece)?;
    }
    Ok(text)
}

fn brackets(alloc: Global, depth: u32) -> Result<String, AllocError> {
    let mut text = repeated(alloc, "[", depth)?;
    text.push_str(repeated(alloc, "]", depth)?.as_str())?;
    Ok(text)
}

// A payload that has this in its midst is refused as no JSON, not for want of memory and not as a message.
fn refused_with(rt: &impl Abort, alloc: Global, value: &str) -> Result<(), AllocError> {
    let payload = with_unknown(alloc, value)?;
    refused(rt, read_plugin(alloc, payload.as_bytes()), "NotJson");
    Ok(())
}

fn refused_in_brackets(rt: &impl Abort, alloc: Global, depth: u32) -> Result<(), AllocError> {
    refused_with(rt, alloc, brackets(alloc, depth)?.as_str())
}

fn refused_alone(
    rt: &impl Abort,
    alloc: Global,
    depth: u32,
    expected: &str,
) -> Result<(), AllocError> {
    let payload = brackets(alloc, depth)?;
    refused(rt, read_plugin(alloc, payload.as_bytes()), expected);
    Ok(())
}

#[test]
fn deep_payloads(rt: HostRuntime) -> Result<(), Fail> {
    let payload = with_unknown(rt.alloc(), brackets(rt.alloc(), 125)?.as_str())?;
    assert_eq!(rt; version_of(rt.alloc(), payload.as_bytes()), Some(7));
    refused_in_brackets(&rt, rt.alloc(), 126)?;
    refused_in_brackets(&rt, rt.alloc(), 100_000)?;
    refused_alone(&rt, rt.alloc(), 127, "NoCase")?;
    refused_alone(&rt, rt.alloc(), 128, "NotJson")?;
    Ok(())
}

// The piece has sixteen bytes, so what is refused is 16 MiB long.
fn refused_at_length(
    rt: &impl Abort,
    alloc: Global,
    head: &str,
    piece: &str,
) -> Result<(), AllocError> {
    let mut value = String::from_str(alloc, head)?;
    value.push_str(repeated(alloc, piece, 1_048_576)?.as_str())?;
    refused_with(rt, alloc, value.as_str())
}

#[test]
fn long_payloads(rt: HostRuntime) -> Result<(), Fail> {
    refused_at_length(&rt, rt.alloc(), "", "1234567890123456")?;
    refused_at_length(&rt, rt.alloc(), "", "[[[[[[[[[[[[[[[[")?;
    refused_at_length(&rt, rt.alloc(), "\"", "sixteen letters.")?;
    refused_at_length(&rt, rt.alloc(), "[", "\"\", \"\", \"\", \"\", ")?;
    Ok(())
}
