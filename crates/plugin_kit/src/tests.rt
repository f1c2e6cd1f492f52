//! A plug-in as its host sees it: frames in, frames out.
ghost use Rattle.std.specs.Prelude.{◌≡◌, [], Some, codes, if◌then◌else◌};
ghost use Rattle.std.proofs.Common.{◌∙◌, sym};
ghost use Rattle.plugin_messages.specs.declared.message.PluginMessage.TheVariants as plugin;

use super::*;
use plugin_frames::header;
use plugin_messages::{HostMessage, PluginMessage, Reason};
use std::alloc::{AllocError, Global};
use std::test::Fail;
use swift_base::{Listed, MemSink, MemSource, Text};

// A macro that says one of two words.
#[derive(Drop)]
struct Says {
    first: bool,
}

impl Macro for Says {
    ghost meaning = { λ it asked reply. reply ≡ plugin.Result (Some (if it.first then codes "one" else codes "two")) [] };

    ghost one_reply = { λ it asked a b x y. x ∙ sym y };

    fn expand(&self, alloc: Global, _asked: &HostMessage) -> Result<PluginMessage, AllocError> {
        let word = if self.first { "one" } else { "two" };
        Ok(PluginMessage::Result {
            text: Some(Text::from_bytes(alloc, word.as_bytes())?),
            diagnostics: Listed::from_vec(Vec::new(alloc)),
        })
    }
}

fn entry(
    alloc: Global,
    module: &str,
    type_name: &str,
    body: Box<dyn Macro + Send>,
) -> Result<Entry, AllocError> {
    Ok(Entry {
        module: Text::from_bytes(alloc, module.as_bytes())?,
        type_name: Text::from_bytes(alloc, type_name.as_bytes())?,
        body,
    })
}

// The frames of these payloads.
fn frames(alloc: Global, payloads: &[&str]) -> Result<Vec<u8>, AllocError> {
    let mut bytes = Vec::new(alloc);
    for payload in payloads {
        bytes.extend_from_slice(&header(payload.len() as u64))?;
        bytes.extend_from_slice(payload.as_bytes())?;
    }
    Ok(bytes)
}

const GREETING: &str = "{\"getCapability\":{\"capability\":{\"protocolVersion\":7}}}";

const GREETED: &str = "{\"getCapabilityResult\":{\"capability\":{\"protocolVersion\":7}}}";

const USE: &str =
    "{\"expandFreestandingMacro\":{\"discriminator\":\"$sX145e0_E\",\"macro\":{\"moduleName\":\"SampleMacros\",\"name\":\"stringify\",\"typeName\":\"StringifyMacro\"},\"macroRole\":\"expression\",\"syntax\":{\"kind\":\"expression\",\"location\":{\"column\":9,\"fileID\":\"main/r.swift\",\"fileName\":\"r.swift\",\"line\":2,\"offset\":145},\"source\":\"#stringify(a + b)\"}}}";

const SAID_ONE: &str = "{\"expandMacroResult\":{\"diagnostics\":[],\"expandedSource\":\"one\"}}";

const NO_USE: &str =
    "{\"expandMacroResult\":{\"diagnostics\":[{\"fixIts\":[],\"highlights\":[],\"message\":\"no macro SampleMacros.StringifyMacro in this plug-in\",\"notes\":[],\"position\":{\"fileName\":\"r.swift\",\"offset\":145},\"severity\":\"error\"}]}}";

const ATTACHED: &str =
    "{\"expandAttachedMacro\":{\"attributeSyntax\":{\"kind\":\"attribute\",\"source\":\"@X\"},\"declSyntax\":{\"kind\":\"declaration\",\"location\":{\"column\":4,\"fileID\":\"main/r.swift\",\"fileName\":\"r.swift\",\"line\":1,\"offset\":3},\"source\":\"struct S {}\"},\"discriminator\":\"$sX0p0_E\",\"macro\":{\"moduleName\":\"A\",\"name\":\"X\",\"typeName\":\"XMacro\"},\"macroRole\":\"peer\"}}";

const NO_ATTACHED: &str =
    "{\"expandMacroResult\":{\"diagnostics\":[{\"fixIts\":[],\"highlights\":[],\"message\":\"no macro A.XMacro in this plug-in\",\"notes\":[],\"position\":{\"fileName\":\"r.swift\",\"offset\":3},\"severity\":\"error\"}]}}";

const UNPLACED: &str =
    "{\"expandFreestandingMacro\":{\"discriminator\":\"$sX0e0_E\",\"macro\":{\"moduleName\":\"A\",\"name\":\"p\",\"typeName\":\"PMacro\"},\"macroRole\":\"expression\",\"syntax\":{\"kind\":\"expression\",\"source\":\"#p\"}}}";

const NO_UNPLACED: &str =
    "{\"expandMacroResult\":{\"diagnostics\":[{\"fixIts\":[],\"highlights\":[],\"message\":\"no macro A.PMacro in this plug-in\",\"notes\":[],\"position\":{\"fileName\":\"\",\"offset\":0},\"severity\":\"error\"}]}}";

const LOADING: &str = "{\"loadPluginLibrary\":{\"libraryPath\":\"p\",\"moduleName\":\"A\"}}";

const NOT_LOADED: &str = "{\"loadPluginLibraryResult\":{\"diagnostics\":[],\"loaded\":false}}";

// What serving these bytes answers, and what it writes into a sink with this room.
fn serving(
    alloc: Global,
    registry: &Registry,
    mut source: MemSource,
    room: u32,
    failing: Vec<u64>,
) -> Result<(Served, Vec<u8>), AllocError> {
    let mut sink = MemSink::new(alloc, room, failing)?;
    let served = serve(alloc, &mut source, &mut sink, registry);
    Ok((served, Vec::from_slice(alloc, sink.held())?))
}

fn whole(alloc: Global, bytes: Vec<u8>) -> MemSource {
    MemSource::new(bytes, Vec::new(alloc), Vec::new(alloc))
}

#[test]
fn answers_the_greeting(rt: HostRuntime) -> Result<(), Fail> {
    let alloc = rt.alloc();
    let registry = Registry::new(Vec::new(alloc));
    let asked = frames(alloc, &[GREETING])?;
    assert_eq!(rt;
        asked.as_slice().first_chunk::<8>(),
        Some(&[0x36, 0, 0, 0, 0, 0, 0, 0])
    );
    let (served, written) = serving(alloc, &registry, whole(alloc, asked), 68, Vec::new(alloc))?;
    assert_eq!(rt; served, Served::Ended { requests: 1 });
    assert_eq!(rt; served.status(), 0);
    assert_eq!(rt;
        written.as_slice().first_chunk::<8>(),
        Some(&[0x3c, 0, 0, 0, 0, 0, 0, 0])
    );
    assert_eq!(rt; written.get(8..), Some(GREETED.as_bytes()));
    Ok(())
}

#[test]
fn serve_nothing(rt: HostRuntime) -> Result<(), Fail> {
    let alloc = rt.alloc();
    let registry = Registry::new(Vec::new(alloc));
    let source = whole(alloc, Vec::new(alloc));
    let (served, written) = serving(alloc, &registry, source, 0, Vec::new(alloc))?;
    assert_eq!(rt; served, Served::Ended { requests: 0 });
    assert!(rt; written.is_empty());
    Ok(())
}

#[test]
fn serve_a_cut_frame(rt: HostRuntime) -> Result<(), Fail> {
    let alloc = rt.alloc();
    let registry = Registry::new(Vec::new(alloc));
    let source = whole(alloc, Vec::from_slice(alloc, &[0x36, 0, 0, 0, 0])?);
    let (served, written) = serving(alloc, &registry, source, 0, Vec::new(alloc))?;
    assert_eq!(rt; served, Served::Cut { requests: 0 });
    assert_eq!(rt; served.status(), 1);
    assert!(rt; written.is_empty());
    Ok(())
}

#[test]
fn serve_no_case(rt: HostRuntime) -> Result<(), Fail> {
    let alloc = rt.alloc();
    let registry = Registry::new(Vec::new(alloc));
    let source = whole(alloc, frames(alloc, &["{}"])?);
    let (served, written) = serving(alloc, &registry, source, 0, Vec::new(alloc))?;
    assert_eq!(rt;
        served,
        Served::BadRequest {
            place: 0,
            reason: Reason::NoCase
        }
    );
    assert_eq!(rt; served.status(), 7);
    assert!(rt; written.is_empty());
    Ok(())
}

// Each of the payloads is answered by the one that stands beside it.
fn exchanges(
    alloc: Global,
    registry: &Registry,
    asked: &[&str],
    piece: u32,
) -> Result<(Served, Vec<u8>), AllocError> {
    let bytes = frames(alloc, asked)?;
    let pieces = Vec::from_elem(alloc, piece, bytes.len())?;
    let source = MemSource::new(bytes, pieces, Vec::new(alloc));
    serving(alloc, registry, source, 4096, Vec::new(alloc))
}

#[test]
fn registry_calls(rt: HostRuntime) -> Result<(), Fail> {
    let alloc = rt.alloc();
    let mut entries = Vec::new(alloc);
    let body = Box::new(alloc, Says { first: false })?;
    entries.push(entry(alloc, "SampleMacros", "OtherMacro", body)?)?;
    let body = Box::new(alloc, Says { first: true })?;
    entries.push(entry(alloc, "SampleMacros", "StringifyMacro", body)?)?;
    let body = Box::new(alloc, Says { first: false })?;
    entries.push(entry(alloc, "SampleMacros", "StringifyMacro", body)?)?;
    let registry = Registry::new(entries);
    let asked = [GREETING, USE, ATTACHED, UNPLACED, LOADING];
    let answers = frames(
        alloc,
        &[GREETED, SAID_ONE, NO_ATTACHED, NO_UNPLACED, NOT_LOADED],
    )?;
    for piece in [1, 7, 4096] {
        let (served, written) = exchanges(alloc, &registry, &asked, piece)?;
        assert_eq!(rt; served, Served::Ended { requests: 5 });
        assert!(rt; written == answers, "in pieces of {piece}");
    }
    Ok(())
}

#[test]
fn serving_calls(rt: HostRuntime) -> Result<(), Fail> {
    let alloc = rt.alloc();
    let registry = Registry::new(Vec::new(alloc));
    let bytes = frames(alloc, &[GREETING, USE])?;
    let both = frames(alloc, &[GREETED, NO_USE])?;
    let first = frames(alloc, &[GREETED])?;

    // A request is answered before the next read, which fails.
    let pieces = Vec::from_elem(alloc, 62, 1)?;
    let source = MemSource::new(bytes.clone()?, pieces, [1].to_vec(alloc)?);
    let (served, written) = serving(alloc, &registry, source, 4096, Vec::new(alloc))?;
    assert_eq!(rt; served, Served::ReadFault);
    assert!(rt; written == first);

    let source = whole(alloc, bytes.clone()?);
    let (served, written) = serving(alloc, &registry, source, 70, Vec::new(alloc))?;
    assert_eq!(rt; served, Served::WriteFault);
    assert!(rt; both.get(..70) == Some(written.as_slice()));

    let source = whole(alloc, bytes.clone()?);
    let (served, written) = serving(alloc, &registry, source, 4096, [1].to_vec(alloc)?)?;
    assert_eq!(rt; served, Served::WriteFault);
    assert!(rt; written == first);

    let mut long = bytes.clone()?;
    long.extend_from_slice(&[1, 0, 0, 1, 0, 0, 0, 0])?;
    let (served, written) = serving(alloc, &registry, whole(alloc, long), 4096, Vec::new(alloc))?;
    assert_eq!(rt; served, Served::TooLong(16_777_217));
    assert!(rt; written == both);

    let bad = frames(alloc, &[GREETING, "[]", USE])?;
    let (served, written) = serving(alloc, &registry, whole(alloc, bad), 4096, Vec::new(alloc))?;
    assert_eq!(rt;
        served,
        Served::BadRequest {
            place: 1,
            reason: Reason::NoCase
        }
    );
    assert!(rt; written == first);
    Ok(())
}

#[test]
fn statuses(rt: HostRuntime) {
    for (served, status) in [
        (Served::Ended { requests: 2 }, 0),
        (Served::Cut { requests: 2 }, 1),
        (Served::ReadFault, 3),
        (Served::WriteFault, 4),
        (Served::Memory, 5),
        (Served::TooLong(16_777_217), 6),
        (
            Served::BadRequest {
                place: 1,
                reason: Reason::NotJson,
            },
            7,
        ),
        (Served::Overrun, 8),
    ] {
        assert_eq!(rt; served.status(), status);
    }
}
