//! The sample plug-in: the macros of `sample_macros`, served over standard input and output.
//! For a plug-in of your own, copy this file, and make an entry for each of your macros.
//! What the streams really carry is left to the operating system.
#![tactic(auto)]

use plugin_kit::{Entry, Macro, Registry, Served, serve};
use real_links::{StdSink, StdSource};
use sample_macros::{FuncUniqueMacro, StringifyMacro};
use std::alloc::AllocError;
use std::io;
use std::process::ExitCode;
use swift_base::Text;

/// The status where there is no memory for the registry; `serve` has the same for want of memory.
const NO_MEMORY: u8 = 5;

// Serves the macros under the names by which their declarations ask for them, as
// `= #externalMacro(module: "SampleMacros", type: "StringifyMacro")`.
fn serve_macros(
    rt: &HostRuntime,
    stringify: Box<dyn Macro + Send>,
    func_unique: Box<dyn Macro + Send>,
) -> Result<Served, AllocError> {
    let alloc = rt.alloc();
    let mut entries = Vec::new(alloc);
    entries.push(Entry {
        module: Text::from_bytes(alloc, b"SampleMacros")?,
        type_name: Text::from_bytes(alloc, b"StringifyMacro")?,
        body: stringify,
    })?;
    entries.push(Entry {
        module: Text::from_bytes(alloc, b"SampleMacros")?,
        type_name: Text::from_bytes(alloc, b"FuncUniqueMacro")?,
        body: func_unique,
    })?;
    let registry = Registry::new(entries);

    // Each request is answered before the next is waited for, until the input ends.
    let stdout = rt.stdout();
    let mut requests = StdSource::new(rt.stdin());
    let mut replies = StdSink::new(io::writer(&stdout));
    Ok(serve(alloc, &mut requests, &mut replies, &registry))
}

fn main(rt: HostRuntime) -> ExitCode {
    let Ok(stringify) = Box::new(rt.alloc(), StringifyMacro) else {
        return ExitCode::from(NO_MEMORY);
    };
    let Ok(func_unique) = Box::new(rt.alloc(), FuncUniqueMacro) else {
        return ExitCode::from(NO_MEMORY);
    };
    match serve_macros(&rt, stringify, func_unique) {
        Ok(served) => ExitCode::from(served.status()),
        Err(_) => ExitCode::from(NO_MEMORY),
    }
}
