//! The program `expander_cli`: expands the macro uses of a Swift file by asking plug-in processes.
//! All that it does is the call `run` of `expand_top`, over real files, standard streams and child processes.
//! What these really carry is left to the operating system.
#![tactic(auto)]

use expand_top::{Ended, run};
use real_links::{ChildStarter, StdFiles, StdSink};
use std::alloc::AllocError;
use std::process::ExitCode;
use std::{env, io};
use swift_tree::Outline;

// The words after the program's name; none where one isn't UTF-8, so that the usage text is printed.
fn words(rt: &HostRuntime) -> Result<Vec<String>, AllocError> {
    let mut words = Vec::new(rt.alloc());
    let Ok(args) = env::args(rt) else {
        return Ok(words);
    };
    for word in args.skip(1) {
        words.push(word)?;
    }
    Ok(words)
}

// The process ends, and its memory with it: what was read doesn't have to be taken apart.
fn leave(source: Option<Outline>) {
    if let Some(Outline { items, groups, .. }) = source {
        items.leak();
        groups.leak();
    }
}

fn main(rt: HostRuntime) -> ExitCode {
    let Ok(words) = words(&rt) else {
        return ExitCode::from(5);
    };
    let mut files = StdFiles::new(rt);
    let (stdout, stderr) = (rt.stdout(), rt.stderr());
    let mut out = StdSink::new(io::writer(&stdout));
    let mut err = StdSink::new(io::writer(&stderr));
    let mut starter = ChildStarter::new(rt);
    let ended = run(rt, &words, &mut files, &mut out, &mut err, &mut starter);
    let Ended { status, source, .. } = ended;
    leave(source);
    ExitCode::from(status)
}
