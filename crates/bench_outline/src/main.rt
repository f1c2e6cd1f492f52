//! The program `bench_outline`: the time that tokens and an outline take, by the machine's clock.
//! Given a file's name it prints a line: the microseconds of `lex` and of `parse_file` on what the file holds.
//! Given nothing it prints how many tokens and declarations a small text has.
#![tactic(auto)]

use decl_parser::{LONGEST_SOURCE, parse_file};
use real_links::StdFiles;
use std::alloc::Global;
use std::process::ExitCode;
use std::time::Instant;
use std::{env, io};
use swift_base::Files;
use swift_lexer::lex;

const SMALL: &[u8] = b"struct S { let a = (1, \"two\") }\nfunc f<T>() -> T { g() }\n";

fn microseconds(rt: &HostRuntime, begun: Instant) -> Option<u128> {
    Some(begun.elapsed(rt).ok()?.as_micros())
}

/// How many tokens and how many declarations the text has.
fn counts(alloc: Global, text: &[u8]) -> Option<(usize, usize)> {
    if text.len() > LONGEST_SOURCE {
        return None;
    }
    let tokens = lex(alloc, text).ok()?;
    let outline = parse_file(alloc, text).ok()?;
    Some((tokens.len(), outline.items.len()))
}

fn times(rt: &HostRuntime, text: &[u8]) -> Option<(u128, u128)> {
    if text.len() > LONGEST_SOURCE {
        return None;
    }
    let begun = Instant::now(rt).ok()?;
    let _tokens = lex(rt.alloc(), text).ok()?;
    let lexed = microseconds(rt, begun)?;
    let begun = Instant::now(rt).ok()?;
    let _outline = parse_file(rt.alloc(), text).ok()?;
    Some((lexed, microseconds(rt, begun)?))
}

fn read(rt: HostRuntime, name: &str) -> Option<Vec<u8>> {
    let mut files = StdFiles::new(rt);
    files.read(rt.alloc(), name, LONGEST_SOURCE as u32).ok()
}

fn main(rt: HostRuntime) -> io::Result<ExitCode> {
    let mut words = env::args(&rt)?.skip(1);
    let Some(name) = words.next() else {
        let (tokens, declarations) = counts(rt.alloc(), SMALL).unwrap_or((0, 0));
        println!(rt; "{tokens} tokens, {declarations} declarations")?;
        return Ok(ExitCode::SUCCESS);
    };
    let Some(text) = read(rt, name.as_str()) else {
        return Ok(ExitCode::FAILURE);
    };
    let Some((lexed, parsed)) = times(&rt, &text) else {
        return Ok(ExitCode::FAILURE);
    };
    println!(rt; "{lexed} {parsed}")?;
    Ok(ExitCode::SUCCESS)
}
