//! Headers and pieces as a plug-in sends them.

ghost use Rattle.std.specs.Prelude.{◌<◌};

use super::*;
use std::alloc::{AllocError, Global};
use std::test::Fail;

// Feeds the piece again where memory was wanting, as a caller may: the reader is as before.
fn fed(
    reader: &mut FrameReader,
    piece: &[u8],
    out: &mut Vec<Vec<u8>>,
) -> Result<(), Refusal<FrameFault>> {
    match reader.feed(piece, out) {
        Err(Refusal::Memory) => reader.feed(piece, out),
        answer => answer,
    }
}

// The frames of `abc`, of no bytes and of 300 bytes.
fn three_frames(alloc: Global) -> Result<Vec<u8>, AllocError> {
    let mut bytes = Vec::new(alloc);
    bytes.extend_from_slice(&header(3))?;
    bytes.extend_from_slice(b"abc")?;
    bytes.extend_from_slice(&header(0))?;
    bytes.extend_from_slice(&header(300))?;
    bytes.extend_from_slice(&[7; 300])?;
    Ok(bytes)
}

fn are_three(out: &[Vec<u8>]) -> bool {
    match out {
        [first, second, third] => {
            first.as_slice() == b"abc".as_slice()
                && second.is_empty()
                && third.as_slice() == [7; 300].as_slice()
        }
        _ => false,
    }
}

#[test]
fn header_spells_a_length(rt: HostRuntime) {
    for (len, bytes) in [
        (0, [0, 0, 0, 0, 0, 0, 0, 0]),
        (54, [0x36, 0, 0, 0, 0, 0, 0, 0]),
        (319, [0x3f, 1, 0, 0, 0, 0, 0, 0]),
        (u64::MAX, [255, 255, 255, 255, 255, 255, 255, 255]),
        (0x0102_0304_0506_0708, [8, 7, 6, 5, 4, 3, 2, 1]),
    ] {
        assert!(rt; header(len) == bytes, "of {len}");
    }
}

#[test]
fn pieces_do_not_matter(rt: HostRuntime) -> Result<(), Fail> {
    let bytes = three_frames(rt.alloc())?;
    for len in 1..=bytes.len() {
        let mut reader = FrameReader::new(rt.alloc());
        let mut out = Vec::new(rt.alloc());
        for piece in bytes.chunks(len) {
            assert!(rt;
                fed(&mut reader, piece, &mut out) == Ok(()),
                "in pieces of {len}"
            );
        }
        assert!(rt; are_three(&out), "in pieces of {len}");
        assert!(rt; !reader.waiting(), "in pieces of {len}");
    }
    Ok(())
}

#[test]
fn frame_above_the_limit(rt: HostRuntime) -> Result<(), Fail> {
    let mut reader = FrameReader::new(rt.alloc());
    let mut out = Vec::new(rt.alloc());
    let mut bytes = three_frames(rt.alloc())?;
    bytes.extend_from_slice(&[1, 0, 0, 1, 0, 0, 0])?;
    assert!(rt; fed(&mut reader, &bytes, &mut out) == Ok(()));
    assert!(rt; reader.waiting());
    let met = Err(Refusal::Fault(FrameFault::TooLong(16_777_217)));
    assert!(rt; fed(&mut reader, &[0, 9], &mut out) == met);
    let dead = Err(Refusal::Fault(FrameFault::Dead(16_777_217)));
    assert!(rt; reader.feed(&[], &mut out) == dead);
    assert!(rt; reader.feed(&bytes, &mut out) == dead);
    assert!(rt; are_three(&out) && !reader.waiting());
    Ok(())
}

// One payload in pieces of `len` bytes, after its header.
fn is_one_payload(
    rt: &HostRuntime,
    payload: &Vec<u8>,
    len: usize,
) -> Result<bool, Refusal<FrameFault>>
    requires { 0 < len }
{
    let mut reader = FrameReader::new(rt.alloc());
    let mut out = Vec::new(rt.alloc());
    fed(&mut reader, &header(payload.len() as u64), &mut out)?;
    for piece in payload.chunks(len) {
        if !out.is_empty() || !reader.waiting() {
            return Ok(false);
        }
        fed(&mut reader, piece, &mut out)?;
    }
    Ok(out.len() == 1 && !reader.waiting() && out[0].as_slice() == payload.as_slice())
}

#[test]
fn frame_at_the_limit(rt: HostRuntime) -> Result<(), Fail> {
    let largest = Vec::from_elem(rt.alloc(), 5u8, 16_777_216)?;
    assert!(rt; is_one_payload(&rt, &largest, 16_777_216) == Ok(true));
    let long = Vec::from_elem(rt.alloc(), 6u8, 1_048_576)?;
    assert!(rt; is_one_payload(&rt, &long, 4096) == Ok(true));
    assert!(rt;
        is_one_payload(&rt, &long, 1) == Ok(true),
        "a byte at a time"
    );
    Ok(())
}
