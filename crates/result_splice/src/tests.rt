// Edits of `abcdef`.
ghost use Rattle.std.specs.Prelude.{◌≡◌, IfOk};

use crate::{Edit, PieceOf, apply, edited_text};
use std::alloc::{AllocError, Global};
use std::test::Fail;
use swift_base::{Span, Text};

fn edit(alloc: Global, start: u32, end: u32, bytes: &[u8]) -> Result<Edit, AllocError>
    ensures { IfOk result (λ edit. (edit.start ≡ start) × (edit.end ≡ end)) }
{
    Ok(Edit {
        start,
        end,
        bytes: Text::from_bytes(alloc, bytes)?,
    })
}

// The edits of one row: places, and what stands there afterwards.
fn edits_of(alloc: Global, rows: &[(u32, u32, &[u8])]) -> Result<Vec<Edit>, AllocError> {
    let mut edits = Vec::new(alloc);
    for (start, end, bytes) in rows {
        edits.push(edit(alloc, *start, *end, bytes)?)?;
    }
    Ok(edits)
}

fn made(alloc: Global, rows: &[(u32, u32, &[u8])]) -> Result<Vec<u8>, AllocError> {
    let edits = edits_of(alloc, rows)?;
    edited_text(alloc, b"abcdef", edits)
}

// The parts' places, a fresh part as its length from 100 on.
fn places(alloc: Global, parts: &[PieceOf]) -> Result<Vec<(u32, u32)>, AllocError> {
    let mut places = Vec::new(alloc);
    for part in parts {
        places.push(place(part))?;
    }
    Ok(places)
}

fn place(part: &PieceOf) -> (u32, u32) {
    match part {
        PieceOf::Kept(Span { start, end }) => (*start, *end),
        PieceOf::Fresh(_) => (100, 100),
    }
}

#[test]
fn edits_keep_the_rest(rt: HostRuntime) -> Result<(), Fail> {
    let alloc = rt.alloc();
    let pieces = apply(alloc, b"abcdef", vec![in alloc; edit(alloc, 2, 3, b"X")?]?)?;
    assert_eq!(rt;
        places(alloc, &pieces.parts)?.as_slice(),
        [(0, 2), (100, 100), (3, 6)].as_slice()
    );
    assert_eq!(rt;
        pieces.bytes(alloc, b"abcdef")?.as_slice(),
        b"abXdef".as_slice()
    );
    Ok(())
}

#[test]
fn edits_in_any_order(rt: HostRuntime) -> Result<(), Fail> {
    let alloc = rt.alloc();
    assert_eq!(rt; made(alloc, &[])?.as_slice(), b"abcdef".as_slice());
    assert_eq!(rt;
        made(alloc, &[(4, 5, b"Y"), (1, 2, b"X")])?.as_slice(),
        b"aXcdYf".as_slice()
    );
    assert_eq!(rt;
        made(alloc, &[(0, 1, b"X"), (5, 6, b"Y")])?.as_slice(),
        b"XbcdeY".as_slice()
    );
    assert_eq!(rt;
        made(alloc, &[(3, 5, b"Y"), (1, 3, b"X")])?.as_slice(),
        b"aXYf".as_slice()
    );
    assert_eq!(rt;
        made(alloc, &[(1, 3, b""), (4, 5, b"long er")])?.as_slice(),
        b"adlong erf".as_slice()
    );
    Ok(())
}

#[test]
fn what_is_put_in(rt: HostRuntime) -> Result<(), Fail> {
    let alloc = rt.alloc();
    assert_eq!(rt;
        made(alloc, &[(2, 2, b"1"), (2, 2, b"2"), (1, 1, b"0")])?.as_slice(),
        b"a0b12cdef".as_slice()
    );
    assert_eq!(rt;
        made(alloc, &[(2, 3, b"X"), (2, 2, b"1"), (3, 3, b"2")])?.as_slice(),
        b"ab1X2def".as_slice()
    );
    assert_eq!(rt;
        made(alloc, &[(6, 6, b"Y"), (0, 0, b"X")])?.as_slice(),
        b"XabcdefY".as_slice()
    );
    Ok(())
}
