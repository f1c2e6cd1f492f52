// Places in a text.
ghost use Rattle.std.specs.Prelude.{◌≡◌, ◌==◌, ◌≤◌, ◌<◌, ◌+◌, ◌-◌, ◌^◌, length, take, if◌then◌else◌};
ghost use Rattle.swift_base.specs.Lines.{line_behind, column_behind};

/// A part of a text: offsets in bytes from 0, `end` exclusive.
#[derive(Clone, Copy, Debug, PartialEq, Eq)]
pub struct Span {
    pub start: u32,
    pub end: u32,
}

const LINE_FEED: u8 = b'\n';

/// The line and the column of an offset, both from 1; a column counts bytes.
pub fn line_column(bytes: &[u8], offset: u32) -> (u32, u32)
    requires inside { offset ≤ length bytes.now }
    requires counts { offset < 2 ^ 32 - 1 }
    ensures { result ≡ (line_behind (take offset bytes.now), column_behind (take offset bytes.now)) }
{
    let before = &bytes[..offset as usize];
    (line_feeds(before) as u32 + 1, last_line(before) as u32 + 1)
}

fn line_feeds(before: &[u8]) -> usize
    ensures value { result + 1 ≡ line_behind before.now }
    ensures bound { result ≤ length before.now }
{
    before.iter().filter(|b| **b == LINE_FEED).count()
}

fn last_line(before: &[u8]) -> usize
    ensures value { result + 1 ≡ column_behind before.now }
    ensures bound { result ≤ length before.now }
{
    let mut columns = 0usize;
    for byte in before {
        columns = one_further(columns, *byte);
    }
    columns
}

fn one_further(columns: usize, byte: u8) -> usize
    requires { columns < 2 ^ 64 - 1 }
    ensures { result ≡ (if byte == LINE_FEED then 0 else columns + 1) }
{
    if byte == LINE_FEED { 0 } else { columns + 1 }
}
