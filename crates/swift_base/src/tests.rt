use super::*;
use std::alloc::{AllocError, Global};
use std::test::Fail;

#[test]
fn line_and_column(rt: HostRuntime) -> Result<(), Fail> {
    assert_eq!(rt; line_column(b"a\nbc", 3), (2, 2));
    assert_eq!(rt; line_column(b"a\nbc", 0), (1, 1));
    assert_eq!(rt; line_column(b"a\nbc", 1), (1, 2));
    assert_eq!(rt; line_column(b"a\nbc", 2), (2, 1));
    assert_eq!(rt; line_column(b"", 0), (1, 1));
    Ok(())
}

fn text(alloc: Global, of: &str) -> Result<Text, AllocError> {
    Text::from_bytes(alloc, of.as_bytes())
}

#[test]
fn outside_in_memory_sink(rt: HostRuntime) -> Result<(), Fail> {
    let alloc = rt.alloc();
    assert_eq!(rt; text(alloc, "ab")?.bytes(), b"ab".as_slice());
    let mut sink = MemSink::new(alloc, 3, Vec::new(alloc))?;
    assert_eq!(rt; sink.write(b"abcd"), Ok(3));
    assert_eq!(rt; sink.write(b"abcd"), Err(WriteFault::Failed));
    assert_eq!(rt; sink.held(), b"abc".as_slice());
    assert_eq!(rt; sink.write(b""), Ok(0));
    let mut listed = MemSink::new(alloc, 9, [1].to_vec(alloc)?)?;
    assert_eq!(rt; write_all(&mut listed, b"ab"), Ok(()));
    assert_eq!(rt; write_all(&mut listed, b"cd"), Err(WriteFault::Failed));
    assert_eq!(rt; write_all(&mut listed, b"ef"), Ok(()));
    assert_eq!(rt; listed.held(), b"abef".as_slice());
    Ok(())
}

#[test]
fn outside_in_memory_source(rt: HostRuntime) -> Result<(), Fail> {
    let alloc = rt.alloc();
    let pieces = [2, 0].to_vec(alloc)?;
    let mut source = MemSource::new(b"abcdef".to_vec(alloc)?, pieces, [2].to_vec(alloc)?);
    let mut room = [0u8; 4];
    assert_eq!(rt; source.read(&mut room), Ok(2));
    assert_eq!(rt; source.read(&mut room), Ok(1));
    assert_eq!(rt; source.read(&mut room), Err(ReadFault::Failed));
    assert_eq!(rt; source.read(&mut room), Ok(3));
    assert_eq!(rt; room, *b"def\0");
    assert_eq!(rt; source.read(&mut room), Ok(0));
    Ok(())
}

#[test]
fn outside_in_memory_files(rt: HostRuntime) -> Result<(), Fail> {
    let alloc = rt.alloc();
    let mut list = Vec::new(alloc);
    list.push((text(alloc, "a")?, text(alloc, "xyz")?))?;
    list.push((text(alloc, "a")?, text(alloc, "second")?))?;
    let mut files = MemFiles::new(alloc, list, [3].to_vec(alloc)?);
    let read = files.read(alloc, "a", 3).map_err(|_| "a file")?;
    assert_eq!(rt; read.as_slice(), b"xyz".as_slice());
    assert!(rt; matches!(&files.read(alloc, "a", 2), Err(FileFault::Larger)));
    assert!(rt; matches!(&files.read(alloc, "b", 2), Err(FileFault::Failed)));
    assert!(rt; matches!(&files.read(alloc, "a", 9), Err(FileFault::Failed)));
    assert!(rt; matches!(&files.read(alloc, "a", 9), Ok(_)));
    assert_eq!(rt; files.names().len(), 5);
    Ok(())
}

#[test]
fn outside_in_memory_starter(rt: HostRuntime) -> Result<(), Fail> {
    let alloc = rt.alloc();
    let script = MemScript {
        gives: text(alloc, "ok")?,
        pieces: Listed::from_vec(Vec::new(alloc)),
        failing_reads: Listed::from_vec(Vec::new(alloc)),
        failing_writes: Listed::from_vec(Vec::new(alloc)),
        room: 2,
    };
    let mut links = Vec::new(alloc);
    links.push(script)?;
    let mut starter = MemStarter::new(alloc, links, [0].to_vec(alloc)?);
    assert!(rt; matches!(&starter.start(alloc, "first"), Err(StartFault::Failed)));
    assert_eq!(rt; starter.faults(), 1);
    let (mut writer, mut reader) = starter.start(alloc, "plug").map_err(|_| "a link")?;
    assert_eq!(rt; writer.write(b"abc"), Ok(2));
    let mut room = [0u8; 4];
    assert_eq!(rt; reader.read(&mut room), Ok(2));
    assert!(rt; matches!(&starter.start(alloc, "more"), Err(StartFault::Failed)));
    assert_eq!(rt; starter.faults(), 2);
    Ok(())
}

#[test]
fn short_lists(rt: HostRuntime) -> Result<(), Fail> {
    let alloc = rt.alloc();
    for values in [b"".as_slice(), b"a", b"ab", b"abc"] {
        let small = SmallList::from_vec(alloc, Vec::from_slice(alloc, values)?)?;
        assert_eq!(rt; small.items(), values);
        assert_eq!(rt; SmallList::from_slice(alloc, values)?.items(), values);
        let thin = ThinList::from_vec(alloc, Vec::from_slice(alloc, values)?)?;
        assert_eq!(rt; thin.items(), values);
    }
    Ok(())
}
