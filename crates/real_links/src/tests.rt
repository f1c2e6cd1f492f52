use super::*;
use std::fs;
use std::test::Fail;
use swift_base::{
    FileFault, Files, ReadFault, Sink, Source, StartFault, Starter, WriteFault, write_all,
};

#[test]
fn a_file_is_read_up_to_the_limit(rt: HostRuntime) -> Result<(), Fail> {
    let alloc = rt.alloc();
    fs::write(&rt, "a.swift", "let x = 1\n")?;
    let mut files = StdFiles::new(rt.clone()?);
    let whole = files.read(alloc, "a.swift", 10).map_err(|_| "a file")?;
    assert_eq!(rt; whole.as_slice(), b"let x = 1\n".as_slice());
    assert!(rt; matches!(&files.read(alloc, "a.swift", 9), Err(FileFault::Larger)));
    assert!(rt; matches!(&files.read(alloc, "b.swift", 9), Err(FileFault::Failed)));
    assert!(rt; matches!(&files.read(alloc, ".", 9), Err(FileFault::Failed)));
    Ok(())
}

#[test]
fn cat_gives_back_what_it_is_given(rt: HostRuntime) -> Result<(), Fail> {
    let alloc = rt.alloc();
    let mut starter = ChildStarter::new(rt.clone()?);
    let (mut writer, mut reader) = starter.start(alloc, "cat").map_err(|_| "a child")?;
    assert_eq!(rt; write_all(&mut writer, b"to and fro"), Ok(()));
    assert_eq!(rt; writer.write(b""), Ok(0));
    assert_eq!(rt; writer.write(b"x"), Err(WriteFault::Failed));
    let mut all = Vec::new(alloc);
    let mut room = [0u8; 4];
    for _ in 0..20 {
        let count = reader.read(&mut room).map_err(|_| "a piece")?;
        if count == 0 {
            break;
        }
        all.extend_from_slice(&room[..count])?;
    }
    assert_eq!(rt; all.as_slice(), b"to and fro".as_slice());
    assert_eq!(rt; reader.read(&mut room), Ok(0));
    assert_eq!(rt; starter.faults(), 0);
    Ok(())
}

#[test]
fn a_program_that_is_not_there_is_a_fault(rt: HostRuntime) -> Result<(), Fail> {
    let mut starter = ChildStarter::new(rt.clone()?);
    assert!(rt;
        matches!(
            &starter.start(rt.alloc(), "no such program"),
            Err(StartFault::Failed)
        )
    );
    assert_eq!(rt; starter.faults(), 1);
    Ok(())
}

#[test]
fn a_child_that_ends_early_fails_the_write(rt: HostRuntime) -> Result<(), Fail> {
    let mut starter = ChildStarter::new(rt.clone()?);
    let (mut writer, mut reader) = starter.start(rt.alloc(), "true").map_err(|_| "a child")?;
    let mut room = [0u8; 4];
    assert_eq!(rt; reader.read(&mut room), Ok(0));
    // More than a pipe holds, since a child's output may be closed a moment before its input is.
    let late = vec![in rt.alloc(); b'x'; 131_072]?;
    assert_eq!(rt; write_all(&mut writer, &late), Err(WriteFault::Failed));
    Ok(())
}

#[test]
fn a_child_that_is_left_running_is_ended(rt: HostRuntime) -> Result<(), Fail> {
    let mut starter = ChildStarter::new(rt.clone()?);
    let (writer, reader) = starter.start(rt.alloc(), "yes").map_err(|_| "a child")?;
    drop(reader);
    drop(writer);
    Ok(())
}

#[test]
fn a_directory_can_not_be_read(rt: HostRuntime) -> Result<(), Fail> {
    let file = fs::open(&rt, ".")?;
    let mut source = StdSource::new(file);
    let mut room = [0u8; 4];
    assert_eq!(rt; source.read(&mut room), Err(ReadFault::Failed));
    Ok(())
}
