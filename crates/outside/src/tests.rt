//! What no clause says: that the calls succeed where memory is ample, and that the host's files and output
//! are reached.
use super::{
    Bytes, FILE_LIMIT, Failed, FileFault, Files, HostFiles, HostOut, Listed, MemFiles, MemSink,
    NamedFile, NoMemory, Sink, SureFiles, read_all, write_all,
};
use std::alloc::Global;
use std::test::Fail;
use std::{env, fs, process};

fn named(alloc: Global, name: &[u8], bytes: &[u8]) -> Result<NamedFile, NoMemory> {
    Ok(NamedFile {
        name: Bytes::of(alloc, name)?,
        bytes: Bytes::of(alloc, bytes)?,
    })
}

fn two_files(alloc: Global) -> Result<Vec<NamedFile>, NoMemory> {
    let mut list = Vec::new(alloc);
    list.push(named(alloc, b"a", b"one")?)?;
    list.push(named(alloc, b"b", b"other")?)?;
    list.push(named(alloc, b"a", b"hidden")?)?;
    Ok(list)
}

#[test]
fn bytes_are_copied(rt: HostRuntime) -> Result<(), Fail> {
    let bytes = Bytes::of(rt.alloc(), b"Hi")?;
    let again = bytes.copy(rt.alloc())?;
    assert!(rt; again == bytes && again != Bytes::of(rt.alloc(), b"Hu")?);
    assert_eq!(rt; again.as_slice(), b"Hi".as_slice());
    assert_eq!(rt;
        Bytes::from_vec(again.into_vec()).as_slice(),
        bytes.as_slice()
    );
    Ok(())
}

#[test]
fn lists_grow_and_give_their_vector_back(rt: HostRuntime) -> Result<(), Fail> {
    let mut list = Listed::new(rt.alloc());
    assert!(rt; list.as_slice().is_empty());
    list.push(3u8)?;
    list.push(1)?;
    let again = Listed::from_vec(list.into_vec());
    assert_eq!(rt; again.as_slice(), [3, 1].as_slice());
    Ok(())
}

#[test]
fn listed_calls_and_absent_names_fail(rt: HostRuntime) -> Result<(), Fail> {
    // Opening, one read of the bytes and one at the end are the calls of a whole reading.
    for (name, listed, want) in [
        ("a", 9, Ok(b"one".as_slice())),
        ("b", 9, Ok(b"other".as_slice())),
        ("c", 9, Err(FileFault::Fault)),
        ("a", 1, Err(FileFault::Fault)),
        ("a", 2, Err(FileFault::Fault)),
        ("a", 3, Err(FileFault::Fault)),
        ("a", 4, Ok(b"one".as_slice())),
    ] {
        let mut files = MemFiles::new(two_files(rt.alloc())?, vec![in rt.alloc(); listed]?);
        let read = read_all(rt.alloc(), &mut files, name);
        match want {
            Ok(bytes) => assert!(rt;
                read.is_ok_and(|read| read.as_slice() == bytes),
                "{name} {listed}"
            ),
            Err(fault) => assert!(rt; read.is_err_and(|found| found == fault), "{name} {listed}"),
        }
    }
    Ok(())
}

#[test]
fn unknown_names_are_surely_empty(rt: HostRuntime) -> Result<(), Fail> {
    let mut files = SureFiles::new(two_files(rt.alloc())?);
    assert_eq!(rt;
        read_all(rt.alloc(), &mut files, "a")?.as_slice(),
        b"one".as_slice()
    );
    assert_eq!(rt; read_all(rt.alloc(), &mut files, "z")?.len(), 0);
    Ok(())
}

#[test]
fn the_longest_file_is_read_and_a_longer_one_is_not(rt: HostRuntime) -> Result<(), Fail> {
    for (length, is_read) in [(FILE_LIMIT, true), (FILE_LIMIT + 1, false)] {
        let mut list = Vec::new(rt.alloc());
        list.push(NamedFile {
            name: Bytes::of(rt.alloc(), b"long")?,
            bytes: Bytes::from_vec(vec![in rt.alloc(); 7u8; length]?),
        })?;
        let mut files = MemFiles::new(list, Vec::new(rt.alloc()));
        match read_all(rt.alloc(), &mut files, "long") {
            Ok(bytes) => assert!(rt; is_read && bytes.len() == length),
            Err(fault) => assert!(rt; !is_read && fault == FileFault::TooLong),
        }
    }
    Ok(())
}

#[test]
fn a_sink_without_room_or_with_a_listed_call_fails(rt: HostRuntime) -> Result<(), Fail> {
    for (room, listed, want, taken) in [
        (5, 9, Ok(()), b"Hello".as_slice()),
        (4, 9, Err(Failed), b"".as_slice()),
        (5, 1, Err(Failed), b"".as_slice()),
        (5, 2, Err(Failed), b"Hello".as_slice()),
    ] {
        let mut sink = MemSink::new(rt.alloc(), room, vec![in rt.alloc(); listed]?)?;
        let written = write_all(&mut sink, b"Hello").and_then(|()| sink.flush());
        assert_eq!(rt; written, want, "{room} {listed}");
        assert_eq!(rt; sink.bytes(), taken, "{room} {listed}");
    }
    Ok(())
}

#[test]
fn host_files_are_read(rt: HostRuntime) -> Result<(), Fail> {
    let folder = env::temp_dir(&rt)?;
    let folder = folder.as_path().display();
    let path = format!(in rt.alloc(); "{folder}/topaz-{}", process::id(rt.process()))?;
    fs::write(&rt, path.as_str(), b"read me")?;
    let mut files = HostFiles::new(&rt);
    let read = read_all(rt.alloc(), &mut files, path.as_str());
    fs::remove_file(&rt, path.as_str())?;
    assert_eq!(rt; read?.as_slice(), b"read me".as_slice());
    assert!(rt;
        read_all(rt.alloc(), &mut files, path.as_str()).is_err_and(|fault| fault
            == FileFault::Fault)
    );
    Ok(())
}

#[test]
fn host_output_is_written(rt: HostRuntime) -> Result<(), Fail> {
    let mut out = HostOut::new(&rt, rt.alloc())?;
    assert_eq!(rt; out.write(b""), Ok(0));
    assert_eq!(rt; write_all(&mut out, b"written\n"), Ok(()));
    assert_eq!(rt; out.flush(), Ok(()));
    Ok(())
}
