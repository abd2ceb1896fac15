//! Files, input and output: each object through its trait, and what only the system can show.

use dcc_io::{
    DirShelf, Failed, Fetched, MemShelf, MemSink, MemSource, Shelf, ShelfFault, Sink, Source,
    StdSink, StdSource, Stream, put_all,
};
use std::alloc::{AllocError, Global};
use std::fs;
use std::test::Fail;

fn fetched<H: Shelf>(
    shelf: &mut H,
    alloc: Global,
    name: &str,
    most: usize,
) -> (Result<Fetched, ShelfFault>, Vec<u8>) {
    let mut into = Vec::new(alloc);
    let result = shelf.fetch(alloc, name, most, &mut into);
    (result, into)
}

fn read_some<I: Source>(source: &mut I) -> (Result<usize, Failed>, [u8; 4]) {
    let mut buf = [0; 4];
    let result = source.read(&mut buf);
    (result, buf)
}

fn shelf_of(alloc: Global, name: &str, bytes: &[u8], fail: &[u64]) -> Result<MemShelf, AllocError> {
    let mut files = Vec::new(alloc);
    files.push((String::from_str(alloc, name)?, bytes.to_vec(alloc)?))?;
    Ok(MemShelf::new(alloc, files, fail.to_vec(alloc)?))
}

#[test]
fn a_shelf_in_memory_answers_in_four_ways(rt: HostRuntime) -> Result<(), Fail> {
    let alloc = rt.alloc();
    let mut shelf = shelf_of(alloc, "A.EXE", b"MZab", &[4])?;
    for (name, most, want, bytes) in [
        ("A.EXE", 4, Ok(Fetched::Whole), b"MZab".as_slice()),
        ("A.EXE", 3, Ok(Fetched::Longer), b"MZa".as_slice()),
        ("B.EXE", 4, Err(ShelfFault::Absent), b"".as_slice()),
        ("A.EXE", 4, Err(ShelfFault::Failed), b"".as_slice()),
        ("A.EXE", 5, Ok(Fetched::Whole), b"MZab".as_slice()),
    ] {
        let (result, into) = fetched(&mut shelf, alloc, name, most);
        assert_eq!(rt; result, want);
        if result.is_ok() {
            assert_eq!(rt; into.as_slice(), bytes);
        }
    }
    Ok(())
}

#[test]
fn a_source_in_memory_gives_its_bytes_once(rt: HostRuntime) -> Result<(), Fail> {
    let alloc = rt.alloc();
    let bytes = b"abcde".to_vec(alloc)?;
    let mut source = MemSource::new(bytes, [2].to_vec(alloc)?, 3);
    for (want, front) in [
        (Ok(3), *b"abc\0"),
        (Err(Failed), [0; 4]),
        (Ok(2), *b"de\0\0"),
        (Ok(0), [0; 4]),
    ] {
        assert_eq!(rt; read_some(&mut source), (want, front));
    }
    Ok(())
}

#[test]
fn a_piece_is_written_in_parts_up_to_a_failed_write(rt: HostRuntime) -> Result<(), Fail> {
    let alloc = rt.alloc();
    for (fail, want, taken) in [
        (0, Ok(()), b"hello".as_slice()),
        (1, Err(Failed), b"".as_slice()),
        (3, Err(Failed), b"hell".as_slice()),
        (4, Ok(()), b"hello".as_slice()),
    ] {
        let mut sink = MemSink::new(alloc, [fail].to_vec(alloc)?, 2);
        assert_eq!(rt; put_all(&mut sink, b""), Ok(()));
        assert_eq!(rt; put_all(&mut sink, b"hello"), want);
        assert_eq!(rt; sink.taken().as_slice(), taken);
    }
    Ok(())
}

#[test]
fn a_file_of_the_working_folder_is_fetched(rt: HostRuntime) -> Result<(), Fail> {
    let alloc = rt.alloc();
    // Longer than a piece in which a file is read.
    let bytes = vec![in alloc; 7; 5000]?;
    fs::write(&rt, "A.EXE", bytes.as_slice())?;
    fs::create_dir(&rt, "FOLDER")?;
    let mut shelf = DirShelf::new(alloc, rt);
    for (name, most, want, len) in [
        ("A.EXE", 5000, Ok(Fetched::Whole), 5000),
        ("A.EXE", 4999, Ok(Fetched::Longer), 4999),
        ("A.EXE", 0, Ok(Fetched::Longer), 0),
        ("B.EXE", 5000, Err(ShelfFault::Absent), 0),
        ("FOLDER", 5000, Err(ShelfFault::Failed), 0),
    ] {
        let (result, into) = fetched(&mut shelf, alloc, name, most);
        assert_eq!(rt; result, want);
        if result.is_ok() {
            assert_eq!(rt; into.len(), len);
            assert!(rt; into.iter().all(|byte| *byte == 7));
        }
    }
    Ok(())
}

#[test]
fn standard_input_is_read(rt: HostRuntime) {
    let mut source = StdSource::new(rt.stdin());
    let (result, _) = read_some(&mut source);
    assert!(rt; result.is_ok());
}

#[test]
fn both_output_streams_are_written(rt: HostRuntime) {
    for stream in [Stream::Output(rt.stdout()), Stream::Error(rt.stderr())] {
        let mut sink = StdSink::new(stream);
        assert_eq!(rt; put_all(&mut sink, b"written\n"), Ok(()));
    }
}
