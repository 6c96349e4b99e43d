// Files and sinks: in memory, and those of the system.

use flex_io::{FetchError, Files, Got, HostFiles, HostSink, MemFiles, MemSink, PutError, Sink};
use std::io::Write;
use std::os::unix::fs::symlink;
use std::test::Fail;
use std::{fs, io};

#[test]
fn files_in_memory_are_told_within_the_limit(rt: HostRuntime) -> Result<(), Fail> {
    let alloc = rt.alloc();
    let mut files = MemFiles::new(alloc);
    files.add("a/b", b"old")?;
    files.add("a/b", b"four")?;
    let wanted = [
        ("a/b", 3, Got::TooLarge, ""),
        ("a/b", 4, Got::Whole, "four"),
        ("a", 4, Got::Absent, ""),
    ];
    for (path, limit, got, bytes) in wanted {
        let mut into = Vec::new(alloc);
        assert_eq!(rt; files.fetch(alloc, path, limit, &mut into), Ok(got));
        assert!(rt; into.as_slice() == bytes.as_bytes());
    }
    Ok(())
}

#[test]
fn the_named_fetches_fail(rt: HostRuntime) -> Result<(), Fail> {
    let alloc = rt.alloc();
    let mut files = MemFiles::new(alloc);
    files.add("a", b"1")?;
    files.fail_at(2)?;
    files.fail_at(4)?;
    files.fail_at(2)?;
    let failed = Err(FetchError::Failed);
    for want in [
        Ok(Got::Whole),
        failed,
        Ok(Got::Whole),
        failed,
        Ok(Got::Whole),
    ] {
        let mut into = Vec::new(alloc);
        assert_eq!(rt; files.fetch(alloc, "a", 9, &mut into), want);
    }
    Ok(())
}

#[test]
fn the_named_puts_keep_a_beginning(rt: HostRuntime) -> Result<(), Fail> {
    let mut sink = MemSink::new(rt.alloc());
    sink.fail_at(2, 0)?;
    sink.fail_at(4, 99)?;
    sink.fail_at(2, 5)?;
    let failed = Err(PutError::Failed);
    let wanted = [
        ("one ", Ok(()), "one "),
        ("query q1", failed, "one query"),
        (" ", Ok(()), "one query "),
        ("of two", failed, "one query of two"),
        (".", Ok(()), "one query of two."),
    ];
    for (piece, answer, bytes) in wanted {
        assert_eq!(rt; sink.put(piece.as_bytes()), answer);
        assert!(rt; sink.bytes() == bytes.as_bytes());
    }
    Ok(())
}

#[test]
fn the_systems_files_are_fetched(rt: HostRuntime) -> Result<(), Fail> {
    let alloc = rt.alloc();
    let _ = fs::remove_dir_all(&rt, "tried");
    fs::create_dir(&rt, "tried")?;
    fs::create_dir(&rt, "tried/folder")?;
    fs::write(&rt, "tried/four", b"four")?;
    symlink(&rt, "loop", "tried/loop")?;
    let long_name = "x".repeat(alloc, 300)?;
    let long_path = "x/".repeat(alloc, 3000)?;
    let failed = Err(FetchError::Failed);
    let wanted = [
        ("tried/four", 4, Ok(Got::Whole), "four"),
        ("tried/four", 3, Ok(Got::TooLarge), ""),
        ("tried/four", 0, Ok(Got::TooLarge), ""),
        ("tried/none", 4, Ok(Got::Absent), ""),
        ("tried/none/four", 4, Ok(Got::Absent), ""),
        ("tried/folder", 4, failed, ""),
        ("tried/four/four", 4, failed, ""),
        ("tried/loop", 4, failed, ""),
        ("tried/four\0", 4, failed, ""),
        (long_name.as_str(), 4, failed, ""),
        (long_path.as_str(), 4, failed, ""),
    ];
    let mut files = HostFiles::new(rt);
    for (path, limit, answer, bytes) in wanted {
        let mut into = Vec::new(alloc);
        let got = files.fetch(alloc, path, limit, &mut into);
        assert_eq!(rt; got, answer, "at {path}");
        assert!(rt; into.as_slice() == bytes.as_bytes());
    }
    fs::remove_dir_all(&rt, "tried")?;
    Ok(())
}

#[test]
fn a_systems_stream_is_written(rt: HostRuntime) -> Result<(), Fail> {
    let alloc = rt.alloc();
    let file = fs::create(&rt, "tried.txt")?;
    let mut sink = HostSink::new(io::BufWriter::new(alloc, file)?);
    assert_eq!(rt; sink.put(b"one "), Ok(()));
    assert_eq!(rt; sink.put(b"two"), Ok(()));
    let text = fs::read_to_string(&rt, "tried.txt")?;
    fs::remove_file(&rt, "tried.txt")?;
    assert_eq!(rt; text.as_str(), "one two");

    let (reader, writer) = io::pipe(&rt)?;
    drop(reader);
    let mut closed = HostSink::new(writer);
    assert_eq!(rt; closed.put(b""), Ok(()));
    assert_eq!(rt; closed.put(b"one"), Err(PutError::Failed));
    Ok(())
}

#[test]
fn a_large_piece_is_written_and_fetched(rt: HostRuntime) -> Result<(), Fail> {
    let alloc = rt.alloc();
    let piece = "0123456789".repeat(alloc, 10_000)?;
    let mut sink = HostSink::new(fs::create(&rt, "large.txt")?);
    assert_eq!(rt; sink.put(piece.as_bytes()), Ok(()));
    let mut files = HostFiles::new(rt);
    for (limit, got) in [(100_000, Got::Whole), (99_999, Got::TooLarge)] {
        let mut into = Vec::new(alloc);
        assert_eq!(rt; files.fetch(alloc, "large.txt", limit, &mut into), Ok(got));
        assert!(rt; (into.as_slice() == piece.as_bytes()) == (got == Got::Whole));
    }
    fs::remove_file(&rt, "large.txt")?;
    Ok(())
}

// A writer that takes a few bytes at a time, as long as it has room.
#[derive(Drop)]
struct Narrow {
    most: usize,
    taken: Vec<u8>,
    room: usize,
}

impl Write for Narrow {
    fn write(&mut self, buf: &[u8]) -> io::Result<usize> {
        let count = buf.len().min(self.most).min(self.room);
        self.taken.extend_from_slice(&buf[..count])?;
        self.room -= count;
        Ok(count)
    }

    fn flush(&mut self) -> io::Result<()> {
        Ok(())
    }
}

#[test]
fn a_piece_is_written_in_turns(rt: HostRuntime) -> Result<(), Fail> {
    let mut narrow = Narrow {
        most: 3,
        taken: Vec::new(rt.alloc()),
        room: 9,
    };
    let mut sink = HostSink::new(&mut narrow);
    assert_eq!(rt; sink.put(b"a query"), Ok(()));
    assert_eq!(rt; sink.put(b"-line"), Err(PutError::Failed));
    assert!(rt; narrow.taken.as_slice() == b"a query-l".as_slice());
    Ok(())
}
