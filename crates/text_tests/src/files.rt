//! Over real files, over standard output, and over a writer that fails.

use rail_files::{FileShelf, OutSink};
use rail_outside::{FetchFault, Shelf, Sink, SinkFault, StoreFault};
use std::io::Write;
use std::{fs, io};

const DESIGN: &[u8] = b"version = 1\ntick_ms = 1000\n";

#[test]
fn a_file_shelf_reads_within_the_limit(rt: HostRuntime) -> io::Result<()> {
    let alloc = rt.alloc();
    fs::write(&rt, "design.toml", DESIGN)?;
    let mut shelf = FileShelf::new(alloc, &rt);
    let whole = shelf.fetch(alloc, "design.toml", 27);
    assert!(rt; whole.is_ok_and(|bytes| bytes.as_slice() == DESIGN));
    let longer = shelf.fetch(alloc, "design.toml", 26);
    assert!(rt; matches!(longer, Err(FetchFault::TooLong { read: 27 })));
    assert_eq!(rt; shelf.faults(), 0);
    assert!(rt; matches!(shelf.fetch(alloc, "plan.json", 26), Err(FetchFault::Failed)));
    assert!(rt; matches!(shelf.fetch(alloc, ".", 26), Err(FetchFault::Failed)));
    assert_eq!(rt; shelf.faults(), 2);
    fs::remove_file(&rt, "design.toml")
}

#[test]
fn a_file_shelf_stores_whole_files(rt: HostRuntime) -> io::Result<()> {
    let alloc = rt.alloc();
    let mut shelf = FileShelf::new(alloc, &rt);
    for text in [
        b"rcvlog 1\n".as_slice(),
        b"rcvlog 1\nd -7 0 10 12 4 0\n",
        b"",
    ] {
        assert!(rt; shelf.store("proof", text).is_ok());
        let known_files = shelf.fetch(alloc, "proof", 40);
        assert!(rt; known_files.is_ok_and(|bytes| bytes.as_slice() == text));
    }
    assert_eq!(rt; shelf.faults(), 0);
    assert!(rt; matches!(shelf.store(".", b"rcvlog 1\n"), Err(StoreFault::Failed)));
    assert!(rt;
        matches!(
            shelf.store("none/proof", b"rcvlog 1\n"),
            Err(StoreFault::Failed)
        )
    );
    assert_eq!(rt; shelf.faults(), 2);
    assert!(rt; fs::metadata(&rt, "proof.rcv-part").is_err());
    fs::remove_file(&rt, "proof")
}

#[test]
fn a_file_named_like_the_part_stays(rt: HostRuntime) -> io::Result<()> {
    let alloc = rt.alloc();
    fs::write(&rt, "log.rcv-part", DESIGN)?;
    let mut shelf = FileShelf::new(alloc, &rt);
    assert!(rt; shelf.store("log", b"rcvlog 1\n").is_ok());
    let known_files = shelf.fetch(alloc, "log", 40);
    assert!(rt; known_files.is_ok_and(|bytes| bytes.as_slice() == b"rcvlog 1\n".as_slice()));
    let design = shelf.fetch(alloc, "log.rcv-part", 40);
    assert!(rt; design.is_ok_and(|bytes| bytes.as_slice() == DESIGN));
    assert!(rt; fs::metadata(&rt, "log.rcv-part2").is_err());
    fs::remove_file(&rt, "log.rcv-part")?;
    fs::remove_file(&rt, "log")
}

#[test]
fn a_store_fails_where_all_parts_are_taken(rt: HostRuntime) -> io::Result<()> {
    let alloc = rt.alloc();
    fs::write(&rt, "last", b"old")?;
    fs::write(&rt, "last.rcv-part", DESIGN)?;
    for number in 2..101 {
        let part = format!(in alloc; "last.rcv-part{number}")?;
        fs::write(&rt, part.as_str(), DESIGN)?;
    }
    let mut shelf = FileShelf::new(alloc, &rt);
    assert!(rt; matches!(shelf.store("last", b"rcvlog 1\n"), Err(StoreFault::Failed)));
    assert_eq!(rt; shelf.faults(), 1);
    for (name, text) in [
        ("last", b"old".as_slice()),
        ("last.rcv-part", DESIGN),
        ("last.rcv-part100", DESIGN),
    ] {
        let known_files = shelf.fetch(alloc, name, 40);
        assert!(rt; known_files.is_ok_and(|bytes| bytes.as_slice() == text));
    }
    assert!(rt; fs::metadata(&rt, "last.rcv-part101").is_err());
    for number in 2..101 {
        let part = format!(in alloc; "last.rcv-part{number}")?;
        fs::remove_file(&rt, part.as_str())?;
    }
    fs::remove_file(&rt, "last.rcv-part")?;
    fs::remove_file(&rt, "last")
}

/// A writer that takes one byte a turn, up to `room`, and then none.
#[derive(Drop)]
struct Narrow {
    room: usize,
}

impl Write for Narrow {
    fn write(&mut self, bytes: &[u8]) -> io::Result<usize> {
        let taken = self.room.min(1).min(bytes.len());
        self.room -= taken;
        Ok(taken)
    }

    fn flush(&mut self) -> io::Result<()> {
        Ok(())
    }
}

#[test]
fn an_out_sink_puts_all_or_fails(rt: HostRuntime) {
    let mut out = OutSink::new(rt.stdout());
    assert!(rt; out.put(b"met tick 10\n").is_ok());
    assert_eq!(rt; out.faults(), 0);
    let mut narrow = OutSink::new(Narrow { room: 4 });
    assert!(rt; narrow.put(b"yes\n").is_ok());
    assert!(rt; matches!(narrow.put(b"no\n"), Err(SinkFault::Failed)));
    assert_eq!(rt; narrow.faults(), 1);
}
