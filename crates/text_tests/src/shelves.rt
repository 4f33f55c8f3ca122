//! Each shelf and sink once, with what it keeps.

use rail_outside::{
    Call, FetchFault, MemoryShelf, MemorySink, ReliableShelf, ReliableSink, Shelf, Sink, SinkFault,
    StoreFault, put_lines,
};
use std::alloc::{AllocError, Global};

/// The bytes of a fetch, or its fault.
fn fetch_once<S: Shelf>(
    shelf: &mut S,
    alloc: Global,
    name: &str,
    limit: u64,
) -> (usize, Option<FetchFault>) {
    match shelf.fetch(alloc, name, limit) {
        Ok(bytes) => (bytes.len(), None),
        Err(fault) => (0, Some(fault)),
    }
}

fn is_fetch_of(call: Option<&Call>, name: &str) -> bool {
    match call {
        Some(Call::Fetch(asked)) => asked.as_str() == name,
        _ => false,
    }
}

fn is_store_of(call: Option<&Call>, name: &str) -> bool {
    match call {
        Some(Call::Store(asked)) => asked.as_str() == name,
        _ => false,
    }
}

#[test]
fn a_memory_shelf_keeps_its_calls(rt: HostRuntime) -> Result<(), AllocError> {
    let alloc = rt.alloc();
    let mut shelf = MemoryShelf::new(alloc);
    shelf.add_file("design", b"edges")?;
    shelf.fail_at(4)?;
    assert_eq!(rt; fetch_once(&mut shelf, alloc, "design", 5), (5, None));
    assert_eq!(rt;
        fetch_once(&mut shelf, alloc, "design", 4),
        (0, Some(FetchFault::TooLong { read: 5 }))
    );
    assert_eq!(rt; shelf.faults(), 0);
    assert_eq!(rt;
        fetch_once(&mut shelf, alloc, "plan", 5),
        (0, Some(FetchFault::Failed))
    );
    assert_eq!(rt; shelf.faults(), 1);
    assert!(rt; matches!(shelf.store("proof", b"one"), Err(StoreFault::Failed)));
    assert_eq!(rt; shelf.faults(), 2);
    assert!(rt; shelf.file("proof").is_none());
    assert!(rt; shelf.store("proof", b"two").is_ok());
    assert_eq!(rt; shelf.file("proof").unwrap_or(&[]), b"two".as_slice());
    assert_eq!(rt; shelf.faults(), 2);
    assert_eq!(rt; shelf.calls().len(), 5);
    assert!(rt; is_fetch_of(shelf.calls().first(), "design"));
    assert!(rt; is_store_of(shelf.calls().last(), "proof"));
    Ok(())
}

#[test]
fn a_memory_sink_keeps_its_pieces(rt: HostRuntime) -> Result<(), AllocError> {
    let alloc = rt.alloc();
    let lines = [
        Vec::from_slice(alloc, b"met tick 10\n")?,
        Vec::from_slice(alloc, b"train A\n")?,
    ];
    let mut out = MemorySink::new(alloc);
    out.fail_at(4, 5)?;
    assert!(rt; put_lines(&lines, &mut out).is_ok());
    assert_eq!(rt; out.bytes(), b"met tick 10\ntrain A\n".as_slice());
    assert!(rt; matches!(put_lines(&lines, &mut out), Err(SinkFault::Failed)));
    assert_eq!(rt;
        out.bytes(),
        b"met tick 10\ntrain A\nmet tick 10\ntrain".as_slice()
    );
    assert_eq!(rt; out.pieces().len(), 4);
    assert_eq!(rt; out.faults(), 1);
    Ok(())
}

#[test]
fn the_reliable_ones_never_fail(rt: HostRuntime) -> Result<(), AllocError> {
    let alloc = rt.alloc();
    let mut shelf = ReliableShelf::new(alloc);
    shelf.add_file("design", b"edges")?;
    assert_eq!(rt; fetch_once(&mut shelf, alloc, "design", 5), (5, None));
    assert_eq!(rt; fetch_once(&mut shelf, alloc, "plan", 0), (0, None));
    assert!(rt; shelf.store("design", b"nodes").is_ok());
    assert_eq!(rt; shelf.file("design"), b"nodes".as_slice());
    assert_eq!(rt; shelf.faults(), 0);
    let mut out = ReliableSink::new(alloc);
    assert!(rt; out.put(b"yes steps 2\n").is_ok());
    assert_eq!(rt; out.bytes(), b"yes steps 2\n".as_slice());
    assert_eq!(rt; out.faults(), 0);
    Ok(())
}
