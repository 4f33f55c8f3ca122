//! Numbers and lines, with their refusals.

use rail_text::{Cursor, number, put_number};
use std::alloc::AllocError;

#[test]
fn numbers_are_written(rt: HostRuntime) -> Result<(), AllocError> {
    let mut text = Vec::from_slice(rt.alloc(), b"tick ")?;
    put_number(&mut text, 0)?;
    put_number(&mut text, u64::MAX)?;
    assert_eq!(rt; text.as_slice(), b"tick 018446744073709551615".as_slice());
    Ok(())
}

#[test]
fn numbers_are_read_or_refused(rt: HostRuntime) {
    let rows: [(&[u8], Option<u64>); 9] = [
        (b"0", Some(0)),
        (b"64", Some(64)),
        (b"00000000000000000007", Some(7)),
        (b"18446744073709551615", Some(18_446_744_073_709_551_615)),
        (b"18446744073709551616", None),
        (b"000000000000000000007", None),
        (b"", None),
        (b"+1", None),
        (b"1 ", None),
    ];
    for (digits, want) in rows {
        assert_eq!(rt; number(digits), want);
    }
}

#[test]
fn lines_have_their_places(rt: HostRuntime) {
    let mut cursor = Cursor::new(b"rcvlog 1\n\nd 0");
    let rows: [(u64, bool, &[u8]); 3] = [
        (1, true, b"rcvlog 1"),
        (2, true, b""),
        (3, false, b"d 0"),
    ];
    for (line, ended, bytes) in rows {
        let piece = cursor.next();
        assert!(rt; piece.is_some_and(|p| p.line == line && p.ended == ended && p.bytes == bytes));
    }
    assert!(rt; cursor.next().is_none());
    assert!(rt; cursor.next().is_none());
    assert!(rt; Cursor::new(b"").next().is_none());
}
