//! Lines and heads, read and written, and bytes that are none.

use bound_spec::{Evidence, Requirement};
use clause_spec::{BaseKind, Question, Turns};
use proof_log::{Head, Line, LineFault, read_head, read_line, write_head, write_line};
use rail_base::plan::Command;
use rail_base::route::RouteNo;
use rail_base::station::TrainNo;
use std::alloc::AllocError;

#[test]
fn refute_and_forget_lines_are_read_and_written(rt: HostRuntime) -> Result<(), AllocError> {
    let rows: [&[u8]; 10] = [
        b"r within 1 t 1 9 2 1 2 0 0 0",
        b"r within 1 t 1 11 2 1 2 0 0 0 t 2 17 2 1 2 0 0 0 p 1 1 2 1 p 1 2 2 2",
        b"r order 1 t 1 1 1 1 0 0 0 t 2 1 1 3 0 0 0",
        b"r order 1 t 1 1 0 1 2 0 2 1 t 2 1 1 1 2 0 0 0 p 2 1 1 1",
        b"r grant 2 1 t 1 7 2 1 2 0 0 0 t 2 8 0 1 0 1 1 p 1 1 2 1",
        b"r visit 1 2 t 1 600 2 1 2 0 0 0",
        b"r path 1 2 t 1 0 0 1 0 0 0",
        b"r path 0 4294967295 t 0 999999999999999999 0 4294967295 0 0 1",
        b"x 14 0",
        b"x 999999999999999999 1 1 0",
    ];
    for bytes in rows {
        let Ok(line) = read_line(rt.alloc(), bytes) else {
            return Err(AllocError);
        };
        assert_eq!(rt; write_line(rt.alloc(), &line)?.as_slice(), bytes);
    }
    Ok(())
}

#[test]
fn lines_of_bounds_are_read_and_written(rt: HostRuntime) -> Result<(), AllocError> {
    let rows: [(&[u8], Requirement); 5] = [
        (
            b"b within 1 from l 1 n 2",
            Requirement::Within { within: 1 },
        ),
        (
            b"b order 2 zero l 1 n 2 n 3 l 2 a 4 5 0 6 0 n 7",
            Requirement::Order { order: 2 },
        ),
        (
            b"b visit 3 4294967295 one l 0 a 1 0 0",
            Requirement::Visit {
                train: TrainNo(3),
                visit: 4_294_967_295,
            },
        ),
        (
            b"b grant 2 4 cone 999999999999999999 t 1 9 2 1 2 0 0 0 l 2 n 4294967295",
            Requirement::Grant {
                command: Command {
                    train: TrainNo(2),
                    route: RouteNo(4),
                },
            },
        ),
        (
            b"b within 1 cone 0 t 1 11 2 1 2 0 0 0 t 2 17 2 1 0 2 1 p 1 1 2 1 p 1 2 2 2 l 1 n 1 l 2 n 2",
            Requirement::Within { within: 1 },
        ),
    ];
    for (bytes, want) in rows {
        let Ok(line) = read_line(rt.alloc(), bytes) else {
            return Err(AllocError);
        };
        let is_wanted = match &line {
            Line::Refute {
                evidence: Evidence::Bound(bound),
            } => bound.requirement == want,
            _ => false,
        };
        assert!(rt; is_wanted);
        assert_eq!(rt; write_line(rt.alloc(), &line)?.as_slice(), bytes);
    }
    Ok(())
}

#[test]
fn other_lines_are_refused(rt: HostRuntime) {
    let rows: [&[u8]; 20] = [
        b"",
        b"b",
        b"b within 1",
        b"b within 1 from",
        b"b within 1 from l 1",
        b"b within 1  from l 1 n 2",
        b"b within 01 from l 1 n 2",
        b"b within 4294967296 from l 1 n 2",
        b"b path 1 2 from l 1 n 2",
        b"b grant 2 0 zero l 2 n 1",
        b"b within 1 two l 1 n 2",
        b"b within 1 cone 1 l 1 n 2",
        b"b within 1 cone 1000000000000000000 t 1 9 2 1 0 0 0 l 1 n 1",
        b"b within 1 from l 1 n 0",
        b"b within 1 from l 1 a 0 3 0",
        b"b within 1 from l 1 a 2 0 3",
        b"b within 1 from l 1 a 2 0",
        b"b within 1 from l 1 n 2 ",
        b"b within 1 from l 1 n 2 x",
        b"r within 1 from l 1 n 2",
    ];
    for bytes in rows {
        let refused = match read_line(rt.alloc(), bytes) {
            Err(LineFault::Text) => true,
            _ => false,
        };
        assert!(rt; refused);
    }
}

#[test]
fn heads_are_read_and_written(rt: HostRuntime) -> Result<(), AllocError> {
    let rows: [(&[u8], Head); 9] = [
        (b"rcvlog 1", Head::Unnamed),
        (
            b"rcvlog 2 1 12",
            Head::Of(Question {
                version: 1,
                steps: 12,
                base: BaseKind::Plain,
            }),
        ),
        (
            b"rcvlog 2 999999999999999999 0",
            Head::Of(Question {
                version: 999_999_999_999_999_999,
                steps: 0,
                base: BaseKind::Plain,
            }),
        ),
        (
            b"rcvlog 4 1 12",
            Head::Of(Question {
                version: 1,
                steps: 12,
                base: BaseKind::Sorted,
            }),
        ),
        (
            b"rcvlog 4 999999999999999999 0",
            Head::Of(Question {
                version: 999_999_999_999_999_999,
                steps: 0,
                base: BaseKind::Sorted,
            }),
        ),
        (
            b"rcvlog 5 1 12",
            Head::Of(Question {
                version: 1,
                steps: 12,
                base: BaseKind::Live(Turns::All),
            }),
        ),
        (
            b"rcvlog 5 999999999999999999 0",
            Head::Of(Question {
                version: 999_999_999_999_999_999,
                steps: 0,
                base: BaseKind::Live(Turns::All),
            }),
        ),
        (
            b"rcvlog 6 3 12 2",
            Head::Of(Question {
                version: 3,
                steps: 12,
                base: BaseKind::Live(Turns::Beside { within: 2 }),
            }),
        ),
        (
            b"rcvlog 3 1 12",
            Head::Of(Question {
                version: 1,
                steps: 12,
                base: BaseKind::Normal,
            }),
        ),
    ];
    for (bytes, head) in rows {
        assert_eq!(rt; read_head(bytes), Some(head));
        assert_eq!(rt; write_head(rt.alloc(), head)?.as_slice(), bytes);
    }
    Ok(())
}

#[test]
fn other_heads_are_refused(rt: HostRuntime) {
    let rows: [&[u8]; 20] = [
        b"",
        b"rcvlog",
        b"rcvlog 1 ",
        b"rcvlog 1 2",
        b"rcvlog 2",
        b"rcvlog 2 1",
        b"rcvlog 2 01 2",
        b"rcvlog 2 1 2 3",
        b"rcvlog 2 1000000000000000000 1",
        b"rcvlog 6 1 2",
        b"rcvlog 6 1 2 03",
        b"rcvlog 6 1 2 3 4",
        b"rcvlog 5 1 2 3",
        b"rcvlog 4",
        b"rcvlog 4 1",
        b"rcvlog 4 1 1000000000000000000",
        b"rcvlog 5",
        b"rcvlog 5 1",
        b"rcvlog 5 1 1000000000000000000",
        b"log 1",
    ];
    for bytes in rows {
        assert_eq!(rt; read_head(bytes), None);
    }
}
