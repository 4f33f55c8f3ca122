ghost use Rattle.std.specs.Prelude.{IfOk};
ghost use Rattle.rail_motion.specs.Track.{IsRising, LeastAhead, NoneSlower};

use rail_motion::{
    Ahead, Motor, Span, advance, brakes, is_permitted, mark_least, mark_slower, next_speed, step,
};
use std::alloc::{AllocError, Global};
use std::test::Fail;

#[test]
fn braking_distances(rt: HostRuntime) {
    for (u, b, walk) in [(10, 3, 12), (2, 3, 0)] {
        assert_eq!(rt; brakes(u, b), walk, "from {u}");
    }
}

const MOTOR: Motor = Motor {
    accel: 500,
    brake: 700,
    top: 2000,
    tail: 0,
};

/// Up to the end of authority at 3,000 mm: heads 500, 1500, 2600, 3000, 3000.
#[test]
fn stops_at_the_end(rt: HostRuntime) {
    let spans = [Span {
        end: 3000,
        limit: 2000,
        slower_in: 1,
        least_in: 1,
    }];
    let ahead = Ahead {
        spans: &spans,
        end: Some(3000),
    };
    for (x, v, u) in [
        (0u16, 0u16, 500u16),
        (500, 500, 1000),
        (1500, 1000, 1100),
        (2600, 1100, 400),
        (3000, 400, 0),
    ] {
        let braked = v.saturating_sub(700);
        let (place, speed, next) = (i64::from(x), i64::from(v), i64::from(u));
        assert!(rt;
            is_permitted(&MOTOR, &ahead, place, speed, i64::from(braked)),
            "at {x}"
        );
        assert!(rt;
            !is_permitted(&MOTOR, &ahead, place, speed, next + 1),
            "at {x}"
        );
        assert_eq!(rt; next_speed(&MOTOR, &ahead, place, speed), next);
        assert_eq!(rt; step(&MOTOR, &ahead, place, speed), (place + next, next));
    }
}

/// Through a limit of 500 mm per tick from 5,000 mm on, and out at 10,000 mm: heads 500, 1500, 3000, 4350, 5000, 5500.
#[test]
fn slows_down(rt: HostRuntime) {
    let spans = [
        Span {
            end: 5000,
            limit: 2000,
            slower_in: 1,
            least_in: 1,
        },
        Span {
            end: 10000,
            limit: 500,
            slower_in: 1,
            least_in: 1,
        },
    ];
    let ahead = Ahead {
        spans: &spans,
        end: None,
    };
    for (x, v, u) in [
        (0u16, 0u16, 500u16),
        (500, 500, 1000),
        (1500, 1000, 1500),
        (3000, 1500, 1350),
        (4350, 1350, 650),
        (5000, 650, 500),
        (5500, 500, 500),
        (9500, 500, 500),
    ] {
        let braked = v.saturating_sub(700);
        assert!(rt;
            is_permitted(
                &MOTOR,
                &ahead,
                i64::from(x),
                i64::from(v),
                i64::from(braked)
            ),
            "at {x}"
        );
        let moved = advance(&MOTOR, &ahead, u64::from(x), u64::from(v));
        assert_eq!(rt; moved, (u64::from(x) + u64::from(u), u64::from(u)));
    }
}

/// Out of a limit of 500 mm per tick at 5,000 mm: a vehicle whose tail limits bind too, 2,000 mm behind its head, goes
/// on at that speed up to 7,000 mm.
#[test]
fn gains_speed_when_the_tail_has_left(rt: HostRuntime) {
    let spans = [
        Span {
            end: 5000,
            limit: 500,
            slower_in: 1,
            least_in: 1,
        },
        Span {
            end: 10000,
            limit: 2000,
            slower_in: 1,
            least_in: 1,
        },
    ];
    let ahead = Ahead {
        spans: &spans,
        end: None,
    };
    let motor = Motor {
        accel: 500,
        brake: 700,
        top: 2000,
        tail: 2000,
    };
    for (x, v, u) in [
        (0u16, 0u16, 500u16),
        (4500, 500, 500),
        (5000, 500, 500),
        (6500, 500, 500),
        (7000, 500, 1000),
        (8000, 1000, 1500),
        (9500, 1500, 2000),
    ] {
        let braked = v.saturating_sub(700);
        assert!(rt;
            is_permitted(
                &motor,
                &ahead,
                i64::from(x),
                i64::from(v),
                i64::from(braked)
            ),
            "at {x}"
        );
        let moved = advance(&motor, &ahead, u64::from(x), u64::from(v));
        assert_eq!(rt; moved, (u64::from(x) + u64::from(u), u64::from(u)));
    }
}

/// Spans of 500,000 mm with the limit 100,000 mm per tick.
fn long_spans(alloc: Global, count: u16) -> Result<Vec<Span>, AllocError>
    ensures rising { IfOk result (λ spans. IsRising spans.items) }
    ensures none_slower { IfOk result (λ spans. NoneSlower spans.items) }
    ensures least { IfOk result (λ spans. LeastAhead spans.items) }
{
    let mut spans = unmarked_spans(alloc, count)?;
    mark_slower(&mut spans);
    mark_least(&mut spans);
    Ok(spans)
}

/// The same, of which it is not noted yet where they are slower.
fn unmarked_spans(alloc: Global, count: u16) -> Result<Vec<Span>, AllocError>
    ensures { IfOk result (λ spans. IsRising spans.items) }
{
    let mut spans = Vec::new(alloc);
    for i in 0..count {
        let end = i64::from(i) * 500_000 + 500_000;
        spans.push(Span {
            end,
            limit: 100_000,
            slower_in: 1,
            least_in: 1,
        })?;
    }
    Ok(spans)
}

/// Of limits of 5, 7, 5, 3 and 4 mm per tick the first is lower again in 3 spans, and the fourth nowhere.
#[test]
fn notes_where_limits_are_lower(rt: HostRuntime) -> Result<(), Fail> {
    let mut spans = Vec::new(rt.alloc());
    for limit in [5u16, 7, 5, 3, 4] {
        assert!(rt; limit >= 1);
        spans.push(Span {
            end: 1000,
            limit: i64::from(limit),
            slower_in: 1,
            least_in: 1,
        })?;
    }
    mark_slower(&mut spans);
    for (span, slower_in) in spans.iter().zip([3usize, 1, 1, 2, 1].iter()) {
        assert_eq!(rt; span.slower_in, *slower_in);
    }
    Ok(())
}

/// Braking distances of 100,000 moves and 5,000,050,000 mm over 10,000 spans.
#[test]
fn long_walks_are_quick(rt: HostRuntime) -> Result<(), Fail> {
    let spans = long_spans(rt.alloc(), 10_000)?;
    let motor = Motor {
        accel: 1,
        brake: 1,
        top: 100_000,
        tail: 0,
    };
    for (end, v, u) in [
        (5_000_050_000, 100_000u32, 100_000u32),
        (5_000_049_999, 100_000, 99_999),
    ] {
        assert!(rt; v <= 100_000);
        let ahead = Ahead {
            spans: &spans,
            end: Some(end),
        };
        let braked = v.saturating_sub(1);
        assert!(rt; is_permitted(&motor, &ahead, 0, i64::from(v), i64::from(braked)));
        assert_eq!(rt;
            step(&motor, &ahead, 0, i64::from(v)),
            (i64::from(u), i64::from(u))
        );
    }
    Ok(())
}
