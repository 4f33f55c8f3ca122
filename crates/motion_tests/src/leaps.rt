use motion_leap::{Leap, run_until};
use rail_motion::{Ahead, Motor, Span};

#[test]
fn from_rest_over_long_track(rt: HostRuntime) {
    let motor = Motor {
        accel: 500,
        brake: 700,
        top: 2000,
        tail: 0,
    };
    let spans = [Span {
        end: 10_000_000,
        limit: 2000,
        slower_in: 1,
        least_in: 1,
    }];
    let ahead = Ahead {
        spans: &spans,
        end: None,
    };
    assert!(rt;
        run_until(&motor, &ahead, 0, 0, 0, 100)
            == Leap {
                ticks: 0,
                x: 0,
                v: 0
            }
    );
    assert!(rt;
        run_until(&motor, &ahead, 0, 0, 10_000, 100)
            == Leap {
                ticks: 7,
                x: 11_000,
                v: 2000
            }
    );
    assert!(rt;
        run_until(&motor, &ahead, 0, 0, 10_000, 3)
            == Leap {
                ticks: 3,
                x: 3000,
                v: 1500
            }
    );
    assert!(rt;
        run_until(&motor, &ahead, 0, 0, 10_000_000, 86_400)
            == Leap {
                ticks: 5002,
                x: 10_001_000,
                v: 2000
            }
    );
}

#[test]
fn to_the_end_of_authority(rt: HostRuntime) {
    let motor = Motor {
        accel: 500,
        brake: 700,
        top: 2000,
        tail: 0,
    };
    let spans = [Span {
        end: 3000,
        limit: 2000,
        slower_in: 1,
        least_in: 1,
    }];
    let ahead = Ahead {
        spans: &spans,
        end: Some(3000),
    };
    assert!(rt;
        run_until(&motor, &ahead, 0, 0, 3000, 100)
            == Leap {
                ticks: 4,
                x: 3000,
                v: 400
            }
    );
    assert!(rt;
        run_until(&motor, &ahead, 0, 0, 3001, u64::MAX)
            == Leap {
                ticks: u64::MAX,
                x: 3000,
                v: 0
            }
    );
}

#[test]
fn limits_on_the_way(rt: HostRuntime) {
    let motor = Motor {
        accel: 500,
        brake: 700,
        top: 2000,
        tail: 0,
    };
    let spans = [
        Span {
            end: 5000,
            limit: 2000,
            slower_in: 1,
            least_in: 1,
        },
        Span {
            end: 10_000,
            limit: 500,
            slower_in: 1,
            least_in: 1,
        },
    ];
    let ahead = Ahead {
        spans: &spans,
        end: None,
    };
    assert!(rt;
        run_until(&motor, &ahead, 0, 0, 4000, 100)
            == Leap {
                ticks: 4,
                x: 4350,
                v: 1350
            }
    );
    assert!(rt;
        run_until(&motor, &ahead, 0, 0, 10_000, 100)
            == Leap {
                ticks: 15,
                x: 10_000,
                v: 500
            }
    );
}

/// Out of a limit of 500 mm per tick at 5,000 mm: limits bind the vehicle 2,000 mm behind its head, so it gains speed
/// from 7,000 mm on.
#[test]
fn limits_bind_the_tail(rt: HostRuntime) {
    let motor = Motor {
        accel: 500,
        brake: 700,
        top: 2000,
        tail: 2000,
    };
    let spans = [
        Span {
            end: 5000,
            limit: 500,
            slower_in: 1,
            least_in: 1,
        },
        Span {
            end: 10_000,
            limit: 2000,
            slower_in: 1,
            least_in: 1,
        },
    ];
    let ahead = Ahead {
        spans: &spans,
        end: None,
    };
    assert!(rt;
        run_until(&motor, &ahead, 0, 0, 7000, 100)
            == Leap {
                ticks: 14,
                x: 7000,
                v: 500
            }
    );
    assert!(rt;
        run_until(&motor, &ahead, 0, 0, 11_500, 100)
            == Leap {
                ticks: 17,
                x: 11_500,
                v: 2000
            }
    );
}

#[test]
fn a_long_run(rt: HostRuntime) {
    let motor = Motor {
        accel: 1,
        brake: 1,
        top: 1,
        tail: 0,
    };
    let ahead = Ahead {
        spans: &[],
        end: None,
    };
    assert!(rt;
        run_until(&motor, &ahead, 0, 0, 10_000_000_000_000, 10_000_000_000_000)
            == Leap {
                ticks: 10_000_000_000_000,
                x: 10_000_000_000_000,
                v: 1
            }
    );
}

/// Full braking from 100,000 by 1 a tick, up to the end of authority, and the same through a lower limit.
#[test]
fn a_long_braking(rt: HostRuntime) {
    let motor = Motor {
        accel: 100_000,
        brake: 1,
        top: 100_000,
        tail: 0,
    };
    let spans = [
        Span {
            end: 6_000_000_000,
            limit: 100_000,
            slower_in: 1,
            least_in: 1,
        },
        Span {
            end: 7_000_000_000,
            limit: 10,
            slower_in: 1,
            least_in: 1,
        },
    ];
    for (end, ticks, x) in [
        (Some(5_000_050_000), 100_000, 5_000_050_000),
        (None, 86_400, 10),
    ] {
        let ahead = Ahead { spans: &spans, end };
        let leap = run_until(&motor, &ahead, 0, 0, 6_999_999_999, ticks);
        assert_eq!(rt; leap.ticks, ticks);
        assert!(rt; leap.x >= x);
    }
}
