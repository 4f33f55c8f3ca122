//! How long trains stand at their visits.

ghost use Rattle.std.specs.Prelude.{◌≡◌, ◌≤◌, ◌<◌, ◌^◌, IfOk, length, map};
ghost use Rattle.rail_base.specs.Stations.{whole_ticks};
ghost use Rattle.rail_course.specs.Dwells.{dwells_from};

use rail_base::design::Design;
use std::alloc::{AllocError, Global};

/// How long a train stands at a visit.
#[derive(Clone, Copy, Debug)]
pub struct Dwell {
    /// For how many ticks.
    pub ticks: u64,
    /// How many ticks it has stood at its visits in all when it leaves.
    pub until: u64,
}

/// How long a train stands at each of its visits, by the times in ms.
pub(crate) fn dwells_of(
    alloc: Global,
    design: &Design,
    dwell_ms: &[u32],
) -> Result<Vec<Dwell>, AllocError>
    requires { length dwell_ms.now ≤ 16 }
    ensures { IfOk result (λ ws. ws.items ≡ dwells_from 0 (map (whole_ticks design.now.station) dwell_ms.now)) }
{
    let mut dwells = Vec::new(alloc);
    let mut until: u64 = 0;
    for ms in dwell_ms {
        let ticks = whole_ticks(design, *ms);
        until += ticks;
        dwells.push(Dwell { ticks, until })?;
    }
    Ok(dwells)
}

/// So many ms in ticks, rounded up.
pub(crate) fn whole_ticks(design: &Design, ms: u32) -> u64
    ensures value { result ≡ whole_ticks design.now.station ms }
    ensures below_2_33 { result < 2 ^ 33 }
{
    let tick_ms = u64::from(design.station.tick_ms);
    (u64::from(ms) + tick_ms - 1) / tick_ms
}
