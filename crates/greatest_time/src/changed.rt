//! A design whose greatest time is another.

ghost use Rattle.std.specs.Prelude.{◌≡◌, ◌≤◌, IfOk, length};
ghost use Rattle.greatest_time.specs.Times.{with_max};

use interlocking::Interlocking;
use rail_base::design::Design;
use rail_base::list::List;
use rail_base::station::Station;
use std::alloc::{AllocError, Global};

/// The interlocking of the design with this greatest time, in ms, in its within of this number, counted from 1; all
/// else is as it was.
pub fn with_max_ms(
    alloc: Global,
    interlocking: Interlocking,
    within: u32,
    max_ms: u32,
) -> Result<Interlocking, AllocError>
    requires from_1 { 1 ≤ within }
    requires there { within ≤ length interlocking.design.station.withins }
    requires a_day { max_ms ≤ 86400000 }
    ensures design { IfOk result (λ i. i.design.station ≡ with_max interlocking.design.station within max_ms) }
    ensures routes { IfOk result (λ i. i.routes ≡ interlocking.routes) }
{
    let design = design_with(interlocking.design, within, max_ms);
    Interlocking::new(alloc, design, interlocking.routes)
}

/// The design with this greatest time.
fn design_with(design: Design, within: u32, max_ms: u32) -> Design
    requires from_1 { 1 ≤ within }
    requires there { within ≤ length design.station.withins }
    requires a_day { max_ms ≤ 86400000 }
    ensures { result.station ≡ with_max design.station within max_ms }
{
    let station = station_with(design.station, within, max_ms);
    Design { station }
}

/// The station with this greatest time.
fn station_with(station: Station, within: u32, max_ms: u32) -> Station
    requires from_1 { 1 ≤ within }
    requires there { within ≤ length station.withins }
    ensures { result ≡ with_max station within max_ms }
{
    let mut station = station;
    let mut withins = station.withins.into_vec();
    withins[within as usize - 1].max_ms = max_ms;
    station.withins = List::from_vec(withins);
    station
}
