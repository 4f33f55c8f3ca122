//! The law of overlaps, the contract of a function that does nothing.

ghost use Rattle.rail_laws.specs.Plans.{EachFormed};
ghost use Rattle.rail_laws.specs.Overlaps.{OverlapsStayFree};

/// From the grant of a command until so many ticks after its train's arrival at the route's end as a section of the
/// overlap there is held, no other train holds that section or stands on it.
pub fn overlaps_stay_free()
    ensures { EachFormed OverlapsStayFree }
{}
