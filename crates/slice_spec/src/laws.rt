//! Laws of the cones of failed plans, each the contract of a function that does nothing.

ghost use Rattle.cone_spec.specs.Laws.{Refutes};
ghost use Rattle.slice_spec.specs.Slices.{whole_cone};
ghost use Rattle.slice_spec.specs.Failures.{EachFailure, EachViolation, PathConesRefute, ClosedSlicesRefute};
ghost use Rattle.slice_spec.specs.Failures.{LastTickIsClosed, LowerIsClosed, LeastIsOne, SliceIsOne, LeastSlicesRefute};
ghost use Rattle.rail_laws.specs.Plans.{EachWellFormed};

/// The slice of a failed plan, for any closed horizons, is valid, and its clause is false of the plan.
pub fn slices_refute()
    ensures { EachFailure ClosedSlicesRefute }
{}

/// So are its whole cone and that cone's clause.
pub fn whole_cones_refute()
    ensures { EachFailure (λ d routes n plan last v. Refutes d routes n (whole_cone d routes plan last v) plan) }
{}

/// So are the cone of a path that misses a visit, and its clause.
pub fn path_cones_refute()
    ensures { EachWellFormed PathConesRefute }
{}

/// Where a violation is certain at the last tick, that tick for all trains is closed.
pub fn the_last_tick_is_closed()
    ensures { EachViolation LastTickIsClosed }
{}

/// The lower of two closed families of horizons is closed.
pub fn the_lower_is_closed()
    ensures { EachViolation LowerIsClosed }
{}

/// Two least families of horizons are one, for the trains of the station.
pub fn least_horizons_are_one()
    ensures { EachViolation LeastIsOne }
{}

/// So a plan that fails in one way has one slice.
pub fn slices_are_one()
    ensures { EachViolation SliceIsOne }
{}

/// The slice with the least horizons is valid, and its clause is false of the plan.
pub fn least_slices_refute()
    ensures { EachFailure LeastSlicesRefute }
{}
