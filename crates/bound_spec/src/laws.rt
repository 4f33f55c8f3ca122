//! What holds of all runs, each law the contract of a function that does nothing.

ghost use Rattle.free_spec.specs.Runs.{OnEachLeg};
ghost use Rattle.bound_spec.specs.Validity.{ValidBoundsHold};
ghost use Rattle.bound_spec.specs.Hops.{RunTakesLeast, WalkTakesLeast, WaitTakesTick, GrantTakesTick, HopsAddUp};
ghost use Rattle.bound_spec.specs.Hops.{TakesFewer, TakesLeastOfWalks, OnEachChain, ChainTakesTicks, ChainWaitsTicks};
ghost use Rattle.bound_spec.specs.Hops.{ChainTakesTicksFrom};
ghost use Rattle.rail_laws.specs.Plans.{EachFeasible, EachPlan, InEveryRun};

/// Hops of one train along a leg: from the grant of its first command, and from a place of it on.
pub fn hops_take_their_least_ticks()
    ensures run { OnEachLeg RunTakesLeast }
    ensures on { OnEachLeg WalkTakesLeast }
{}

/// The other hops: from a release to a grant that waits for it, and from a grant to a later one of the same train.
/// Ticks of hops add up, and may be taken as fewer.
pub fn hops_add_up()
    ensures clear { EachPlan WaitTakesTick }
    ensures next { InEveryRun GrantTakesTick }
    ensures sum { EachPlan HopsAddUp }
    ensures fewer { InEveryRun TakesFewer }
{}

/// Of a walk in a train's path of which each route is one of its place it is enough to know the places: it takes the
/// least of what all walks through them take.
pub fn walks_take_the_least_of_their_places()
    ensures { InEveryRun TakesLeastOfWalks }
{}

/// A chain of rides, each of which waits for what the one before releases, takes the sum of their least ticks over all
/// walks through their places: from the grant of the first ride, or from a place on it, to a place on the last, or to
/// its grant. Of each ride no more than h ticks are counted.
pub fn chains_of_rides_take_their_ticks()
    ensures granted { OnEachChain ChainTakesTicks }
    ensures waits { OnEachChain ChainWaitsTicks }
    ensures passed { OnEachChain ChainTakesTicksFrom }
{}

/// The clause of a valid certificate is true of every feasible plan, whatever other commands it has.
pub fn clauses_hold_of_feasible_plans()
    ensures { EachFeasible ValidBoundsHold }
{}
