//! What holds of all runs, each law the contract of a function that does nothing.

ghost use Rattle.std.specs.Prelude.{◌≡◌, ℕ, suc, ◌+◌, ◌-◌, ◌*◌, ◌/◌, ◌≤◌, ◌<◌};
ghost use Rattle.free_spec.specs.Free.{rise, steps, LowerIsFree};
ghost use Rattle.free_spec.specs.Runs.{OnEachLeg, MovesAreFree, TakesLeastTicks, TakesLeastTicksWaited};
ghost use Rattle.free_spec.specs.Runs.{TakesLeastOfWhatFollows};
ghost use Rattle.rail_laws.specs.Plans.{InEveryRun};
ghost use Rattle.rail_laws.specs.Speeds.{OnEachTrack};

/// Whose head is at a place of a leg or before it is a tick later at most the free move further.
pub fn moves_are_free()
    ensures { OnEachLeg MovesAreFree }
{}

/// So to come from a place of a leg to another takes the steps of free moves at the least, whatever the horizon up to
/// which they are counted.
pub fn walks_take_their_least_ticks()
    ensures { OnEachLeg TakesLeastTicks }
{}

/// And a train that is still to be granted a command before a place of a leg comes from there as one that stands there
/// and gains its acceleration and its braking in each tick.
pub fn waiting_trains_take_their_least_ticks()
    ensures { OnEachLeg TakesLeastTicksWaited }
{}

/// On routes in its path a train takes the least of what holds on each leg that they can be in it, whatever follows
/// them.
pub fn walks_take_the_least_of_what_follows()
    ensures { InEveryRun TakesLeastOfWhatFollows }
{}

/// A lower move than a free one is free, and so is none. So the greatest can be found by halving.
pub fn lower_moves_are_free()
    ensures { OnEachTrack LowerIsFree }
{}

/// Where the free move is none no number of steps reaches what is ahead. So a count may end there.
pub fn no_steps_go_on_from_a_stop()
    ensures { (move : ℕ → ℕ) (h x y : ℕ) → move x ≡ 0 → x < y → steps move h x y ≡ suc h }
{}

/// The distance gained above a speed is a sum of as many speeds as the gains that it takes to come there, less one.
pub fn rises_are_sums()
    ensures { (a u l : ℕ) → 1 ≤ a → let c = (u - (l + 1)) / a in 2 * rise a u l + a * (c * (c + 1)) ≡ 2 * (c * u) }
{}
