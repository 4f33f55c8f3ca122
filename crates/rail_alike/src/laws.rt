//! Laws of trains that are alike, each the contract of a function that does nothing.

ghost use Rattle.std.specs.Prelude.{◌≡◌, ◌≤◌, ◌↔◌, ℕ, List, length};
ghost use Rattle.rail_base.specs.declared.station.Station.{Station};
ghost use Rattle.rail_base.specs.declared.station.TrainNo.{TrainNo};
ghost use Rattle.rail_base.specs.declared.plan.Command.{Command};
ghost use Rattle.rail_base.specs.Members.{In};
ghost use Rattle.rail_base.specs.Stations.{IsTrain};
ghost use Rattle.rail_spec.specs.Feasible.{IsFeasible, IsInfeasible};
ghost use Rattle.rail_alike.specs.Renaming.{Renames, RunsAreRenamed, StaysFeasible};
ghost use Rattle.rail_alike.specs.Alike.{AreAlike, AreNeighbors, AreNeighborsBeside, exchange, with_max_ms};
ghost use Rattle.rail_alike.specs.Tests.{neighbors, neighbors_beside};
ghost use Rattle.rail_alike.specs.Turns.{AllInTurn, AreNamed, ArePairs, ComeInTurn, HasAllInTurn, InTurn, NoneInTurn};
ghost use Rattle.rail_alike.specs.Turns.{EachPairing, EarlierHasBegun};
ghost use Rattle.rail_laws.specs.Plans.{EachWellFormed};

/// Where two trains are exchanged that are alike, each moves as the other did, and any other train as it did. So it is
/// with any renaming of trains that the design doesn't notice.
pub fn runs_are_exchanged()
    ensures two { (d : Station) (t u : TrainNo) → AreAlike d t u → RunsAreRenamed d (exchange t u) }
    ensures any { (d : Station) (other : TrainNo → TrainNo) → Renames d other → RunsAreRenamed d other }
{}

/// A plan is feasible exactly where it is so with the two exchanged, or with trains so renamed.
pub fn plans_stay_feasible()
    ensures two { (d : Station) (t u : TrainNo) → AreAlike d t u → StaysFeasible d (exchange t u) }
    ensures any { (d : Station) (other : TrainNo → TrainNo) → Renames d other → StaysFeasible d other }
{}

/// Each train is like itself; where one is like another, that one is like it; and trains that are like one train are
/// alike.
pub fn likeness_goes_on()
    ensures itself { (d : Station) (t : TrainNo) → IsTrain d t → AreAlike d t t }
    ensures back { (d : Station) (t u : TrainNo) → AreAlike d t u → AreAlike d u t }
    ensures on { (d : Station) (t u x : TrainNo) → AreAlike d t u → AreAlike d u x → AreAlike d t x }
{}

/// Where there is a feasible plan, there is one in which of each pair of trains that are alike the earlier is given its
/// first command in a step no later than the other's. So where no plan that does so is feasible, none is.
pub fn pairs_come_in_turn()
    ensures of_pairs { EachPairing (λ d pairs. (n : ℕ) → ComeInTurn d n pairs) }
    ensures named { EachPairing AreNamed }
    ensures none { EachPairing (λ d pairs. (n : ℕ) → NoneInTurn d n pairs → IsInfeasible d n) }
{}

/// The neighbors are exactly the trains that are alike with none between that is like them, and where they come in turn
/// all trains do that are alike.
pub fn neighbors_are_enough()
    ensures exactly { (d : Station) (t u : TrainNo) → In (t, u) (neighbors d) ↔ AreNeighbors d t u }
    ensures pairs { (d : Station) → ArePairs d (neighbors d) }
    ensures all { (d : Station) (plan : List (List Command)) → InTurn (neighbors d) plan → AllInTurn d plan }
{}

/// The neighbors beside a within are exactly the trains that are alike and that it doesn't name, with none between that
/// is like them and that it doesn't name. They are the same whatever its greatest time is.
pub fn neighbors_beside_a_within()
    ensures exactly { (d : Station) (w : ℕ) (t u : TrainNo) → In (t, u) (neighbors_beside d w)
        ↔ AreNeighborsBeside d w t u }
    ensures pairs { (d : Station) (w : ℕ) → ArePairs d (neighbors_beside d w) }
    ensures same { (d : Station) (w ms : ℕ) → 1 ≤ w → w ≤ length d.withins
        → neighbors_beside (with_max_ms d w ms) w ≡ neighbors_beside d w }
{}

/// Where there is a feasible plan, there is one in which all trains that are alike come in turn, in file order.
pub fn all_alike_come_in_turn()
    ensures { (d : Station) (n : ℕ) (plan : List (List Command)) → IsFeasible d n plan → HasAllInTurn d n }
{}

/// Where two trains come in turn, by the step of each command of the later one the earlier is given a route that starts
/// at its first visit.
pub fn the_earlier_has_begun()
    ensures { EachWellFormed EarlierHasBegun }
{}
