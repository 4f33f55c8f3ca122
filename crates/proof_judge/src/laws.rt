//! What follows of what a file shows.

ghost use Rattle.proof_judge.specs.Judged.{YesIsInfeasible};

/// Where a file shows k of a design, which is from 1 to n, no plan of k steps is feasible, whoever wrote the file.
pub fn yes_is_infeasible()
    ensures { YesIsInfeasible }
{}
