//! What follows of what a file shows.

ghost use Rattle.log_checker.specs.Laws.{CheckIsSound};

/// Where a file shows k, k is one of the steps asked for, and no values of the variables make all clauses of the base
/// true and say that all is given by step k.
pub fn check_is_sound()
    ensures { CheckIsSound }
{}
