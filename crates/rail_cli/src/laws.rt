//! Laws of the answers, each the contract of a function that does nothing.

ghost use Rattle.rail_cli.specs.Passes.{StoredProofsPass, VerifyPassesCheck};
ghost use Rattle.rail_cli.specs.TimePasses.{StoredTimesPass, TightestPassesCheck};

/// Where a search, with `--bounds` or without, has found that there is no plan, and so has stored a proof, a check of
/// the same design and as many steps answers yes over the files that the search left. The names of the two files
/// differ.
pub fn stored_proofs_pass()
    ensures asked { StoredProofsPass }
    ensures words { VerifyPassesCheck }
{}

/// Where a search for the least time of a within, with `--bounds` or without, has stored a proof, a check of the same
/// design and as many steps answers yes over the files that the search left, with the time put into the within of which the
/// proof shows that it is too little: a tick less than the least, or as many ticks as are run. The names of the two files
/// differ.
pub fn stored_times_pass()
    ensures asked { StoredTimesPass }
    ensures words { TightestPassesCheck }
{}
