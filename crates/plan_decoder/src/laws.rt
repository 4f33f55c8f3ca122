//! What a solver's values say of the clauses of a base.

ghost use Rattle.plan_decoder.specs.Laws.{PrefixIsTrue};

/// Values that make all live clauses of a store true make those true with which it begins.
pub fn live_clauses_are_true()
    ensures { PrefixIsTrue }
{}
