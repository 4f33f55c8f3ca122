//! Laws of how many literals there are, each the contract of a function that does nothing.

ghost use Rattle.std.specs.Prelude.{◌↔◌, ℕ, List};
ghost use Rattle.clause_spec.specs.Laws.{HasFewLiterals};
ghost use Rattle.base_spec.specs.Bases.{clauses_of};
ghost use Rattle.limit_words.specs.Counts.{Fits, GrowEvenly};
ghost use Rattle.clause_spec.specs.declared.question.BaseKind.{BaseKind};
ghost use Rattle.rail_base.specs.declared.route.Route.{Route};
ghost use Rattle.rail_base.specs.declared.station.Station.{Station};

/// With each step more a search begins with as many literals more as those for two steps are more than those for one.
pub fn literals_grow_evenly()
    ensures { (kind : BaseKind) (d : Station) (routes : List Route) → GrowEvenly kind d routes }
{}

/// Listed in their order, the clauses of a search pass 16,000,000 literals nowhere exactly where all together have at
/// most so many.
pub fn clauses_are_few_by_their_literals()
    ensures { (kind : BaseKind) (d : Station) (routes : List Route) (n : ℕ)
        → HasFewLiterals (clauses_of kind d routes n) ↔ Fits kind d routes n }
{}
