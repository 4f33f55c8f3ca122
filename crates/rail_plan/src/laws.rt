//! Laws of the places, each the contract of a function that does nothing.

ghost use Rattle.std.specs.Prelude.{◌≡◌, ◌↔◌, true, []};
ghost use Rattle.rail_spec.specs.Plans.{is_executable};
ghost use Rattle.rail_plan.specs.Executable.{blocked};
ghost use Rattle.rail_plan.specs.Laws.{EachNamed, IsFormedWhereNothingIsMisplaced};

/// A plan is well formed exactly where no place says that it isn't.
pub fn plans_are_well_formed_where_nothing_is_misplaced()
    ensures { EachNamed IsFormedWhereNothingIsMisplaced }
{}

/// A plan over the design is executable exactly where no command is blocked.
pub fn plans_are_executable_where_nothing_is_blocked()
    ensures { EachNamed (λ d routes plan. (is_executable d routes plan ≡ true) ↔ (blocked d routes plan ≡ [])) }
{}
