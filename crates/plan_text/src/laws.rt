//! The law of the text, the contract of a function that does nothing.

ghost use Rattle.std.specs.Prelude.{List};
ghost use Rattle.rail_base.specs.declared.station.Station.{Station};
ghost use Rattle.rail_base.specs.declared.route.Route.{Route};
ghost use Rattle.plan_text.specs.Laws.{PlansReadBack};

/// The text of a plan that the reader doesn't refuse spells that plan, with the trains of each step in file order.
pub fn plans_read_back()
    ensures { (d : Station) (routes : List Route) → PlansReadBack d routes }
{}
