//! Laws of the names of routes, each the contract of a function that does nothing.

ghost use Rattle.rail_base.specs.declared.station.Station.{Station};
ghost use Rattle.plan_names.specs.Laws.{NamesStandForRoutes, ShownApart};

/// The names by which routes are shown tell the routes of a design apart.
pub fn shown_routes_are_apart()
    ensures { (d : Station) → ShownApart d }
{}

/// A list of names stands for the one route that is shown by it, and for none where no route is.
pub fn names_stand_for_routes()
    ensures { (d : Station) → NamesStandForRoutes d }
{}
