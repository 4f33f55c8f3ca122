//! Laws of the routes of a design, each the contract of a function that does nothing.

ghost use Rattle.std.specs.Prelude.{◌≡◌, ◌≢◌, ◌≤◌, ◌⊎◌, length};
ghost use Rattle.rail_base.specs.declared.station.Station.{Station};
ghost use Rattle.rail_base.specs.declared.station.EdgeNo.{EdgeNo};
ghost use Rattle.rail_base.specs.declared.route.Route.{Route};
ghost use Rattle.rail_base.specs.Admitted.{IsAdmitted};
ghost use Rattle.rail_base.specs.Members.{In};
ghost use Rattle.rail_base.specs.Routes.{length_mm};
ghost use Rattle.rail_base.specs.Stations.{IsEdge};
ghost use Rattle.rail_spec.specs.Track.{all_walks, routes_of};
ghost use Rattle.rail_routes.specs.declared.fault.RouteFault.{RouteFault};
ghost use Rattle.rail_routes.specs.declared.fault.RouteFault.TheVariants as fault;
ghost use Rattle.rail_routes.specs.Refusals.{HasFault, CanBeListed, SomeRepeats, HasReason};
ghost use Rattle.rail_laws.specs.Plans.{EachDesign};

/// A design's routes are listed, or they are refused for one reason: never both, and never for two reasons.
pub fn designs_have_one_answer()
    ensures listed_or_refused { (d : Station) → CanBeListed d ⊎ SomeRepeats d ⊎ HasFault d fault.TooMany }
    ensures not_both { (d : Station) → CanBeListed d → (x : RouteFault) → x ≢ fault.Memory → HasFault d x → ⊥ }
    ensures one_reason { (d : Station) (x y : RouteFault) → HasReason d x → HasReason d y → x ≡ y }
{}

/// Listed routes are as many as the closed paths, so 2,000 at most.
pub fn listed_routes_are_at_most_2000()
    ensures all { (d : Station) → CanBeListed d → length (routes_of d) ≡ length (all_walks d) }
    ensures at_most_2000 { (d : Station) → CanBeListed d → length (routes_of d) ≤ 2000 }
{}

/// Routes go over edges of the design, and are at most 40,000 km long.
pub fn routes_go_over_edges()
    ensures edges { EachDesign (λ d. (r : Route) → In r (routes_of d) → (e : EdgeNo) → In e r.edges → IsEdge d e) }
    ensures at_most_40_km { (d : Station) → IsAdmitted d → (r : Route) → In r (routes_of d)
        → length_mm r ≤ 40000000000 }
{}
