//! The routes of an interlocking.

ghost use Rattle.std.specs.Prelude.{◌≡◌, ◌≤◌, length, IfOk, filter, map, fold, max, nat_abs};
ghost use Rattle.rail_spec.specs.Track.{routes_of};
ghost use Rattle.rail_base.specs.Routes.{IsRoute, has_section, route_at, share};
ghost use Rattle.interlocking.specs.Sections.{IsSectionSet, last_release};
ghost use Rattle.number_sets.specs.Sets.{contains};

use crate::railway::Interlocking;
use crate::sets::section_sets;
use number_sets::NumberSet;
use rail_base::design::Design;
use rail_base::route::{Route, RouteNo, RouteTable, route_at};
use rail_base::station::SectionNo;
use std::alloc::{AllocError, Global};

impl Interlocking {
    /// The interlocking of a design with its routes.
    pub fn new(
        alloc: Global,
        design: Design,
        routes: RouteTable,
    ) -> Result<Interlocking, AllocError>
        requires table { routes ≡ routes_of design.station }
        requires at_most_2000 { length routes ≤ 2000 }
        ensures design { IfOk result (λ i. i.design ≡ design) }
        ensures routes { IfOk result (λ i. i.routes ≡ routes) }
    {
        let sets = section_sets(alloc, &routes)?;
        Ok(Interlocking {
            design,
            routes,
            sets,
        })
    }

    /// The route of a number.
    pub fn route(&self, number: RouteNo) -> &Route
        requires { IsRoute self.now.routes number }
        ensures { result.now ≡ route_at self.now.routes number }
    {
        route_at(&self.routes, number)
    }

    /// The set of the sections of a route.
    pub fn sections(&self, number: RouteNo) -> &NumberSet
        requires { IsRoute self.now.routes number }
        ensures { IsSectionSet result.now (route_at self.now.routes number) }
    {
        &self.sets[number.0 as usize - 1]
    }

    /// Whether a route has a section, as its own or of the overlap at its end.
    pub fn has_section(&self, number: RouteNo, section: SectionNo) -> bool
        requires { IsRoute self.now.routes number }
        ensures { result ≡ has_section (route_at self.now.routes number) section }
    {
        self.sections(number).contains(section.0)
    }

    /// Whether two routes have a section in common.
    pub fn share(&self, one: RouteNo, other: RouteNo) -> bool
        requires one { IsRoute self.now.routes one }
        requires other { IsRoute self.now.routes other }
        ensures { result ≡ share (route_at self.now.routes one) (route_at self.now.routes other) }
    {
        self.sections(one).meets(self.sections(other))
    }
}
