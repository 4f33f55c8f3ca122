//! Each visit is on some route that is given.

ghost use Rattle.std.specs.Prelude.{◌≡◌, ◌≤◌, IfOk, OnOk, IfErr};
ghost use Rattle.std.specs.List.{list_any};
ghost use Rattle.number_sets.specs.Sets.{contains};
ghost use Rattle.rail_base.specs.Numbering.{after_first};
ghost use Rattle.rail_base.specs.Routes.{IsRoute};
ghost use Rattle.rail_base.specs.Stations.{IsTrain};
ghost use Rattle.clause_spec.specs.Clauses.{may_visit};
ghost use Rattle.live_clause_spec.specs.Listed.{live_makes_visits};
ghost use Rattle.plan_encoding.specs.Families.{all_visits, visited_on};
ghost use Rattle.plan_encoding.specs.Encoders.{Emits, Stops, among, over, station, table, written};

use crate::encoder::Encoder;
use crate::links::push_if;
use crate::sink::{BaseFault, ClauseSink};
use crate::tables::Tables;
use crate::visit::{Visit, nodes_of};
use interlocking::starts_in;
use number_sets::NumberSet;
use rail_base::list::List;
use rail_base::plan::Command;
use rail_base::route::{Route, RouteNo, route_at};
use rail_base::station::{NodeNo, TrainNo};
use sat_clause::Lit;
use std::alloc::{AllocError, Global};

impl Tables<'_> {
    /// Emits that all trains make their visits.
    pub fn emit_visits(&self, alloc: Global, sink: &mut ClauseSink) -> Result<(), BaseFault>
        ensures ok { OnOk result (Emits self.now.encoder (all_visits self.now.encoder) sink.old sink.new) }
        ensures err { IfErr result (Stops self.now.encoder (all_visits self.now.encoder) sink.old) }
    {
        for train in &self.trains {
            self.emit_visits_of(alloc, sink, *train)?;
        }
        Ok(())
    }

    /// The clause that one of the routes is given on which a visit may be made.
    fn visit_clause(
        &self,
        alloc: Global,
        train: TrainNo,
        number: u32,
        set: &List<NodeNo>,
    ) -> Result<Vec<Lit>, AllocError>
        requires train { IsTrain (station self.now.encoder) train }
        requires at_least_one { 1 ≤ number }
        ensures { IfOk result (λ clause. clause.items
            ≡ written self.now.encoder (visited_on self.now.encoder train number set.now)) }
    {
        let visit = Visit {
            number,
            list: set,
            set: nodes_of(alloc, set)?,
        };
        let mut clause = Vec::new(alloc);
        for route in self.encoder.routes_of(train) {
            let command = Command {
                train,
                route: *route,
            };
            let literal = self.encoder.given_lit(command, self.encoder.steps.count);
            let visits = self.encoder.may_visit(&visit, *route);
            push_if(&mut clause, literal, visits)?;
        }
        Ok(clause)
    }

    /// Emits that a train makes its visits.
    fn emit_visits_of(
        &self,
        alloc: Global,
        sink: &mut ClauseSink,
        train: TrainNo,
    ) -> Result<(), BaseFault>
        requires train { IsTrain (station self.now.encoder) train }
        ensures ok { OnOk result (Emits self.now.encoder (among self.now.encoder live_makes_visits train)
            sink.old sink.new) }
        ensures err { IfErr result (Stops self.now.encoder (among self.now.encoder live_makes_visits train) sink.old) }
    {
        let design = &self.encoder.interlocking.design;
        let visits = design.train(train).visits.as_slice();
        for number in 1..visits.len() as u32 + 1 {
            let set = &visits[number as usize - 1];
            let clause = self.visit_clause(alloc, train, number, set)?;
            sink.emit(&clause)?;
        }
        Ok(())
    }
}

impl Encoder<'_> {
    /// Whether a visit may be made on a route.
    fn may_visit(&self, visit: &Visit, route: RouteNo) -> bool
        requires route { IsRoute (table self.now) route }
        ensures { result ≡ over self.now may_visit visit.now.number visit.now.list.now route }
    {
        let route = route_at(&self.interlocking.routes, route);
        if visit.number == 1 {
            return starts_in(visit.list.as_slice(), route.start);
        }
        leads_to(&visit.set, route)
    }
}

/// Whether a node of the set is at the end of an edge of a route.
fn leads_to(nodes: &NumberSet, route: &Route) -> bool
    ensures { result ≡ list_any (λ p. contains nodes.now p.0.0) (after_first route.now.nodes) }
{
    match route.nodes.as_slice().split_first() {
        Some((_, later)) => later.iter().any(|place| nodes.contains(place.0.0)),
        None => false,
    }
}
