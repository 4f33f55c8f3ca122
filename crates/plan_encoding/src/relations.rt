//! How the tables of an encoder are found.

ghost use Rattle.std.specs.Prelude.{◌≡◌, ◌++◌, All, IfOk, OnOk, map, filter};
ghost use Rattle.rail_base.specs.Routes.{IsRoute};
ghost use Rattle.rail_base.specs.Stations.{trains};
ghost use Rattle.rail_spec.specs.Plans.{route_numbers};
ghost use Rattle.clause_spec.specs.Clauses.{leading_to};
ghost use Rattle.plan_encoding.specs.Encoders.{station, table};
ghost use Rattle.plan_encoding.specs.Tables.{exclude_both, exclusions, going_on, leading, rows_by};

use crate::encoder::Encoder;
use crate::links::{exclude, push_if};
use crate::network::Network;
use crate::tables::Tables;
use interlocking::goes_on;
use rail_base::list::List;
use rail_base::route::{RouteNo, Start, route_at};
use rail_base::station::TrainNo;
use std::alloc::{AllocError, Global};

impl<'a> Encoder<'a> {
    /// The tables of the encoder.
    pub fn tables(self, alloc: Global) -> Result<Tables<'a>, AllocError>
        ensures { IfOk result (λ tables. tables.encoder ≡ self.entry) }
    {
        self.network(alloc)?.tables(alloc)
    }

    /// The numbers of all trains.
    fn trains(&self, alloc: Global) -> Result<Vec<TrainNo>, AllocError>
        ensures { IfOk result (λ ts. ts.items ≡ trains (station self.now)) }
    {
        let mut trains = Vec::new(alloc);
        for number in 1..self.interlocking.design.station.trains.len() as u32 + 1 {
            trains.push(TrainNo(number))?;
        }
        Ok(trains)
    }

    /// The numbers of all routes.
    fn numbers(&self, alloc: Global) -> Result<Vec<RouteNo>, AllocError>
        ensures { IfOk result (λ rs. rs.items ≡ route_numbers (table self.now)) }
    {
        let mut numbers = Vec::new(alloc);
        for number in 1..self.interlocking.routes.len() as u32 + 1 {
            numbers.push(RouteNo(number))?;
        }
        Ok(numbers)
    }

    /// The encoder with the numbers of its routes.
    pub fn network(self, alloc: Global) -> Result<Network<'a>, AllocError>
        ensures { IfOk result (λ network. network.encoder ≡ self.entry) }
    {
        Ok(Network {
            encoder: self,
            numbers: self.numbers(alloc)?,
        })
    }
}

impl<'a> Network<'a> {
    /// The routes that end at a start.
    fn leading_to(&self, alloc: Global, start: Start) -> Result<List<RouteNo>, AllocError>
        ensures { IfOk result (λ rs. rs ≡ leading_to (table self.now.encoder) start) }
    {
        let mut found = Vec::new(alloc);
        for number in &self.numbers {
            let ends = goes_on(
                route_at(&self.encoder.interlocking.routes, *number).finish,
                start,
            );
            push_if(&mut found, *number, ends)?;
        }
        Ok(List::from_vec(found))
    }

    /// The routes that go on where a route ends.
    fn going_on(&self, alloc: Global, route: RouteNo) -> Result<List<RouteNo>, AllocError>
        requires { IsRoute (table self.now.encoder) route }
        ensures { IfOk result (λ rs. rs ≡ going_on (table self.now.encoder) route) }
    {
        let finish = route_at(&self.encoder.interlocking.routes, route).finish;
        let mut found = Vec::new(alloc);
        for number in &self.numbers {
            let starts = goes_on(
                finish,
                route_at(&self.encoder.interlocking.routes, *number).start,
            );
            push_if(&mut found, *number, starts)?;
        }
        Ok(List::from_vec(found))
    }

    /// For each route, those that end where it starts.
    pub fn all_leading(&self, alloc: Global) -> Result<Vec<List<RouteNo>>, AllocError>
        ensures { IfOk result (λ rows. rows.items ≡ rows_by leading (table self.now.encoder)) }
    {
        let mut rows = Vec::new(alloc);
        for number in &self.numbers {
            let start = route_at(&self.encoder.interlocking.routes, *number).start;
            rows.push(self.leading_to(alloc, start)?)?;
        }
        Ok(rows)
    }

    /// For each route, those that go on where it ends.
    fn all_going_on(&self, alloc: Global) -> Result<Vec<List<RouteNo>>, AllocError>
        ensures { IfOk result (λ rows. rows.items ≡ rows_by going_on (table self.now.encoder)) }
    {
        let mut rows = Vec::new(alloc);
        for number in &self.numbers {
            rows.push(self.going_on(alloc, *number)?)?;
        }
        Ok(rows)
    }

    /// Adds each pair of a route and a later one that exclude each other.
    fn add_exclusions(
        &self,
        found: &mut Vec<(RouteNo, RouteNo)>,
        route: RouteNo,
        later: &[RouteNo],
    ) -> Result<(), AllocError>
        requires route { IsRoute (table self.now.encoder) route }
        requires later { All (IsRoute (table self.now.encoder)) later.now }
        ensures { OnOk result (found.new.items ≡ found.old.items
            ++ filter (exclude_both (table self.now.encoder)) (map (λ q. (route, q)) later.now)) }
    {
        for other in later {
            let one = route_at(&self.encoder.interlocking.routes, route);
            let excludes = exclude(one, route_at(&self.encoder.interlocking.routes, *other));
            push_if(found, (route, *other), excludes)?;
        }
        Ok(())
    }

    /// Each two routes that exclude each other.
    fn exclusions(&self, alloc: Global) -> Result<Vec<(RouteNo, RouteNo)>, AllocError>
        ensures { IfOk result (λ ps. ps.items ≡ exclusions (table self.now.encoder)) }
    {
        let mut found = Vec::new(alloc);
        let mut left = self.numbers.as_slice();
        while let Some((route, later)) = left.split_first() {
            self.add_exclusions(&mut found, *route, later)?;
            left = later;
        }
        Ok(found)
    }

    /// The tables of the encoder.
    fn tables(&self, alloc: Global) -> Result<Tables<'a>, AllocError>
        ensures { IfOk result (λ tables. tables.encoder ≡ self.now.encoder) }
    {
        let trains = self.encoder.trains(alloc)?;
        let leading = self.all_leading(alloc)?;
        let going_on = self.all_going_on(alloc)?;
        let exclusions = self.exclusions(alloc)?;
        Ok(Tables {
            encoder: self.encoder,
            trains,
            leading,
            going_on,
            exclusions,
        })
    }
}
