//! Whether the free commands of a cone are granted, and its waiting ones held up.

ghost use Rattle.std.specs.Prelude.{◌≡◌, ◌≤◌, true, Some};
ghost use Rattle.rail_base.specs.Routes.{IsRoute};
ghost use Rattle.cone_spec.specs.Cones.{all_free, has_pair};
ghost use Rattle.cone_run.specs.Runs.{last_tick};
ghost use Rattle.cone_run.specs.Layouts.{all_granted, all_holders_fit, free_granted, has_cleared, holder_fits};
ghost use Rattle.cone_run.specs.Layouts.{holder_needed, holds_up, just_granted, routes_in};

use crate::asked::{all_released, grant_tick, is_by};
use crate::checked::ConeRun;
use crate::train::TrainRun;
use crate::waits::horizon_of;
use cone_form::sorted_pairs;
use cone_spec::ConeTrain;
use rail_base::plan::Command;
use rail_base::route::{RouteNo, route_at};

impl ConeRun<'_> {
    /// Whether all free commands are granted.
    pub(crate) fn all_granted(&self) -> bool
        ensures { result ≡ all_granted self.now.layout }
    {
        for entry in self.layout.cone.trains.as_slice() {
            let train = TrainRun {
                run: *self,
                said: entry,
            };
            if !train.free_granted() {
                return false;
            }
        }
        true
    }

    /// Whether each train has a holder where it needs one, which holds it up, and has none where it needs none.
    pub(crate) fn all_holders_fit(&self) -> bool
        ensures { result ≡ all_holders_fit self.now.layout }
    {
        for entry in self.layout.cone.trains.as_slice() {
            let train = TrainRun {
                run: *self,
                said: entry,
            };
            if !train.holder_fits() {
                return false;
            }
        }
        true
    }

    /// Whether a command has released by a tick all sections that it shares with one that waits for it.
    fn has_cleared(&self, tick: u64, first: Command, second: Command) -> bool
        requires tick { tick ≤ last_tick self.now.layout.cone.now }
        requires second { IsRoute (routes_in self.now.layout) second.route }
        requires listed_pair { has_pair self.now.layout.cone.now first second ≡ true }
        ensures { result ≡ has_cleared self.now.layout tick second first }
    {
        let routes = &self.layout.interlocking.routes;
        all_released(
            self.history,
            first,
            tick,
            route_at(routes, first.route),
            route_at(routes, second.route),
        )
    }
}

/// Whether all commands of a train are free.
fn all_free(entry: &ConeTrain) -> bool
    ensures { result ≡ all_free entry.now }
{
    entry.path.len() <= entry.free as usize
}

impl TrainRun<'_> {
    /// Whether the train's free commands are granted by its horizon.
    fn free_granted(&self) -> bool
        ensures { result ≡ free_granted self.now.run.layout self.now.said.now }
    {
        let said = self.said;
        if said.free == 0 {
            return true;
        }
        is_by(
            grant_tick(self.run.history, said.train, said.free),
            said.horizon,
        )
    }

    /// Whether the train's last free command is granted exactly at its horizon, which is not 0.
    fn just_granted(&self) -> bool
        requires { 1 ≤ self.now.said.now.horizon }
        ensures { result ≡ just_granted self.now.run.layout self.now.said.now }
    {
        let said = self.said;
        if said.free == 0 {
            return false;
        }
        !is_by(
            grant_tick(self.run.history, said.train, said.free),
            said.horizon - 1,
        )
    }

    /// Whether the train needs a holder.
    fn holder_needed(&self) -> bool
        ensures { result ≡ holder_needed self.now.run.layout self.now.said.now }
    {
        if all_free(self.said) || self.said.horizon == 0 {
            return false;
        }
        !self.just_granted()
    }

    /// Whether a command holds up the train, whose first waiting command has this route.
    fn holds_up(&self, holder: Command, route: RouteNo) -> bool
        requires later { 1 ≤ self.now.said.now.horizon }
        requires route { IsRoute (routes_in self.now.run.layout) route }
        ensures { result ≡ holds_up self.now.run.layout self.now.said.now holder (Some route) }
    {
        let layout = self.run.layout;
        let waiting = Command {
            train: self.said.train,
            route,
        };
        let listed = sorted_pairs(layout.cone);
        if !listed.is_among(holder, waiting) {
            return false;
        }
        let last = self.said.horizon - 1;
        if horizon_of(layout.cone, holder.train) < last {
            return false;
        }
        !self.run.has_cleared(last, holder, waiting)
    }

    /// Whether the train has a holder where it needs one, which holds it up, and has none where it needs none.
    fn holder_fits(&self) -> bool
        ensures { result ≡ holder_fits self.now.run.layout self.now.said.now self.now.said.now.holder }
    {
        let needed = self.holder_needed();
        match self.said.holder {
            None => !needed,
            Some(holder) => {
                if !needed {
                    return false;
                }
                let path = self.said.path.as_slice();
                self.holds_up(holder, path[self.said.free as usize])
            }
        }
    }
}
