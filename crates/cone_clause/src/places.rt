//! The places, among all contending pairs, of those of which the clause of a cone says something.

ghost use Rattle.std.specs.Prelude.{IfOk, OnOk};
ghost use Rattle.cone_clause.specs.Spoken.{AddsAllFree, AddsBefore, AddsFree, AddsPairs, ArePairPlaces, ArePlaces};

use crate::numbered::NumberedCone;
use cone_form::free_path;
use rail_base::plan::Command;
use rail_base::station::TrainNo;
use std::alloc::{AllocError, Global};

impl NumberedCone<'_> {
    /// The places of the cone's pairs, in order.
    pub(crate) fn pair_places(&self, alloc: Global) -> Result<Vec<usize>, AllocError>
        ensures { IfOk result (λ places. ArePairPlaces self.now places.items) }
    {
        let mut places = Vec::new(alloc);
        self.add_pairs(&mut places)?;
        places.sort_unstable();
        Ok(places)
    }

    /// The places of all pairs of which the clause says something, in order; one may stand there twice.
    pub(crate) fn places_said(&self, alloc: Global) -> Result<Vec<usize>, AllocError>
        ensures { IfOk result (λ places. ArePlaces self.now places.items) }
    {
        let mut places = Vec::new(alloc);
        self.add_all_free(alloc, &mut places)?;
        self.add_pairs(&mut places)?;
        places.sort_unstable();
        Ok(places)
    }

    /// Adds the places of the pairs with this second command. They are those with this first command, the other way
    /// round.
    fn add_before(
        &self,
        alloc: Global,
        places: &mut Vec<usize>,
        command: Command,
    ) -> Result<(), AllocError>
        ensures { OnOk result (AddsBefore self.now command places.old.items places.new.items) }
    {
        let pairs = self.contention.pairs;
        let others = pairs.rivals(alloc, command)?;
        for other in &others {
            places.push(pairs.place_of((*other, command)))?;
        }
        Ok(())
    }

    /// Adds the places of the pairs whose second command is a free one of the train.
    fn add_free(
        &self,
        alloc: Global,
        places: &mut Vec<usize>,
        train: TrainNo,
    ) -> Result<(), AllocError>
        ensures { OnOk result (AddsFree self.now train places.old.items places.new.items) }
    {
        for route in free_path(self.cone, train) {
            let command = Command {
                train,
                route: *route,
            };
            self.add_before(alloc, places, command)?;
        }
        Ok(())
    }

    /// Adds the places of the pairs whose second command is free.
    fn add_all_free(&self, alloc: Global, places: &mut Vec<usize>) -> Result<(), AllocError>
        ensures { OnOk result (AddsAllFree self.now places.old.items places.new.items) }
    {
        for entry in self.cone.trains.as_slice() {
            self.add_free(alloc, places, entry.train)?;
        }
        Ok(())
    }

    /// Adds the places of the cone's pairs.
    fn add_pairs(&self, places: &mut Vec<usize>) -> Result<(), AllocError>
        ensures { OnOk result (AddsPairs self.now places.old.items places.new.items) }
    {
        let pairs = self.contention.pairs;
        for pair in self.cone.pairs.as_slice() {
            places.push(pairs.place_of(*pair))?;
        }
        Ok(())
    }
}
