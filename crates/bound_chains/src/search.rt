//! What chains are sought with, and the least ticks of their legs.

ghost use Rattle.std.specs.Prelude.{◌≡◌, IfOk};

use crate::known::{release_place, target, visit_place};
use crate::paths::Paths;
use crate::tables::Tables;
use crate::ticks::Ticks;
use crate::waits::Wait;
use interlocking::Interlocking;
use leg_targets::Visit;
use rail_base::history::History;
use rail_base::route::RouteNo;
use rail_base::station::TrainNo;
use std::alloc::{AllocError, Global};

/// What a chain of commands of a plan is sought with.
#[derive(Drop)]
pub struct ChainSearch<'a> {
    pub alloc: Global,
    pub interlocking: &'a Interlocking,
    pub tables: &'a Tables,
    pub paths: &'a Paths,
    pub history: &'a History,
    pub(crate) ticks: &'a mut Ticks,
    pub(crate) waits: Vec<Wait>,
}

impl<'a> ChainSearch<'a> {
    /// A search of a plan by its run, with the lists of its design. The ticks that it finds out are kept for other
    /// searches of the design.
    ///
    /// # Errors
    ///
    /// Want of memory alone.
    pub fn of(
        alloc: Global,
        interlocking: &'a Interlocking,
        tables: &'a Tables,
        paths: &'a Paths,
        history: &'a History,
        ticks: &'a mut Ticks,
    ) -> Result<ChainSearch<'a>, AllocError>
        ensures interlocking { IfOk result (λ search. search.interlocking.now ≡ interlocking.now) }
        ensures tables { IfOk result (λ search. search.tables.now ≡ tables.now) }
        ensures paths { IfOk result (λ search. search.paths.now ≡ paths.now) }
        ensures history { IfOk result (λ search. search.history.now ≡ history.now) }
    {
        let mut search = ChainSearch {
            alloc,
            interlocking,
            tables,
            paths,
            history,
            ticks,
            waits: Vec::new(alloc),
        };
        search.waits = search.find_waits()?;
        Ok(search)
    }
}

impl ChainSearch<'_> {
    /// The least ticks of a train on a walk to where it has released what a route waits for, from a visit's place on it
    /// or from the grant of its first route; none where the visit is past that, or a train or a route is not of the
    /// design.
    ///
    /// # Errors
    ///
    /// Want of memory alone.
    pub fn ticks_to_release(
        &mut self,
        train: TrainNo,
        walk: &[RouteNo],
        from: Option<Visit>,
        next: RouteNo,
    ) -> Result<Option<u64>, AllocError> {
        match release_place(self.interlocking, train, walk, next) {
            Some(place) => self.ticks_from(train, walk, from, place),
            None => Ok(None),
        }
    }

    /// The same to where a visit can be made on the walk's last route.
    ///
    /// # Errors
    ///
    /// Want of memory alone.
    pub fn ticks_to_visit(
        &mut self,
        train: TrainNo,
        walk: &[RouteNo],
        from: Option<Visit>,
        to: Visit,
    ) -> Result<Option<u64>, AllocError> {
        match target(self.interlocking, to, walk) {
            Some(place) => self.ticks_from(train, walk, from, place),
            None => Ok(None),
        }
    }

    /// The least ticks of a train on a walk to a place, from a visit's place on it or from the grant of its first
    /// route; none where the visit is past that.
    fn ticks_from(
        &mut self,
        train: TrainNo,
        walk: &[RouteNo],
        from: Option<Visit>,
        place: u64,
    ) -> Result<Option<u64>, AllocError> {
        let start = match from {
            None => None,
            Some(visit) => {
                let start = visit_place(self.interlocking, visit, walk);
                if start.is_none_or(|start| place < start) {
                    return Ok(None);
                }
                start
            }
        };
        self.ticks
            .hop(self.alloc, self.interlocking, train, walk, start, place)
    }
}
