//! The sentences about the legs of a bound, one after the other. An error is want of memory; then a part of what is appended may
//! stand there.

ghost use Rattle.std.specs.Prelude.{◌≡◌, ◌≤◌, ◌+◌, ◌++◌, All, IfOk, OnOk};
ghost use Rattle.std.specs.Option.{ForSome};
ghost use Rattle.rail_base.specs.Stations.{IsTrain};
ghost use Rattle.leg_targets.specs.Visits.{origin_of};
ghost use Rattle.evidence_words.specs.Bounds.{moment_text};
ghost use Rattle.rail_text.specs.Added.{AddsLines};

use crate::places::{leg_text, put_meeting};
use bound_spec::{Leg, first_train, last_routes};
use bound_ticks::{Ride, first_routes};
use cone_words::{push_sentence, put_any_route, put_makes, put_tick, put_ticks};
use interlocking::Interlocking;
use leg_targets::Visit;
use rail_base::design::Design;
use rail_base::names::train_name;
use std::alloc::{AllocError, Global};

/// Appends a tick of the run, or so many ticks after a visit.
pub fn put_moment(
    text: &mut Vec<u8>,
    design: &Design,
    after: Option<Visit>,
    tick: u64,
) -> Result<(), AllocError>
    ensures { OnOk result (text.new.items
        ≡ text.old.items ++ moment_text design.now.station (origin_of after) tick) }
{
    match after {
        None => put_tick(text, design, tick),
        Some(visit) => {
            put_ticks(text, design, tick)?;
            text.extend_from_slice(b" after ")?;
            put_makes(text, design, visit.train, visit.number)?;
            Ok(())
        }
    }
}

/// Legs that wait for each other, from when their ticks are counted, how many of each at the most, and to which visit:
/// none where they end with a grant.
#[derive(Clone, Copy)]
pub struct Chain<'a> {
    pub interlocking: &'a Interlocking,
    /// The number of their line.
    pub line: u64,
    pub most: u64,
    /// The visit after which ticks are counted, or none where they are ticks of the run.
    pub after: Option<Visit>,
    pub to: Option<Visit>,
    pub ghost at_most_86400: { most ≤ 86400 },
    pub ghost end: { ForSome to (λ v. IsTrain interlocking.now.design.station v.train) },
}

impl Chain<'_> {
    ghost use Rattle.evidence_words.specs.Ends.{end_of_legs, last_ticks, said_of_legs, said_of_leg, said_of_wait, said_of_waiting};
    ghost use Rattle.bound_ticks.specs.Chains.{chain_of, end_ticks};
    ghost use Rattle.bound_ticks.specs.Walks.{IsLeg};
    ghost use Rattle.std.specs.Prelude.{◌∷◌, []};
    ghost use Rattle.cone_words.specs.Phrases.{sentence};
    ghost use Rattle.evidence_words.specs.Bounds.{leg_text, legs_sentences, wait_text};

    /// Appends the sentences about legs of which the first one's first command is granted at this tick at the earliest,
    /// and gives the tick at which they are through at the earliest.
    pub fn push_legs(
        &self,
        alloc: Global,
        from: Option<Visit>,
        tick: u64,
        legs: &[Leg],
        lines: &mut Vec<Vec<u8>>,
    ) -> Result<u64, AllocError>
        requires legs { All (IsLeg self.now.interlocking.now) legs.now }
        requires at_most_10_000_000 { end_of_legs self.now from tick legs.now ≤ 10000000 }
        requires from { ForSome from (λ v. IsTrain self.now.interlocking.now.design.station v.train) }
        ensures end { IfOk result (λ n. n ≡ end_of_legs self.now from tick legs.now) }
        ensures lines { OnOk result (AddsLines lines.old lines.new (said_of_legs self.now from tick legs.now)) }
    {
        match legs {
            [] => Ok(tick),
            [last] => {
                self.push_leg(alloc, last, lines)?;
                Ok(tick + self.end_ticks(alloc, from, last)?)
            }
            [leg, rest @ ..] => {
                let ride = Ride {
                    interlocking: self.interlocking,
                    leg,
                    from,
                    most: self.most,
                };
                let next = tick + ride.leg_to_release(alloc, first_routes(rest))? + 1;
                self.push_waiting(alloc, next, leg, rest, lines)?;
                self.push_legs(alloc, None, next, rest, lines)
            }
        }
    }

    /// That a leg's train is not granted its first route before a moment, since it waits for the leg before.
    fn wait_text(
        &self,
        alloc: Global,
        tick: u64,
        leg: &Leg,
        rest: &[Leg],
    ) -> Result<Vec<u8>, AllocError>
        ensures { IfOk result (λ text. text.items ≡ said_of_wait self.now tick leg.now rest.now) }
    {
        let design = &self.interlocking.design;
        let first = first_routes(rest);
        let mut text = Vec::from_slice(alloc, train_name(design, first_train(rest)))?;
        text.extend_from_slice(b" cannot be granted ")?;
        put_any_route(&mut text, self.interlocking, first)?;
        text.extend_from_slice(b" before ")?;
        put_moment(&mut text, design, self.after, tick)?;
        text.extend_from_slice(b": it waits for ")?;
        text.extend_from_slice(train_name(design, leg.train))?;
        text.extend_from_slice(b" to leave ")?;
        put_meeting(alloc, &mut text, self.interlocking, last_routes(leg), first)?;
        Ok(text)
    }

    /// The least ticks of the last leg.
    fn end_ticks(&self, alloc: Global, from: Option<Visit>, leg: &Leg) -> Result<u64, AllocError>
        requires leg { IsLeg self.now.interlocking.now leg.now }
        requires from { ForSome from (λ v. IsTrain self.now.interlocking.now.design.station v.train) }
        ensures { IfOk result (λ n. n ≡ last_ticks self.now from leg.now) }
    {
        let Some(visit) = self.to else {
            return Ok(0);
        };
        let ride = Ride {
            interlocking: self.interlocking,
            leg,
            from,
            most: self.most,
        };
        ride.leg_to_visit(alloc, visit)
    }

    /// Appends the sentence about a leg.
    fn push_leg(&self, alloc: Global, leg: &Leg, lines: &mut Vec<Vec<u8>>) -> Result<(), AllocError>
        ensures { OnOk result (AddsLines lines.old lines.new (said_of_leg self.now leg.now ∷ [])) }
    {
        let text = leg_text(alloc, self.interlocking, leg)?;
        push_sentence(alloc, lines, self.line, &text)
    }

    /// Appends the sentences about a leg and about what the next one waits for.
    fn push_waiting(
        &self,
        alloc: Global,
        tick: u64,
        leg: &Leg,
        rest: &[Leg],
        lines: &mut Vec<Vec<u8>>,
    ) -> Result<(), AllocError>
        ensures { OnOk result (AddsLines lines.old lines.new (said_of_waiting self.now tick leg.now rest.now)) }
    {
        self.push_leg(alloc, leg, lines)?;
        let text = self.wait_text(alloc, tick, leg, rest)?;
        push_sentence(alloc, lines, self.line, &text)?;
        Ok(())
    }
}
