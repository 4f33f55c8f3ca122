//! The sentences about a bound. An error is want of memory; then a part of what is appended may stand there.

ghost use Rattle.std.specs.Prelude.{◌≡◌, ◌≤◌, ◌++◌, ◌∷◌, [], true, All, IfOk, OnOk};
ghost use Rattle.std.specs.Option.{ForSome};
ghost use Rattle.rail_base.specs.Stations.{IsTrain};
ghost use Rattle.bound_spec.specs.declared.Requirement.TheVariants as requirement;
ghost use Rattle.bound_spec.specs.Validity.{names_design, followed};
ghost use Rattle.leg_targets.specs.Visits.{origin_of, visit_of};
ghost use Rattle.bound_ticks.specs.Walks.{IsLeg};
ghost use Rattle.rail_base.specs.declared.station.Station.{Station};
ghost use Rattle.cone_words.specs.Phrases.{sentence};
ghost use Rattle.evidence_words.specs.Bounds.{after_of, bound_sentences, chain_sentences, counted_after, end_tick};
ghost use Rattle.evidence_words.specs.Bounds.{first_tick, horizon_text, origin_parts, made_text, origin_text};
ghost use Rattle.evidence_words.specs.Bounds.{origin_tick, passed, start_text};
ghost use Rattle.rail_text.specs.Added.{AddsLines, AddsText};
ghost use Rattle.interlocking.specs.Plans.{on};
ghost use Rattle.evidence_words.specs.Ends.{said_of_arrival, said_of_end, said_since, said_of_origin};
ghost use Rattle.evidence_words.specs.Ends.{visit_origin_text};

use crate::legs::{Chain, put_moment};
use bound_spec::{Bound, Leg, Origin, Requirement};
use bound_ticks::{stretches_of, ticks_followed, visit_from, visit_to};
use cone_words::{
    most_ticks, order_of, push_opening, push_parts, push_sentence, put_makes, put_nodes, put_route,
    put_tick, put_ticks, within_of,
};
use interlocking::Interlocking;
use leg_targets::Visit;
use rail_base::design::Design;
use rail_base::names::train_name;
use rail_base::plan::Command;
use rail_base::station::TrainNo;
use rail_text::put_number;
use std::alloc::{AllocError, Global};

/// Appends the sentences about a bound.
pub fn push_bound(
    alloc: Global,
    interlocking: &Interlocking,
    line: u64,
    bound: &Bound,
    lines: &mut Vec<Vec<u8>>,
) -> Result<(), AllocError>
    requires { let i = interlocking.now in names_design i.design.station i.routes bound.now ≡ true }
    ensures { OnOk result (AddsLines lines.old lines.new (on interlocking.now bound_sentences bound.now line)) }
{
    let from = visit_from(interlocking, bound.requirement);
    let after = counted_after(&bound.origin, from);
    push_opening(alloc, line, lines)?;
    push_origin(alloc, interlocking, line, &bound.origin, from, lines)?;
    let tick = push_chain(alloc, interlocking, line, bound, after, lines)?;
    let end = End {
        interlocking,
        after,
        origin_tick: origin_tick(&bound.origin),
        tick,
    };
    push_end(alloc, &end, line, bound.requirement, lines)
}

/// The tick at which the legs of a bound are through at the earliest.
pub fn end_tick(
    alloc: Global,
    interlocking: &Interlocking,
    bound: &Bound,
) -> Result<u64, AllocError>
    requires { let i = interlocking.now in names_design i.design.station i.routes bound.now ≡ true }
    ensures { let i = interlocking.now in
        IfOk result (λ n. n ≡ end_tick i.design.station i.routes bound.now) }
{
    let after = counted_after(&bound.origin, visit_from(interlocking, bound.requirement));
    let mut sentences = Vec::new(alloc);
    push_chain(alloc, interlocking, 0, bound, after, &mut sentences)
}

/// Appends that ticks are those of the run.
fn put_start(text: &mut Vec<u8>) -> Result<(), AllocError>
    ensures { OnOk result (text.new.items ≡ text.old.items ++ start_text) }
{
    text.extend_from_slice(b"ticks are counted from the start of the run")
}

/// Appends a visit with its nodes.
fn put_made(text: &mut Vec<u8>, design: &Design, visit: Visit) -> Result<(), AllocError>
    ensures { OnOk result (AddsText text.old text.new (made_text design.now.station (visit_of visit))) }
{
    put_makes(text, design, visit.train, visit.number)?;
    put_nodes(text, design, visit.train, visit.number)?;
    Ok(())
}

/// Appends from when ticks are counted, by the visit from which the requirement is asked for.
fn put_origin_of_visit(
    text: &mut Vec<u8>,
    design: &Design,
    visit: Visit,
    origin: &Origin,
) -> Result<(), AllocError>
    ensures { OnOk result (AddsText text.old text.new (visit_origin_text design.now.station visit origin.now)) }
{
    match origin {
        Origin::Visit => {
            text.extend_from_slice(b"ticks are counted from when ")?;
            put_made(text, design, visit)?;
            Ok(())
        }
        Origin::Start => put_start(text),
        Origin::FirstTick => {
            put_made(text, design, visit)?;
            text.extend_from_slice(b", at ")?;
            put_tick(text, design, 1)?;
            text.extend_from_slice(b", since it waits for no other train")?;
            Ok(())
        }
        Origin::Cone { tick, .. } => {
            put_made(text, design, visit)?;
            text.extend_from_slice(b", at ")?;
            put_tick(text, design, *tick)?;
            text.extend_from_slice(b", since:")?;
            Ok(())
        }
    }
}

/// From when ticks are counted.
fn origin_text(
    alloc: Global,
    design: &Design,
    origin: &Origin,
    from: Option<Visit>,
) -> Result<Vec<u8>, AllocError>
    ensures { IfOk result (λ text. text.items ≡ origin_text design.now.station origin.now (origin_of from)) }
{
    let mut text = Vec::new(alloc);
    match from {
        None => put_start(&mut text)?,
        Some(visit) => put_origin_of_visit(&mut text, design, visit, origin)?,
    }
    Ok(text)
}

/// Appends what is so in the cone of an origin.
fn push_origin_parts(
    alloc: Global,
    interlocking: &Interlocking,
    line: u64,
    origin: &Origin,
    lines: &mut Vec<Vec<u8>>,
) -> Result<(), AllocError>
    ensures { OnOk result (AddsLines lines.old lines.new (on interlocking.now origin_parts line origin.now)) }
{
    match origin {
        Origin::Visit => Ok(()),
        Origin::Start => Ok(()),
        Origin::FirstTick => Ok(()),
        Origin::Cone { cone, .. } => push_parts(alloc, interlocking, line, cone, lines),
    }
}

/// The visit after which ticks are counted, or none where they are ticks of the run.
fn counted_after(origin: &Origin, from: Option<Visit>) -> Option<Visit>
    ensures visit { origin_of result ≡ counted_after origin.now (origin_of from) }
    ensures same { (d : Station) → ForSome from (λ v. IsTrain d v.train) → ForSome result (λ v. IsTrain d v.train) }
{
    match origin {
        Origin::Visit => from,
        Origin::Start => None,
        Origin::FirstTick => None,
        Origin::Cone { .. } => None,
    }
}

/// The tick at which the first leg's first command is granted at the earliest.
fn first_tick(after: Option<Visit>) -> u64
    ensures value { result ≡ first_tick (origin_of after) }
    ensures at_most_1 { result ≤ 1 }
{
    match after {
        None => 1,
        Some(_) => 0,
    }
}

/// The visit, where it is made later than the first leg's first command is granted.
fn later_visit(after: Option<Visit>) -> Option<Visit>
    ensures visit { origin_of result ≡ passed (origin_of after) }
    ensures same { (d : Station) → ForSome after (λ v. IsTrain d v.train) → ForSome result (λ v. IsTrain d v.train) }
{
    let Some(visit) = after else {
        return None;
    };
    if visit.number <= 1 { None } else { Some(visit) }
}

/// When the legs of a bound are through.
#[derive(Clone, Copy)]
struct End<'a> {
    interlocking: &'a Interlocking,
    /// The visit after which ticks are counted, or none where they are ticks of the run.
    after: Option<Visit>,
    /// The tick at which the visit is made from which the requirement is asked for, where that is known.
    origin_tick: u64,
    /// The tick at which the legs are through at the earliest.
    tick: u64,
}

/// The tick of the run at which the visit is made from which ticks are counted, where that is known.
pub fn origin_tick(origin: &Origin) -> u64
    ensures { result ≡ origin_tick origin.now }
{
    match origin {
        Origin::Visit => 0,
        Origin::Start => 0,
        Origin::FirstTick => 1,
        Origin::Cone { tick, .. } => *tick,
    }
}

impl End<'_> {
    /// Appends that a visit is made no earlier than the legs are through.
    fn put_arrives(&self, text: &mut Vec<u8>, train: TrainNo, visit: u32) -> Result<(), AllocError>
        ensures { OnOk result (AddsText text.old text.new (said_of_arrival self.now train visit)) }
    {
        let design = &self.interlocking.design;
        text.extend_from_slice(b"so ")?;
        put_makes(text, design, train, visit)?;
        put_nodes(text, design, train, visit)?;
        text.extend_from_slice(b", no earlier than ")?;
        put_moment(text, design, self.after, self.tick)?;
        Ok(())
    }

    /// Appends the tick of the first visit, where ticks are those of the run.
    fn put_since(&self, text: &mut Vec<u8>) -> Result<(), AllocError>
        ensures { OnOk result (AddsText text.old text.new (said_since self.now)) }
    {
        match self.after {
            None => {
                text.extend_from_slice(b" after ")?;
                put_tick(text, &self.interlocking.design, self.origin_tick)?;
                Ok(())
            }
            Some(_) => Ok(()),
        }
    }

    /// Appends the horizon.
    fn put_horizon(&self, text: &mut Vec<u8>) -> Result<(), AllocError>
        ensures { OnOk result (AddsText text.old text.new (horizon_text self.now.interlocking.now.design.station)) }
    {
        let design = &self.interlocking.design;
        text.extend_from_slice(b"; the horizon is ")?;
        put_tick(text, design, design.horizon())?;
        Ok(())
    }

    /// Appends that a within fails.
    fn put_within(&self, text: &mut Vec<u8>, number: u32) -> Result<(), AllocError>
        ensures { OnOk result (AddsText text.old text.new (said_of_end self.now (requirement.Within number))) }
    {
        let within = within_of(&self.interlocking.design, number);
        self.put_arrives(text, within.to_train, within.to_visit)?;
        text.extend_from_slice(b"; within ")?;
        put_number(text, u64::from(number))?;
        text.extend_from_slice(b" allows ")?;
        let design = &self.interlocking.design;
        put_ticks(text, design, most_ticks(design, &within))?;
        self.put_since(text)?;
        Ok(())
    }

    /// Appends that an order fails.
    fn put_order(&self, text: &mut Vec<u8>, number: u32) -> Result<(), AllocError>
        ensures { OnOk result (AddsText text.old text.new (said_of_end self.now (requirement.Order number))) }
    {
        let order = order_of(&self.interlocking.design, number);
        self.put_arrives(text, order.first_train, order.first_visit)?;
        text.extend_from_slice(b"; order ")?;
        put_number(text, u64::from(number))?;
        text.extend_from_slice(b" asks for it before ")?;
        put_makes(
            text,
            &self.interlocking.design,
            order.then_train,
            order.then_visit,
        )?;
        Ok(())
    }

    /// Appends that a grant comes after the horizon.
    fn put_grant(&self, text: &mut Vec<u8>, command: Command) -> Result<(), AllocError>
        ensures { OnOk result (AddsText text.old text.new (said_of_end self.now (requirement.Grant command))) }
    {
        let design = &self.interlocking.design;
        text.extend_from_slice(b"so ")?;
        text.extend_from_slice(train_name(design, command.train))?;
        text.extend_from_slice(b" cannot be granted route ")?;
        put_route(text, self.interlocking, command.route)?;
        text.extend_from_slice(b" before ")?;
        put_moment(text, design, self.after, self.tick)?;
        self.put_horizon(text)?;
        Ok(())
    }

    /// Appends when the legs are through, and what is asked for.
    fn put_end(&self, text: &mut Vec<u8>, requirement: Requirement) -> Result<(), AllocError>
        ensures { OnOk result (AddsText text.old text.new (said_of_end self.now requirement)) }
    {
        match requirement {
            Requirement::Within { within } => self.put_within(text, within),
            Requirement::Order { order } => self.put_order(text, order),
            Requirement::Visit { train, visit } => {
                self.put_arrives(text, train, visit)?;
                self.put_horizon(text)
            }
            Requirement::Grant { command } => self.put_grant(text, command),
        }
    }
}

/// How many ticks of each leg are counted at the most.
fn most_followed(
    alloc: Global,
    interlocking: &Interlocking,
    legs: &[Leg],
) -> Result<u64, AllocError>
    requires { All (IsLeg interlocking.now) legs.now }
    ensures value { let i = interlocking.now in
        IfOk result (λ n. n ≡ followed i.design.station i.routes legs.now) }
    ensures at_most_86400 { IfOk result (λ n. n ≤ 86400) }
{
    let stretches = stretches_of(alloc, interlocking, legs)?;
    Ok(ticks_followed(interlocking, stretches))
}

/// Appends the sentences about the legs of a bound, and gives the tick at which they are through at the earliest.
fn push_chain(
    alloc: Global,
    interlocking: &Interlocking,
    line: u64,
    bound: &Bound,
    after: Option<Visit>,
    lines: &mut Vec<Vec<u8>>,
) -> Result<u64, AllocError>
    requires names { let i = interlocking.now in names_design i.design.station i.routes bound.now ≡ true }
    requires after { let i = interlocking.now in origin_of after ≡ after_of i.design.station i.routes bound.now }
    requires train { ForSome after (λ v. IsTrain interlocking.now.design.station v.train) }
    ensures end { let i = interlocking.now in
        IfOk result (λ n. n ≡ end_tick i.design.station i.routes bound.now) }
    ensures lines { OnOk result (AddsLines lines.old lines.new (on interlocking.now chain_sentences bound.now line)) }
{
    let legs = bound.legs.as_slice();
    let most = most_followed(alloc, interlocking, legs)?;
    let chain = Chain {
        interlocking,
        line,
        most,
        after,
        to: visit_to(interlocking, bound.requirement),
    };
    chain.push_legs(alloc, later_visit(after), first_tick(after), legs, lines)
}

/// Appends from when the ticks of a bound are counted.
fn push_origin(
    alloc: Global,
    interlocking: &Interlocking,
    line: u64,
    origin: &Origin,
    from: Option<Visit>,
    lines: &mut Vec<Vec<u8>>,
) -> Result<(), AllocError>
    ensures { OnOk result (AddsLines lines.old lines.new (said_of_origin interlocking.now line origin.now from)) }
{
    let text = origin_text(alloc, &interlocking.design, origin, from)?;
    push_sentence(alloc, lines, line, &text)?;
    push_origin_parts(alloc, interlocking, line, origin, lines)
}

/// Appends when the legs of a bound are through, and what is asked for.
fn push_end(
    alloc: Global,
    end: &End<'_>,
    line: u64,
    requirement: Requirement,
    lines: &mut Vec<Vec<u8>>,
) -> Result<(), AllocError>
    ensures { OnOk result (AddsLines lines.old lines.new (sentence line (said_of_end end.now requirement) ∷ [])) }
{
    let mut text = Vec::new(alloc);
    end.put_end(&mut text, requirement)?;
    push_sentence(alloc, lines, line, &text)
}
