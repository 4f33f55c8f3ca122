//! What fails by a cone or a bound, and by how much. An error is want of memory; then a part of what is appended may
//! stand there.

ghost use Rattle.std.specs.Prelude.{◌≡◌, true, IfOk, OnOk};
ghost use Rattle.bound_spec.specs.declared.Requirement.TheVariants as requirement;
ghost use Rattle.bound_spec.specs.Validity.{names_design};
ghost use Rattle.interlocking.specs.Plans.{on};
ghost use Rattle.rail_text.specs.Added.{AddsText};
ghost use Rattle.evidence_words.specs.Failings.{failing_of, order_name, requirement_name, seen, shortfall_of};
ghost use Rattle.evidence_words.specs.Failings.{violation_name, visit_name, within_name};
ghost use Rattle.evidence_words.specs.Sentences.{names_what_is_there};

use crate::bounds::{end_tick, origin_tick};
use bound_spec::{Bound, Evidence, Requirement};
use cone_words::{most_ticks, put_route, within_of};
use interlocking::Interlocking;
use rail_base::design::Design;
use rail_base::names::train_name;
use rail_base::plan::{Command, Violation};
use rail_base::station::TrainNo;
use rail_text::put_number;
use std::alloc::{AllocError, Global};

/// What fails by a cone or a bound.
#[derive(Drop)]
pub struct Failing {
    /// The requirement, by the names of the design.
    pub name: Vec<u8>,
    /// How many ticks the legs of a bound take more than its within allows.
    pub shortfall: Option<u64>,
}

/// What fails by a cone or a bound.
pub fn failing_of(
    alloc: Global,
    interlocking: &Interlocking,
    evidence: &Evidence,
) -> Result<Failing, AllocError>
    requires names { let i = interlocking.now in
        names_what_is_there i.design.station i.routes evidence.now ≡ true }
    ensures { IfOk result (λ f. seen f ≡ on interlocking.now failing_of evidence.now) }
{
    match evidence {
        Evidence::Cone(cone) => {
            let name = violation_name(alloc, &interlocking.design, cone.violation)?;
            Ok(Failing {
                name,
                shortfall: None,
            })
        }
        Evidence::Bound(bound) => {
            let name = requirement_name(alloc, interlocking, bound.requirement)?;
            let shortfall = shortfall_of(alloc, interlocking, bound)?;
            Ok(Failing { name, shortfall })
        }
    }
}

/// Appends a visit of a train.
fn put_visit_name(
    text: &mut Vec<u8>,
    design: &Design,
    train: TrainNo,
    visit: u32,
) -> Result<(), AllocError>
    ensures { OnOk result (AddsText text.old text.new (visit_name design.now.station train visit)) }
{
    text.extend_from_slice(b"visit ")?;
    put_number(text, u64::from(visit))?;
    text.extend_from_slice(b" of ")?;
    text.extend_from_slice(train_name(design, train))
}

/// Appends a within.
fn put_within_name(text: &mut Vec<u8>, within: u32) -> Result<(), AllocError>
    ensures { OnOk result (AddsText text.old text.new (within_name within)) }
{
    text.extend_from_slice(b"within ")?;
    put_number(text, u64::from(within))
}

/// Appends an order.
fn put_order_name(text: &mut Vec<u8>, order: u32) -> Result<(), AllocError>
    ensures { OnOk result (AddsText text.old text.new (order_name order)) }
{
    text.extend_from_slice(b"order ")?;
    put_number(text, u64::from(order))
}

/// Appends what fails by a cone.
fn put_violation_name(
    text: &mut Vec<u8>,
    design: &Design,
    violation: Violation,
) -> Result<(), AllocError>
    ensures { OnOk result (AddsText text.old text.new (violation_name design.now.station violation)) }
{
    match violation {
        Violation::Path { train, visit } => put_visit_name(text, design, train, visit),
        Violation::Within { within } => put_within_name(text, within),
        Violation::Order { order } => put_order_name(text, order),
        Violation::Grant { train, command } => {
            text.extend_from_slice(b"command ")?;
            put_number(text, u64::from(command))?;
            text.extend_from_slice(b" of ")?;
            text.extend_from_slice(train_name(design, train))
        }
        Violation::Visit { train, visit } => put_visit_name(text, design, train, visit),
    }
}

/// What fails by a cone.
fn violation_name(
    alloc: Global,
    design: &Design,
    violation: Violation,
) -> Result<Vec<u8>, AllocError>
    ensures { IfOk result (λ text. text.items ≡ violation_name design.now.station violation) }
{
    let mut text = Vec::new(alloc);
    put_violation_name(&mut text, design, violation)?;
    Ok(text)
}

/// Appends the grant of a command.
fn put_grant_name(
    text: &mut Vec<u8>,
    interlocking: &Interlocking,
    command: Command,
) -> Result<(), AllocError>
    ensures { OnOk result (AddsText text.old text.new (on interlocking.now requirement_name (requirement.Grant command))) }
{
    text.extend_from_slice(b"route ")?;
    put_route(text, interlocking, command.route)?;
    text.extend_from_slice(b" of ")?;
    text.extend_from_slice(train_name(&interlocking.design, command.train))?;
    Ok(())
}

/// Appends what fails by a bound.
fn put_requirement_name(
    text: &mut Vec<u8>,
    interlocking: &Interlocking,
    requirement: Requirement,
) -> Result<(), AllocError>
    ensures { OnOk result (AddsText text.old text.new (on interlocking.now requirement_name requirement)) }
{
    match requirement {
        Requirement::Within { within } => put_within_name(text, within),
        Requirement::Order { order } => put_order_name(text, order),
        Requirement::Visit { train, visit } => {
            put_visit_name(text, &interlocking.design, train, visit)
        }
        Requirement::Grant { command } => put_grant_name(text, interlocking, command),
    }
}

/// What fails by a bound.
fn requirement_name(
    alloc: Global,
    interlocking: &Interlocking,
    requirement: Requirement,
) -> Result<Vec<u8>, AllocError>
    ensures { IfOk result (λ text. text.items ≡ on interlocking.now requirement_name requirement) }
{
    let mut text = Vec::new(alloc);
    put_requirement_name(&mut text, interlocking, requirement)?;
    Ok(text)
}

/// How many ticks the legs of a bound take more than its within allows.
fn shortfall_of(
    alloc: Global,
    interlocking: &Interlocking,
    bound: &Bound,
) -> Result<Option<u64>, AllocError>
    requires { let i = interlocking.now in names_design i.design.station i.routes bound.now ≡ true }
    ensures { IfOk result (λ o. o ≡ on interlocking.now shortfall_of bound.now bound.now.requirement) }
{
    let Requirement::Within { within } = bound.requirement else {
        return Ok(None);
    };
    let design = &interlocking.design;
    let end = end_tick(alloc, interlocking, bound)?;
    let most = most_ticks(design, &within_of(design, within));
    Ok(Some(
        end.saturating_sub(origin_tick(&bound.origin))
            .saturating_sub(most),
    ))
}
