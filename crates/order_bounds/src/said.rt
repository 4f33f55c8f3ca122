//! What an order says of a pair of commands.

ghost use Rattle.std.specs.Prelude.{◌≡◌, ◌≤◌, false, IfOk, MatchOption, length};
ghost use Rattle.bound_spec.specs.declared.Evidence.TheVariants as evidence;
ghost use Rattle.rail_base.specs.Members.{In};
ghost use Rattle.order_bounds.specs.Asked.{IsClauseOfOrder, IsLineOfOrder, TakesBounds};
ghost use Rattle.order_bounds.specs.Asked.{is_said_before, makes_of, orders_of, pairs_of, says_first_of, says_of};
ghost use Rattle.order_bounds.specs.Orders.{bound_by, leg_of};

use crate::pairs::{makes, order_of};
use bound_design::visit_of;
use bound_spec::{Bound, Evidence, Leg, Origin, Place, Requirement};
use log_checker::{RefuteFault, Refuter};
use proof_judge::{ByDesign, EvidenceLine};
use proof_log::{Line, write_line};
use rail_base::list::List;
use rail_base::plan::Command;
use sat_clause::Lit;
use std::alloc::{AllocError, Global};

/// The line by which an order says that the first of two commands is not given before the second, where it does, and no
/// order before it: its bound is valid, and the base has all that its clause denies. Orders are counted from 1.
///
/// # Errors
///
/// Want of memory alone.
pub fn line_of_order(
    alloc: Global,
    design: &ByDesign,
    order: u32,
    pair: (Command, Command),
) -> Result<Option<EvidenceLine>, AllocError>
    requires at_least_one { 1 ≤ order }
    requires within { order ≤ length (orders_of design.now) }
    requires contend { In pair (pairs_of design.now) }
    requires takes { TakesBounds design.now }
    ensures { IfOk result (λ said. MatchOption said (says_first_of design.now order pair ≡ false)
        (λ line. IsLineOfOrder design.now order pair line)) }
{
    let Some(clause) = clause_by(alloc, design, order, pair)? else {
        return Ok(None);
    };
    if is_said_before(alloc, design, order, pair)? {
        return Ok(None);
    }
    let evidence = Evidence::Bound(bound_by(alloc, order, pair)?);
    let line = write_line(alloc, &Line::Refute { evidence })?;
    Ok(Some(EvidenceLine { line, clause }))
}

/// Whether an order before one says the same of two commands.
fn is_said_before(
    alloc: Global,
    design: &ByDesign,
    order: u32,
    pair: (Command, Command),
) -> Result<bool, AllocError>
    requires at_least_one { 1 ≤ order }
    requires within { order ≤ length (orders_of design.now) }
    requires contend { In pair (pairs_of design.now) }
    ensures { IfOk result (λ b. b ≡ is_said_before design.now order pair) }
{
    for earlier in 1..order {
        if clause_by(alloc, design, earlier, pair)?.is_some() {
            return Ok(true);
        }
    }
    Ok(false)
}

/// What is left of the clause by which an order says that the first of two commands is not given before the second,
/// where it does.
fn clause_by(
    alloc: Global,
    design: &ByDesign,
    order: u32,
    pair: (Command, Command),
) -> Result<Option<Vec<Lit>>, AllocError>
    requires at_least_one { 1 ≤ order }
    requires within { order ≤ length (orders_of design.now) }
    requires contend { In pair (pairs_of design.now) }
    ensures { IfOk result (λ said. MatchOption said (says_of design.now order pair ≡ false)
        (λ clause. IsClauseOfOrder design.now order pair clause.items)) }
{
    if !makes_both(alloc, design, order, pair)? {
        return Ok(None);
    }
    let evidence = Evidence::Bound(bound_by(alloc, order, pair)?);
    match design.clause_of(alloc, &evidence) {
        Ok(clause) => Ok(Some(clause)),
        Err(RefuteFault::NotRefuted(_)) => Ok(None),
        Err(RefuteFault::Memory) => Err(AllocError),
    }
}

/// Whether the later visit of an order can be made with the first of two commands, and the earlier one with the second.
fn makes_both(
    alloc: Global,
    design: &ByDesign,
    order: u32,
    pair: (Command, Command),
) -> Result<bool, AllocError>
    requires at_least_one { 1 ≤ order }
    requires within { order ≤ length (orders_of design.now) }
    requires contend { In pair (pairs_of design.now) }
    ensures { IfOk result (λ b. b ≡ makes_of design.now order pair) }
{
    let interlocking = design.contention.interlocking;
    let station = &interlocking.design.station;
    let order = order_of(station, order);
    let later = visit_of(alloc, station, order.then_train, order.then_visit as usize)?;
    if !makes(interlocking, &later, order.then_train, pair.0) {
        return Ok(false);
    }
    let earlier = visit_of(
        alloc,
        station,
        order.first_train,
        order.first_visit as usize,
    )?;
    Ok(makes(interlocking, &earlier, order.first_train, pair.1))
}

/// A leg of one route.
fn leg_of(alloc: Global, command: Command) -> Result<Leg, AllocError>
    ensures { IfOk result (λ leg. leg ≡ leg_of command) }
{
    let mut places = List::new(alloc);
    places.push(Place::Named {
        route: command.route,
    })?;
    Ok(Leg {
        train: command.train,
        places,
    })
}

/// That the first of two commands is not given before the second, by an order.
fn bound_by(alloc: Global, order: u32, pair: (Command, Command)) -> Result<Bound, AllocError>
    ensures { IfOk result (λ bound. bound ≡ bound_by order pair) }
{
    let mut legs = List::new(alloc);
    legs.push(leg_of(alloc, pair.0)?)?;
    legs.push(leg_of(alloc, pair.1)?)?;
    Ok(Bound {
        requirement: Requirement::Order { order },
        origin: Origin::Visit,
        legs,
    })
}
