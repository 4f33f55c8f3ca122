//! The pairs of commands of which an order may say something.

ghost use Rattle.std.specs.Prelude.{◌≡◌, ◌≤◌, ◌++◌, IfOk, OnOk, filter, length, map};
ghost use Rattle.rail_base.specs.Members.{In};
ghost use Rattle.rail_base.specs.Routes.{IsRoute};
ghost use Rattle.rail_base.specs.Stations.{order_of};
ghost use Rattle.rail_spec.specs.Plans.{contend};
ghost use Rattle.order_bounds.specs.Asked.{makes_it};
ghost use Rattle.order_bounds.specs.Orders.{makes_both};

use bound_design::{Visit, visit_of};
use cone_clause::Contention;
use interlocking::Interlocking;
use rail_base::plan::Command;
use rail_base::station::{Order, Station, TrainNo};
use std::alloc::{AllocError, Global};

/// The pairs of commands that contend, of which the first can make the later visit of an order, and the second the
/// earlier one: in the order of their variables. Orders are counted from 1.
///
/// # Errors
///
/// Want of memory alone.
pub fn pairs_of_order(
    alloc: Global,
    contention: &Contention,
    order: u32,
) -> Result<Vec<(Command, Command)>, AllocError>
    requires at_least_one { 1 ≤ order }
    requires within { order ≤ length contention.now.interlocking.now.design.station.orders }
    ensures { let i = contention.now.interlocking.now in IfOk result (λ ps. ps.items
        ≡ filter (makes_both i.design.station i.routes order) contention.now.pairs.now.pairs) }
{
    let station = &contention.interlocking.design.station;
    let order = order_of(station, order);
    let later = visit_of(alloc, station, order.then_train, order.then_visit as usize)?;
    let earlier = visit_of(
        alloc,
        station,
        order.first_train,
        order.first_visit as usize,
    )?;
    let mut pairs = Vec::new(alloc);
    for command in &commands_for(alloc, contention, &later, order.then_train)? {
        add_pairs(
            alloc,
            contention,
            &mut pairs,
            *command,
            &earlier,
            order.first_train,
        )?;
    }
    Ok(pairs)
}

/// The order of a number.
pub(crate) fn order_of(station: &Station, order: u32) -> Order
    requires at_least_one { 1 ≤ order }
    requires within { order ≤ length station.now.orders }
    ensures { result ≡ order_of station.now order }
{
    station.orders.as_slice()[order as usize - 1]
}

/// The commands of the base with which a train can make its visit.
fn commands_for(
    alloc: Global,
    contention: &Contention,
    visit: &Visit,
    train: TrainNo,
) -> Result<Vec<Command>, AllocError>
    ensures { let i = contention.now.interlocking.now in IfOk result (λ cs. cs.items
        ≡ filter (makes_it i.routes train visit.now.number visit.now.list.now) contention.now.pairs.now.commands) }
{
    let mut found = Vec::new(alloc);
    for command in contention.pairs.commands().commands() {
        if makes(contention.interlocking, visit, train, *command) {
            found.push(*command)?;
        }
    }
    Ok(found)
}

/// Whether a train can make its visit with a command.
pub(crate) fn makes(
    interlocking: &Interlocking,
    visit: &Visit,
    train: TrainNo,
    command: Command,
) -> bool
    requires { IsRoute interlocking.now.routes command.route }
    ensures { result ≡ makes_it interlocking.now.routes train visit.now.number visit.now.list.now command }
{
    command.train.0 == train.0 && visit.may_visit(interlocking.route(command.route))
}

/// Adds the pairs of a command and those that contend with it with which a train can make its visit.
fn add_pairs(
    alloc: Global,
    contention: &Contention,
    pairs: &mut Vec<(Command, Command)>,
    command: Command,
    visit: &Visit,
    train: TrainNo,
) -> Result<(), AllocError>
    requires { In command contention.now.pairs.now.commands }
    ensures { let i = contention.now.interlocking.now in OnOk result (pairs.new.items ≡ pairs.old.items
        ++ map (λ c. (command, c)) (filter (makes_it i.routes train visit.now.number visit.now.list.now)
        (filter (contend i.routes command) contention.now.pairs.now.commands))) }
{
    let rivals = contention.pairs.rivals(alloc, command)?;
    for other in &rivals {
        if makes(contention.interlocking, visit, train, *other) {
            pairs.push((command, *other))?;
        }
    }
    Ok(())
}
