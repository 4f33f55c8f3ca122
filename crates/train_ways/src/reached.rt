//! What the pairs that are reached say.

ghost use Rattle.std.specs.Prelude.{◌≡◌, ◌≤◌, ◌+◌, ◌*◌, ◌==◌, ◌<◌, [], All, IfOk, OnOk, length, max};
ghost use Rattle.std.specs.List.{list_any};
ghost use Rattle.rail_base.specs.Numbering.{count_from};
ghost use Rattle.rail_base.specs.Routes.{IsRoute};
ghost use Rattle.train_ways.specs.Reached.{IsLeastTo, IsMostMade, is_over, lesser, live_among, with_start};
ghost use Rattle.train_ways.specs.Reached.{with_starts};

use crate::pairs::pair_of;
use rail_base::route::{RouteNo, RouteTable, Start, route_at};
use rail_base::station::SignalNo;
use std::alloc::{AllocError, Global};

/// The most visits that are made after a pair that is reached, or 0.
pub(crate) fn most_made(made: &[usize], found: &[Option<usize>]) -> usize
    requires { length found.now ≡ length made.now }
    ensures { IsMostMade made.now found.now (length found.now) result }
{
    let mut most = 0;
    for (pair, steps) in found.iter().enumerate() {
        if steps.is_some() {
            most = greater(most, made[pair]);
        }
    }
    most
}

/// The greater of two numbers.
fn greater(one: usize, other: usize) -> usize
    ensures { result ≡ max one other }
{
    one.max(other)
}

/// The least number of steps to a pair after which so many visits are made.
pub(crate) fn least_to(made: &[usize], found: &[Option<usize>], all: usize) -> Option<usize>
    requires { length found.now ≡ length made.now }
    ensures { IsLeastTo made.now found.now all (length found.now) result }
{
    let mut least = None;
    for (pair, steps) in found.iter().enumerate() {
        if made[pair] == all {
            least = lesser(least, *steps);
        }
    }
    least
}

/// The lesser of two numbers, where they are there.
fn lesser(one: Option<usize>, other: Option<usize>) -> Option<usize>
    ensures { result ≡ lesser one other }
{
    match (one, other) {
        (Some(one), Some(other)) => Some(one.min(other)),
        (None, other) => other,
        (one, None) => one,
    }
}

/// Whether a pair is reached and leads to the end of a way.
fn is_over(found: &[Option<usize>], left: &[Option<usize>], pair: usize) -> bool
    requires found { pair < length found.now }
    requires left { length left.now ≡ length found.now }
    ensures { result ≡ is_over found.now left.now pair }
{
    found[pair].is_some() && left[pair].is_some()
}

/// Whether one of so many pairs in a row is.
fn is_live(found: &[Option<usize>], left: &[Option<usize>], first: usize, width: usize) -> bool
    requires found { first + width ≤ length found.now }
    requires left { length left.now ≡ length found.now }
    ensures { result ≡ list_any (is_over found.now left.now) (count_from first width) }
{
    for pair in first..first + width {
        if is_over(found, left, pair) {
            return true;
        }
    }
    false
}

/// The routes of which a pair is reached and leads to the end of a way, in order.
pub(crate) fn live_among(
    alloc: Global,
    routes: &RouteTable,
    width: usize,
    found: &[Option<usize>],
    left: &[Option<usize>],
) -> Result<Vec<RouteNo>, AllocError>
    requires low { 1 ≤ width }
    requires high { width ≤ 16 }
    requires few { length routes.now ≤ 2000 }
    requires found { length found.now ≡ length routes.now * width }
    requires left { length left.now ≡ length found.now }
    ensures { IfOk result (λ live. live.items ≡ live_among width found.now left.now routes.now) }
{
    let mut live = Vec::new(alloc);
    for number in 1..routes.len() as u32 + 1 {
        let route = RouteNo(number);
        if is_live(found, left, pair_of(width, route, 1), width) {
            live.push(route)?;
        }
    }
    Ok(live)
}

/// The signals at which routes start, each once.
pub(crate) fn signals_of(
    alloc: Global,
    routes: &RouteTable,
    numbers: &[RouteNo],
) -> Result<Vec<SignalNo>, AllocError>
    requires { All (IsRoute routes.now) numbers.now }
    ensures { IfOk result (λ signals. signals.items ≡ with_starts routes.now [] numbers.now) }
{
    let mut signals = Vec::new(alloc);
    for number in numbers {
        add_start(&mut signals, route_at(routes, *number).start)?;
    }
    Ok(signals)
}

/// Adds the signal of a start, unless it is there.
fn add_start(signals: &mut Vec<SignalNo>, start: Start) -> Result<(), AllocError>
    ensures { OnOk result (signals.new.items ≡ with_start signals.old.items start) }
{
    if let Start::Signal(signal) = start {
        if !has_signal(signals, signal) {
            signals.push(signal)?;
        }
    }
    Ok(())
}

/// Whether a signal is one of these.
fn has_signal(signals: &[SignalNo], signal: SignalNo) -> bool
    ensures { result ≡ list_any (λ s. s.0 == signal.0) signals.now }
{
    signals.iter().any(|other| other.0 == signal.0)
}
