//! What is asked of a history.

ghost use Rattle.std.specs.Prelude.{◌≡◌, filter};
ghost use Rattle.rail_base.specs.Routes.{has_section, held_sections, own_shared};
ghost use Rattle.rail_require.specs.Ticks.{grant_tick, history_of, is_by};
ghost use Rattle.cone_run.specs.Asked.{overlap_released, own_released, release_in, released_by, up_to};

use rail_base::history::TrainHistory;
use rail_base::plan::Command;
use rail_base::route::{Route, RouteNo};
use rail_base::station::{SectionNo, TrainNo};

/// Whether a tick has come by another.
pub(crate) fn is_by(tick: Option<u64>, now: u64) -> bool
    ensures { result ≡ is_by now tick }
{
    match tick {
        Some(tick) => tick <= now,
        None => false,
    }
}

/// A tick, if it has come by another.
pub(crate) fn up_to(tick: Option<u64>, now: u64) -> Option<u64>
    ensures { result ≡ up_to now tick }
{
    match tick {
        Some(tick) if tick <= now => Some(tick),
        _ => None,
    }
}

/// The tick at which a command is granted. None where it hasn't been, or the history has no such command.
pub(crate) fn grant_tick(history: &[TrainHistory], train: TrainNo, command: u32) -> Option<u64>
    ensures { result ≡ grant_tick history.now train command }
{
    let train = history.get((train.0 as usize).checked_sub(1)?)?;
    let grant = train
        .grants
        .as_slice()
        .get((command as usize).checked_sub(1)?)?;
    grant.1
}

/// Whether a command has released by a tick all sections that its route shares with another.
pub(crate) fn all_released(
    history: &[TrainHistory],
    command: Command,
    tick: u64,
    route: &Route,
    other: &Route,
) -> bool
    ensures { result ≡ released_by history.now command tick route.now other.now }
{
    own_released(history, command, tick, route, other)
        && overlap_released(history, command, tick, route, other)
}

/// Whether it has released those that its route goes over.
fn own_released(
    history: &[TrainHistory],
    command: Command,
    tick: u64,
    route: &Route,
    other: &Route,
) -> bool
    ensures { result ≡ own_released history.now command tick (own_shared route.now other.now) }
{
    route
        .sections
        .as_slice()
        .iter()
        .map(|part| part.0)
        .filter(|section| other.has_section(*section))
        .all(|section| is_by(release_tick(history, command, section), tick))
}

/// Whether it has released those of the overlap at its route's end.
fn overlap_released(
    history: &[TrainHistory],
    command: Command,
    tick: u64,
    route: &Route,
    other: &Route,
) -> bool
    ensures { result ≡ overlap_released history.now command tick
        (filter (has_section other.now) (held_sections route.now)) }
{
    route
        .overlaps
        .as_slice()
        .iter()
        .map(|part| part.section)
        .filter(|section| other.has_section(*section))
        .all(|section| is_by(hold_tick(history, command, section), tick))
}

/// The tick of the first release of a section of a route.
fn first_release(
    releases: &[(RouteNo, SectionNo, Option<u64>)],
    route: RouteNo,
    section: SectionNo,
) -> Option<u64>
    ensures { result ≡ release_in releases.now route section }
{
    for (other, part, tick) in releases {
        if *other == route && *part == section {
            return *tick;
        }
    }
    None
}

/// The tick at which a command has released a section that its route goes over.
fn release_tick(history: &[TrainHistory], command: Command, section: SectionNo) -> Option<u64>
    ensures { result ≡ release_in (history_of history.now command.train).releases command.route section }
{
    let train = history.get((command.train.0 as usize).checked_sub(1)?)?;
    first_release(train.releases.as_slice(), command.route, section)
}

/// The tick at which it has released a section of the overlap at its route's end.
fn hold_tick(history: &[TrainHistory], command: Command, section: SectionNo) -> Option<u64>
    ensures { result ≡ release_in (history_of history.now command.train).holds command.route section }
{
    let train = history.get((command.train.0 as usize).checked_sub(1)?)?;
    first_release(train.holds.as_slice(), command.route, section)
}
