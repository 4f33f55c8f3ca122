//! How long trains hold on sections behind the ends of their routes.

ghost use Rattle.std.specs.Prelude.{◌≡◌, ◌⊎◌, ◌+◌, ◌≤◌, ◌<◌, ℕ, Some};
ghost use Rattle.rail_base.specs.Members.{In};
ghost use Rattle.rail_course.specs.declared.journey.Hold.{Hold};
ghost use Rattle.rail_course.specs.Clocks.{comes_by};
ghost use Rattle.rail_course.specs.Marks.{pass_mark};

use rail_base::station::NodeNo;
use rail_course::Hold;

/// The tick at which a node of a path was passed.
pub(crate) fn pass_mark(passes: &[(NodeNo, Option<u64>)], node: usize) -> Option<u64>
    ensures { result ≡ pass_mark passes.now node }
{
    let pass = passes.get(node)?;
    pass.1
}

/// Whether what happened at this tick, if at any, was so many ticks ago by the clock, or more.
pub(crate) fn comes_by(happened: Option<u64>, ticks: u64, clock: u64) -> bool
    ensures { result ≡ comes_by happened ticks clock }
{
    match happened {
        Some(tick) => tick <= clock && ticks <= clock - tick,
        None => false,
    }
}

/// What a train's clock shows when one of its holds next ends, of those that have begun, or `most`.
pub(crate) fn next_hold_end(
    holds: &[Hold],
    passes: &[(NodeNo, Option<u64>)],
    clock: u64,
    most: u64,
) -> u64
    requires most { clock < most }
    ensures ahead { clock < result }
    ensures within { result ≤ most }
    ensures least { (h : Hold) → In h holds.now → (a : ℕ) → pass_mark passes.now h.node ≡ Some a
        → (a + h.event.ticks ≤ clock) ⊎ (result ≤ a + h.event.ticks) }
{
    let mut end = most;
    for hold in holds {
        end = sooner_end(pass_mark(passes, hold.node), hold.event.ticks, clock, end);
    }
    end
}

/// What it shows so many ticks after something happened, if that is still to come and before `most`; else `most`.
fn sooner_end(happened: Option<u64>, ticks: u64, clock: u64, most: u64) -> u64
    requires most { clock < most }
    ensures ahead { clock < result }
    ensures within { result ≤ most }
    ensures least { (a : ℕ) → happened ≡ Some a → (a + ticks ≤ clock) ⊎ (result ≤ a + ticks) }
{
    let Some(tick) = happened else {
        return most;
    };
    let end = tick.saturating_add(ticks);
    if clock < end { most.min(end) } else { most }
}
