//! How much track clears the sections that a route shares with another.

ghost use Rattle.std.specs.Prelude.{◌≡◌, ◌≤◌, ◌^◌, IfOk, find, reverse};
ghost use Rattle.number_sets.specs.Sets.{contains};
ghost use Rattle.plan_encoding.specs.Releases.{left_of, AreReleases};

use number_sets::NumberSet;
use rail_base::route::Route;
use rail_base::station::SectionNo;
use std::alloc::{AllocError, Global};

/// The sections of a route with their release offsets, in the order in which they are released.
pub fn releases(alloc: Global, route: &Route) -> Result<Vec<(SectionNo, i64)>, AllocError>
    ensures { IfOk result (λ parts. AreReleases parts.items route.now) }
{
    let mut parts = Vec::from_slice(alloc, route.sections.as_slice())?;
    parts.sort_unstable_by_key(|part| part.1.unsigned_abs());
    Ok(parts)
}

/// How much track takes a train of this length clear of those of these sections that are in a set, in mm; 0 where none
/// is.
pub fn clearing(parts: &[(SectionNo, i64)], set: &NumberSet, length: u32) -> u128
    ensures value { result ≡ left_of (find (λ p. contains set.now p.0.0) (reverse parts.now)) length }
    ensures bound { result ≤ 2 ^ 65 }
{
    match last_in(parts, set) {
        Some(part) => u128::from(part.1.unsigned_abs()) + u128::from(length),
        None => 0,
    }
}

/// The last of these sections that is in a set.
fn last_in(parts: &[(SectionNo, i64)], set: &NumberSet) -> Option<(SectionNo, i64)>
    ensures { result ≡ find (λ p. contains set.now p.0.0) (reverse parts.now) }
{
    parts
        .iter()
        .rev()
        .copied()
        .find(|part| set.contains(part.0.0))
}
