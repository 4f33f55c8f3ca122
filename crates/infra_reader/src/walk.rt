//! One code over all entries of an array.

ghost use Rattle.std.specs.Prelude.{◌≡◌, ℕ, List, map};
ghost use Rattle.design_table.specs.declared.fault.Code.{Code};
ghost use Rattle.design_table.specs.declared.place.Place.{Place};
ghost use Rattle.design_table.specs.Reads.{ReadsOrRefuses, in_each};
ghost use Rattle.rail_base.specs.declared.station.Station.{Station};
ghost use Rattle.infra_reader.specs.Names.{Names};
ghost use Rattle.infra_reader.specs.Limits.{count_outside, array_outside};
ghost use Rattle.infra_reader.specs.Seen.{names_seen};

use crate::names::Names;
use design_table::{Code, DesignFault, Key, Place};
use rail_base::list::List;
use rail_base::station::Station;
use std::alloc::Global;

/// An entry of the sheet whose numbers have limits.
pub trait Limited {
    /// What an entry is seen as.
    ghost Parsed: { Type 0 };

    /// What an entry stands for.
    ghost seen: { Self → Parsed };

    /// The keys with numbers out of range.
    ghost outside: { ℕ → Parsed → List Place };

    /// Refuses numbers out of range. Entries are counted from 1.
    fn refuse_outside(&self, number: u64) -> Result<(), DesignFault>
        ensures { ReadsOrRefuses (λ x. x) result Code.D05 (outside number (seen self.now)) tt };
}

/// Refuses an array that has not from `least` to `most` entries.
#[tactic(auto, unfolding(crate::specs::Limits::count_outside))]
pub fn refuse_count<E>(
    least: usize,
    most: usize,
    key: Key,
    entries: &[E],
) -> Result<(), DesignFault>
    ensures { ReadsOrRefuses (λ x. x) result Code.D05 (count_outside least most key entries.now) tt }
{
    if least <= entries.len() && entries.len() <= most {
        Ok(())
    } else {
        Err(DesignFault::Refused {
            code: Code::D05,
            place: Place::Top(key),
        })
    }
}

/// Refuses an array that has not from `least` to `most` entries, and entries with numbers out of range.
pub fn refuse_array<E: Limited>(
    least: usize,
    most: usize,
    key: Key,
    entries: &[E],
) -> Result<(), DesignFault>
    ensures { ReadsOrRefuses (λ x. x) result Code.D05
        (array_outside E.outside least most key (map E.seen entries.now)) tt }
{
    refuse_count(least, most, key, entries)?;
    refuse_each_outside(entries)
}

/// Refuses entries that break a rule.
pub fn refuse_each<R: Rule<E>, E>(station: &Station, entries: &[E]) -> Result<(), DesignFault>
    ensures { ReadsOrRefuses (λ x. x) result R.code (in_each (R.places station.now) entries.now) tt }
{
    for (index, entry) in entries.iter().enumerate() {
        R::check(station, index as u64 + 1, entry)?;
    }
    Ok(())
}

/// A rule on one kind of entry of a station.
pub trait Rule<E> {
    ghost code: { Code };

    /// The places where an entry breaks the rule.
    ghost places: { Station → ℕ → E → List Place };

    /// Refuses an entry that breaks the rule. Entries are counted from 1.
    fn check(station: &Station, number: u64, entry: &E) -> Result<(), DesignFault>
        ensures { ReadsOrRefuses (λ x. x) result code (places station.now number entry.now) tt };
}

/// The entries, by the numbers of the names.
pub fn resolve_each<E: Resolve>(
    alloc: Global,
    names: &Names,
    entries: &[E],
) -> Result<List<E::Resolved>, DesignFault>
    ensures { let known = names_seen names.now in let parsed = map E.seen entries.now in
        ReadsOrRefuses (λ x. x) result Code.D04 (in_each (E.unknown known) parsed) (map (E.resolved known) parsed) }
{
    let mut resolved = Vec::new(alloc);
    for (index, entry) in entries.iter().enumerate() {
        resolved.push(entry.resolve(alloc, names, index as u64 + 1)?)?;
    }
    Ok(List::from_vec(resolved))
}

/// An entry of the sheet that becomes one of the station.
pub trait Resolve {
    /// The entry of the station.
    type Resolved: Drop;

    /// What an entry is seen as.
    ghost Parsed: { Type 0 };

    /// What an entry stands for.
    ghost seen: { Self → Parsed };

    /// The keys with names that are not there.
    ghost unknown: { Names → ℕ → Parsed → List Place };

    /// What it becomes.
    ghost resolved: { Names → Parsed → Self.Resolved };

    /// The entry, by the numbers of the names. Entries are counted from 1.
    fn resolve(
        &self,
        alloc: Global,
        names: &Names,
        number: u64,
    ) -> Result<Self::Resolved, DesignFault>
        ensures { let known = names_seen names.now in let parsed = seen self.now in
            ReadsOrRefuses (λ x. x) result Code.D04 (unknown known number parsed) (resolved known parsed) };
}

/// Refuses entries with numbers out of range.
fn refuse_each_outside<E: Limited>(entries: &[E]) -> Result<(), DesignFault>
    ensures { ReadsOrRefuses (λ x. x) result Code.D05 (in_each E.outside (map E.seen entries.now)) tt }
{
    for (index, entry) in entries.iter().enumerate() {
        entry.refuse_outside(index as u64 + 1)?;
    }
    Ok(())
}
