//! Designs from their documents.

ghost use Rattle.std.specs.Prelude.{◌≡◌, OnOk, IfErr};
ghost use Rattle.design_table.specs.Reads.{GivesOrRefuses, Refuses};
ghost use Rattle.design_table.specs.Parsed.{sheet_seen};
ghost use Rattle.rail_base.specs.declared.design.Design.{Design};
ghost use Rattle.infra_reader.specs.Design.{ruled, resolved, design_of};
ghost use Rattle.infra_reader.specs.Keeping.{KeepsRules};
ghost use Rattle.infra_reader.specs.Spelling.{IsSpelled};

use crate::limits::refuse_outside;
use crate::names::read_names;
use crate::resolve::resolve;
use crate::rules::{
    refuse_crowded, refuse_inner_starts, refuse_misplaced_signals, refuse_missing_visits,
    refuse_open_boundaries, refuse_zeros,
};
use design_table::{DesignFault, Sheet, read_sheet, toml_table};
use rail_base::design::Design;
use rail_base::station::Station;
use std::alloc::Global;

/// The design that the bytes of a document spell.
///
/// # Errors
///
/// The lowest code that holds anywhere in the document, from D01 to D11, at its first place in the order of the
/// walk; or `Memory`, which says nothing of the document.
pub fn read_design(alloc: Global, bytes: &[u8]) -> Result<Design, DesignFault>
    ensures { GivesOrRefuses (λ d. d.station) result (design_of bytes.now) }
{
    let table = toml_table(alloc, bytes)?;
    let sheet = read_sheet(alloc, &table)?;
    admit(alloc, &sheet)
}

/// Refuses a station that breaks a rule.
fn refuse_broken(station: &Station) -> Result<(), DesignFault>
    ensures ok { OnOk result (KeepsRules station.now) }
    ensures err { IfErr result (λ fault. Refuses fault (ruled station.now)) }
{
    refuse_crowded(station)?;
    refuse_open_boundaries(station)?;
    refuse_misplaced_signals(station)?;
    refuse_zeros(station)?;
    refuse_inner_starts(station)?;
    refuse_missing_visits(station)
}

/// The design that is parsed from a sheet of names.
fn admit(alloc: Global, sheet: &Sheet) -> Result<Design, DesignFault>
    requires { IsSpelled (sheet_seen sheet.now) }
    ensures { GivesOrRefuses (λ d. d.station) result (resolved (sheet_seen sheet.now)) }
{
    let names = read_names(alloc, sheet)?;
    let station = resolve(alloc, &names, sheet)?;
    refuse_outside(sheet)?;
    refuse_broken(&station)?;
    Ok(Design { station })
}
