//! Commands that wait for others.

ghost use Rattle.std.specs.Prelude.{◌≤◌, ◌^◌};
ghost use Rattle.rail_base.specs.Routes.{route_at};
ghost use Rattle.plan_encoding.specs.Encoders.{IsCommand, table};
ghost use Rattle.plan_encoding.specs.Releases.{AreReleasesOf};

use crate::tables::Tables;
use rail_base::plan::Command;
use rail_base::station::SectionNo;

/// A command for which others wait, and the sections of its route with their offsets, as they are released.
#[derive(Clone, Copy)]
pub struct Releasing<'a> {
    pub tables: &'a Tables<'a>,
    pub first: Command,
    pub parts: &'a [(SectionNo, i64)],
    pub ghost first_known: { IsCommand tables.now.encoder first },
    pub ghost released: { AreReleasesOf parts.now (route_at (table tables.now.encoder) first.route) },
}

/// Two commands of which the second waits for the first, until track of so many mm is given to the first one's train.
#[derive(Clone, Copy)]
pub struct Wait<'a> {
    pub tables: &'a Tables<'a>,
    pub first: Command,
    pub second: Command,
    pub bound: u128,
    pub ghost first_known: { IsCommand tables.now.encoder first },
    pub ghost second_known: { IsCommand tables.now.encoder second },
    pub ghost bounded: { bound ≤ 2 ^ 65 },
}
