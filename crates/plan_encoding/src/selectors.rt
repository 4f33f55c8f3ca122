//! The variables of steps.

ghost use Rattle.std.specs.Prelude.{◌≡◌, ◌≤◌};
ghost use Rattle.plan_encoding.specs.Families.{last_pair};

use crate::tables::Tables;

/// The variables that say by which step all is given. Their numbers follow on that of the last pair.
#[derive(Clone, Copy)]
pub struct Selectors<'a> {
    pub tables: &'a Tables<'a>,
    pub last: u32,
    pub ghost number: { last ≡ last_pair tables.now.encoder },
    pub ghost at_most_73536000: { last ≤ 73536000 },
}
