//! What clauses are emitted for.

ghost use Rattle.std.specs.Prelude.{◌≡◌};
ghost use Rattle.live_clause_spec.specs.Variables.{live_pairs};
ghost use Rattle.command_set.specs.Commands.{AreCommandsOf, is_among};

use interlocking::{Interlocking, Steps};
use live_contending::ContendingPairs;

/// A design with its routes, how many steps a plan may have, and the commands that the base speaks of, with their pairs
/// that contend.
#[derive(Clone, Copy)]
pub struct Encoder<'a> {
    pub interlocking: &'a Interlocking,
    pub steps: Steps,
    pub pairs: &'a ContendingPairs,
    pub ghost of_design: { AreCommandsOf interlocking.now.design.station interlocking.now.routes pairs.now.commands },
    pub ghost paired: { pairs.now.pairs ≡ live_pairs (is_among pairs.now.commands)
        interlocking.now.design.station interlocking.now.routes },
}
