//! The commands that a base speaks of.

ghost use Rattle.std.specs.Prelude.{◌≡◌, ◌≤◌, length};
ghost use Rattle.live_clause_spec.specs.Variables.{live_pairs};
ghost use Rattle.command_set.specs.Commands.{AreCommandsOf, is_among};

use interlocking::Interlocking;
use live_contending::ContendingPairs;

/// An interlocking, the commands that a base speaks of, and the pairs of them that contend.
#[derive(Clone, Copy)]
pub struct Contention<'a> {
    pub interlocking: &'a Interlocking,
    /// The commands and the pairs, in the order of their variables.
    pub pairs: &'a ContendingPairs,
    pub ghost of_design: { AreCommandsOf interlocking.now.design.station interlocking.now.routes pairs.now.commands },
    pub ghost paired: { pairs.now.pairs ≡ live_pairs (is_among pairs.now.commands)
        interlocking.now.design.station interlocking.now.routes },
    pub ghost at_most_8000000: { length pairs.now.pairs ≤ 8000000 },
}
