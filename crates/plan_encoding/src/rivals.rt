//! The commands that contend with a command.

ghost use Rattle.std.specs.Prelude.{◌≡◌, IfOk};
ghost use Rattle.plan_encoding.specs.Families.{rivals_of};
ghost use Rattle.plan_encoding.specs.Encoders.{IsCommand};

use crate::tables::Tables;
use rail_base::plan::Command;
use std::alloc::{AllocError, Global};

impl Tables<'_> {
    /// The commands that contend with a command, by train and then by route.
    pub fn rivals(&self, alloc: Global, command: Command) -> Result<Vec<Command>, AllocError>
        requires command { IsCommand self.now.encoder command }
        ensures { IfOk result (λ cs. cs.items ≡ rivals_of self.now.encoder command) }
    {
        self.encoder.pairs.rivals(alloc, command)
    }
}
