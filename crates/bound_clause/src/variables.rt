//! That a command is used, or that it is given before another, as literals of the base.

ghost use Rattle.std.specs.Prelude.{OnOk};
ghost use Rattle.rail_base.specs.Members.{In};
ghost use Rattle.cone_spec.specs.Clauses.{Before, Used};
ghost use Rattle.bound_clause.specs.Spoken.{pairs_in, AddsFact};

use crate::numbered::NumberedBound;
use crate::remainder::Remainder;
use rail_base::plan::Command;
use std::alloc::AllocError;

impl NumberedBound<'_> {
    /// Says that a command is used, or that it is not.
    pub(crate) fn say_used(
        &self,
        clause: &mut Remainder,
        command: Command,
        negated: bool,
    ) -> Result<(), AllocError>
        ensures { OnOk result (AddsFact self.now clause.old clause.new (Used command) negated) }
    {
        clause.push(self.contention.used_number(self.steps, command), negated)
    }

    /// Says that one of two contending commands is given before the other, or that it is not.
    pub(crate) fn say_before(
        &self,
        clause: &mut Remainder,
        pair: (Command, Command),
        negated: bool,
    ) -> Result<(), AllocError>
        requires { In pair (pairs_in self.now) }
        ensures { OnOk result (AddsFact self.now clause.old clause.new (Before pair.0 pair.1) negated) }
    {
        let number = self.contention.before_number(self.steps, pair.0, pair.1);
        clause.push(number, negated)
    }
}
