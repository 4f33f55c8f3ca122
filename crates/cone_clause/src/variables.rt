//! The numbers of the variables of a base.

ghost use Rattle.std.specs.Prelude.{◌≡◌, ◌≤◌, ◌*◌, length};
ghost use Rattle.cone_clause.specs.Contentions.{before_number, used_number};

use crate::contention::Contention;
use interlocking::Steps;
use rail_base::plan::Command;

impl Contention<'_> {
    /// How many variables of a base for so many steps say that a command is given by a step.
    pub fn given_count(&self, steps: Steps) -> u32
        ensures value { result ≡ length self.now.pairs.now.commands * steps.count }
        ensures bound { result ≤ 65536000 }
    {
        self.pairs.commands().count() as u32 * steps.count
    }

    /// The number of the variable that a command is given by the last step; none where the base doesn't speak of it.
    pub fn used_number(&self, steps: Steps, command: Command) -> Option<u32>
        ensures { result ≡ used_number self.now steps.count command }
    {
        match self.pairs.commands().number(command) {
            Some(place) => Some(place * steps.count + steps.count),
            None => None,
        }
    }

    /// The number of the variable that one command is given before another; none where they are no pair.
    pub fn before_number(&self, steps: Steps, first: Command, second: Command) -> Option<u32>
        ensures { result ≡ before_number self.now steps.count first second }
    {
        match self.pairs.place(first, second) {
            Some(place) => Some(self.given_count(steps) + place as u32 + 1),
            None => None,
        }
    }
}
