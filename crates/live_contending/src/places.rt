//! The place of a pair.

ghost use Rattle.std.specs.Prelude.{◌≡◌, ◌≤◌, ◌<◌, ℕ, ◌&&◌, IfSome, Some, length};
ghost use Rattle.std.specs.List.{list_any, slice_get};
ghost use Rattle.rail_spec.specs.Plans.{is_command};
ghost use Rattle.clause_spec.specs.Variables.{is_pair};
ghost use Rattle.command_set.specs.Commands.{first_place};

use crate::pairs::ContendingPairs;
use crate::starts::rivals_before;
use command_set::place_in_row;
use rail_base::plan::Command;

impl ContendingPairs {
    /// How many pairs stand before this one, if it is there.
    pub fn place(&self, first: Command, second: Command) -> Option<usize>
        ensures place { result ≡ first_place (is_pair first second) self.now.pairs }
        ensures bound { IfSome result (λ place. place < length self.now.pairs) }
        ensures index { (i : ℕ) → slice_get self.now.pairs i ≡ Some (first, second) → result ≡ Some i }
    {
        let number = match self.commands.number(first) {
            Some(number) => number as usize,
            None => return None,
        };
        if first.train.0 == second.train.0 {
            return None;
        }
        match place_in_row(self.rows.row(second.train, first.route), second.route) {
            Some(within) => {
                let before = rivals_before(&self.rows, first, second.train.0);
                Some(self.starts[number] + before + within)
            }
            None => None,
        }
    }

    /// The index of a pair, where it is one of them.
    pub fn place_of(&self, pair: (Command, Command)) -> usize
        ensures bound { result ≤ length self.now.pairs }
        ensures index { (i : ℕ) → slice_get self.now.pairs i ≡ Some pair → result ≡ i }
    {
        self.place(pair.0, pair.1).unwrap_or(0)
    }

    /// Whether two commands are one of the pairs.
    pub fn is_among(&self, first: Command, second: Command) -> bool
        ensures { result ≡ list_any (λ p. is_command p.0 first && is_command p.1 second) self.now.pairs }
    {
        self.place(first, second).is_some()
    }
}
