//! Pairs of commands that stand in increasing order, found by halves.

ghost use Rattle.std.specs.Prelude.{◌≡◌, ◌≤◌, ℕ, Some, length, slice_get};
ghost use Rattle.std.specs.List.{list_any};
ghost use Rattle.cone_spec.specs.Cones.{is_pair};

use crate::lookup::is_command;
use crate::order::is_pair_before;
use crate::pairs::SortedPairs;
use rail_base::plan::Command;

impl SortedPairs<'_> {
    /// The index of a pair, where it is one of them.
    pub fn place_of(&self, pair: (Command, Command)) -> usize
        ensures bound { result ≤ length self.now.items.now }
        ensures index { (i : ℕ) → slice_get self.now.items.now i ≡ Some pair → result ≡ i }
    {
        self.items
            .partition_point(|other| is_pair_before(*other, pair))
    }

    /// Whether two commands are one of the pairs.
    pub fn is_among(&self, first: Command, second: Command) -> bool
        ensures { result ≡ list_any (is_pair first second) self.now.items.now }
    {
        let place = self.place_of((first, second));
        if place == self.items.len() {
            return false;
        }
        let pair = self.items[place];
        is_command(pair.0, first) && is_command(pair.1, second)
    }
}
