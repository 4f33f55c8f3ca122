//! The numbers that are drawn from a seed.

ghost use Rattle.std.specs.Prelude.{◌≡◌, ◌≤◌};
ghost use Rattle.workload.specs.Draws.{next, below};

/// A row of numbers, each from the one before.
#[derive(Drop)]
pub struct Draws {
    pub state: u64,
}

impl Draws {
    /// The next draw below `bound`.
    #[tactic(auto, using(crate::proofs::Drawing::next_wrapped))]
    pub fn below(&mut self, bound: u32) -> u32
        requires { 1 ≤ bound }
        ensures state { self.new.state ≡ next self.old.state }
        ensures value { result ≡ below bound self.new.state }
    {
        self.state = self
            .state
            .wrapping_mul(6364136223846793005)
            .wrapping_add(1442695040888963407);
        ((self.state >> 33) % u64::from(bound)) as u32
    }
}
