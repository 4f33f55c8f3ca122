/// After how many lines the search begins anew: 1, 1, 2, 1, 1, 2, 4, and so on, times a fixed count.
#[derive(Clone, Copy, Drop)]
pub struct Restarts {
    lines: u64,
    turn: u64,
    factor: u64,
}

/// The fewest lines between two beginnings.
const FEWEST: u64 = 64;

impl Restarts {
    /// No line yet.
    pub fn new() -> Restarts {
        Restarts {
            lines: 0,
            turn: 1,
            factor: 1,
        }
    }

    /// Counts a line. Whether the search begins anew after it.
    pub fn begins(&mut self) -> bool {
        self.lines = self.lines.saturating_add(1);
        if self.lines < self.factor.saturating_mul(FEWEST) {
            return false;
        }
        self.lines = 0;
        if self.factor > 0 && self.turn / self.factor % 2 == 1 && self.turn % self.factor == 0 {
            self.turn = self.turn.saturating_add(1);
            self.factor = 1;
        } else {
            self.factor = self.factor.saturating_mul(2);
        }
        true
    }
}
