ghost use Rattle.std.specs.Prelude.{◌≡◌};
ghost use Rattle.sat_trail.specs.Paces.{after_decision, anew};

/// How decisions are counted, in parts. A part begins with each question and after each derived line.
#[derive(Clone, Copy)]
pub struct Pace {
    /// How many decisions were made in this part.
    pub made: u64,
    /// The most that were made in one part.
    pub most: u64,
    /// Whether each decision was made while all earlier ones of its part stood.
    pub steady: bool,
}

/// How many parts began.
#[derive(Clone, Copy)]
pub struct Parts {
    /// With a question; after the greatest number this begins at 0 again.
    pub questions: u64,
    /// After a derived line.
    pub lines: u64,
}

impl Pace {
    /// Counts a decision that is made while this many stand.
    pub fn decided(self, standing: u32) -> Pace
        ensures { result ≡ after_decision self standing }
    {
        let made = self.made.saturating_add(1);
        Pace {
            made,
            most: self.most.max(made),
            steady: self.steady && self.made <= standing as u64,
        }
    }

    /// Begins a part.
    pub fn begun(self) -> Pace
        ensures { result ≡ anew self }
    {
        Pace {
            made: 0,
            most: self.most,
            steady: self.steady,
        }
    }
}
