//! What sentences say of plans, each law the contract of a function that does nothing.

ghost use Rattle.cone_words.specs.So.{SentencesOfConesDeny};

/// A plan of which all that the sentences about a valid cone say is so is not feasible.
pub fn sentences_of_cones_deny()
    ensures { SentencesOfConesDeny }
{}
