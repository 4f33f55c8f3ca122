//! What sentences say, each law the contract of a function that does nothing.

ghost use Rattle.evidence_words.specs.Laws.{EndsAsTheChain, EndsAsTheChainFromVisit, WaitsForTheRelease};
ghost use Rattle.evidence_words.specs.So.{SentencesDeny};

/// The ticks by which legs wait for each other and are through are those of the definitions of bounds.
pub fn ticks_are_those_of_bounds()
    ensures chain { EndsAsTheChain }
    ensures from_visit { EndsAsTheChainFromVisit }
    ensures release { WaitsForTheRelease }
{}

/// A plan of which all that the sentences about a valid cone or bound say is so is not feasible.
pub fn sentences_deny()
    ensures { SentencesDeny }
{}
