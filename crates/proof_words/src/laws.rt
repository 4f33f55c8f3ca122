//! What the sentences about a proof say of the design, the contract of a function that does nothing.

ghost use Rattle.proof_words.specs.Denied.{SentencesOfProofsDeny};

/// Where a file shows that there is no plan, each of its lines that has sentences denies what they say: a plan of which
/// all of it is so is not feasible, however many steps it has.
pub fn sentences_of_proofs_deny()
    ensures { SentencesOfProofsDeny }
{}
