//! What the sentences have to do with the refusals.

ghost use Rattle.fault_words.specs.Laws.{AllowedIsNotRefused};

/// The numbers and counts of entries that are said to be allowed are those that no design is refused for.
pub fn allowed_is_not_refused()
    ensures { AllowedIsNotRefused }
{}
