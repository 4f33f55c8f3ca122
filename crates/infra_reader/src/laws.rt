//! What follows of what is read.

ghost use Rattle.infra_reader.specs.Laws.{ParsedAreAdmitted};

/// A design in bytes is admitted: its numbers are in range, its names are there, and its track holds together.
pub fn parsed_designs_are_admitted()
    ensures { ParsedAreAdmitted }
{}
