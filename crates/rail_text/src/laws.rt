//! What writing and reading have to do with one another.

ghost use Rattle.rail_text.specs.Laws.{NumbersReadBack, PiecesJoinBack};

/// The digits of a number are read as that number.
pub fn numbers_read_back()
    ensures { NumbersReadBack }
{}

/// The lines of a text are all of its bytes.
pub fn pieces_join_back()
    ensures { PiecesJoinBack }
{}
