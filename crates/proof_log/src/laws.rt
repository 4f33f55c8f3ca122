//! What reading and writing lines have to do with one another.

ghost use Rattle.proof_log.specs.Laws.{LinesReadBack, LinesHaveOneText, HeadsReadBack, HeadsHaveOneText};

use rail_text::numbers_read_back;

/// The text of a line that keeps the grammar is read as that line.
pub fn lines_read_back()
    ensures { LinesReadBack }
{
    numbers_read_back();
}

/// Bytes that are read as a line are the one text of that line, which keeps the grammar.
pub fn lines_have_one_text()
    ensures { LinesHaveOneText }
{}

/// The text of a head whose numbers have at most 18 digits is read as that head.
pub fn heads_read_back()
    ensures { HeadsReadBack }
{
    numbers_read_back();
}

/// Bytes that are read as a head are the one text of that head, whose numbers have at most 18 digits.
pub fn heads_have_one_text()
    ensures { HeadsHaveOneText }
{}
