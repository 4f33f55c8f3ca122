//! Laws of drawings, each the contract of a function that does nothing.

ghost use Rattle.drawing.specs.Laws.{NamesStay, WordsAreInLines};

/// Each of the words of a picture is the text of a line of its drawing, escaped.
pub fn words_are_in_lines()
    ensures { WordsAreInLines }
{}

/// A text of letters, digits, `_`, `-` and spaces stays as it is when it is escaped.
pub fn names_stay()
    ensures { NamesStay }
{}
