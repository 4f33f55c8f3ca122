//! Laws of the text, each the contract of a function that does nothing.

ghost use Rattle.design_text.specs.Laws.{TextsAreShort, TextsReadBack};

/// The text of an admitted design spells that design.
pub fn texts_read_back()
    ensures { TextsReadBack }
{}

/// It has no more bytes than the file of a design may have.
pub fn texts_are_short()
    ensures { TextsAreShort }
{}
