//! Which words are taken.

ghost use Rattle.why_words.specs.Laws.{NameIsRead, NamesAreRead, StepsAreRead, TimeIsRead, TimeAndStepsAreRead};

/// `DESIGN` after the program's name, neither empty nor beginning with a hyphen, asks for what is to be said of it.
pub fn name_is_read()
    ensures { NameIsRead }
{}

/// `DESIGN FILE` after the program's name, neither empty nor beginning with a hyphen, asks for that.
pub fn names_are_read()
    ensures { NamesAreRead }
{}

/// `--steps N DESIGN FILE` after the program's name, N from 1 to 256 in digits, with such names, asks for that.
pub fn steps_are_read()
    ensures { StepsAreRead }
{}

/// `--within W --max-ms X DESIGN FILE` after the program's name, W from 1 to 256 and X from 0 to 86,400,000 in digits, with
/// such names, asks for what is to be said of the design whose within W has the greatest time X.
pub fn time_is_read()
    ensures { TimeIsRead }
{}

/// `--within W --max-ms X --steps N DESIGN FILE` after the program's name, N from 1 to 256 in digits too, asks for that.
pub fn time_and_steps_are_read()
    ensures { TimeAndStepsAreRead }
{}
