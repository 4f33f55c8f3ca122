//! Laws of the answers, each the contract of a function that does nothing.

ghost use Rattle.why_cli.specs.Laws.{HeadsNameSteps, NoStepsIsUsage, RefusesAsCheck, SaysDigests, SilenceIsUsage, ExplainsWhereYes};

/// What a check of the files does not answer with yes is answered as it is there, by the same status and line.
pub fn refuses_as_check()
    ensures { RefusesAsCheck }
{}

/// Where a check of the files says yes, so does the answer: its lines are those about the files and the number of steps
/// that the check prints, and then the sentences about the proof's lines, in order.
pub fn explains_where_yes()
    ensures { ExplainsWhereYes }
{}

/// There the second and the third line say the SHA-256 digests of the bytes of the two files.
pub fn says_digests()
    ensures { SaysDigests }
{}

/// Where no steps are given, the answer is that for the steps that the head of the proof names.
pub fn heads_name_steps()
    ensures { HeadsNameSteps }
{}

/// Where it names none, over a design that is admitted, the answer is how the program is used.
pub fn no_steps_is_usage()
    ensures { NoStepsIsUsage }
{}

/// Words that ask for nothing are answered by how the program is used, whatever the files are.
pub fn silence_is_usage()
    ensures { SilenceIsUsage }
{}
