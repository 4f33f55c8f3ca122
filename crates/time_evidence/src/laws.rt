//! What stays shown with less time, each law the contract of a function that does nothing.

ghost use Rattle.clause_spec.specs.declared.question.BaseKind.TheVariants.{Plain, Normal};
ghost use Rattle.greatest_time.specs.Laws.{EachChange};
ghost use Rattle.log_recorder.specs.Logs.{IsEndedLog, IsRunLog};
ghost use Rattle.time_evidence.specs.Laws.{EachTwoTimes, EachLessTime, ConesStayValid, BoundsStayValid};
ghost use Rattle.time_evidence.specs.Laws.{EvidenceStaysShown, SameVariables, SameClauses, LinesGoOn, StaysSo};

/// Cones and bounds stay valid with less time.
pub fn evidence_stays_valid()
    ensures cones { EachLessTime ConesStayValid }
    ensures bounds { EachLessTime BoundsStayValid }
{}

/// So a cone or a bound that shows a clause in a base shows it with less time.
pub fn evidence_stays_shown()
    ensures { EachLessTime EvidenceStaysShown }
{}

/// The variables of each base are the same with every greatest time.
pub fn variables_stay()
    ensures changed { EachChange SameVariables }
    ensures times { EachTwoTimes SameVariables }
{}

/// So are the clauses of the plain base, and of that of normal plans. Those by which trains come in turn need not be,
/// since trains may be alike with one time and not with another.
pub fn clauses_stay()
    ensures changed_plain { EachChange (SameClauses Plain) }
    ensures changed_normal { EachChange (SameClauses Normal) }
    ensures plain { EachTwoTimes (SameClauses Plain) }
    ensures normal { EachTwoTimes (SameClauses Normal) }
{}

/// Where cones and bounds show more, the lines of a log go on, and a run log stays one, ended or not.
pub fn logs_stay()
    ensures lines { LinesGoOn }
    ensures run { StaysSo IsRunLog }
    ensures ended { StaysSo IsEndedLog }
{}
