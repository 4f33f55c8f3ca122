//! What a proof file shows.

ghost use Rattle.std.specs.Prelude.{◌≡◌};
ghost use Rattle.log_checker.specs.Words.{bound_fault_words, cone_fault_words, evidence_fault_words, reason_words};

use bound_spec::{BoundFault, EvidenceFault};
use cone_spec::ConeFault;

/// Why a line of a proof file is bad.
#[derive(Clone, Copy, PartialEq, Eq, Debug)]
pub enum Reason {
    /// It isn't a line, or its place isn't one for it, or a variable is past the last one.
    Text,
    /// The head names another version of designs, or another number of steps.
    HeadDiffers,
    /// The clauses that the head names have too many literals.
    BaseTooLarge,
    /// A number names no clause that stands before and is not taken out.
    UnknownClause,
    /// A hint before the last one names a clause that leaves more or less than one literal open.
    HintNotUnit,
    /// The last hint names a clause that isn't false, or there is no hint.
    NoConflict,
    /// A clause of the base, or one that a cone or a bound shows, is to be taken out.
    DropRefused,
    /// The cone or the bound shows nothing.
    NotRefuted(EvidenceFault),
    /// The line that ends the proof is missing.
    NoFinalLine,
}

impl Reason {
    /// The reason in words.
    pub fn words(self) -> &'static str
        ensures { result.now ≡ reason_words self }
    {
        match self {
            Reason::Text => "text",
            Reason::HeadDiffers => "head differs",
            Reason::BaseTooLarge => "base too large",
            Reason::UnknownClause => "unknown clause",
            Reason::HintNotUnit => "hint not unit",
            Reason::NoConflict => "no conflict",
            Reason::DropRefused => "drop refused",
            Reason::NotRefuted(fault) => evidence_fault_words(fault),
            Reason::NoFinalLine => "no final line",
        }
    }
}

/// Why a cone shows nothing, in words.
fn cone_fault_words(fault: ConeFault) -> &'static str
    ensures { result.now ≡ cone_fault_words fault }
{
    match fault {
        ConeFault::PathNotInDesign => "path not in design",
        ConeFault::CommandNotGranted => "command not granted",
        ConeFault::HolderNotValid => "holder not valid",
        ConeFault::ViolationNotShown => "violation not shown",
    }
}

/// Why a bound shows nothing, in words.
fn bound_fault_words(fault: BoundFault) -> &'static str
    ensures { result.now ≡ bound_fault_words fault }
{
    match fault {
        BoundFault::BoundNotInDesign => "bound not in design",
        BoundFault::PlaceNotCovered => "place not covered",
        BoundFault::BoundNotShown => "bound not shown",
    }
}

/// Why a cone or a bound shows nothing, in words.
fn evidence_fault_words(fault: EvidenceFault) -> &'static str
    ensures { result.now ≡ evidence_fault_words fault }
{
    match fault {
        EvidenceFault::Cone(fault) => cone_fault_words(fault),
        EvidenceFault::Bound(fault) => bound_fault_words(fault),
    }
}

/// What a proof file shows.
#[derive(Clone, Copy, PartialEq, Eq, Debug)]
pub enum CheckResult {
    /// There is no plan of so many steps.
    Yes { steps: u32 },
    /// Nothing: this line, counted from 1, is the first bad one.
    No { line: u64, reason: Reason },
}
