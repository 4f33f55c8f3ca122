//! Which words are taken.

ghost use Rattle.rail_words.specs.Laws.{SimulateIsRead, RoutesIsRead, VerifyIsRead, CheckIsRead, CheckInTimeIsRead, TrialIsRead};
ghost use Rattle.rail_words.specs.Laws.{TightestIsRead, TightestBoundsAreRead, TightestProgressIsRead};
ghost use Rattle.rail_words.specs.Laws.{AnyIsRead, BoundsAreRead, NormalIsRead, OthersAreQuiet, ProgressIsRead};
ghost use Rattle.rail_words.specs.Laws.{RequestsAreInRange, SilenceHasACause};

/// `simulate DESIGN PLAN` after the program's name, no value empty or beginning with a hyphen, asks for that.
pub fn simulate_is_read()
    ensures { SimulateIsRead }
{}

/// `routes DESIGN` after the program's name, with such a value, asks for that.
pub fn routes_is_read()
    ensures { RoutesIsRead }
{}

/// `verify --steps N --conflicts C --ticks T DESIGN PROOF` after the program's name, the numbers in digits and in
/// range, with such values, asks for that, without bounds.
pub fn verify_is_read()
    ensures { VerifyIsRead }
{}

/// `verify --steps N --conflicts C --ticks T --bounds DESIGN PROOF` after the program's name, the numbers in digits and
/// in range, with such values, asks for the same, with bounds.
pub fn bounds_are_read()
    ensures { BoundsAreRead }
{}

/// `verify --steps N --conflicts C --ticks T --bounds --any DESIGN PROOF` after the program's name, the numbers in
/// digits and in range, with such values, asks for the same, with bounds and for a plan of whatever number of steps.
pub fn any_is_read()
    ensures { AnyIsRead }
{}

/// `verify --steps N --conflicts C --ticks T --normal DESIGN PROOF` after the program's name, the numbers in digits and
/// in range, with such values, asks for the same, by normal plans alone.
pub fn normal_is_read()
    ensures { NormalIsRead }
{}

/// `verify --steps N --conflicts C --ticks T --progress DESIGN PROOF` after the program's name, the numbers in digits
/// and in range, with such values, asks for what it asks for without the flag, and to be told how far it is.
pub fn progress_is_read()
    ensures { ProgressIsRead }
{}

/// The lines of `verify` without that flag do not ask to be told.
pub fn others_are_quiet()
    ensures { OthersAreQuiet }
{}

/// `tightest --steps N --conflicts C --ticks T --within W DESIGN PROOF` after the program's name, the numbers in digits
/// and in range, with such values, asks for that, without bounds, and not to be told how far it is.
pub fn tightest_is_read()
    ensures { TightestIsRead }
{}

/// `tightest --steps N --conflicts C --ticks T --within W --bounds DESIGN PROOF` after the program's name, the numbers in
/// digits and in range, with such values, asks for the same, with bounds.
pub fn tightest_bounds_are_read()
    ensures { TightestBoundsAreRead }
{}

/// `tightest --steps N --conflicts C --ticks T --within W --progress DESIGN PROOF` after the program's name, the numbers
/// in digits and in range, with such values, asks for what it asks for without the flag, and to be told how far it is.
pub fn tightest_progress_is_read()
    ensures { TightestProgressIsRead }
{}

/// `check --steps N DESIGN PROOF` after the program's name, N from 1 to 256 in digits, with such values, asks for that.
pub fn check_is_read()
    ensures { CheckIsRead }
{}

/// `check --within W --max-ms X --steps N DESIGN PROOF` after the program's name, W and N from 1 to 256 and X from 0 to
/// 86,400,000 in digits, with such values, asks for that of the design whose within W has the greatest time X.
pub fn check_in_time_is_read()
    ensures { CheckInTimeIsRead }
{}

/// `trial SEED SIZE` after the program's name, SEED from 0 to 18446744073709551615 and SIZE from 1 to 6 in digits, asks
/// for that.
pub fn trial_is_read()
    ensures { TrialIsRead }
{}

/// A request's number of steps is from 1 to 256, and so is its within; a time that it puts into one is at most
/// 86,400,000 ms; its size is from 1 to 6.
pub fn requests_are_in_range()
    ensures { RequestsAreInRange }
{}

/// Words make no request exactly where they are not taken, or a number among them is out of range: the value of
/// `--steps`, `--conflicts`, `--ticks`, `--within`, `--max-ms`, SEED or SIZE of the subcommand that they name; or
/// where `verify` has flags that don't go together, or `check` has one of `--within` and `--max-ms` alone.
pub fn silence_has_a_cause()
    ensures { SilenceHasACause }
{}
