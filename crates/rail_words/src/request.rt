//! What the words of a command line ask for.

ghost use Rattle.std.specs.Prelude.{◌≡◌, ◌≢◌, IfOk, OnOk, Err, Some, None, true, false, option_map, option_and_then};
ghost use Rattle.std.specs.Prelude.{codes};
ghost use Rattle.std.specs.Option.{option_map_or};
ghost use Rattle.clap.specs.Words.{first_of, rows_of, found_of, subcommand_of, subcommand_rows_of};
ghost use Rattle.rail_words.specs.FixedCommand.{rcv_app, is_taken};
ghost use Rattle.rail_words.specs.Requests.{IsInTimeInRange, IsRequestInRange, asked_by, check_with, conflicts_of, is_given};
ghost use Rattle.rail_words.specs.Requests.{in_time, in_time_of, in_time_with, max_ms_of, mode_of, number_to, within_of};
ghost use Rattle.rail_words.specs.Requests.{request_of, is_watched, is_watched_by};
ghost use Rattle.rail_words.specs.Requests.{simulate_by, routes_by, verify_by, tightest_by, check_by, trial_by};
ghost use Rattle.rail_words.specs.Requests.{simulate_with, steps_of, ticks_of, routes_with, seed_of, size_of};
ghost use Rattle.rail_words.specs.Requests.{trial_with, trial_within, verify_with, verify_within};
ghost use Rattle.rail_words.specs.Requests.{check_within, tightest_with, tightest_within};
ghost use Rattle.rail_words.specs.Words.{request_seen, texts_of};
ghost use Rattle.rail_words.specs.declared.request.WordsFault.TheVariants as fault;

use crate::command::command;
use clap::ArgMatches;
use clap::error::ErrorKind;
use rail_text::number;
use std::alloc::{AllocError, Global};
use thiserror::Error;

/// How a plan is looked for.
#[derive(Clone, Copy, Debug, PartialEq, Eq)]
pub enum SearchMode {
    /// One of the fewest steps. Plans that fail are excluded by the cones of their failures.
    Plain,
    /// One of the fewest steps. Plans that fail are excluded by lower bounds where one is found.
    Bounds,
    /// One of whatever number of steps, with bounds.
    Any,
    /// One of the fewest steps, by clauses that only plans make true of which no command could be given a step earlier.
    /// Plans that fail are excluded by the cones of their failures.
    Normal,
}

/// A greatest time that is put into a within.
#[derive(Clone, Copy, Debug, PartialEq, Eq)]
pub struct InTime {
    /// Which within of the design, 1 to 256.
    pub within: u32,
    /// The time in ms, at most 86,400,000.
    pub max_ms: u32,
}

/// What is asked of the program.
#[derive(Clone, Copy, Debug, PartialEq, Eq)]
pub enum Request<'a> {
    /// Simulate a plan over a design, each by its file's name.
    Simulate {
        design: &'a str,
        plan: &'a str,
    },
    /// List the routes of a design, by its file's name.
    Routes {
        design: &'a str,
    },
    /// Look for a plan of at most so many steps, 1 to 256, within budgets of derived clauses and of ticks, or for a
    /// proof that there is none, the design and the proof by their files' names.
    Verify {
        steps: u32,
        conflicts: u64,
        ticks: u64,
        mode: SearchMode,
        design: &'a str,
        proof: &'a str,
    },
    /// Look for the least greatest time of a within, 1 to 256, in which there is a plan of at most so many steps, 1 to
    /// 256, within budgets of derived clauses and of ticks, with bounds or without, or for a proof that there is no plan,
    /// the design and the proof by their files' names.
    Tightest {
        steps: u32,
        conflicts: u64,
        ticks: u64,
        within: u32,
        bounds: bool,
        design: &'a str,
        proof: &'a str,
    },
    /// Check a proof that a design, into a within of which a greatest time may be put, has no plan of so many steps, 1
    /// to 256, the design and the proof by their files' names.
    Check {
        steps: u32,
        in_time: Option<InTime>,
        design: &'a str,
        proof: &'a str,
    },
    /// Make a station of so many tracks and trains, 1 to 6, from a seed, and look for a plan.
    Trial {
        seed: u64,
        size: u32,
    },
}

/// What the words of a command line say.
#[derive(Clone, Copy, Debug, PartialEq, Eq)]
pub struct Asked<'a> {
    pub request: Request<'a>,
    /// Whether a search is to tell how far it is.
    pub watched: bool,
}

/// Why words ask for nothing.
#[derive(Clone, Copy, Debug, PartialEq, Eq, Error)]
pub enum WordsFault {
    /// The fixed command does not take the words; a call for help is one of these.
    #[error("the words are no command")]
    Usage,
    /// Want of memory.
    #[error("want of memory")]
    Memory,
}

impl From<AllocError> for WordsFault {
    ghost from_gives = { λ _ given. given ≡ fault.Memory };

    fn from(_error: AllocError) -> WordsFault {
        WordsFault::Memory
    }
}

/// What the words ask for, the first of which is the program's name.
pub fn read_words<'a>(alloc: Global, words: &'a [String]) -> Result<Request<'a>, WordsFault>
    ensures ok { IfOk result (λ request. request_of (texts_of words.entry.now) ≡ Some (request_seen request)) }
    ensures usage { result ≡ Err WordsFault.Usage → request_of (texts_of words.entry.now) ≡ None }
    ensures range { IfOk result (λ request. IsRequestInRange (request_seen request)) }
{
    match read_asked(alloc, words) {
        Ok(asked) => Ok(asked.request),
        Err(fault) => Err(fault),
    }
}

/// What the words ask for, the first of which is the program's name, and whether a search is to tell how far it is.
pub fn read_asked<'a>(alloc: Global, words: &'a [String]) -> Result<Asked<'a>, WordsFault>
    ensures ok { IfOk result (λ asked. request_of (texts_of words.entry.now) ≡ Some (request_seen asked.request)) }
    ensures watched { IfOk result (λ asked. asked.watched ≡ is_watched (texts_of words.entry.now)) }
    ensures usage { result ≡ Err WordsFault.Usage → request_of (texts_of words.entry.now) ≡ None }
    ensures range { IfOk result (λ asked. IsRequestInRange (request_seen asked.request)) }
{
    match matches_of(alloc, words) {
        Ok(matches) => {
            let Some(request) = request_in(&matches) else {
                return Err(WordsFault::Usage);
            };
            let watched = is_watched(&matches);
            Ok(Asked { request, watched })
        }
        Err(fault) => Err(fault),
    }
}

fn fault_of_kind(kind: ErrorKind) -> WordsFault
    ensures { result ≡ WordsFault.Usage → kind ≢ ErrorKind.OutOfMemory }
{
    match kind {
        ErrorKind::OutOfMemory => WordsFault::Memory,
        _ => WordsFault::Usage,
    }
}

/// The matches of the words.
fn matches_of<'a>(alloc: Global, words: &'a [String]) -> Result<ArgMatches<'a>, WordsFault>
    ensures taken { OnOk result (is_taken (texts_of words.entry.now) ≡ true) }
    ensures subcommand { IfOk result (λ matches.
        subcommand_rows_of matches ≡ subcommand_of rcv_app (texts_of words.entry.now)) }
    ensures usage { result ≡ Err WordsFault.Usage → is_taken (texts_of words.entry.now) ≡ false }
{
    match command(alloc)?.try_get_matches_from(words) {
        Ok(matches) => Ok(matches),
        Err(error) => Err(fault_of_kind(error.kind())),
    }
}

/// The subcommand that the words name, and its matches.
fn subcommand_of<'a, 'm>(matches: &'m ArgMatches<'a>) -> Option<(&'a str, &'m ArgMatches<'a>)>
    ensures { option_map (λ found. (found.0.now, rows_of (found_of found.1.now))) result
        ≡ subcommand_rows_of matches.now }
{
    matches.subcommand()
}

/// The value of an argument.
fn value<'a>(values: &ArgMatches<'a>, name: &str) -> Option<&'a str>
    ensures { option_map (λ text. text.now) result ≡ first_of name.now (rows_of (found_of values.now)) }
{
    values.get_str(name)
}

/// Whether a flag is given: what `get_flag` answers, whose contract leaves open texts that are neither `true` nor
/// `false`.
fn is_given(values: &ArgMatches, flag: &str) -> bool
    ensures { result ≡ is_given flag.now (rows_of (found_of values.now)) }
{
    values.get_one::<bool>(flag).unwrap_or(false)
}

/// Whether the matches ask to be told how far a search is.
fn is_watched(matches: &ArgMatches) -> bool
    ensures { result ≡ option_map_or is_watched_by (subcommand_rows_of matches.now) false }
{
    match subcommand_of(matches) {
        Some((_, values)) => is_given(values, "progress"),
        None => false,
    }
}

/// What the values of `simulate` ask for.
fn simulate<'a>(values: &ArgMatches<'a>) -> Option<Request<'a>>
    ensures { option_map request_seen result ≡ simulate_by (rows_of (found_of values.now)) }
{
    let Some(design) = value(values, "DESIGN") else {
        return None;
    };
    let Some(plan) = value(values, "PLAN") else {
        return None;
    };
    Some(Request::Simulate { design, plan })
}

/// What the value of `routes` asks for.
fn routes<'a>(values: &ArgMatches<'a>) -> Option<Request<'a>>
    ensures { option_map request_seen result ≡ routes_by (rows_of (found_of values.now)) }
{
    let Some(design) = value(values, "DESIGN") else {
        return None;
    };
    Some(Request::Routes { design })
}

/// The number that a text gives, from 1 to a greatest.
fn number_to(greatest: u64, text: &str) -> Option<u64>
    ensures { result ≡ number_to greatest text.now }
{
    match number(text.as_bytes()) {
        Some(number) if 1 <= number && number <= greatest => Some(number),
        _ => None,
    }
}

/// The number of steps that a text gives, from 1 to 256.
fn steps_of(text: &str) -> Option<u32>
    ensures { result ≡ steps_of text.now }
{
    match number(text.as_bytes()) {
        Some(steps) if 1 <= steps && steps <= 256 => Some(steps as u32),
        _ => None,
    }
}

/// How the flags of `verify` say that a plan is looked for. One of whatever number of steps is looked for with bounds
/// alone, and normal plans without them.
fn mode_of(bounds: bool, any: bool, normal: bool) -> Option<SearchMode>
    ensures { result ≡ mode_of bounds any normal }
{
    match (bounds, any, normal) {
        (false, false, false) => Some(SearchMode::Plain),
        (false, false, true) => Some(SearchMode::Normal),
        (true, false, false) => Some(SearchMode::Bounds),
        (true, true, false) => Some(SearchMode::Any),
        (false, true, _) | (true, _, true) => None,
    }
}

/// What the numbers, flags and names of `verify` ask for.
fn verify_within<'a>(
    steps: &str,
    conflicts: &str,
    ticks: &str,
    mode: Option<SearchMode>,
    design: &'a str,
    proof: &'a str,
) -> Option<Request<'a>>
    ensures { option_map request_seen result
        ≡ verify_within (steps_of steps.now) (conflicts_of conflicts.now) (ticks_of ticks.now)
        mode design.now proof.now }
{
    let Some(steps) = steps_of(steps) else {
        return None;
    };
    let Some(conflicts) = number_to(10_000_000, conflicts) else {
        return None;
    };
    let Some(ticks) = number_to(1_000_000_000_000, ticks) else {
        return None;
    };
    let Some(mode) = mode else {
        return None;
    };
    Some(Request::Verify {
        steps,
        conflicts,
        ticks,
        mode,
        design,
        proof,
    })
}

/// What the values of `verify` ask for.
fn verify<'a>(values: &ArgMatches<'a>) -> Option<Request<'a>>
    ensures { option_map request_seen result ≡ verify_by (rows_of (found_of values.now)) }
{
    let Some(steps) = value(values, "steps") else {
        return None;
    };
    let Some(conflicts) = value(values, "conflicts") else {
        return None;
    };
    let Some(ticks) = value(values, "ticks") else {
        return None;
    };
    let Some(design) = value(values, "DESIGN") else {
        return None;
    };
    let Some(proof) = value(values, "PROOF") else {
        return None;
    };
    let mode = mode_of(
        is_given(values, "bounds"),
        is_given(values, "any"),
        is_given(values, "normal"),
    );
    verify_within(steps, conflicts, ticks, mode, design, proof)
}

/// The within that a text names, from 1 to 256.
fn within_of(text: &str) -> Option<u32>
    ensures { result ≡ within_of text.now }
{
    match number(text.as_bytes()) {
        Some(within) if 1 <= within && within <= 256 => Some(within as u32),
        _ => None,
    }
}

/// The greatest time that a text gives, in ms, at most 86,400,000.
fn max_ms_of(text: &str) -> Option<u32>
    ensures { result ≡ max_ms_of text.now }
{
    match number(text.as_bytes()) {
        Some(max_ms) if max_ms <= 86_400_000 => Some(max_ms as u32),
        _ => None,
    }
}

/// What the numbers and names of `tightest` ask for.
fn tightest_within<'a>(
    steps: &str,
    conflicts: &str,
    ticks: &str,
    within: &str,
    bounds: bool,
    design: &'a str,
    proof: &'a str,
) -> Option<Request<'a>>
    ensures { option_map request_seen result
        ≡ tightest_within (steps_of steps.now) (conflicts_of conflicts.now) (ticks_of ticks.now)
        (within_of within.now) bounds design.now proof.now }
{
    let Some(steps) = steps_of(steps) else {
        return None;
    };
    let Some(conflicts) = number_to(10_000_000, conflicts) else {
        return None;
    };
    let Some(ticks) = number_to(1_000_000_000_000, ticks) else {
        return None;
    };
    let Some(within) = within_of(within) else {
        return None;
    };
    Some(Request::Tightest {
        steps,
        conflicts,
        ticks,
        within,
        bounds,
        design,
        proof,
    })
}

/// What the values of `tightest` ask for.
fn tightest<'a>(values: &ArgMatches<'a>) -> Option<Request<'a>>
    ensures { option_map request_seen result ≡ tightest_by (rows_of (found_of values.now)) }
{
    let Some(steps) = value(values, "steps") else {
        return None;
    };
    let Some(conflicts) = value(values, "conflicts") else {
        return None;
    };
    let Some(ticks) = value(values, "ticks") else {
        return None;
    };
    let Some(within) = value(values, "within") else {
        return None;
    };
    let Some(design) = value(values, "DESIGN") else {
        return None;
    };
    let Some(proof) = value(values, "PROOF") else {
        return None;
    };
    let bounds = is_given(values, "bounds");
    tightest_within(steps, conflicts, ticks, within, bounds, design, proof)
}

/// The greatest time that two texts put into a within.
pub fn read_in_time(within: &str, max_ms: &str) -> Option<InTime>
    ensures ok { result ≡ in_time_of within.now max_ms.now }
    ensures range { IsInTimeInRange result }
{
    let Some(within) = within_of(within) else {
        return None;
    };
    let Some(max_ms) = max_ms_of(max_ms) else {
        return None;
    };
    Some(InTime { within, max_ms })
}

/// The greatest time that the options of `check` put into a within, if any. One of the two without the other asks for
/// nothing.
fn in_time(values: &ArgMatches) -> Option<Option<InTime>>
    ensures { let rows = rows_of (found_of values.now) in
        result ≡ in_time_with (first_of (codes "within") rows) (first_of (codes "max-ms") rows) }
{
    match (value(values, "within"), value(values, "max-ms")) {
        (None, None) => Some(None),
        (Some(within), Some(max_ms)) => match read_in_time(within, max_ms) {
            Some(time) => Some(Some(time)),
            None => None,
        },
        (Some(_), None) | (None, Some(_)) => None,
    }
}

/// What the number, the time and the names of `check` ask for.
fn check_within<'a>(
    steps: &str,
    in_time: Option<Option<InTime>>,
    design: &'a str,
    proof: &'a str,
) -> Option<Request<'a>>
    ensures { option_map request_seen result ≡ check_within (steps_of steps.now) in_time design.now proof.now }
{
    let Some(steps) = steps_of(steps) else {
        return None;
    };
    let Some(in_time) = in_time else {
        return None;
    };
    Some(Request::Check {
        steps,
        in_time,
        design,
        proof,
    })
}

/// What the values of `check` ask for.
fn check<'a>(values: &ArgMatches<'a>) -> Option<Request<'a>>
    ensures { option_map request_seen result ≡ check_by (rows_of (found_of values.now)) }
{
    let Some(text) = value(values, "steps") else {
        return None;
    };
    let Some(design) = value(values, "DESIGN") else {
        return None;
    };
    let Some(proof) = value(values, "PROOF") else {
        return None;
    };
    check_within(text, in_time(values), design, proof)
}

/// The seed that a text gives.
fn seed_of(text: &str) -> Option<u64>
    ensures { result ≡ seed_of text.now }
{
    number(text.as_bytes())
}

/// The size that a text gives, from 1 to 6.
fn size_of(text: &str) -> Option<u32>
    ensures { result ≡ size_of text.now }
{
    match number(text.as_bytes()) {
        Some(size) if 1 <= size && size <= 6 => Some(size as u32),
        _ => None,
    }
}

/// What the numbers of `trial` ask for.
fn trial_within<'a>(seed: &str, size: &str) -> Option<Request<'a>>
    ensures { option_map request_seen result ≡ trial_within (seed_of seed.now) (size_of size.now) }
{
    let Some(seed) = seed_of(seed) else {
        return None;
    };
    let Some(size) = size_of(size) else {
        return None;
    };
    Some(Request::Trial { seed, size })
}

/// What the values of `trial` ask for.
fn trial<'a>(values: &ArgMatches<'a>) -> Option<Request<'a>>
    ensures { option_map request_seen result ≡ trial_by (rows_of (found_of values.now)) }
{
    let Some(seed) = value(values, "SEED") else {
        return None;
    };
    let Some(size) = value(values, "SIZE") else {
        return None;
    };
    trial_within(seed, size)
}

/// What the matches ask for.
fn request_in<'a>(matches: &ArgMatches<'a>) -> Option<Request<'a>>
    ensures { option_map request_seen result ≡ option_and_then asked_by (subcommand_rows_of matches.now) }
{
    let Some((name, values)) = subcommand_of(matches) else {
        return None;
    };
    if name == "simulate" {
        return simulate(values);
    }
    if name == "routes" {
        return routes(values);
    }
    if name == "verify" {
        return verify(values);
    }
    if name == "tightest" {
        return tightest(values);
    }
    if name == "check" {
        return check(values);
    }
    if name == "trial" {
        return trial(values);
    }
    None
}
