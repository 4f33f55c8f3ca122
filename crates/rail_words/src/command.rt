//! The fixed command.

ghost use Rattle.std.specs.Prelude.{◌≡◌, IfOk, false};
ghost use Rattle.clap.specs.Words.{app_of, rule_of};
ghost use Rattle.clap.specs.declared.builder.command.Command.TheViews.{out-Command as fields_of};
ghost use Rattle.rail_words.specs.FixedCommand.{choice_rule, flag_rule, option_rule, positional_rule};
ghost use Rattle.rail_words.specs.FixedCommand.{simulate_app, routes_app, numberless_app};
ghost use Rattle.rail_words.specs.FixedCommand.{search_app, verify_flags_app, verify_app, tightest_flags_app, tightest_app};
ghost use Rattle.rail_words.specs.FixedCommand.{check_options_app, check_app, trial_app, searches_app, files_app, rcv_app};

use clap::{Arg, ArgAction, Command};
use std::alloc::{AllocError, Global};

/// The fixed command.
pub(crate) fn command<'a>(alloc: Global) -> Result<Command<'a>, AllocError>
    ensures shape { IfOk result (λ command. app_of command ≡ rcv_app) }
{
    with_files(alloc)?.subcommand(trial_command(alloc)?)
}

/// A required value, by its place.
fn positional<'a>(alloc: Global, name: &'a str) -> Arg<'a>
    ensures rule { rule_of result ≡ positional_rule name.entry.now }
    ensures local { result.global ≡ false }
{
    Arg::new(alloc, name).required(true)
}

/// A required option with a value.
fn option<'a>(alloc: Global, name: &'a str) -> Arg<'a>
    ensures rule { rule_of result ≡ option_rule name.entry.now }
    ensures local { result.global ≡ false }
{
    Arg::new(alloc, name).long(name).required(true)
}

/// An option with a value, which may be left out.
fn choice<'a>(alloc: Global, name: &'a str) -> Arg<'a>
    ensures rule { rule_of result ≡ choice_rule name.entry.now }
    ensures local { result.global ≡ false }
{
    Arg::new(alloc, name).long(name)
}

/// A flag, which takes no value and may be left out.
fn flag<'a>(alloc: Global, name: &'a str) -> Arg<'a>
    ensures rule { rule_of result ≡ flag_rule name.entry.now }
    ensures local { result.global ≡ false }
{
    Arg::new(alloc, name).long(name).action(ArgAction::SetTrue)
}

fn simulate_command<'a>(alloc: Global) -> Result<Command<'a>, AllocError>
    ensures shape { IfOk result (λ command. app_of command ≡ simulate_app) }
    ensures local { IfOk result (λ command. (fields_of command).has_globals ≡ false) }
{
    Command::new(alloc, "simulate")
        .arg(positional(alloc, "DESIGN"))?
        .arg(positional(alloc, "PLAN"))
}

fn routes_command<'a>(alloc: Global) -> Result<Command<'a>, AllocError>
    ensures shape { IfOk result (λ command. app_of command ≡ routes_app) }
    ensures local { IfOk result (λ command. (fields_of command).has_globals ≡ false) }
{
    Command::new(alloc, "routes").arg(positional(alloc, "DESIGN"))
}

/// A search by its name, with the options that every search takes.
fn search<'a>(alloc: Global, name: &'a str) -> Result<Command<'a>, AllocError>
    ensures shape { IfOk result (λ command. app_of command ≡ search_app name.entry.now) }
    ensures local { IfOk result (λ command. (fields_of command).has_globals ≡ false) }
{
    Command::new(alloc, name)
        .arg(option(alloc, "steps"))?
        .arg(option(alloc, "conflicts"))?
        .arg(option(alloc, "ticks"))
}

/// `verify` with its options and flags.
fn verify_flags<'a>(alloc: Global) -> Result<Command<'a>, AllocError>
    ensures shape { IfOk result (λ command. app_of command ≡ verify_flags_app) }
    ensures local { IfOk result (λ command. (fields_of command).has_globals ≡ false) }
{
    search(alloc, "verify")?
        .arg(flag(alloc, "bounds"))?
        .arg(flag(alloc, "any"))?
        .arg(flag(alloc, "normal"))?
        .arg(flag(alloc, "progress"))
}

fn verify_command<'a>(alloc: Global) -> Result<Command<'a>, AllocError>
    ensures shape { IfOk result (λ command. app_of command ≡ verify_app) }
    ensures local { IfOk result (λ command. (fields_of command).has_globals ≡ false) }
{
    verify_flags(alloc)?
        .arg(positional(alloc, "DESIGN"))?
        .arg(positional(alloc, "PROOF"))
}

/// `tightest` with its options and flags.
fn tightest_flags<'a>(alloc: Global) -> Result<Command<'a>, AllocError>
    ensures shape { IfOk result (λ command. app_of command ≡ tightest_flags_app) }
    ensures local { IfOk result (λ command. (fields_of command).has_globals ≡ false) }
{
    search(alloc, "tightest")?
        .arg(option(alloc, "within"))?
        .arg(flag(alloc, "bounds"))?
        .arg(flag(alloc, "progress"))
}

fn tightest_command<'a>(alloc: Global) -> Result<Command<'a>, AllocError>
    ensures shape { IfOk result (λ command. app_of command ≡ tightest_app) }
    ensures local { IfOk result (λ command. (fields_of command).has_globals ≡ false) }
{
    tightest_flags(alloc)?
        .arg(positional(alloc, "DESIGN"))?
        .arg(positional(alloc, "PROOF"))
}

/// `check` with its options.
fn check_options<'a>(alloc: Global) -> Result<Command<'a>, AllocError>
    ensures shape { IfOk result (λ command. app_of command ≡ check_options_app) }
    ensures local { IfOk result (λ command. (fields_of command).has_globals ≡ false) }
{
    Command::new(alloc, "check")
        .arg(choice(alloc, "within"))?
        .arg(choice(alloc, "max-ms"))?
        .arg(option(alloc, "steps"))
}

fn check_command<'a>(alloc: Global) -> Result<Command<'a>, AllocError>
    ensures shape { IfOk result (λ command. app_of command ≡ check_app) }
    ensures local { IfOk result (λ command. (fields_of command).has_globals ≡ false) }
{
    check_options(alloc)?
        .arg(positional(alloc, "DESIGN"))?
        .arg(positional(alloc, "PROOF"))
}

fn trial_command<'a>(alloc: Global) -> Result<Command<'a>, AllocError>
    ensures shape { IfOk result (λ command. app_of command ≡ trial_app) }
    ensures local { IfOk result (λ command. (fields_of command).has_globals ≡ false) }
{
    Command::new(alloc, "trial")
        .arg(flag(alloc, "progress"))?
        .arg(positional(alloc, "SEED"))?
        .arg(positional(alloc, "SIZE"))
}

/// The program's command with those that take no number.
fn numberless<'a>(alloc: Global) -> Result<Command<'a>, AllocError>
    ensures shape { IfOk result (λ command. app_of command ≡ numberless_app) }
{
    Command::new(alloc, "rcv")
        .subcommand_required(true)
        .subcommand(simulate_command(alloc)?)?
        .subcommand(routes_command(alloc)?)
}

/// The program's command with those and the searches.
fn with_searches<'a>(alloc: Global) -> Result<Command<'a>, AllocError>
    ensures shape { IfOk result (λ command. app_of command ≡ searches_app) }
{
    numberless(alloc)?
        .subcommand(verify_command(alloc)?)?
        .subcommand(tightest_command(alloc)?)
}

/// The program's command with those that name files.
fn with_files<'a>(alloc: Global) -> Result<Command<'a>, AllocError>
    ensures shape { IfOk result (λ command. app_of command ≡ files_app) }
{
    with_searches(alloc)?.subcommand(check_command(alloc)?)
}
