//! The command of the program, as `clap` reads it: a mode and three options with numbers.
ghost use Rattle.std.specs.Prelude.{◌≡◌, IfOk, IfErr, false};
ghost use Rattle.clap.specs.Words.{app_of, kind_of, rule_of};
ghost use Rattle.clap.specs.declared.error.kind.ErrorKind.TheVariants.{OutOfMemory};
ghost use Rattle.sq_words.specs.Words.{bare, command, mode_rule, seed_rule, ticks_rule, workers_rule};

use clap::builder::ValueParser;
use clap::{Arg, ArgAction, Command, Error};
use std::alloc::Global;

/// The command with these names of modes.
pub fn command<'a>(alloc: Global, names: &'a [&'a str]) -> Result<Command<'a>, Error>
    ensures shape { IfOk result (λ c. app_of c ≡ command names.entry) }
    ensures memory { IfErr result (λ e. kind_of e ≡ OutOfMemory) }
{
    let with_mode = bare(alloc).arg(mode(alloc, names))?;
    let with_workers = with_mode.arg(workers(alloc))?;
    let with_seed = with_workers.arg(seed(alloc))?;
    Ok(with_seed.arg(ticks(alloc))?)
}

// The command without arguments, and without help and version flags.
fn bare<'a>(alloc: Global) -> Command<'a>
    ensures { app_of result ≡ bare }
{
    Command::new(alloc, "keltzumba")
        .no_binary_name(true)
        .disable_help_flag(true)
        .disable_version_flag(true)
}

// The mode, by its place.
fn mode<'a>(alloc: Global, names: &'a [&'a str]) -> Arg<'a>
    ensures rule { rule_of result ≡ mode_rule names.entry }
    ensures local { result.global ≡ false }
{
    Arg::new(alloc, "mode")
        .action(ArgAction::Set)
        .value_name("MODE")
        .value_parser(ValueParser::Names(names))
        .default_value("run")
}

// The number of workers.
fn workers<'a>(alloc: Global) -> Arg<'a>
    ensures rule { rule_of result ≡ workers_rule }
    ensures local { result.global ≡ false }
{
    Arg::new(alloc, "workers")
        .long("workers")
        .action(ArgAction::Set)
        .value_name("N")
        .value_parser(ValueParser::unsigned(1, 64))
        .default_value("1")
}

// The seed of the sample.
fn seed<'a>(alloc: Global) -> Arg<'a>
    ensures rule { rule_of result ≡ seed_rule }
    ensures local { result.global ≡ false }
{
    Arg::new(alloc, "seed")
        .long("seed")
        .action(ArgAction::Set)
        .value_name("X")
        .value_parser(ValueParser::unsigned(0, 4_294_967_295))
        .default_value("1")
}

// The number of ticks of the sample.
fn ticks<'a>(alloc: Global) -> Arg<'a>
    ensures rule { rule_of result ≡ ticks_rule }
    ensures local { result.global ≡ false }
{
    Arg::new(alloc, "ticks")
        .long("ticks")
        .action(ArgAction::Set)
        .value_name("T")
        .value_parser(ValueParser::unsigned(1, 1_000_000))
        .default_value("1000")
}
