//! The words of a command line, as they are read or refused.
ghost use Rattle.std.specs.Prelude.{◌≡◌, ◌≢◌, ◌≤◌, IfOk};
ghost use Rattle.clap.specs.Words.{FailsBy, fault_of, found_of, kind_of, matches_of, rows_of};
ghost use Rattle.clap.specs.declared.error.kind.ErrorKind.TheVariants.{OutOfMemory};
ghost use Rattle.sq_words.specs.Words.{Chooses, IsRefused, choice_of, command, mode_named, number_in, number_told, text_in};
ghost use Rattle.sq_words.specs.declared.words.WordsFault.TheVariants.{Memory};

use crate::choice::{Choice, Mode};
use crate::command::command;
use clap::error::ErrorKind;
use clap::{ArgMatches, Error};
use sq_value::Str;
use std::alloc::{AllocError, AllocFailed, Global};

/// The names of the modes.
static MODES: [&str; 4] = ["run", "check", "explain", "sample"];

/// Why words choose nothing.
#[derive(Debug, Drop)]
pub enum WordsFault {
    /// They are not understood: the text for the user, in whole lines.
    Usage { text: String },
    /// Memory ran out.
    Memory,
}

impl From<AllocError> for WordsFault {
    ghost from_gives = { λ _ fault. fault ≡ Memory };

    fn from(_error: AllocError) -> WordsFault {
        WordsFault::Memory
    }
}

impl<T: Drop> From<AllocFailed<T>> for WordsFault {
    ghost from_gives = { λ _ fault. fault ≡ Memory };

    fn from(_error: AllocFailed<T>) -> WordsFault {
        WordsFault::Memory
    }
}

/// What the words of a command line choose, after the name of the program: `[MODE] [--workers N] [--seed X] [--ticks T]`.
///
/// MODE is `run`, `check`, `explain` or `sample`; N is 1 to 64, X is 0 to 4294967295, T is 1 to 1000000. What is left out is `run`, 1, 1
/// and 1000. The answer is `Usage` exactly if `clap` has a fault of this command for the words, with the text that it makes; and
/// `Memory` if memory runs out.
pub fn read_words(alloc: Global, words: &[Str]) -> Result<Choice, WordsFault>
    ensures chosen { IfOk result (Chooses words.now) }
    ensures refused { (text : _) → result ≡ Err (WordsFault.Usage text) → IsRefused words.now }
    ensures workers { IfOk result (λ choice. (1 ≤ choice.workers) × (choice.workers ≤ 64)) }
    ensures ticks { IfOk result (λ choice. (1 ≤ choice.ticks) × (choice.ticks ≤ 1000000)) }
{
    let names = MODES.as_slice();
    match matched(alloc, names, words) {
        Ok(matches) => Ok(choice(&matches)),
        Err(error) => Err(fault(alloc, &error)),
    }
}

// What the command with these names of modes makes of the words.
fn matched<'a>(
    alloc: Global,
    names: &'a [&'a str],
    words: &'a [Str],
) -> Result<ArgMatches<'a>, Error>
    ensures fails { FailsBy (fault_of (command names.entry) words.entry.now) result }
    ensures matches { IfOk result (λ m. rows_of (found_of m) ≡ matches_of (command names.entry) words.entry.now) }
{
    let command = command(alloc, names)?;
    command.try_get_matches_from(words)
}

// What matches choose.
fn choice(matches: &ArgMatches<'_>) -> Choice
    ensures { result ≡ choice_of (rows_of (found_of matches.now)) }
{
    Choice {
        mode: mode(matches.get_str("mode")),
        workers: number(matches.get_str("workers"), 1, 64, 1),
        seed: number(matches.get_str("seed"), 0, 4_294_967_295, 1),
        ticks: number(matches.get_str("ticks"), 1, 1_000_000, 1000),
    }
}

// The mode with this name. Without a name it is `Run`.
fn mode(name: Option<&str>) -> Mode
    ensures { result ≡ mode_named (text_in name.entry) }
{
    match name {
        None => Mode::Run,
        Some(name) => {
            if name == "check" {
                Mode::Check
            } else if name == "explain" {
                Mode::Explain
            } else if name == "sample" {
                Mode::Sample
            } else {
                Mode::Run
            }
        }
    }
}

// The number that a text writes, if it is one from `least` to `most`; else `other`.
fn number(text: Option<&str>, least: u32, most: u32, other: u32) -> u32
    ensures { result ≡ number_in least most other (text_in text.entry) }
{
    match text {
        None => other,
        Some(text) => number_told(text, least, most, other),
    }
}

fn number_told(text: &str, least: u32, most: u32, other: u32) -> u32
    ensures { result ≡ number_told least most other text.now }
{
    match text.parse::<u32>() {
        Ok(number) => {
            if least <= number && number <= most {
                number
            } else {
                other
            }
        }
        Err(_) => other,
    }
}

// The fault of words that `clap` refuses.
fn fault(alloc: Global, error: &Error) -> WordsFault
    ensures { (text : _) → result ≡ WordsFault.Usage text → kind_of error.now ≢ OutOfMemory }
{
    match error.kind() {
        ErrorKind::OutOfMemory => WordsFault::Memory,
        _ => usage(alloc, error),
    }
}

// The text of an error for the user.
fn usage(alloc: Global, error: &Error) -> WordsFault {
    match told(alloc, error) {
        Ok(text) => WordsFault::Usage { text },
        Err(fault) => fault.into(),
    }
}

fn told(alloc: Global, error: &Error) -> Result<String, AllocError> {
    format!(in alloc; "{error}")
}
