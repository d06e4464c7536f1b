//! From arguments to a job.

ghost use Rattle.std.specs.Prelude.{◌≡◌, [], Ok, Some, codes, map, option_map, IfOk, IfErr};
ghost use Rattle.clap.specs.Words.{fault_of, kind_of, subcommand_of, subcommand_rows_of};
ghost use Rattle.command_line.specs.CommandLine.{Asks, AsksBy, Becomes, IsNoTarget, IsRefusal, IsValueFault};
ghost use Rattle.command_line.specs.CommandLine.{IsNoSpeed, Refuses, command_line, engine_named, file_of, is_given};
ghost use Rattle.command_line.specs.CommandLine.{subcommand_named, subcommand_of_rows, target_named, target_of};
ghost use Rattle.command_line.specs.CommandLine.{speed_named, speed_of, value_of};

use crate::commands::command_line;
use clap::error::ErrorKind;
use clap::{ArgMatches, Error};
use devices::number;
use std::alloc::{AllocError, Global};
use std::convert::AsStr;

/// Which engine answers the messages.
#[derive(Clone, Copy, Debug, PartialEq, Eq)]
pub enum Engine {
    /// On one thread.
    Plain,
    /// On the stages of two floors.
    Staged,
}

/// Which format an upgrade or a slim text is asked for in.
#[derive(Clone, Copy, Debug, PartialEq, Eq)]
pub enum Target {
    /// A capture of version 2.
    Two,
    /// Traffic, whose connection numbers are used again.
    Traffic,
}

/// What the program is asked to do.
#[derive(Clone, Copy, Debug)]
pub enum Job<'a> {
    /// Standard input holds a snapshot and a capture, and the replies go to standard output.
    Bundle,
    /// The snapshot and the capture stand in files, and the replies go into one.
    Replay {
        snapshot: &'a str,
        capture: &'a str,
        replies: &'a str,
        settings: Option<&'a str>,
        engine: Engine,
        /// In percent of that at which the traffic was recorded: 100 to 10,000.
        speed: u64,
    },
    /// The text of a capture or of traffic stands in a file, and goes into another in this format, or in its own where
    /// that is later.
    Upgrade {
        capture: &'a str,
        output: &'a str,
        to: Target,
    },
    /// As `Upgrade`, with the slim text: without what no answer depends on, and without queries where that is asked
    /// for.
    Slim {
        capture: &'a str,
        output: &'a str,
        to: Target,
        drop_queries: bool,
    },
    /// The files of a folder go into a snapshot. What can't stand there is left out where that is asked for.
    Snapshot {
        folder: &'a str,
        output: &'a str,
        skip: bool,
    },
    /// Standard output tells what the capture in a file holds.
    Inspect {
        capture: &'a str,
    },
    /// As `Replay`, with a table of decisions in the place of the replies.
    Explain {
        snapshot: &'a str,
        capture: &'a str,
        messages: &'a str,
        settings: Option<&'a str>,
        /// As of a replay.
        speed: u64,
    },
    /// Standard output gets the settings of a file, or the default ones without it, written out in full.
    Settings {
        settings: Option<&'a str>,
    },
}

/// The subcommands.
#[derive(Clone, Copy, Debug)]
enum Subcommand {
    Replay,
    Upgrade,
    Slim,
    Snapshot,
    Inspect,
    Explain,
    Settings,
}

/// Why words ask for nothing.
#[derive(Debug, PartialEq, Drop)]
pub enum WordFault {
    /// The command doesn't take them, or they ask for help: the text for the user.
    Words(String),
    /// The engine is neither `plain` nor `staged`.
    Engine,
    /// The format of an upgrade or of a slim text is neither `2` nor `traffic`.
    Format,
    /// The speed is no decimal from 100 to 10,000.
    Speed,
    /// There was no memory for them.
    Memory,
}

impl From<AllocError> for WordFault {
    ghost use Rattle.std.specs.Prelude.{◌≡◌};
    ghost use Rattle.command_line.specs.declared.words.WordFault.TheVariants.{Memory};

    ghost from_gives = { λ _ fault. fault ≡ Memory };

    fn from(_refused: AllocError) -> WordFault {
        WordFault::Memory
    }
}

/// What the words after the program's name ask for: without words `Bundle`, else what their subcommand does with the
/// files that they name. The file names are taken as they are.
///
/// # Errors
///
/// `Words` where the command doesn't take the words (or they ask for its help), `Engine` where the engine is neither
/// `plain` nor `staged`, `Format` where that of an upgrade or of a slim text is neither `2` nor `traffic`, `Speed`
/// where the engine is one and the speed is no decimal from 100 to 10,000, or `Memory`.
pub fn read_words<'a, S: AsStr>(alloc: Global, words: &'a [S]) -> Result<Job<'a>, WordFault>
    ensures job { IfOk result (Asks (map S.text words.entry.now)) }
    ensures fault { IfErr result (Refuses (map S.text words.entry.now)) }
{
    if words.is_empty() {
        return Ok(Job::Bundle);
    }
    job_of(&matches_of(alloc, words)?)
}

/// The job of a subcommand. The command takes no words without the options that it requires, so none of these is
/// missing.
fn job_of<'a>(matches: &ArgMatches<'a>) -> Result<Job<'a>, WordFault>
    ensures job { IfOk result (AsksBy (subcommand_rows_of matches.now)) }
    ensures fault { IfErr result (IsValueFault (subcommand_rows_of matches.now)) }
{
    match chosen(matches) {
        Subcommand::Replay => {
            let Some(engine) = engine_named(value(matches, "engine").unwrap_or("")) else {
                return Err(WordFault::Engine);
            };
            Ok(Job::Replay {
                snapshot: file(matches, "snapshot"),
                capture: file(matches, "capture"),
                replies: file(matches, "replies"),
                settings: value(matches, "settings"),
                engine,
                speed: speed_asked(matches)?,
            })
        }
        Subcommand::Upgrade => {
            Ok(Job::Upgrade {
                capture: file(matches, "capture"),
                output: file(matches, "output"),
                to: target_asked(matches, "to")?,
            })
        }
        Subcommand::Slim => {
            Ok(Job::Slim {
                capture: file(matches, "capture"),
                output: file(matches, "output"),
                to: target_asked(matches, "format")?,
                drop_queries: is_given(matches, "drop-queries"),
            })
        }
        Subcommand::Snapshot => {
            Ok(Job::Snapshot {
                folder: file(matches, "folder"),
                output: file(matches, "output"),
                skip: is_given(matches, "skip"),
            })
        }
        Subcommand::Inspect => {
            Ok(Job::Inspect {
                capture: file(matches, "capture"),
            })
        }
        Subcommand::Explain => {
            Ok(Job::Explain {
                snapshot: file(matches, "snapshot"),
                capture: file(matches, "capture"),
                messages: file(matches, "messages"),
                settings: value(matches, "settings"),
                speed: speed_asked(matches)?,
            })
        }
        Subcommand::Settings => {
            Ok(Job::Settings {
                settings: value(matches, "settings"),
            })
        }
    }
}

fn engine_named(name: &str) -> Option<Engine>
    ensures { result ≡ engine_named name.now }
{
    match name {
        "plain" => Some(Engine::Plain),
        "staged" => Some(Engine::Staged),
        _ => None,
    }
}

fn target_named(name: &str) -> Option<Target>
    ensures { result ≡ target_named name.now }
{
    match name {
        "2" => Some(Target::Two),
        "traffic" => Some(Target::Traffic),
        _ => None,
    }
}

/// The speed that a word names: a decimal of its percent.
fn speed_named(name: &str) -> Option<u64>
    ensures { result ≡ speed_named name.now }
{
    match number(name.as_bytes()) {
        Some(percent) if (100..=10_000).contains(&percent) => Some(percent),
        _ => None,
    }
}

fn subcommand_named(name: &str) -> Subcommand
    ensures { result ≡ subcommand_named name.now }
{
    match name {
        "upgrade" => Subcommand::Upgrade,
        "slim" => Subcommand::Slim,
        "snapshot" => Subcommand::Snapshot,
        "inspect" => Subcommand::Inspect,
        "explain" => Subcommand::Explain,
        "settings" => Subcommand::Settings,
        _ => Subcommand::Replay,
    }
}

/// The subcommand that the words name.
fn chosen(matches: &ArgMatches) -> Subcommand
    ensures { result ≡ subcommand_of_rows (subcommand_rows_of matches.now) }
{
    match matches.subcommand() {
        Some((name, _)) => subcommand_named(name),
        None => Subcommand::Replay,
    }
}

/// The value of an option of the subcommand.
fn value<'a>(matches: &ArgMatches<'a>, option: &str) -> Option<&'a str>
    ensures { option_map (λ s. s.now) result
        ≡ value_of (subcommand_rows_of matches.now) option.now }
{
    match matches.subcommand() {
        Some((_, of_subcommand)) => of_subcommand.get_str(option),
        None => None,
    }
}

/// The name of a file that the subcommand requires.
fn file<'a>(matches: &ArgMatches<'a>, option: &str) -> &'a str
    ensures { result.now ≡ file_of (subcommand_rows_of matches.now) option.now }
{
    value(matches, option).unwrap_or("")
}

/// The format that an option of the subcommand asks for.
fn target_asked(matches: &ArgMatches, option: &str) -> Result<Target, WordFault>
    ensures to { IfOk result (λ to.
        target_of (subcommand_rows_of matches.now) option.now ≡ Some to) }
    ensures fault { IfErr result (IsNoTarget (subcommand_rows_of matches.now) option.now) }
{
    match target_named(value(matches, option).unwrap_or("")) {
        Some(to) => Ok(to),
        None => Err(WordFault::Format),
    }
}

/// The speed at which the subcommand is to let traffic come.
fn speed_asked(matches: &ArgMatches) -> Result<u64, WordFault>
    ensures speed { IfOk result (λ speed. speed_of (subcommand_rows_of matches.now) ≡ Some speed) }
    ensures fault { IfErr result (IsNoSpeed (subcommand_rows_of matches.now)) }
{
    match speed_named(value(matches, "speed").unwrap_or("")) {
        Some(speed) => Ok(speed),
        None => Err(WordFault::Speed),
    }
}

/// Whether a flag of the subcommand is given.
fn is_given(matches: &ArgMatches, flag: &str) -> bool
    ensures { result ≡ is_given (subcommand_rows_of matches.now) flag.now }
{
    value(matches, flag).unwrap_or("") == "true"
}

/// What the command makes of the words.
fn matches_of<'a, S: AsStr>(alloc: Global, words: &'a [S]) -> Result<ArgMatches<'a>, WordFault>
    ensures taken { IfOk result (λ _. fault_of command_line (map S.text words.entry.now) ≡ []) }
    ensures ok { IfOk result (λ m. subcommand_rows_of m
        ≡ subcommand_of command_line (map S.text words.entry.now)) }
    ensures fault { IfErr result (IsRefusal (map S.text words.entry.now)) }
{
    let command = command_line(alloc)?;
    match command.try_get_matches_from(words) {
        Ok(matches) => Ok(matches),
        Err(error) => Err(refusal(alloc, &error)),
    }
}

fn refusal(alloc: Global, error: &Error) -> WordFault
    ensures { Becomes (kind_of error.now) result }
{
    if error.kind() == ErrorKind::OutOfMemory {
        return WordFault::Memory;
    }
    match format!(in alloc; "{error}") {
        Ok(text) => WordFault::Words(text),
        Err(_) => WordFault::Memory,
    }
}
