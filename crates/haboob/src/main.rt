//! Haboob replays recorded web traffic against a snapshot of a file tree.
//!
//! Without arguments it reads from standard input a snapshot directly followed by a capture, and writes the replies to
//! standard output. Its commands read and write files: `haboob replay` writes the replies, `haboob explain` a table of
//! decisions in their place, and both a report to standard output; `haboob snapshot` writes the files of a folder as a
//! snapshot, `haboob inspect` tells what a capture holds, `haboob upgrade` writes one in a later format, `haboob slim`
//! without what no answer depends on, and `haboob settings` writes out the settings that are in force. A fault is
//! reported by one line on standard error, after which one more says in words what is wrong, where that is known, and
//! by the status that the program ends with. A long run shows its progress there, where it is a terminal.
#![tactic(auto)]

mod replays;

use captures::Version;
use command_line::{Job, Target, WordFault, read_words};
use devices::Output;
use faults::{Fault, Place, shown_name};
use host::{
    EMPTY_LINE, Explained, Names, Node, STANDARD_OUTPUT, inspect_named, settings_named, slim_named,
    snapshot_named, upgrade_named,
};
use program::Wanted;
use replays::{bundle, replay_named};
use std::alloc::{AllocError, Global};
use std::env;
use std::io::{ErrorKind, IsTerminal, Write};
use std::process::ExitCode;
use std::sync::Wait;
use std::thread::Threads;

/// What is said of arguments that are no text.
const NOT_TEXT: &str = "error: a word is not UTF-8\n\nFor more information, try '--help'.\n";

/// The arguments after the program's name.
fn arguments_of(rt: &HostRuntime) -> Result<Vec<String>, Fault> {
    match env::args(rt) {
        Ok(words) => Ok(words.skip(1).collect(rt.alloc())?),
        Err(error) if error.kind() == ErrorKind::OutOfMemory => Err(Fault::Memory),
        Err(_) => {
            let text = String::from_str(rt.alloc(), NOT_TEXT)?;
            Err(Fault::Words(WordFault::Words(text)))
        }
    }
}

/// What is reported of words that aren't taken: what the command says of them as a line shows them. They aren't taken
/// so either, since a character that is shown as another stands in no word of the command.
fn reported_of_words(
    alloc: Global,
    words: &[String],
    fault: WordFault,
) -> Result<Fault, AllocError> {
    let mut shown = Vec::new(alloc);
    for word in words {
        shown.push(shown_name(alloc, word.as_str())?)?;
    }
    Ok(Fault::Words(read_words(alloc, &shown).err().unwrap_or(fault)))
}

/// The version that an upgrade or a slim text is asked for.
fn version_of(to: Target) -> Version {
    match to {
        Target::Two => Version::Two,
        Target::Traffic => Version::Traffic,
    }
}

/// Does what the arguments ask for: a run from standard input to standard output, or one over the files that they name.
///
/// Which arguments there are, and what the files hold, is the system's to say: no contract can. Tests do, and
/// the scripts checks/program_*.py.
fn run_arguments<T: Threads + Wait + Sync>(rt: &HostRuntime, threads: &T) -> Result<(), Explained> {
    let alloc = rt.alloc();
    let arguments = arguments_of(rt)?;
    // Which file it is, before any other can get its number.
    let standard = Node::at(rt, STANDARD_OUTPUT);
    let job = match read_words(alloc, &arguments) {
        Ok(job) => job,
        Err(fault) => return Err(reported_of_words(alloc, &arguments, fault)?.into()),
    };
    match job {
        Job::Bundle => bundle(rt, standard),
        Job::Replay {
            snapshot,
            capture,
            replies,
            settings,
            engine,
            speed,
        } => {
            let names = Names {
                snapshot,
                capture,
                settings,
                speed,
                written: replies,
                place: Place::Replies,
            };
            replay_named(rt, threads, standard, &names, Wanted::Replies(engine))
        }
        Job::Explain {
            snapshot,
            capture,
            messages,
            settings,
            speed,
        } => {
            let names = Names {
                snapshot,
                capture,
                settings,
                speed,
                written: messages,
                place: Place::Messages,
            };
            replay_named(rt, threads, standard, &names, Wanted::Rows).map_err(Explained::of_rows)
        }
        Job::Inspect { capture } => inspect_named(rt, standard, capture),
        Job::Upgrade {
            capture,
            output,
            to,
        } => upgrade_named(rt, capture, output, version_of(to)),
        Job::Slim {
            capture,
            output,
            to,
            drop_queries,
        } => slim_named(rt, capture, output, version_of(to), drop_queries),
        Job::Snapshot {
            folder,
            output,
            skip,
        } => snapshot_named(rt, folder, output, skip),
        Job::Settings { settings } => settings_named(rt, standard, settings),
    }
}

/// What is said after the line of a fault of the arguments that one word names.
fn argument_words(fault: &Fault) -> &'static [u8] {
    match fault {
        Fault::Words(WordFault::Engine) => b"haboob: --engine is to be plain or staged\n",
        Fault::Words(WordFault::Format) => b"haboob: the format is to be 2 or traffic\n",
        Fault::Words(WordFault::Speed) => {
            b"haboob: --speed is to be 100 to 10000, in percent of the speed of the recording\n"
        }
        _ => b"",
    }
}

fn main(rt: HostRuntime) -> ExitCode {
    let ran = run_arguments(&rt, &rt);
    // The progress that was shown goes.
    if rt.stderr().is_terminal() {
        let _ = rt.stderr().write_all(EMPTY_LINE);
    }
    match ran {
        Ok(()) => ExitCode::SUCCESS,
        Err(Explained { fault, words }) => {
            let mut reported = Output::new(rt.stderr());
            // Where standard error can't be written either, the status alone reports the fault.
            if fault.write_line(&mut reported).is_ok() {
                let _ = match words {
                    Some(words) => reported.write_all(&words),
                    None => reported.write_all(argument_words(&fault)),
                };
            }
            ExitCode::from(fault.status())
        }
    }
}
