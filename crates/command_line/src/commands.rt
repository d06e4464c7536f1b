//! The commands as clap is told of them, with their help.

ghost use Rattle.std.specs.Prelude.{◌≡◌, codes, false, IfOk, IsOkAnd};
ghost use Rattle.clap.specs.Words.{AddsSubcommand, app_of, new_app, rule_of};
ghost use Rattle.clap.specs.declared.builder.Command.TheViews.{out-Command};
ghost use Rattle.command_line.specs.CommandLine.{command_line, engine_option, explain_command, flag_of};
ghost use Rattle.command_line.specs.CommandLine.{format_option, inspect_command, option_of, program_of, replay_command};
ghost use Rattle.command_line.specs.CommandLine.{required_of, settings_command, slim_command, snapshot_command};
ghost use Rattle.command_line.specs.CommandLine.{speed_option, upgrade_command};

use clap::{Arg, ArgAction, Command};
use std::alloc::{AllocError, Global};

/// The version of the program and of its package.
const VERSION: &str = "1.1.0";

/// What help says after the commands.
const PROGRAM_NOTES: &str =
    "Without a command, a snapshot directly followed by a capture is read from standard
input, and the replies are written to standard output, with default settings.
For the name of one input - is standard input; for the output of snapshot, upgrade and slim it is
standard output.

Examples:
  haboob snapshot --folder site --output site.snapshot
  haboob inspect --capture day.capture
  haboob replay --snapshot site.snapshot --capture day.capture --replies day.replies
  haboob explain --snapshot site.snapshot --capture day.capture --messages day.csv
  haboob settings --settings tight.toml
  haboob upgrade --capture old.capture --output new.capture
  haboob slim --capture day.capture --output day.traffic";

/// What help says after the options of `replay`.
const REPLAY_NOTES: &str =
    "Replies that nobody wants go to /dev/null: those of a day can fill a disk, and where they can't be
written the run ends before its report. A file that is there keeps its bytes until the first byte
is written; after a fault of the capture it holds the replies to what came before.

Example:
  haboob replay --snapshot site.snapshot --capture day.capture --replies day.replies \\
    --settings tight.toml";

/// What help says after the options of `upgrade`.
const UPGRADE_NOTES: &str =
    "A capture is written as one of version 2, or with --to traffic as a traffic text, in which a
connection's number is free again after its end, with the same start and the same records. What
is in that format or a later one is written as it is.

Examples:
  haboob upgrade --capture old.capture --output new.capture
  haboob upgrade --capture new.capture --output day.traffic --to traffic";

/// What help says after the options of `slim`.
const SLIM_NOTES: &str =
    "What no answer depends on is left out: each message becomes the shortest one that is answered the
same, in a piece of its own. Its method and target stay, and of its fields what Connection and
If-Modified-Since say; bodies, and messages that don't end, are gone. Ends and tiers stay. Replies,
report and table are those of the capture; what is in a later format stays in that.

With --drop-queries the query of each target goes as well, and in the table too. A target with a #
becomes # alone, as does one that begins with a question mark: neither is a target.

Examples:
  haboob slim --capture day.capture --output day.traffic
  haboob slim --capture day.capture --output day.slim --format 2 --drop-queries";

/// What help says of the formats.
const TARGET_HELP: &str = "2, a capture of version 2, or traffic";

/// What help says of a capture that is written anew, and of the new one.
const CAPTURE_HELP: &str = "The capture to read";

const OUTPUT_HELP: &str = "Where the new capture goes; another file that is there is overwritten";

/// What help says after the options of `snapshot`.
const SNAPSHOT_NOTES: &str =
    "The files of the folder and of all folders in it are taken, and no links. What can't stand in
a snapshot is a fault, or with --skip left out: links, pipes and devices, what can't be read,
files above 16 MiB, names of more than 1024 bytes or that aren't UTF-8, and what is too much: a
snapshot holds at most 65536 files and 1 GiB. A site with more of them is taken in parts, or by the
folders that were asked for.

Example:
  haboob snapshot --folder site --output site.snapshot";

/// What help says of the speed.
const SPEED_HELP: &str =
    "How fast the traffic comes, in percent of the recorded speed, 100 to 10000";

/// What help says of the engines.
const ENGINE_HELP: &str = "plain, on one thread, or staged, on many; both answer the same";

/// What help says after the options of `inspect`.
const INSPECT_NOTES: &str =
    "Standard output tells what the capture holds: its records, connections and messages by kind,
and the bytes that no reply answers, which are those after a message that closes its connection
and those of messages that don't end. After a fault it tells what the records before it hold.

Example:
  haboob inspect --capture day.capture";

/// What help says after the options of `explain`.
const EXPLAIN_NOTES: &str =
    "Each message is decided on as by a replay, and gets a row of a table in place of a reply: its
status, whether it was admitted, the credit and the rate that it found, and how long it waited.
The report is that of the replay.

Example:
  haboob explain --snapshot site.snapshot --capture day.capture --messages day.csv \\
    --settings tight.toml";

/// What help says after the options of `settings`.
const SETTINGS_NOTES: &str =
    "Standard output gets a TOML document in which each key stands with the value that holds for it,
below its unit, its range and its meaning. Given back with --settings, it is the same settings.

Example:
  haboob settings --settings tight.toml > whole.toml";

/// The command `haboob`, whose words are those after its name.
pub(crate) fn command_line<'a>(alloc: Global) -> Result<Command<'a>, AllocError>
    ensures { IfOk result (λ command. app_of command ≡ command_line) }
{
    let command = program(alloc)?;
    let command = with_subcommand(command, replay_command(alloc))?;
    let command = with_subcommand(command, upgrade_command(alloc))?;
    let command = with_subcommand(command, slim_command(alloc))?;
    let command = with_subcommand(command, snapshot_command(alloc))?;
    let command = with_subcommand(command, inspect_command(alloc))?;
    let command = with_subcommand(command, explain_command(alloc))?;
    with_subcommand(command, settings_command(alloc))
}

/// The command with one more subcommand, where that could be made.
fn with_subcommand<'a>(
    command: Command<'a>,
    subcommand: Result<Command<'a>, AllocError>,
) -> Result<Command<'a>, AllocError>
    ensures { IfOk result (λ whole.
        IsOkAnd subcommand.entry (λ added. AddsSubcommand command.entry added whole)) }
{
    command.subcommand(subcommand?)
}

/// The command without its subcommands.
fn program<'a>(alloc: Global) -> Result<Command<'a>, AllocError>
    ensures { IfOk result (λ command. app_of command ≡ program_of (new_app (codes "haboob"))) }
{
    Command::new(alloc, "haboob")
        .no_binary_name(true)
        .subcommand_required(true)
        .version(VERSION)
        .about("Answers recorded requests for the files of a site, and reports the load.")
        .after_help(PROGRAM_NOTES)
        .bin_name("haboob")
}

fn replay_command<'a>(alloc: Global) -> Result<Command<'a>, AllocError>
    ensures app { IfOk result (λ command. app_of command ≡ replay_command) }
    ensures local { IfOk result (λ command. (out-Command command).has_globals ≡ false) }
{
    Command::new(alloc, "replay")
        .about("Answers a capture's requests, and writes a report to standard output.")
        .after_help(REPLAY_NOTES)
        .arg(required_file(alloc, "snapshot", "The files of the site"))?
        .arg(required_file(alloc, "capture", "The recorded requests"))?
        .arg(required_file(
            alloc,
            "replies",
            "Where the replies go; a file that is there is overwritten",
        ))?
        .arg(settings_option(alloc))?
        .arg(engine_option(alloc))?
        .arg(speed_option(alloc))
}

fn upgrade_command<'a>(alloc: Global) -> Result<Command<'a>, AllocError>
    ensures app { IfOk result (λ command. app_of command ≡ upgrade_command) }
    ensures local { IfOk result (λ command. (out-Command command).has_globals ≡ false) }
{
    Command::new(alloc, "upgrade")
        .about("Writes a capture as one of version 2, or as traffic.")
        .after_help(UPGRADE_NOTES)
        .arg(required_file(alloc, "capture", CAPTURE_HELP))?
        .arg(required_file(alloc, "output", OUTPUT_HELP))?
        .arg(format_option(alloc, "to", "2"))
}

fn slim_command<'a>(alloc: Global) -> Result<Command<'a>, AllocError>
    ensures app { IfOk result (λ command. app_of command ≡ slim_command) }
    ensures local { IfOk result (λ command. (out-Command command).has_globals ≡ false) }
{
    Command::new(alloc, "slim")
        .about("Writes a capture without what no answer depends on.")
        .after_help(SLIM_NOTES)
        .arg(required_file(alloc, "capture", CAPTURE_HELP))?
        .arg(required_file(alloc, "output", OUTPUT_HELP))?
        .arg(format_option(alloc, "format", "traffic"))?
        .arg(flag(alloc, "drop-queries", "Leave out the query of each target"))
}

fn snapshot_command<'a>(alloc: Global) -> Result<Command<'a>, AllocError>
    ensures app { IfOk result (λ command. app_of command ≡ snapshot_command) }
    ensures local { IfOk result (λ command. (out-Command command).has_globals ≡ false) }
{
    Command::new(alloc, "snapshot")
        .about("Writes the files of a folder as a snapshot.")
        .after_help(SNAPSHOT_NOTES)
        .arg(folder_option(alloc))?
        .arg(required_file(
            alloc,
            "output",
            "Where the snapshot goes; a file of the folder isn't overwritten",
        ))?
        .arg(flag(alloc, "skip", "Leave out what can't stand in a snapshot"))
}

fn inspect_command<'a>(alloc: Global) -> Result<Command<'a>, AllocError>
    ensures app { IfOk result (λ command. app_of command ≡ inspect_command) }
    ensures local { IfOk result (λ command. (out-Command command).has_globals ≡ false) }
{
    Command::new(alloc, "inspect")
        .about("Tells what a capture holds.")
        .after_help(INSPECT_NOTES)
        .arg(required_file(alloc, "capture", CAPTURE_HELP))
}

fn explain_command<'a>(alloc: Global) -> Result<Command<'a>, AllocError>
    ensures app { IfOk result (λ command. app_of command ≡ explain_command) }
    ensures local { IfOk result (λ command. (out-Command command).has_globals ≡ false) }
{
    Command::new(alloc, "explain")
        .about("Tells of each message why it was admitted or turned away.")
        .after_help(EXPLAIN_NOTES)
        .arg(required_file(alloc, "snapshot", "The files of the site"))?
        .arg(required_file(alloc, "capture", "The recorded requests"))?
        .arg(required_file(
            alloc,
            "messages",
            "Where the table goes, as CSV; a file that is there is overwritten",
        ))?
        .arg(settings_option(alloc))?
        .arg(speed_option(alloc))
}

fn settings_command<'a>(alloc: Global) -> Result<Command<'a>, AllocError>
    ensures app { IfOk result (λ command. app_of command ≡ settings_command) }
    ensures local { IfOk result (λ command. (out-Command command).has_globals ≡ false) }
{
    Command::new(alloc, "settings")
        .about("Writes the settings that are in force, each key with its meaning.")
        .after_help(SETTINGS_NOTES)
        .arg(settings_option(alloc))
}

/// A flag, which has no value.
fn flag<'a>(alloc: Global, name: &'a str, help: &'a str) -> Arg<'a>
    ensures rule { rule_of result ≡ flag_of name.entry.now }
    ensures local { result.global ≡ false }
{
    Arg::new(alloc, name)
        .long(name)
        .action(ArgAction::SetTrue)
        .help(help)
}

/// An option whose value is the format of a new capture, `default` where none is named.
fn format_option<'a>(alloc: Global, name: &'a str, default: &'a str) -> Arg<'a>
    ensures rule { rule_of result ≡ format_option name.entry.now default.entry.now }
    ensures local { result.global ≡ false }
{
    option(alloc, name, "FORMAT")
        .help(TARGET_HELP)
        .default_value(default)
}

/// The option whose value is the name of an engine.
fn engine_option<'a>(alloc: Global) -> Arg<'a>
    ensures rule { rule_of result ≡ engine_option }
    ensures local { result.global ≡ false }
{
    option(alloc, "engine", "ENGINE")
        .help(ENGINE_HELP)
        .default_value("staged")
}

/// The option whose value is the speed of the traffic.
fn speed_option<'a>(alloc: Global) -> Arg<'a>
    ensures rule { rule_of result ≡ speed_option }
    ensures local { result.global ≡ false }
{
    option(alloc, "speed", "PERCENT")
        .help(SPEED_HELP)
        .default_value("100")
}

/// The option whose value is the name of the folder that becomes a snapshot.
fn folder_option<'a>(alloc: Global) -> Arg<'a>
    ensures rule { rule_of result ≡ required_of (codes "folder") }
    ensures local { result.global ≡ false }
{
    option(alloc, "folder", "FOLDER")
        .help("The folder whose files are taken")
        .required(true)
}

/// The option whose value is the name of a file with settings.
fn settings_option<'a>(alloc: Global) -> Arg<'a>
    ensures rule { rule_of result ≡ option_of (codes "settings") }
    ensures local { result.global ≡ false }
{
    file_option(
        alloc,
        "settings",
        "Settings, as TOML; a key that is left out has its default",
    )
}

/// An option whose value is the name of a file, and which is required.
fn required_file<'a>(alloc: Global, name: &'a str, help: &'a str) -> Arg<'a>
    ensures rule { rule_of result ≡ required_of name.entry.now }
    ensures local { result.global ≡ false }
{
    file_option(alloc, name, help).required(true)
}

/// An option whose value is the name of a file.
fn file_option<'a>(alloc: Global, name: &'a str, help: &'a str) -> Arg<'a>
    ensures rule { rule_of result ≡ option_of name.entry.now }
    ensures local { result.global ≡ false }
{
    option(alloc, name, "FILE").help(help)
}

/// An option with one value.
fn option<'a>(alloc: Global, name: &'a str, value: &'a str) -> Arg<'a>
    ensures rule { rule_of result ≡ option_of name.entry.now }
    ensures local { result.global ≡ false }
{
    Arg::new(alloc, name).long(name).value_name(value)
}
