//! The jobs that need an engine, with the files that their arguments name.

use command_line::WordFault;
use faults::{Fault, Place};
use host::{
    Explained, Names, Node, STANDARD_INPUT, check_standard, open_files, settings_in, with_looks,
};
use program::{Devices, Wanted, bundle_into, replay_into};
use reference::Settings;
use runs::{Sink, buffered_input};
use std::sync::Wait;
use std::thread::Threads;

/// The same settings for traffic that comes at so many percent of its speed.
fn at_speed(settings: Settings, percent: u64) -> Result<Settings, Fault> {
    if (100..=10_000).contains(&percent) {
        Ok(settings.with_speed(percent))
    } else {
        Err(Fault::Words(WordFault::Speed))
    }
}

/// Replays standard input to standard output.
pub(crate) fn bundle(rt: &HostRuntime, standard: Option<Node>) -> Result<(), Explained> {
    check_standard(
        rt.alloc(),
        standard,
        &[Node::at(rt, STANDARD_INPUT)],
        Place::Replies,
    )?;
    let input = buffered_input(rt.alloc(), rt.stdin())?;
    Ok(bundle_into(rt.alloc(), input, Sink::new(rt.stdout())).0?)
}

/// Replays one file against another, with the report on standard output. The settings are read before any other file is
/// opened. `threads` is the runtime once more, for the engine that starts threads.
pub(crate) fn replay_named<T: Threads + Wait + Sync>(
    rt: &HostRuntime,
    threads: &T,
    standard: Option<Node>,
    names: &Names,
    wanted: Wanted,
) -> Result<(), Explained> {
    let (settings, node) = settings_in(rt, names.settings)?;
    let settings = at_speed(settings, names.speed)?;
    let opened = open_files(rt, standard, node, names)?;
    let devices = Devices {
        snapshot: opened.snapshot,
        capture: opened.capture,
        written: Sink::new(opened.written),
        report: Sink::new(rt.stdout()),
    };
    let ran = replay_into(threads, rt.alloc(), &settings, wanted, devices).0;
    ran.map_err(|fault| with_looks(rt, fault, Some(names.snapshot), names.capture))
}
