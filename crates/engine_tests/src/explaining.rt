//! Explains texts in memory.
ghost use Rattle.std.specs.Prelude.{◌≡◌, ◌<◌, ◌-◌, ◌^◌};
ghost use Rattle.devices.specs.Devices.{CanFail};

use crate::replaying::{Ran, TEXT_CAPACITY, ran_to};
use devices::{Input, Output};
use paths::Snapshot;
use replay::{Outcome, ReplayFault, Settings, explain_replay};
use std::alloc::Global;
use std::io::{Read, Write};
use std::marker::Brand;

/// Explains what a device gives against a snapshot's text; `None` where that is none.
pub fn explain_devices<R: Read, W: Write>(
    alloc: Global,
    snapshot: &str,
    settings: &Settings,
    reader: &mut Input<R>,
    writer: &mut Output<W>,
) -> Option<Result<Outcome, ReplayFault>>
    requires reading { CanFail reader.old }
    requires writing { CanFail writer.old }
{
    let mut input = Input::new(snapshot.as_bytes());
    match Snapshot::read(alloc, &mut input) {
        Ok(files) => {
            Some(explain_replay::<Brand, R, W>(alloc, &files, settings, reader, writer))
        }
        Err(_) => None,
    }
}

/// Explains a capture against a snapshot, both as texts.
pub fn explain(alloc: Global, snapshot: &str, settings: &Settings, capture: &str) -> Option<Ran> {
    let mut text = Vec::with_capacity(alloc, TEXT_CAPACITY).ok()?;
    let mut reader = Input::new(capture.as_bytes());
    let mut writer = Output::new(&mut text);
    let answer = explain_devices(alloc, snapshot, settings, &mut reader, &mut writer)?;
    ran_to(alloc, answer, text)
}
