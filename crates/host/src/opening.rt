//! The files that a job names, opened.

ghost use Rattle.std.specs.Prelude.{◌≡◌, ◌<◌, ◌-◌, ◌^◌, IfOk};
ghost use Rattle.devices.specs.Devices.{CanFail};

use crate::explained::Explained;
use crate::overwritten::{Node, Overwritten};
use crate::source::{STANDARD, Source};
use devices::Input;
use faults::{Fault, Place};
use runs::buffered_input;
use std::alloc::Global;
use std::io::BufReader;

/// Refuses a standard output that is one of the inputs, before anything is written.
pub fn check_standard(
    alloc: Global,
    standard: Option<Node>,
    inputs: &[Option<Node>],
    place: Place,
) -> Result<(), Explained> {
    match standard {
        Some(node) if node.is_kept_in(inputs) => Err(Explained::on(
            alloc,
            Fault::Open(place),
            "standard output",
            "it is an input too",
        )),
        _ => Ok(()),
    }
}

/// A capture file, and another that is to hold a text of it.
pub(crate) fn open_both<'a>(
    rt: &'a HostRuntime,
    capture: &str,
    output: &str,
) -> Result<(Source<'a>, Overwritten), Explained> {
    let capture = Source::open(rt, capture, Place::Capture)?;
    let inputs = [capture.node(Place::Capture)?];
    let mut opened = Overwritten::open(rt, output, Place::Output, &inputs)?;
    if let Err(error) = opened.empty() {
        let fault = Fault::Open(Place::Output);
        return Err(Explained::by(rt.alloc(), fault, output, &error));
    }
    Ok((capture.shown(), opened))
}

/// The names of a replay's files, and the speed of its traffic.
#[derive(Drop)]
pub struct Names<'a> {
    pub snapshot: &'a str,
    pub capture: &'a str,
    pub settings: Option<&'a str>,
    /// In percent of that at which the traffic was recorded.
    pub speed: u64,
    /// The file that what is wanted of the messages goes into.
    pub written: &'a str,
    pub place: Place,
}

/// The inputs of a replay, open, and which files they are.
#[derive(Drop)]
struct Inputs<'a> {
    snapshot: Source<'a>,
    capture: Source<'a>,
    nodes: [Option<Node>; 2],
}

/// Refuses a second input that is to come from standard input.
fn check_once(alloc: Global, names: &Names) -> Result<(), Explained> {
    let settings = names.settings == Some(STANDARD);
    let snapshot = names.snapshot == STANDARD;
    let place = if settings && snapshot {
        Place::Snapshot
    } else if (settings || snapshot) && names.capture == STANDARD {
        Place::Capture
    } else {
        return Ok(());
    };
    let what = "standard input is another input already";
    Err(Explained::on(alloc, Fault::Open(place), STANDARD, what))
}

/// Opens the inputs of a replay.
fn open_inputs<'a>(rt: &'a HostRuntime, names: &Names) -> Result<Inputs<'a>, Explained> {
    check_once(rt.alloc(), names)?;
    let snapshot = Source::open(rt, names.snapshot, Place::Snapshot)?;
    let capture = Source::open(rt, names.capture, Place::Capture)?;
    let nodes = [
        snapshot.node(Place::Snapshot)?,
        capture.node(Place::Capture)?,
    ];
    Ok(Inputs {
        snapshot,
        capture: capture.shown(),
        nodes,
    })
}

/// Opens what is to be written, where neither that nor standard output is one of the inputs, the settings (of this
/// node) among them.
fn open_written(
    rt: &HostRuntime,
    standard: Option<Node>,
    settings: Option<Node>,
    inputs: [Option<Node>; 2],
    names: &Names,
) -> Result<Overwritten, Explained> {
    let [snapshot, capture] = inputs;
    let alloc = rt.alloc();
    if names.written == STANDARD {
        let fault = Fault::Open(names.place);
        return Err(Explained::on(alloc, fault, STANDARD, "standard output gets the report"));
    }
    check_standard(
        alloc,
        standard,
        &[snapshot, capture, settings],
        Place::Report,
    )?;
    let others = [snapshot, capture, settings, standard];
    Overwritten::open(rt, names.written, names.place, &others)
}

/// The files of a replay, but for the settings, with a buffer before each input.
#[derive(Drop)]
pub struct Opened<'a> {
    pub snapshot: Input<BufReader<Source<'a>>>,
    pub capture: Input<BufReader<Source<'a>>>,
    pub written: Overwritten,
}

/// Opens the files of a replay in the order snapshot, capture, output.
pub fn open_files<'a>(
    rt: &'a HostRuntime,
    standard: Option<Node>,
    settings: Option<Node>,
    names: &Names,
) -> Result<Opened<'a>, Explained>
    // No read of them has failed yet.
    ensures { IfOk result (λ opened. CanFail opened.snapshot × CanFail opened.capture) }
{
    let Inputs {
        snapshot,
        capture,
        nodes,
    } = open_inputs(rt, names)?;
    let written = open_written(rt, standard, settings, nodes, names)?;
    Ok(Opened {
        snapshot: buffered_input(rt.alloc(), snapshot)?,
        capture: buffered_input(rt.alloc(), capture)?,
        written,
    })
}
