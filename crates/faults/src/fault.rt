//! All faults of the program, with the devices that they name, what is reported of each, and its status.

ghost use Rattle.std.specs.Prelude.{◌≡◌, ◌≤◌, length};
ghost use Rattle.faults.specs.FaultLines.{of_rows, reported, reported_entry, reported_file, reported_pass};
ghost use Rattle.faults.specs.FaultLines.{reported_record};
ghost use Rattle.faults.specs.FaultLines.{place_name, status_of};

use crate::folder_fault::{FileFault, FolderFault};
use captures::{CaptureFault, CaptureFaultKind, PassFault, UpgradeFault};
use command_line::WordFault;
use paths::{SnapshotFault, SnapshotFaultKind};
use settings::{ConfigFault, ConfigFaultKind};
use std::alloc::AllocError;

/// A file that the program reads or writes, whatever its name.
#[derive(Clone, Copy, Debug, PartialEq, Eq)]
pub enum Place {
    Settings,
    Snapshot,
    Capture,
    Replies,
    Messages,
    Report,
    Output,
    Folder,
}

impl Place {
    /// The word for it in a fault's line.
    pub(crate) fn name(self) -> &'static str
        ensures name { result.now ≡ place_name self }
        ensures short { length result.now ≤ 12 }
    {
        match self {
            Place::Settings => "settings",
            Place::Snapshot => "snapshot",
            Place::Capture => "capture",
            Place::Replies => "replies",
            Place::Messages => "messages",
            Place::Report => "report",
            Place::Output => "output",
            Place::Folder => "folder",
        }
    }
}

/// Why the program didn't do what it was to do.
#[derive(Debug, PartialEq, Drop)]
pub enum Fault {
    /// The words after the program's name ask for nothing that it does.
    Words(WordFault),
    /// The settings' first fault.
    Settings(ConfigFault),
    /// The snapshot's first fault, or it couldn't be read.
    Snapshot(SnapshotFault),
    /// The replay came to no end.
    Replay(PassFault),
    /// The upgrade came to no end.
    Upgrade(UpgradeFault),
    /// The slim text came to no end.
    Slim(PassFault),
    /// What was found in a folder can't be taken into a snapshot.
    Folder(FolderFault),
    /// A file couldn't be opened.
    Open(Place),
    /// A file couldn't be read.
    Read(Place),
    /// A file couldn't be written to its end.
    Write(Place),
    /// There was no memory.
    Memory,
}

/// What is reported of a fault: a failed read or write and out of memory alike, whatever fault they stand in.
#[derive(Clone, Copy, Debug)]
pub enum Reported {
    /// The words on the command line are wrong, or ask for help: the text says it.
    Usage,
    /// There is no engine of that name.
    Engine,
    /// Neither an upgrade nor a slim text is written in a format of that name.
    Format,
    /// Another speed was asked for.
    Speed,
    /// A key of the settings is wrong, or the document.
    Settings(ConfigFault),
    /// An entry of the snapshot is wrong.
    Entry(SnapshotFault),
    /// A record of the capture is wrong.
    Record(CaptureFault),
    /// The capture's message of this number is one too many.
    TooMany(usize),
    /// What was found in a folder can't be taken.
    File(FileFault),
    Open(Place),
    Read(Place),
    Write(Place),
    Memory,
}

impl From<WordFault> for Fault {
    ghost use Rattle.faults.specs.declared.fault.Fault.TheVariants.{Words};

    ghost from_gives = { λ inner fault. fault ≡ Words inner };

    fn from(inner: WordFault) -> Fault {
        Fault::Words(inner)
    }
}

impl From<ConfigFault> for Fault {
    ghost use Rattle.faults.specs.declared.fault.Fault.TheVariants.{Settings};

    ghost from_gives = { λ inner fault. fault ≡ Settings inner };

    fn from(inner: ConfigFault) -> Fault {
        Fault::Settings(inner)
    }
}

impl From<SnapshotFault> for Fault {
    ghost use Rattle.faults.specs.declared.fault.Fault.TheVariants.{Snapshot};

    ghost from_gives = { λ inner fault. fault ≡ Snapshot inner };

    fn from(inner: SnapshotFault) -> Fault {
        Fault::Snapshot(inner)
    }
}

impl From<PassFault> for Fault {
    ghost use Rattle.faults.specs.declared.fault.Fault.TheVariants.{Replay};

    ghost from_gives = { λ inner fault. fault ≡ Replay inner };

    fn from(inner: PassFault) -> Fault {
        Fault::Replay(inner)
    }
}

impl From<AllocError> for Fault {
    ghost use Rattle.faults.specs.declared.fault.Fault.TheVariants.{Memory};

    ghost from_gives = { λ refused fault. fault ≡ Memory };

    fn from(_refused: AllocError) -> Fault {
        Fault::Memory
    }
}

/// What is reported of a snapshot's fault.
fn reported_entry(fault: SnapshotFault) -> Reported
    ensures { result ≡ reported_entry fault.kind fault }
{
    match fault.kind {
        SnapshotFaultKind::Read => Reported::Read(Place::Snapshot),
        SnapshotFaultKind::Memory => Reported::Memory,
        _ => Reported::Entry(fault),
    }
}

/// What is reported of a capture's fault.
fn reported_record(fault: CaptureFault) -> Reported
    ensures { result ≡ reported_record fault.kind fault }
{
    match fault.kind {
        CaptureFaultKind::Read => Reported::Read(Place::Capture),
        CaptureFaultKind::Memory => Reported::Memory,
        _ => Reported::Record(fault),
    }
}

/// What is reported of a pass over a capture that writes there.
fn reported_pass(place: Place, fault: PassFault) -> Reported
    ensures { result ≡ reported_pass place fault }
{
    match fault {
        PassFault::Capture(fault) => reported_record(fault),
        PassFault::TooMany(number) => Reported::TooMany(number),
        PassFault::Write => Reported::Write(place),
        PassFault::Memory => Reported::Memory,
    }
}

/// What is reported of what was found in a folder.
pub(crate) fn reported_file(fault: FileFault) -> Reported
    ensures { result ≡ reported_file fault }
{
    match fault {
        FileFault::Read => Reported::Read(Place::Folder),
        _ => Reported::File(fault),
    }
}

impl Fault {
    /// What is reported of the fault.
    pub(crate) fn reported(&self) -> Reported
        ensures { result ≡ reported self.now }
    {
        match self {
            Fault::Words(WordFault::Words(_)) => Reported::Usage,
            Fault::Words(WordFault::Engine) => Reported::Engine,
            Fault::Words(WordFault::Format) => Reported::Format,
            Fault::Words(WordFault::Speed) => Reported::Speed,
            Fault::Settings(fault) if fault.kind != ConfigFaultKind::Memory => {
                Reported::Settings(*fault)
            }
            Fault::Snapshot(fault) => reported_entry(*fault),
            Fault::Replay(fault) => reported_pass(Place::Replies, *fault),
            Fault::Upgrade(fault) => reported_pass(Place::Output, *fault),
            Fault::Slim(fault) => reported_pass(Place::Output, *fault),
            Fault::Folder(fault) => reported_file(fault.fault),
            Fault::Open(place) => Reported::Open(*place),
            Fault::Read(place) => Reported::Read(*place),
            Fault::Write(place) => Reported::Write(*place),
            Fault::Words(WordFault::Memory) => Reported::Memory,
            Fault::Settings(_) | Fault::Memory => Reported::Memory,
        }
    }

    /// The fault of a run that writes rows, of one that writes replies: what was to hold these is the messages' file.
    pub fn of_rows(self) -> Fault
        ensures { result ≡ of_rows self }
    {
        match self {
            Fault::Replay(PassFault::Write) | Fault::Write(Place::Replies) => {
                Fault::Write(Place::Messages)
            }
            other => other,
        }
    }

    /// The status that the program ends with, from 2 to 7.
    pub fn status(&self) -> u8
        ensures { result ≡ status_of (reported self.now) }
    {
        match self.reported() {
            Reported::Usage | Reported::Engine | Reported::Format | Reported::Speed => 2,
            Reported::Settings(_) => 3,
            Reported::Entry(_) | Reported::File(_) => 4,
            Reported::Record(_) | Reported::TooMany(_) => 5,
            Reported::Open(_) | Reported::Read(_) | Reported::Write(_) => 6,
            Reported::Memory => 7,
        }
    }
}
