//! Reading a snapshot, as a whole input or as a prefix of one.

ghost use Rattle.std.specs.Prelude.{◌≡◌, ◌<◌, ◌-◌, ◌^◌, ◌++◌, IfOk, IfErr, false, true, Option, ℕ, List, ◌≢◌};
ghost use Rattle.std.specs.Option.{unwrap_or};
ghost use Rattle.devices.specs.Devices.{CanFail};
ghost use Rattle.paths.specs.Parts.{NamesFailed, NamesLacking, FailsInSnapshot, FailsInText};
ghost use Rattle.paths.specs.SnapshotFaults.{ReadsFront, IsFrontFault, IsFirstFault, ReadsWhole, IsForeseen};
ghost use Rattle.paths.specs.SnapshotFaults.{CountsFault};

use crate::entry::{read_entry, read_header};
use crate::{MAX_TEXT_BYTES, Snapshot, SnapshotFault, SnapshotFaultKind};
use devices::Input;
use std::alloc::Global;
use std::io::Read;

impl Snapshot {
    /// Reads a snapshot text, to its last line. What follows is left unread, byte for byte.
    ///
    /// An `Err` names the first fault of the text; the input is left somewhere after what was read.
    pub fn read_front<R: Read>(
        alloc: Global,
        input: &mut Input<R>,
    ) -> Result<Snapshot, SnapshotFault>
        requires { CanFail input.old }
        ensures ok { IfOk result (ReadsFront input.old.bytes input.new.bytes) }
        ensures fault { IfErr result (IsForeseen IsFrontFault input.old.bytes) }
        // Where a read failed, the fault names the entry of which a part had been taken.
        ensures failed { IfErr result
            (NamesFailed FailsInSnapshot input.old.bytes input.new.bytes) }
        ensures count { CountsFault input.old.failures input.new.failures result }
        // Where memory ran out, the fault names the entry of which some bytes had been taken, at most a whole file.
        ensures lacking { IfErr result (NamesLacking input.old.bytes input.new.bytes) }
        // The first line takes no memory.
        ensures memory { IfErr result (λ f. f.entry ≡ 0 → f.kind ≢ SnapshotFaultKind.Memory) }
    {
        let mut left = MAX_TEXT_BYTES;
        match read_header(input, &mut left) {
            Ok(()) => (),
            Err(kind) => return Err(SnapshotFault { entry: 0, kind }),
        }
        let mut files = Snapshot::new(alloc);
        loop {
            let entry = files.len() + 1;
            match read_entry(alloc, input, &mut left, &files) {
                Ok(None) => {
                    files.note_names(alloc);
                    return Ok(files);
                }
                Ok(Some(file)) => match files.push(file) {
                    Ok(()) => continue,
                    Err(_) => {
                        let kind = SnapshotFaultKind::Memory;
                        return Err(SnapshotFault { entry, kind });
                    }
                },
                Err(kind) => return Err(SnapshotFault { entry, kind }),
            }
        }
    }

    /// Reads a whole snapshot text: the input ends after its last line.
    ///
    /// An `Err` names the first fault of the text; the input is left somewhere after what was read.
    pub fn read<R: Read>(alloc: Global, input: &mut Input<R>) -> Result<Snapshot, SnapshotFault>
        requires { CanFail input.old }
        ensures ok { IfOk result (ReadsWhole input.old.bytes input.new.bytes) }
        ensures fault { IfErr result (IsForeseen IsFirstFault input.old.bytes) }
        // Where a read failed, the fault names the entry of which a part had been taken, or the one after the last
        // line.
        ensures failed { IfErr result (NamesFailed FailsInText input.old.bytes input.new.bytes) }
        ensures count { CountsFault input.old.failures input.new.failures result }
        // Where memory ran out, the fault names the entry of which some bytes had been taken, at most a whole file.
        ensures lacking { IfErr result (NamesLacking input.old.bytes input.new.bytes) }
        // The first line takes no memory.
        ensures memory { IfErr result (λ f. f.entry ≡ 0 → f.kind ≢ SnapshotFaultKind.Memory) }
    {
        let files = match Snapshot::read_front(alloc, input) {
            Ok(files) => files,
            Err(fault) => return Err(fault),
        };
        let entry = files.len() + 1;
        match input.read_byte() {
            Ok(None) => Ok(files),
            Ok(Some(_)) => {
                let kind = SnapshotFaultKind::Trailing;
                Err(SnapshotFault { entry, kind })
            }
            Err(_) => {
                let kind = SnapshotFaultKind::Read;
                Err(SnapshotFault { entry, kind })
            }
        }
    }
}
