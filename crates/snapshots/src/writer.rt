//! The writer of a snapshot, file by file.

ghost use Rattle.std.specs.Prelude.{◌≡◌, ◌≢◌, ◌<◌, ◌-◌, ◌^◌, ◌++◌, [], ◌∷◌, ℕ, List, Option, OnOk, IfOk, IfErr};
ghost use Rattle.devices.specs.Devices.{CanFail, AppendsPrefix, WritesPrefix};
ghost use Rattle.paths.specs.declared.file.File.{File as AFile};
ghost use Rattle.paths.specs.Snapshots.{text_before_end, snapshot_text, IsSnapshotText};
ghost use Rattle.snapshots.specs.Keeping.{a_file, broken_rule};
ghost use Rattle.snapshots.specs.Writers.{Took, refused_for, Counts};

use crate::WriteFault;
use crate::so_far::FilesSoFar;
use crate::texts::{file_head, last_line, write_file};
use devices::Output;
use std::alloc::Global;
use std::io::Write;
use std::marker::Model;

/// Writes a snapshot's text, file by file, to the output that each call is given: [`SnapshotWriter::begin`], then
/// [`SnapshotWriter::add`] for each file by rising name, then [`SnapshotWriter::finish`]. It keeps the last name, and
/// no file.
///
/// Contracts speak of the files that it has taken: their text up to the last line is what was written since `begin`.
#[derive(Drop)]
pub struct SnapshotWriter {
    alloc: Global,
    so_far: FilesSoFar,
}

impl Model for SnapshotWriter {
    ghost use Rattle.snapshots.specs.declared.so_far.FilesSoFar.{FilesSoFar};

    ghost Value = { FilesSoFar };

    ghost view = { λ w. w.so_far };
}

impl SnapshotWriter {
    /// Writes the first line.
    ///
    /// # Errors
    ///
    /// `Write`: a prefix of the line stands.
    pub fn begin<W: Write>(
        alloc: Global,
        output: &mut Output<W>,
    ) -> Result<SnapshotWriter, WriteFault>
        requires { CanFail output.old }
        ensures ok { IfOk result (λ writer. Took [] output.old.bytes output.new.bytes writer) }
        ensures part { IfErr result
            (λ _. AppendsPrefix output.old.bytes output.new.bytes (text_before_end [])) }
        ensures count { Counts output.old.failures output.new.failures result }
    {
        let so_far = FilesSoFar::begin(alloc, output)?;
        Ok(SnapshotWriter { alloc, so_far })
    }

    /// Writes a file: its name (a path from the root, its parts joined by `/`), when it was last changed, in seconds
    /// since 1970-01-01, and its bytes.
    ///
    /// # Errors
    ///
    /// The first rule that the file breaks after those before it, in the order of [`WriteFault`], or `Memory`: nothing
    /// was written, and the writer is as it was. `Write`: a prefix stands, and the writer is of no more use.
    pub fn add<W: Write>(
        &mut self,
        output: &mut Output<W>,
        name: &[u8],
        mtime: u64,
        bytes: &[u8],
    ) -> Result<(), WriteFault>
        requires { CanFail output.old }
        ensures taken { (files : List AFile) (before : Option (List ℕ))
            → Took files before output.old.bytes self.old
            → OnOk result (Took (files ++ a_file name.now mtime bytes.now ∷ []) before output.new.bytes self.new) }
        // After a failed write a prefix of the text stands.
        ensures part { (files : List AFile) (before : Option (List ℕ))
            → Took files before output.old.bytes self.old
            → IfErr result (λ f. f ≡ WriteFault.Write
            → AppendsPrefix before output.new.bytes (text_before_end (files ++ a_file name.now mtime bytes.now ∷ []))) }
        // Every other fault writes nothing, and leaves the writer as it was.
        ensures unchanged { IfErr result (λ f. f ≢ WriteFault.Write
            → (self.new ≡ self.old) × (output.new ≡ output.old)) }
        // A rule is named exactly where the files so far with this one keep the rules no longer, and it is the first.
        ensures rule { (files : List AFile) (before : Option (List ℕ))
            → Took files before output.old.bytes self.old
            → refused_for result ≡ broken_rule files (a_file name.now mtime bytes.now) }
        ensures count { Counts output.old.failures output.new.failures result }
    {
        match self.so_far.broken_rule(name, mtime, bytes) {
            Some(rule) => return Err(rule),
            None => (),
        }
        let head = file_head(self.alloc, name, mtime, bytes)?;
        let text_len = head.len().saturating_add(bytes.len() + 1);
        let so_far = self.so_far.then(self.alloc, name, text_len)?;
        write_file(output, &head, bytes)?;
        self.so_far = so_far;
        Ok(())
    }

    /// Writes the last line.
    ///
    /// # Errors
    ///
    /// `Memory`: the text stands without its last line. `Write`: a prefix of it stands.
    pub fn finish<W: Write>(self, output: &mut Output<W>) -> Result<(), WriteFault>
        requires { CanFail output.old }
        ensures text { (files : List AFile) (before : Option (List ℕ))
            → Took files before output.old.bytes self
            → WritesPrefix before output.new.bytes result (snapshot_text files) }
        // The files that were taken keep the rules.
        ensures rules { (files : List AFile) (before : Option (List ℕ))
            → Took files before output.old.bytes self
            → IsSnapshotText (snapshot_text files) files }
        // Out of memory nothing more was written.
        ensures lacks { IfErr result (λ f. f ≡ WriteFault.Memory → output.new ≡ output.old) }
        ensures count { Counts output.old.failures output.new.failures result }
    {
        let line = last_line(self.alloc, self.so_far.count)?;
        output.write_all(line.as_bytes())?;
        Ok(())
    }
}
