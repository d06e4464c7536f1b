//! What the rules ask of the files so far.

ghost use Rattle.std.specs.Prelude.{◌≡◌, ◌≢◌, ◌≤◌, ◌<◌, ◌-◌, ◌^◌, [], length, decimal, IfOk, IfErr, IfSome, Err, Some};
ghost use Rattle.devices.specs.Devices.{CanFail, AppendsPrefix};
ghost use Rattle.paths.specs.Snapshots.{file_text, text_before_end, max_name_bytes, max_file_bytes};
ghost use Rattle.snapshots.specs.Keeping.{a_file, broken_by, Grown, is_good_name};
ghost use Rattle.snapshots.specs.Writers.{Took, refused_for, Counts};

use crate::WriteFault;
use crate::names::Names;
use devices::Output;
use itoa::Buffer;
use paths::{MAX_FILE_BYTES, MAX_FILES, MAX_NAME_BYTES, MAX_TEXT_BYTES, MAX_TIME, is_name};
use std::alloc::{AllocError, Global};
use std::io::Write;

/// What the rules ask of the files so far.
#[derive(Drop)]
pub struct FilesSoFar {
    /// How many there are.
    pub count: usize,
    /// How many bytes the text has before its last line.
    pub size: usize,
    pub names: Names,
}

/// How many digits a number has.
fn digits(number: u64) -> usize
    ensures value { result ≡ length (decimal number) }
    ensures limit { result ≤ 40 }
{
    Buffer::new().format(number).len()
}

/// How many bytes the text of a file has.
fn text_len(name: &[u8], mtime: u64, bytes: &[u8]) -> usize
    requires name { length name.now ≤ max_name_bytes }
    requires bytes { length bytes.now ≤ max_file_bytes }
    ensures { result ≡ length (file_text (a_file name.now mtime bytes.now)) }
{
    let numbers = digits(mtime) + digits(name.len() as u64) + digits(bytes.len() as u64);
    // `file `, two spaces and three line feeds.
    10 + numbers + name.len() + bytes.len()
}

/// Whether these bytes may be the name of a file, as far as other names aren't asked.
fn is_good_name(name: &[u8]) -> bool
    ensures { result ≡ is_good_name name.now }
{
    !name.is_empty() && name.len() as u64 <= MAX_NAME_BYTES && is_name(name)
}

impl FilesSoFar {
    /// Writes the first line.
    pub(crate) fn begin<W: Write>(
        alloc: Global,
        output: &mut Output<W>,
    ) -> Result<FilesSoFar, WriteFault>
        requires { CanFail output.old }
        ensures ok { IfOk result (λ so_far. Took [] output.old.bytes output.new.bytes so_far) }
        ensures prefix { IfErr result
            (λ _. AppendsPrefix output.old.bytes output.new.bytes (text_before_end [])) }
        ensures count { Counts output.old.failures output.new.failures result }
    {
        let line = b"haboob-snapshot 1\n";
        output.write_all(line)?;
        Ok(FilesSoFar {
            count: 0,
            size: line.len(),
            names: Names::new(alloc),
        })
    }

    /// The first rule that a file after these would break.
    #[tactic(auto, unfolding(crate::specs::Keeping::broken_by))]
    pub(crate) fn broken_rule(&self, name: &[u8], mtime: u64, bytes: &[u8]) -> Option<WriteFault>
        ensures rule { result ≡ broken_by self.now (a_file name.now mtime bytes.now) }
        ensures own { IfSome result (λ rule. refused_for (Err rule) ≡ Some rule) }
        ensures unwritten { IfSome result (λ rule. rule ≢ WriteFault.Write) }
    {
        if mtime > MAX_TIME {
            return Some(WriteFault::Time);
        }
        if bytes.len() as u64 > MAX_FILE_BYTES {
            return Some(WriteFault::Size);
        }
        if self.count >= MAX_FILES {
            return Some(WriteFault::Count);
        }
        if !is_good_name(name) {
            return Some(WriteFault::Name);
        }
        if !self.names.precede(name) {
            return Some(WriteFault::Order);
        }
        if self.names.has_file_above(name) {
            return Some(WriteFault::Conflict);
        }
        let size = self.size.saturating_add(text_len(name, mtime, bytes));
        // `end ` and a line feed.
        if size > MAX_TEXT_BYTES - (5 + digits(self.count as u64 + 1)) {
            return Some(WriteFault::Text);
        }
        None
    }

    /// The files with one more, whose text has n bytes.
    pub(crate) fn then(
        &self,
        alloc: Global,
        name: &[u8],
        text_len: usize,
    ) -> Result<FilesSoFar, AllocError>
        ensures { IfOk result (Grown self.now name.now text_len) }
    {
        let names = self.names.then(alloc, name)?;
        Ok(FilesSoFar {
            count: self.count.saturating_add(1),
            size: self.size.saturating_add(text_len),
            names,
        })
    }
}
