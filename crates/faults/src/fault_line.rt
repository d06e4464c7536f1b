//! The one line that reports a fault, and what stands after it.

ghost use Rattle.std.specs.Prelude.{◌≡◌, ◌-◌, ◌+◌, ◌<◌, ◌≤◌, ◌^◌, ◌++◌, ◌∷◌, [], length, codes, decimal, option_map};
ghost use Rattle.std.specs.Prelude.{IfOk, string_bytes};
ghost use Rattle.devices.specs.Devices.{CanFail, WritesProperPrefix, CountsFailed};
ghost use Rattle.faults.specs.FaultLines.{line_of, named_line, named_line_of, skipped_line, text_of, text_reported};
ghost use Rattle.faults.specs.FaultLines.{is_hidden, reported_file, shown_char, shown_name, usage_of};
ghost use Rattle.faults.specs.FaultLines.{words_line, words_shown};
ghost use Rattle.arrayvec.specs.ArrayVec.{array_vec_len};
ghost use Rattle.settings.specs.ConfigFaults.{fault_text};
ghost use Rattle.settings.specs.Keys.{path_of};

use crate::fault::{Fault, Reported, reported_file};
use crate::folder_fault::{FileFault, FolderFault};
use arrayvec::ArrayVec;
use command_line::WordFault;
use devices::{Failed, Output};
use itoa::Buffer;
use settings::{ConfigFault, Key, fault_words};
use std::alloc::{AllocError, Global};
use std::io;
use ucd_category::GeneralCategory;

/// Room for the longest line: `haboob: `, 17 bytes, a number of 64 bits, `: `, 12 bytes and a line feed.
type Line = ArrayVec<u8, 60>;

/// The line of a prefix and a name, or with another end what stands before that.
fn plain_line(prefix: &str, name: &str, end: u8) -> Line
    requires prefix { length prefix.now ≤ 17 }
    requires name { length name.now ≤ 12 }
    ensures { result.items ≡ codes "haboob: " ++ prefix.now ++ name.now ++ end ∷ [] }
{
    let mut line = Line::new();
    line.try_extend_from_slice(b"haboob: ").unwrap();
    line.try_extend_from_slice(prefix.as_bytes()).unwrap();
    line.try_extend_from_slice(name.as_bytes()).unwrap();
    line.push(end);
    line
}

/// The line of a prefix, a number and a name.
fn numbered_line(prefix: &str, number: usize, name: &str) -> Line
    requires prefix { length prefix.now ≤ 17 }
    requires name { length name.now ≤ 12 }
    ensures { result.items
        ≡ codes "haboob: " ++ prefix.now ++ decimal number ++ codes ": " ++ name.now ++ codes "\n" }
{
    let mut buffer = Buffer::new();
    let mut line = Line::new();
    line.try_extend_from_slice(b"haboob: ").unwrap();
    line.try_extend_from_slice(prefix.as_bytes()).unwrap();
    line.try_extend_from_slice(buffer.format(number).as_bytes())
        .unwrap();
    line.try_extend_from_slice(b": ").unwrap();
    line.try_extend_from_slice(name.as_bytes()).unwrap();
    line.push(b'\n');
    line
}

/// The line of a fault of the settings.
fn settings_line(fault: ConfigFault) -> Line
    ensures { result.items ≡ codes "haboob: settings: " ++ fault_text fault ++ codes "\n" }
{
    let mut line = Line::new();
    line.try_extend_from_slice(b"haboob: settings: ").unwrap();
    line.try_extend_from_slice(fault.kind.name().as_bytes())
        .unwrap();
    if let Some(key) = fault.key {
        push_key(&mut line, key);
    }
    line.push(b'\n');
    line
}

/// Adds a key's place in a document, after a space.
fn push_key(line: &mut Line, key: Key)
    requires { array_vec_len line.old ≤ 25 }
    ensures items { line.new.items ≡ line.old.items ++ codes " " ++ path_of key }
    ensures len { array_vec_len line.new ≤ array_vec_len line.old + 34 }
{
    line.push(b' ');
    if !key.is_table() {
        line.try_extend_from_slice(key.table().name().as_bytes())
            .unwrap();
        line.push(b'.');
    }
    line.try_extend_from_slice(key.name().as_bytes()).unwrap();
}

/// The line of what is reported. (A fault of usage is reported by its text.)
fn line_of(reported: Reported) -> Line
    ensures { result.items ≡ line_of reported }
{
    match reported {
        Reported::Usage => plain_line("", "usage", b'\n'),
        Reported::Engine => plain_line("", "engine", b'\n'),
        Reported::Format => plain_line("", "format", b'\n'),
        Reported::Speed => plain_line("", "speed", b'\n'),
        Reported::Settings(fault) => settings_line(fault),
        Reported::Entry(fault) => {
            numbered_line("snapshot: entry ", fault.entry, fault.kind.name())
        }
        Reported::Record(fault) => {
            numbered_line("capture: record ", fault.at, fault.kind.name())
        }
        Reported::TooMany(number) => numbered_line("capture: message ", number, "TooMany"),
        Reported::File(fault) => plain_line("folder: ", fault.name(), b'\n'),
        Reported::Open(place) => plain_line("open: ", place.name(), b'\n'),
        Reported::Read(place) => plain_line("read: ", place.name(), b'\n'),
        Reported::Write(place) => plain_line("write: ", place.name(), b'\n'),
        Reported::Memory => plain_line("", "memory", b'\n'),
    }
}

/// What stands before the name in the line of what can't be taken.
fn file_heading(fault: FileFault) -> Line
    ensures { result.items ≡ codes "haboob: " ++ text_of (reported_file fault) ++ codes " " }
{
    match fault {
        FileFault::Read => plain_line("read: ", "folder", b' '),
        _ => plain_line("folder: ", fault.name(), b' '),
    }
}

/// Writes the line of what can't be taken.
fn write_named<W: io::Write>(writer: &mut Output<W>, fault: &FolderFault) -> Result<(), Failed>
    requires { CanFail writer.old }
    ensures line { WritesProperPrefix writer.old.bytes writer.new.bytes result
        (named_line_of (reported_file fault.now.fault) fault.now.name.items) }
    ensures count { CountsFailed writer.old.failures writer.new.failures result }
{
    match writer.write_all(file_heading(fault.fault).as_slice()) {
        Ok(()) => writer.write_both(&fault.name, b"\n"),
        Err(failed) => Err(failed),
    }
}

/// Writes the one line that says how many were left out. It takes no memory. At an `Err` the writer failed in this
/// call, and a prefix of the line stands there.
pub fn write_skipped<W: io::Write>(count: usize, writer: &mut Output<W>) -> Result<(), Failed>
    requires { CanFail writer.old }
    ensures line { WritesProperPrefix
        writer.old.bytes writer.new.bytes result (skipped_line count) }
    ensures count { CountsFailed writer.old.failures writer.new.failures result }
{
    writer.write_all(skipped_line(count).as_slice())?;
    Ok(())
}

fn skipped_line(count: usize) -> Line
    ensures { result.items ≡ skipped_line count }
{
    let mut buffer = Buffer::new();
    let mut line = Line::new();
    line.try_extend_from_slice(b"haboob: skipped ").unwrap();
    line.try_extend_from_slice(buffer.format(count).as_bytes())
        .unwrap();
    line.push(b'\n');
    line
}

impl Fault {
    /// What the command line says of words that it doesn't take.
    fn usage(&self) -> Option<&str>
        ensures { option_map (λ text. text.now) result ≡ usage_of self.now }
    {
        match self {
            Fault::Words(WordFault::Words(text)) => Some(text.as_str()),
            _ => None,
        }
    }

    /// What can't be taken, where the fault is of that.
    fn named(&self) -> Option<&FolderFault>
        ensures { option_map
            (λ f. named_line_of (reported_file f.now.fault) f.now.name.items) result
            ≡ named_line self.now }
    {
        match self {
            Fault::Folder(fault) => Some(fault),
            _ => None,
        }
    }

    /// Writes the one line that reports the fault, or the text of one on the command line. It takes no memory. At an
    /// `Err` the writer failed in this call, and a prefix of the line stands there.
    pub fn write_line<W: io::Write>(&self, writer: &mut Output<W>) -> Result<(), Failed>
        requires { CanFail writer.old }
        ensures line { WritesProperPrefix
            writer.old.bytes writer.new.bytes result (text_reported self.now) }
        ensures count { CountsFailed writer.old.failures writer.new.failures result }
    {
        if let Some(text) = self.usage() {
            writer.write_all(text.as_bytes())?;
        } else if let Some(fault) = self.named() {
            write_named(writer, fault)?;
        } else {
            writer.write_all(line_of(self.reported()).as_slice())?;
        }
        Ok(())
    }
}

/// Whether a character is a control or a format character, or ends a line or a paragraph: by its general category
/// (Unicode 18, section 4.5).
fn is_hidden(c: char) -> bool
    ensures { result ≡ is_hidden c }
{
    match GeneralCategory::for_char(c) {
        GeneralCategory::Control
        | GeneralCategory::Format
        | GeneralCategory::LineSeparator
        | GeneralCategory::ParagraphSeparator => true,
        _ => false,
    }
}

/// How a character of a name stands in a line.
fn shown_char(c: char) -> char
    ensures { result ≡ shown_char c }
{
    if is_hidden(c) { '?' } else { c }
}

/// A name, or a word of the command line, as a line shows it: with a question mark for each character that acts on a
/// terminal or on how others are shown.
pub fn shown_name(alloc: Global, name: &str) -> Result<String, AllocError>
    ensures { IfOk result (λ shown. string_bytes shown ≡ shown_name name.now) }
{
    name.chars().map(shown_char).collect(alloc)
}

/// The line of these words, where there are some.
fn words_shown(alloc: Global, words: &str) -> Result<Vec<u8>, AllocError>
    ensures { IfOk result (λ line. line.items ≡ words_shown words.now) }
{
    let mut line = Vec::new(alloc);
    if words.is_empty() {
        return Ok(line);
    }
    line.extend_from_slice(b"haboob: ")?;
    line.extend_from_slice(shown_name(alloc, words)?.as_bytes())?;
    line.push(b'\n')?;
    Ok(line)
}

/// The line that stands after the one of a fault of this settings document, where words are wanted (docs/FORMATS.md,
/// "Settings"): what is to stand at the key, or which key there isn't, and the nearest one. Of a fault that isn't the
/// document's there is none. It is shown as names are: with a question mark for each character that acts on a terminal.
///
/// # Errors
///
/// Memory ran out.
pub fn words_line(alloc: Global, document: &[u8], fault: ConfigFault) -> Result<Vec<u8>, AllocError>
    ensures { IfOk result (λ line. line.items ≡ words_line document.now fault) }
{
    words_shown(alloc, &fault_words(alloc, document, fault)?)
}
