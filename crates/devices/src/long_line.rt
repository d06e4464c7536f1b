//! Reading a line that announces something, no further than it must reach.

ghost use Rattle.std.specs.Prelude.{◌+◌, ◌-◌, ◌<◌, ◌≤◌, length, min, IfErr, ◌≢◌};
ghost use Rattle.devices.specs.Devices.{CanFail};
ghost use Rattle.devices.specs.Texts.{Counts, line_at, IsShortestRest, GivesLongLine};
ghost use Rattle.devices.specs.Parts.{FailsWithin, TookAtMost};

use crate::text::{read_line_ahead, read_some_of};
use crate::{Input, Line, Stop};
use std::io::Read;

/// The most bytes of a line that are read at once.
const MAX_SHORTEST: usize = 8;

/// How many bytes a line that begins so has ahead at least, its line feed among them, if it has `least` bytes, and
/// `longer` where it begins with `kind`.
fn shortest_rest(prefix: &[u8], least: usize, kind: &[u8], longer: usize) -> usize
    requires least { (1 ≤ least) × (least ≤ MAX_SHORTEST) }
    requires longer { (least < longer) × (longer ≤ least + MAX_SHORTEST) }
    ensures shortest_rest { IsShortestRest least kind.now longer prefix.now result }
    ensures some { 0 < result }
    ensures limit { result ≤ MAX_SHORTEST }
    ensures buffer { length prefix.now < 65 → length prefix.now + result ≤ 65 }
{
    if prefix.is_empty() {
        least
    } else if prefix.len() == least && prefix.starts_with(kind) {
        longer - least
    } else {
        1
    }
}

/// Reads such a line. Its shortest rest is read at once: bytes after a line that is shorter may have been read too.
fn read_shortest_line<R: Read>(
    input: &mut Input<R>,
    left: &mut usize,
    least: usize,
    kind: &[u8],
    longer: usize,
) -> Result<Line, Stop>
    requires healthy { CanFail input.old }
    requires least { (1 ≤ least) × (least ≤ 8) }
    requires longer { (least < longer) × (longer ≤ least + 8) }
    ensures line { GivesLongLine least kind.now longer
        input.old.bytes left.old input.new.bytes left.new result }
    // Where a read failed, no whole line had been taken.
    ensures part { FailsWithin Stop.Read Stop.Cut line_at
        input.old.bytes left.old input.new.bytes left.new result }
    ensures count { Counts input.old.failures input.new.failures result }
    // It takes no memory.
    ensures memory { IfErr result (λ e. e ≢ Stop.Memory) }
    // At most 65 bytes were taken, and one byte past the limit.
    ensures most { TookAtMost (min 65 (left.old + 1)) input.old.bytes input.new.bytes }
{
    let mut line = Line::new();
    while line.as_slice().len() < 65 {
        let mut buffer = [0; MAX_SHORTEST];
        let shortest_rest = shortest_rest(line.as_slice(), least, kind, longer);
        match read_some_of(input, left, &mut buffer[..shortest_rest]) {
            Ok(count) => {
                if line.push_to_feed(&buffer[..count]) {
                    return Ok(line);
                }
            }
            Err(stop) => return Err(stop),
        }
    }
    Err(Stop::TooLong)
}

/// Reads the next line of a text that may take `left` more bytes, of which those that announce something have at
/// least `least` bytes with the line feed (1 to 8), and where they begin with `kind`, at least `longer` (1 to 8
/// more). The shortest rest of a line is read at once: bytes after a line that is shorter may have been read too. An
/// input that reads ahead keeps them.
pub fn read_long_line<R: Read>(
    input: &mut Input<R>,
    left: &mut usize,
    least: usize,
    kind: &[u8],
    longer: usize,
) -> Result<Line, Stop>
    requires healthy { CanFail input.old }
    requires least { (1 ≤ least) × (least ≤ 8) }
    requires longer { (least < longer) × (longer ≤ least + 8) }
    ensures line { GivesLongLine least kind.now longer
        input.old.bytes left.old input.new.bytes left.new result }
    // Where a read failed, no whole line had been taken.
    ensures part { FailsWithin Stop.Read Stop.Cut line_at
        input.old.bytes left.old input.new.bytes left.new result }
    ensures count { Counts input.old.failures input.new.failures result }
    // It takes no memory.
    ensures memory { IfErr result (λ e. e ≢ Stop.Memory) }
    // At most 65 bytes were taken, and one byte past the limit.
    ensures most { TookAtMost (min 65 (left.old + 1)) input.old.bytes input.new.bytes }
{
    if input.reads_ahead() {
        read_line_ahead(input, left)
    } else {
        read_shortest_line(input, left, least, kind, longer)
    }
}
