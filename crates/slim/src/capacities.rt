//! How long the texts of records are, and how much room they leave.

ghost use Rattle.std.specs.Prelude.{◌<◌, ◌≡◌, ◌+◌, ◌≤◌, ◌∷◌, ◌++◌, [], length, flat_map, codes, decimal};
ghost use Rattle.std.specs.Prelude.{IfSome, IfNone};
ghost use Rattle.captures.specs.Reference.{first_line, format_of, record_text};

use captures::{Record, Version};

/// How many digits a number has.
fn digits(number: u64) -> usize
    ensures value { result ≡ length (decimal number) }
    ensures most { result ≤ 20 }
{
    let mut left = number;
    let mut count = 1;
    while left >= 10 {
        left /= 10;
        count += 1;
    }
    count
}

/// The most bytes of a text in this format.
fn max_text_bytes(version: Version) -> usize
    ensures { result ≡ (format_of version).max_text_bytes }
{
    match version {
        Version::One | Version::Two => 1_073_741_824,
        Version::Traffic => 1_125_899_906_842_624,
    }
}

/// How many bytes a text in this format may have after its first line.
pub(crate) fn capacity_after_first(version: Version, start: u64) -> usize
    ensures { length (first_line version start ++ 10 ∷ []) + result
        ≡ (format_of version).max_text_bytes }
{
    max_text_bytes(version) - digits(start) - 18
}

/// How many bytes the text of a record has.
fn record_size(next: &Record) -> usize
    ensures { result ≡ length (record_text next.now) }
{
    match next {
        Record::Piece { tick, conn, bytes } => {
            let len = bytes.as_slice().len();
            len + digits(*tick) + digits(u64::from(*conn)) + digits(len as u64) + 10
        }
        Record::End { tick, conn } => digits(*tick) + digits(u64::from(*conn)) + 6,
        Record::Tier { conn, tier } => digits(u64::from(*conn)) + digits(u64::from(*tier)) + 7,
    }
}

/// The room that the texts of records leave, where there is room for them.
pub(crate) fn capacity_after(capacity: usize, records: &[Record]) -> Option<usize>
    ensures some { IfSome result
        (λ left. length (flat_map record_text records.now) + left ≡ capacity) }
    ensures none { IfNone result (capacity < length (flat_map record_text records.now)) }
{
    let mut left = capacity;
    for record in records {
        let size = record_size(record);
        if left < size {
            return None;
        }
        left -= size;
    }
    Some(left)
}

/// How many bytes the last line of a text of n records has.
pub(crate) fn last_line_size(count: usize) -> usize
    ensures { result ≡ length ((codes "stop " ++ decimal count) ++ 10 ∷ []) }
{
    digits(count as u64) + 6
}
