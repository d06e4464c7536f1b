//! The site: its files, as a snapshot.

use crate::random::Random;
use crate::words::{Kind, Work};
use std::alloc::{AllocError, Global};

/// When the files were last changed, at the latest, and when the traffic begins: seconds since 1970.
pub const START: u64 = 1_700_000_000;

/// What a file's bytes are made of.
const LINE: &str =
    "<p>It was a bright cold day in April, and the clocks were striking thirteen.</p>\n";

/// The kinds of files.
const ENDINGS: [&str; 8] = ["html", "css", "js", "png", "svg", "txt", "json", "dat"];

/// The decimal digits of a number.
pub fn push_number(text: &mut Vec<u8>, number: u64) -> Result<(), AllocError> {
    let mut digits = itoa::Buffer::new();
    text.extend_from_slice(digits.format(number).as_bytes())
}

/// The name of a file: they rise with their numbers, and eight stand in a folder.
pub fn push_name(text: &mut Vec<u8>, number: u64) -> Result<(), AllocError> {
    text.extend_from_slice(b"pages/")?;
    push_number(text, 10_000 + (number % 65_536) / 8)?;
    text.extend_from_slice(b"/")?;
    push_number(text, number % 8)?;
    text.extend_from_slice(b".")?;
    let place = (number % 8) as usize;
    text.extend_from_slice(
        ENDINGS
            .get(place)
            .map_or("dat", |ending| *ending)
            .as_bytes(),
    )
}

/// A file's bytes.
fn push_bytes(text: &mut Vec<u8>, length: u64) -> Result<(), AllocError> {
    for _ in 0..length / LINE.len() as u64 {
        text.extend_from_slice(LINE.as_bytes())?;
    }
    for _ in 0..length % LINE.len() as u64 {
        text.push(b'.')?;
    }
    Ok(())
}

/// The snapshot of the site: files of 1 to 16 KiB, or of up to 400 bytes where there are more than 4,000 of them or the
/// requests are short.
pub fn site_text(alloc: Global, work: &Work) -> Result<Vec<u8>, AllocError> {
    let mut random = Random::new(work.seed);
    let small = work.kind == Kind::Short || work.files > 4_000;
    let mut text = Vec::new(alloc);
    let mut name = Vec::new(alloc);
    text.extend_from_slice(b"haboob-snapshot 1\n")?;
    for number in 0..work.files {
        let length = if small {
            random.below(400)
        } else {
            random.below(15_361).wrapping_add(1_024)
        };
        name.clear();
        push_name(&mut name, number)?;
        text.extend_from_slice(b"file ")?;
        push_number(&mut text, START.wrapping_sub(random.below(10_000_000)))?;
        text.extend_from_slice(b" ")?;
        push_number(&mut text, name.len() as u64)?;
        text.extend_from_slice(b" ")?;
        push_number(&mut text, length)?;
        text.extend_from_slice(b"\n")?;
        text.extend_from_slice(&name)?;
        text.extend_from_slice(b"\n")?;
        push_bytes(&mut text, length)?;
        text.extend_from_slice(b"\n")?;
    }
    text.extend_from_slice(b"end ")?;
    push_number(&mut text, work.files)?;
    text.extend_from_slice(b"\n")?;
    Ok(text)
}
