//! Texts that are put together, and read.
use devices::Input;
use paths::{Snapshot, SnapshotFault};
use std::alloc::{AllocError, Global};

/// The snapshot of a text that is one.
pub fn snapshot(alloc: Global, text: &[u8]) -> Result<Snapshot, SnapshotFault> {
    let mut input = Input::new(text);
    Snapshot::read(alloc, &mut input)
}

/// The capture of these pieces, each with its tick and its connection.
pub fn capture_of(alloc: Global, pieces: &[(u64, u64, &str)]) -> Result<String, AllocError> {
    let mut text = format!(in alloc; "haboob-capture 1 784111777\n")?;
    for (tick, conn, piece) in pieces {
        write!(text, "piece {tick} {conn} {}\n{piece}\n", piece.len())?;
    }
    write!(text, "stop {}\n", pieces.len())?;
    Ok(text)
}

/// The capture of a text of ASCII in pieces of one byte, piece k at tick k.
pub fn in_bytes(alloc: Global, text: &str) -> Result<String, AllocError> {
    let mut capture = format!(in alloc; "haboob-capture 1 784111777\n")?;
    for (tick, byte) in text.chars().enumerate() {
        write!(capture, "piece {tick} 0 1\n{byte}\n")?;
    }
    write!(capture, "stop {}\n", text.len())?;
    Ok(capture)
}
