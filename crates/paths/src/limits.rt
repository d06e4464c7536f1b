//! The limits of a snapshot, for those that read one and those that write one.

/// The greatest time of a file, in seconds since 1970-01-01.
pub const MAX_TIME: u64 = 253_402_300_799;
/// The most bytes of a file.
pub const MAX_FILE_BYTES: u64 = 16_777_216;
/// The most bytes of a name.
pub const MAX_NAME_BYTES: u64 = 1_024;
/// The most files.
pub const MAX_FILES: usize = 65_536;
/// The most bytes of a snapshot text.
pub const MAX_TEXT_BYTES: usize = 1_073_741_824;
