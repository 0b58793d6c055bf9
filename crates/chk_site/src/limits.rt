// The limits of files, logs and messages.

/// The most bytes that one read of a log, or one piece of a message, gives: 128 KiB.
pub const PIECE_BYTES: usize = 131_072;

/// The place at which each log counts as ended, and no offset is above it: 2^63 - 1.
pub const LOG_END: u64 = (1 << 63) - 1;

/// A log has fewer bytes than this, and a stream's start is below it: 2^62.
pub const LOG_BYTES: u64 = 1 << 62;
