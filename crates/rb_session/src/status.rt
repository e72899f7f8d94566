//! What the exit statuses of a session mean, beside those of all forms.

/// The line failed.
pub const LINE_FAILED: u8 = 5;
/// The store failed.
pub const STORE_FAILED: u8 = 6;
/// The store holds a row that may not stand there.
pub const BAD_STORE: u8 = 8;
/// The store has no room for a row.
pub const STORE_FULL: u8 = 10;
/// There was one caller more than a session serves.
pub const TOO_MANY_CALLERS: u8 = 11;
