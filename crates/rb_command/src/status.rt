//! What the program's exit statuses mean.

/// The work was done.
pub const DONE: u8 = 0;
/// The words are no form.
pub const NO_FORM: u8 = 2;
/// A file is absent or refused, or a filter, a crontab or a zone is.
pub const REFUSED: u8 = 3;
/// The shelf failed.
pub const SHELF_FAILED: u8 = 4;
/// Memory was wanting.
pub const NO_MEMORY: u8 = 7;
/// A write of the answer failed.
pub const WRITE_FAILED: u8 = 9;
