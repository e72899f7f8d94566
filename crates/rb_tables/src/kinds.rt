//! The kinds of rows, each with its number.

/// An opening of the desk.
pub const OPENED: u8 = 1;

/// An import of nodes.
pub const NODES: u8 = 2;

/// An import of jobs.
pub const JOBS: u8 = 3;

/// An import of a policy file.
pub const POLICY: u8 = 4;

/// A run that was accepted.
pub const ACCEPT: u8 = 5;

/// A due run that was refused.
pub const SKIPPED: u8 = 6;

/// An abort of a run.
pub const ABORT: u8 = 7;

/// A leaf that has begun.
pub const BEGIN: u8 = 8;

/// A leaf that has ended.
pub const END: u8 = 9;

/// The end of a door.
pub const CLOSE: u8 = 10;

/// An import of a zone.
pub const ZONE: u8 = 11;

/// A node that is withdrawn.
pub const WITHDRAW: u8 = 12;
