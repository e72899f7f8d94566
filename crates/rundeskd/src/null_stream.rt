use std::fs::{File, OpenOptions};
use std::os::fd::AsRawFd;
use std::rt::Files;

// The numbers of the standard streams.
const STANDARD_INPUT: i32 = 0;

const STANDARD_OUTPUT: i32 = 1;

const STANDARD_ERROR: i32 = 2;

/// Opens the null device in the place of the first standard stream that was closed when the program
/// was started, so that a read of standard input and a write of standard output fail as before;
/// none where all of them are open, or the device cannot be opened.
///
/// The system gives what is opened the lowest number that is free. So a caller's connection or a
/// store would be taken for standard error, and what steps write would stand in it.
pub fn null_stream<R: Files<File = File>>(rt: &R) -> Option<File> {
    let free = null_device(rt, true, true)?.as_raw_fd();
    match free {
        STANDARD_INPUT => null_device(rt, false, true),
        STANDARD_OUTPUT => null_device(rt, true, false),
        STANDARD_ERROR => null_device(rt, true, true),
        _ => None,
    }
}

fn null_device<R: Files<File = File>>(rt: &R, reads: bool, writes: bool) -> Option<File> {
    OpenOptions::new()
        .read(reads)
        .write(writes)
        .open(rt, "/dev/null")
        .ok()
}
