//! One caller's connection.
ghost use Rattle.rb_tcp.specs.LineState.{ReadsOf};
ghost use Rattle.std.specs.Io.{ReadsAtMost};
ghost use Rattle.std.specs.Prelude.{◌≡◌, ◌≤◌, ◌<◌, false, length, IfOk, OnErr};

use std::io;
use std::io::{ErrorKind, Read, Write};
use std::net::{OpenStream, Shutdown};
use std::time::{Clock, Duration};

/// How long a caller may be silent, and how long he may take no byte of a reply, in seconds.
const PATIENCE: u64 = 30;

/// How long one write waits at most, in seconds. The system waits for room for all of a reply, and
/// tells only then that a part was taken: so how long nothing was taken is known to a second.
const WRITING: u64 = 1;

/// How much time goes into reading between two replies, in seconds.
const READING: u64 = 60;

/// How long, in seconds, and in how many reads, bytes are taken and dropped that a caller sends
/// behind the end.
const LEAVING: u64 = 1;

const LAST_READS: u32 = 256;

/// How often a call that a signal broke off is tried again.
const TRIES: u32 = 1000;

#[derive(Drop)]
pub(crate) struct Caller<S: Read + Write + OpenStream + Drop> {
    stream: S,
    /// Since when what comes before the next reply has been waited for.
    since: Option<Duration>,
    /// Nothing more comes: the caller has closed, was silent too long, or is gone.
    ended: bool,
}

impl<S: Read + Write + OpenStream + Drop> Caller<S> {
    /// A reply goes out at once.
    pub(crate) fn new(stream: S) -> Caller<S>
        ensures { result.ended ≡ false }
    {
        let _at_once = stream.set_nodelay(true);
        let _bounded = stream.set_write_timeout(Some(Duration::from_secs(WRITING)));
        Caller {
            stream,
            since: None,
            ended: false,
        }
    }

    /// Reads as `read` does. A caller who is silent too long, or is gone, gives the end.
    pub(crate) fn read<R: Clock>(&mut self, rt: &R, into: &mut [u8]) -> io::Result<usize>
        ensures count { ReadsAtMost result into.new }
        ensures end { IfOk result (λ n. ReadsOf self.old.ended n (length into.new) self.new.ended) }
        ensures err { OnErr result (self.new.ended ≡ self.old.ended) }
    {
        if self.ended || into.is_empty() {
            return Ok(0);
        }
        let count = self.receive(rt, into)?;
        self.ended = count == 0;
        Ok(count)
    }

    fn receive<R: Clock>(&mut self, rt: &R, into: &mut [u8]) -> io::Result<usize>
        ensures count { ReadsAtMost result into.new }
        ensures ended { self.new.ended ≡ self.old.ended }
    {
        for _ in 0..TRIES {
            let wait = self.wait(rt)?;
            if wait.is_zero() {
                return Ok(0);
            }
            self.stream.set_read_timeout(Some(wait))?;
            match self.stream.read(into) {
                Ok(count) => return Ok(count),
                Err(error) if error.kind() == ErrorKind::Interrupted => {}
                Err(error) if is_gone(error.kind()) => return Ok(0),
                Err(error) => return Err(error),
            }
        }
        Ok(0)
    }

    /// How long the next read may wait.
    fn wait<R: Clock>(&mut self, rt: &R) -> io::Result<Duration>
        ensures { self.new.ended ≡ self.old.ended }
    {
        let now = rt.monotonic()?;
        let since = *self.since.get_or_insert(now);
        let left = Duration::from_secs(READING).saturating_sub(now.saturating_sub(since));
        Ok(left.min(Duration::from_secs(PATIENCE)))
    }

    /// Writes as `write` does. A caller who takes nothing for too long is a fault.
    pub(crate) fn write<R: Clock>(&mut self, rt: &R, from: &[u8]) -> io::Result<usize>
        ensures count { IfOk result (λ n. (n ≤ length from.now) × (0 < length from.now → 0 < n)) }
        ensures ended { self.new.ended ≡ self.old.ended }
    {
        if from.is_empty() {
            return Ok(0);
        }
        let begin = rt.monotonic()?;
        for _ in 0..TRIES {
            match self.stream.write(from) {
                Ok(0) => break,
                Ok(count) => {
                    self.since = None;
                    return Ok(count);
                }
                Err(error) if is_waiting(error.kind()) => {}
                Err(error) => return Err(error),
            }
            if rt.monotonic()?.saturating_sub(begin) >= Duration::from_secs(PATIENCE) {
                break;
            }
        }
        Err(io::Error::from(ErrorKind::TimedOut))
    }

    /// Ends the connection. What the caller still sends is taken for a moment and dropped: bytes
    /// that nobody reads make the system break the connection off, and lose a reply on its way.
    pub(crate) fn leave<R: Clock>(mut self, rt: &R) {
        let _told = self.stream.shutdown(Shutdown::Write);
        if let Ok(begin) = rt.monotonic() {
            self.drop_input(rt, begin);
        }
    }

    fn drop_input<R: Clock>(&mut self, rt: &R, begin: Duration) {
        let mut dropped = [0u8; 4096];
        for _ in 0..LAST_READS {
            let Ok(now) = rt.monotonic() else {
                return;
            };
            let left = Duration::from_secs(LEAVING).saturating_sub(now.saturating_sub(begin));
            if left.is_zero() || self.stream.set_read_timeout(Some(left)).is_err() {
                return;
            }
            match self.stream.read(&mut dropped) {
                Ok(0) | Err(_) => return,
                Ok(_) => {}
            }
        }
    }
}

/// The caller was silent for the time that a read waits, or has broken the connection off.
fn is_gone(kind: ErrorKind) -> bool {
    matches!(
        kind,
        ErrorKind::WouldBlock | ErrorKind::TimedOut | ErrorKind::ConnectionReset
    )
}

/// Nothing was taken in the time that a write waits, or a signal broke it off.
fn is_waiting(kind: ErrorKind) -> bool {
    matches!(kind, ErrorKind::WouldBlock | ErrorKind::Interrupted)
}
