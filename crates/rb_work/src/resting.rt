//! How long a worker rests where there is nothing to do.
use crate::pumped::Pumped;
use std::time::Duration;
use std::{thread, time};

/// How long a worker rests first, in milliseconds.
const SHORTEST: u64 = 1;

/// How far the moments of a worker and of the next one lie apart, in milliseconds.
const APART: u64 = 10;

/// The rests of one worker, in milliseconds. Each is twice as long as the one before it, up to a
/// round; in each round the worker has a moment of its own, and no rest goes beyond it. So of many
/// workers who find nothing to do one wakes every 10 ms, in place of all at once.
#[derive(Drop)]
pub(crate) struct Resting {
    worker: u32,
    /// How long a round is.
    round: u64,
    next: u64,
}

impl Resting {
    /// Those of the worker of this number, with rounds of this length.
    pub(crate) fn new(worker: u32, round: Duration) -> Resting {
        Resting {
            worker,
            round: millis(round),
            next: SHORTEST,
        }
    }

    /// Rests behind a pump that started nothing.
    pub(crate) fn behind<R: time::Clock>(&mut self, rt: &R, said: Pumped) {
        if said == Pumped::Limit {
            self.next = SHORTEST;
            return;
        }
        let rest = self.next.min(self.until_moment(rt));
        thread::sleep(rt, Duration::from_millis(rest));
        self.next = self.next.saturating_mul(2).min(self.round);
    }

    /// How long it is until the worker's moment: a round at most.
    fn until_moment<R: time::Clock>(&self, rt: &R) -> u64 {
        let round = self.round;
        if round == 0 {
            return SHORTEST;
        }
        let own = u64::from(self.worker).saturating_mul(APART) % round;
        let past = millis(rt.monotonic().unwrap_or(Duration::ZERO)) % round;
        if past < own {
            return own - past;
        }
        round.saturating_sub(past).saturating_add(own)
    }
}

fn millis(time: Duration) -> u64 {
    let seconds = time.as_secs().saturating_mul(1000);
    seconds.saturating_add(u64::from(time.subsec_millis()))
}
