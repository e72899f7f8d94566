use rb_causes::Clock;
use std::time::{Clock as Time, SystemTime, UNIX_EPOCH};

// The end of 2199, in seconds since 1970.
const LAST: u64 = 7_258_118_399;

/// The system's clock. Where it is out of range, the nearest end of the range is told; where it
/// cannot be read, the first moment.
#[derive(Drop)]
pub struct SystemClock<'a, R: Time> {
    rt: &'a R,
}

impl<'a, R: Time> SystemClock<'a, R> {
    pub fn new(rt: &'a R) -> SystemClock<'a, R> {
        SystemClock { rt }
    }
}

impl<'a, R: Time> Clock for SystemClock<'a, R> {
    ghost may_be = { λ _ _. Unit {0} };

    fn now(&self) -> i64 {
        match SystemTime::now(self.rt) {
            Ok(time) => match time.duration_since(UNIX_EPOCH) {
                Ok(duration) => duration.as_secs().min(LAST) as i64,
                Err(_) => 0,
            },
            Err(_) => 0,
        }
    }
}
