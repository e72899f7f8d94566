//! When jobs are due.
ghost use Rattle.rb_cron.specs.Next.{next_due};
ghost use Rattle.rb_tables.specs.Due.{has_come, next_of};
ghost use Rattle.std.specs.Prelude.{◌≡◌};

use rb_cron::Schedule;
use rb_cron::laws::{next_is_least, next_is_one};
use rb_plan::HeldJob;

/// The first instant of a schedule behind a moment.
fn next_behind(schedule: &Schedule, looked: i64) -> Option<i64>
    ensures { result ≡ next_due schedule.now looked }
{
    next_is_least();
    next_is_one();
    match schedule.next(looked) {
        Ok(found) => found,
        // It never wants for memory.
        Err(_) => None,
    }
}

/// The first instant for which a job is due since it was looked at last, whenever that comes; None
/// where the job or its schedule is not enabled.
pub fn next_of(held: &HeldJob) -> Option<i64>
    ensures { result ≡ next_of held.now }
{
    if !held.job.enabled || !held.job.schedule_enabled {
        return None;
    }
    match &held.job.schedule {
        None => None,
        Some(schedule) => next_behind(schedule, held.looked),
    }
}

/// Whether such an instant has come.
pub fn has_come(next: Option<i64>, now: i64) -> bool
    ensures { result ≡ has_come now next }
{
    match next {
        None => false,
        Some(instant) => instant <= now,
    }
}
