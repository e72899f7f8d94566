//! Each function is a law, with nothing to run.
ghost use Rattle.rb_session_laws.specs.Due.{DueJobsAreFired, TicksFire};
ghost use Rattle.rb_session_laws.specs.Origins.{RowsAreAsked};
ghost use Rattle.rb_session_laws.specs.Programs.{ProgramsAreBegun, RowsAreOfKinds};
ghost use Rattle.rb_session_laws.specs.Steady.{SteadyEndsWell};
ghost use Rattle.rb_session_laws.specs.Statuses.{EightIsBadRow, ElevenIsTooMany, TenIsFull, ThreeIsRefused, TwoIsNoForm, ZeroHasEnded, ZeroIsWell};

use rb_causes::Clock;
use rb_cron::laws::next_is_one;
use rb_door::laws::{acts_are_true, turns_stay_true};
use rb_log::laws::{
    beginnings_are_legal, begins_are_tasks, caller_is_kept, claim_answers, due_ask_is_kept,
    due_is_least, first_is_first, importers_are_clean, looked_is_past, none_is_none,
    rows_are_of_calls,
};
use rb_session::laws::{courses_act, courses_run, works_are_all};

/// The rows behind the opening are those of what the desk was asked, in order.
pub fn rows_are_asked<T: Clock>(clock: &T)
    ensures { RowsAreAsked (T.may_be clock.now) }
{
    acts_are_true();
    courses_act(clock);
}

/// Each row behind the opening is of a kind that the call of its record adds.
pub fn rows_are_of_kinds<T: Clock>(clock: &T)
    ensures { RowsAreOfKinds (T.may_be clock.now) }
{
    rows_are_of_calls();
    acts_are_true();
    courses_act(clock);
}

/// The programs that were started are those of the Begin rows behind the opening.
pub fn programs_are_begun<T: Clock>(clock: &T)
    ensures { ProgramsAreBegun (T.may_be clock.now) }
{
    begins_are_tasks();
    acts_are_true();
    turns_stay_true();
    courses_act(clock);
    courses_run(clock);
    works_are_all(clock);
}

/// In any log a true record of a Tick fires the first job that is due, unless it tells a cause.
pub fn ticks_fire()
    ensures { TicksFire }
{
    next_is_one();
    none_is_none();
    first_is_first();
    due_is_least();
    due_ask_is_kept();
}

/// A due job is fired by the next Tick: its row says so, with the verdict.
pub fn due_jobs_are_fired<T: Clock>(clock: &T)
    ensures { DueJobsAreFired (T.may_be clock.now) }
{
    ticks_fire();
    beginnings_are_legal();
    looked_is_past();
    importers_are_clean();
    caller_is_kept();
    acts_are_true();
    courses_act(clock);
}

/// 2 is told only of words that are of no form, and then nothing was called.
pub fn two_is_no_form<T: Clock>(_clock: &T)
    ensures { TwoIsNoForm (T.may_be _clock.now) }
{}

/// 3 is told only where a file was refused, when it was fetched or when it was imported.
pub fn three_is_refused<T: Clock>(_clock: &T)
    ensures { ThreeIsRefused (T.may_be _clock.now) }
{}

/// 8 is told only of a row in the store that may not stand there, and then the store stays.
pub fn eight_is_bad_row<T: Clock>(_clock: &T)
    ensures { EightIsBadRow (T.may_be _clock.now) }
{}

/// 10 is told only where a row found no room: that of the opening, or that of an import.
pub fn ten_is_full<T: Clock>(_clock: &T)
    ensures { TenIsFull (T.may_be _clock.now) }
{}

/// 11 is told only behind 1,000,000 callers, where one more came.
pub fn eleven_is_too_many<T: Clock>(_clock: &T)
    ensures { ElevenIsTooMany (T.may_be _clock.now) }
{}

/// 0 is told only where all that was begun has ended, and all is kept.
pub fn zero_is_well<T: Clock>(_clock: &T)
    ensures { ZeroIsWell (T.may_be _clock.now) }
{}

/// And then no door is open at the end of the log, and nothing is running.
pub fn zero_has_ended<T: Clock>(clock: &T)
    ensures { ZeroHasEnded (T.may_be clock.now) }
{
    claim_answers();
    acts_are_true();
    courses_act(clock);
}

/// Where no object fails and all is there that a session needs, it ends with 0, or memory was
/// wanting.
pub fn steady_ends_well<T: Clock>(clock: &T)
    ensures { SteadyEndsWell (T.may_be clock.now) }
{
    beginnings_are_legal();
    acts_are_true();
    courses_act(clock);
}
