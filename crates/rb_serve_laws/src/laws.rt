//! Each function is a law, with nothing to run.
ghost use Rattle.rb_serve.specs.Roles.{senses_of};
ghost use Rattle.rb_serve_laws.specs.OneLog.{ServersHaveOneLog};
ghost use Rattle.rb_serve_laws.specs.Statuses.{ZeroHasEnded, ZeroIsWell};
ghost use Rattle.rb_serve_laws.specs.Steady.{SteadyEndsWell};

use rb_causes::{Clock, Keeper, Line, Spawner};
use rb_door::laws::{acts_are_true, talks_follow, turns_stay_true};
use rb_log::laws::{beginnings_are_legal, begins_are_tasks, claim_answers, rows_are_of_calls};
use rb_work::laws::pump_laws;

/// All replies, programs and rows of a server are told by one log, whatever its threads did when.
pub fn servers_have_one_log<K: Keeper, L: Line + Drop, S: Spawner + Drop, T: Clock>(clock: &T)
    ensures { ServersHaveOneLog K.faults
        (λ tokens. senses_of (T.may_be clock.now) tokens L.callers L.faults S.shown) }
{
    acts_are_true();
    turns_stay_true();
    talks_follow();
    begins_are_tasks();
    pump_laws();
}

/// 0 is told only where all parts ended well, and all is kept.
pub fn zero_is_well<K: Keeper, L: Line + Drop, S: Spawner + Drop, T: Clock>(_clock: &T)
    ensures { ZeroIsWell K.faults
        (λ tokens. senses_of (T.may_be _clock.now) tokens L.callers L.faults S.shown) }
{}

/// And then no door is open at the end of the log, and nothing is running, where a worker worked.
pub fn zero_has_ended<K: Keeper, L: Line + Drop, S: Spawner + Drop, T: Clock>(_clock: &T)
    ensures { ZeroHasEnded K.faults
        (λ tokens. senses_of (T.may_be _clock.now) tokens L.callers L.faults S.shown) }
{
    claim_answers();
    rows_are_of_calls();
    acts_are_true();
    turns_stay_true();
    talks_follow();
    begins_are_tasks();
    pump_laws();
}

/// Where no object fails and all is there that a server needs, it ends with 0, or memory was
/// wanting.
pub fn steady_ends_well<K: Keeper, L: Line + Drop, S: Spawner + Drop, T: Clock>(_clock: &T)
    ensures { SteadyEndsWell K.rows K.faults (T.may_be _clock.now) L.callers L.faults S.shown }
{
    beginnings_are_legal();
    acts_are_true();
}
