//! A pump: what is due, and then one task after another, until there is none.
ghost use Rattle.rb_causes.specs.Causes.{Rose};
ghost use Rattle.rb_causes.specs.Moments.{IsMoment};
ghost use Rattle.rb_work.specs.OneTask.{HasStopped, HasWorkedOne};
ghost use Rattle.rb_log.specs.Records.{Record};
ghost use Rattle.rb_work.specs.Pumping.{HasPumped, HasWorkedOff};
ghost use Rattle.rb_work.specs.Ticks.{HasTicked};
ghost use Rattle.std.specs.Prelude.{◌≡◌, ◌≤◌, Contains, IfErr, List, OnOk};

use crate::hearing::{claim, report, tick};
use crate::laws::pump_laws;
use crate::left::{fewer, may_start};
use crate::pumped::Pumped;
use rb_causes::{Clock, Spawner};
use rb_log::Clerk;

/// Fires what is due, and then claims, runs and reports tasks, one after another and at one moment
/// of the clock, until a claim gives none or so many were started.
pub fn pump<C: Clerk, S: Spawner, T: Clock>(
    clerk: &mut C,
    spawner: &mut S,
    clock: &T,
    worker: u32,
    limit: Option<u64>,
) -> Pumped
    requires { Contains (C.told clerk.old).rights.workers worker }
    ensures pumped { HasPumped (T.may_be clock.now) worker limit
        (record { clerk = C.told clerk.old; spawner = S.shown spawner.old })
        (record { clerk = C.told clerk.new; spawner = S.shown spawner.new }) result }
    ensures store { result ≡ Pumped.StoreFault
        → Rose (C.told clerk.old).faults (C.told clerk.new).faults }
    ensures faults { (S.shown spawner.old).faults ≤ (S.shown spawner.new).faults }
{
    let at = clock.now();
    fire(clerk, spawner, at);
    work(clerk, spawner, worker, limit, at)
}

// Has the clerk fire one job after another, until none is due.
fn fire<C: Clerk, S: Spawner>(clerk: &mut C, spawner: &mut S, at: i64)
    requires { IsMoment at }
    ensures ticked { (ticks : List Record)
        × HasTicked at (C.told clerk.old) (C.told clerk.new) ticks }
    ensures still { S.shown spawner.new ≡ S.shown spawner.old }
{
    while tick(clerk, spawner, at) {}
}

// Works tasks off, until a claim gives none or so many were started.
fn work<C: Clerk, S: Spawner>(
    clerk: &mut C,
    spawner: &mut S,
    worker: u32,
    limit: Option<u64>,
    at: i64,
) -> Pumped
    requires moment { IsMoment at }
    requires worker { Contains (C.told clerk.old).rights.workers worker }
    ensures { HasWorkedOff at worker limit
        (record { clerk = C.told clerk.old; spawner = S.shown spawner.old })
        (record { clerk = C.told clerk.new; spawner = S.shown spawner.new }) result }
{
    pump_laws();
    let mut left = limit;
    while may_start(left) {
        match work_one(clerk, spawner, worker, at) {
            Ok(()) => left = fewer(left),
            Err(said) => return said,
        }
    }
    Pumped::Limit
}

// Claims one task, runs it and reports it, or says why there is none.
fn work_one<C: Clerk, S: Spawner>(
    clerk: &mut C,
    spawner: &mut S,
    worker: u32,
    at: i64,
) -> Result<(), Pumped>
    requires moment { IsMoment at }
    requires worker { Contains (C.told clerk.old).rights.workers worker }
    ensures one { OnOk result (HasWorkedOne at worker
        (record { clerk = C.told clerk.old; spawner = S.shown spawner.old })
        (record { clerk = C.told clerk.new; spawner = S.shown spawner.new })) }
    ensures stopped { IfErr result (λ said. HasStopped at worker
        (record { clerk = C.told clerk.old; spawner = S.shown spawner.old })
        (record { clerk = C.told clerk.new; spawner = S.shown spawner.new }) said) }
{
    pump_laws();
    // A task that was claimed has to be run, so its place is made before.
    spawner.ready()?;
    let task = claim(clerk, worker, at)?;
    let done = task.start(spawner);
    report(clerk, spawner, done, at);
    Ok(())
}
