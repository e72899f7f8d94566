//! The runs of the demo.
ghost use Rattle.rb_demo.specs.Asking.{IsOn, AreReadyRights, PlaysRound, refusals};
ghost use Rattle.rb_demo.specs.Going.{IsDemoDesk, IsDemoJob};
ghost use Rattle.rb_demo.specs.Hearing.{IsAlone};
ghost use Rattle.rb_demo.specs.Rounds.{HasPlayed, PumpsIf, Round, refused_in, setting_of};
ghost use Rattle.rb_demo.specs.Settings.{opened_log};
ghost use Rattle.std.specs.Prelude.{◌≡◌, ◌≤◌, ◌+◌, ℕ, IfOk, List, OnOk};

use crate::asking::{MOMENT, import_all, run};
use crate::laws::world_is_demo;
use rb_causes::{FixedClock, NoMemory, Spawner};
use rb_log::Clerk;
use rb_log::laws::{ask_is_kept, claim_answers, room_is_kept};
use rb_plan::laws::leaves_are_few;
use rb_work::{Pumped, pump};
use std::alloc::Global;

/// Where a run was accepted, worker 0 works off all that may start.
fn work_if<C: Clerk, S: Spawner>(
    accepted: bool,
    clerk: &mut C,
    spawner: &mut S,
) -> Result<(), NoMemory>
    requires alone { IsAlone C.told }
    requires ready { AreReadyRights (C.told clerk.old).rights }
    ensures { OnOk result (PumpsIf accepted
        (record { clerk = C.told clerk.old; spawner = S.shown spawner.old })
        (record { clerk = C.told clerk.new; spawner = S.shown spawner.new })) }
{
    claim_answers();
    if !accepted {
        return Ok(());
    }
    let clock = FixedClock { at: MOMENT };
    match pump(clerk, spawner, &clock, 0, None) {
        Pumped::Idle => Ok(()),
        Pumped::NoMemory => Err(NoMemory),
        Pumped::Closed => unreachable!(),
        Pumped::Limit => unreachable!(),
        Pumped::StoreFault => unreachable!(),
    }
}

/// How many of ann's and bob's runs of a job are refused. What ann's run begins is worked off
/// before bob asks.
fn round<C: Clerk, S: Spawner>(
    clerk: &mut C,
    spawner: &mut S,
    alloc: Global,
    job: &str,
) -> Result<u64, NoMemory>
    requires alone { IsAlone C.told }
    requires ready { AreReadyRights (C.told clerk.old).rights }
    requires job { IsDemoJob job.now }
    requires going { IsDemoDesk 2 (C.told clerk.old) }
    ensures round { IfOk result (λ refused. PlaysRound job.now
        (record { clerk = C.told clerk.old; spawner = S.shown spawner.old })
        (record { clerk = C.told clerk.new; spawner = S.shown spawner.new }) refused) }
    ensures going { OnOk result ((most : ℕ) → most ≤ 2 → IsDemoDesk most (C.told clerk.old) →
        IsDemoDesk (most + 1) (C.told clerk.new)) }
{
    room_is_kept();
    ask_is_kept();
    leaves_are_few();
    let ann = run(clerk, alloc, "ann", job)?;
    work_if(ann, clerk, spawner)?;
    let bob = run(clerk, alloc, "bob", job)?;
    Ok(refusals(ann, bob))
}

/// How many of two runs are refused.
fn refusals(ann: bool, bob: bool) -> u64
    ensures { result ≡ refusals ann bob }
{
    u64::from(!ann) + u64::from(!bob)
}

/// Imports the documents, has ann and bob ask for each job, and says how many runs were refused.
pub(crate) fn run_all<C: Clerk, S: Spawner>(
    clerk: &mut C,
    spawner: &mut S,
    alloc: Global,
    nodes: u32,
) -> Result<u64, NoMemory>
    requires few { (1 ≤ nodes) × (nodes ≤ 1000) }
    requires alone { IsAlone C.told }
    requires log { IsOn (setting_of nodes) (opened_log (setting_of nodes)) (C.told clerk.old) }
    requires ready { AreReadyRights (C.told clerk.old).rights }
    ensures { IfOk result (λ denied. (rounds : List Round) × HasPlayed nodes
        (record { clerk = C.told clerk.old; spawner = S.shown spawner.old })
        (record { clerk = C.told clerk.new; spawner = S.shown spawner.new }) rounds
        × (denied ≡ refused_in rounds)) }
{
    world_is_demo();
    import_all(clerk, alloc, nodes)?;
    let first = round(clerk, spawner, alloc, "demo-1")?;
    let second = round(clerk, spawner, alloc, "demo-2")?;
    let third = round(clerk, spawner, alloc, "demo-3")?;
    Ok(first + second + third)
}
