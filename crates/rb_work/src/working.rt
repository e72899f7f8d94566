//! A worker: pumps, until no door is open and nothing runs.
ghost use Rattle.rb_causes.specs.Causes.{Rose};
ghost use Rattle.rb_work.specs.Working.{HasWorkedOn, bad_by, is_bad};
ghost use Rattle.rb_work.specs.declared.pumped.Pumped.TheVariants as pumped;
ghost use Rattle.std.specs.Prelude.{◌≡◌, ◌≤◌, Contains, true, false};

use crate::pumped::Pumped;
use crate::pumping::pump;
use crate::resting::Resting;
use rb_causes::{Clock, Spawner};
use rb_log::Clerk;
use std::sync::Wait;
use std::time;
use std::time::Duration;

/// A worker ends where so many of its pumps in a row said that the keeper failed, or that memory
/// was wanting.
const MOST_BAD: u32 = 16;

/// Whether the keeper failed, or memory was wanting.
fn is_bad(said: Pumped) -> bool
    ensures { result ≡ is_bad said }
{
    match said {
        Pumped::StoreFault => true,
        Pumped::NoMemory => true,
        Pumped::Idle => false,
        Pumped::Closed => false,
        Pumped::Limit => false,
    }
}

/// Whether no door is open and nothing runs.
fn is_closed(said: Pumped) -> bool
    ensures yes { result ≡ true → said ≡ pumped.Closed }
    ensures no { result ≡ false → said ≡ pumped.Closed → ⊥ }
{
    match said {
        Pumped::Closed => true,
        Pumped::StoreFault => false,
        Pumped::NoMemory => false,
        Pumped::Idle => false,
        Pumped::Limit => false,
    }
}

/// How many bad results came last, behind one more.
fn bad_after(bad: u32, said: Pumped) -> u32
    requires { bad ≤ 15 }
    ensures { result ≡ bad_by (is_bad said) bad }
{
    if is_bad(said) { bad + 1 } else { 0 }
}

/// Pumps one task at a time until a pump says Closed, or until 16 in a row say StoreFault or
/// NoMemory; gives the last word. Behind a pump that started nothing it rests, for twice as long
/// each time, from 1 ms to `rest`. Workers with one `rest` then wake one after another, 10 ms apart.
pub fn work<R: Wait + time::Clock, C: Clerk, S: Spawner, T: Clock>(
    rt: &R,
    clerk: &mut C,
    spawner: &mut S,
    clock: &T,
    worker: u32,
    rest: Duration,
) -> Pumped
    requires { Contains (C.told clerk.old).rights.workers worker }
    ensures worked { HasWorkedOn (T.may_be clock.now) worker
        (record { clerk = C.told clerk.old; spawner = S.shown spawner.old })
        (record { clerk = C.told clerk.new; spawner = S.shown spawner.new }) result }
    ensures store { result ≡ Pumped.StoreFault
        → Rose (C.told clerk.old).faults (C.told clerk.new).faults }
    ensures faults { (S.shown spawner.old).faults ≤ (S.shown spawner.new).faults }
    ensures clerk { (C.told clerk.old).faults ≤ (C.told clerk.new).faults }
    ensures who { (C.told clerk.new).who ≡ (C.told clerk.old).who }
{
    let mut bad = 0u32;
    let mut resting = Resting::new(worker, rest);
    for _ in rt.forever() {
        let said = pump(clerk, spawner, clock, worker, Some(1));
        if is_closed(said) {
            return said;
        }
        bad = bad_after(bad, said);
        if bad == MOST_BAD {
            return said;
        }
        resting.behind(rt, said);
    }
    unreachable!()
}
