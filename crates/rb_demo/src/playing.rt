//! The demo, played on a desk.
ghost use Rattle.rb_demo.specs.Counting.{IsPlayed};
ghost use Rattle.rb_demo.specs.Rounds.{opened_told};
ghost use Rattle.rb_desk.specs.Steps.{told_of};
ghost use Rattle.std.specs.Prelude.{◌≡◌, ◌≤◌, IfOk};

use crate::asking::MOMENT;
use crate::counts::{Counts, count_of, succeeded};
use crate::even_nodes::allowed;
use crate::rounds::run_all;
use crate::zero_spawner::ZeroSpawner;
use rb_causes::{NoMemory, SteadyKeeper};
use rb_desk::{Desk, OpenErr, Solo};
use rb_log::laws::accepts_begin;
use rb_tables::kinds::{ACCEPT, BEGIN};
use std::alloc::Global;

/// A desk of one door and one worker, with no row but that of its opening.
fn open(alloc: Global) -> Result<Desk<SteadyKeeper>, NoMemory>
    ensures { IfOk result (λ desk. told_of (λ _. 0) desk ≡ opened_told) }
{
    let keeper = SteadyKeeper::new(alloc, Vec::new(alloc));
    match Desk::open(alloc, keeper, 1, 1, 0, 1_000_000, MOMENT) {
        Ok(desk) => Ok(desk),
        Err((_keeper, OpenErr::NoMemory)) => Err(NoMemory),
        Err((_keeper, OpenErr::StoreFault)) => unreachable!(),
        Err((_keeper, OpenErr::BadStore(_))) => unreachable!(),
        Err((_keeper, OpenErr::Full)) => unreachable!(),
    }
}

/// Asks a desk all that the demo asks, and counts.
fn counted(
    clerk: &mut Solo<'_, SteadyKeeper>,
    alloc: Global,
    nodes: u32,
) -> Result<Counts, NoMemory>
    requires few { (1 ≤ nodes) × (nodes ≤ 1000) }
    requires opened { told_of (λ _. 0) clerk.old.desk.now ≡ opened_told }
    ensures { IfOk result (λ counts. IsPlayed nodes counts) }
{
    let mut spawner = ZeroSpawner::new(alloc);
    let denied = run_all(clerk, &mut spawner, alloc, nodes)?;
    let accepted = count_of(clerk.desk.log(), ACCEPT);
    let begins = count_of(clerk.desk.log(), BEGIN);
    accepts_begin();
    let succeeded = succeeded(clerk.desk, accepted);
    Ok(Counts {
        nodes: u64::from(nodes),
        allowed: allowed(nodes),
        accepted,
        denied,
        begins,
        succeeded,
    })
}

/// Plays the demo on a desk of so many nodes (1 to 1,000), and counts what has become of it.
/// NoMemory where memory was wanting, and for nothing else.
pub fn play(alloc: Global, nodes: u32) -> Result<Counts, NoMemory>
    requires few { (1 ≤ nodes) × (nodes ≤ 1000) }
    ensures { IfOk result (λ counts. IsPlayed nodes counts) }
{
    let mut desk = open(alloc)?;
    let mut clerk = Solo {
        desk: &mut desk,
        alloc,
    };
    let counts = counted(&mut clerk, alloc, nodes);
    let Solo { desk: _, alloc: _ } = clerk;
    counts
}
