ghost use Rattle.rb_causes.specs.Spawners.{Ran};
ghost use Rattle.rb_causes.specs.declared.spawner.SpawnRun.{SpawnRun};
ghost use Rattle.rb_marks.specs.First.{first_startable};
ghost use Rattle.rb_marks.specs.Units.{outline};
ghost use Rattle.rb_top.specs.Drill.{drill_plan, executed, starts};
ghost use Rattle.rb_top.specs.Play.{Start};
ghost use Rattle.rb_top.specs.Played.{Played, BrokenOff, PlaysTo};
ghost use Rattle.std.specs.Prelude.{◌≡◌, ◌<◌, ◌^◌, ◌*◌, ◌∷◌, [], ℕ, List, Ok, suc, true, false, length, IfOk, IfErr};

use crate::output::{print_end, print_start};
use crate::script::DrillJob;
use rb_causes::{Ending, NoMemory, Sink, Spawner, Text, Trouble};
use rb_flow::Flow;
use std::alloc::Global;

/// Starts programs until nothing is startable, at most one for each leaf.
pub(crate) fn play_starts<S: Spawner, O: Sink>(
    alloc: Global,
    nodes: &[Text],
    job: &DrillJob,
    flow: &mut Flow,
    spawner: &mut S,
    out: &mut O,
) -> Result<(), Trouble>
    requires plan { outline flow.old.plan ≡ drill_plan nodes.now job.now }
    requires numbered { (length nodes.now < 2 ^ 32) × (length job.now.steps < 2 ^ 32) }
    ensures plan { flow.new.plan ≡ flow.old.plan }
    ensures plays { (user : List ℕ) → let leaves = length nodes.now * length job.now.steps in
        PlaysTo (executed leaves user nodes.now job.now flow.old.marks)
        (λ done next. next flow.new.marks)
        (S.shown spawner.old) (S.shown spawner.new) (O.shown out.old) (O.shown out.new) result }
{
    let leaves = nodes.len() as u64 * job.steps.len() as u64;
    for _turn in 0..leaves {
        if !play_one(alloc, nodes, job, flow, spawner, out)? {
            return Ok(());
        }
    }
    Ok(())
}

// Starts the first startable leaf, if there is one, and tells whether there was.
fn play_one<S: Spawner, O: Sink>(
    alloc: Global,
    nodes: &[Text],
    job: &DrillJob,
    flow: &mut Flow,
    spawner: &mut S,
    out: &mut O,
) -> Result<bool, Trouble>
    requires { outline flow.old.plan ≡ drill_plan nodes.now job.now }
    ensures plan { flow.new.plan ≡ flow.old.plan }
    ensures more { (user : List ℕ) (fuel : ℕ) → result ≡ Ok true
        → Played (executed (suc fuel) user nodes.now job.now flow.old.marks)
        (executed fuel user nodes.now job.now flow.new.marks)
        (S.shown spawner.old) (S.shown spawner.new) (O.shown out.old) (O.shown out.new) }
    ensures none { (user : List ℕ) (fuel : ℕ) → result ≡ Ok false
        → Played (executed fuel user nodes.now job.now flow.old.marks) (λ next. next flow.new.marks)
        (S.shown spawner.old) (S.shown spawner.new) (O.shown out.old) (O.shown out.new) }
    ensures err { (user : List ℕ) (fuel : ℕ) → IfErr result (λ trouble.
        BrokenOff trouble (executed (suc fuel) user nodes.now job.now flow.old.marks)
        (S.shown spawner.old) (S.shown spawner.new) (O.shown out.old) (O.shown out.new)) }
{
    let Some(leaf) = flow.first_startable() else {
        return Ok(false);
    };
    flow.ready()?;
    let node = &nodes[leaf.node as usize];
    let words = job.steps.as_slice()[leaf.slot as usize].as_slice();
    let ending = start(alloc, node, u64::from(leaf.slot) + 1, words, spawner, out)?;
    flow.begin(leaf);
    flow.finish(leaf, ending);
    Ok(true)
}

// Starts one program, with a line before it and a line behind its end.
fn start<S: Spawner, O: Sink>(
    alloc: Global,
    node: &Text,
    step: u64,
    words: &[Text],
    spawner: &mut S,
    out: &mut O,
) -> Result<Ending, Trouble>
    ensures { (user : List ℕ) → let start : Start =
        record { user = user; node = node.now; step = step; words = words.now } in
        PlaysTo (starts start) (λ ending next. next ending)
        (S.shown spawner.old) (S.shown spawner.new) (O.shown out.old) (O.shown out.new) result }
{
    // What may want memory comes first, so that the line is printed only where the program is then
    // run.
    spawner.ready()?;
    let owned = copy_of(alloc, words)?;
    print_start(alloc, out, node, step, words)?;
    let ending = run(spawner, owned);
    print_end(alloc, out, node, step, ending)?;
    Ok(ending)
}

// Runs the words; a failed run counts as not started.
fn run<S: Spawner>(spawner: &mut S, words: Vec<Text>) -> Ending
    requires { 0 < S.room spawner.old }
    ensures { let run : SpawnRun = record { words = words.items; ending = result } in
        Ran (run ∷ []) (S.shown spawner.old) (S.shown spawner.new) }
{
    match spawner.run(words) {
        Ok(ending) => ending,
        Err(_) => Ending::NotStarted,
    }
}

fn copy_of(alloc: Global, words: &[Text]) -> Result<Vec<Text>, NoMemory>
    ensures { IfOk result (λ copy. copy.items ≡ words.now) }
{
    let mut copy = Vec::new(alloc);
    for word in words {
        copy.push(word.copy(alloc)?)?;
    }
    Ok(copy)
}
