//! An execution as it begins.
ghost use Rattle.rb_acl.specs.Naming.{IsNamed};
ghost use Rattle.rb_log.specs.Asks.{ask_text};
ghost use Rattle.rb_log.specs.Executions.{Execution as LoggedExecution, dropped_view, started};
ghost use Rattle.rb_log.specs.Rows.{accept_row};
ghost use Rattle.rb_marks.specs.Sound.{IsSound};
ghost use Rattle.rb_marks.specs.Units.{outline};
ghost use Rattle.rb_plan.specs.Acceptance.{acceptance};
ghost use Rattle.rb_runs.specs.Asking.{AreNamed};
ghost use Rattle.rb_tables.specs.Running.{as_running};
ghost use Rattle.rb_tables.specs.Tables.{IsEntry, IsOf};
ghost use Rattle.std.specs.Prelude.{◌≡◌, ◌≤◌, ◌<◌, ◌+◌, ◌*◌, [], length, map, vec_capacity, IfOk};

use crate::ask_text::ask_text;
use rb_acl::{Caller, Policies};
use rb_causes::{Items, NoMemory, Row, Text};
use rb_flow::Flow;
use rb_log::DroppedView;
use rb_node::Node;
use rb_plan::{Accepted, Dropped, RunAsk, Running, World};
use rb_tables::execution::Execution;
use rb_tables::job_id::JobId;
use rb_tables::kinds::ACCEPT;
use rb_tables::permissions::decision_text;
use rb_tables::progress::{Progress, is_running};
use rb_tables::who::who_text;
use std::alloc::Global;

/// A dropped node with the text of its clause.
fn dropped_view(
    alloc: Global,
    policies: &Policies,
    dropped: &Dropped,
) -> Result<DroppedView, NoMemory>
    requires { IsNamed policies.now dropped.now.decision }
    ensures { IfOk result (λ view. view ≡ dropped_view policies.now dropped.now) }
{
    let clause = decision_text(alloc, policies, dropped.decision)?;
    let node = dropped.node.copy(alloc)?;
    Ok(DroppedView { clause, node })
}

/// Each dropped node with the text of its clause.
fn dropped_views(
    alloc: Global,
    policies: &Policies,
    dropped: &[Dropped],
) -> Result<Items<DroppedView>, NoMemory>
    requires { AreNamed policies.now dropped.now }
    ensures { IfOk result (λ views. views ≡ map (dropped_view policies.now) dropped.now) }
{
    let mut views = Items::new(alloc);
    for one in dropped {
        views.push(dropped_view(alloc, policies, one)?)?;
    }
    Ok(views)
}

/// The names of these nodes.
fn node_names(alloc: Global, nodes: &[Node]) -> Result<Items<Text>, NoMemory>
    ensures { IfOk result (λ names. names ≡ map (λ n. n.name) nodes.now) }
{
    let mut names = Items::new(alloc);
    for node in nodes {
        names.push(node.name.copy(alloc)?)?;
    }
    Ok(names)
}

/// The execution of an accepted run as it begins.
pub(crate) fn started(
    alloc: Global,
    world: &World,
    number: u64,
    at: i64,
    caller: Caller,
    accepted: Accepted,
) -> Result<Execution, NoMemory>
    requires sound { IsSound (outline accepted.plan) }
    requires nodes { length accepted.nodes ≡ length (outline accepted.plan).tiers }
    requires named { AreNamed world.now.policies accepted.dropped }
    ensures { IfOk result (λ execution.
        IsEntry execution (started world.now number at caller (acceptance accepted))) }
{
    let Accepted {
        project,
        job,
        plan,
        nodes,
        commands,
        values,
        dropped,
    } = accepted;
    let dropped = dropped_views(alloc, &world.policies, dropped.as_slice())?;
    let names = node_names(alloc, nodes.as_slice())?;
    let flow = Flow::open(alloc, plan)?;
    let progress = Progress::begun(alloc, flow, nodes, commands)?;
    Ok(Execution {
        number,
        at,
        caller,
        policy_number: world.policy_number,
        project,
        job: JobId::of(job),
        nodes: names,
        values,
        dropped,
        withdrawn: Vec::new(alloc),
        progress,
    })
}

/// The row of a run that was accepted.
pub(crate) fn accept_row(
    alloc: Global,
    at: i64,
    number: u64,
    policy_number: u64,
    inventory_number: u64,
    caller: &Caller,
    ask: &RunAsk,
    due: Option<u64>,
) -> Result<Row, NoMemory>
    ensures { IfOk result (λ row. row ≡ accept_row at number policy_number inventory_number
        ask.now.job caller.now (ask_text ask.now due)) }
{
    Ok(Row {
        kind: ACCEPT,
        at,
        a: number,
        b: policy_number,
        c: inventory_number,
        name: ask.job.copy(alloc)?,
        who: who_text(alloc, caller)?,
        body: ask_text(alloc, ask, due)?,
    })
}

/// For how many rows there has to be room: the Accept, an abort, and a Begin and an End of each
/// leaf.
pub(crate) fn need_of(accepted: &Accepted) -> u64
    requires commands { length accepted.now.commands ≡ (outline accepted.now.plan).slots }
    requires few { length accepted.now.nodes * (outline accepted.now.plan).slots ≤ 100000 }
    ensures { result
        ≡ 2 + 2 * (length accepted.now.nodes * (outline accepted.now.plan).slots) }
{
    let leaves = accepted.nodes.len() as u64 * accepted.commands.len() as u64;
    2 + 2 * leaves
}

/// What a verdict looks at of an execution, where it runs.
pub(crate) fn as_running(alloc: Global, execution: &Execution) -> Result<Option<Running>, NoMemory>
    ensures { (l : LoggedExecution) → IsOf execution.now l →
        IfOk result (λ new. new ≡ as_running l) }
{
    if !is_running(execution.progress.status()) {
        return Ok(None);
    }
    let job = execution.job.copy(alloc)?;
    Ok(Some(Running {
        execution: execution.number,
        job,
    }))
}

/// Memory for these and one more, and for as many again, so that they are moved seldom.
pub(crate) fn room_for(alloc: Global, there: &[Running]) -> Result<Vec<Running>, NoMemory>
    ensures empty { IfOk result (λ room. room.items ≡ []) }
    ensures memory { IfOk result (λ room. length there.now < vec_capacity room) }
{
    let room = Vec::with_capacity(alloc, there.len().saturating_mul(2).saturating_add(1))?;
    Ok(room)
}
