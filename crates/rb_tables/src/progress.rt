//! How far an execution has come.
ghost use Rattle.rb_log.specs.Executions.{Execution as LoggedExecution, execution_status, is_running, is_running_status};
ghost use Rattle.rb_log.specs.Restarts.{reopened};
ghost use Rattle.rb_marks.specs.First.{first_startable, may_withdraw, status_of};
ghost use Rattle.rb_marks.specs.Units.{outline, step_at};
ghost use Rattle.rb_tables.specs.Progress.{results_below, step_results, HasEnded, IsClosing, IsFlowOf, IsKeptProgress, IsOver, IsProgress};
ghost use Rattle.rb_tables.specs.Running.{with_mark};
ghost use Rattle.std.specs.Prelude.{◌≡◌, ◌≤◌, ◌<◌, ◌+◌, ◌*◌, ◌++◌, ◌^◌, [], false, length, vec_capacity, IfOk, IsTrue};

use rb_causes::{Items, NoMemory};
use rb_flow::Flow;
use rb_marks::{Leaf, Mark, Status, StepResult};
use rb_node::Node;
use rb_plan::Command;
use std::alloc::Global;
use std::mem;

/// What is kept of an execution as it goes on.
#[derive(Drop)]
pub enum Progress {
    Going(RunState),
    /// It does not run any more, and all that only a run needs is gone.
    Over(Results),
}

/// What an execution needs while it runs.
#[derive(Drop)]
pub struct RunState {
    pub flow: Flow,
    /// Memory for the results with which it will end, since neither an End nor an abort may want
    /// for memory.
    pub room: Vec<StepResult>,
    pub nodes: Items<Node>,
    /// One for each slot.
    pub commands: Items<Command>,
}

/// What a look shows of an execution that has ended.
#[derive(Drop)]
pub struct Results {
    pub status: Status,
    /// How many top-level steps there are.
    pub steps: u32,
    /// What has become of each of them, node after node.
    pub results: Vec<StepResult>,
}

/// Whether it is the status of a run that goes on.
pub fn is_running(status: Status) -> bool
    ensures { result ≡ is_running_status status }
{
    match status {
        Status::Running => true,
        Status::Succeeded => false,
        Status::Failed => false,
        Status::Aborted => false,
        Status::Incomplete => false,
    }
}

/// Adds the results of the top-level steps on a node.
fn push_results(flow: &Flow, node: u32, results: &mut Vec<StepResult>)
    requires node { node < length (outline flow.now.plan).tiers }
    requires memory { length results.old.items + length (outline flow.now.plan).steps
        ≤ vec_capacity results.old }
    ensures items { results.new.items ≡ results.old.items
        ++ step_results (outline flow.now.plan) flow.now.marks node }
    ensures memory { vec_capacity results.new ≡ vec_capacity results.old }
{
    for step in 0..flow.steps() {
        results.push_reserved(flow.result(node, step));
    }
}

/// The results of a run on all its nodes, in the memory that was made for them.
fn results_of(flow: &Flow, nodes: u32, mut room: Vec<StepResult>) -> Results
    requires nodes { nodes ≡ length (outline flow.now.plan).tiers }
    requires empty { room.items ≡ [] }
    requires memory { nodes * length (outline flow.now.plan).steps ≤ vec_capacity room }
    ensures status { result.status ≡ status_of (outline flow.now.plan) flow.now.marks }
    ensures steps { result.steps ≡ length (outline flow.now.plan).steps }
    ensures results { result.results.items
        ≡ results_below (outline flow.now.plan) flow.now.marks nodes }
{
    for node in 0..nodes {
        push_results(flow, node, &mut room);
    }
    Results {
        status: flow.status(),
        steps: flow.steps(),
        results: room,
    }
}

impl Results {
    /// What has become of a top-level step on a node.
    fn result(&self, node: u32, step: u32) -> StepResult
        requires { (l : LoggedExecution) × HasEnded self.now l
            × (node < length l.accepted.plan.tiers) × (step < length l.accepted.plan.steps) }
        ensures { (l : LoggedExecution) → HasEnded self.now l →
            node < length l.accepted.plan.tiers → step < length l.accepted.plan.steps →
            result ≡ step_at l.accepted.plan l.marks node step }
    {
        self.results[node as usize * self.steps as usize + step as usize]
    }
}

impl Progress {
    /// That of a run without a mark. One that has nothing to run is over at once.
    pub fn begun(
        alloc: Global,
        flow: Flow,
        nodes: Items<Node>,
        commands: Items<Command>,
    ) -> Result<Progress, NoMemory>
        requires tiers { length nodes ≡ length (outline flow.plan).tiers }
        requires few { length nodes < 2 ^ 32 }
        ensures is { IfOk result (λ progress. (l : LoggedExecution) → IsFlowOf flow l →
            nodes ≡ l.accepted.nodes → commands ≡ l.accepted.commands → IsProgress progress l) }
        ensures over { IfOk result (λ progress. (l : LoggedExecution) → IsFlowOf flow l →
            is_running l ≡ false → IsOver progress) }
    {
        let count = nodes.len() as u32;
        let room = Vec::with_capacity(alloc, count as usize * flow.steps() as usize)?;
        if is_running(flow.status()) {
            Ok(Progress::Going(RunState {
                flow,
                room,
                nodes,
                commands,
            }))
        } else {
            Ok(Progress::Over(results_of(&flow, count, room)))
        }
    }

    /// The results of a run that has ended, without its flow.
    fn closed(self, nodes: u32) -> Progress
        requires { (l : LoggedExecution) × IsClosing self l nodes }
        ensures over { IsOver result }
        ensures is { (l : LoggedExecution) → IsClosing self l nodes → IsProgress result l }
    {
        match self {
            Progress::Going(
                RunState {
                    flow,
                    room,
                    nodes: _,
                    commands: _,
                },
            ) => Progress::Over(results_of(&flow, nodes, room)),
            Progress::Over(results) => Progress::Over(results),
        }
    }

    /// Keeps the results of a run that has ended, and lets its flow go.
    pub fn close(&mut self, alloc: Global, nodes: u32)
        requires { (l : LoggedExecution) × IsClosing self.old l nodes }
        ensures over { IsOver self.new }
        ensures is { (l : LoggedExecution) → IsClosing self.old l nodes → IsProgress self.new l }
    {
        // It takes no memory, and stands here only until the results do.
        let nothing = Progress::Over(Results {
            status: Status::Running,
            steps: 0,
            results: Vec::new(alloc),
        });
        let progress = mem::replace(self, nothing);
        *self = progress.closed(nodes);
    }

    /// No unit of this node is to be opened any more.
    pub(crate) fn withdraw(&mut self, node: u32)
        requires { (l : LoggedExecution) × IsProgress self.old l
            × IsTrue (may_withdraw l.accepted.plan l.marks node) }
        ensures { (l : LoggedExecution) → IsProgress self.old l →
            IsTrue (may_withdraw l.accepted.plan l.marks node) →
            IsProgress self.new (with_mark l (Mark.Withdraw node)) }
    {
        match self {
            Progress::Going(going) => going.flow.withdraw(node),
            Progress::Over(_) => (),
        }
    }

    /// What runs is out of sight.
    pub(crate) fn lose(&mut self)
        requires { (l : LoggedExecution) × IsKeptProgress self.old l }
        ensures { (l : LoggedExecution) → IsKeptProgress self.old l →
            IsProgress self.new (reopened l) }
    {
        match self {
            Progress::Going(going) => going.flow.lose(),
            Progress::Over(_) => (),
        }
    }

    /// What has become of the execution so far.
    pub fn status(&self) -> Status
        ensures { (l : LoggedExecution) → IsProgress self.now l → result ≡ execution_status l }
    {
        match self {
            Progress::Going(going) => going.flow.status(),
            Progress::Over(results) => results.status,
        }
    }

    /// How many top-level steps there are.
    pub fn steps(&self) -> u32
        ensures { (l : LoggedExecution) → IsProgress self.now l →
            result ≡ length l.accepted.plan.steps }
    {
        match self {
            Progress::Going(going) => going.flow.steps(),
            Progress::Over(results) => results.steps,
        }
    }

    /// What has become of a top-level step on a node.
    pub fn result(&self, node: u32, step: u32) -> StepResult
        requires { (l : LoggedExecution) × IsProgress self.now l
            × (node < length l.accepted.plan.tiers) × (step < length l.accepted.plan.steps) }
        ensures { (l : LoggedExecution) → IsProgress self.now l →
            node < length l.accepted.plan.tiers → step < length l.accepted.plan.steps →
            result ≡ step_at l.accepted.plan l.marks node step }
    {
        match self {
            Progress::Going(going) => going.flow.result(node, step),
            Progress::Over(results) => results.result(node, step),
        }
    }

    /// The leaf that may start next. Nothing starts of what is over.
    pub fn first_startable(&self) -> Option<Leaf>
        ensures { (l : LoggedExecution) → IsProgress self.now l →
            result ≡ first_startable l.accepted.plan l.marks }
    {
        match self {
            Progress::Going(going) => going.flow.first_startable(),
            Progress::Over(_) => None,
        }
    }
}
