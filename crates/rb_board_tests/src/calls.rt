//! The calls that the tests make.
ghost use Rattle.rb_board_tests.specs.Kept.{IsOpenToAll};
ghost use Rattle.rb_causes.specs.Moments.{IsMoment};
ghost use Rattle.rb_log.specs.Rows.{is_clean, is_clean_caller};
ghost use Rattle.std.specs.Prelude.{IfOk, IsTrue};

use rb_acl::Caller;
use rb_causes::{Items, NoMemory, Text};
use rb_desk::{Call, Look};
use rb_plan::RunAsk;
use std::alloc::Global;

/// The moment at which desks are opened.
pub(crate) const AT: i64 = 1_700_000_000;

const NODES: &str = "web1:\n  tags: web\nweb2:\n  tags: web\n";

const ALL: &str = "\
context:
  project: desk
for:
  resource:
    - allow: [read]
  job:
    - allow: [read, run, kill]
  node:
    - contains:
        tags: web
      allow: [read, run]
by:
  group: ops
";

/// One node of two may be run.
const ONE: &str = "\
context:
  project: desk
for:
  resource:
    - allow: [read]
  job:
    - allow: [read, run, kill]
  node:
    - equals:
        nodename: web1
      allow: [read, run]
by:
  group: ops
";

/// What anybody may ask.
#[derive(Clone, Copy)]
pub(crate) enum Asked {
    /// The policies, by which both nodes may be run or one.
    Policy(bool),
    Nodes,
    Jobs,
    Zone,
    Run,
    /// The abort of the execution of this number.
    Abort(u64),
    Tick,
    /// A look at the execution of this number.
    Execution(u64),
    State(u64),
    /// A look at the executions of the project.
    Executions,
    Save,
}

/// A second later at each turn.
fn moment(turn: u32) -> i64
    ensures { IsMoment result }
{
    AT + i64::from(turn)
}

/// Who comes through this door.
fn user_of(door: u32) -> &'static str
    ensures { IsTrue (is_clean result.now) }
{
    if door == 0 { "ann" } else { "amy" }
}

fn caller_at(alloc: Global, door: u32) -> Result<Caller, NoMemory>
    ensures { IfOk result (λ caller. IsTrue (is_clean_caller caller)) }
{
    let mut groups = Items::new(alloc);
    groups.push(Text::of(alloc, "ops")?)?;
    Ok(Caller {
        user: Text::of(alloc, user_of(door))?,
        groups,
    })
}

/// Policies that no other turn imports.
fn policy_text(alloc: Global, both: bool, door: u32, turn: u32) -> Result<Text, NoMemory> {
    let body = if both { ALL } else { ONE };
    Ok(Text::from_string(format!(in alloc; "{body}# {door} {turn}\n")?))
}

/// Nodes that no other turn imports.
fn nodes_text(alloc: Global, door: u32, turn: u32) -> Result<Text, NoMemory> {
    Ok(Text::from_string(format!(in alloc; "{NODES}# {door} {turn}\n")?))
}

/// Jobs that no other turn imports, one of them with a schedule.
fn jobs_text(alloc: Global, door: u32, turn: u32) -> Result<Text, NoMemory> {
    Ok(Text::from_string(format!(in alloc;
        "\
- name: restart
  group: ops
  id: j1
  multipleExecutions: true
  nodefilters:
    filter: 'tags: web'
  sequence:
    commands:
      - exec: 'echo {door} {turn}'
- name: sweep
  group: ops
  id: j2
  multipleExecutions: true
  nodefilters:
    filter: 'name: web1'
  sequence:
    commands:
      - exec: sweep
  schedule:
    crontab: '0 * * * * ?'
"
    )?))
}

/// The rule of a zone that the imports shortly before did not have.
fn zone_text(alloc: Global, turn: u32) -> Result<Text, NoMemory> {
    let hour = turn % 13;
    Ok(Text::from_string(format!(in alloc; "ABC-{hour}")?))
}

/// An import by somebody at a door.
fn import_call(alloc: Global, asked: Asked, door: u32, turn: u32) -> Result<Call, NoMemory>
    ensures { IfOk result IsOpenToAll }
{
    let at = moment(turn);
    match asked {
        Asked::Policy(both) => Ok(Call::ImportPolicy {
            caller: caller_at(alloc, door)?,
            checked: false,
            name: Text::of(alloc, "ops.aclpolicy")?,
            body: policy_text(alloc, both, door, turn)?,
            at,
        }),
        Asked::Nodes => Ok(Call::ImportNodes {
            project: Text::of(alloc, "desk")?,
            body: nodes_text(alloc, door, turn)?,
            at,
        }),
        Asked::Jobs => Ok(Call::ImportJobs {
            caller: caller_at(alloc, door)?,
            checked: false,
            project: Text::of(alloc, "desk")?,
            body: jobs_text(alloc, door, turn)?,
            at,
        }),
        _ => Ok(Call::ImportZone {
            name: Text::from_string(format!(in alloc; "zone{door}")?),
            rule: zone_text(alloc, turn)?,
            at,
        }),
    }
}

fn run_call(alloc: Global, door: u32, turn: u32) -> Result<Call, NoMemory>
    ensures { IfOk result IsOpenToAll }
{
    Ok(Call::Run {
        caller: caller_at(alloc, door)?,
        ask: RunAsk {
            job: Text::of(alloc, "j1")?,
            given: Items::new(alloc),
            filter: None,
        },
        at: moment(turn),
    })
}

fn abort_call(alloc: Global, execution: u64, door: u32, turn: u32) -> Result<Call, NoMemory>
    ensures { IfOk result IsOpenToAll }
{
    Ok(Call::Abort {
        caller: caller_at(alloc, door)?,
        execution,
        at: moment(turn),
    })
}

fn look_call(alloc: Global, door: u32, look: Look) -> Result<Call, NoMemory>
    ensures { IfOk result IsOpenToAll }
{
    Ok(Call::Look {
        caller: caller_at(alloc, door)?,
        look,
    })
}

fn tick_call(turn: u32) -> Call
    ensures { IsOpenToAll result }
{
    Call::Tick { at: moment(turn) }
}

fn save_call() -> Call
    ensures { IsOpenToAll result }
{
    Call::Save
}

/// A look at the first executions of the project.
fn executions_look(alloc: Global) -> Result<Look, NoMemory> {
    Ok(Look::Executions {
        project: Text::of(alloc, "desk")?,
        max: 5,
        offset: 0,
        status: None,
    })
}

/// The call by which this is asked at a door in this turn.
pub(crate) fn call_of(alloc: Global, asked: Asked, door: u32, turn: u32) -> Result<Call, NoMemory>
    ensures { IfOk result IsOpenToAll }
{
    match asked {
        Asked::Policy(both) => import_call(alloc, Asked::Policy(both), door, turn),
        Asked::Nodes => import_call(alloc, Asked::Nodes, door, turn),
        Asked::Jobs => import_call(alloc, Asked::Jobs, door, turn),
        Asked::Zone => import_call(alloc, Asked::Zone, door, turn),
        Asked::Run => run_call(alloc, door, turn),
        Asked::Abort(execution) => abort_call(alloc, execution, door, turn),
        Asked::Tick => Ok(tick_call(turn)),
        Asked::Execution(number) => look_call(alloc, door, Look::Execution(number)),
        Asked::State(number) => look_call(alloc, door, Look::State(number)),
        Asked::Executions => look_call(alloc, door, executions_look(alloc)?),
        Asked::Save => Ok(save_call()),
    }
}

/// What is asked at a door in this turn, where the execution of this number was the last that was
/// accepted.
pub(crate) fn asked_in(turn: u32, last: u64) -> Asked {
    match turn % 64 {
        0 => Asked::Policy(true),
        7 => Asked::Tick,
        16 => Asked::Nodes,
        23 => Asked::Zone,
        32 => Asked::Policy(false),
        39 => Asked::Tick,
        48 => Asked::Jobs,
        place => match place % 8 {
            1 => Asked::Run,
            2 => Asked::Execution(last),
            3 => Asked::State(last),
            4 => Asked::Executions,
            6 => asked_of_last(place, last),
            _ => Asked::Save,
        },
    }
}

/// One execution of two is aborted.
fn asked_of_last(place: u32, last: u64) -> Asked {
    if place % 16 == 6 {
        Asked::Abort(last)
    } else {
        Asked::Execution(last)
    }
}
