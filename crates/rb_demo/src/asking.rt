//! The calls of the demo, each with what is made of its answer.
ghost use Rattle.rb_acl.specs.declared.policy.Caller.{Caller};
ghost use Rattle.rb_causes.specs.declared.row.Row.{Row};
ghost use Rattle.rb_demo.specs.Asking.{Imports, IsOn};
ghost use Rattle.rb_demo.specs.Going.{IsNotFull};
ghost use Rattle.rb_demo.specs.Hearing.{Always, IsAlone};
ghost use Rattle.rb_demo.specs.Rounds.{HasImported, HasImportedAll, HasRun, is_accepted, is_refused, run_call, setting_of};
ghost use Rattle.rb_demo.specs.Settings.{jobs_call, nodes_call, opened_log, policy_call};
ghost use Rattle.rb_demo.specs.Verdicts.{user_in};
ghost use Rattle.rb_log.specs.Legal.{MayAsk};
ghost use Rattle.rb_log.specs.Records.{is_promised};
ghost use Rattle.rb_log.specs.Rows.{is_clean};
ghost use Rattle.rb_log.specs.declared.answer.Answer.{Answer};
ghost use Rattle.std.specs.Prelude.{◌≡◌, ◌≤◌, ◌∷◌, [], false, not, reverse, IfOk, IsTrue, OnOk};

use crate::hearing::{HeardAnswer, say};
use crate::laws::demo_is_imported;
use crate::{jobs_text, nodes_text, policy_text};
use rb_acl::Caller;
use rb_causes::{Items, NoMemory, Text};
use rb_log::{Call, Clerk};
use rb_plan::RunAsk;
use std::alloc::Global;

/// The moment at which the demo is played.
pub(crate) const MOMENT: i64 = 1_700_000_000;

/// A user in no group.
fn user_in(alloc: Global, user: &str) -> Result<Caller, NoMemory>
    ensures { IfOk result (λ caller. caller ≡ user_in user.now []) }
{
    Ok(Caller {
        user: Text::of(alloc, user)?,
        groups: Items::new(alloc),
    })
}

/// Makes an import that the rules do as one row, whatever its reader may answer.
fn import<C: Clerk>(clerk: &mut C, call: Call) -> Result<(), NoMemory>
    requires alone { IsAlone C.told }
    requires may { MayAsk (C.told clerk.old).rights call }
    requires unpromised { is_promised call ≡ false }
    requires imports { (row : Row) × Always (C.told clerk.old) call (Imports row) }
    ensures { OnOk result ((row : Row) → Always (C.told clerk.old) call (Imports row) →
        HasImported (C.told clerk.old) (C.told clerk.new) call
        (row ∷ reverse (C.told clerk.old).log)) }
{
    match say(clerk, call) {
        HeardAnswer::Imported => Ok(()),
        HeardAnswer::NoMemory => Err(NoMemory),
        HeardAnswer::Accepted => unreachable!(),
        HeardAnswer::Refused => unreachable!(),
        HeardAnswer::Full => unreachable!(),
        HeardAnswer::Other => unreachable!(),
    }
}

fn nodes_call(alloc: Global, nodes: u32) -> Result<Call, NoMemory>
    requires few { (1 ≤ nodes) × (nodes ≤ 1000) }
    ensures { IfOk result (λ call. call ≡ nodes_call (setting_of nodes)) }
{
    Ok(Call::ImportNodes {
        project: Text::of(alloc, "demo")?,
        body: nodes_text(alloc, nodes)?,
        at: MOMENT,
    })
}

fn policy_call(alloc: Global, nodes: u32) -> Result<Call, NoMemory>
    ensures { IfOk result (λ call. call ≡ policy_call (setting_of nodes)) }
{
    let _nodes = nodes;
    Ok(Call::ImportPolicy {
        caller: user_in(alloc, "admin")?,
        checked: false,
        name: Text::of(alloc, "demo.aclpolicy")?,
        body: Text::of(alloc, policy_text())?,
        at: MOMENT,
    })
}

fn jobs_call(alloc: Global, nodes: u32) -> Result<Call, NoMemory>
    ensures { IfOk result (λ call. call ≡ jobs_call (setting_of nodes)) }
{
    let _nodes = nodes;
    Ok(Call::ImportJobs {
        caller: user_in(alloc, "admin")?,
        checked: false,
        project: Text::of(alloc, "demo")?,
        body: Text::of(alloc, jobs_text())?,
        at: MOMENT,
    })
}

fn run_call(alloc: Global, user: &str, job: &str) -> Result<Call, NoMemory>
    ensures { IfOk result (λ call. call ≡ run_call user.now job.now) }
{
    Ok(Call::Run {
        caller: user_in(alloc, user)?,
        ask: RunAsk {
            job: Text::of(alloc, job)?,
            given: Items::new(alloc),
            filter: None,
        },
        at: MOMENT,
    })
}

/// Imports the nodes, the policies and the jobs.
pub(crate) fn import_all<C: Clerk>(clerk: &mut C, alloc: Global, nodes: u32) -> Result<(), NoMemory>
    requires few { (1 ≤ nodes) × (nodes ≤ 1000) }
    requires alone { IsAlone C.told }
    requires log { IsOn (setting_of nodes) (opened_log (setting_of nodes)) (C.told clerk.old) }
    ensures { OnOk result (HasImportedAll (setting_of nodes) (C.told clerk.old)
        (C.told clerk.new)) }
{
    demo_is_imported();
    let nodes_call = nodes_call(alloc, nodes)?;
    import(clerk, nodes_call)?;
    let policy_call = policy_call(alloc, nodes)?;
    import(clerk, policy_call)?;
    let jobs_call = jobs_call(alloc, nodes)?;
    import(clerk, jobs_call)?;
    Ok(())
}

/// Whether a user's run of a job is accepted; if not, it is refused.
pub(crate) fn run<C: Clerk>(
    clerk: &mut C,
    alloc: Global,
    user: &str,
    job: &str,
) -> Result<bool, NoMemory>
    requires alone { IsAlone C.told }
    requires clean { IsTrue (is_clean user.now) }
    requires room { Always (C.told clerk.old) (run_call user.now job.now)
        (λ moved. IsNotFull moved.answer) }
    ensures { IfOk result (λ accepted. (a : Answer)
        × HasRun (C.told clerk.old) (C.told clerk.new) user.now job.now a
        × (is_accepted a ≡ accepted) × (is_refused a ≡ not accepted)) }
{
    let call = run_call(alloc, user, job)?;
    match say(clerk, call) {
        HeardAnswer::Accepted => Ok(true),
        HeardAnswer::Refused => Ok(false),
        HeardAnswer::NoMemory => Err(NoMemory),
        HeardAnswer::Full => unreachable!(),
        HeardAnswer::Imported => unreachable!(),
        HeardAnswer::Other => unreachable!(),
    }
}
