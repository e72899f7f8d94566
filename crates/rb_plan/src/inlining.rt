//! One sequence of the steps of a job and of all jobs that it refers to.
ghost use Rattle.rb_marks.specs.View.{act_tree, step_tree};
ghost use Rattle.rb_plan.specs.Inlined.{act_commands, act_slots, command_at, commands as commands_of, given_at, handler_commands, handler_slots, numbered, numbered_act, numbered_handler, numbered_step, option_in_act, option_in_steps, refused_option, site_below, slots};
ghost use Rattle.rb_plan.specs.Resolved.{resolved_act, resolved_reference, resolved_steps};
ghost use Rattle.rb_plan.specs.Walked.{TellsRefusal, deeper};
ghost use Rattle.rb_plan.specs.Worlds.{referred_job};
ghost use Rattle.rb_option.specs.Settled.{settled_values};
ghost use Rattle.rb_marks.specs.Tree.{sub, no_branch};
ghost use Rattle.std.specs.Option.{option_copied};
ghost use Rattle.std.specs.Prelude.{◌≡◌, ◌+◌, ◌<◌, ◌≤◌, ◌++◌, ◌∷◌, [], false, IfOk, OnOk, length, map};

use crate::accepted::Command;
use crate::copying::{copy_act, copy_props, copy_texts};
use crate::finding::referred_job;
use crate::naming::site_names;
use crate::paths::path_below;
use crate::refusal::{Refusal, VerdictErr};
use crate::world::{HeldJob, Project};
use rb_causes::{Items, NoMemory, Prop, Text};
use rb_expand::word_of;
use rb_job::{JobAct, JobStep};
use rb_marks::{Act, Seq, Step};
use rb_option::{OptionDef, OptionErr, settle};
use std::alloc::Global;
use std::marker::Model;

/// A job in which steps stand, with its settled values, in a run in a project by a user.
#[derive(Drop)]
pub(crate) struct Site<'a> {
    pub(crate) held: &'a HeldJob,
    pub(crate) values: Items<Prop>,
    pub(crate) project: &'a str,
    pub(crate) user: &'a str,
}

impl<'a> Model for Site<'a> {
    ghost use Rattle.rb_plan.specs.Inlined.{Site as Stands};

    ghost Value = { Stands };

    ghost view = { λ s. record {
      held = s.held.now;
      values = s.values;
      project = s.project.now;
      user = s.user.now;
    } };
}

impl<'a> Site<'a> {
    pub(crate) fn into_values(self) -> Items<Prop>
        ensures { result ≡ self.entry.values }
    {
        self.values
    }
}

/// The settled values of options, or the first that is refused, told with the path of its job.
pub(crate) fn settled(
    alloc: Global,
    path: &[Text],
    options: &[OptionDef],
    given: &[Prop],
) -> Result<Items<Prop>, VerdictErr>
    ensures refused { TellsRefusal (refused_option path.now options.now given.now) result }
    ensures values { IfOk result (λ values. values ≡ settled_values options.now given.now) }
{
    match settle(alloc, options, given) {
        Ok(values) => Ok(Items::of(values)),
        Err(OptionErr::Fault(fault)) => {
            let path = copy_texts(alloc, path)?;
            Err(VerdictErr::Refused(Refusal::BadOption { path, fault }))
        }
        Err(OptionErr::NoMemory) => Err(VerdictErr::NoMemory),
    }
}

/// The arguments of a reference that stands at a site, both names and values expanded.
fn given_at(alloc: Global, site: &Site<'_>, args: &[Prop]) -> Result<Items<Prop>, NoMemory>
    ensures { IfOk result (λ given. given ≡ given_at site.now args.now) }
{
    let names = site_names(alloc, site)?;
    let mut given = Items::new(alloc);
    for arg in args {
        let key = word_of(alloc, arg.key.as_str(), names.as_slice())?;
        let text = word_of(alloc, arg.text.as_str(), names.as_slice())?;
        given.push(Prop { key, text })?;
    }
    Ok(given)
}

/// The site of a job to which a step refers that stands at a site.
fn site_below<'a>(
    alloc: Global,
    site: &Site<'a>,
    path: &[Text],
    args: &[Prop],
    held: &'a HeldJob,
) -> Result<Site<'a>, VerdictErr>
    ensures refused { TellsRefusal
        (refused_option path.now held.now.job.options (given_at site.now args.now)) result }
    ensures site { IfOk result (λ below. below ≡ site_below site.now args.now held.now) }
{
    let given = given_at(alloc, site, args)?;
    let values = settled(alloc, path, held.job.options.as_slice(), given.as_slice())?;
    Ok(Site {
        held,
        values,
        project: site.project,
        user: site.user,
    })
}

fn command_at(alloc: Global, site: &Site<'_>, act: &JobAct) -> Result<Command, NoMemory>
    ensures { IfOk result (λ command. command ≡ command_at site.now act.now) }
{
    Ok(Command {
        act: copy_act(alloc, act)?,
        job_id: site.held.id.copy(alloc)?,
        job_group: site.held.job.group.copy(alloc)?,
        job_name: site.held.job.name.copy(alloc)?,
        values: copy_props(alloc, site.values.as_slice())?,
    })
}

/// Puts a command into the next slot, and gives that.
fn put_command(
    alloc: Global,
    site: &Site<'_>,
    act: &JobAct,
    commands: &mut Vec<Command>,
) -> Result<u32, NoMemory>
    requires { length commands.old.items < 1000 }
    ensures slot { IfOk result (λ slot. slot ≡ length commands.old.items) }
    ensures put { OnOk result (commands.new.items
        ≡ commands.old.items ++ command_at site.now act.now ∷ []) }
{
    let slot = commands.len() as u32;
    commands.push(command_at(alloc, site, act)?)?;
    Ok(slot)
}

fn put_handler(
    alloc: Global,
    site: &Site<'_>,
    handler: &Option<JobAct>,
    commands: &mut Vec<Command>,
) -> Result<Option<u32>, NoMemory>
    requires { length commands.old.items + handler_slots handler.now ≤ 1000 }
    ensures slot { IfOk result (λ slot.
        slot ≡ numbered_handler (length commands.old.items) handler.now) }
    ensures put { OnOk result (commands.new.items
        ≡ commands.old.items ++ handler_commands site.now handler.now) }
{
    match handler {
        None => Ok(None),
        Some(act) => Ok(Some(put_command(alloc, site, act, commands)?)),
    }
}

/// The steps with the numbers of their slots, whose commands are put behind those before them.
#[cycle(inline)]
pub(crate) fn inline_steps<'a>(
    alloc: Global,
    project: &'a Project,
    levels: u32,
    site: &Site<'a>,
    path: &[Text],
    steps: &[JobStep],
    commands: &mut Vec<Command>,
) -> Result<Vec<Step>, VerdictErr>
    requires { length commands.old.items
        + slots (resolved_steps (deeper levels project.now) project.now path.now steps.now) ≤ 1000 }
    ensures refused { TellsRefusal (option_in_steps site.now
        (resolved_steps (deeper levels project.now) project.now path.now steps.now)) result }
    ensures steps { IfOk result (λ done. map step_tree done.items
        ≡ numbered (length commands.old.items)
        (resolved_steps (deeper levels project.now) project.now path.now steps.now)) }
    ensures put { OnOk result (commands.new.items ≡ commands.old.items ++ commands_of site.now
        (resolved_steps (deeper levels project.now) project.now path.now steps.now)) }
{
    let mut done = Items::new(alloc);
    for step in steps {
        done.push(inline_step(alloc, project, levels, site, path, step, commands)?)?;
    }
    Ok(done.into_vec())
}

#[cycle(inline)]
fn inline_step<'a>(
    alloc: Global,
    project: &'a Project,
    levels: u32,
    site: &Site<'a>,
    path: &[Text],
    step: &JobStep,
    commands: &mut Vec<Command>,
) -> Result<Step, VerdictErr>
    requires { length commands.old.items + (act_slots
        (resolved_act (deeper levels project.now) project.now path.now step.now.act)
        + handler_slots step.now.handler) ≤ 1000 }
    ensures refused { TellsRefusal (option_in_act site.now
        (resolved_act (deeper levels project.now) project.now path.now step.now.act)) result }
    ensures step { IfOk result (λ done. step_tree done ≡ numbered_step (length commands.old.items)
        (resolved_act (deeper levels project.now) project.now path.now step.now.act)
        step.now.handler step.now.keep_on_success) }
    ensures put { OnOk result (commands.new.items ≡ commands.old.items ++ (act_commands site.now
        (resolved_act (deeper levels project.now) project.now path.now step.now.act)
        ++ handler_commands site.now step.now.handler)) }
{
    let act = inline_act(alloc, project, levels, site, path, &step.act, commands)?;
    let handler = put_handler(alloc, site, &step.handler, commands)?;
    Ok(Step {
        act,
        handler,
        keep_on_success: step.keep_on_success,
    })
}

#[cycle(inline)]
fn inline_act<'a>(
    alloc: Global,
    project: &'a Project,
    levels: u32,
    site: &Site<'a>,
    path: &[Text],
    act: &JobAct,
    commands: &mut Vec<Command>,
) -> Result<Act, VerdictErr>
    requires { length commands.old.items + act_slots
        (resolved_act (deeper levels project.now) project.now path.now act.now) ≤ 1000 }
    ensures refused { TellsRefusal (option_in_act site.now
        (resolved_act (deeper levels project.now) project.now path.now act.now)) result }
    ensures act { IfOk result (λ done. act_tree done ≡ numbered_act (length commands.old.items)
        (resolved_act (deeper levels project.now) project.now path.now act.now)) }
    ensures put { OnOk result (commands.new.items ≡ commands.old.items ++ act_commands site.now
        (resolved_act (deeper levels project.now) project.now path.now act.now)) }
{
    match act {
        JobAct::Exec(_) => Ok(Act::Slot(put_command(alloc, site, act, commands)?)),
        JobAct::Script { text: _, args: _ } => {
            Ok(Act::Slot(put_command(alloc, site, act, commands)?))
        }
        JobAct::Refer { group, name, args } => {
            let held = referred_job(project, group.as_str(), name.as_str());
            let below = path_below(alloc, path, group.as_str(), name.as_str())?;
            let below = below.as_slice();
            let args = args.as_slice();
            inline_reference(alloc, project, levels, site, below, args, held, commands)
        }
    }
}

/// The steps of the job to which a step refers that stands at a site.
#[cycle(inline)]
fn inline_reference<'a>(
    alloc: Global,
    project: &'a Project,
    levels: u32,
    site: &Site<'a>,
    path: &[Text],
    args: &[Prop],
    held: Option<&'a HeldJob>,
    commands: &mut Vec<Command>,
) -> Result<Act, VerdictErr>
    requires { length commands.old.items + act_slots (resolved_reference
        (deeper levels project.now) path.now args.now (option_copied held)) ≤ 1000 }
    ensures refused { TellsRefusal (option_in_act site.now (resolved_reference
        (deeper levels project.now) path.now args.now (option_copied held.entry))) result }
    ensures act { IfOk result (λ done. act_tree done ≡ numbered_act (length commands.old.items)
        (resolved_reference (deeper levels project.now)
        path.now args.now (option_copied held.entry))) }
    ensures put { OnOk result (commands.new.items ≡ commands.old.items ++ act_commands site.now
        (resolved_reference (deeper levels project.now)
        path.now args.now (option_copied held.entry))) }
{
    match held {
        Some(held) => {
            if levels == 0 {
                return Ok(no_steps(alloc));
            }
            let below = site_below(alloc, site, path, args, held)?;
            let steps = held.job.steps.as_slice();
            let steps = inline_steps(alloc, project, levels - 1, &below, path, steps, commands)?;
            let keepgoing = held.job.keepgoing;
            Ok(Act::Sub(Seq { keepgoing, steps }))
        }
        None => Ok(no_steps(alloc)),
    }
}

/// What stands for a reference that cannot be resolved, for which a run is refused before.
fn no_steps(alloc: Global) -> Act
    ensures { act_tree result ≡ sub false no_branch }
{
    Act::Sub(Seq {
        keepgoing: false,
        steps: Vec::new(alloc),
    })
}
