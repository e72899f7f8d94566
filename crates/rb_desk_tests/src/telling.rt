//! What a desk answers, as a line of text.
use rb_acl::Decision;
use rb_causes::{NoMemory, Text};
use rb_log::{Answer, ImportedJob, Kept, Reason, Shown, Task, View};
use rb_marks::Status;
use rb_plan::Refusal;
use std::alloc::Global;

fn put_texts(line: &mut String, texts: &[Text]) -> Result<(), NoMemory> {
    for text in texts {
        line.push(' ')?;
        line.push_str(text.as_str())?;
    }
    Ok(())
}

/// The words of a task.
pub(crate) fn task_line(alloc: Global, words: &[Text]) -> Result<String, NoMemory> {
    let mut line = String::from_str(alloc, "task")?;
    put_texts(&mut line, words)?;
    Ok(line)
}

fn jobs_line(alloc: Global, version: u64, jobs: &[ImportedJob]) -> Result<String, NoMemory> {
    let mut line = format!(in alloc; "Imported {version}")?;
    for job in jobs {
        line.push(' ')?;
        line.push_str(job.id.as_str())?;
        let action = job.action;
        line.push_str(format!(in alloc; " {action:?}")?.as_str())?;
    }
    Ok(line)
}

pub(crate) fn status_name(status: Status) -> &'static str {
    match status {
        Status::Running => "running",
        Status::Succeeded => "succeeded",
        Status::Failed => "failed",
        Status::Aborted => "aborted",
        Status::Incomplete => "incomplete",
    }
}

fn kept_name(kept: Kept) -> &'static str {
    match kept {
        Kept::All => "all",
        Kept::Fault => "fault",
        Kept::Memory => "memory",
    }
}

fn view_line(alloc: Global, view: &View) -> Result<String, NoMemory> {
    let id = view.id;
    let status = status_name(view.status);
    let mut line = format!(in alloc; "{id} {status} on")?;
    put_texts(&mut line, view.nodes.as_slice())?;
    for dropped in view.dropped.as_slice() {
        line.push_str(" not ")?;
        line.push_str(dropped.node.as_str())?;
        line.push_str(": ")?;
        line.push_str(dropped.clause.as_str())?;
    }
    Ok(line)
}

fn reason_line(alloc: Global, reason: &Reason) -> Result<String, NoMemory> {
    let action = reason.action.as_str();
    let thing = reason.thing.as_str();
    let clause = reason.clause.as_str();
    Ok(format!(in alloc; "{action} on {thing}: {clause}")?)
}

fn shown_line(alloc: Global, shown: &Shown) -> Result<String, NoMemory> {
    match shown {
        Shown::Execution(view) => view_line(alloc, view),
        Shown::State { id, nodes, status } => {
            let status = status_name(*status);
            let mut line = format!(in alloc; "state {id} {status}")?;
            for node in nodes.as_slice() {
                line.push(' ')?;
                line.push_str(node.node.as_str())?;
                for step in node.steps.as_slice() {
                    line.push_str(format!(in alloc; " {step:?}")?.as_str())?;
                }
                if let Some(clause) = &node.clause {
                    line.push_str(" by ")?;
                    line.push_str(clause.as_str())?;
                }
            }
            Ok(line)
        }
        Shown::Jobs(jobs) => {
            let mut line = String::from_str(alloc, "jobs")?;
            for job in jobs.as_slice() {
                line.push(' ')?;
                line.push_str(job.id.as_str())?;
            }
            Ok(line)
        }
        Shown::Resources(nodes) => {
            let mut line = String::from_str(alloc, "nodes")?;
            for node in nodes.as_slice() {
                line.push(' ')?;
                line.push_str(node.name.as_str())?;
            }
            Ok(line)
        }
        Shown::Executions { executions, paging } => {
            let count = paging.count;
            let total = paging.total;
            let mut line = format!(in alloc; "executions {count} of {total}")?;
            for view in executions.as_slice() {
                line.push_str("; ")?;
                line.push_str(view_line(alloc, view)?.as_str())?;
            }
            Ok(line)
        }
    }
}

fn named(alloc: Global, name: &str, text: &Text) -> Result<String, NoMemory> {
    let text = text.as_str();
    Ok(format!(in alloc; "{name} {text}")?)
}

/// The names of a path that is told.
fn path_line(alloc: Global, name: &str, path: &[Text]) -> Result<String, NoMemory> {
    let mut line = String::from_str(alloc, name)?;
    put_texts(&mut line, path)?;
    Ok(line)
}

fn cause_line(alloc: Global, refusal: &Refusal) -> Result<String, NoMemory> {
    match refusal {
        Refusal::NoJob => Ok(String::from_str(alloc, "NoJob")?),
        Refusal::JobDenied(_) => Ok(String::from_str(alloc, "JobDenied")?),
        Refusal::BadReference { path, cause } => {
            let cause = *cause;
            let name = format!(in alloc; "{cause:?}")?;
            path_line(alloc, name.as_str(), path.as_slice())
        }
        Refusal::ReferenceDenied { path, .. } => {
            path_line(alloc, "ReferenceDenied", path.as_slice())
        }
        Refusal::Disabled => Ok(String::from_str(alloc, "Disabled")?),
        Refusal::AlreadyRunning(number) => Ok(format!(in alloc; "AlreadyRunning {number}")?),
        Refusal::BadOption { path, .. } => path_line(alloc, "BadOption", path.as_slice()),
        Refusal::NoNodeSelected => Ok(String::from_str(alloc, "NoNodeSelected")?),
        Refusal::NoNodeAllowed { node, .. } => named(alloc, "NoNodeAllowed", node),
        Refusal::TooLarge(leaves) => Ok(format!(in alloc; "TooLarge {leaves}")?),
    }
}

fn refusal_line(
    alloc: Global,
    refusal: &Refusal,
    reason: Option<&Reason>,
) -> Result<String, NoMemory> {
    let mut line = cause_line(alloc, refusal)?;
    if let Some(reason) = reason {
        line.push_str("; ")?;
        line.push_str(reason_line(alloc, reason)?.as_str())?;
    }
    Ok(line)
}

fn fired_line(alloc: Global, execution: u64) -> Result<String, NoMemory> {
    Ok(format!(in alloc; "Fired {execution}")?)
}

fn withdrawn_line(
    alloc: Global,
    execution: u64,
    node: &Text,
    decision: Decision,
) -> Result<String, NoMemory> {
    let node = node.as_str();
    Ok(match decision {
        Decision::Allowed(_) => format!(in alloc; "{execution} withdrawn {node} though allowed")?,
        Decision::Denied(clause) => {
            let doc = clause.doc;
            let type_index = clause.type_index;
            let rule = clause.rule;
            format!(in alloc; "{execution} withdrawn {node} by {doc} {type_index} {rule}")?
        }
        Decision::NoneAllows => format!(in alloc; "{execution} withdrawn {node} as none allows")?,
    })
}

/// A line, or the task that has to be run.
pub(crate) enum Told {
    Line(Result<String, NoMemory>),
    Task(Task),
}

fn word(alloc: Global, word: &str) -> Told {
    Told::Line(match String::from_str(alloc, word) {
        Ok(word) => Ok(word),
        Err(_) => Err(NoMemory),
    })
}

pub(crate) fn answer_line(alloc: Global, answer: Answer) -> Told {
    match answer {
        Answer::NoMemory => word(alloc, "NoMemory"),
        Answer::StoreFault => word(alloc, "StoreFault"),
        Answer::Full => word(alloc, "Full"),
        Answer::Imported { version, jobs } => {
            Told::Line(jobs_line(alloc, version, jobs.as_slice()))
        }
        Answer::BadZone => word(alloc, "BadZone"),
        Answer::BadName => word(alloc, "BadName"),
        Answer::BadYaml(_) => word(alloc, "BadYaml"),
        Answer::BadNodes(_) => word(alloc, "BadNodes"),
        Answer::BadPolicy(_) => word(alloc, "BadPolicy"),
        Answer::BadJobs(_) => word(alloc, "BadJobs"),
        Answer::TooManyFiles => word(alloc, "TooManyFiles"),
        Answer::NoProject => word(alloc, "NoProject"),
        Answer::IdTaken(id) => Told::Line(named(alloc, "IdTaken", &id)),
        Answer::NameTaken(id) => Told::Line(named(alloc, "NameTaken", &id)),
        Answer::Denied(reason) => Told::Line(reason_line(alloc, &reason)),
        Answer::Accepted(view) => Told::Line(view_line(alloc, &view)),
        Answer::Refused(refusal, reason) => {
            Told::Line(refusal_line(alloc, &refusal, reason.as_ref()))
        }
        Answer::Aborted(status) => word(alloc, status_name(status)),
        Answer::NoExecution => word(alloc, "NoExecution"),
        Answer::Ended => word(alloc, "Ended"),
        Answer::Aborting => word(alloc, "Aborting"),
        Answer::Fired(execution) => Told::Line(fired_line(alloc, execution)),
        Answer::Quiet => word(alloc, "Quiet"),
        Answer::Task(task) => Told::Task(task),
        Answer::Withdrawn {
            execution,
            node,
            decision,
        } => Told::Line(withdrawn_line(alloc, execution, &node, decision)),
        Answer::Closed => word(alloc, "Closed"),
        Answer::Idle => word(alloc, "Idle"),
        Answer::Reported(kept) => word(alloc, kept_name(kept)),
        Answer::DoorClosed(kept) => word(alloc, kept_name(kept)),
        Answer::Shown(shown) => Told::Line(shown_line(alloc, &shown)),
        Answer::Saved => word(alloc, "Saved"),
    }
}
