//! A desk that is asked in words: `claim|1`, `run|ann|7b1f0c2a-0001|mode=soft`.
use crate::documents::document;
use crate::telling::{Told, answer_line, task_line};
use rb_acl::Caller;
use rb_causes::{Items, MemKeeper, NoMemory, Prop, Spawner, SteadySpawner, Text};
use rb_desk::{Answer, Call, Desk, Done, Look};
use rb_marks::Status;
use rb_node::Filter;
use rb_plan::RunAsk;
use std::alloc::Global;

/// The moment of each call.
pub(crate) const AT: i64 = 1_700_000_000;

fn number(text: &str) -> u64 {
    match text.parse::<u64>() {
        Ok(number) => number,
        Err(_) => 0,
    }
}

/// Far more than there is of anything, where the number does not fit.
fn small(text: &str) -> u32 {
    match text.parse::<u32>() {
        Ok(number) => number,
        Err(_) => u32::MAX,
    }
}

/// That of each call, where none is told.
fn moment(text: &str) -> i64 {
    match text.parse::<i64>() {
        Ok(moment) => moment,
        Err(_) => AT,
    }
}

fn words_of<'a>(alloc: Global, line: &'a str) -> Result<Vec<&'a str>, NoMemory> {
    let mut words = Vec::new(alloc);
    for word in line.split('|') {
        words.push(word)?;
    }
    Ok(words)
}

fn word<'a>(words: &[&'a str], at: usize) -> &'a str {
    match words.get(at) {
        Some(word) => word,
        None => "",
    }
}

/// Whose name begins with `a` is in the group ops, and others are in none.
fn caller(alloc: Global, user: &str) -> Result<Caller, NoMemory> {
    let mut groups = Items::new(alloc);
    if user.starts_with('a') {
        groups.push(Text::of(alloc, "ops")?)?;
    }
    Ok(Caller {
        user: Text::of(alloc, user)?,
        groups,
    })
}

/// What is given as `OPTION=TEXT` behind the user and the job, and the filter of `filter=TEXT`.
fn ask(alloc: Global, words: &[&str]) -> Result<RunAsk, NoMemory> {
    let mut given = Items::new(alloc);
    let mut filter = None;
    for pair in words.iter().skip(3) {
        let Some((key, text)) = pair.split_once('=') else {
            continue;
        };
        if key == "filter" {
            filter = match Filter::read(alloc, text) {
                Ok(filter) => Some(filter),
                Err(_) => return Err(NoMemory),
            };
        } else {
            given.push(Prop {
                key: Text::of(alloc, key)?,
                text: Text::of(alloc, text)?,
            })?;
        }
    }
    Ok(RunAsk {
        job: Text::of(alloc, word(words, 2))?,
        given,
        filter,
    })
}

fn status(word: &str) -> Option<Status> {
    match word {
        "running" => Some(Status::Running),
        "succeeded" => Some(Status::Succeeded),
        "failed" => Some(Status::Failed),
        "aborted" => Some(Status::Aborted),
        _ => None,
    }
}

fn look(alloc: Global, words: &[&str]) -> Result<Look, NoMemory> {
    Ok(match word(words, 2) {
        "execution" => Look::Execution(number(word(words, 3))),
        "state" => Look::State(number(word(words, 3))),
        "jobs" => Look::Jobs(Text::of(alloc, word(words, 3))?),
        "resources" => Look::Resources(Text::of(alloc, word(words, 3))?),
        _ => Look::Executions {
            project: Text::of(alloc, word(words, 3))?,
            max: number(word(words, 4)),
            offset: number(word(words, 5)),
            status: status(word(words, 6)),
        },
    })
}

/// The call of these words, which are no report. A caller of an import is asked for permission.
fn call_of(alloc: Global, words: &[&str]) -> Result<Call, NoMemory> {
    let second = word(words, 1);
    let body = document(word(words, 2));
    let asks = caller(alloc, word(words, 3))?;
    let checked = word(words, 3) != "";
    Ok(match word(words, 0) {
        "zone" => Call::ImportZone {
            name: Text::of(alloc, second)?,
            rule: Text::of(alloc, word(words, 2))?,
            at: AT,
        },
        "tick" => Call::Tick { at: moment(second) },
        "nodes" => Call::ImportNodes {
            project: Text::of(alloc, second)?,
            body: Text::of(alloc, body)?,
            at: AT,
        },
        "policy" => Call::ImportPolicy {
            caller: asks,
            checked,
            name: Text::of(alloc, second)?,
            body: Text::of(alloc, body)?,
            at: AT,
        },
        "jobs" => Call::ImportJobs {
            caller: asks,
            checked,
            project: Text::of(alloc, second)?,
            body: Text::of(alloc, body)?,
            at: AT,
        },
        "run" => Call::Run {
            caller: caller(alloc, second)?,
            ask: ask(alloc, words)?,
            at: AT,
        },
        "abort" => Call::Abort {
            caller: caller(alloc, second)?,
            execution: number(word(words, 2)),
            at: AT,
        },
        "claim" => Call::Claim {
            worker: small(second),
            at: moment(word(words, 2)),
        },
        "close" => Call::CloseDoor {
            door: small(second),
            at: AT,
        },
        "look" => Call::Look {
            caller: caller(alloc, second)?,
            look: look(alloc, words)?,
        },
        _ => Call::Save,
    })
}

/// What two workers have run and not reported.
pub(crate) struct Hands {
    first: Option<Done>,
    second: Option<Done>,
}

fn spend(done: Option<Done>) {
    if let Some(done) = done {
        let _ = done.into_parts();
    }
}

impl Hands {
    pub(crate) fn new() -> Hands {
        Hands {
            first: None,
            second: None,
        }
    }

    /// What the worker has run; nothing of it is left.
    fn take(&mut self, worker: &str) -> Option<Done> {
        if worker == "0" {
            self.first.take()
        } else {
            self.second.take()
        }
    }

    /// Holds what the worker has run.
    fn put(&mut self, worker: &str, done: Done) {
        let before = if worker == "0" {
            self.first.replace(done)
        } else {
            self.second.replace(done)
        };
        spend(before);
    }

    pub(crate) fn end(self) {
        let Hands { first, second } = self;
        spend(first);
        spend(second);
    }
}

/// Lets go of a call that may not be asked.
fn spend_call(call: Call) {
    match call {
        Call::Report { done, at: _ } => spend(Some(done)),
        Call::ImportZone {
            name: _,
            rule: _,
            at: _,
        } => (),
        Call::ImportNodes {
            project: _,
            body: _,
            at: _,
        } => (),
        Call::ImportPolicy {
            caller: _,
            checked: _,
            name: _,
            body: _,
            at: _,
        } => (),
        Call::ImportJobs {
            caller: _,
            checked: _,
            project: _,
            body: _,
            at: _,
        } => (),
        Call::Run {
            caller: _,
            ask: _,
            at: _,
        } => (),
        Call::Abort {
            caller: _,
            execution: _,
            at: _,
        } => (),
        Call::Claim { worker: _, at: _ } => (),
        Call::Tick { at: _ } => (),
        Call::CloseDoor { door: _, at: _ } => (),
        Call::Look { caller: _, look: _ } => (),
        Call::Save => (),
    }
}

/// The answer to a call, where the call may be asked.
fn step(desk: &mut Desk<MemKeeper>, alloc: Global, call: Call) -> Option<Answer> {
    if desk.may_ask(&call) {
        Some(desk.step(alloc, call))
    } else {
        spend_call(call);
        None
    }
}

/// The call of these words.
fn call_or_report(
    hands: &mut Hands,
    alloc: Global,
    words: &[&str],
) -> Result<Option<Call>, NoMemory> {
    if word(words, 0) != "report" {
        return Ok(Some(call_of(alloc, words)?));
    }
    match hands.take(word(words, 1)) {
        None => Ok(None),
        Some(done) => Ok(Some(Call::Report { done, at: AT })),
    }
}

/// What is answered, in words. A task is run at once, and waits to be reported.
pub(crate) fn answered(
    desk: &mut Desk<MemKeeper>,
    spawner: &mut SteadySpawner,
    hands: &mut Hands,
    alloc: Global,
    line: &str,
) -> Result<String, NoMemory> {
    let words = words_of(alloc, line)?;
    spawner.ready()?;
    let Some(call) = call_or_report(hands, alloc, words.as_slice())? else {
        return Ok(String::from_str(alloc, "nothing to report")?);
    };
    match step(desk, alloc, call) {
        None => Ok(String::from_str(alloc, "may not be asked")?),
        Some(answer) => {
            match answer_line(alloc, answer) {
                Told::Line(line) => line,
                Told::Task(task) => {
                    let line = task_line(alloc, task.words());
                    hands.put(word(&words, 1), task.start(spawner));
                    line
                }
            }
        }
    }
}
