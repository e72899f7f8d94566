//! What the demo asks of a clerk, and what it hears.
ghost use Rattle.rb_demo.specs.Hearing.{Always, HasSaid, IsAlone, IsNoTask, heard_answer};
ghost use Rattle.rb_log.specs.Legal.{MayAsk};
ghost use Rattle.std.specs.Prelude.{◌≡◌, false};
ghost use Rattle.rb_log.specs.Records.{is_promised};

use rb_log::{Answer, Call, Clerk};

/// What an answer says to the demo.
#[derive(Clone, Copy, Debug, PartialEq, Eq)]
pub(crate) enum HeardAnswer {
    Imported,
    Accepted,
    Refused,
    Full,
    NoMemory,
    Other,
}

/// What is heard of a call for which no rule gives a task.
pub(crate) fn say<C: Clerk>(clerk: &mut C, call: Call) -> HeardAnswer
    requires alone { IsAlone C.told }
    requires may { MayAsk (C.told clerk.old).rights call }
    requires unpromised { is_promised call ≡ false }
    requires no_task { Always (C.told clerk.old) call (λ moved. IsNoTask moved.answer) }
    ensures { HasSaid (C.told clerk.old) (C.told clerk.new) call result }
{
    heard_in(clerk.act(call))
}

fn heard_in(answer: Answer) -> HeardAnswer
    requires { IsNoTask answer }
    ensures { result ≡ heard_answer answer }
{
    match answer {
        Answer::NoMemory => HeardAnswer::NoMemory,
        Answer::Imported {
            version: _,
            jobs: _,
        } => HeardAnswer::Imported,
        Answer::Accepted(_) => HeardAnswer::Accepted,
        Answer::Refused(_, _) => HeardAnswer::Refused,
        Answer::Shown(_) => HeardAnswer::Other,
        Answer::Task(_task) => unreachable!(),
        Answer::StoreFault => HeardAnswer::Other,
        Answer::Full => HeardAnswer::Full,
        Answer::BadZone => HeardAnswer::Other,
        Answer::BadName => HeardAnswer::Other,
        Answer::BadYaml(_) => HeardAnswer::Other,
        Answer::BadNodes(_) => HeardAnswer::Other,
        Answer::BadPolicy(_) => HeardAnswer::Other,
        Answer::BadJobs(_) => HeardAnswer::Other,
        Answer::TooManyFiles => HeardAnswer::Other,
        Answer::NoProject => HeardAnswer::Other,
        Answer::IdTaken(_) => HeardAnswer::Other,
        Answer::NameTaken(_) => HeardAnswer::Other,
        Answer::Denied(_) => HeardAnswer::Other,
        Answer::Aborted(_) => HeardAnswer::Other,
        Answer::NoExecution => HeardAnswer::Other,
        Answer::Ended => HeardAnswer::Other,
        Answer::Aborting => HeardAnswer::Other,
        Answer::Fired(_) => HeardAnswer::Other,
        Answer::Quiet => HeardAnswer::Other,
        Answer::Withdrawn {
            execution: _,
            node: _,
            decision: _,
        } => HeardAnswer::Other,
        Answer::Closed => HeardAnswer::Other,
        Answer::Idle => HeardAnswer::Other,
        Answer::Reported(_) => HeardAnswer::Other,
        Answer::DoorClosed(_) => HeardAnswer::Other,
        Answer::Saved => HeardAnswer::Other,
    }
}
