//! What the answer to Save says.
ghost use Rattle.rb_api.specs.Replies.{IsNoTask};
ghost use Rattle.rb_session.specs.Statuses.{saving_of};
ghost use Rattle.std.specs.Prelude.{◌≡◌};

use rb_log::Answer;

/// Whether the keeper holds the whole log.
#[derive(Clone, Copy, Debug, PartialEq, Eq)]
pub enum Saving {
    Saved,
    StoreFault,
    NoMemory,
}

/// What the answer to Save says. What Save never answers stands with want of memory.
pub fn saving_of(answer: Answer) -> Saving
    requires { IsNoTask answer }
    ensures { result ≡ saving_of answer }
{
    match answer {
        Answer::Saved => Saving::Saved,
        Answer::StoreFault => Saving::StoreFault,
        Answer::NoMemory => Saving::NoMemory,
        Answer::Imported {
            version: _,
            jobs: _,
        } => Saving::NoMemory,
        Answer::Full => Saving::NoMemory,
        Answer::BadZone => Saving::NoMemory,
        Answer::BadYaml(_) => Saving::NoMemory,
        Answer::BadNodes(_) => Saving::NoMemory,
        Answer::BadPolicy(_) => Saving::NoMemory,
        Answer::BadJobs(_) => Saving::NoMemory,
        Answer::BadName => Saving::NoMemory,
        Answer::TooManyFiles => Saving::NoMemory,
        Answer::NoProject => Saving::NoMemory,
        Answer::IdTaken(_) => Saving::NoMemory,
        Answer::NameTaken(_) => Saving::NoMemory,
        Answer::Denied(_) => Saving::NoMemory,
        Answer::Accepted(_) => Saving::NoMemory,
        Answer::Refused(_, _) => Saving::NoMemory,
        Answer::Aborted(_) => Saving::NoMemory,
        Answer::NoExecution => Saving::NoMemory,
        Answer::Ended => Saving::NoMemory,
        Answer::Aborting => Saving::NoMemory,
        Answer::Fired(_) => Saving::NoMemory,
        Answer::Quiet => Saving::NoMemory,
        Answer::Withdrawn {
            execution: _,
            node: _,
            decision: _,
        } => Saving::NoMemory,
        Answer::Closed => Saving::NoMemory,
        Answer::Idle => Saving::NoMemory,
        Answer::Reported(_) => Saving::NoMemory,
        Answer::DoorClosed(_) => Saving::NoMemory,
        Answer::Shown(_) => Saving::NoMemory,
        Answer::Task(_task) => unreachable!(),
    }
}
