//! The statuses of executions and the results of steps, as they are told and asked for.
ghost use Rattle.rb_query.specs.Statuses.{status_named, status_text, step_text};
ghost use Rattle.std.specs.Prelude.{◌≡◌};

use rb_marks::{Status, StepResult};

pub fn status_text(status: Status) -> &'static str
    ensures { result.now ≡ status_text status }
{
    match status {
        Status::Running => "running",
        Status::Succeeded => "succeeded",
        Status::Failed => "failed",
        Status::Aborted => "aborted",
        Status::Incomplete => "incomplete",
    }
}

/// The status that is told so.
pub fn status_named(text: &str) -> Option<Status>
    ensures { result ≡ status_named text.now }
{
    if text == "running" {
        Some(Status::Running)
    } else if text == "succeeded" {
        Some(Status::Succeeded)
    } else if text == "failed" {
        Some(Status::Failed)
    } else if text == "aborted" {
        Some(Status::Aborted)
    } else if text == "incomplete" {
        Some(Status::Incomplete)
    } else {
        None
    }
}

pub fn step_text(step: StepResult) -> &'static str
    ensures { result.now ≡ step_text step }
{
    match step {
        StepResult::Undone => "undone",
        StepResult::Good => "ok",
        StepResult::Bad => "bad",
    }
}
