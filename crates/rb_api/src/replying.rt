//! The reply to a request.
ghost use Rattle.rb_api.specs.Replies.{aborting_text, ended_text, imported_reply, number_in};
ghost use Rattle.rb_api.specs.Replies.{refused_reply, reply_on, reply_to, IsNoTask};
ghost use Rattle.rb_api.specs.Views.{abort_data, imported_data, policy_data, shown_data, view_data};
ghost use Rattle.rb_log.specs.declared.answer.Answer.TheVariants as answers;
ghost use Rattle.rb_reply.specs.Errors.{error_reply, good, printed};
ghost use Rattle.rb_reply.specs.declared.error_code.ErrorCode.TheVariants as code;
ghost use Rattle.std.specs.Prelude.{◌≡◌, ◌++◌, codes, IfOk, IsOk};

use crate::executions::abort_value;
use crate::faults::fault_reply;
use crate::listing::Shows;
use crate::refusing::{denial, jobs_reply, policy_reply, refusal_reply, yaml_reply};
use crate::request_fault::RequestFault;
use crate::shown::{imported_value, policy_value, shown_value};
use rb_causes::{NoMemory, decimal};
use rb_log::{Answer, ImportedJob, Shown, View};
use rb_marks::Status;
use rb_reply::{
    ErrorCode, Response, error_reply, full, lost, memory_wanting, no_execution, printed,
    store_failed,
};
use rb_route::{ApiRouter, Route};
use rb_wire::Request;
use std::alloc::Global;

const GOOD: u16 = 200;

/// An execution that was begun.
fn accepted_reply(alloc: Global, view: &View) -> Result<Response, NoMemory>
    ensures { IfOk result (λ r. r ≡ printed (good (view_data view.now))) }
{
    printed(alloc, GOOD, &view.value(alloc)?)
}

/// What a look shows.
fn shown_reply(alloc: Global, shown: &Shown) -> Result<Response, NoMemory>
    ensures { IfOk result (λ r. r ≡ printed (good (shown_data shown.now))) }
{
    printed(alloc, GOOD, &shown_value(alloc, shown)?)
}

/// The jobs of an import.
fn jobs_imported(alloc: Global, jobs: &[ImportedJob], version: u64) -> Result<Response, NoMemory>
    ensures { IfOk result (λ r. r ≡ printed (good (imported_data jobs.now version))) }
{
    printed(alloc, GOOD, &imported_value(alloc, jobs, version)?)
}

/// A policy file that was imported.
fn policy_imported(alloc: Global, name: &str, version: u64) -> Result<Response, NoMemory>
    ensures { IfOk result (λ r. r ≡ printed (good (policy_data name.now version))) }
{
    printed(alloc, GOOD, &policy_value(alloc, name, version)?)
}

/// What was imported. No other route than two imports anything.
fn imported_reply(
    alloc: Global,
    route: Route,
    subject: &str,
    version: u64,
    jobs: &[ImportedJob],
) -> Result<Response, NoMemory>
    ensures { IfOk result (λ r.
        r ≡ printed (imported_reply route subject.now version jobs.now)) }
{
    match route {
        Route::ImportPolicy => policy_imported(alloc, subject, version),
        Route::ImportJobs => jobs_imported(alloc, jobs, version),
        Route::Run => jobs_imported(alloc, jobs, version),
        Route::Execution => jobs_imported(alloc, jobs, version),
        Route::State => jobs_imported(alloc, jobs, version),
        Route::Abort => jobs_imported(alloc, jobs, version),
        Route::Jobs => jobs_imported(alloc, jobs, version),
        Route::Resources => jobs_imported(alloc, jobs, version),
        Route::Executions => jobs_imported(alloc, jobs, version),
    }
}

/// The number that a path names.
fn number_in(text: &str) -> u64
    ensures { result ≡ number_in text.now }
{
    match decimal(text) {
        Some(number) => number,
        None => 0,
    }
}

/// What an abort has recorded.
fn aborted_reply(alloc: Global, number: &str, status: Status) -> Result<Response, NoMemory>
    ensures { IfOk result (λ r.
        r ≡ printed (good (abort_data (number_in number.now) status))) }
{
    let id = number_in(number);
    printed(alloc, GOOD, &abort_value(alloc, id, status)?)
}

fn no_project(alloc: Global, project: &str) -> Result<Response, NoMemory>
    ensures { IfOk result (λ r. r ≡ printed (error_reply code.NoProject
        (codes "no project " ++ project.now))) }
{
    let text = format!(in alloc; "no project {project}")?;
    error_reply(alloc, ErrorCode::NoProject, text.as_str())
}

fn id_taken(alloc: Global, id: &str) -> Result<Response, NoMemory>
    ensures { IfOk result (λ r. r ≡ printed (error_reply code.IdTaken
        (codes "id " ++ id.now ++ codes " is taken"))) }
{
    let text = format!(in alloc; "id {id} is taken")?;
    error_reply(alloc, ErrorCode::IdTaken, text.as_str())
}

fn name_taken(alloc: Global, id: &str) -> Result<Response, NoMemory>
    ensures { IfOk result (λ r. r ≡ printed (error_reply code.NameTaken
        (codes "name of " ++ id.now ++ codes " is taken"))) }
{
    let text = format!(in alloc; "name of {id} is taken")?;
    error_reply(alloc, ErrorCode::NameTaken, text.as_str())
}

/// The execution is no more to be aborted, since it has ended.
fn has_ended(alloc: Global, number: &str) -> Result<Response, NoMemory>
    ensures { IfOk result (λ r.
        r ≡ printed (error_reply code.Ended (ended_text number.now))) }
{
    let text = format!(in alloc; "execution {number} has ended")?;
    error_reply(alloc, ErrorCode::Ended, text.as_str())
}

/// The execution was aborted before.
fn is_aborting(alloc: Global, number: &str) -> Result<Response, NoMemory>
    ensures { IfOk result (λ r.
        r ≡ printed (error_reply code.Aborting (aborting_text number.now))) }
{
    let text = format!(in alloc; "execution {number} is aborting")?;
    error_reply(alloc, ErrorCode::Aborting, text.as_str())
}

/// The reply to an answer on a route, on what its path speaks of. No call of a request has an
/// answer of the last arms.
fn reply_on(
    alloc: Global,
    route: Route,
    subject: &str,
    answer: Answer,
) -> Result<Response, NoMemory>
    requires { IsNoTask answer }
    ensures ok { IfOk result (λ r. r ≡ printed (reply_on route subject.now answer)) }
    ensures store { answer ≡ answers.StoreFault → IsOk result }
    ensures memory { answer ≡ answers.NoMemory → IsOk result }
{
    match answer {
        Answer::NoMemory => Ok(memory_wanting()),
        Answer::StoreFault => Ok(store_failed()),
        Answer::Full => full(alloc),
        Answer::Imported { version, jobs } => imported_reply(
            alloc,
            route,
            subject,
            version,
            jobs.as_slice(),
        ),
        Answer::BadName => error_reply(alloc, ErrorCode::BadName, "name not read"),
        Answer::BadYaml(fault) => yaml_reply(alloc, &fault),
        Answer::BadPolicy(fault) => policy_reply(alloc, &fault),
        Answer::BadJobs(fault) => jobs_reply(alloc, &fault),
        Answer::TooManyFiles => error_reply(alloc, ErrorCode::TooMany, "too many policy files"),
        Answer::NoProject => no_project(alloc, subject),
        Answer::IdTaken(id) => id_taken(alloc, id.as_str()),
        Answer::NameTaken(id) => name_taken(alloc, id.as_str()),
        Answer::Denied(reason) => denial(alloc, &reason),
        Answer::Accepted(view) => accepted_reply(alloc, &view),
        Answer::Refused(refusal, reason) => refusal_reply(alloc, subject, &refusal, &reason),
        Answer::Aborted(status) => aborted_reply(alloc, subject, status),
        Answer::NoExecution => no_execution(alloc, subject),
        Answer::Ended => has_ended(alloc, subject),
        Answer::Aborting => is_aborting(alloc, subject),
        Answer::Shown(shown) => shown_reply(alloc, &shown),
        Answer::BadZone => Ok(lost()),
        Answer::BadNodes(_) => Ok(lost()),
        Answer::Fired(_) => Ok(lost()),
        Answer::Quiet => Ok(lost()),
        Answer::Withdrawn {
            execution: _,
            node: _,
            decision: _,
        } => Ok(lost()),
        Answer::Closed => Ok(lost()),
        Answer::Idle => Ok(lost()),
        Answer::Reported(_) => Ok(lost()),
        Answer::DoorClosed(_) => Ok(lost()),
        Answer::Saved => Ok(lost()),
        Answer::Task(_task) => unreachable!(),
    }
}

/// The reply to what the desk answers to a request.
pub fn reply_to(
    alloc: Global,
    router: &ApiRouter,
    request: &Request,
    answer: Answer,
) -> Result<Response, NoMemory>
    requires { IsNoTask answer }
    ensures ok { IfOk result (λ r. r ≡ printed (reply_to request.now answer)) }
    ensures store { answer ≡ answers.StoreFault → IsOk result }
    ensures memory { answer ≡ answers.NoMemory → IsOk result }
{
    match router.asked(request.path.as_str()) {
        Some(asked) => reply_on(alloc, asked.route, asked.subject, answer),
        None => {
            // No call has come of such a path: the answer is let go as any other.
            let _response = reply_on(alloc, Route::Run, "", answer);
            Ok(lost())
        }
    }
}

/// The reply to a request for which the desk is not asked.
pub fn refused(
    alloc: Global,
    router: &ApiRouter,
    request: &Request,
    fault: RequestFault,
) -> Result<Response, NoMemory>
    ensures { IfOk result (λ r. r ≡ printed (refused_reply request.now fault)) }
{
    match router.asked(request.path.as_str()) {
        None => fault_reply(alloc, "", fault),
        Some(asked) => fault_reply(alloc, asked.subject, fault),
    }
}
