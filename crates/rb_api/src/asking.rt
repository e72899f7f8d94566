//! The one call of the desk that a request makes, or why it makes none.
ghost use Rattle.rb_api.specs.Asking.{Calls, Demands, Filters, Gives, jobs_call_of, page_of};
ghost use Rattle.rb_api.specs.Calls.{args_read, call_of, call_on, demand, given_by};
ghost use Rattle.rb_api.specs.Calls.{import_policy_call, look_call, run_call, text_of};
ghost use Rattle.rb_api.specs.Calls.{without_fault, ComesTo};
ghost use Rattle.rb_api.specs.declared.request_fault.RequestFault.TheVariants as faults;
ghost use Rattle.rb_body.specs.Bodies.{run_body};
ghost use Rattle.rb_causes.specs.Numbers.{decimal_of};
ghost use Rattle.rb_option.specs.Arguments.{args_of};
ghost use Rattle.rb_query.specs.Queries.{first_faulty};
ghost use Rattle.std.specs.Prelude.{◌≡◌, ◌≢◌, ok_or, IfOk};

use crate::callers::{caller_by, copied_caller};
use crate::request_fault::{RequestFault, Unasked};
use crate::token::Token;
use rb_acl::Caller;
use rb_body::{BodyErr, RunBody, run_body};
use rb_causes::{Items, NoMemory, Prop, Text, decimal};
use rb_log::{Call, Look};
use rb_node::{Filter, FilterErr};
use rb_option::{ArgsErr, read_args};
use rb_plan::RunAsk;
use rb_query::{Query, faulty_query, number_or, query_pairs, status_asked};
use rb_route::{ApiRouter, Route, is_version, takes_method};
use rb_wire::Request;
use std::alloc::Global;
use std::str;

/// How many executions are shown where nothing else is asked for.
const SHOWN_BY_DEFAULT: u64 = 20;

/// An import asks for permission.
const CHECKED: bool = true;

/// No text of a body is so long.
const TOO_LONG: usize = 4_294_967_296;

/// The call that a request makes at this moment, or why it makes none.
pub fn asked(
    alloc: Global,
    router: &ApiRouter,
    tokens: &[Token],
    request: &Request,
    at: i64,
) -> Result<Result<Call, RequestFault>, NoMemory>
    ensures { IfOk result (ComesTo tokens.now request.now at) }
{
    match call_of(alloc, router, tokens, request, at) {
        Ok(call) => Ok(Ok(call)),
        Err(Unasked::Fault(fault)) => Ok(Err(fault)),
        Err(Unasked::NoMemory) => Err(NoMemory),
    }
}

/// What has to hold, or else the fault.
fn demand(holds: bool, fault: RequestFault) -> Result<(), Unasked>
    requires { fault ≢ faults.BadFilter }
    ensures { Demands (demand holds fault) result }
{
    if holds {
        Ok(())
    } else {
        Err(Unasked::Fault(fault))
    }
}

/// The call of a request, or the first fault that is looked for.
fn call_of(
    alloc: Global,
    router: &ApiRouter,
    tokens: &[Token],
    request: &Request,
    at: i64,
) -> Result<Call, Unasked>
    ensures { Calls (call_of tokens.now request.now at) result }
{
    let Some(caller) = caller_by(tokens, &request.token) else {
        return Err(Unasked::Fault(RequestFault::Unauthorized));
    };
    let Some(asked) = router.asked(request.path.as_str()) else {
        return Err(Unasked::Fault(RequestFault::NoRoute));
    };
    demand(
        takes_method(asked.route, request.method.as_str()),
        RequestFault::NoMethod,
    )?;
    demand(is_version(asked.version), RequestFault::BadVersion)?;
    let caller = copied_caller(alloc, caller)?;
    call_on(alloc, caller, asked.subject, request, at, asked.route)
}

/// The call of a caller on a route, on what its path speaks of.
fn call_on(
    alloc: Global,
    caller: Caller,
    subject: &str,
    request: &Request,
    at: i64,
    route: Route,
) -> Result<Call, Unasked>
    ensures { Calls (call_on caller subject.now request.now at route) result }
{
    match route {
        Route::Run => run_call(alloc, caller, subject, request.body.as_slice(), at),
        Route::Execution => Ok(look_call(caller, Look::Execution(number_of(subject)?))),
        Route::State => Ok(look_call(caller, Look::State(number_of(subject)?))),
        Route::Abort => Ok(Call::Abort {
            caller,
            execution: number_of(subject)?,
            at,
        }),
        Route::Jobs => Ok(look_call(caller, Look::Jobs(Text::of(alloc, subject)?))),
        Route::ImportJobs => import_jobs_call(alloc, caller, subject, request, at),
        Route::Resources => Ok(look_call(caller, Look::Resources(Text::of(alloc, subject)?))),
        Route::Executions => Ok(look_call(
            caller,
            page_asked(alloc, subject, request.query.as_str())?,
        )),
        Route::ImportPolicy => import_policy_call(
            alloc,
            caller,
            subject,
            request.body.as_slice(),
            at,
        ),
    }
}

fn look_call(caller: Caller, look: Look) -> Call
    ensures { result ≡ look_call caller look }
{
    Call::Look { caller, look }
}

/// The number of an execution; what is no decimal names none.
fn number_of(text: &str) -> Result<u64, Unasked>
    ensures { Gives (ok_or (decimal_of text.now) faults.NoExecution) result }
{
    match decimal(text) {
        Some(number) => Ok(number),
        None => Err(Unasked::Fault(RequestFault::NoExecution)),
    }
}

/// What the body of a request for a run says.
fn said_in(alloc: Global, body: &[u8]) -> Result<RunBody, Unasked>
    ensures { Gives (ok_or (run_body body.now) faults.BadBody) result }
{
    match run_body(alloc, body) {
        Ok(said) => Ok(said),
        Err(BodyErr::BadBody) => Err(Unasked::Fault(RequestFault::BadBody)),
        Err(BodyErr::NoMemory) => Err(Unasked::NoMemory),
    }
}

/// A run of a job.
fn run_call(alloc: Global, caller: Caller, job: &str, body: &[u8], at: i64) -> Result<Call, Unasked>
    ensures { Calls (run_call caller job.now body.now at) result }
{
    let RunBody {
        options,
        args,
        filter,
    } = said_in(alloc, body)?;
    let given = given_by(alloc, options, args)?;
    let filter = filter_of(alloc, filter)?;
    let job = Text::of(alloc, job)?;
    Ok(Call::Run {
        caller,
        ask: RunAsk { job, given, filter },
        at,
    })
}

/// What is given to a run: by its options, and where there are none by the words of its args, in
/// their order.
fn given_by(
    alloc: Global,
    options: Option<Items<Prop>>,
    args: Option<Text>,
) -> Result<Items<Prop>, Unasked>
    ensures { Gives (given_by options args) result }
{
    match options {
        Some(options) => Ok(options),
        None => match args {
            Some(args) => args_read(alloc, args.as_str()),
            None => Ok(Items::new(alloc)),
        },
    }
}

/// The pairs that a text writes.
fn args_read(alloc: Global, args: &str) -> Result<Items<Prop>, Unasked>
    ensures { Gives (args_read (args_of args.now)) result }
{
    if TOO_LONG <= args.len() {
        return Err(Unasked::NoMemory);
    }
    match read_args(alloc, args) {
        Ok(pairs) => Ok(Items::of(pairs)),
        Err(ArgsErr::OpenQuote) => Err(Unasked::Fault(RequestFault::BadArgs)),
        Err(ArgsErr::NotAnOption(_)) => Err(Unasked::Fault(RequestFault::BadArgs)),
        Err(ArgsErr::NoValue(_)) => Err(Unasked::Fault(RequestFault::BadArgs)),
        Err(ArgsErr::NoMemory) => Err(Unasked::NoMemory),
    }
}

/// The filter that stands in for the job's own.
fn filter_of(alloc: Global, text: Option<Text>) -> Result<Option<Filter>, Unasked>
    ensures { Filters text result }
{
    let Some(text) = text else {
        return Ok(None);
    };
    match Filter::read(alloc, text.as_str()) {
        Ok(filter) => Ok(Some(filter)),
        Err(FilterErr::BadClause { at: _ }) => Err(Unasked::Fault(RequestFault::BadFilter)),
        Err(FilterErr::BadPattern(_)) => Err(Unasked::Fault(RequestFault::BadFilter)),
        Err(FilterErr::EmptyValue) => Err(Unasked::Fault(RequestFault::BadFilter)),
        Err(FilterErr::TooLong) => Err(Unasked::Fault(RequestFault::BadFilter)),
        Err(FilterErr::NoMemory) => Err(Unasked::NoMemory),
    }
}

/// No value of a query of the route is refused.
fn without_fault(route: Route, pairs: &[Prop]) -> Result<(), Unasked>
    ensures { Demands (without_fault (first_faulty route pairs.now pairs.now)) result }
{
    match faulty_query(route, pairs) {
        None => Ok(()),
        Some(query) => Err(Unasked::Fault(RequestFault::BadQuery(query))),
    }
}

/// A page of a project's executions.
fn page_asked(alloc: Global, project: &str, query: &str) -> Result<Look, Unasked>
    ensures { Gives (page_of project.now query.now) result }
{
    let pairs = query_pairs(alloc, query)?;
    without_fault(Route::Executions, pairs.as_slice())?;
    Ok(Look::Executions {
        project: Text::of(alloc, project)?,
        max: number_or(SHOWN_BY_DEFAULT, Query::Max, pairs.as_slice()),
        offset: number_or(0, Query::Offset, pairs.as_slice()),
        status: status_asked(pairs.as_slice()),
    })
}

/// The text that a body is.
fn text_of(alloc: Global, body: &[u8]) -> Result<Text, Unasked>
    ensures { Gives (text_of body.now) result }
{
    match str::from_utf8(body) {
        Ok(text) => Ok(Text::of(alloc, text)?),
        Err(_) => Err(Unasked::Fault(RequestFault::BadBody)),
    }
}

/// An import of jobs, for which permission is asked.
fn import_jobs_call(
    alloc: Global,
    caller: Caller,
    project: &str,
    request: &Request,
    at: i64,
) -> Result<Call, Unasked>
    ensures { Calls (jobs_call_of caller project.now request.now at) result }
{
    let pairs = query_pairs(alloc, request.query.as_str())?;
    without_fault(Route::ImportJobs, pairs.as_slice())?;
    let body = text_of(alloc, request.body.as_slice())?;
    let project = Text::of(alloc, project)?;
    Ok(Call::ImportJobs {
        caller,
        checked: CHECKED,
        project,
        body,
        at,
    })
}

/// An import of a policy file, for which permission is asked.
fn import_policy_call(
    alloc: Global,
    caller: Caller,
    name: &str,
    body: &[u8],
    at: i64,
) -> Result<Call, Unasked>
    ensures { Calls (import_policy_call caller name.now body.now at) result }
{
    let body = text_of(alloc, body)?;
    let name = Text::of(alloc, name)?;
    Ok(Call::ImportPolicy {
        caller,
        checked: CHECKED,
        name,
        body,
        at,
    })
}
