//! Why a row does not come next.
ghost use Rattle.rb_causes.specs.declared.row.Row.{Row};
ghost use Rattle.rb_desk.specs.Following.{
  answer_unfit,
  filter_unfit,
  job_unfit,
  pattern_unfit,
  policy_unfit,
};
ghost use Rattle.rb_desk.specs.declared.open_err.OpenErr.TheVariants as open_errs;
ghost use Rattle.rb_desk.specs.declared.unfit.Unfit.TheVariants as unfits;
ghost use Rattle.rb_log.specs.declared.call.Call.{Call};
ghost use Rattle.rb_tables.specs.Changes.{IsSettled};
ghost use Rattle.std.specs.Prelude.{◌≡◌, List};

use crate::open_err::OpenErr;
use rb_acl_doc::{AclFault, AclKind};
use rb_causes::NoMemory;
use rb_job::{JobFault, JobKind};
use rb_log::Answer;
use rb_node::FilterErr;
use rb_text::PatternErr;

/// Why a row does not come next.
#[derive(Clone, Copy, Debug, PartialEq, Eq)]
pub(crate) enum Unfit {
    /// By the rules it may not.
    Illegal,
    /// That could not be told.
    NoMemory,
}

impl From<NoMemory> for Unfit {
    ghost from_gives = { λ _ error. error ≡ unfits.NoMemory };

    fn from(_error: NoMemory) -> Unfit {
        Unfit::NoMemory
    }
}

impl Unfit {
    /// How it is told of the row with this number.
    pub(crate) fn at_row(self, number: u64) -> OpenErr
        ensures illegal { self ≡ unfits.Illegal → result ≡ open_errs.BadStore number }
        ensures memory { self ≡ unfits.NoMemory → result ≡ open_errs.NoMemory }
    {
        match self {
            Unfit::Illegal => OpenErr::BadStore(number),
            Unfit::NoMemory => OpenErr::NoMemory,
        }
    }
}

/// A pattern that is refused. One that grew too big may have been taken when its row was added; by
/// the rules no other was.
fn of_pattern_refusal(refusal: PatternErr) -> Unfit
    ensures { result ≡ pattern_unfit refusal }
{
    match refusal {
        PatternErr::BadPattern => Unfit::Illegal,
        PatternErr::TooLong => Unfit::Illegal,
        PatternErr::TooBig => Unfit::NoMemory,
        PatternErr::NoMemory => Unfit::NoMemory,
    }
}

/// A policy file that is not read.
fn of_policy_fault(fault: AclFault) -> Unfit
    ensures { result ≡ policy_unfit fault.kind }
{
    match fault.kind {
        AclKind::BadPattern(refusal) => of_pattern_refusal(refusal),
        _ => Unfit::Illegal,
    }
}

/// Jobs that are not read.
fn of_job_fault(fault: JobFault) -> Unfit
    ensures { result ≡ job_unfit fault.kind }
{
    match fault.kind {
        JobKind::BadPattern(refusal) => of_pattern_refusal(refusal),
        JobKind::BadFilter(error) => of_filter_fault(error),
        _ => Unfit::Illegal,
    }
}

/// A filter that is not read.
pub(crate) fn of_filter_fault(fault: FilterErr) -> Unfit
    ensures { result ≡ filter_unfit fault }
{
    match fault {
        FilterErr::BadClause { .. } => Unfit::Illegal,
        FilterErr::BadPattern(refusal) => of_pattern_refusal(refusal),
        FilterErr::EmptyValue => Unfit::Illegal,
        FilterErr::TooLong => Unfit::Illegal,
        FilterErr::NoMemory => Unfit::NoMemory,
    }
}

/// What a row is whose call is answered so without a row. No rule gives a task so.
pub(crate) fn of_answer(answer: Answer) -> Unfit
    requires { (past : List Row) × (call : Call) × IsSettled past call answer }
    ensures { result ≡ answer_unfit answer }
{
    match answer {
        Answer::NoMemory => Unfit::NoMemory,
        Answer::BadPolicy(fault) => of_policy_fault(fault),
        Answer::BadJobs(fault) => of_job_fault(fault),
        Answer::StoreFault => Unfit::Illegal,
        Answer::Full => Unfit::Illegal,
        Answer::Imported {
            version: _,
            jobs: _,
        } => Unfit::Illegal,
        Answer::BadZone => Unfit::Illegal,
        Answer::BadName => Unfit::Illegal,
        Answer::BadYaml(_) => Unfit::Illegal,
        Answer::BadNodes(_) => Unfit::Illegal,
        Answer::TooManyFiles => Unfit::Illegal,
        Answer::NoProject => Unfit::Illegal,
        Answer::IdTaken(_) => Unfit::Illegal,
        Answer::NameTaken(_) => Unfit::Illegal,
        Answer::Denied(_) => Unfit::Illegal,
        Answer::Accepted(_) => Unfit::Illegal,
        Answer::Refused(_, _) => Unfit::Illegal,
        Answer::Aborted(_) => Unfit::Illegal,
        Answer::NoExecution => Unfit::Illegal,
        Answer::Ended => Unfit::Illegal,
        Answer::Aborting => Unfit::Illegal,
        Answer::Fired(_) => Unfit::Illegal,
        Answer::Quiet => Unfit::Illegal,
        Answer::Task(_task) => unreachable!(),
        Answer::Withdrawn {
            execution: _,
            node: _,
            decision: _,
        } => Unfit::Illegal,
        Answer::Closed => Unfit::Illegal,
        Answer::Idle => Unfit::Illegal,
        Answer::Reported(_) => Unfit::Illegal,
        Answer::DoorClosed(_) => Unfit::Illegal,
        Answer::Shown(_) => Unfit::Illegal,
        Answer::Saved => Unfit::Illegal,
    }
}
