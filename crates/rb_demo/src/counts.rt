ghost use Rattle.rb_causes.specs.declared.row.Row.{Row};
ghost use Rattle.rb_demo.specs.Counting.{is_succeeded, succeeded_in};
ghost use Rattle.rb_log.specs.Executions.{executions};
ghost use Rattle.std.specs.Prelude.{◌≡◌, filter, length, nat_eq, reverse};

use rb_causes::{Row, SteadyKeeper};
use rb_desk::Desk;
use rb_log::laws::executions_are_numbered;
use rb_marks::Status;

/// What the demo counts.
#[derive(Clone, Copy, Debug, PartialEq, Eq)]
pub struct Counts {
    /// The nodes.
    pub nodes: u64,
    /// The nodes on which ann may run.
    pub allowed: u64,
    /// The runs that were accepted, each with an Accept row of the log.
    pub accepted: u64,
    /// The runs that were refused.
    pub denied: u64,
    /// The steps that were begun on a node, each with a Begin row of the log.
    pub begins: u64,
    /// The executions that have succeeded.
    pub succeeded: u64,
}

/// How many rows are of this kind.
pub(crate) fn count_of(rows: &[Row], kind: u8) -> u64
    ensures { result ≡ length (filter (λ row. nat_eq row.kind kind) rows.now) }
{
    rows.iter().filter(|row| row.kind == kind).count() as u64
}

/// How many executions of a desk have succeeded, of which there are so many.
pub(crate) fn succeeded(desk: &Desk<SteadyKeeper>, total: u64) -> u64
    requires { total ≡ length (executions (reverse desk.now.log)) }
    ensures { result ≡ succeeded_in (reverse desk.now.log) }
{
    executions_are_numbered();
    let mut count = 0;
    for before in 0..total {
        count += u64::from(is_succeeded(desk.status(before + 1)));
    }
    count
}

fn is_succeeded(status: Option<Status>) -> bool
    ensures { result ≡ is_succeeded status }
{
    match status {
        None => false,
        Some(Status::Succeeded) => true,
        Some(Status::Running) => false,
        Some(Status::Failed) => false,
        Some(Status::Aborted) => false,
        Some(Status::Incomplete) => false,
    }
}
