//! The rows by which executions go on.
ghost use Rattle.rb_log.specs.Rows.{abort_row, bare_row, begin_row, end_row, ending_number, withdraw_row};
ghost use Rattle.std.specs.Prelude.{◌≡◌, [], IfOk};

use crate::kinds::{ABORT, BEGIN, END, WITHDRAW};
use crate::who::who_text;
use rb_acl::Caller;
use rb_causes::{Ending, NoMemory, Row, Text};
use std::alloc::Global;
use std::string::String;

/// What a row holds of a program that could not be started.
const NOT_STARTED: u64 = 257;

fn no_text(alloc: Global) -> Text
    ensures { result ≡ [] }
{
    Text::from_string(String::new(alloc))
}

/// A row with numbers alone.
pub fn bare_row(alloc: Global, kind: u8, at: i64, a: u64, b: u64, c: u64) -> Row
    ensures { result ≡ bare_row kind at a b c }
{
    let name = no_text(alloc);
    let who = no_text(alloc);
    let body = no_text(alloc);
    Row {
        kind,
        at,
        a,
        b,
        c,
        name,
        who,
        body,
    }
}

/// The row of a leaf that begins, by its number.
pub fn begin_row(alloc: Global, at: i64, execution: u64, leaf: u64, worker: u32) -> Row
    ensures { result ≡ begin_row at execution leaf worker }
{
    bare_row(alloc, BEGIN, at, execution, leaf, u64::from(worker))
}

fn ending_number(ending: Ending) -> u64
    ensures { result ≡ ending_number ending }
{
    match ending {
        Ending::Code(code) => u64::from(code),
        Ending::NotStarted => NOT_STARTED,
    }
}

/// The row of a leaf that ends, by its number.
pub fn end_row(alloc: Global, at: i64, execution: u64, leaf: u64, ending: Ending) -> Row
    ensures { result ≡ end_row at execution leaf ending }
{
    bare_row(alloc, END, at, execution, leaf, ending_number(ending))
}

/// The row of an abort.
pub fn abort_row(alloc: Global, at: i64, execution: u64, caller: &Caller) -> Result<Row, NoMemory>
    ensures { IfOk result (λ row. row ≡ abort_row at execution caller.now) }
{
    let mut row = bare_row(alloc, ABORT, at, execution, 0, 0);
    row.who = who_text(alloc, caller)?;
    Ok(row)
}

/// The row of a node that is withdrawn, by its place, and by the policies of this number.
pub fn withdraw_row(alloc: Global, at: i64, execution: u64, node: u32, policy_number: u64) -> Row
    ensures { result ≡ withdraw_row at execution node policy_number }
{
    bare_row(
        alloc,
        WITHDRAW,
        at,
        execution,
        u64::from(node),
        policy_number,
    )
}
