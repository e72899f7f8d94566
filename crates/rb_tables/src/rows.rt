//! The rows of imports, as they are made.
ghost use Rattle.rb_log.specs.Rows.{who_text, flag, nodes_row, imported_row, jobs_row, policy_row, skipped_row, zone_row};
ghost use Rattle.std.specs.Prelude.{◌≡◌, IfOk};

use crate::kinds::{JOBS, NODES, POLICY, SKIPPED, ZONE};
use crate::who::who_text;
use rb_acl::Caller;
use rb_causes::{NoMemory, Row, Text};
use std::alloc::Global;

/// The row of an import of a zone.
pub fn zone_row(alloc: Global, at: i64, number: u64, zone: Text, rule: Text) -> Row
    ensures { result ≡ zone_row at number zone rule }
{
    Row {
        kind: ZONE,
        at,
        a: number,
        b: 0,
        c: 0,
        name: zone,
        who: Text::from_string(String::new(alloc)),
        body: rule,
    }
}

/// The row of a due job that was refused by the rule of this number.
pub fn skipped_row(alloc: Global, at: i64, due: u64, refusal: u64, job: Text) -> Row
    ensures { result ≡ skipped_row at due refusal job }
{
    Row {
        kind: SKIPPED,
        at,
        a: due,
        b: refusal,
        c: 0,
        name: job,
        who: Text::from_string(String::new(alloc)),
        body: Text::from_string(String::new(alloc)),
    }
}

/// The row of an import of nodes.
pub fn nodes_row(alloc: Global, at: i64, number: u64, project: Text, body: Text) -> Row
    ensures { result ≡ nodes_row at number project body }
{
    Row {
        kind: NODES,
        at,
        a: number,
        b: 0,
        c: 0,
        name: project,
        who: Text::from_string(String::new(alloc)),
        body,
    }
}

/// 1 for an import for which permission was asked.
fn flag(checked: bool) -> u64
    ensures { result ≡ flag checked }
{
    if checked { 1 } else { 0 }
}

/// The row of an import by a caller, whom this text names.
fn imported_row(
    kind: u8,
    at: i64,
    number: u64,
    checked: bool,
    name: Text,
    who: Text,
    body: Text,
) -> Row
    ensures { (caller : Caller) → who ≡ who_text caller →
        result ≡ imported_row kind at number checked name caller body }
{
    Row {
        kind,
        at,
        a: number,
        b: flag(checked),
        c: 0,
        name,
        who,
        body,
    }
}

/// The row of an import of jobs.
pub fn jobs_row(
    alloc: Global,
    at: i64,
    number: u64,
    checked: bool,
    project: Text,
    importer: &Caller,
    body: Text,
) -> Result<Row, NoMemory>
    ensures { IfOk result (λ row.
        row ≡ jobs_row at number checked project importer.now body) }
{
    let who = who_text(alloc, importer)?;
    Ok(imported_row(JOBS, at, number, checked, project, who, body))
}

/// The row of an import of a policy file.
pub fn policy_row(
    alloc: Global,
    at: i64,
    number: u64,
    checked: bool,
    file: Text,
    caller: &Caller,
    body: Text,
) -> Result<Row, NoMemory>
    ensures { IfOk result (λ row.
        row ≡ policy_row at number checked file caller.now body) }
{
    let who = who_text(alloc, caller)?;
    Ok(imported_row(POLICY, at, number, checked, file, who, body))
}
