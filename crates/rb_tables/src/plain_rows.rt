//! Rows that hold numbers alone, and how many bytes of a row count.
ghost use Rattle.rb_log.specs.Rows.{close_row, counted_bytes, opened_row};
ghost use Rattle.std.specs.Bool.{Decides};
ghost use Rattle.std.specs.Prelude.{◌≡◌, ◌-◌, ◌^◌, min, IfOk};

use crate::kinds::{ABORT, CLOSE, OPENED};
use crate::running_rows::bare_row;
use rb_causes::{NoMemory, Row, Text};
use std::alloc::Global;

/// What stands in an opening with which the second check begins.
pub const SECOND_FORM: &str = "2";

/// The opening of a desk.
pub fn opened_row(
    alloc: Global,
    at: i64,
    doors: u32,
    workers: u32,
    draw: u64,
) -> Result<Row, NoMemory>
    ensures { IfOk result (λ row. row ≡ opened_row at doors workers draw) }
{
    let mut row = bare_row(
        alloc,
        OPENED,
        at,
        u64::from(doors),
        u64::from(workers),
        draw,
    );
    row.body = Text::of(alloc, SECOND_FORM)?;
    Ok(row)
}

/// The end of a door.
pub fn close_row(alloc: Global, at: i64, door: u32) -> Row
    ensures { result ≡ close_row at door }
{
    bare_row(alloc, CLOSE, at, u64::from(door), 0, 0)
}

/// The bytes of a row's texts that count for the greatest size of a log.
pub fn counted_bytes(row: &Row) -> u64
    ensures { result ≡ min (counted_bytes row.now) (2 ^ 64 - 1) }
{
    if row.kind == OPENED || row.kind == ABORT {
        return 0;
    }
    let who = row.who.as_str().len() as u64;
    let body = row.body.as_str().len() as u64;
    (row.name.as_str().len() as u64).saturating_add(who.saturating_add(body))
}

/// The moment of a row.
pub fn row_moment(row: &Row) -> i64
    ensures { result ≡ row.now.at }
{
    row.at
}

/// Whether both are the same row.
pub fn is_same_row(this: &Row, other: &Row) -> bool
    ensures { Decides result (this.now ≡ other.now) }
{
    this.kind == other.kind
        && this.at == other.at
        && this.a == other.a
        && this.b == other.b
        && this.c == other.c
        && this.name == other.name
        && this.who == other.who
        && this.body == other.body
}
