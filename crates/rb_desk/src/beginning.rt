//! What a desk begins with behind rows: their tables, and an opening.
ghost use Rattle.rb_causes.specs.Moments.{IsMoment};
ghost use Rattle.rb_desk.specs.Beginning.{IsNextOpening, IsReady, IsUnready};
ghost use Rattle.rb_desk.specs.Opening.{asked_of};
ghost use Rattle.rb_tables.specs.Tables.{most_rows};
ghost use Rattle.std.specs.Prelude.{◌≡◌, ◌≤◌, ◌<◌, ◌+◌, ◌^◌, nat_le, length, IfErr, IfOk};

use crate::following::tables_of;
use crate::open_err::OpenErr;
use rb_causes::{NoMemory, Row};
use rb_changes::opening::{Opening, numbers_below};
use rb_log::laws::opening_is_legal;
use rb_tables::tables::Tables;
use std::alloc::Global;

/// Whether an opening and a Close of each door have room behind these rows.
fn has_room_to_open(rows: &[Row], doors: u32, room: u64) -> bool
    ensures { result ≡ nat_le (length rows.now + 1 + doors) room }
{
    rows.len() as u64 + 1 + u64::from(doors) <= room
}

/// The opening that is asked for, no earlier than the last row.
fn next_opening(
    tables: &Tables,
    alloc: Global,
    doors: u32,
    workers: u32,
    draw: u64,
    at: i64,
) -> Result<Opening, NoMemory>
    ensures { IfOk result (IsNextOpening tables.now doors workers draw at) }
{
    let doors = numbers_below(alloc, doors)?;
    Ok(Opening {
        at: tables.moment(at),
        doors,
        workers,
        draw,
        checks: true,
    })
}

/// The tables of these rows, and the opening that is asked for behind them.
pub(crate) fn beginning(
    alloc: Global,
    rows: &[Row],
    doors: u32,
    workers: u32,
    draw: u64,
    room: u64,
    at: i64,
) -> Result<(Tables, Opening), OpenErr>
    requires doors { (1 ≤ doors) × (doors ≤ 16) }
    requires workers { (1 ≤ workers) × (workers ≤ 64) }
    requires draw { draw < 2 ^ 63 }
    requires room { room ≤ most_rows }
    requires at { IsMoment at }
    ensures ok { IfOk result (λ found.
        IsReady rows.now (asked_of doors workers draw room at) found.0 found.1) }
    ensures cause { IfErr result (IsUnready rows.now (asked_of doors workers draw room at)) }
{
    opening_is_legal();
    let tables = tables_of(alloc, rows)?;
    if !has_room_to_open(rows, doors, room) {
        return Err(OpenErr::Full);
    }
    match next_opening(&tables, alloc, doors, workers, draw, at) {
        Err(NoMemory) => Err(OpenErr::NoMemory),
        Ok(opening) => Ok((tables, opening)),
    }
}
