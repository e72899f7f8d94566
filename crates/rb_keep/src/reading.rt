//! The rows of a store, as they are read again.
ghost use Rattle.rb_keep.specs.Passing.{IsAsBefore, Passes, Stays};
ghost use Rattle.rb_keep.specs.Tables.{Holds, Second, Stores, row_in};
ghost use Rattle.sqlite.specs.Held.{state};
ghost use Rattle.sqlite.specs.State.{HasCleanDisk};
ghost use Rattle.std.specs.Prelude.{◌≡◌, false, map, IfOk, OnErr};

use crate::entry::read_row;
use crate::format::change_format;
use crate::refusal::{Refusal, UNDER_WAY};
use rb_causes::Row;
use sqlite::{Alter, Connection, Transaction};
use std::alloc::Global;

/// All rows of a store, whose format is changed where it has to be. Both are one transaction, so
/// that a store with an entry that is no row stays as it was.
pub(crate) fn settled_rows<S: Alter>(
    alloc: Global,
    conn: &mut Connection<S>,
) -> Result<Vec<Row>, Refusal>
    ensures idle { conn.old.in_transaction ≡ false → conn.new.in_transaction ≡ false }
    ensures passes { Passes (state S.Store conn.old) (state S.Store conn.new) }
    ensures refused { HasCleanDisk (state S.Store conn.new) →
        OnErr result (IsAsBefore (state S.Store conn.old) (state S.Store conn.new)) }
    ensures settled { HasCleanDisk (state S.Store conn.new) →
        IfOk result (λ rows. (log : _) → Stores (state S.Store conn.old).now log
        → (rows.items ≡ log) × Holds Second (state S.Store conn.new).now log) }
{
    if !conn.is_autocommit() {
        return Err(UNDER_WAY);
    }
    let mut tx = conn.transaction();
    change_format(&mut tx)?;
    let rows = all_rows(alloc, &mut tx)?;
    tx.commit()?;
    Ok(rows)
}

/// The rows in order, which are numbered from 1 without a gap.
fn all_rows<S: Alter>(alloc: Global, tx: &mut Transaction<'_, S>) -> Result<Vec<Row>, Refusal>
    ensures same_reference { tx.new.conn.ghost_name ≡ tx.old.conn.ghost_name }
    ensures stays { Stays (state S.Store tx.old.conn.now) (state S.Store tx.new.conn.now) result }
    ensures read { HasCleanDisk (state S.Store tx.new.conn.now) →
        IfOk result (λ rows. (log : _) → Holds Second (state S.Store tx.old.conn.now).now log
        → (rows.items ≡ log) × Holds Second (state S.Store tx.new.conn.now).now log) }
{
    let stored = tx.query_all(
        "SELECT seq, kind, at, a, b, c, name, who, body FROM entries ORDER BY seq",
        &[],
    )?;
    read_all(alloc, &stored)
}

/// The rows of a log as they are stored, numbered from 1.
fn read_all(alloc: Global, stored: &[sqlite::Row]) -> Result<Vec<Row>, Refusal>
    ensures { IfOk result (λ rows. rows.items ≡ map row_in stored.now) }
{
    let mut rows = Vec::new(alloc);
    let mut seq = 0u64;
    for row in stored {
        seq = seq.saturating_add(1);
        rows.push(read_row(row, seq)?)?;
    }
    Ok(rows)
}
