//! What is added behind the last row of a store, and what is taken away behind it.
ghost use Rattle.rb_keep.specs.Passing.{IsAsBefore, Passes, Stays};
ghost use Rattle.rb_keep.specs.Tables.{Adds, Stores};
ghost use Rattle.sqlite.specs.Held.{state};
ghost use Rattle.sqlite.specs.State.{HasCleanDisk};
ghost use Rattle.std.specs.Prelude.{◌≡◌, ◌∷◌, ◌++◌, ◌+ℤ◌, [], pos, length, false, IfOk, OnErr};

use crate::entry::{given, numbers_of};
use crate::format::make_entries;
use crate::refusal::{Refusal, UNDER_WAY};
use rb_causes::Row;
use sqlite::types::ValueRef;
use sqlite::{Alter, Connection, Transaction};

/// Adds rows behind the last one, all of them or none, and gives the number of the new last one.
pub(crate) fn append<S: Alter>(
    conn: &mut Connection<S>,
    last: i64,
    more: &[Row],
) -> Result<i64, Refusal>
    ensures idle { conn.old.in_transaction ≡ false → conn.new.in_transaction ≡ false }
    ensures passes { Passes (state S.Store conn.old) (state S.Store conn.new) }
    ensures refused { HasCleanDisk (state S.Store conn.new) →
        OnErr result (IsAsBefore (state S.Store conn.old) (state S.Store conn.new)) }
    ensures added { HasCleanDisk (state S.Store conn.new) →
        IfOk result (λ count. (count ≡ last +ℤ pos (length more.now))
        × Adds last more.now (state S.Store conn.old).now (state S.Store conn.new).now) }
{
    if !conn.is_autocommit() {
        return Err(UNDER_WAY);
    }
    let mut tx = conn.transaction();
    let count = add_all(&mut tx, last, more)?;
    tx.commit()?;
    Ok(count)
}

/// Adds rows behind the last one in a store of format 1, all of them or none, and gives the number
/// of the new last one.
pub(crate) fn put_first<S: Alter>(
    conn: &mut Connection<S>,
    last: i64,
    more: &[Row],
) -> Result<i64, Refusal>
    ensures idle { conn.old.in_transaction ≡ false → conn.new.in_transaction ≡ false }
    ensures passes { Passes (state S.Store conn.old) (state S.Store conn.new) }
    ensures refused { HasCleanDisk (state S.Store conn.new) →
        OnErr result (IsAsBefore (state S.Store conn.old) (state S.Store conn.new)) }
    ensures added { HasCleanDisk (state S.Store conn.new) →
        IfOk result (λ count. (count ≡ last +ℤ pos (length more.now))
        × ((log : _) → last ≡ pos (length log) → Stores (state S.Store conn.old).now log
        → Stores (state S.Store conn.new).now (log ++ more.now))) }
{
    if !conn.is_autocommit() {
        return Err(UNDER_WAY);
    }
    let mut tx = conn.transaction();
    make_entries(&mut tx)?;
    let count = add_all(&mut tx, last, more)?;
    tx.commit()?;
    Ok(count)
}

/// Adds rows behind the last one, and gives the number of the new last one.
fn add_all<S: Alter>(tx: &mut Transaction<'_, S>, last: i64, more: &[Row]) -> Result<i64, Refusal>
    ensures same_reference { tx.new.conn.ghost_name ≡ tx.old.conn.ghost_name }
    ensures stays { Stays (state S.Store tx.old.conn.now) (state S.Store tx.new.conn.now) result }
    ensures added { HasCleanDisk (state S.Store tx.new.conn.now) →
        IfOk result (λ count. (count ≡ last +ℤ pos (length more.now))
        × Adds last more.now (state S.Store tx.old.conn.now).now
        (state S.Store tx.new.conn.now).now) }
{
    let mut count = last;
    for row in more {
        count = add(tx, count, row)?;
    }
    Ok(count)
}

/// Adds a row behind the last one, and gives its number.
fn add<S: Alter>(tx: &mut Transaction<'_, S>, last: i64, row: &Row) -> Result<i64, Refusal>
    ensures same_reference { tx.new.conn.ghost_name ≡ tx.old.conn.ghost_name }
    ensures stays { Stays (state S.Store tx.old.conn.now) (state S.Store tx.new.conn.now) result }
    ensures added { HasCleanDisk (state S.Store tx.new.conn.now) →
        IfOk result (λ count. (count ≡ last +ℤ pos 1)
        × Adds last (row.now ∷ []) (state S.Store tx.old.conn.now).now
        (state S.Store tx.new.conn.now).now) }
{
    let Some(seq) = last.checked_add(1) else {
        return Err(Refusal::Number);
    };
    let numbers = numbers_of(seq, row)?;
    tx.execute(
        "INSERT INTO entries (seq, kind, at, a, b, c, name, who, body) \
        VALUES (?1, ?2, ?3, ?4, ?5, ?6, ?7, ?8, ?9)",
        &given(numbers, row),
    )?;
    Ok(seq)
}

/// Takes away the rows behind the last one that was kept: what a refused append may have left.
pub(crate) fn cut_behind<S: Alter>(conn: &mut Connection<S>, last: i64) -> Result<(), Refusal> {
    if !conn.is_autocommit() {
        return Err(UNDER_WAY);
    }
    let mut tx = conn.transaction();
    tx.execute("DELETE FROM entries WHERE seq > ?1", &[ValueRef::Int(last)])?;
    if greatest(&mut tx)? != last {
        return Err(Refusal::Lost);
    }
    tx.commit()?;
    Ok(())
}

/// The number of the last row, 0 where there is none.
fn greatest<S: Alter>(tx: &mut Transaction<'_, S>) -> Result<i64, Refusal> {
    let rows = tx.query_all("SELECT max(seq) FROM entries", &[])?;
    match rows.first() {
        None => Ok(0),
        Some(row) => Ok(row.get::<Option<i64>>(0)?.unwrap_or(0)),
    }
}
