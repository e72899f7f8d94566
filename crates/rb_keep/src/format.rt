//! The tables of a store, and the number of its format.

ghost use Rattle.rb_keep.specs.Passing.{Stays};
ghost use Rattle.rb_keep.specs.Stores.{has_shape};
ghost use Rattle.rb_keep.specs.Tables.{Holds, IsUnnumbered, Makes, Numbers, Second, Shapes, Stores};
ghost use Rattle.sqlite.specs.Held.{state};
ghost use Rattle.sqlite.specs.State.{HasCleanDisk};
ghost use Rattle.sqlite.specs.declared.types.Value.TheVariants.{Int};
ghost use Rattle.std.specs.Prelude.{◌≡◌, ◌∷◌, [], None, Some, IfOk, OnOk};

use crate::refusal::Refusal;
use sqlite::{Alter, Row, Transaction};
use sqlite_schema::names::same_name;
use sqlite_schema::schema::Schema;

/// Makes the table of the rows, where there is none.
pub(crate) fn make_entries<S: Alter>(tx: &mut Transaction<'_, S>) -> Result<(), Refusal>
    ensures same_reference { tx.new.conn.ghost_name ≡ tx.old.conn.ghost_name }
    ensures stays { Stays (state S.Store tx.old.conn.now) (state S.Store tx.new.conn.now) result }
    ensures made { HasCleanDisk (state S.Store tx.new.conn.now) → OnOk result
        (Makes (state S.Store tx.old.conn.now).now (state S.Store tx.new.conn.now).now) }
{
    tx.execute(
        "CREATE TABLE IF NOT EXISTS entries (seq INTEGER PRIMARY KEY, \
        kind INTEGER NOT NULL, at INTEGER NOT NULL, a INTEGER NOT NULL, b INTEGER NOT NULL, \
        c INTEGER NOT NULL, name BLOB NOT NULL, who BLOB NOT NULL, body BLOB NOT NULL)",
        &[],
    )?;
    Ok(())
}

fn make_shape<S: Alter>(tx: &mut Transaction<'_, S>) -> Result<(), Refusal>
    ensures same_reference { tx.new.conn.ghost_name ≡ tx.old.conn.ghost_name }
    ensures stays { Stays (state S.Store tx.old.conn.now) (state S.Store tx.new.conn.now) result }
    ensures made { HasCleanDisk (state S.Store tx.new.conn.now) → OnOk result
        (Shapes (state S.Store tx.old.conn.now).now (state S.Store tx.new.conn.now).now) }
{
    tx.execute(
        "CREATE TABLE IF NOT EXISTS shape (id INTEGER PRIMARY KEY CHECK (id = 1), \
        number INTEGER NOT NULL)",
        &[],
    )?;
    Ok(())
}

/// Makes what is missing of both tables. A store without a number, which is one of format 1, gets
/// the number 2, and its rows stay; one with another number is refused.
pub(crate) fn change_format<S: Alter>(tx: &mut Transaction<'_, S>) -> Result<(), Refusal>
    ensures same_reference { tx.new.conn.ghost_name ≡ tx.old.conn.ghost_name }
    ensures stays { Stays (state S.Store tx.old.conn.now) (state S.Store tx.new.conn.now) result }
    ensures settled { HasCleanDisk (state S.Store tx.new.conn.now) → OnOk result
        ((log : _) → Stores (state S.Store tx.old.conn.now).now log
        → Holds Second (state S.Store tx.new.conn.now).now log) }
{
    make_entries(tx)?;
    make_shape(tx)?;
    match shape(tx)? {
        None => write_shape(tx),
        Some(2) => Ok(()),
        Some(number) => Err(Refusal::Format(number)),
    }
}

/// The number of the format, where there is one.
fn shape<S: Alter>(tx: &mut Transaction<'_, S>) -> Result<Option<i64>, Refusal>
    ensures same_reference { tx.new.conn.ghost_name ≡ tx.old.conn.ghost_name }
    ensures stays { Stays (state S.Store tx.old.conn.now) (state S.Store tx.new.conn.now) result }
    ensures read { HasCleanDisk (state S.Store tx.new.conn.now) → IfOk result
        (Numbers (state S.Store tx.old.conn.now).now (state S.Store tx.new.conn.now).now) }
{
    let rows = tx.query_all("SELECT number FROM shape", &[])?;
    first_number(&rows)
}

fn first_number(rows: &[Row]) -> Result<Option<i64>, Refusal>
    ensures none { rows.now ≡ [] → IfOk result (λ found. found ≡ None) }
    ensures first { (n : _) → rows.now ≡ (Int n ∷ []) ∷ [] → IfOk result (λ found. found ≡ Some n) }
{
    match rows.first() {
        None => Ok(None),
        Some(row) => Ok(Some(row.get(0)?)),
    }
}

fn write_shape<S: Alter>(tx: &mut Transaction<'_, S>) -> Result<(), Refusal>
    ensures same_reference { tx.new.conn.ghost_name ≡ tx.old.conn.ghost_name }
    ensures stays { Stays (state S.Store tx.old.conn.now) (state S.Store tx.new.conn.now) result }
    ensures written { HasCleanDisk (state S.Store tx.new.conn.now) → OnOk result
        ((log : _) → IsUnnumbered (state S.Store tx.old.conn.now).now log
        → Holds Second (state S.Store tx.new.conn.now).now log) }
{
    tx.execute("INSERT INTO shape (id, number) VALUES (1, 2)", &[])?;
    Ok(())
}

/// Whether there is a table for the number of the format.
pub(crate) fn has_shape(schema: &Schema) -> bool
    ensures { result ≡ has_shape schema.now }
{
    let tables = schema.tables.as_slice();
    tables.iter().any(|table| same_name(table.name.as_slice(), "shape".as_bytes()))
}
