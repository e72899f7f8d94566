//! Rows, and stores that another program has made.
use rb_causes::{NoMemory, Row, Text};
use std::alloc::Global;

/// The table of the rows as a program of format 1 makes it, with two rows.
pub(crate) const FIRST: &str = "CREATE TABLE entries (seq INTEGER PRIMARY KEY, \
    kind INTEGER NOT NULL, at INTEGER NOT NULL, a INTEGER NOT NULL, b INTEGER NOT NULL, \
    c INTEGER NOT NULL, name BLOB NOT NULL, who BLOB NOT NULL, body BLOB NOT NULL);
    INSERT INTO entries VALUES (1, 1, 0, 1, 1, 0, x'', x'', x'');
    INSERT INTO entries VALUES (2, 9, 1700000000, 1, 0, 257, x'6f6e65', x'616e6e', x'c3a4');";

fn row(alloc: Global, kind: u8, c: u64, name: &str) -> Result<Row, NoMemory> {
    Ok(Row {
        kind,
        at: 1_700_000_000,
        a: 1,
        b: 0,
        c,
        name: Text::of(alloc, name)?,
        who: Text::of(alloc, "ann\nops")?,
        body: Text::of(alloc, "")?,
    })
}

pub(crate) fn pair(alloc: Global) -> Result<Vec<Row>, NoMemory> {
    let mut rows = Vec::new(alloc);
    rows.push(row(alloc, 1, 0, "ä")?)?;
    rows.push(row(alloc, 255, 9_223_372_036_854_775_807, "two")?)?;
    Ok(rows)
}

/// A pair, and behind it a row of which a number is too large.
pub(crate) fn refused(alloc: Global) -> Result<Vec<Row>, NoMemory> {
    let mut rows = pair(alloc)?;
    rows.push(row(alloc, 1, 9_223_372_036_854_775_808, "")?)?;
    Ok(rows)
}

fn is_same(row: &Row, other: &Row) -> bool {
    let numbers = (row.kind, row.at, row.a, row.b, row.c);
    numbers == (other.kind, other.at, other.a, other.b, other.c)
        && row.name == other.name
        && row.who == other.who
        && row.body == other.body
}

/// Whether these are so many rows, the pair again and again.
pub(crate) fn are_pairs(alloc: Global, rows: &[Row], count: usize) -> Result<bool, NoMemory> {
    let pair = pair(alloc)?;
    let mut same = rows.len() == count;
    for (place, row) in rows.iter().enumerate() {
        let wanted = pair.get(place % 2);
        same = same && wanted.is_some_and(|wanted| is_same(row, wanted));
    }
    Ok(same)
}
