use crate::keeping::others;
use crate::samples::{are_pairs, pair};
use rb_causes::{Keeper, NoMemory, Row};
use rb_keep::{FirstErr, MemSqlKeeper, SqlKeeper};
use std::alloc::Global;
use std::test::Fail;

/// How many rows there are, where all are of pairs.
fn pairs_in(alloc: Global, keeper: &mut MemSqlKeeper) -> Result<Option<usize>, NoMemory> {
    match keeper.rows(alloc) {
        Ok(rows) => {
            let count = rows.len();
            let are_pairs = are_pairs(alloc, rows.as_slice(), count)?;
            Ok(if are_pairs { Some(count) } else { None })
        }
        Err(_) => Ok(None),
    }
}

/// Whether rows of format 1, and then others, come back.
fn goes_on(alloc: Global, keeper: &mut MemSqlKeeper, pair: &[Row]) -> Result<bool, NoMemory> {
    let first = keeper.append_first(pair) == Ok(());
    let read = pairs_in(alloc, keeper)? == Some(2);
    let shaped = keeper.append_first(pair) == Err(FirstErr::Shaped);
    let kept = keeper.append(pair) == Ok(());
    Ok(first && read && shaped && kept && pairs_in(alloc, keeper)? == Some(4))
}

#[test]
fn rows_in_memory_come_back(rt: HostRuntime) -> Result<(), Fail> {
    let alloc = rt.alloc();
    let pair = pair(alloc)?;
    let mut keeper = SqlKeeper::in_memory(alloc)?;
    assert!(rt; goes_on(alloc, &mut keeper, pair.as_slice())?);
    Ok(())
}

/// Files, one behind another, and what is done with each: rows are appended and read, and
/// statements are run on it as by another program.
const STORES: [(&str, &str); 9] = [
    (
        "outlives.db",
        "append => kept
append => kept
rows => 4 of pairs
",
    ),
    (
        "outlives.db",
        "rows => 4 of pairs
append => kept
",
    ),
    (
        "outlives.db",
        "append nothing => kept
rows => 6 of pairs
",
    ),
    (
        "first.db",
        "format 1 => done
rows => 2 others
append => kept
rows => 4 others
",
    ),
    (
        "first.db",
        "SELECT number FROM shape => 2
SELECT max(seq) FROM entries => 4
SELECT kind * 1000 + c FROM entries WHERE seq = 2 => 9257
SELECT count(*) FROM entries WHERE who = x'616e6e' AND body = x'c3a4' => 1
",
    ),
    (
        "unnumbered.db",
        "format 1 => done
CREATE TABLE shape (id INTEGER PRIMARY KEY CHECK (id = 1), number INTEGER NOT NULL) => done
append => kept
rows => 4 others
",
    ),
    (
        "unnumbered.db",
        "SELECT number FROM shape => 2
",
    ),
    // What stands behind the last row that was kept, as a commit whose sync failed may leave it, is
    // taken away.
    (
        "behind.db",
        "append => kept
append too much => fault
INSERT INTO entries VALUES (3, 1, 0, 1, 1, 0, x'', x'', x'') => done
rows => 2 of pairs
append too much => fault
INSERT INTO entries VALUES (3, 1, 0, 1, 1, 0, x'', x'', x'') => done
append => kept
rows => 4 of pairs
",
    ),
    (
        "gone.db",
        "append => kept
append too much => fault
DELETE FROM entries WHERE seq = 2 => done
append => fault
rows => fault
SELECT max(seq) FROM entries => 1
",
    ),
];

#[test]
fn rows_of_a_file_outlive_their_keeper(rt: HostRuntime) -> Result<(), Fail> {
    for (path, script) in &STORES {
        assert_eq!(rt; others(rt, *path, *script)?.as_str(), "", "{path}");
    }
    Ok(())
}

/// What another program has done to a log of format 1: gaps, numbers out of range, texts that are
/// none, another format; and the rows that are left.
const SPOILED: [(&str, &str, u32, u32); 13] = [
    ("gap.db", "UPDATE entries SET seq = 3 WHERE seq = 2", 1, 2),
    ("zero.db", "UPDATE entries SET seq = 0 WHERE seq = 1", 1, 2),
    ("begins.db", "DELETE FROM entries WHERE seq = 1", 1, 1),
    (
        "kind.db",
        "UPDATE entries SET kind = 256 WHERE seq = 2",
        1,
        2,
    ),
    (
        "negative.db",
        "UPDATE entries SET kind = -1 WHERE seq = 2",
        1,
        2,
    ),
    ("a.db", "UPDATE entries SET a = -1 WHERE seq = 1", 1, 2),
    ("b.db", "UPDATE entries SET b = -1 WHERE seq = 2", 1, 2),
    (
        "c.db",
        "UPDATE entries SET c = -9223372036854775808 WHERE seq = 2",
        1,
        2,
    ),
    (
        "word.db",
        "UPDATE entries SET at = 'noon' WHERE seq = 2",
        1,
        2,
    ),
    (
        "name.db",
        "UPDATE entries SET name = x'ff' WHERE seq = 1",
        1,
        2,
    ),
    (
        "who.db",
        "UPDATE entries SET who = x'c3' WHERE seq = 2",
        1,
        2,
    ),
    (
        "body.db",
        "UPDATE entries SET body = x'6180' WHERE seq = 2",
        1,
        2,
    ),
    (
        "third.db",
        "CREATE TABLE shape (id INTEGER PRIMARY KEY CHECK (id = 1), number INTEGER NOT NULL); \
INSERT INTO shape VALUES (1, 3)",
        2,
        2,
    ),
];

#[test]
fn a_spoiled_log_is_a_fault_and_stays(rt: HostRuntime) -> Result<(), Fail> {
    let alloc = rt.alloc();
    for (path, change, tables, rows) in &SPOILED {
        let script = format!(in alloc;
            "format 1 => done\n{change} => done\nappend => fault\nrows => fault\n\
SELECT count(*) FROM sqlite_schema => {tables}\nSELECT count(*) FROM entries => {rows}\n"
        )?;
        assert_eq!(rt; others(rt, *path, script.as_str())?.as_str(), "", "{path}");
    }
    Ok(())
}
