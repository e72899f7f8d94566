//! Desks over files, stopped and opened again.
use crate::desks::{PLAIN, opened};
use crate::stopped_run::{are_same, run};
use rb_causes::{Keeper, NoMemory, Text, Trouble};
use rb_desk::OpenErr;
use rb_keep::SqlKeeper;
use rb_marks::Status;
use sqlite::Connection;
use std::alloc::Global;
use std::test::Fail;

fn at(rt: HostRuntime, path: &str) -> Result<SqlKeeper, NoMemory> {
    Ok(SqlKeeper::at(rt, Text::of(rt.alloc(), path)?))
}

/// Why the file opens no desk; None where it does.
fn refused(rt: HostRuntime, path: &str) -> Result<Option<OpenErr>, NoMemory> {
    match opened(rt.alloc(), at(rt, path)?, PLAIN.room) {
        Ok(_desk) => Ok(None),
        Err(error) => Ok(Some(error)),
    }
}

#[test]
fn a_desk_goes_on_over_its_file(rt: HostRuntime) -> Result<(), Fail> {
    let alloc = rt.alloc();
    at(rt, "desk.db")?.append(&run(alloc)?)?;
    for count in 7..10usize {
        let desk = opened(alloc, at(rt, "desk.db")?, PLAIN.room)?;
        assert_eq!(rt; desk.status(1), Some(Status::Incomplete));
        assert_eq!(rt; desk.saved(), count as u64);
        let log = desk.into_log();
        let kept = at(rt, "desk.db")?.rows(alloc)?;
        assert!(rt; log.len() == count && are_same(&kept, &log));
    }
    Ok(())
}

#[test]
fn a_file_of_format_1_opens_a_desk(rt: HostRuntime) -> Result<(), Fail> {
    let alloc = rt.alloc();
    at(rt, "first.db")?.append(&run(alloc)?)?;
    Connection::open(&rt, "first.db")?.execute_batch("DROP TABLE shape")?;
    let desk = opened(alloc, at(rt, "first.db")?, PLAIN.room)?;
    assert_eq!(rt; desk.log().len(), 7);
    assert_eq!(rt; desk.log()[6].body.as_str(), "2");
    assert_eq!(rt; desk.status(1), Some(Status::Incomplete));
    Ok(())
}

#[test]
fn a_desk_has_its_file_alone(rt: HostRuntime) -> Result<(), Fail> {
    let alloc = rt.alloc();
    let desk = opened(alloc, at(rt, "alone.db")?, PLAIN.room)?;
    assert_eq!(rt; refused(rt, "alone.db")?, Some(OpenErr::StoreFault));
    assert!(rt;
        at(rt, "alone.db")?
            .rows(alloc)
            .is_err_and(|e| e == Trouble::Failed)
    );
    let log = desk.into_log();
    assert!(rt; are_same(&at(rt, "alone.db")?.rows(alloc)?, &log));
    Ok(())
}

/// What is done to a file of the run's rows, and why it then opens no desk.
const SPOILED: [(&str, &str, OpenErr); 5] = [
    (
        "run_gap.db",
        "DELETE FROM entries WHERE seq = 3",
        OpenErr::StoreFault,
    ),
    (
        "run_kind.db",
        "UPDATE entries SET kind = 256 WHERE seq = 2",
        OpenErr::StoreFault,
    ),
    (
        "run_text.db",
        "UPDATE entries SET body = x'ff' WHERE seq = 2",
        OpenErr::StoreFault,
    ),
    (
        "run_format.db",
        "UPDATE shape SET number = 3",
        OpenErr::StoreFault,
    ),
    (
        "run_illegal.db",
        "UPDATE entries SET a = 7 WHERE seq = 5",
        OpenErr::BadStore(5),
    ),
];

#[test]
fn files_that_open_no_desk(rt: HostRuntime) -> Result<(), Fail> {
    let alloc = rt.alloc();
    for path in ["no/such/store.db", "/proc/version", ""] {
        assert_eq!(rt; refused(rt, path)?, Some(OpenErr::StoreFault), "{path}");
    }
    let rows = run(alloc)?;
    for (path, change, error) in SPOILED {
        at(rt, path)?.append(&rows)?;
        assert_eq!(rt; refused(rt, path)?, None, "{path}");
        Connection::open(&rt, path)?.execute_batch(change)?;
        assert_eq!(rt; refused(rt, path)?, Some(error), "{path}");
    }
    Ok(())
}
