//! A file that a keeper holds, and that another program changes, step by step.
use crate::samples::{FIRST, are_pairs, pair, refused};
use rb_causes::{Keeper, NoMemory, Row, Text, Trouble};
use rb_keep::SqlKeeper;
use sqlite::{Connection, Error};
use std::alloc::Global;
use std::test::Fail;

/// Runs statements on a file, as another program would.
fn run(rt: &HostRuntime, path: &str, sql: &str) -> Result<&'static str, Error> {
    Connection::open(rt, path)?.execute_batch(sql)?;
    Ok("done")
}

/// The one number that a query on a file gives.
fn number(rt: &HostRuntime, path: &str, sql: &str) -> Result<i64, Error> {
    Connection::open(rt, path)?.query_row(sql, &[])?.get(0)
}

fn name_of(said: Result<(), Trouble>) -> &'static str {
    match said {
        Ok(()) => "kept",
        Err(Trouble::Failed) => "fault",
        Err(Trouble::NoMemory) => "no memory",
    }
}

/// How many rows are read, and whether they are pairs.
fn read_text(alloc: Global, read: Result<Vec<Row>, Trouble>) -> Result<String, NoMemory> {
    match read {
        Ok(rows) => {
            let count = rows.len();
            if are_pairs(alloc, rows.as_slice(), count)? {
                Ok(format!(in alloc; "{count} of pairs")?)
            } else {
                Ok(format!(in alloc; "{count} others")?)
            }
        }
        Err(trouble) => Ok(String::from_str(alloc, name_of(Err(trouble)))?),
    }
}

/// What a step is answered.
fn answer(rt: HostRuntime, path: &str, keeper: &mut SqlKeeper, step: &str) -> Result<String, Fail> {
    let alloc = rt.alloc();
    let word = match step {
        "append" => name_of(keeper.append(pair(alloc)?.as_slice())),
        "append too much" => name_of(keeper.append(refused(alloc)?.as_slice())),
        "append nothing" => name_of(keeper.append(&[])),
        "rows" => return Ok(read_text(alloc, keeper.rows(alloc))?),
        "format 1" => run(&rt, path, FIRST)?,
        sql => {
            if sql.starts_with("SELECT") {
                let found = number(&rt, path, sql)?;
                return Ok(format!(in alloc; "{found}")?);
            }
            run(&rt, path, sql)?
        }
    };
    Ok(String::from_str(alloc, word)?)
}

fn ask_all(
    rt: HostRuntime,
    path: &str,
    keeper: &mut SqlKeeper,
    script: &str,
) -> Result<String, Fail> {
    let mut others = String::new(rt.alloc());
    for line in script.lines() {
        let (step, wanted) = line.split_once(" => ").unwrap_or((line, ""));
        let found = answer(rt, path, keeper, step)?;
        if found.as_str() != wanted {
            others.push_str(step)?;
            others.push_str(": ")?;
            others.push_str(found.as_str())?;
            others.push_str("; ")?;
        }
    }
    Ok(others)
}

/// The steps of a script on a file that are answered otherwise; its keeper is a new one.
pub(crate) fn others(rt: HostRuntime, path: &str, script: &str) -> Result<String, Fail> {
    let mut keeper = SqlKeeper::at(rt, Text::of(rt.alloc(), path)?);
    ask_all(rt, path, &mut keeper, script)
}
