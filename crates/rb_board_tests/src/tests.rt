//! Boards on one thread.
ghost use Rattle.rb_board_tests.specs.Kept.{AreReady, HasPlayed};
ghost use Rattle.std.specs.Prelude.{◌≡◌, ◌≤◌, ◌<◌, length};

use crate::acting::ask;
use crate::calls::Asked;
use crate::casting::{Company, Role, dismiss, gather};
use crate::diary::{Heard, changes};
use crate::opening::board;
use rb_board::Board;
use rb_causes::{MemKeeper, NoMemory};
use std::alloc::Global;
use std::sync::Wait;
use std::test::Fail;

/// What is asked at which door, and heard.
pub(crate) type Script = &'static [(Asked, u32, Heard)];

/// Asks with a part.
fn ask_as<R: Wait>(
    rt: &R,
    board: &Board<MemKeeper>,
    role: &mut Role,
    alloc: Global,
    asked: (Asked, u32, u32),
) -> Heard
    requires { role.old.pass.id ≡ board.now.id }
    ensures { HasPlayed role.old role.new }
{
    ask(rt, board, &mut role.pass, &mut role.diary, alloc, asked)
}

/// Asks at a door.
fn ask_at<R: Wait>(
    rt: &R,
    board: &Board<MemKeeper>,
    roles: &mut Vec<Role>,
    alloc: Global,
    asked: (Asked, u32, u32),
) -> Heard
    requires { AreReady board.now roles.old.items }
    ensures ready { AreReady board.now roles.new.items }
    ensures len { length roles.new.items ≡ length roles.old.items }
{
    let place = asked.1 as usize;
    if place >= roles.len() {
        return Heard::Other;
    }
    ask_as(rt, board, &mut roles[place], alloc, asked)
}

/// How many lines of a script are heard so, one after another, up to the first that is not.
pub(crate) fn ask_all<R: Wait>(
    rt: &R,
    board: &Board<MemKeeper>,
    roles: &mut Vec<Role>,
    alloc: Global,
    script: Script,
) -> usize
    requires { AreReady board.now roles.old.items }
    ensures ready { AreReady board.now roles.new.items }
    ensures len { length roles.new.items ≡ length roles.old.items }
{
    for (place, line) in script.iter().enumerate() {
        let (asked, door, wanted) = *line;
        if ask_at(rt, board, roles, alloc, (asked, door, 0)) != wanted {
            return place;
        }
    }
    script.len()
}

/// How many lines of a script are heard so at two doors, and whether the closed log has just the
/// rows that were told.
fn play<R: Wait>(
    rt: &R,
    alloc: Global,
    failing: Vec<u64>,
    script: Script,
) -> Result<(usize, bool), NoMemory> {
    let mut company = gather(alloc, failing, 2, 1)?;
    let Company { board, roles, .. } = &mut company;
    let heard = ask_all(rt, board, roles, alloc, script);
    let (rows, mut diaries) = dismiss(company);
    Ok((
        heard,
        changes(rows.as_slice(), diaries.as_mut_slice()).is_some(),
    ))
}

const RUNS: Script = &[
    (Asked::Policy(true), 0, Heard::Imported(1)),
    (Asked::Nodes, 0, Heard::Imported(1)),
    (Asked::Jobs, 0, Heard::Imported(1)),
    (Asked::Execution(1), 1, Heard::Other),
    (Asked::Run, 0, Heard::Accepted(1)),
    (Asked::Execution(1), 1, Heard::Shown(1)),
    (Asked::Run, 1, Heard::Accepted(2)),
    (Asked::Execution(2), 0, Heard::Shown(2)),
    (Asked::Abort(1), 1, Heard::Aborted),
    (Asked::Abort(1), 0, Heard::Other),
    (Asked::Save, 1, Heard::Saved),
];

/// The keeper is asked for its rows, and then for a row of each call.
const FAILS: Script = &[
    (Asked::Policy(true), 0, Heard::Imported(1)),
    (Asked::Nodes, 0, Heard::Imported(1)),
    (Asked::Jobs, 0, Heard::Imported(1)),
    (Asked::Run, 0, Heard::StoreFault),
    (Asked::Execution(1), 0, Heard::Other),
    (Asked::Run, 0, Heard::Accepted(1)),
    (Asked::Execution(1), 0, Heard::Shown(1)),
];

/// How many rows a board has that is opened with so many passes and closed; None where there was
/// no memory for the passes.
fn rows_through(alloc: Global, count: u32) -> Result<Option<usize>, NoMemory>
    requires { (1 ≤ count) × (count ≤ 80) }
{
    let mut board = board(alloc, Vec::new(alloc), 2, 2)?;
    match board.passes(count) {
        Ok(passes) => Ok(Some(board.close(passes).into_log().len())),
        Err(_) => {
            let _desk = board.close(Vec::new(alloc));
            Ok(None)
        }
    }
}

#[test]
fn a_board_is_opened_and_closed(rt: HostRuntime) -> Result<(), Fail> {
    let alloc = rt.alloc();
    for count in &[1u32, 4, 80] {
        assert_eq!(rt; rows_through(alloc, *count)?, Some(1));
    }
    Ok(())
}

#[test]
fn a_pass_sees_what_another_has_done(rt: HostRuntime) -> Result<(), Fail> {
    let alloc = rt.alloc();
    let (heard, told) = play(&rt, alloc, Vec::new(alloc), RUNS)?;
    assert_eq!(rt; heard, RUNS.len());
    assert!(rt; told);
    Ok(())
}

#[test]
fn a_keeper_that_fails_at_a_run_is_told(rt: HostRuntime) -> Result<(), Fail> {
    let alloc = rt.alloc();
    let failing = Vec::from_slice(alloc, &[6])?;
    let (heard, told) = play(&rt, alloc, failing, FAILS)?;
    assert_eq!(rt; heard, FAILS.len());
    assert!(rt; told);
    Ok(())
}
