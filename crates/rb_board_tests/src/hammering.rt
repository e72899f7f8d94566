//! Doors and workers on one board, in threads of their own.
ghost use Rattle.rb_board_tests.specs.Kept.{AreOf, AreReady, IsPlayed, MayPlay};
ghost use Rattle.std.specs.Prelude.{◌≡◌, ◌≤◌, ◌<◌, length};

use crate::acting::{serve, work};
use crate::calls::Asked;
use crate::casting::{Company, Role, dismiss, gather};
use crate::diary::{Diary, Heard, changes};
use crate::tests::{Script, ask_all};
use rb_board::Board;
use rb_causes::{Keeper, NoMemory};
use std::alloc::Global;
use std::sync::Wait;
use std::test::Fail;
use std::thread;
use std::thread::Threads;

/// How many turns all doors have together, those that close them among them.
const TURNS: u32 = 100_000;

/// A door asks in so many turns and closes, and a worker works until there is no more to do.
fn play<K: Keeper, R: Wait>(rt: &R, alloc: Global, board: &Board<K>, role: &mut Role, turns: u32)
    requires board { role.old.pass.id ≡ board.now.id }
    requires part { MayPlay role.old }
    ensures { IsPlayed role.old role.new }
{
    let place = role.place;
    if place < role.doors {
        serve(
            rt,
            board,
            &mut role.pass,
            &mut role.diary,
            alloc,
            (place, turns),
        );
    } else {
        let worker = place - role.doors;
        work(rt, board, &mut role.pass, &mut role.diary, worker);
    }
}

/// All at once, each in a thread.
fn hammer<K: Keeper + Send + Sync, R: Threads + Wait + Sync>(
    rt: &R,
    alloc: Global,
    board: &Board<K>,
    roles: &mut [Role],
    turns: u32,
)
    requires ready { AreReady board.now roles.old }
    ensures same { AreOf board.now roles.new }
    ensures len { length roles.new ≡ length roles.old }
{
    let threads = roles.len().max(1);
    let part = |_place: usize, role: &mut Role|
        requires { (role.now.pass.id ≡ board.now.id) × MayPlay role.now }
        ensures { IsPlayed role.entry.now role.exit.now }
    { play(rt, alloc, board, role, turns) };
    thread::for_each_mut(rt, roles, threads, &part);
}

const IMPORTS: Script = &[
    (Asked::Policy(true), 0, Heard::Imported(1)),
    (Asked::Nodes, 0, Heard::Imported(1)),
    (Asked::Zone, 0, Heard::Imported(1)),
    (Asked::Jobs, 0, Heard::Imported(1)),
];

/// What became of a board that was hammered.
#[derive(Drop)]
struct Hammered {
    diaries: Vec<Diary>,
    rows: usize,
    /// How often the row behind another is that of another pass, where all rows are those that
    /// were told.
    changes: Option<u64>,
}

/// Has so many doors and workers act at once. Documents are imported before.
fn hammer_board<R: Threads + Wait + Sync>(
    rt: &R,
    alloc: Global,
    failing: Vec<u64>,
    doors: u32,
    workers: u32,
) -> Result<Hammered, NoMemory>
    requires doors { (1 ≤ doors) × (doors ≤ 16) }
    requires workers { (1 ≤ workers) × (workers ≤ 64) }
{
    let mut company = gather(alloc, failing, doors, workers)?;
    let Company { board, roles, .. } = &mut company;
    let _ = ask_all(rt, board, roles, alloc, IMPORTS);
    hammer(rt, alloc, board, roles.as_mut_slice(), TURNS / doors);
    let (rows, mut diaries) = dismiss(company);
    let changes = changes(rows.as_slice(), diaries.as_mut_slice());
    Ok(Hammered {
        diaries,
        rows: rows.len(),
        changes,
    })
}

/// Whether each pass was told of rows, and how many calls all of them made.
fn turns_of(diaries: &[Diary]) -> Option<u64> {
    let mut turns = 0u64;
    for diary in diaries {
        if diary.rows() == 0 {
            return None;
        }
        turns = turns.saturating_add(diary.turns);
    }
    Some(turns)
}

/// Whether so many calls were made, by all passes and in turns: where one pass made all of them, or
/// one after another made its own, there are no changes to speak of.
fn is_hammered(hammered: &Hammered) -> bool {
    match (turns_of(hammered.diaries.as_slice()), hammered.changes) {
        (Some(turns), Some(changes)) => turns >= 100_000 && changes >= 100,
        _ => false,
    }
}

#[test]
fn each_row_is_that_of_one_of_two_passes(rt: HostRuntime) -> Result<(), Fail> {
    let alloc = rt.alloc();
    assert!(rt; is_hammered(&hammer_board(&rt, alloc, Vec::new(alloc), 1, 1)?));
    Ok(())
}

/// Its keeper fails now and then.
#[test]
fn each_row_is_that_of_one_of_four_passes(rt: HostRuntime) -> Result<(), Fail> {
    let alloc = rt.alloc();
    let failing = Vec::from_slice(alloc, &[40u64, 41, 300, 1000, 1001, 2500, 9000, 20_000])?;
    assert!(rt; is_hammered(&hammer_board(&rt, alloc, failing, 2, 2)?));
    Ok(())
}

#[test]
fn each_row_is_that_of_one_of_eight_passes(rt: HostRuntime) -> Result<(), Fail> {
    let alloc = rt.alloc();
    assert!(rt; is_hammered(&hammer_board(&rt, alloc, Vec::new(alloc), 4, 4)?));
    Ok(())
}
