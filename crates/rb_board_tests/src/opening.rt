//! Boards over a keeper in memory.
ghost use Rattle.rb_board_tests.specs.Kept.{opened_log};
ghost use Rattle.std.specs.Prelude.{◌≡◌, ◌≤◌, IfOk};

use crate::calls::AT;
use rb_board::Board;
use rb_causes::{MemKeeper, NoMemory};
use rb_desk::Desk;
use std::alloc::Global;

/// How many rows there is room for.
const ROOM: u64 = 2_000_000;

/// A desk with no row but that of its opening, whose keeper fails at the calls of these numbers.
fn desk(
    alloc: Global,
    failing: Vec<u64>,
    doors: u32,
    workers: u32,
) -> Result<Desk<MemKeeper>, NoMemory>
    requires doors { (1 ≤ doors) × (doors ≤ 16) }
    requires workers { (1 ≤ workers) × (workers ≤ 64) }
    ensures { IfOk result (λ desk. desk.log ≡ opened_log doors workers) }
{
    let keeper = MemKeeper::new(alloc, Vec::new(alloc), failing);
    match Desk::open(alloc, keeper, doors, workers, 0, ROOM, AT) {
        Ok(desk) => Ok(desk),
        Err((_keeper, _error)) => Err(NoMemory),
    }
}

/// A board of such a desk.
pub(crate) fn board(
    alloc: Global,
    failing: Vec<u64>,
    doors: u32,
    workers: u32,
) -> Result<Board<MemKeeper>, NoMemory>
    requires doors { (1 ≤ doors) × (doors ≤ 16) }
    requires workers { (1 ≤ workers) × (workers ≤ 64) }
    ensures log { IfOk result (λ board. board.opening.log ≡ opened_log doors workers) }
    ensures made { IfOk result (λ board. board.made ≡ 0) }
{
    let desk = desk(alloc, failing, doors, workers)?;
    match Board::open(alloc, desk) {
        Ok(board) => Ok(board),
        Err((_desk, error)) => Err(error),
    }
}
