//! Parts on a board.
use crate::door_end::DoorEnd;
use rb_board::Pass;
use rb_causes::{Line, Spawner};
use rb_wire::DoorBuffer;
use rb_work::Pumped;

/// What a part does.
#[derive(Drop)]
pub enum Post<L: Line + Drop, S: Spawner + Drop> {
    /// It serves the callers of a line.
    Door {
        line: L,
        /// What was read of its caller and not heard yet.
        buffer: DoorBuffer,
        /// From 0.
        number: u32,
        /// How it ended; well, as long as it did not.
        end: DoorEnd,
    },
    /// It works tasks off.
    Worker {
        spawner: S,
        /// From 0.
        number: u32,
        /// What its last pump said; Closed, as long as there was none.
        said: Pumped,
    },
}

/// A part on a board, with the pass by which it acts.
#[derive(Drop)]
pub struct Role<L: Line + Drop, S: Spawner + Drop> {
    /// None while the part is played.
    pub(crate) pass: Option<Pass>,
    pub(crate) post: Post<L, S>,
}
