//! What the parts need beside their passes.
ghost use Rattle.std.specs.Prelude.{◌≡◌, ◌≤◌, ◌+◌, [], IfOk, length, vec_capacity};

use crate::role::Role;
use rb_causes::{Line, NoMemory, Spawner};
use rb_wire::DoorBuffer;
use std::alloc::Global;

/// It is made before the desk is opened, so that an opened desk wants memory for its calls and its
/// replies alone.
#[derive(Drop)]
pub(crate) struct Stage<L: Line + Drop, S: Spawner + Drop> {
    /// One for each door.
    pub(crate) buffers: Vec<DoorBuffer>,
    /// Room for all parts.
    pub(crate) roles: Vec<Role<L, S>>,
}

/// How many there are, where they are few.
pub(crate) fn count_of<T>(items: &Vec<T>) -> u32
    requires { length items.now.items ≤ 80 }
    ensures { result ≡ length items.now.items }
{
    items.len() as u32
}

/// A stage for so many doors and workers.
pub(crate) fn new_stage<L: Line + Drop, S: Spawner + Drop>(
    alloc: Global,
    doors: u32,
    workers: u32,
) -> Result<Stage<L, S>, NoMemory>
    requires { doors + workers ≤ 80 }
    ensures buffers { IfOk result (λ stage. length stage.buffers.items ≡ doors) }
    ensures roles { IfOk result (λ stage. stage.roles.items ≡ []) }
    ensures room { IfOk result (λ stage. doors + workers ≤ vec_capacity stage.roles) }
{
    let roles = Vec::with_capacity(alloc, (doors + workers) as usize)?;
    let buffers = new_buffers(alloc, doors)?;
    Ok(Stage { buffers, roles })
}

fn new_buffers(alloc: Global, count: u32) -> Result<Vec<DoorBuffer>, NoMemory>
    ensures { IfOk result (λ buffers. length buffers.items ≡ count) }
{
    let mut buffers = Vec::new(alloc);
    for _number in 0..count {
        buffers.push(DoorBuffer::new(alloc)?)?;
    }
    Ok(buffers)
}
