//! The nodes on which ann may run.
ghost use Rattle.rb_demo.specs.Counting.{allowed_in};
ghost use Rattle.rb_demo.specs.Rights.{even_numbers};
ghost use Rattle.rb_demo.specs.Rounds.{setting_of};
ghost use Rattle.rb_demo.specs.Settings.{jobs_log};
ghost use Rattle.rb_log.specs.LogState.{log_state, world_of};
ghost use Rattle.std.specs.Prelude.{◌≡◌, ◌≤◌, length};

use crate::documents::{FIRST_DRAW, is_even};
use crate::laws::{even_are_runnable, world_is_demo};
use rb_orch::generator;

/// How many of the first nodes have an even draw.
fn even_count(nodes: u32) -> u64
    ensures { result ≡ length (even_numbers nodes) }
{
    let mut draw = FIRST_DRAW;
    let mut even: u64 = 0;
    for _before in 0..nodes {
        draw = generator(draw);
        even += u64::from(is_even(draw));
    }
    even
}

/// On how many of the first nodes ann may run.
pub(crate) fn allowed(nodes: u32) -> u64
    requires few { (1 ≤ nodes) × (nodes ≤ 1000) }
    ensures { result ≡ allowed_in (world_of (log_state (jobs_log (setting_of nodes)))) }
{
    world_is_demo();
    even_are_runnable();
    even_count(nodes)
}
