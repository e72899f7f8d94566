ghost use Rattle.rb_orch.specs.Bounding.{bound_of, IsPercentage};
ghost use Rattle.std.specs.Prelude.{◌≡◌, ◌≤◌, ◌*◌, ◌/◌, IfSome};

/// How many of `total` nodes may be in work at once: `threads`, but with a percentage (1 to 100) no
/// more than that share of the nodes, rounded down and at least 1.
pub fn bound(threads: u32, percent: Option<u32>, total: u64) -> u32
    requires threads { 1 ≤ threads }
    requires percent { IfSome percent IsPercentage }
    requires total { total ≤ 10000 }
    ensures value { result ≡ bound_of threads percent total }
    ensures least { 1 ≤ result }
{
    match percent {
        None => threads,
        Some(percent) => threads.min(share(percent, total).max(1)),
    }
}

/// A percentage of the nodes, rounded down.
fn share(percent: u32, total: u64) -> u32
    requires percent { IsPercentage percent }
    requires total { total ≤ 10000 }
    ensures { result ≡ percent * total / 100 }
{
    (u64::from(percent) * total / 100) as u32
}
