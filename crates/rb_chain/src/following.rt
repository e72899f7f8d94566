//! What a chain asks for behind an outcome.
ghost use Rattle.rb_chain.specs.Following.{IsWithin, next_behind, run_at, undo_before};
ghost use Rattle.std.specs.Prelude.{◌≡◌, ◌<◌, ◌≤◌, ◌^◌, length};

use crate::chain_next::ChainNext;
use crate::run::ChainRun;

/// The run of this number; where there is none, the chain is over.
pub(crate) fn run_at(runs: &[ChainRun], run: u32) -> ChainNext
    ensures { result ≡ run_at runs.now run }
{
    if (run as usize) < runs.len() {
        return ChainNext::Ask {
            run,
            undoing: false,
        };
    }
    ChainNext::Over { good: true }
}

/// The last undo of the runs before this one; where there is none, the chain is over.
fn undo_before(runs: &[ChainRun], run: u32) -> ChainNext
    requires { run ≤ length runs.now }
    ensures { result ≡ undo_before runs.now run }
{
    let mut before = run;
    while before > 0 {
        before -= 1;
        if runs[before as usize].undo.is_some() {
            return ChainNext::Ask {
                run: before,
                undoing: true,
            };
        }
    }
    ChainNext::Over { good: false }
}

/// What is asked for behind the outcome of what was.
pub(crate) fn next_behind(runs: &[ChainRun], asked: ChainNext, good: bool) -> ChainNext
    requires few { length runs.now < 2 ^ 32 }
    requires within { IsWithin runs.now asked }
    ensures { result ≡ next_behind runs.now asked good }
{
    match asked {
        ChainNext::Ask { run, undoing } => {
            if good && !undoing {
                return run_at(runs, run + 1);
            }
            undo_before(runs, run)
        }
        ChainNext::Over { good } => ChainNext::Over { good },
    }
}
