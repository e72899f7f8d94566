//! Leaves that end, and doors that are closed.
ghost use Rattle.rb_causes.specs.declared.row.Row.{Row};
ghost use Rattle.rb_log.specs.Claims.{report};
ghost use Rattle.rb_log.specs.LogState.{log_state};
ghost use Rattle.rb_log.specs.Rows.{close_row};
ghost use Rattle.rb_log.specs.Sums.{same_open, without_leaf};
ghost use Rattle.rb_tables.specs.Running.{MayEnd};
ghost use Rattle.rb_tables.specs.Tables.{IsTabled, AreLogTables};
ghost use Rattle.std.specs.Prelude.{◌≡◌, ◌∷◌, List, Some};

use crate::noting::note_bare;
use crate::retiring::retire;
use rb_causes::{Ending, Row};
use rb_log::OpenLeaf;
use rb_tables::laws::log_laws;
use rb_tables::owing::place_of;
use rb_tables::running_rows::end_row;
use rb_tables::tables::Tables;
use std::alloc::Global;

/// Whether both are of one leaf of one execution.
pub fn is_same_open(this: &OpenLeaf, other: &OpenLeaf) -> bool
    ensures { result ≡ same_open this.now other.now }
{
    this.execution == other.execution
        && this.leaf.node == other.leaf.node
        && this.leaf.slot == other.leaf.slot
}

/// Takes a leaf out of those that are open.
fn take_leaf(leaves: &mut Vec<OpenLeaf>, ended: OpenLeaf)
    ensures { leaves.new.items ≡ without_leaf ended leaves.old.items }
{
    leaves.retain(|open| !is_same_open(open, &ended));
}

/// The row of an open leaf that has ended.
pub fn ended_row(tables: &Tables, alloc: Global, at: i64, claimed: OpenLeaf, ending: Ending) -> Row
    requires { (past : List Row) × MayEnd tables.now past claimed ending }
    ensures { (past : List Row) → MayEnd tables.now past claimed ending →
        (report (log_state past) at (record { claimed = claimed; ending = ending })).row
        ≡ Some result }
{
    log_laws();
    let execution = &tables.executions[place_of(claimed.execution)];
    let leaf = execution.leaf_number(claimed.leaf);
    end_row(alloc, at, claimed.execution, leaf, ending)
}

/// An open leaf has ended.
pub fn put_end(tables: &mut Tables, alloc: Global, at: i64, claimed: OpenLeaf, ending: Ending)
    requires { (past : List Row) × MayEnd tables.old past claimed ending }
    ensures { (past : List Row) (row : Row) → MayEnd tables.old past claimed ending →
        (report (log_state past) at (record { claimed = claimed; ending = ending })).row
        ≡ Some row → AreLogTables tables.new (log_state (row ∷ past)) }
{
    log_laws();
    let place = place_of(claimed.execution);
    let owed = tables.executions[place].owed();
    take_leaf(&mut tables.leaves, claimed);
    tables.executions[place].finish(claimed.leaf, ending);
    retire(tables, alloc, place, owed);
    note_bare(tables, at);
}

/// A door is closed.
pub fn put_close(tables: &mut Tables, at: i64, door: u32)
    ensures { (past : List Row) → IsTabled tables.old past →
        AreLogTables tables.new (log_state (close_row at door ∷ past)) }
{
    tables.doors.retain(|open| *open != door);
    note_bare(tables, at);
}
