//! What holds of each desk over a database in memory: laws, with nothing to do.
#![tactic(auto)]

ghost use Rattle.rb_desk.specs.Stops.{IsGoodStop};
ghost use Rattle.std.specs.Prelude.{◌≡◌, ◌≤◌, ℕ, take};

use rb_desk::Desk;
use rb_desk::stopping::stops_lose_nothing_told;
use rb_keep::MemSqlKeeper;

/// The database holds the first rows of the log, as many as the desk counts as kept; and a stop
/// that leaves these, or some more, leaves a legal log and loses Ends and Closes alone.
pub fn a_database_holds_what_was_told(desk: &Desk<MemSqlKeeper>)
    ensures kept { desk.now.keeper.rows ≡ take desk.now.saved desk.now.log }
    ensures stops { (count : ℕ) → desk.now.saved ≤ count → IsGoodStop desk.now.log count }
{
    let _log = desk.log();
    stops_lose_nothing_told();
}
