//! The laws on which runs rest: the function has nothing to run.
ghost use Rattle.rb_runs.specs.RunLaws.{RunLaws};

use rb_log::laws::{
    ask_is_kept, caller_is_kept, due_ask_is_kept, first_is_first, importers_are_clean,
    world_is_sound,
};
use rb_plan::laws::{
    accepted_is_sound, commands_are_few, dropped_may_not_be_run, leaves_are_few, refusal_holds,
};

/// What holds of the worlds of logs, of verdicts on them, and of Accept rows.
pub(crate) fn run_laws()
    ensures { RunLaws }
{
    world_is_sound();
    refusal_holds();
    accepted_is_sound();
    leaves_are_few();
    commands_are_few();
    dropped_may_not_be_run();
    ask_is_kept();
    due_ask_is_kept();
    caller_is_kept();
    importers_are_clean();
    first_is_first();
}
