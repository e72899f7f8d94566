//! The laws of logs on which a pump rests: the function has nothing to run.
ghost use Rattle.rb_work.specs.PumpLaws.{PumpLaws};

use rb_log::laws::{
    beginnings_are_legal, ends_once, executions_are_numbered, executions_stay, leaf_is_kept,
    plans_are_sound, program_stays, slots_are_bounded,
};

/// What holds of executions and programs of legal logs.
pub fn pump_laws()
    ensures { PumpLaws }
{
    beginnings_are_legal();
    ends_once();
    executions_are_numbered();
    executions_stay();
    leaf_is_kept();
    plans_are_sound();
    program_stays();
    slots_are_bounded();
}
