//! The laws of logs on which the tables rest: each function has nothing to run.
ghost use Rattle.rb_log.specs.Laws.{CountsAreTold, NamesAscend, NodesAreCounted, ProjectsAscend};
ghost use Rattle.rb_tables.specs.LogLaws.{LogLaws};

use rb_log::laws::{
    counts_are_told, executions_are_numbered, executions_are_verdicts, leaf_is_kept,
    leaves_are_sound, marks_are_legal, names_ascend, nodes_are_bounded, nodes_are_counted,
    open_is_open, plans_are_sound, projects_ascend, slots_are_bounded,
};
use rb_plan::laws::{commands_are_few, leaves_are_few};

/// What holds of the executions of logs.
pub fn log_laws()
    ensures { LogLaws }
{
    executions_are_numbered();
    executions_are_verdicts();
    plans_are_sound();
    leaves_are_sound();
    slots_are_bounded();
    nodes_are_bounded();
    marks_are_legal();
    open_is_open();
    leaf_is_kept();
    leaves_are_few();
    commands_are_few();
}

/// Names stand in order, each once, and are counted.
pub fn import_laws()
    ensures names { NamesAscend }
    ensures projects { ProjectsAscend }
    ensures counts { CountsAreTold }
    ensures nodes { NodesAreCounted }
{
    names_ascend();
    projects_ascend();
    counts_are_told();
    nodes_are_counted();
}
