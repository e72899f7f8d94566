//! Each function is a law, with nothing to run.
ghost use Rattle.rb_plan_laws.specs.Laws.{ActsHaveCommands, FirstBadIsTold, FirstDeniedIsTold};

/// Each command, script and handler of a job to which a path of references leads has a command in
/// an accepted run, with that job's names and values.
pub fn acts_have_commands()
    ensures { ActsHaveCommands }
{}

/// The reference that is told as bad is where the walk stops: nothing before it is at fault.
pub fn first_bad_is_told()
    ensures { FirstBadIsTold }
{}

/// The reference that is told as denied is the first in the walk that the caller may not run.
pub fn first_denied_is_told()
    ensures { FirstDeniedIsTold }
{}
