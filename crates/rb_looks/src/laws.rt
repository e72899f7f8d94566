//! The laws on which looks rest: the function has nothing to run.
ghost use Rattle.rb_log.specs.Laws.{LeavesAreSound, PlansAreSound};

use rb_log::laws::{leaves_are_sound, plans_are_sound};

/// The plans of a legal log can be run, and have a tier for each node.
pub(crate) fn look_laws()
    ensures plans { PlansAreSound }
    ensures leaves { LeavesAreSound }
{
    plans_are_sound();
    leaves_are_sound();
}
