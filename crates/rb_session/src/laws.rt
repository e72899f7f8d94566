//! What holds of the course of a session: each function is a law, with nothing to run.
ghost use Rattle.rb_session.specs.Laws.{CoursesAct, CoursesRun, CoursesServe, WorksAreAll};

use rb_api::laws::calls_are_the_callers;
use rb_causes::Clock;
use rb_door::laws::{acts_are_true, talks_follow, turns_stay_true};
use rb_log::laws::begins_are_tasks;
use rb_work::laws::pump_laws;

/// Behind its imports the desk was asked the records of the course.
pub fn courses_act<T: Clock>(_clock: &T)
    ensures { CoursesAct (T.may_be _clock.now) }
{}

/// What the spawner gained are the programs of the works.
pub fn courses_run<T: Clock>(_clock: &T)
    ensures { CoursesRun (T.may_be _clock.now) }
{
    pump_laws();
}

/// No other program was begun.
pub fn works_are_all<T: Clock>(_clock: &T)
    ensures { WorksAreAll (T.may_be _clock.now) }
{
    begins_are_tasks();
    acts_are_true();
    turns_stay_true();
    calls_are_the_callers();
}

/// The callers of the line get what the rules say.
pub fn courses_serve<T: Clock>(_clock: &T)
    ensures { CoursesServe (T.may_be _clock.now) }
{
    acts_are_true();
    turns_stay_true();
    talks_follow();
}
