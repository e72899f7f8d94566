ghost use Rattle.rb_log.specs.Legal.{MayAsk};
ghost use Rattle.rb_log.specs.Told.{Acts, Told};

use crate::answer::Answer;
use crate::call::Call;

/// How doors and workers reach a desk.
pub trait Clerk {
    /// What it tells of its desk, and what may be asked of it.
    ghost told: { Self → Told };

    /// One turn of the desk. The call has to be one that may be asked: for a worker, a leaf or a
    /// door of this clerk, at a moment that a clock may answer.
    fn act(&mut self, call: Call) -> Answer
        requires { MayAsk (told self.old).rights call }
        ensures { Acts (told self.old) (told self.new) call result };
}
