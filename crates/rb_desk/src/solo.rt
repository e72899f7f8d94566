//! A clerk for a desk on one thread.
ghost use Rattle.rb_desk.specs.Steps.{Steps, told_of};
ghost use Rattle.rb_log.specs.Legal.{MayAsk};
ghost use Rattle.rb_log.specs.Told.{Acts};

use crate::desk::Desk;
use rb_causes::Keeper;
use rb_log::laws::rights_follow;
use rb_log::{Answer, Call, Clerk};
use std::alloc::Global;

/// A desk on one thread: it acts for all workers and open doors, and may report each leaf that is
/// open.
pub struct Solo<'a, K: Keeper> {
    pub desk: &'a mut Desk<K>,
    pub alloc: Global,
}

impl<'a, K: Keeper> Clerk for Solo<'a, K> {
    ghost told = { λ s. told_of K.faults s.desk.now };

    fn act(&mut self, call: Call) -> Answer
        requires { MayAsk (told_of K.faults self.old.desk.now).rights call }
        ensures acts { let told = told_of K.faults in
            Acts (told self.old.desk.now) (told self.new.desk.now) call result }
        ensures step { Steps K.faults self.old.desk.now self.new.desk.now call result }
    {
        rights_follow();
        self.desk.step(self.alloc, call)
    }
}
