//! A clerk that has its desk for itself, and gives it back.
ghost use Rattle.rb_desk.specs.Steps.{Steps, told_of};
ghost use Rattle.rb_log.specs.Legal.{MayAsk};
ghost use Rattle.rb_log.specs.Told.{Acts};

use rb_causes::Keeper;
use rb_desk::Desk;
use rb_log::laws::rights_follow;
use rb_log::{Answer, Call, Clerk};
use std::alloc::Global;

/// A desk on one thread, as `Solo` of rb_desk is; it is held by value, so that what becomes of it
/// is told where it is taken out again.
pub struct Owned<K: Keeper> {
    pub desk: Desk<K>,
    pub alloc: Global,
}

impl<K: Keeper> Clerk for Owned<K> {
    ghost told = { λ s. told_of K.faults s.desk };

    fn act(&mut self, call: Call) -> Answer
        requires { MayAsk (told_of K.faults self.old.desk).rights call }
        ensures acts { let told = told_of K.faults in
            Acts (told self.old.desk) (told self.new.desk) call result }
        ensures step { Steps K.faults self.old.desk self.new.desk call result }
    {
        rights_follow();
        self.desk.step(self.alloc, call)
    }
}
