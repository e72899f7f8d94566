//! What holds of every line over TCP: the function is a law, with nothing to run.
ghost use Rattle.rb_tcp.specs.Bounded.{CallersAreBounded};

/// A line takes no more callers than it was given.
pub fn callers_are_bounded()
    ensures { CallersAreBounded }
{}
