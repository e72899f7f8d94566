//! What holds of each flow: each function proves a law, with nothing to run.
ghost use Rattle.rb_marks.specs.First.{IsLegal};
ghost use Rattle.rb_marks.specs.Sound.{IsSound};
ghost use Rattle.rb_marks.specs.Units.{outline};

use crate::flow::Flow;

/// The plan of each flow is sound, and its marks are legal.
pub fn marks_are_legal(flow: &Flow)
    ensures sound { IsSound (outline flow.now.plan) }
    ensures legal { IsLegal (outline flow.now.plan) flow.now.marks }
{
    let _marks = &flow.marks;
}
