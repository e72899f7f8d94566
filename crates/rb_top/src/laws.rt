//! What a drill's answers mean for those who rest their access on it: each function proves a law.
ghost use Rattle.rb_top.specs.Laid.{LinesAreReadBack, ReadIsAScript, ScriptIsReadBack, SkipsChangeNothing};
ghost use Rattle.rb_top.specs.Rules.{RulesAreBroken};
ghost use Rattle.rb_top.specs.Laws.{StartsAreAllowed, StartsSuffice, CompletesOrWants, FirstUnreadIsTold, BrokenIsUnread};

use crate::drill::drill_top;
use rb_causes::{Shelf, Sink, Spawner, SteadyShelf, SteadySink, SteadySpawner, Text};
use std::alloc::Global;

/// Each start of a drill is on a node that the access lines let its user run, with the words of
/// that step of its job.
pub fn starts_are_allowed()
    ensures { StartsAreAllowed }
{}

/// A file of lines in at most 1 MiB, written with one space between their words, says these lines.
pub fn lines_are_read_back()
    ensures { LinesAreReadBack }
{}

/// A script whose names differ and are known and whose runs have steps, written line by line in at
/// most 1 MiB, is read back whole.
pub fn script_is_read_back()
    ensures { ScriptIsReadBack }
{}

/// What is read of a file is such a script: names and ids differ, names are known, and each run is
/// of a job with a step.
pub fn read_is_a_script()
    ensures { ReadIsAScript }
{}

/// Blank lines and comments change nothing, wherever they stand.
pub fn skips_change_nothing()
    ensures { SkipsChangeNothing }
{}

/// A run goes on until nothing is startable: more starts than a run has leaves would change
/// nothing.
pub fn starts_suffice()
    ensures { StartsSuffice }
{}

/// A file that is not too large is refused at a line exactly where it is the first which is not
/// read.
pub fn first_unread_is_told()
    ensures { FirstUnreadIsTold }
{}

/// A drill file breaks a rule exactly where it is not read.
pub fn broken_is_unread()
    ensures { BrokenIsUnread }
{}

/// The rule that is told of a drill file is one that it breaks: its size, or the line by itself, or
/// what stands above the line.
pub fn rules_are_broken()
    ensures { RulesAreBroken }
{}

/// Where nothing outside fails, the drill of a file that is there and is read gives 0 with its
/// whole transcript and all its starts, or 7 where memory is wanting.
pub fn drill_steadily(
    alloc: Global,
    words: &[Text],
    shelf: &mut SteadyShelf,
    spawner: &mut SteadySpawner,
    out: &mut SteadySink,
) -> u8
    ensures { let runs = ⟦<SteadySpawner as Spawner>⟧.shown in
        let shown = ⟦<SteadySink as Sink>⟧.shown in
        CompletesOrWants (⟦<SteadyShelf as Shelf>⟧.files shelf.old) words.now result
        (runs spawner.old) (runs spawner.new) (shown out.old) (shown out.new) }
{
    drill_top(alloc, words, shelf, spawner, out)
}
