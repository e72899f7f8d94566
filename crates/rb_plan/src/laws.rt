//! What a verdict means beyond the rules that make it: each function is a law, with nothing to run.
ghost use Rattle.rb_plan.specs.Laws.{NoJobIsExact, RefusalHolds, NoEarlierHolds, NoneHoldsOfAccepted, UnrefusedIsAccepted, AcceptedIsSound, LeavesAreFew, CommandsAreFew, NodesMayBeRun, NodesDiffer, DroppedMayNotBeRun, EachNodeIsRun, ReferencesMayBeRun, CommandsAreReached, WordsStayApart, LeafHasWords};

/// `NoJob` comes exactly where no project holds a job of the id.
pub fn no_job_is_exact()
    ensures { NoJobIsExact }
{}

/// The rule of the refusal that is told holds.
pub fn refusal_holds()
    ensures { RefusalHolds }
{}

/// No rule that is looked at before it does.
pub fn no_earlier_holds()
    ensures { NoEarlierHolds }
{}

/// Where a run is accepted, no rule of refusal holds.
pub fn none_holds_of_accepted()
    ensures { NoneHoldsOfAccepted }
{}

/// A run that no rule refuses is accepted.
pub fn unrefused_is_accepted()
    ensures { UnrefusedIsAccepted }
{}

/// In a sound world the plan of an accepted run can be run, and its leaves have words.
pub fn accepted_is_sound()
    ensures { AcceptedIsSound }
{}

/// An accepted run has at most 100,000 leaves.
pub fn leaves_are_few()
    ensures { LeavesAreFew }
{}

/// It has at most 1,000 commands.
pub fn commands_are_few()
    ensures { CommandsAreFew }
{}

/// Each node of an accepted run is one that is selected and that the caller may run.
pub fn nodes_may_be_run()
    ensures { NodesMayBeRun }
{}

/// In a sound world they differ.
pub fn nodes_differ()
    ensures { NodesDiffer }
{}

/// Each dropped node is one that is selected and that the caller may not run.
pub fn dropped_may_not_be_run()
    ensures { DroppedMayNotBeRun }
{}

/// Without a subset each selected node that may be run is one of the run.
pub fn each_node_is_run()
    ensures { EachNodeIsRun }
{}

/// Each job to which a path of references leads may be run by the caller, and no path is longer
/// than eight.
pub fn references_may_be_run()
    ensures { ReferencesMayBeRun }
{}

/// Each command is what a job does to which some path of references leads, with that job's names
/// and values.
pub fn commands_are_reached()
    ensures { CommandsAreReached }
{}

/// What is put into the words of a leaf makes no more words and no fewer.
pub fn words_stay_apart()
    ensures { WordsStayApart }
{}

/// A leaf of an acceptance with sound leaves has words.
pub fn leaf_has_words()
    ensures { LeafHasWords }
{}
