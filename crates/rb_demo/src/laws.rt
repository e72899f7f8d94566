//! Each function is a law, with nothing to run.
ghost use Rattle.rb_demo.specs.Imports.{JobsAreImported, NodesAreImported, PoliciesAreImported};
ghost use Rattle.rb_demo.specs.Laws.{JobsAreRead, NodesAreRead, PoliciesAreRead};
ghost use Rattle.rb_demo.specs.Rights.{AllAreChosen, EvenAreRunnable, RightsAreGiven};
ghost use Rattle.rb_demo.specs.Settings.{DemoIsImported, WorldIsDemo};
ghost use Rattle.rb_demo.specs.Verdicts.{AnnIsAccepted, BobIsRefused};

use rb_yaml_laws::laws::meant_is_read;

/// The nodes' text is read as one document, and that as the demo's nodes.
pub fn nodes_are_read()
    ensures { NodesAreRead }
{
    meant_is_read();
}

/// The policies' text is read as the demo's policies, and never refused.
pub fn policies_are_read()
    ensures { PoliciesAreRead }
{}

/// The jobs' text is read as the demo's jobs, and never refused.
pub fn jobs_are_read()
    ensures { JobsAreRead }
{}

/// Where a project has no nodes, the nodes' text is imported.
pub fn nodes_are_imported()
    ensures { NodesAreImported }
{
    nodes_are_read();
}

/// Where no policy file has the name, and there is place for one, the policies' text is imported.
pub fn policies_are_imported()
    ensures { PoliciesAreImported }
{
    policies_are_read();
}

/// Where a project has nodes, and none has jobs, the jobs' text is imported.
pub fn jobs_are_imported()
    ensures { JobsAreImported }
{
    jobs_are_read();
}

/// Behind a desk's opening each of the demo's documents is imported, one after another.
pub fn demo_is_imported()
    ensures { DemoIsImported }
{
    nodes_are_imported();
    policies_are_imported();
    jobs_are_imported();
}

/// What the log stands for behind these imports: the demo's project and policies, and nothing else.
pub fn world_is_demo()
    ensures { WorldIsDemo }
{
    nodes_are_read();
}

/// In the demo's project ann and bob may run all jobs; on a node ann may run where its draw is
/// even, and bob nowhere.
pub fn rights_are_given()
    ensures { RightsAreGiven }
{}

/// Each of the demo's jobs chooses all nodes.
pub fn all_are_chosen()
    ensures { AllAreChosen }
{}

/// Of all nodes ann may run on those whose draw is even, and bob on none.
pub fn even_are_runnable()
    ensures { EvenAreRunnable }
{}

/// Behind the imports ann's run of each job is accepted, on the nodes whose draw is even.
pub fn ann_is_accepted()
    ensures { AnnIsAccepted }
{}

/// Behind the imports bob's run of each job is refused, since no clause allows the first node.
pub fn bob_is_refused()
    ensures { BobIsRefused }
{}
