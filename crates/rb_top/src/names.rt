ghost use Rattle.rb_top.specs.Names.{HasNames};
ghost use Rattle.rb_top.specs.Reading.{empty_script, has_steps, job_at, with_line};
ghost use Rattle.std.specs.List.{list_all};
ghost use Rattle.rb_causes.specs.Texts.{has_text};
ghost use Rattle.std.specs.Prelude.{◌≡◌, is_some, OnOk};

use crate::job_places::JobPlaces;
use crate::script::{DrillLine, Script};
use rb_causes::{NoMemory, SeenTexts, Text};
use std::alloc::Global;

/// The names of a script that is being read, to be looked up.
#[derive(Drop)]
pub(crate) struct Names {
    nodes: SeenTexts,
    jobs: JobPlaces,
}

impl Names {
    /// The names of an empty script; takes no memory.
    pub(crate) fn new(alloc: Global) -> Names
        ensures { HasNames result empty_script }
    {
        Names {
            nodes: SeenTexts::new(alloc),
            jobs: JobPlaces::new(alloc),
        }
    }

    /// Whether the script has this node.
    pub(crate) fn has_node(&self, script: &Script, node: &Text) -> bool
        requires { HasNames self.now script.now }
        ensures { result ≡ has_text script.now.nodes node.now }
    {
        self.nodes.holds(node.as_str())
    }

    /// Whether the script has these nodes.
    pub(crate) fn has_nodes(&self, script: &Script, nodes: &[Text]) -> bool
        requires { HasNames self.now script.now }
        ensures { result ≡ list_all (has_text script.now.nodes) nodes.now }
    {
        nodes.iter().all(|node| self.has_node(script, node))
    }

    /// Whether the script has a job of this id.
    pub(crate) fn has_job(&self, script: &Script, id: &Text) -> bool
        requires { HasNames self.now script.now }
        ensures { result ≡ is_some (job_at script.now.jobs id.now) }
    {
        self.jobs.job_at(script.jobs.as_slice(), id).is_some()
    }

    /// Whether the script has a job of this id with a step.
    pub(crate) fn has_steps(&self, script: &Script, id: &Text) -> bool
        requires { HasNames self.now script.now }
        ensures { result ≡ has_steps (job_at script.now.jobs id.now) }
    {
        match self.jobs.job_at(script.jobs.as_slice(), id) {
            Some(job) => !job.steps.is_empty(),
            None => false,
        }
    }

    /// Notes the names of a line that is to be added to the script.
    pub(crate) fn note(
        &mut self,
        alloc: Global,
        script: &Script,
        line: &DrillLine,
    ) -> Result<(), NoMemory>
        requires { HasNames self.old script.now }
        ensures { OnOk result (HasNames self.new (with_line script.now line.now)) }
    {
        match line {
            DrillLine::Skip => Ok(()),
            DrillLine::Node(name) => self.nodes.note(alloc, name.as_str()),
            DrillLine::Access(_) => Ok(()),
            DrillLine::Job { id, .. } => self.jobs.note(alloc, id, script.jobs.len()),
            DrillLine::Step(_) => Ok(()),
            DrillLine::Run(_) => Ok(()),
        }
    }
}
