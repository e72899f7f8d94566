//! What jobs that were read are: each function proves a law.
ghost use Rattle.rb_job.specs.Laws.{JobsAreSound, IdsDiffer, PathsDiffer};

/// Each job has 1 to 200 steps, handlers that refer to no job, options whose names differ, 1 to
/// 1,000 threads, and a percentage of 1 to 100 where its orchestrator has one.
pub fn jobs_are_sound()
    ensures { JobsAreSound }
{}

/// The ids of jobs differ, where they have one.
pub fn ids_differ()
    ensures { IdsDiffer }
{}

/// The groups and names of jobs differ.
pub fn paths_differ()
    ensures { PathsDiffer }
{}
