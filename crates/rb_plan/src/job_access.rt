//! Who may run the jobs of a run, where many are decided.
ghost use Rattle.rb_acl.specs.Numbering.{AreNumbered};
ghost use Rattle.rb_plan.specs.Access.{job_run};
ghost use Rattle.std.specs.Prelude.{◌≡◌, IfOk};

use crate::access::{Access, job_resource};
use crate::world::HeldJob;
use rb_acl::{CallerIndex, Decision};
use rb_causes::NoMemory;
use std::alloc::Global;
use std::marker::Model;

/// Who asks, where, and by which policies, with an index of these for jobs.
#[derive(Drop)]
pub(crate) struct JobAccess<'a> {
    access: &'a Access<'a>,
    index: CallerIndex,
}

impl<'a> Model for JobAccess<'a> {
    ghost use Rattle.rb_plan.specs.Access.{Access as Asking};
    ghost use Rattle.rb_plan.specs.Deciding.{IsIndexFor};
    ghost use Rattle.std.specs.Prelude.{codes};

    ghost Value = { Asking };

    ghost view = { λ jobs. jobs.access.now };

    ghost invariant = { λ jobs. IsIndexFor jobs.access.now (codes "job") jobs.index };
}

impl<'a> JobAccess<'a> {
    pub(crate) fn of(alloc: Global, access: &'a Access<'a>) -> Result<JobAccess<'a>, NoMemory>
        requires { AreNumbered access.now.policies }
        ensures { IfOk result (λ jobs. jobs ≡ access.now) }
    {
        let index = access.index(alloc, "job")?;
        Ok(JobAccess { access, index })
    }

    /// Whether a job may be run.
    pub(crate) fn job_run(&self, alloc: Global, held: &HeldJob) -> Result<Decision, NoMemory>
        ensures { IfOk result (λ decision. decision ≡ job_run self.now held.now) }
    {
        let resource = job_resource(alloc, held)?;
        self.access
            .decision_by(alloc, &self.index, "run", &resource)
    }
}
