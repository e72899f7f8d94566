//! The jobs of an import as they are held.
ghost use Rattle.rb_acl.specs.declared.policy.Caller.{Caller};
ghost use Rattle.rb_log.specs.World.{job_id};
ghost use Rattle.rb_tables.specs.Worlds.{held_by};
ghost use Rattle.std.specs.Prelude.{◌≡◌, ℕ, List, map, IfOk};

use crate::ids::job_id;
use rb_acl::Caller;
use rb_causes::{Items, NoMemory, Text};
use rb_job::Job;
use rb_plan::HeldJob;
use rb_tables::duplicate::Duplicate;
use std::alloc::Global;

/// The id of a job, and its importer.
fn head_of(
    alloc: Global,
    project: &str,
    importer: &Caller,
    job: &Job,
) -> Result<(Text, Caller), NoMemory>
    ensures { IfOk result (λ head. head ≡ (job_id project.now job.now, importer.now)) }
{
    let id = job_id(alloc, project, job)?;
    let importer = importer.duplicate(alloc)?;
    Ok((id, importer))
}

/// The job under this id and with this importer.
fn held_as(id: Text, importer: Caller, looked: i64, job: Job) -> HeldJob
    ensures { result ≡ record { id = id; job = job; importer = importer; looked = looked } }
{
    HeldJob {
        id,
        job,
        importer,
        looked,
    }
}

/// The job under this id and with this importer, if there was memory for them.
fn with_head(
    made: Result<(Text, Caller), NoMemory>,
    looked: i64,
    job: Job,
) -> Result<HeldJob, NoMemory>
    ensures { (project : List ℕ) (importer : Caller) →
        IfOk made (λ head. head ≡ (job_id project job, importer)) →
        IfOk result (λ held. held ≡ held_by project importer looked job) }
{
    match made {
        Ok((id, importer)) => Ok(held_as(id, importer, looked, job)),
        Err(NoMemory) => Err(NoMemory),
    }
}

/// A job of an import as it is held.
fn held_job(
    alloc: Global,
    project: &str,
    importer: &Caller,
    looked: i64,
    job: Job,
) -> Result<HeldJob, NoMemory>
    ensures { IfOk result (λ held. held ≡ held_by project.now importer.now looked job) }
{
    let made = head_of(alloc, project, importer, &job);
    with_head(made, looked, job)
}

/// The jobs of an import as they are held: looked at last when they were imported.
pub(crate) fn held_jobs(
    alloc: Global,
    project: &str,
    importer: &Caller,
    looked: i64,
    jobs: Items<Job>,
) -> Result<Vec<HeldJob>, NoMemory>
    ensures { IfOk result (λ held.
        held.items ≡ map (held_by project.now importer.now looked) jobs) }
{
    let mut held = Vec::new(alloc);
    for job in jobs.into_vec() {
        held.push(held_job(alloc, project, importer, looked, job)?)?;
    }
    Ok(held)
}
