//! The canonical texts of policies and of jobs.
ghost use Rattle.rb_canon.specs.Layout.{canon_docs_of, most_bytes};
ghost use Rattle.rb_canon.specs.Views.{canon_tree, canon_trees};
ghost use Rattle.rb_export.specs.Exports.{policies_text, jobs_text, is_in_other, first_other, IsTextRefusal, IsJobsRefusal};
ghost use Rattle.rb_export.specs.Policies.{policy_value};
ghost use Rattle.std.specs.Prelude.{◌≡◌, ◌≤◌, ◌<◌, ◌^◌, None, length, map, IfOk, OnOk, IfErr};

use crate::export_err::ExportErr;
use crate::jobs::jobs_values;
use crate::policies::policy_value;
use rb_acl::Policy;
use rb_canon::{Canon, CanonErr, print_docs};
use rb_causes::NoMemory;
use rb_cron::Schedule;
use rb_job::Job;
use std::alloc::Global;

/// The text of policies that were read, a document for each. From it policies are read again that
/// differ from these at most in file and place.
pub fn export_policies(alloc: Global, policies: &[Policy]) -> Result<Vec<u8>, ExportErr>
    ensures text { IfOk result (λ text. text.items ≡ policies_text policies.now) }
    ensures short { IfOk result (λ text. length text.items ≤ most_bytes) }
    ensures cause { IfErr result (IsTextRefusal (policies_text policies.now)) }
{
    let docs = policy_values(alloc, policies)?;
    printed(alloc, docs.as_slice())
}

/// The text of jobs that were read, 1,000 to a document. From it jobs are read again each of which
/// is the same as the one here.
pub fn export_jobs(alloc: Global, jobs: &[Job]) -> Result<Vec<u8>, ExportErr>
    requires { length jobs.now < 2 ^ 32 }
    ensures text { IfOk result (λ text. text.items ≡ jobs_text jobs.now) }
    ensures short { IfOk result (λ text. length text.items ≤ most_bytes) }
    ensures zones { OnOk result (first_other 1 jobs.now ≡ None) }
    ensures cause { IfErr result (IsJobsRefusal jobs.now) }
{
    match first_other(jobs) {
        Some(number) => Err(ExportErr::OtherZone(number)),
        None => jobs_printed(alloc, jobs),
    }
}

fn jobs_printed(alloc: Global, jobs: &[Job]) -> Result<Vec<u8>, ExportErr>
    ensures text { IfOk result (λ text. text.items ≡ jobs_text jobs.now) }
    ensures short { IfOk result (λ text. length text.items ≤ most_bytes) }
    ensures cause { IfErr result (IsTextRefusal (jobs_text jobs.now)) }
{
    let docs = jobs_values(alloc, jobs)?;
    printed(alloc, docs.as_slice())
}

fn policy_values(alloc: Global, policies: &[Policy]) -> Result<Vec<Canon>, NoMemory>
    ensures { IfOk result (λ values.
        map canon_tree values.items ≡ map policy_value policies.now) }
{
    let mut values = Vec::new(alloc);
    for policy in policies {
        values.push(policy_value(alloc, policy)?)?;
    }
    Ok(values)
}

/// The text of documents.
fn printed(alloc: Global, docs: &[Canon]) -> Result<Vec<u8>, ExportErr>
    ensures text { IfOk result (λ text. text.items ≡ canon_docs_of (canon_trees docs.now)) }
    ensures short { IfOk result (λ text. length text.items ≤ most_bytes) }
    ensures cause { IfErr result (IsTextRefusal (canon_docs_of (canon_trees docs.now))) }
{
    match print_docs(alloc, docs) {
        Ok(text) => Ok(text),
        Err(CanonErr::TooLarge) => Err(ExportErr::TooLarge),
        Err(CanonErr::NoMemory) => Err(ExportErr::NoMemory),
    }
}

fn is_in_other(schedule: &Option<Schedule>) -> bool
    ensures { result ≡ is_in_other schedule.now }
{
    match schedule {
        None => false,
        Some(schedule) => !schedule.in_utc(),
    }
}

/// The number of the first job, from 1, whose schedule is in another zone than UTC.
fn first_other(jobs: &[Job]) -> Option<u32>
    requires { length jobs.now < 2 ^ 32 }
    ensures { result ≡ first_other 1 jobs.now }
{
    for (index, job) in jobs.iter().enumerate() {
        if is_in_other(&job.schedule) {
            return Some(index as u32 + 1);
        }
    }
    None
}
