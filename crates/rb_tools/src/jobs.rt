//! `check jobs`: the jobs of a job file, counted.
ghost use Rattle.rb_causes.specs.Sinks.{StopsAtFault};
ghost use Rattle.rb_job.specs.Jobs.{AreJobsOf};
ghost use Rattle.rb_tools.specs.Jobs.{ReadsJobs, IsRefusalOfJobs, jobs_text};
ghost use Rattle.rb_tools.specs.Printing.{Checks};
ghost use Rattle.rb_yaml.specs.Tree.{docs_tree};
ghost use Rattle.std.specs.Prelude.{◌≡◌, ◌≤◌, ◌⊎◌, [], Ok, Err, IfOk, IfErr, string_bytes};

use crate::documents::read_documents;
use crate::printing::give;
use crate::refusal::ToolRefusal;
use rb_causes::{Shelf, Sink};
use rb_command::fetch_or_tell;
use rb_job::{Job, JobErr, read_jobs};
use rb_yaml::Doc;
use std::alloc::{AllocError, Global};

/// Fetches the file, and prints how many jobs it has.
pub(crate) fn check_jobs<F: Shelf, O: Sink>(
    alloc: Global,
    file: &str,
    shelf: &mut F,
    out: &mut O,
) -> u8
    ensures check { Checks ReadsJobs (F.files shelf.old) file.now
        (F.faults shelf.old) (F.faults shelf.new) result (O.shown out.old) (O.shown out.new) }
    ensures statuses { (result ≡ 0) ⊎ (result ≡ 3) ⊎ (result ≡ 4) ⊎ (result ≡ 7) ⊎ (result ≡ 9) }
    ensures out { StopsAtFault (O.shown out.old) (O.shown out.new) }
    ensures files { F.files shelf.new ≡ F.files shelf.old }
    ensures faults { F.faults shelf.old ≤ F.faults shelf.new }
{
    match fetch_or_tell(alloc, file, shelf, out) {
        Ok(bytes) => give(out, file, jobs_text(alloc, bytes.as_slice())),
        Err(status) => status,
    }
}

// How many jobs the file's bytes have.
fn jobs_text(alloc: Global, bytes: &[u8]) -> Result<String, ToolRefusal>
    ensures ok { IfOk result (λ text. ReadsJobs bytes.now (Ok (string_bytes text))) }
    ensures refused { IfErr result (λ refusal. ReadsJobs bytes.now (Err refusal)) }
{
    let docs = read_documents(alloc, bytes)?;
    let jobs = read_all_jobs(alloc, docs.as_slice())?;
    Ok(count_text(alloc, jobs.as_slice())?)
}

// The jobs of documents, in which no zone but UTC may be named.
fn read_all_jobs(alloc: Global, docs: &[Doc]) -> Result<Vec<Job>, ToolRefusal>
    ensures ok { IfOk result (λ jobs. AreJobsOf [] (docs_tree docs.now) jobs.items) }
    ensures refused { IfErr result (IsRefusalOfJobs (docs_tree docs.now)) }
{
    match read_jobs(alloc, docs, &[]) {
        Ok(jobs) => Ok(jobs),
        Err(JobErr::Fault(fault)) => Err(ToolRefusal::Job(fault)),
        Err(JobErr::NoMemory) => Err(ToolRefusal::NoMemory),
    }
}

fn count_text(alloc: Global, jobs: &[Job]) -> Result<String, AllocError>
    ensures { IfOk result (λ text. string_bytes text ≡ jobs_text jobs.now) }
{
    let count = jobs.len();
    format!(in alloc; "{count} jobs\n")
}
