//! Under which id a job is held.
ghost use Rattle.rb_log.specs.World.{job_id, names_text};
ghost use Rattle.std.specs.Prelude.{◌≡◌, IfOk, string_bytes};

use rb_causes::{NoMemory, Text};
use rb_job::Job;
use std::alloc::Global;
use std::string::String;

/// The id of a job, or an x and its names in hex digits.
pub(crate) fn job_id(alloc: Global, project: &str, job: &Job) -> Result<Text, NoMemory>
    ensures { IfOk result (λ id. id ≡ job_id project.now job.now) }
{
    match &job.id {
        Some(id) => id.copy(alloc),
        None => {
            let names = names_text(alloc, project, job)?;
            let digits = hex::encode(alloc, names.as_str())?;
            let mut id = String::from_str(alloc, "x")?;
            id.push_str(digits.as_str())?;
            Ok(Text::from_string(id))
        }
    }
}

/// The project, group and name of a job, parted by slashes.
fn names_text(alloc: Global, project: &str, job: &Job) -> Result<String, NoMemory>
    ensures { IfOk result (λ text. string_bytes text ≡ names_text project.now job.now) }
{
    let mut text = String::from_str(alloc, project)?;
    text.push_str("/")?;
    text.push_str(job.group.as_str())?;
    text.push_str("/")?;
    text.push_str(job.name.as_str())?;
    Ok(text)
}
