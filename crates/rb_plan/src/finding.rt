//! What is found in a world.
ghost use Rattle.rb_plan.specs.Worlds.{found_among, job_found, referred_job, running_of, lowest_running, lesser};
ghost use Rattle.std.specs.Option.{option_copied};
ghost use Rattle.std.specs.Prelude.{◌≡◌, bytes_eq, find};

use crate::world::{HeldJob, Project, Running, World};
use std::marker::Model;

/// A job and the project that holds it.
#[derive(Drop)]
pub struct Found<'a> {
    pub project: &'a Project,
    pub held: &'a HeldJob,
}

impl<'a> Model for Found<'a> {
    ghost use Rattle.rb_plan.specs.Worlds.{Found as FoundJob};

    ghost Value = { FoundJob };

    ghost view = { λ f. record { project = f.project.now; held = f.held.now } };
}

/// The job under this id in the first project that holds one.
pub fn found_among<'a>(projects: &'a [Project], id: &str) -> Option<Found<'a>>
    ensures { result ≡ found_among id.now projects.now }
{
    for project in projects {
        if let Some(held) = held_in(project.jobs.as_slice(), id) {
            return Some(Found { project, held });
        }
    }
    None
}

/// The job under this id.
fn held_in<'a>(jobs: &'a [HeldJob], id: &str) -> Option<&'a HeldJob>
    ensures { option_copied result ≡ find (λ held. bytes_eq held.id id.now) jobs.now }
{
    jobs.iter().find(|held| held.id.as_str() == id)
}

/// The job of this id.
pub(crate) fn job_found<'a>(world: &'a World, id: &str) -> Option<Found<'a>>
    ensures { result ≡ job_found world.now id.now }
{
    found_among(world.projects.as_slice(), id)
}

/// The job of this group and name.
pub(crate) fn referred_job<'a>(project: &'a Project, group: &str, name: &str) -> Option<&'a HeldJob>
    ensures { option_copied result ≡ referred_job project.now group.now name.now }
{
    project.jobs.as_slice().iter().find(|held| held.job.group.as_str() == group
        && held.job.name.as_str() == name)
}

/// The lowest execution of this job that runs.
pub(crate) fn running_of(world: &World, id: &str) -> Option<u64>
    ensures { result ≡ running_of world.now id.now }
{
    lowest_running(id, world.running.as_slice())
}

fn lowest_running(id: &str, running: &[Running]) -> Option<u64>
    ensures { result ≡ lowest_running id.now running.now }
{
    let mut lowest = None;
    for one in running {
        if one.job.as_str() == id {
            lowest = Some(lesser(one.execution, lowest));
        }
    }
    lowest
}

fn lesser(number: u64, other: Option<u64>) -> u64
    ensures { result ≡ lesser number other }
{
    match other {
        None => number,
        Some(other) => number.min(other),
    }
}
