//! The jobs of a project, with one more.
ghost use Rattle.rb_changes.specs.Unchanged.{is_unchanged};
ghost use Rattle.rb_log.specs.World.{put_job, unless_same};
ghost use Rattle.rb_plan.specs.declared.world.HeldJob.{HeldJob};
ghost use Rattle.rb_tables.specs.Due.{next_of};
ghost use Rattle.rb_tables.specs.Worlds.{put_each};
ghost use Rattle.std.specs.Prelude.{◌≡◌, ◌<◌, ◌≤◌, ◌+◌, Some, insert, length, map, slice_get, slice_set, vec_len, vec_capacity};

use crate::named::{Named, find_place, put_at, set_at};
use rb_plan::HeldJob;
use rb_tables::due::next_of;
use rb_tables::sameness::is_same;

impl Named for HeldJob {
    ghost name_of = { λ held. held.id };

    fn name(&self) -> &str {
        self.id.as_str()
    }
}

/// Puts a job under its id, where there is memory for one more, and notes when it is due. One that
/// is held there already stays where the new one is the same.
pub(crate) fn put_job(jobs: &mut Vec<HeldJob>, due: &mut Vec<Option<i64>>, new: HeldJob)
    requires memory { vec_len jobs.old < vec_capacity jobs.old }
    requires due { due.old.items ≡ map next_of jobs.old.items }
    requires due_memory { vec_len jobs.old < vec_capacity due.old }
    ensures held { jobs.new.items ≡ put_job new jobs.old.items }
    ensures due { due.new.items ≡ map next_of jobs.new.items }
    ensures memory { vec_capacity jobs.new ≡ vec_capacity jobs.old }
    ensures due_memory { vec_capacity due.new ≡ vec_capacity due.old }
    ensures more { length jobs.new.items ≤ length jobs.old.items + 1 }
{
    match find_place(jobs.as_slice(), new.id.as_str()) {
        Ok(place) => set_job(jobs, due, place, new),
        Err(place) => insert_job(jobs, due, place, new),
    }
}

/// Whether a job is imported again as it is held.
fn is_unchanged(held: &HeldJob, new: &HeldJob) -> bool
    ensures { result ≡ is_unchanged held.now new.now }
{
    is_same(&held.job, &new.job)
}

/// Puts a job over the one at a place, and notes when it is due.
fn put_over(jobs: &mut Vec<HeldJob>, due: &mut Vec<Option<i64>>, place: usize, new: HeldJob)
    requires place { place < vec_len jobs.old }
    requires due_place { place < vec_len due.old }
    ensures held { jobs.new.items ≡ slice_set jobs.old.items place new }
    ensures due { due.new.items ≡ slice_set due.old.items place (next_of new) }
    ensures memory { vec_capacity jobs.new ≡ vec_capacity jobs.old }
    ensures due_memory { vec_capacity due.new ≡ vec_capacity due.old }
{
    due[place] = next_of(&new);
    set_at(jobs, place, new);
}

/// Puts a job over the one at a place, unless both are the same, and notes when it is due.
fn set_job(jobs: &mut Vec<HeldJob>, due: &mut Vec<Option<i64>>, place: usize, new: HeldJob)
    requires place { place < vec_len jobs.old }
    requires due { due.old.items ≡ map next_of jobs.old.items }
    ensures held { (held : HeldJob) → slice_get jobs.old.items place ≡ Some held →
        jobs.new.items ≡ slice_set jobs.old.items place (unless_same new held) }
    ensures due { due.new.items ≡ map next_of jobs.new.items }
    ensures memory { vec_capacity jobs.new ≡ vec_capacity jobs.old }
    ensures due_memory { vec_capacity due.new ≡ vec_capacity due.old }
{
    if is_unchanged(&jobs[place], &new) {
        drop(new);
    } else {
        put_over(jobs, due, place, new);
    }
}

/// Puts a job at a place where there is none of its id, and notes when it is due.
fn insert_job(jobs: &mut Vec<HeldJob>, due: &mut Vec<Option<i64>>, place: usize, new: HeldJob)
    requires place { place ≤ vec_len jobs.old }
    requires memory { vec_len jobs.old < vec_capacity jobs.old }
    requires due { due.old.items ≡ map next_of jobs.old.items }
    requires due_memory { vec_len jobs.old < vec_capacity due.old }
    ensures held { jobs.new.items ≡ insert jobs.old.items place new }
    ensures due { due.new.items ≡ map next_of jobs.new.items }
    ensures memory { vec_capacity jobs.new ≡ vec_capacity jobs.old }
    ensures due_memory { vec_capacity due.new ≡ vec_capacity due.old }
{
    put_at(due, place, next_of(&new));
    put_at(jobs, place, new);
}

/// Puts jobs one after another, where there is memory for all of them.
pub(crate) fn put_each(jobs: &mut Vec<HeldJob>, due: &mut Vec<Option<i64>>, new: Vec<HeldJob>)
    requires memory { vec_len jobs.old + vec_len new ≤ vec_capacity jobs.old }
    requires due { due.old.items ≡ map next_of jobs.old.items }
    requires due_memory { vec_len jobs.old + vec_len new ≤ vec_capacity due.old }
    ensures held { jobs.new.items ≡ put_each new.items jobs.old.items }
    ensures due { due.new.items ≡ map next_of jobs.new.items }
{
    for job in new {
        put_job(jobs, due, job);
    }
}
