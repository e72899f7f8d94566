//! What becomes of a project by an import of jobs.
ghost use Rattle.rb_plan.specs.declared.world.Project.{Project};
ghost use Rattle.rb_tables.specs.Due.{next_of, project_nexts};
ghost use Rattle.rb_tables.specs.Worlds.{put_each};
ghost use Rattle.std.specs.Prelude.{◌≡◌, ◌≤◌, ◌<◌, ◌+◌, [], Some, length, map, slice_get, slice_set, vec_len, vec_capacity};

use crate::jobs::put_each;
use crate::moving::{move_behind, moved_into};
use rb_causes::Items;
use rb_plan::{HeldJob, Project};
use std::alloc::Global;
use std::mem;

/// Moves when the jobs of a project are due into the memory that is given.
pub(crate) fn put_due(alloc: Global, due: &mut Vec<Option<i64>>, mut room: Vec<Option<i64>>)
    requires empty { room.items ≡ [] }
    requires memory { vec_len due.old ≤ vec_capacity room }
    ensures held { due.new.items ≡ due.old.items }
    ensures memory { vec_capacity due.new ≡ vec_capacity room }
{
    move_behind(&mut room, mem::replace(due, Vec::new(alloc)));
    *due = room;
}

/// Puts jobs into a project, in the memory that is given.
fn put_in(
    alloc: Global,
    project: &mut Project,
    due: &mut Vec<Option<i64>>,
    room: Vec<HeldJob>,
    new: Vec<HeldJob>,
)
    requires empty { room.items ≡ [] }
    requires memory { length project.old.jobs + vec_len new ≤ vec_capacity room }
    requires due { due.old.items ≡ map next_of project.old.jobs }
    requires due_memory { length project.old.jobs + vec_len new ≤ vec_capacity due.old }
    ensures jobs { project.new
        ≡ record project.old { jobs = put_each new.items project.old.jobs } }
    ensures due { due.new.items ≡ map next_of project.new.jobs }
{
    let mut jobs = moved_into(room, mem::replace(&mut project.jobs, Items::new(alloc)));
    put_each(&mut jobs, due, new);
    project.jobs = Items::of(jobs);
}

/// Puts jobs into the project at this place.
pub(crate) fn put_at_place(
    alloc: Global,
    projects: &mut Items<Project>,
    place: usize,
    due: &mut Vec<Option<i64>>,
    room: Vec<HeldJob>,
    new: Vec<HeldJob>,
)
    requires place { place < length projects.old }
    requires empty { room.items ≡ [] }
    requires memory { (project : Project) → slice_get projects.old place ≡ Some project →
        length project.jobs + vec_len new ≤ vec_capacity room }
    requires due { (project : Project) → slice_get projects.old place ≡ Some project →
        due.old.items ≡ project_nexts project }
    requires due_memory { (project : Project) → slice_get projects.old place ≡ Some project →
        length project.jobs + vec_len new ≤ vec_capacity due.old }
    ensures jobs { (project : Project) → slice_get projects.old place ≡ Some project →
        projects.new ≡ slice_set projects.old place
        (record project { jobs = put_each new.items project.jobs }) }
    ensures due { (project : Project) → slice_get projects.old place ≡ Some project →
        due.new.items ≡ map next_of (put_each new.items project.jobs) }
{
    let mut moved = mem::replace(projects, Items::new(alloc)).into_vec();
    put_in(alloc, &mut moved[place], due, room, new);
    *projects = Items::of(moved);
}
