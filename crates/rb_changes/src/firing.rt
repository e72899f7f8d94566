//! Jobs that their schedules have fired.
ghost use Rattle.rb_changes.specs.Firing.{fired, fired_if, fired_in};
ghost use Rattle.rb_tables.specs.Due.{next_of, project_nexts};
ghost use Rattle.rb_tables.specs.Tables.{nexts};
ghost use Rattle.rb_plan.specs.declared.world.HeldJob.{HeldJob};
ghost use Rattle.std.specs.Prelude.{◌≡◌, ◌<◌, map, slice_get, slice_set, Some, vec_len};

use rb_causes::{Items, Text};
use rb_plan::{HeldJob, Project};
use rb_tables::due::next_of;
use rb_tables::tables::Tables;
use std::alloc::Global;
use std::mem;

/// The job at a place was looked at last at this moment, and is due anew, if it has this id.
fn fire_at(jobs: &mut Vec<HeldJob>, due: &mut Vec<Option<i64>>, place: usize, id: &str, at: i64)
    requires place { place < vec_len jobs.old }
    requires due { due.old.items ≡ map next_of jobs.old.items }
    ensures jobs { (held : HeldJob) → slice_get jobs.old.items place ≡ Some held →
        jobs.new.items ≡ slice_set jobs.old.items place (fired id.now at held) }
    ensures due { due.new.items ≡ map next_of jobs.new.items }
{
    if jobs[place].id.as_str() == id {
        jobs[place].looked = at;
        due[place] = next_of(&jobs[place]);
    }
}

/// Those of the jobs that have this id were looked at last at this moment, and are due anew.
fn fire_each(jobs: &mut Vec<HeldJob>, due: &mut Vec<Option<i64>>, id: &str, at: i64)
    requires { due.old.items ≡ map next_of jobs.old.items }
    ensures jobs { jobs.new.items ≡ map (fired id.now at) jobs.old.items }
    ensures due { due.new.items ≡ map next_of jobs.new.items }
{
    for place in 0..jobs.len() {
        fire_at(jobs, due, place, id, at);
    }
}

/// So were those of a project.
fn fire_in(alloc: Global, project: &mut Project, due: &mut Vec<Option<i64>>, id: &str, at: i64)
    requires { due.old.items ≡ map next_of project.old.jobs }
    ensures project { project.new ≡ fired_in id.now at project.old }
    ensures due { due.new.items ≡ map next_of project.new.jobs }
{
    let mut jobs = mem::replace(&mut project.jobs, Items::new(alloc)).into_vec();
    fire_each(&mut jobs, due, id, at);
    project.jobs = Items::of(jobs);
}

/// The job of this id was looked at last at this moment.
pub(crate) fn put_fire(tables: &mut Tables, alloc: Global, at: i64, id: &str)
    requires { nexts tables.old ≡ map project_nexts tables.old.world.projects }
    ensures rest { tables.new ≡ record tables.old {
      due = tables.new.due;
      world = record tables.old.world {
        projects = map (fired_in id.now at) tables.old.world.projects;
      };
    } }
    ensures due { nexts tables.new ≡ map project_nexts tables.new.world.projects }
{
    let mut projects = mem::replace(&mut tables.world.projects, Items::new(alloc)).into_vec();
    for place in 0..projects.len() {
        fire_in(alloc, &mut projects[place], &mut tables.due[place], id, at);
    }
    tables.world.projects = Items::of(projects);
}

/// The job of this id was, if one was fired.
pub(crate) fn put_fire_if(tables: &mut Tables, alloc: Global, at: i64, id: Option<Text>)
    requires { nexts tables.old ≡ map project_nexts tables.old.world.projects }
    ensures rest { tables.new ≡ record tables.old {
      due = tables.new.due;
      world = record tables.old.world {
        projects = fired_if id at tables.old.world.projects;
      };
    } }
    ensures due { nexts tables.new ≡ map project_nexts tables.new.world.projects }
{
    if let Some(id) = id {
        put_fire(tables, alloc, at, id.as_str());
    }
}
