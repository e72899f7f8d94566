//! Projects with their nodes.
ghost use Rattle.rb_changes.specs.Dues.{dues};
ghost use Rattle.rb_tables.specs.Due.{project_nexts};
ghost use Rattle.rb_tables.specs.Worlds.{put_project, node_imports_of};
ghost use Rattle.std.specs.Prelude.{◌≡◌, ◌<◌, ◌+◌, ◌^◌, [], length, map, vec_capacity, vec_len};

use crate::moving::moved_into;
use crate::named::{Named, find_place, put_at};
use rb_causes::{Items, Text};
use rb_inventory::Inventory;
use rb_plan::Project;
use std::alloc::Global;
use std::mem;

/// Puts the nodes of a project, in the memory that is given.
pub(crate) fn put_in_projects(
    alloc: Global,
    projects: &mut Items<Project>,
    due: &mut Vec<Vec<Option<i64>>>,
    room: Vec<Project>,
    name: Text,
    inventory: Inventory,
)
    requires empty { room.items ≡ [] }
    requires memory { length projects.old < vec_capacity room }
    requires count { node_imports_of name projects.old + 1 < 2 ^ 64 }
    requires due { dues due.old ≡ map project_nexts projects.old }
    requires due_memory { vec_len due.old < vec_capacity due.old }
    ensures projects { projects.new ≡ put_project name inventory projects.old }
    ensures due { dues due.new ≡ map project_nexts projects.new }
{
    let mut moved = moved_into(room, mem::replace(projects, Items::new(alloc)));
    put_project(alloc, &mut moved, due, name, inventory);
    *projects = Items::of(moved);
}

impl Named for Project {
    ghost name_of = { λ project. project.name };

    fn name(&self) -> &str {
        self.name.as_str()
    }
}

/// Puts the nodes of a project, where there is memory for one more. One that is there already keeps
/// its jobs.
pub(crate) fn put_project(
    alloc: Global,
    projects: &mut Vec<Project>,
    due: &mut Vec<Vec<Option<i64>>>,
    name: Text,
    inventory: Inventory,
)
    requires memory { vec_len projects.old < vec_capacity projects.old }
    requires count { node_imports_of name projects.old.items + 1 < 2 ^ 64 }
    requires due { dues due.old ≡ map project_nexts projects.old.items }
    requires due_memory { vec_len due.old < vec_capacity due.old }
    ensures projects { projects.new.items ≡ put_project name inventory projects.old.items }
    ensures due { dues due.new ≡ map project_nexts projects.new.items }
{
    match find_place(projects.as_slice(), name.as_str()) {
        Ok(place) => {
            let project = &mut projects[place];
            project.inventory = inventory;
            project.inventory_number += 1;
        }
        Err(place) => {
            put_at(due, place, Vec::new(alloc));
            let jobs = Items::new(alloc);
            put_at(
                projects,
                place,
                Project {
                    name,
                    inventory,
                    inventory_number: 1,
                    jobs,
                },
            );
        }
    }
}
