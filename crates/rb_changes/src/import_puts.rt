//! What an import changes.
ghost use Rattle.rb_tables.specs.Changes.{Follow, ChangeMayCome};
ghost use Rattle.rb_tables.specs.Tables.{HasSpare};
ghost use Rattle.rb_tables.specs.declared.change.TableEffect.TheVariants as effects;

use crate::job_puts::{put_at_place, put_due};
use crate::latest_puts::put_latest;
use crate::laws::policy_laws;
use crate::noting::note;
use crate::policy_files::put_file;
use crate::projects::put_in_projects;
use crate::zones::put_in_zones;
use rb_acl::Room;
use rb_tables::change::{JobsEffect, NodesEffect, PoliciesEffect, ZonesEffect};
use rb_tables::laws::import_laws;
use rb_tables::tables::Tables;
use std::alloc::Global;

/// The zone of a name is this one.
pub(crate) fn put_zone(tables: &mut Tables, alloc: Global, at: i64, counted: u64, new: ZonesEffect)
    requires comes { ChangeMayCome tables.old at counted (effects.Zone new) }
    requires spare { HasSpare tables.old }
    ensures { Follow tables.old tables.new at counted (effects.Zone new) }
{
    let ZonesEffect { latest, zone, room } = new;
    import_laws();
    note(tables, at, counted);
    put_latest(&mut tables.zones, latest);
    put_in_zones(alloc, &mut tables.world.zones, room, zone);
    tables.zones_number += 1;
}

/// The nodes of a project are these.
pub(crate) fn put_nodes(tables: &mut Tables, alloc: Global, at: i64, counted: u64, new: NodesEffect)
    requires comes { ChangeMayCome tables.old at counted (effects.Nodes new) }
    requires spare { HasSpare tables.old }
    ensures { Follow tables.old tables.new at counted (effects.Nodes new) }
{
    let NodesEffect {
        latest,
        name,
        inventory,
        room,
    } = new;
    import_laws();
    note(tables, at, counted);
    put_latest(&mut tables.nodes, latest);
    let projects = &mut tables.world.projects;
    put_in_projects(alloc, projects, &mut tables.due, room, name, inventory);
}

/// The policies of a file are these.
pub(crate) fn put_policies(
    tables: &mut Tables,
    alloc: Global,
    at: i64,
    counted: u64,
    new: PoliciesEffect,
)
    requires comes { ChangeMayCome tables.old at counted (effects.Policies new) }
    requires spare { HasSpare tables.old }
    ensures { Follow tables.old tables.new at counted (effects.Policies new) }
{
    let PoliciesEffect {
        latest,
        new,
        room,
        rest_room,
    } = new;
    import_laws();
    policy_laws();
    note(tables, at, counted);
    let policies = &mut tables.world.policies;
    put_file(alloc, policies, latest.name.as_str(), new, room, rest_room);
    policies.fit_in(alloc, &mut Room::beside_document());
    put_latest(&mut tables.files, latest);
    tables.world.policy_number += 1;
}

/// The jobs are held in their project.
pub(crate) fn put_jobs(tables: &mut Tables, alloc: Global, at: i64, counted: u64, new: JobsEffect)
    requires comes { ChangeMayCome tables.old at counted (effects.Jobs new) }
    requires spare { HasSpare tables.old }
    ensures { Follow tables.old tables.new at counted (effects.Jobs new) }
{
    let JobsEffect {
        place,
        new,
        room,
        due_room,
    } = new;
    import_laws();
    note(tables, at, counted);
    let due = &mut tables.due[place];
    put_due(alloc, due, due_room);
    put_at_place(alloc, &mut tables.world.projects, place, due, room, new);
    tables.jobs_number += 1;
}
