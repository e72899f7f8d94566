//! What is decided of imports of zones, of nodes, of policies and of jobs.
ghost use Rattle.rb_acl.specs.Numbering.{AreNumbered};
ghost use Rattle.rb_causes.specs.declared.row.Row.{Row};
ghost use Rattle.rb_log.specs.declared.call.Call.TheVariants as calls;
ghost use Rattle.rb_tables.specs.Changes.{Decided};
ghost use Rattle.rb_tables.specs.Tables.{IsTabled};
ghost use Rattle.std.specs.Prelude.{List};

use crate::job_changes::{check_jobs, find_project, jobs_change};
use crate::naming::check_name;
use crate::node_imports::nodes_change;
use crate::policy_imports::{check_file_place, check_policy_right, policy_change};
use crate::readings::{read_body, read_body_jobs, read_file, read_inventory, read_zone};
use crate::zone_imports::zone_change;
use rb_acl::Caller;
use rb_causes::Text;
use rb_log::Answer;
use rb_tables::change::Change;
use rb_tables::tables::Tables;
use std::alloc::Global;

/// What is decided of an import of a zone.
pub fn import_zone(
    tables: &Tables,
    alloc: Global,
    name: Text,
    rule: Text,
    at: i64,
) -> Result<Change, Answer>
    ensures { (past : List Row) → IsTabled tables.now past →
        Decided past (calls.ImportZone name rule at) result }
{
    let zone = read_zone(alloc, rule.as_str())?;
    zone_change(tables, alloc, name, rule, zone, at)
}

/// What is decided of an import of nodes.
pub fn import_nodes(
    tables: &Tables,
    alloc: Global,
    project: Text,
    body: Text,
    at: i64,
) -> Result<Change, Answer>
    ensures { (past : List Row) → IsTabled tables.now past →
        Decided past (calls.ImportNodes project body at) result }
{
    check_name(project.as_str())?;
    let docs = read_body(alloc, body.as_str())?;
    let inventory = read_inventory(alloc, docs.as_slice())?;
    nodes_change(tables, alloc, project, body, inventory, at)
}

/// What is decided of an import of a policy file.
pub fn import_policy(
    tables: &Tables,
    alloc: Global,
    caller: Caller,
    checked: bool,
    name: Text,
    body: Text,
    at: i64,
) -> Result<Change, Answer>
    requires { AreNumbered tables.now.world.policies }
    ensures { (past : List Row) → IsTabled tables.now past →
        Decided past (calls.ImportPolicy caller checked name body at) result }
{
    check_name(name.as_str())?;
    check_policy_right(tables, alloc, &caller, checked)?;
    let docs = read_body(alloc, body.as_str())?;
    let policies = read_file(alloc, name.as_str(), docs.as_slice())?;
    check_file_place(tables, name.as_str())?;
    policy_change(tables, alloc, &caller, checked, name, body, policies, at)
}

/// What is decided of an import of jobs.
pub fn import_jobs(
    tables: &Tables,
    alloc: Global,
    caller: Caller,
    checked: bool,
    project: Text,
    body: Text,
    at: i64,
) -> Result<Change, Answer>
    requires { AreNumbered tables.now.world.policies }
    ensures { (past : List Row) → IsTabled tables.now past →
        Decided past (calls.ImportJobs caller checked project body at) result }
{
    let place = find_project(tables, project.as_str())?;
    let jobs = read_body_jobs(alloc, body.as_str(), tables.world.zones.as_slice())?;
    check_jobs(
        tables,
        alloc,
        &caller,
        checked,
        project.as_str(),
        jobs.as_slice(),
    )?;
    jobs_change(
        tables, alloc, place, &caller, checked, project, body, jobs, at,
    )
}
