//! Jobs, imports and nodes as they are shown, and all that a look shows.
ghost use Rattle.rb_api.specs.Views.{action_text, imported_data, node_data, nodes_data};
ghost use Rattle.rb_api.specs.Views.{policy_data, shown_data};
ghost use Rattle.rb_causes.specs.Signs.{comma};
ghost use Rattle.rb_causes.specs.Texts.{joined};
ghost use Rattle.serde_json.specs.View.{view};
ghost use Rattle.std.specs.Prelude.{◌≡◌, string_bytes, IfOk};

use crate::executions::{executions_value, state_value};
use crate::joining::joined as join;
use crate::listing::{Shows, list_value};
use rb_causes::{NoMemory, Text};
use rb_log::{Action, ImportedJob, JobView, Shown};
use rb_node::Node;
use rb_reply::{put_text, put_texts};
use serde_json::{Map, Value, json, put};
use std::alloc::Global;

impl Shows for JobView {
    ghost use Rattle.rb_api.specs.Views.{job_data};

    ghost as_json = { job_data };

    fn value(&self, alloc: Global) -> Result<Value, NoMemory> {
        Ok(json!(in alloc; {
            "group": self.group.as_str(),
            "id": self.id.as_str(),
            "name": self.name.as_str(),
            "project": self.project.as_str()
        })?)
    }
}

fn action_text(action: Action) -> &'static str
    ensures { result.now ≡ action_text action }
{
    match action {
        Action::Created => "created",
        Action::Updated => "updated",
        Action::Same => "same",
    }
}

impl Shows for ImportedJob {
    ghost use Rattle.rb_api.specs.Views.{imported_job_data};

    ghost as_json = { imported_job_data };

    fn value(&self, alloc: Global) -> Result<Value, NoMemory> {
        Ok(json!(in alloc; {
            "action": action_text(self.action),
            "id": self.id.as_str()
        })?)
    }
}

/// The jobs of an import.
pub(crate) fn imported_value(
    alloc: Global,
    jobs: &[ImportedJob],
    version: u64,
) -> Result<Value, NoMemory>
    ensures { IfOk result (λ value. view value ≡ imported_data jobs.now version) }
{
    let jobs = list_value(alloc, jobs)?;
    Ok(json!(in alloc; {
        "jobs": jobs,
        "version": version
    })?)
}

/// A policy file of this name.
pub(crate) fn policy_value(alloc: Global, name: &str, version: u64) -> Result<Value, NoMemory>
    ensures { IfOk result (λ value. view value ≡ policy_data name.now version) }
{
    Ok(json!(in alloc; {
        "name": name,
        "version": version
    })?)
}

/// The tags, with commas between them.
fn joined_tags(alloc: Global, tags: &[Text]) -> Result<String, NoMemory>
    ensures { IfOk result (λ text. string_bytes text ≡ joined comma tags.now) }
{
    join(alloc, ",", tags)
}

/// The attributes of a node, its name and its tags.
fn node_value(alloc: Global, node: &Node) -> Result<Value, NoMemory>
    ensures { IfOk result (λ value. view value ≡ node_data node.now) }
{
    let mut members = Map::new(alloc);
    put_texts(alloc, &mut members, node.attrs.as_slice())?;
    put_text(alloc, &mut members, "nodename", node.name.as_str())?;
    let tags = joined_tags(alloc, node.tags.as_slice())?;
    put_text(alloc, &mut members, "tags", tags.as_str())?;
    Ok(Value::Object(members))
}

/// Nodes under their names.
fn nodes_value(alloc: Global, nodes: &[Node]) -> Result<Value, NoMemory>
    ensures { IfOk result (λ value. view value ≡ nodes_data nodes.now) }
{
    let mut members = Map::new(alloc);
    for node in nodes {
        let value = node_value(alloc, node)?;
        put(&mut members, alloc, node.name.as_str(), value)?;
    }
    Ok(Value::Object(members))
}

/// What a look shows.
pub(crate) fn shown_value(alloc: Global, shown: &Shown) -> Result<Value, NoMemory>
    ensures { IfOk result (λ value. view value ≡ shown_data shown.now) }
{
    match shown {
        Shown::Execution(view) => view.value(alloc),
        Shown::State { id, nodes, status } => state_value(alloc, *id, nodes.as_slice(), *status),
        Shown::Jobs(jobs) => list_value(alloc, jobs.as_slice()),
        Shown::Resources(nodes) => nodes_value(alloc, nodes.as_slice()),
        Shown::Executions { executions, paging } => executions_value(
            alloc,
            executions.as_slice(),
            *paging,
        ),
    }
}
