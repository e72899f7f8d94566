//! Executions as they are shown.
ghost use Rattle.rb_api.specs.Views.{abort_data, executions_data, paging_data, state_data};
ghost use Rattle.rb_api.specs.Views.{with_state, with_work};
ghost use Rattle.serde_json.specs.View.{members_view, view};
ghost use Rattle.std.specs.Prelude.{◌≡◌, IfOk, OnOk};

use crate::listing::{Shows, list_value};
use rb_causes::{NoMemory, Text};
use rb_log::{DroppedView, NodeState, Paging, View};
use rb_marks::{Status, StepResult};
use rb_query::{status_text, step_text};
use rb_reply::{put_text, text_value, texts_value};
use serde_json::{Map, Value, json, put};
use std::alloc::Global;

impl Shows for Text {
    ghost use Rattle.rb_reply.specs.Listing.{text_data};

    ghost as_json = { text_data };

    fn value(&self, alloc: Global) -> Result<Value, NoMemory> {
        text_value(alloc, self.as_str())
    }
}

impl Shows for DroppedView {
    ghost use Rattle.rb_api.specs.Views.{dropped_data};

    ghost as_json = { dropped_data };

    fn value(&self, alloc: Global) -> Result<Value, NoMemory> {
        Ok(json!(in alloc; {
            "clause": self.clause.as_str(),
            "node": self.node.as_str()
        })?)
    }
}

impl Shows for StepResult {
    ghost use Rattle.rb_api.specs.Views.{step_data};

    ghost as_json = { step_data };

    fn value(&self, alloc: Global) -> Result<Value, NoMemory> {
        text_value(alloc, step_text(*self))
    }
}

impl Shows for NodeState {
    ghost use Rattle.rb_api.specs.Views.{node_state_data};

    ghost as_json = { node_state_data };

    fn value(&self, alloc: Global) -> Result<Value, NoMemory> {
        let steps = list_value(alloc, self.steps.as_slice())?;
        match &self.clause {
            None => Ok(json!(in alloc; {
                "node": self.node.as_str(),
                "steps": steps
            })?),
            Some(clause) => Ok(json!(in alloc; {
                "clause": clause.as_str(),
                "node": self.node.as_str(),
                "steps": steps
            })?),
        }
    }
}

/// Puts what an execution runs and where.
fn put_work(alloc: Global, members: &mut Map<String, Value>, shown: &View) -> Result<(), NoMemory>
    ensures { OnOk result (members_view members.new.entries
        ≡ with_work shown.now (members_view members.old.entries)) }
{
    let dropped = list_value(alloc, shown.dropped.as_slice())?;
    put(members, alloc, "dropped", dropped)?;
    put(members, alloc, "id", Value::from(shown.id))?;
    put_text(alloc, members, "job", shown.job.as_str())?;
    let nodes = list_value(alloc, shown.nodes.as_slice())?;
    put(members, alloc, "nodes", nodes)?;
    let options = texts_value(alloc, shown.options.as_slice())?;
    put(members, alloc, "options", options)?;
    Ok(())
}

/// Puts whose an execution is, and how far it is.
fn put_state(alloc: Global, members: &mut Map<String, Value>, shown: &View) -> Result<(), NoMemory>
    ensures { OnOk result (members_view members.new.entries
        ≡ with_state shown.now (members_view members.old.entries)) }
{
    put_text(alloc, members, "project", shown.project.as_str())?;
    put(members, alloc, "started", Value::from(shown.started))?;
    put_text(alloc, members, "status", status_text(shown.status))?;
    put_text(alloc, members, "user", shown.user.as_str())?;
    Ok(())
}

impl Shows for View {
    ghost use Rattle.rb_api.specs.Views.{view_data};

    ghost as_json = { view_data };

    fn value(&self, alloc: Global) -> Result<Value, NoMemory> {
        let mut members = Map::new(alloc);
        put_work(alloc, &mut members, self)?;
        put_state(alloc, &mut members, self)?;
        Ok(Value::Object(members))
    }
}

/// The state of an execution's nodes.
pub(crate) fn state_value(
    alloc: Global,
    id: u64,
    nodes: &[NodeState],
    status: Status,
) -> Result<Value, NoMemory>
    ensures { IfOk result (λ value. view value ≡ state_data id nodes.now status) }
{
    let nodes = list_value(alloc, nodes)?;
    Ok(json!(in alloc; {
        "id": id,
        "nodes": nodes,
        "status": status_text(status)
    })?)
}

fn paging_value(alloc: Global, paging: Paging) -> Result<Value, NoMemory>
    ensures { IfOk result (λ value. view value ≡ paging_data paging) }
{
    Ok(json!(in alloc; {
        "count": paging.count,
        "max": paging.max,
        "offset": paging.offset,
        "total": paging.total
    })?)
}

/// A page of executions.
pub(crate) fn executions_value(
    alloc: Global,
    executions: &[View],
    paging: Paging,
) -> Result<Value, NoMemory>
    ensures { IfOk result (λ value.
        view value ≡ executions_data executions.now paging) }
{
    let executions = list_value(alloc, executions)?;
    let paging = paging_value(alloc, paging)?;
    Ok(json!(in alloc; {
        "executions": executions,
        "paging": paging
    })?)
}

/// What an abort has recorded.
pub(crate) fn abort_value(alloc: Global, id: u64, status: Status) -> Result<Value, NoMemory>
    ensures { IfOk result (λ value. view value ≡ abort_data id status) }
{
    Ok(json!(in alloc; {
        "abort": "recorded",
        "id": id,
        "status": status_text(status)
    })?)
}
