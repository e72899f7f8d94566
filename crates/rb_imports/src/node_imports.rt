//! What an import of nodes changes.
ghost use Rattle.rb_causes.specs.declared.row.Row.{Row};
ghost use Rattle.rb_imports.specs.Importing.{body_inventory, nodes_moved};
ghost use Rattle.rb_log.specs.LogState.{log_state};
ghost use Rattle.rb_log.specs.Moves.{has_body};
ghost use Rattle.rb_log.specs.Rows.{nodes_kind};
ghost use Rattle.rb_log.specs.World.{latest_of, count_of, inventory_in};
ghost use Rattle.rb_log.specs.declared.answer.Answer.TheVariants as answers;
ghost use Rattle.rb_tables.specs.Changes.{IsNodesEffect, Makes};
ghost use Rattle.rb_tables.specs.Tables.{IsTabled};
ghost use Rattle.rb_tables.specs.declared.change.Outcome.TheVariants as outcomes;
ghost use Rattle.std.specs.Prelude.{◌≡◌, IfOk, List, []};

use rb_causes::{Items, NoMemory, Row, Text};
use rb_inventory::Inventory;
use rb_log::{Answer, ImportedJob};
use rb_tables::change::{Change, NodesEffect, Outcome, TableEffect};
use rb_tables::latest::{LatestRow, latest_of};
use rb_tables::laws::import_laws;
use rb_tables::rows::nodes_row;
use rb_tables::tables::Tables;
use std::alloc::Global;

/// How many rows there are of a name.
pub(crate) fn count_of(all: &[LatestRow], name: &str) -> u64
    ensures { result ≡ count_of (latest_of name.now all.now) }
{
    match latest_of(all, name) {
        None => 0,
        Some(latest) => latest.count,
    }
}

/// Whether the last row of a name has this body.
pub(crate) fn has_body(all: &[LatestRow], name: &str, body: &str) -> bool
    ensures { result ≡ has_body body.now (latest_of name.now all.now) }
{
    match latest_of(all, name) {
        None => false,
        Some(latest) => latest.row.body.as_str() == body,
    }
}

/// A row of an import, with this number.
pub(crate) fn imported(
    version: u64,
    jobs: Items<ImportedJob>,
    row: Row,
    effect: TableEffect,
) -> Change
    ensures { result ≡ record {
      outcome = outcomes.Imported version jobs;
      row = row;
      effect = effect;
    } }
{
    Change {
        outcome: Outcome::Imported { version, jobs },
        row,
        effect,
    }
}

/// The number of a kind's last row, and no row.
pub(crate) fn unchanged(alloc: Global, number: u64) -> Answer
    ensures { result ≡ answers.Imported number [] }
{
    Answer::Imported {
        version: number,
        jobs: Items::new(alloc),
    }
}

/// What becomes of the tables by a row of nodes.
fn nodes_effect(
    tables: &Tables,
    alloc: Global,
    row: &Row,
    inventory: Inventory,
) -> Result<NodesEffect, NoMemory>
    ensures { IfOk result (λ e. (past : List Row) → IsTabled tables.now past →
        row.now.kind ≡ nodes_kind → inventory ≡ inventory_in row.now →
        IsNodesEffect past row.now e) }
{
    let held = tables.world.projects.as_slice().len();
    let room = Vec::with_capacity(alloc, held + 1)?;
    let latest = row.copy(alloc)?;
    let name = row.name.copy(alloc)?;
    Ok(NodesEffect {
        latest,
        name,
        inventory,
        room,
    })
}

/// The row of nodes that differ from the last ones.
pub(crate) fn nodes_change(
    tables: &Tables,
    alloc: Global,
    project: Text,
    body: Text,
    inventory: Inventory,
    at: i64,
) -> Result<Change, Answer>
    ensures { (past : List Row) → IsTabled tables.now past →
        inventory ≡ body_inventory body →
        Makes past (nodes_moved (log_state past) at project body) result }
{
    import_laws();
    let number = count_of(tables.nodes.as_slice(), project.as_str());
    if has_body(tables.nodes.as_slice(), project.as_str(), body.as_str()) {
        return Err(unchanged(alloc, number));
    }
    let version = number.saturating_add(1);
    let row = nodes_row(alloc, tables.moment(at), version, project, body);
    let effect = TableEffect::Nodes(nodes_effect(tables, alloc, &row, inventory)?);
    Ok(imported(version, Items::new(alloc), row, effect))
}
