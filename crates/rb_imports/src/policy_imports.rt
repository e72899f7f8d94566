//! What an import of a policy file is checked for, and what it changes.
ghost use Rattle.rb_acl.specs.Numbering.{AreNumbered};
ghost use Rattle.rb_causes.specs.declared.row.Row.{Row};
ghost use Rattle.rb_imports.specs.Importing.{body_docs, policy_moved};
ghost use Rattle.rb_log.specs.Imports.{has_place_for_file, if_checked, may_import_policies};
ghost use Rattle.rb_log.specs.LogState.{log_state};
ghost use Rattle.rb_log.specs.Moves.{must};
ghost use Rattle.rb_log.specs.Readings.{policies_of};
ghost use Rattle.rb_log.specs.Rows.{policy_kind};
ghost use Rattle.rb_log.specs.World.{latest_of, policies_in};
ghost use Rattle.rb_log.specs.declared.answer.Answer.TheVariants as answers;
ghost use Rattle.rb_tables.specs.Changes.{IsPoliciesEffect, Keeps, Makes};
ghost use Rattle.rb_tables.specs.Tables.{IsTabled};
ghost use Rattle.std.specs.Prelude.{◌≡◌, true, IfOk, List, is_some};

use crate::node_imports::{has_body, imported, unchanged};
use rb_acl::{Caller, Context, Policy};
use rb_causes::{Items, NoMemory, Row, Text};
use rb_log::Answer;
use rb_plan::Access;
use rb_tables::change::{Change, PoliciesEffect, TableEffect};
use rb_tables::latest::{LatestRow, latest_of};
use rb_tables::permissions::permitted_on_kind;
use rb_tables::rows::policy_row;
use rb_tables::tables::Tables;
use std::alloc::Global;

/// How many policy files there may be.
const MOST_FILES: usize = 64;

fn is_there(files: &[LatestRow], name: &str) -> bool
    ensures { result ≡ is_some (latest_of name.now files.now) }
{
    match latest_of(files, name) {
        None => false,
        Some(_latest) => true,
    }
}

/// Whether there is a file of this name, or fewer than there may be.
fn has_place(files: &[LatestRow], name: &str) -> bool
    ensures { result ≡ has_place_for_file files.now name.now }
{
    is_there(files, name) || files.len() < MOST_FILES
}

/// Refuses a caller who may not import policies, where permission is asked for.
pub(crate) fn check_policy_right(
    tables: &Tables,
    alloc: Global,
    caller: &Caller,
    checked: bool,
) -> Result<(), Answer>
    requires { AreNumbered tables.now.world.policies }
    ensures { (past : List Row) → IsTabled tables.now past →
        Keeps (if_checked checked (may_import_policies (log_state past) caller.now)) result }
{
    if !checked {
        return Ok(());
    }
    let context = Context::Application;
    let access = Access {
        policies: &tables.world.policies,
        caller,
        context: &context,
    };
    permitted_on_kind(alloc, &access, "create", "system_acl")
}

/// Refuses one more policy file where there are as many as there may be.
pub(crate) fn check_file_place(tables: &Tables, name: &str) -> Result<(), Answer>
    ensures { Keeps (must (has_place_for_file tables.now.files.items name.now)
        answers.TooManyFiles) result }
{
    if has_place(tables.files.as_slice(), name) {
        Ok(())
    } else {
        Err(Answer::TooManyFiles)
    }
}

/// What becomes of the tables by a row of policies.
fn policies_effect(
    tables: &Tables,
    alloc: Global,
    row: &Row,
    new: Vec<Policy>,
) -> Result<PoliciesEffect, NoMemory>
    ensures { IfOk result (λ e. (past : List Row) → IsTabled tables.now past →
        row.now.kind ≡ policy_kind →
        has_place_for_file tables.now.files.items row.now.name ≡ true →
        new.items ≡ policies_in row.now → IsPoliciesEffect past row.now e) }
{
    let held = tables.world.policies.docs.as_slice().len();
    let room = Vec::with_capacity(alloc, held + new.len())?;
    let rest_room = Vec::with_capacity(alloc, held)?;
    let latest = row.copy(alloc)?;
    Ok(PoliciesEffect {
        latest,
        new,
        room,
        rest_room,
    })
}

/// The row of policies that differ from the last ones.
pub(crate) fn policy_change(
    tables: &Tables,
    alloc: Global,
    caller: &Caller,
    checked: bool,
    name: Text,
    body: Text,
    new: Vec<Policy>,
    at: i64,
) -> Result<Change, Answer>
    ensures { (past : List Row) → IsTabled tables.now past →
        has_place_for_file tables.now.files.items name ≡ true →
        new.items ≡ policies_of name (body_docs body) →
        Makes past (policy_moved (log_state past) at caller.now checked name body) result }
{
    let number = tables.world.policy_number;
    if has_body(tables.files.as_slice(), name.as_str(), body.as_str()) {
        return Err(unchanged(alloc, number));
    }
    let version = number.saturating_add(1);
    let row = policy_row(
        alloc,
        tables.moment(at),
        version,
        checked,
        name,
        caller,
        body,
    )?;
    let effect = TableEffect::Policies(policies_effect(tables, alloc, &row, new)?);
    Ok(imported(version, Items::new(alloc), row, effect))
}
