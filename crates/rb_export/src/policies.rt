//! The document of a policy.
ghost use Rattle.rb_canon.specs.Views.{canon_tree, field_view};
ghost use Rattle.rb_export.specs.Policies.{under, policy_entries, policy_value};
ghost use Rattle.std.specs.Prelude.{◌≡◌, ◌++◌, ◌∷◌, [], map, IfOk, OnOk};

use crate::rules::types_value;
use crate::scopes::{by_value, scope_value};
use crate::values::under;
use rb_acl::Policy;
use rb_canon::{Canon, Field, map};
use rb_causes::NoMemory;
use std::alloc::Global;

/// Adds a value under a plain key.
fn push_under(
    alloc: Global,
    fields: &mut Vec<Field>,
    key: &str,
    value: Canon,
) -> Result<(), NoMemory>
    ensures { OnOk result (map field_view fields.new.items
        ≡ map field_view fields.old.items ++ under key.now (canon_tree value) ∷ []) }
{
    fields.push(under(alloc, key, value)?)?;
    Ok(())
}

fn policy_fields(alloc: Global, policy: &Policy) -> Result<Vec<Field>, NoMemory>
    ensures { IfOk result (λ fields. map field_view fields.items ≡ policy_entries policy.now) }
{
    let mut fields = Vec::new(alloc);
    push_under(
        alloc,
        &mut fields,
        "context",
        scope_value(alloc, &policy.scope)?,
    )?;
    push_under(
        alloc,
        &mut fields,
        "for",
        types_value(alloc, policy.types.as_slice())?,
    )?;
    push_under(
        alloc,
        &mut fields,
        "by",
        by_value(alloc, policy.by.as_slice())?,
    )?;
    Ok(fields)
}

/// The document of a policy.
pub(crate) fn policy_value(alloc: Global, policy: &Policy) -> Result<Canon, NoMemory>
    ensures { IfOk result (λ value. canon_tree value ≡ policy_value policy.now) }
{
    Ok(map(policy_fields(alloc, policy)?))
}
