//! The policy that a document is.
ghost use Rattle.rb_acl_doc.specs.Patterns.{patterns_of, EndsOn};
ghost use Rattle.rb_acl_doc.specs.Policies.{policy_with, policy_of};
ghost use Rattle.rb_yaml.specs.Tree.{yaml_tree, pair_tree};
ghost use Rattle.std.specs.Prelude.{◌≡◌, map, IfOk};

use crate::rules::types_of;
use crate::scopes::{by_of, scope_of};
use rb_acl::Policy;
use rb_causes::Text;
use rb_text::{PatternErr, Room};
use rb_values::{entries_at, entries_in};
use rb_yaml::{Pair, Yaml};
use std::alloc::Global;

fn policy_with(
    alloc: Global,
    room: &mut Room,
    file: &str,
    place: u32,
    entries: &[Pair],
) -> Result<Policy, PatternErr>
    ensures value { IfOk result (λ policy.
        policy ≡ policy_with file.now place (map pair_tree entries.now)) }
    ensures patterns { EndsOn
        (patterns_of (policy_with file.now place (map pair_tree entries.now))) result }
{
    let scope = scope_of(alloc, room, entries_at(entries, "context"))?;
    let by = by_of(alloc, room, entries_at(entries, "by"))?;
    let types = types_of(alloc, room, entries_at(entries, "for"))?;
    let file = Text::of(alloc, file)?;
    Ok(Policy {
        file,
        place,
        scope,
        by,
        types,
    })
}

/// The policy of a document, the one at this place of the file.
pub(crate) fn policy_of(
    alloc: Global,
    room: &mut Room,
    file: &str,
    place: u32,
    doc: &Yaml,
) -> Result<Policy, PatternErr>
    ensures value { IfOk result (λ policy. policy ≡ policy_of file.now place (yaml_tree doc.now)) }
    ensures patterns { EndsOn
        (patterns_of (policy_of file.now place (yaml_tree doc.now))) result }
{
    match entries_in(doc) {
        None => policy_with(alloc, room, file, place, &[]),
        Some(entries) => policy_with(alloc, room, file, place, entries),
    }
}
