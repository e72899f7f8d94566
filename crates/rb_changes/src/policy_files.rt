//! Policy files in byte order of their names.
ghost use Rattle.rb_changes.specs.PolicyFiles.{is_of_earlier_file, is_behind, with_file};
ghost use Rattle.std.specs.Prelude.{◌≡◌, ◌≤◌, ◌+◌, ◌++◌, [], filter, length, vec_len, vec_capacity};

use crate::moving::move_behind;
use rb_acl::{Policies, Policy};
use rb_causes::Items;
use std::alloc::Global;
use std::cmp::Ordering;
use std::mem;

/// Parts the policies of the files before this one from those of the files behind it. Its own fall
/// away.
fn part(policies: Vec<Policy>, file: &str, before: &mut Vec<Policy>, behind: &mut Vec<Policy>)
    requires before { vec_len before.old + vec_len policies ≤ vec_capacity before.old }
    requires behind { vec_len behind.old + vec_len policies ≤ vec_capacity behind.old }
    ensures before { before.new.items
        ≡ before.old.items ++ filter (is_of_earlier_file file.now) policies.items }
    ensures behind { behind.new.items
        ≡ behind.old.items ++ filter (is_behind file.now) policies.items }
    ensures before_memory { vec_capacity before.new ≡ vec_capacity before.old }
    ensures behind_memory { vec_capacity behind.new ≡ vec_capacity behind.old }
{
    for policy in policies {
        match file.cmp(policy.file.as_str()) {
            Ordering::Greater => before.push_reserved(policy),
            Ordering::Equal => (),
            Ordering::Less => behind.push_reserved(policy),
        }
    }
}

/// Puts the policies of a file in place of those that it has, in the memory that is given.
pub(crate) fn put_file(
    alloc: Global,
    policies: &mut Policies,
    file: &str,
    new: Vec<Policy>,
    mut room: Vec<Policy>,
    mut rest: Vec<Policy>,
)
    requires empty { room.items ≡ [] }
    requires rest_empty { rest.items ≡ [] }
    requires memory { length policies.old.docs + vec_len new ≤ vec_capacity room }
    requires rest_memory { length policies.old.docs ≤ vec_capacity rest }
    ensures { policies.new.docs ≡ with_file file.now new.items policies.old.docs }
{
    let docs = mem::replace(&mut policies.docs, Items::new(alloc)).into_vec();
    part(docs, file, &mut room, &mut rest);
    move_behind(&mut room, new);
    move_behind(&mut room, rest);
    policies.docs = Items::of(room);
}
