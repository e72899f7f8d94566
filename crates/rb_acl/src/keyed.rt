ghost use Rattle.rb_acl.specs.Indexing.{IsByText, places_at};
ghost use Rattle.std.specs.Prelude.{◌≡◌, OnOk, map, IsPermutation};

use crate::policy::Clause;
use rb_causes::{NoMemory, Text};

/// A rule's place, under the text that the rule asks for.
#[derive(Drop)]
pub struct Keyed {
    pub text: Text,
    pub place: Clause,
}

/// Sorts them by text. Want of memory leaves them as they were.
pub fn sort_by_text(keyed: &mut Vec<Keyed>) -> Result<(), NoMemory>
    ensures permutation { IsPermutation keyed.old.items keyed.new.items }
    ensures sorted { OnOk result (IsByText keyed.new.items) }
{
    keyed.sort_by(|a, b| a.text.as_str().cmp(b.text.as_str()))?;
    Ok(())
}

/// Those under this text.
pub fn under<'a>(keyed: &'a [Keyed], text: &str) -> &'a [Keyed]
    requires { IsByText keyed.now }
    ensures { map (λ k. k.place) result.now ≡ places_at text.now keyed.now }
{
    let first = keyed.partition_point(|k| k.text.as_str().cmp(text).is_lt());
    let behind = keyed.partition_point(|k| k.text.as_str().cmp(text).is_le());
    &keyed[first..behind]
}
