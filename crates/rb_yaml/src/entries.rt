//! Entries of a map, but for their values.
ghost use Rattle.rb_causes.specs.SeenTexts.{HasSeen};
ghost use Rattle.rb_yaml.specs.Entries.{key_text, new_key_flaw, then_ill};
ghost use Rattle.rb_yaml.specs.Faults.{Reads};
ghost use Rattle.rb_yaml.specs.Tree.{YamlTree, pair_tree, yaml_tree};
ghost use Rattle.std.specs.Prelude.{◌≡◌, IfOk, List, Result, ℕ};

use crate::faults::fault_at;
use crate::flaw::{Fault, Flaw, Stop};
use crate::yaml::{Pair, Yaml};
use rb_causes::{NoMemory, SeenTexts, Text};
use std::alloc::Global;

/// What is wrong with a key after these.
pub(crate) fn new_key_flaw(seen: &SeenTexts, key: &Result<Text, Flaw>) -> Option<Flaw>
    ensures { (keys : List (List ℕ)) → HasSeen seen.now keys → result ≡ new_key_flaw keys key.now }
{
    match key {
        Err(flaw) => Some(*flaw),
        Ok(key) => {
            if seen.holds(key.as_str()) {
                return Some(Flaw::DuplicateKey);
            }
            None
        }
    }
}

/// The key, or an empty text where it has a flaw.
pub(crate) fn key_text(alloc: Global, key: Result<Text, Flaw>) -> Result<Text, NoMemory>
    ensures { IfOk result (λ text. text ≡ key_text key) }
{
    match key {
        Ok(key) => Ok(key),
        Err(_) => Text::of(alloc, ""),
    }
}

/// A reading behind which a line may not stand.
pub(crate) fn then_ill(read: Result<Yaml, Stop<Fault>>, line: u32) -> Result<Yaml, Stop<Fault>>
    ensures { (r : Result YamlTree Fault) → Reads yaml_tree read r →
        Reads yaml_tree result (then_ill r line) }
{
    match read {
        Ok(_value) => Err(Stop::At(fault_at(line, Flaw::Form))),
        Err(stop) => Err(stop),
    }
}

/// The key of an entry.
pub(crate) fn key_of(pair: &Pair) -> &str
    ensures { result.now ≡ (pair_tree pair.now).0 }
{
    pair.key.as_str()
}
