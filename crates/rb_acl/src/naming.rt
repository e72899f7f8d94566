ghost use Rattle.rb_acl.specs.Naming.{NamesRule, place_text, clause_text};
ghost use Rattle.std.specs.Prelude.{◌≡◌, IfOk, string_bytes};

use crate::policy::{Clause, Policies};
use rb_causes::{NoMemory, Text};
use std::alloc::{AllocError, Global};

/// A clause in words, `FILE#PLACE for TYPE rule R`: the document's file, its number there from 1,
/// the type of resources, and the rule's number under that type from 1.
pub fn clause_text(alloc: Global, policies: &Policies, clause: &Clause) -> Result<Text, NoMemory>
    requires { NamesRule policies.now clause.now }
    ensures { IfOk result (λ text. text ≡ clause_text policies.now clause.now) }
{
    let policy = &policies.docs.as_slice()[clause.doc as usize];
    let rules = &policy.types.as_slice()[clause.type_index as usize];
    let rule = u64::from(clause.rule) + 1;
    let text = place_text(
        alloc,
        policy.file.as_str(),
        policy.place,
        rules.name.as_str(),
        rule,
    )?;
    Ok(Text::from_string(text))
}

fn place_text(
    alloc: Global,
    file: &str,
    place: u32,
    type_name: &str,
    rule: u64,
) -> Result<String, AllocError>
    ensures { IfOk result (λ text.
        string_bytes text ≡ place_text file.now place type_name.now rule) }
{
    format!(in alloc; "{file}#{place} for {type_name} rule {rule}")
}
