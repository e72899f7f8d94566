ghost use Rattle.rb_acl_doc.specs.Keys.{flaws_of};
ghost use Rattle.rb_acl_doc.specs.Policies.{policy_of, policies_from};
ghost use Rattle.rb_acl_doc.specs.Reading.{IsSoundDoc, IsDocRefusal, is_no_action, pattern_refusal, AreSound, RefusesDocs};
ghost use Rattle.rb_acl_doc.specs.Telling.{foremost_kind};
ghost use Rattle.rb_yaml.specs.Tree.{yaml_tree, docs_tree};
ghost use Rattle.std.specs.Prelude.{◌≡◌, ◌<◌, ◌^◌, length, None, Some, IfOk, OnOk, IfErr};

use crate::fault::{AclErr, AclFault, AclKind};
use crate::flaws::document_flaw;
use crate::policies::policy_of;
use rb_acl::Policy;
use rb_causes::Items;
use rb_text::{PatternErr, Room};
use rb_yaml::{Doc, Yaml};
use std::alloc::Global;

/// The policies of the documents of a file, in their order, or the fault of the first faulty one.
/// `AclKind` says which of several faults of a document is told.
pub fn read_policies(alloc: Global, file: &str, docs: &[Doc]) -> Result<Vec<Policy>, AclErr>
    requires { length docs.now < 2 ^ 32 }
    ensures policies { IfOk result (λ policies.
        policies.items ≡ policies_from file.now 1 (docs_tree docs.now)) }
    ensures sound { OnOk result (AreSound (docs_tree docs.now)) }
    ensures fault { IfErr result (RefusesDocs (docs_tree docs.now)) }
{
    let mut room = Room::of_document();
    let mut policies = Items::new(alloc);
    for (index, doc) in docs.iter().enumerate() {
        policies.push(read_policy(alloc, &mut room, file, index as u32 + 1, &doc.root)?)?;
    }
    Ok(policies.into_vec())
}

/// The policy of the document at this place of the file.
fn read_policy(
    alloc: Global,
    room: &mut Room,
    file: &str,
    place: u32,
    doc: &Yaml,
) -> Result<Policy, AclErr>
    ensures policy { IfOk result (λ policy. policy ≡ policy_of file.now place (yaml_tree doc.now)) }
    ensures sound { OnOk result (IsSoundDoc (yaml_tree doc.now)) }
    ensures fault { IfErr result (IsDocRefusal place (yaml_tree doc.now)) }
{
    match document_flaw(alloc, doc)? {
        None => read_flawless(alloc, room, file, place, doc),
        Some(kind) => Err(refused(alloc, file, place, doc, kind)),
    }
}

/// The policy of a document without a flaw, if its patterns are read.
fn read_flawless(
    alloc: Global,
    room: &mut Room,
    file: &str,
    place: u32,
    doc: &Yaml,
) -> Result<Policy, AclErr>
    requires { foremost_kind (flaws_of (yaml_tree doc.now)) ≡ None }
    ensures policy { IfOk result (λ policy. policy ≡ policy_of file.now place (yaml_tree doc.now)) }
    ensures sound { OnOk result (IsSoundDoc (yaml_tree doc.now)) }
    ensures fault { IfErr result (IsDocRefusal place (yaml_tree doc.now)) }
{
    match policy_of(alloc, room, file, place, doc) {
        Ok(policy) => Ok(policy),
        Err(refusal) => Err(pattern_refusal(place, refusal)),
    }
}

/// The fault of a document with this flaw.
fn refused(alloc: Global, file: &str, place: u32, doc: &Yaml, kind: AclKind) -> AclErr
    requires { foremost_kind (flaws_of (yaml_tree doc.now)) ≡ Some kind }
    ensures { IsDocRefusal place (yaml_tree doc.now) result }
{
    if is_no_action(&kind) {
        return without_action(alloc, file, place, doc);
    }
    AclErr::Fault(AclFault { doc: place, kind })
}

fn is_no_action(kind: &AclKind) -> bool
    ensures { result ≡ is_no_action kind.now }
{
    match kind {
        AclKind::NoAction => true,
        AclKind::UnknownKey(_) => false,
        AclKind::MissingContext => false,
        AclKind::MissingBy => false,
        AclKind::MissingFor => false,
        AclKind::BadShape(_) => false,
        AclKind::BadPattern(_) => false,
    }
}

/// The fault of a document in which a rule has no action: a pattern that is refused comes first.
fn without_action(alloc: Global, file: &str, place: u32, doc: &Yaml) -> AclErr
    requires { foremost_kind (flaws_of (yaml_tree doc.now)) ≡ Some AclKind.NoAction }
    ensures { IsDocRefusal place (yaml_tree doc.now) result }
{
    match policy_of(alloc, &mut Room::none(), file, place, doc) {
        Ok(_policy) => AclErr::Fault(AclFault {
            doc: place,
            kind: AclKind::NoAction,
        }),
        Err(refusal) => pattern_refusal(place, refusal),
    }
}

/// How the refusal of a pattern is told.
fn pattern_refusal(place: u32, refusal: PatternErr) -> AclErr
    ensures { result ≡ pattern_refusal place refusal }
{
    match refusal {
        PatternErr::NoMemory => AclErr::NoMemory,
        PatternErr::BadPattern => bad_pattern(place, refusal),
        PatternErr::TooLong => bad_pattern(place, refusal),
        PatternErr::TooBig => bad_pattern(place, refusal),
    }
}

fn bad_pattern(place: u32, refusal: PatternErr) -> AclErr
    ensures { result ≡ AclErr.Fault (record { doc = place; kind = AclKind.BadPattern refusal }) }
{
    AclErr::Fault(AclFault {
        doc: place,
        kind: AclKind::BadPattern(refusal),
    })
}
