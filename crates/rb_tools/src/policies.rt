//! `check policy` and `explain`: the policies of a file, counted or asked for a decision.
ghost use Rattle.rb_acl.specs.Naming.{clause_text, NamesRule};
ghost use Rattle.rb_acl.specs.Numbering.{AreNumbered};
ghost use Rattle.rb_acl_doc.specs.Reading.{AreSound};
ghost use Rattle.rb_causes.specs.Sinks.{StopsAtFault};
ghost use Rattle.rb_tools.specs.Policies.{file_policies, documents_text, decision_told, question_in, IsPolicyRefusal, ReadsDocuments, ReadsDecision};
ghost use Rattle.rb_tools.specs.Printing.{Checks};
ghost use Rattle.rb_yaml.specs.Tree.{docs_tree};
ghost use Rattle.rb_yaml.specs.TreeSizes.{docs_size};
ghost use Rattle.std.specs.Prelude.{◌≡◌, ◌≤◌, ◌<◌, ◌⊎◌, ◌^◌, ◌++◌, Ok, Err, IfOk, IfErr, OnOk, codes, string_bytes};

use crate::documents::read_documents;
use crate::printing::give;
use crate::refusal::ToolRefusal;
use rb_acl::{Caller, Clause, Context, Decision, Policies, Resource, clause_text, decide};
use rb_acl_doc::laws::small_are_numbered;
use rb_acl_doc::{AclErr, read_policies};
use rb_causes::{Items, Shelf, Sink, Text};
use rb_command::fetch_or_tell;
use rb_yaml::Doc;
use std::alloc::{AllocError, Global};

/// What is asked: who may do which action, where and on what.
#[derive(Drop)]
pub(crate) struct Ask {
    pub caller: Caller,
    pub context: Context,
    pub resource: Resource,
    pub action: Text,
}

/// Fetches the file, and prints how many policy documents it has.
pub(crate) fn check_policy<F: Shelf, O: Sink>(
    alloc: Global,
    file: &str,
    shelf: &mut F,
    out: &mut O,
) -> u8
    ensures check { Checks ReadsDocuments (F.files shelf.old) file.now
        (F.faults shelf.old) (F.faults shelf.new) result (O.shown out.old) (O.shown out.new) }
    ensures statuses { (result ≡ 0) ⊎ (result ≡ 3) ⊎ (result ≡ 4) ⊎ (result ≡ 7) ⊎ (result ≡ 9) }
    ensures out { StopsAtFault (O.shown out.old) (O.shown out.new) }
    ensures files { F.files shelf.new ≡ F.files shelf.old }
    ensures faults { F.faults shelf.old ≤ F.faults shelf.new }
{
    match fetch_or_tell(alloc, file, shelf, out) {
        Ok(bytes) => give(out, file, documents_text(alloc, file, bytes.as_slice())),
        Err(status) => status,
    }
}

/// Fetches the file, and prints what its policies decide, and by which clause.
pub(crate) fn explain<F: Shelf, O: Sink>(
    alloc: Global,
    file: &str,
    ask: &Ask,
    shelf: &mut F,
    out: &mut O,
) -> u8
    ensures check { Checks (ReadsDecision file.now (question_in ask.now)) (F.files shelf.old)
        file.now (F.faults shelf.old) (F.faults shelf.new) result
        (O.shown out.old) (O.shown out.new) }
    ensures statuses { (result ≡ 0) ⊎ (result ≡ 3) ⊎ (result ≡ 4) ⊎ (result ≡ 7) ⊎ (result ≡ 9) }
    ensures out { StopsAtFault (O.shown out.old) (O.shown out.new) }
    ensures files { F.files shelf.new ≡ F.files shelf.old }
    ensures faults { F.faults shelf.old ≤ F.faults shelf.new }
{
    match fetch_or_tell(alloc, file, shelf, out) {
        Ok(bytes) => give(
            out,
            file,
            explained_text(alloc, file, bytes.as_slice(), ask),
        ),
        Err(status) => status,
    }
}

// How many documents the file's bytes have.
fn documents_text(alloc: Global, file: &str, bytes: &[u8]) -> Result<String, ToolRefusal>
    ensures ok { IfOk result (λ text. ReadsDocuments bytes.now (Ok (string_bytes text))) }
    ensures refused { IfErr result (λ refusal. ReadsDocuments bytes.now (Err refusal)) }
{
    let docs = read_documents(alloc, bytes)?;
    let _policies = read_file_policies(alloc, file, docs.as_slice())?;
    Ok(count_text(alloc, docs.as_slice())?)
}

fn count_text(alloc: Global, docs: &[Doc]) -> Result<String, AllocError>
    ensures { IfOk result (λ text. string_bytes text ≡ documents_text (docs_tree docs.now)) }
{
    let count = docs.len();
    format!(in alloc; "{count} documents\n")
}

// What the policies of the file's bytes decide.
fn explained_text(alloc: Global, file: &str, bytes: &[u8], ask: &Ask) -> Result<String, ToolRefusal>
    ensures ok { IfOk result (λ text.
        ReadsDecision file.now (question_in ask.now) bytes.now (Ok (string_bytes text))) }
    ensures refused { IfErr result (λ refusal.
        ReadsDecision file.now (question_in ask.now) bytes.now (Err refusal)) }
{
    let docs = read_documents(alloc, bytes)?;
    let policies = read_file_policies(alloc, file, docs.as_slice())?;
    decided_text(alloc, &policies, ask)
}

// The policies of all documents, each clause of which 32 bits number: documents have no more
// policies, types and rules than values.
fn read_file_policies(alloc: Global, file: &str, docs: &[Doc]) -> Result<Policies, ToolRefusal>
    requires { docs_size (docs_tree docs.now) < 2 ^ 32 }
    ensures ok { IfOk result (λ policies. policies ≡ file_policies file.now (docs_tree docs.now)) }
    ensures sound { OnOk result (AreSound (docs_tree docs.now)) }
    ensures numbered { IfOk result AreNumbered }
    ensures refused { IfErr result (IsPolicyRefusal (docs_tree docs.now)) }
{
    small_are_numbered();
    match read_policies(alloc, file, docs) {
        Ok(docs) => Ok(Policies {
            docs: Items::of(docs),
        }),
        Err(AclErr::Fault(fault)) => Err(ToolRefusal::Policy(fault)),
        Err(AclErr::NoMemory) => Err(ToolRefusal::NoMemory),
    }
}

// The decision in words.
fn decided_text(alloc: Global, policies: &Policies, ask: &Ask) -> Result<String, ToolRefusal>
    requires { AreNumbered policies.now }
    ensures ok { IfOk result (λ text.
        string_bytes text ≡ decision_told policies.now (question_in ask.now)) }
    ensures memory { IfErr result (λ refusal. refusal ≡ ToolRefusal.NoMemory) }
{
    let decision = decide(
        alloc,
        policies,
        &ask.caller,
        &ask.context,
        &ask.resource,
        ask.action.as_str(),
    )?;
    match decision {
        Decision::Allowed(clause) => line_by(alloc, "allowed by ", policies, &clause),
        Decision::Denied(clause) => line_by(alloc, "denied by ", policies, &clause),
        Decision::NoneAllows => Ok(String::from_str(alloc, "denied, none allows\n")?),
    }
}

fn line_by(
    alloc: Global,
    front: &str,
    policies: &Policies,
    clause: &Clause,
) -> Result<String, ToolRefusal>
    requires { NamesRule policies.now clause.now }
    ensures ok { IfOk result (λ text. string_bytes text
        ≡ front.now ++ clause_text policies.now clause.now ++ codes "\n") }
    ensures memory { IfErr result (λ refusal. refusal ≡ ToolRefusal.NoMemory) }
{
    let clause = clause_text(alloc, policies, clause)?;
    let clause = clause.as_str();
    Ok(format!(in alloc; "{front}{clause}\n")?)
}
