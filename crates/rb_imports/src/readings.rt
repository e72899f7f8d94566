//! What the bodies of imports are read as.
ghost use Rattle.rb_imports.specs.Bodies.{AreJobsOfBody, IsBodyUnread};
ghost use Rattle.rb_imports.specs.Importing.{JobsUnread, PoliciesUnread};
ghost use Rattle.rb_inventory.specs.Inventories.{inventory_of};
ghost use Rattle.rb_cron.specs.ZoneRules.{is_rule};
ghost use Rattle.rb_log.specs.Moves.{must, read_as};
ghost use Rattle.rb_log.specs.Readings.{MayReadPolicies, MayReadJobs};
ghost use Rattle.rb_log.specs.declared.answer.Answer.TheVariants as answers;
ghost use Rattle.rb_tables.specs.Changes.{IsRefusal, Keeps};
ghost use Rattle.rb_yaml.specs.Documents.{docs_of};
ghost use Rattle.rb_yaml.specs.Tree.{docs_tree};
ghost use Rattle.rb_yaml.specs.TreeSizes.{docs_size};
ghost use Rattle.std.specs.Prelude.{◌≡◌, ◌<◌, ◌^◌, Ok, IfOk, IfErr};

use rb_acl::Policy;
use rb_acl_doc::{AclErr, read_policies};
use rb_cron::{NamedZone, Zone, ZoneErr};
use rb_inventory::{Inventory, NodeErr, read_nodes};
use rb_job::{Job, JobErr, read_jobs};
use rb_log::Answer;
use rb_yaml::{Doc, YamlErr, read_docs};
use rb_yaml_laws::laws::{read_is_meant, size_is_bounded};
use std::alloc::Global;

/// The zone of a rule.
pub(crate) fn read_zone(alloc: Global, rule: &str) -> Result<Zone, Answer>
    ensures ok { IfOk result (λ zone. zone ≡ rule.now) }
    ensures keeps { Keeps (must (is_rule rule.now) answers.BadZone) result }
{
    match Zone::read(alloc, rule) {
        Ok(zone) => Ok(zone),
        Err(ZoneErr::BadZone) => Err(Answer::BadZone),
        Err(ZoneErr::NoMemory) => Err(Answer::NoMemory),
    }
}

/// The documents of a body.
pub(crate) fn read_body(alloc: Global, body: &str) -> Result<Vec<Doc>, Answer>
    ensures ok { IfOk result (λ docs. docs_of body.now ≡ Ok (docs_tree docs.items)) }
    ensures small { IfOk result (λ docs. docs_size (docs_tree docs.items) < 2 ^ 32) }
    ensures err { IfErr result (IsRefusal (read_as answers.BadYaml (docs_of body.now))) }
{
    read_is_meant();
    size_is_bounded();
    match read_docs(alloc, body.as_bytes()) {
        Ok(docs) => Ok(docs),
        Err(YamlErr::Fault(fault)) => Err(Answer::BadYaml(fault)),
        Err(YamlErr::NoMemory) => Err(Answer::NoMemory),
    }
}

/// The inventory of documents.
pub(crate) fn read_inventory(alloc: Global, docs: &[Doc]) -> Result<Inventory, Answer>
    ensures ok { IfOk result (λ inventory. inventory_of (docs_tree docs.now) ≡ Ok inventory) }
    ensures err { IfErr result
        (IsRefusal (read_as answers.BadNodes (inventory_of (docs_tree docs.now)))) }
{
    match read_nodes(alloc, docs) {
        Ok(inventory) => Ok(inventory),
        Err(NodeErr::Fault(fault)) => Err(Answer::BadNodes(fault)),
        Err(NodeErr::NoMemory) => Err(Answer::NoMemory),
    }
}

/// The policies of the documents of a file. Documents with so few values have no more documents
/// than 32 bits number.
pub(crate) fn read_file(alloc: Global, file: &str, docs: &[Doc]) -> Result<Vec<Policy>, Answer>
    requires { docs_size (docs_tree docs.now) < 2 ^ 32 }
    ensures ok { IfOk result (λ policies.
        MayReadPolicies file.now (docs_tree docs.now) (Ok policies.items)) }
    ensures err { IfErr result (PoliciesUnread file.now (docs_tree docs.now)) }
{
    match read_policies(alloc, file, docs) {
        Ok(policies) => Ok(policies),
        Err(AclErr::Fault(fault)) => Err(Answer::BadPolicy(fault)),
        Err(AclErr::NoMemory) => Err(Answer::NoMemory),
    }
}

/// The jobs of a body.
pub(crate) fn read_body_jobs(
    alloc: Global,
    body: &str,
    zones: &[NamedZone],
) -> Result<Vec<Job>, Answer>
    ensures ok { IfOk result (λ jobs. AreJobsOfBody zones.now body.now jobs.items) }
    ensures err { IfErr result (IsBodyUnread zones.now body.now) }
{
    let docs = read_body(alloc, body)?;
    read_import(alloc, docs.as_slice(), zones)
}

/// The jobs of documents.
fn read_import(alloc: Global, docs: &[Doc], zones: &[NamedZone]) -> Result<Vec<Job>, Answer>
    ensures ok { IfOk result (λ jobs. MayReadJobs zones.now (docs_tree docs.now) (Ok jobs.items)) }
    ensures err { IfErr result (JobsUnread zones.now (docs_tree docs.now)) }
{
    match read_jobs(alloc, docs, zones) {
        Ok(jobs) => Ok(jobs),
        Err(JobErr::Fault(fault)) => Err(Answer::BadJobs(fault)),
        Err(JobErr::NoMemory) => Err(Answer::NoMemory),
    }
}
