//! How the answer to an import ends a session.
ghost use Rattle.rb_api.specs.Replies.{IsNoTask};
ghost use Rattle.rb_command.specs.Told.{Tells};
ghost use Rattle.rb_log.specs.declared.answer.Answer.TheVariants as heard;
ghost use Rattle.rb_session.specs.Fetching.{EndsBy};
ghost use Rattle.rb_session.specs.Imports.{stop_by};
ghost use Rattle.rb_session.specs.Stopping.{document_line, stop_told};
ghost use Rattle.std.specs.Prelude.{◌≡◌, ◌⊎◌, List, Some, option_map, ℕ};

use crate::status::{STORE_FAILED, STORE_FULL};
use crate::telling::{tell_full, tell_kind, tell_kind_of, tell_store};
use rb_acl_doc::AclFault;
use rb_causes::{Sink, Text};
use rb_command::status::{NO_MEMORY, REFUSED};
use rb_command::tell_memory;
use rb_fault_lines::{tell_job, tell_node, tell_policy, tell_yaml};
use rb_inventory::NodeFault;
use rb_job::JobFault;
use rb_log::Answer;
use rb_yaml::YamlFault;

/// What is wrong with a document that is imported.
#[derive(Drop)]
pub(crate) enum DocumentFault {
    Yaml(YamlFault),
    Nodes(NodeFault),
    Policy(AclFault),
    Jobs(JobFault),
    BadZone,
    BadName,
    TooManyFiles,
    NoProject,
    IdTaken(Text),
    NameTaken(Text),
}

/// Why an import was not taken.
#[derive(Drop)]
pub(crate) enum ImportStop {
    Refused(DocumentFault),
    Full,
    StoreFault,
    NoMemory,
}

/// Why the import was not taken, if it was not. What no import answers stands with want of memory.
pub(crate) fn stop_by(answer: Answer) -> Option<ImportStop>
    requires { IsNoTask answer }
    ensures stop { (file : List ℕ) → stop_by file answer ≡ option_map (stop_told file) result }
    ensures store { result ≡ Some ImportStop.StoreFault → answer ≡ heard.StoreFault }
{
    match answer {
        Answer::Imported {
            version: _,
            jobs: _,
        } => None,
        Answer::Full => Some(ImportStop::Full),
        Answer::StoreFault => Some(ImportStop::StoreFault),
        Answer::BadYaml(fault) => Some(ImportStop::Refused(DocumentFault::Yaml(fault))),
        Answer::BadNodes(fault) => Some(ImportStop::Refused(DocumentFault::Nodes(fault))),
        Answer::BadPolicy(fault) => Some(ImportStop::Refused(DocumentFault::Policy(fault))),
        Answer::BadJobs(fault) => Some(ImportStop::Refused(DocumentFault::Jobs(fault))),
        Answer::BadZone => Some(ImportStop::Refused(DocumentFault::BadZone)),
        Answer::BadName => Some(ImportStop::Refused(DocumentFault::BadName)),
        Answer::TooManyFiles => Some(ImportStop::Refused(DocumentFault::TooManyFiles)),
        Answer::NoProject => Some(ImportStop::Refused(DocumentFault::NoProject)),
        Answer::IdTaken(id) => Some(ImportStop::Refused(DocumentFault::IdTaken(id))),
        Answer::NameTaken(id) => Some(ImportStop::Refused(DocumentFault::NameTaken(id))),
        Answer::NoMemory => Some(ImportStop::NoMemory),
        Answer::Denied(_) => Some(ImportStop::NoMemory),
        Answer::Accepted(_) => Some(ImportStop::NoMemory),
        Answer::Refused(_, _) => Some(ImportStop::NoMemory),
        Answer::Aborted(_) => Some(ImportStop::NoMemory),
        Answer::NoExecution => Some(ImportStop::NoMemory),
        Answer::Ended => Some(ImportStop::NoMemory),
        Answer::Aborting => Some(ImportStop::NoMemory),
        Answer::Fired(_) => Some(ImportStop::NoMemory),
        Answer::Quiet => Some(ImportStop::NoMemory),
        Answer::Withdrawn {
            execution: _,
            node: _,
            decision: _,
        } => Some(ImportStop::NoMemory),
        Answer::Closed => Some(ImportStop::NoMemory),
        Answer::Idle => Some(ImportStop::NoMemory),
        Answer::Reported(_) => Some(ImportStop::NoMemory),
        Answer::DoorClosed(_) => Some(ImportStop::NoMemory),
        Answer::Shown(_) => Some(ImportStop::NoMemory),
        Answer::Saved => Some(ImportStop::NoMemory),
        Answer::Task(_task) => unreachable!(),
    }
}

/// Tells why the import of this file was not taken, and gives the status.
pub(crate) fn tell_stop<O: Sink>(out: &mut O, file: &str, stop: &ImportStop) -> u8
    ensures ends { EndsBy (stop_told file.now stop.now) result
        (O.shown out.old) (O.shown out.new) }
    ensures store { result ≡ 6 → stop.now ≡ ImportStop.StoreFault }
    ensures statuses { (result ≡ 3) ⊎ (result ≡ 6) ⊎ (result ≡ 7) ⊎ (result ≡ 10) }
{
    match stop {
        ImportStop::Refused(fault) => {
            tell_fault(out, file, fault);
            REFUSED
        }
        ImportStop::Full => {
            tell_full(out);
            STORE_FULL
        }
        ImportStop::StoreFault => {
            tell_store(out);
            STORE_FAILED
        }
        ImportStop::NoMemory => {
            tell_memory(out);
            NO_MEMORY
        }
    }
}

/// Tells what is wrong with the document of this file.
fn tell_fault<O: Sink>(out: &mut O, file: &str, fault: &DocumentFault)
    ensures { Tells (document_line file.now fault.now) (O.shown out.old) (O.shown out.new) }
{
    match fault {
        DocumentFault::Yaml(fault) => tell_yaml(out, file, fault),
        DocumentFault::Nodes(fault) => tell_node(out, file, fault),
        DocumentFault::Policy(fault) => tell_policy(out, file, fault),
        DocumentFault::Jobs(fault) => tell_job(out, file, fault),
        DocumentFault::BadZone => tell_kind(out, file, "BadZone"),
        DocumentFault::BadName => tell_kind(out, file, "BadName"),
        DocumentFault::TooManyFiles => tell_kind(out, file, "TooManyFiles"),
        DocumentFault::NoProject => tell_kind(out, file, "NoProject"),
        DocumentFault::IdTaken(id) => tell_kind_of(out, file, "IdTaken", id.as_str()),
        DocumentFault::NameTaken(id) => tell_kind_of(out, file, "NameTaken", id.as_str()),
    }
}
