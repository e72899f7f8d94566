//! The lines that tell what is wrong with a document.
ghost use Rattle.rb_command.specs.Told.{Tells};
ghost use Rattle.rb_fault_lines.specs.Lines.{yaml_line, node_line, named_line, policy_line, job_line};

use rb_acl_doc::AclFault;
use rb_causes::Sink;
use rb_command::{tell, tell_key, tell_place, tell_rule};
use rb_faults::{acl_kind_name, job_kind, node_kind, policy_key, yaml_form, yaml_kind};
use rb_inventory::NodeFault;
use rb_job::JobFault;
use rb_yaml::YamlFault;

/// Tells which rule of YAML the file breaks: `rundeskd: FILE:LINE: RULE`, or `RULE(FORM)`.
pub fn tell_yaml<O: Sink>(out: &mut O, file: &str, fault: &YamlFault)
    ensures { Tells (yaml_line file.now fault.now) (O.shown out.old) (O.shown out.new) }
{
    let line = u64::from(fault.line);
    tell_rule(
        out,
        file,
        line,
        yaml_kind(&fault.kind),
        yaml_form(&fault.kind),
    );
}

/// Tells which node of the file is faulty: `rundeskd: FILE: node NAME: KIND`.
pub fn tell_node<O: Sink>(out: &mut O, file: &str, fault: &NodeFault)
    ensures { Tells (node_line file.now fault.now) (O.shown out.old) (O.shown out.new) }
{
    tell_named(out, file, fault.node.as_str(), node_kind(fault.kind));
}

// A node by its name, and the name of what is wrong with it.
fn tell_named<O: Sink>(out: &mut O, file: &str, node: &str, kind: &str)
    ensures { Tells (named_line file.now node.now kind.now) (O.shown out.old) (O.shown out.new) }
{
    tell(
        out,
        &[
            b"rundeskd: ".as_slice(),
            file.as_bytes(),
            b": node ".as_slice(),
            node.as_bytes(),
            b": ".as_slice(),
            kind.as_bytes(),
            b"\n".as_slice(),
        ],
    );
}

/// Tells which document of the file is faulty: `rundeskd: FILE: document K: KIND`, or `KIND(KEY)`.
pub fn tell_policy<O: Sink>(out: &mut O, file: &str, fault: &AclFault)
    ensures { Tells (policy_line file.now fault.now) (O.shown out.old) (O.shown out.new) }
{
    let doc = u64::from(fault.doc);
    tell_place(
        out,
        file,
        ": document ",
        doc,
        acl_kind_name(&fault.kind),
        policy_key(&fault.kind),
    );
}

/// Tells which job of the file is faulty: `rundeskd: FILE: job K: KEY: KIND`, or without a key
/// `KIND` alone.
pub fn tell_job<O: Sink>(out: &mut O, file: &str, fault: &JobFault)
    ensures { Tells (job_line file.now fault.now) (O.shown out.old) (O.shown out.new) }
{
    let job = u64::from(fault.job);
    let kind = job_kind(fault.kind);
    if fault.key.as_str().is_empty() {
        tell_place(out, file, ": job ", job, kind, None);
    } else {
        tell_key(out, file, ": job ", job, fault.key.as_str(), kind);
    }
}
