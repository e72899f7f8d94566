//! The lines of refusals.
ghost use Rattle.rb_command.specs.Told.{Tells};
ghost use Rattle.rb_tools.specs.Kinds.{refusal_line, argument_line};

use crate::kinds::crontab_kind;
use crate::refusal::ToolRefusal;
use rb_causes::Sink;
use rb_command::{tell, tell_memory};
use rb_fault_lines::{tell_job, tell_node, tell_policy, tell_yaml};
use rb_faults::filter_kind;

/// Tells why nothing is printed of this file.
pub(crate) fn tell_refusal<O: Sink>(out: &mut O, file: &str, refusal: &ToolRefusal)
    ensures { Tells (refusal_line file.now refusal.now) (O.shown out.old) (O.shown out.new) }
{
    match refusal {
        ToolRefusal::Yaml(fault) => tell_yaml(out, file, fault),
        ToolRefusal::Node(fault) => tell_node(out, file, fault),
        ToolRefusal::Policy(fault) => tell_policy(out, file, fault),
        ToolRefusal::Job(fault) => tell_job(out, file, fault),
        ToolRefusal::Filter(error) => tell_argument(out, "4", filter_kind(*error)),
        ToolRefusal::Crontab(error) => tell_argument(out, "2", crontab_kind(*error)),
        ToolRefusal::Zone => tell_argument(out, "3", "BadZone"),
        ToolRefusal::NoMemory => tell_memory(out),
    }
}

// That a word of the command is refused.
fn tell_argument<O: Sink>(out: &mut O, number: &str, kind: &str)
    ensures { Tells (argument_line number.now kind.now) (O.shown out.old) (O.shown out.new) }
{
    tell(
        out,
        &[
            b"rundeskd: argument ".as_slice(),
            number.as_bytes(),
            b": ".as_slice(),
            kind.as_bytes(),
            b"\n".as_slice(),
        ],
    );
}
