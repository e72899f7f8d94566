ghost use Rattle.rb_command.specs.Told.{Tells};
ghost use Rattle.rb_top.specs.Outcome.{script_fault_line};

use crate::script::ScriptFault;
use rb_causes::Sink;
use rb_command::tell_rule;

/// Tells why the drill file of this name is refused.
pub(crate) fn tell_fault<O: Sink>(out: &mut O, name: &str, fault: ScriptFault)
    ensures { Tells (script_fault_line name.now fault) (O.shown out.old) (O.shown out.new) }
{
    match fault {
        ScriptFault::TooLarge => tell_rule(out, name, 1, "TooLarge", None),
        ScriptFault::NotRead(line) => tell_rule(out, name, line as u64, "line not read", None),
    }
}
