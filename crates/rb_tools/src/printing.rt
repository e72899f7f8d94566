//! How what was read is given: printed, or told as a refusal.
ghost use Rattle.rb_causes.specs.Sinks.{StopsAtFault};
ghost use Rattle.rb_tools.specs.Kinds.{refusal_status};
ghost use Rattle.rb_tools.specs.Printing.{Prints, GivesText};
ghost use Rattle.std.specs.Prelude.{◌≡◌, ◌⊎◌, Ok, Err, MatchResult, string_bytes};

use crate::refusal::ToolRefusal;
use crate::telling::tell_refusal;
use rb_causes::{Sink, Trouble, put_all};
use rb_command::status::{DONE, NO_MEMORY, REFUSED, WRITE_FAILED};
use rb_command::tell_memory;

/// Prints a text, and gives the status: 0, or 9 where a write failed, or 7 where the sink wanted
/// memory, which is told.
pub fn print_text<O: Sink>(out: &mut O, text: &str) -> u8
    ensures prints { Prints text.now result (O.shown out.old) (O.shown out.new) }
    ensures statuses { (result ≡ 0) ⊎ (result ≡ 7) ⊎ (result ≡ 9) }
    ensures out { StopsAtFault (O.shown out.old) (O.shown out.new) }
{
    match put_all(out, text.as_bytes()) {
        Ok(()) => DONE,
        Err(Trouble::Failed) => WRITE_FAILED,
        Err(Trouble::NoMemory) => {
            tell_memory(out);
            NO_MEMORY
        }
    }
}

/// Prints the text that was read of this file, or tells why there is none.
pub(crate) fn give<O: Sink>(out: &mut O, file: &str, reading: Result<String, ToolRefusal>) -> u8
    ensures gives { MatchResult reading
        (λ text. GivesText file.now (Ok (string_bytes text)) result (O.shown out.old)
        (O.shown out.new))
        (λ refusal. GivesText file.now (Err refusal) result (O.shown out.old) (O.shown out.new)) }
    ensures statuses { (result ≡ 0) ⊎ (result ≡ 3) ⊎ (result ≡ 7) ⊎ (result ≡ 9) }
    ensures out { StopsAtFault (O.shown out.old) (O.shown out.new) }
{
    match reading {
        Ok(text) => print_text(out, text.as_str()),
        Err(refusal) => {
            tell_refusal(out, file, &refusal);
            status_of(&refusal)
        }
    }
}

fn status_of(refusal: &ToolRefusal) -> u8
    ensures { result ≡ refusal_status refusal.now }
{
    match refusal {
        ToolRefusal::Yaml(_) => REFUSED,
        ToolRefusal::Node(_) => REFUSED,
        ToolRefusal::Policy(_) => REFUSED,
        ToolRefusal::Job(_) => REFUSED,
        ToolRefusal::Filter(_) => REFUSED,
        ToolRefusal::Crontab(_) => REFUSED,
        ToolRefusal::Zone => REFUSED,
        ToolRefusal::NoMemory => NO_MEMORY,
    }
}
