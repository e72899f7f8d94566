ghost use Rattle.rb_causes.specs.Sinks.{StopsAtFault};
ghost use Rattle.rb_command.specs.DemoWords.{IsInRange};
ghost use Rattle.rb_tools.specs.Answers.{ToolAnswers, ToolAnswersTo};
ghost use Rattle.std.specs.Prelude.{◌≡◌, ◌≤◌, ◌⊎◌};

use crate::demo::print_demo;
use crate::instants::print_next;
use crate::jobs::check_jobs;
use crate::nodes::{NodeChoice, check_nodes};
use crate::policies::{Ask, check_policy, explain};
use rb_causes::{Shelf, Sink, Text};
use rb_command::status::{NO_FORM, NO_MEMORY};
use rb_command::{Command, read_words, tell_memory, tell_usage};
use std::alloc::Global;

/// Prints what the words ask of a file's documents, and gives the status.
///
/// 0: the whole text was printed. 2: the words are no tool's. 3: the file is absent or refused, or
/// the filter, the crontab or the zone is. 4: the shelf failed. 7: memory was wanting. 9: a write
/// of the text failed. Each of 2, 3, 4 and 7 writes its fault line. Nothing is written behind the
/// first write that failed.
pub fn tool_top<F: Shelf, O: Sink>(alloc: Global, words: &[Text], shelf: &mut F, out: &mut O) -> u8
    ensures tool { ToolAnswers (F.files shelf.old) words.now (F.faults shelf.old)
        (F.faults shelf.new)
        result (O.shown out.old) (O.shown out.new) }
    ensures statuses { (result ≡ 0) ⊎ (result ≡ 2) ⊎ (result ≡ 3) ⊎ (result ≡ 4)
        ⊎ (result ≡ 7) ⊎ (result ≡ 9) }
    ensures out { StopsAtFault (O.shown out.old) (O.shown out.new) }
    ensures files { F.files shelf.new ≡ F.files shelf.old }
    ensures faults { F.faults shelf.old ≤ F.faults shelf.new }
{
    match read_words(alloc, words) {
        Ok(command) => answer(alloc, command, shelf, out),
        Err(_) => {
            tell_memory(out);
            NO_MEMORY
        }
    }
}

// Does what the command asks; a drill is no tool.
fn answer<F: Shelf, O: Sink>(
    alloc: Global,
    command: Option<Command>,
    shelf: &mut F,
    out: &mut O,
) -> u8
    requires { IsInRange command }
    ensures tool { ToolAnswersTo (F.files shelf.old) command (F.faults shelf.old)
        (F.faults shelf.new)
        result (O.shown out.old) (O.shown out.new) }
    ensures statuses { (result ≡ 0) ⊎ (result ≡ 2) ⊎ (result ≡ 3) ⊎ (result ≡ 4)
        ⊎ (result ≡ 7) ⊎ (result ≡ 9) }
    ensures out { StopsAtFault (O.shown out.old) (O.shown out.new) }
    ensures files { F.files shelf.new ≡ F.files shelf.old }
    ensures faults { F.faults shelf.old ≤ F.faults shelf.new }
{
    match command {
        Some(
            Command::CheckNodes {
                file,
                filter,
                exclude_first,
            },
        ) => {
            let choice = NodeChoice {
                filter,
                exclude_first,
            };
            check_nodes(alloc, file.as_str(), &choice, shelf, out)
        }
        Some(Command::CheckJobs(file)) => check_jobs(alloc, file.as_str(), shelf, out),
        Some(Command::CheckPolicy(file)) => check_policy(alloc, file.as_str(), shelf, out),
        Some(
            Command::Explain {
                file,
                caller,
                context,
                resource,
                action,
            },
        ) => {
            let ask = Ask {
                caller,
                context,
                resource,
                action,
            };
            explain(alloc, file.as_str(), &ask, shelf, out)
        }
        Some(
            Command::Next {
                crontab,
                zone,
                after,
                count,
            },
        ) => print_next(alloc, crontab.as_str(), zone.as_str(), after, count, out),
        Some(Command::Demo(nodes)) => print_demo(alloc, nodes, out),
        Some(Command::Drill(_file)) => {
            tell_usage(out);
            NO_FORM
        }
        None => {
            tell_usage(out);
            NO_FORM
        }
    }
}
