ghost use Rattle.rb_causes.specs.Outside.{Fetched};
ghost use Rattle.rb_causes.specs.Sinks.{StopsAtFault};
ghost use Rattle.rb_causes.specs.declared.shelf.File.{File};
ghost use Rattle.rb_command.specs.Lines.{usage_line};
ghost use Rattle.rb_command.specs.Told.{Tells};
ghost use Rattle.rb_top.specs.Outcome.{Answers, AnswersTo, Drills, DrillsScript};
ghost use Rattle.rb_top.specs.Reading.{RunsHaveSteps, IsNumbered};
ghost use Rattle.std.specs.Prelude.{◌≡◌, ◌≤◌, ◌⊎◌, ℕ, List, Option, Some};

use crate::reading::{ScriptErr, read_script};
use crate::running::run_all;
use crate::script::Script;
use crate::telling::tell_fault;
use rb_causes::{Shelf, Sink, Spawner, Text, Trouble};
use rb_command::status::{DONE, NO_FORM, NO_MEMORY, REFUSED, WRITE_FAILED};
use rb_command::{Command, fetch_or_tell, read_words, tell_memory, tell_usage};
use std::alloc::Global;

/// Runs the drill file that the words name, and gives the status.
///
/// 0: the file was read, and its whole transcript printed. 2: the words are no drill. 3: the file
/// is absent or refused. 4: the shelf failed. 7: memory was wanting. 9: a write of the transcript
/// failed. Each of 2, 3, 4 and 7 writes its fault line. Nothing is written behind the first write
/// that failed.
pub fn drill_top<F: Shelf, S: Spawner, O: Sink>(
    alloc: Global,
    words: &[Text],
    shelf: &mut F,
    spawner: &mut S,
    out: &mut O,
) -> u8
    ensures drill { Answers (F.files shelf.old) words.now (F.faults shelf.old) (F.faults shelf.new)
        result (S.shown spawner.old) (S.shown spawner.new) (O.shown out.old) (O.shown out.new) }
    ensures statuses { (result ≡ 0) ⊎ (result ≡ 2) ⊎ (result ≡ 3) ⊎ (result ≡ 4)
        ⊎ (result ≡ 7) ⊎ (result ≡ 9) }
    ensures spawner { (S.shown spawner.old).faults ≤ (S.shown spawner.new).faults }
    ensures out { StopsAtFault (O.shown out.old) (O.shown out.new) }
    ensures files { F.files shelf.new ≡ F.files shelf.old }
    ensures faults { F.faults shelf.old ≤ F.faults shelf.new }
{
    match read_words(alloc, words) {
        Ok(command) => drill_command(alloc, command, shelf, spawner, out),
        Err(_) => {
            tell_memory(out);
            NO_MEMORY
        }
    }
}

// Runs the drill that the command asks for; another one is no form of this call.
fn drill_command<F: Shelf, S: Spawner, O: Sink>(
    alloc: Global,
    command: Option<Command>,
    shelf: &mut F,
    spawner: &mut S,
    out: &mut O,
) -> u8
    ensures drill { AnswersTo (F.files shelf.old) command (F.faults shelf.old) (F.faults shelf.new)
        result (S.shown spawner.old) (S.shown spawner.new) (O.shown out.old) (O.shown out.new) }
    ensures statuses { (result ≡ 0) ⊎ (result ≡ 2) ⊎ (result ≡ 3) ⊎ (result ≡ 4)
        ⊎ (result ≡ 7) ⊎ (result ≡ 9) }
    ensures spawner { (S.shown spawner.old).faults ≤ (S.shown spawner.new).faults }
    ensures out { StopsAtFault (O.shown out.old) (O.shown out.new) }
    ensures files { F.files shelf.new ≡ F.files shelf.old }
    ensures faults { F.faults shelf.old ≤ F.faults shelf.new }
{
    match command {
        Some(Command::Drill(name)) => drill_file(alloc, name.as_str(), shelf, spawner, out),
        Some(Command::CheckNodes { .. }) => no_form(out),
        Some(Command::CheckJobs(_)) => no_form(out),
        Some(Command::CheckPolicy(_)) => no_form(out),
        Some(Command::Explain { .. }) => no_form(out),
        Some(Command::Next { .. }) => no_form(out),
        Some(Command::Demo(_)) => no_form(out),
        None => no_form(out),
    }
}

// Tells that the words are no form of this call.
fn no_form<O: Sink>(out: &mut O) -> u8
    ensures status { result ≡ 2 }
    ensures told { Tells usage_line (O.shown out.old) (O.shown out.new) }
    ensures out { StopsAtFault (O.shown out.old) (O.shown out.new) }
{
    tell_usage(out);
    NO_FORM
}

// Fetches the file and runs it.
fn drill_file<F: Shelf, S: Spawner, O: Sink>(
    alloc: Global,
    name: &str,
    shelf: &mut F,
    spawner: &mut S,
    out: &mut O,
) -> u8
    ensures drill { Drills (F.files shelf.old) name.now (F.faults shelf.old) (F.faults shelf.new)
        result (S.shown spawner.old) (S.shown spawner.new) (O.shown out.old) (O.shown out.new) }
    ensures statuses { (result ≡ 0) ⊎ (result ≡ 3) ⊎ (result ≡ 4) ⊎ (result ≡ 7) ⊎ (result ≡ 9) }
    ensures spawner { (S.shown spawner.old).faults ≤ (S.shown spawner.new).faults }
    ensures out { StopsAtFault (O.shown out.old) (O.shown out.new) }
    ensures files { F.files shelf.new ≡ F.files shelf.old }
    ensures faults { F.faults shelf.old ≤ F.faults shelf.new }
{
    match fetch_or_tell(alloc, name, shelf, out) {
        Ok(bytes) => drill_bytes(alloc, name, bytes.as_slice(), spawner, out),
        Err(status) => status,
    }
}

// Reads the file's bytes and runs what they say.
fn drill_bytes<S: Spawner, O: Sink>(
    alloc: Global,
    name: &str,
    bytes: &[u8],
    spawner: &mut S,
    out: &mut O,
) -> u8
    ensures drill { (files : Option (List File)) (faults faults' : ℕ)
        → Fetched files name.now (Some bytes.now) → faults' ≡ faults
        → Drills files name.now faults faults'
        result (S.shown spawner.old) (S.shown spawner.new) (O.shown out.old) (O.shown out.new) }
    ensures statuses { (result ≡ 0) ⊎ (result ≡ 3) ⊎ (result ≡ 7) ⊎ (result ≡ 9) }
    ensures spawner { (S.shown spawner.old).faults ≤ (S.shown spawner.new).faults }
    ensures out { StopsAtFault (O.shown out.old) (O.shown out.new) }
{
    match read_script(alloc, bytes) {
        Ok(script) => drill_script(alloc, &script, spawner, out),
        Err(ScriptErr::Fault(fault)) => {
            tell_fault(out, name, fault);
            REFUSED
        }
        Err(ScriptErr::NoMemory) => {
            tell_memory(out);
            NO_MEMORY
        }
    }
}

// Runs the runs of a script that was read.
fn drill_script<S: Spawner, O: Sink>(
    alloc: Global,
    script: &Script,
    spawner: &mut S,
    out: &mut O,
) -> u8
    requires steps { RunsHaveSteps script.now }
    requires numbered { IsNumbered script.now }
    ensures drill { DrillsScript script.now result
        (S.shown spawner.old) (S.shown spawner.new) (O.shown out.old) (O.shown out.new) }
    ensures statuses { (result ≡ 0) ⊎ (result ≡ 7) ⊎ (result ≡ 9) }
    ensures spawner { (S.shown spawner.old).faults ≤ (S.shown spawner.new).faults }
    ensures out { StopsAtFault (O.shown out.old) (O.shown out.new) }
{
    match run_all(alloc, script, spawner, out) {
        Ok(()) => DONE,
        Err(Trouble::Failed) => WRITE_FAILED,
        Err(Trouble::NoMemory) => {
            tell_memory(out);
            NO_MEMORY
        }
    }
}
