ghost use Rattle.rb_command.specs.DemoWords.{IsInRange};
ghost use Rattle.rb_command.specs.Forms.{command_of, by_form, question_form, check_of, check_nodes_of, file_alone, selection_of};
ghost use Rattle.rb_command.specs.declared.command.Command.TheVariants.{Drill, CheckJobs, CheckPolicy};
ghost use Rattle.rb_causes.specs.Texts.{truth_of};
ghost use Rattle.std.specs.Prelude.{◌≡◌, Ok, None, IfOk};

use crate::command::Command;
use crate::demo_words::read_demo;
use crate::explain_words::read_explain;
use crate::next_words::read_next;
use rb_causes::{NoMemory, Text, truth_of};
use std::alloc::Global;

/// The command of the words, without the program's own name; None where they are no form, for which
/// no memory is taken. A demo has 1 to 1,000 nodes.
pub fn read_words(alloc: Global, words: &[Text]) -> Result<Option<Command>, NoMemory>
    ensures command { IfOk result (λ command. command ≡ command_of words.now) }
    ensures none { command_of words.now ≡ None → result ≡ Ok None }
    ensures range { IfOk result IsInRange }
{
    match words {
        [form, words @ ..] => read_form(alloc, form, words),
        [] => Ok(None),
    }
}

fn read_form(alloc: Global, form: &Text, words: &[Text]) -> Result<Option<Command>, NoMemory>
    ensures command { IfOk result (λ command. command ≡ by_form form.now words.now) }
    ensures none { by_form form.now words.now ≡ None → result ≡ Ok None }
{
    if form.as_str() == "drill" {
        read_drill(alloc, words)
    } else if form.as_str() == "check" {
        read_check(alloc, words)
    } else if form.as_str() == "demo" {
        Ok(read_demo(words))
    } else {
        read_question(alloc, form, words)
    }
}

// The forms that ask a question.
fn read_question(alloc: Global, form: &Text, words: &[Text]) -> Result<Option<Command>, NoMemory>
    ensures command { IfOk result (λ command. command ≡ question_form form.now words.now) }
    ensures none { question_form form.now words.now ≡ None → result ≡ Ok None }
{
    if form.as_str() == "explain" {
        read_explain(alloc, words)
    } else if form.as_str() == "next" {
        read_next(alloc, words)
    } else {
        Ok(None)
    }
}

// FILE
fn read_drill(alloc: Global, words: &[Text]) -> Result<Option<Command>, NoMemory>
    ensures command { IfOk result (λ command. command ≡ file_alone Drill words.now) }
    ensures none { file_alone Drill words.now ≡ None → result ≡ Ok None }
{
    match words {
        [file] => Ok(Some(Command::Drill(file.copy(alloc)?))),
        _ => Ok(None),
    }
}

// The kind of documents, and its words.
fn read_check(alloc: Global, words: &[Text]) -> Result<Option<Command>, NoMemory>
    ensures command { IfOk result (λ command. command ≡ check_of words.now) }
    ensures none { check_of words.now ≡ None → result ≡ Ok None }
{
    let [kind, words @ ..] = words else {
        return Ok(None);
    };
    match kind.as_str() {
        "nodes" => read_check_nodes(alloc, words),
        "jobs" => read_check_jobs(alloc, words),
        "policy" => read_check_policy(alloc, words),
        _ => Ok(None),
    }
}

// FILE, or FILE FILTER PRECEDENCE
fn read_check_nodes(alloc: Global, words: &[Text]) -> Result<Option<Command>, NoMemory>
    ensures command { IfOk result (λ command. command ≡ check_nodes_of words.now) }
    ensures none { check_nodes_of words.now ≡ None → result ≡ Ok None }
{
    match words {
        [file] => Ok(Some(Command::CheckNodes {
            file: file.copy(alloc)?,
            filter: None,
            exclude_first: true,
        })),
        [file, filter, precedence] => read_selection(alloc, file, filter, precedence),
        _ => Ok(None),
    }
}

fn read_selection(
    alloc: Global,
    file: &Text,
    filter: &Text,
    precedence: &Text,
) -> Result<Option<Command>, NoMemory>
    ensures command { IfOk result (λ command.
        command ≡ selection_of file.now filter.now precedence.now) }
    ensures none { selection_of file.now filter.now precedence.now ≡ None → result ≡ Ok None }
{
    let Some(exclude_first) = truth_of(precedence.as_str()) else {
        return Ok(None);
    };
    Ok(Some(Command::CheckNodes {
        file: file.copy(alloc)?,
        filter: Some(filter.copy(alloc)?),
        exclude_first,
    }))
}

// FILE
fn read_check_jobs(alloc: Global, words: &[Text]) -> Result<Option<Command>, NoMemory>
    ensures command { IfOk result (λ command. command ≡ file_alone CheckJobs words.now) }
    ensures none { file_alone CheckJobs words.now ≡ None → result ≡ Ok None }
{
    match words {
        [file] => Ok(Some(Command::CheckJobs(file.copy(alloc)?))),
        _ => Ok(None),
    }
}

// FILE
fn read_check_policy(alloc: Global, words: &[Text]) -> Result<Option<Command>, NoMemory>
    ensures command { IfOk result (λ command. command ≡ file_alone CheckPolicy words.now) }
    ensures none { file_alone CheckPolicy words.now ≡ None → result ≡ Ok None }
{
    match words {
        [file] => Ok(Some(Command::CheckPolicy(file.copy(alloc)?))),
        _ => Ok(None),
    }
}
