ghost use Rattle.rb_top.specs.Output.{run_line, verdict_line, start_line, end_line, over_line, because, PrintsLine};
ghost use Rattle.rb_top.specs.Texts.{spaced};
ghost use Rattle.std.specs.Prelude.{◌≡◌, ◌<◌, ◌++◌, ℕ, List, IfOk, length, string_bytes, codes, decimal};

use crate::script::DrillRun;
use rb_acl::Decision;
use rb_causes::{Ending, Sink, Text, Trouble, put_all};
use std::alloc::{AllocError, Global};

// Writes a text that was made, if memory sufficed for it.
fn put_text<O: Sink>(out: &mut O, text: Result<String, AllocError>) -> Result<(), Trouble>
    ensures { (line : List ℕ) → 0 < length line → IfOk text (λ t. string_bytes t ≡ line)
        → PrintsLine line (O.shown out.old) (O.shown out.new) result }
{
    let text = text?;
    put_all(out, text.as_bytes())
}

/// The first line of a run: its number, who runs it, and which job.
pub(crate) fn print_run<O: Sink>(
    alloc: Global,
    out: &mut O,
    number: usize,
    run: &DrillRun,
) -> Result<(), Trouble>
    ensures { let line = run_line number run.now.user run.now.job in
        PrintsLine line (O.shown out.old) (O.shown out.new) result }
{
    put_text(
        out,
        run_text(alloc, number, run.user.as_str(), run.job.as_str()),
    )
}

fn run_text(alloc: Global, number: usize, user: &str, job: &str) -> Result<String, AllocError>
    ensures { IfOk result (λ text. string_bytes text ≡ run_line number user.now job.now) }
{
    format!(in alloc; "run {number} {user} {job}\n")
}

/// What becomes of a node that the user may not run, and why: that the run `drops` it, or is
/// `refused`.
pub(crate) fn print_verdict<O: Sink>(
    alloc: Global,
    out: &mut O,
    number: usize,
    verdict: &str,
    node: &Text,
    decision: Decision,
) -> Result<(), Trouble>
    ensures { let line = verdict_line number verdict.now node.now decision in
        PrintsLine line (O.shown out.old) (O.shown out.new) result }
{
    put_text(
        out,
        verdict_text(alloc, number, verdict, node.as_str(), decision),
    )
}

fn verdict_text(
    alloc: Global,
    number: usize,
    verdict: &str,
    node: &str,
    decision: Decision,
) -> Result<String, AllocError>
    ensures { IfOk result (λ text.
        string_bytes text ≡ verdict_line number verdict.now node.now decision) }
{
    let reason = reason(alloc, decision)?;
    format!(in alloc; "run {number} {verdict} {node} {reason}\n")
}

// The access line that decides, by its number from 1, or that none allows.
fn reason(alloc: Global, decision: Decision) -> Result<String, AllocError>
    ensures { IfOk result (λ text. string_bytes text ≡ because decision) }
{
    match decision {
        Decision::Allowed(clause) => rule_text(alloc, u64::from(clause.doc) + 1),
        Decision::Denied(clause) => rule_text(alloc, u64::from(clause.doc) + 1),
        Decision::NoneAllows => String::from_str(alloc, "none allows"),
    }
}

fn rule_text(alloc: Global, number: u64) -> Result<String, AllocError>
    ensures { IfOk result (λ text. string_bytes text ≡ codes "rule " ++ decimal number) }
{
    format!(in alloc; "rule {number}")
}

/// The line before a program is started: its node, its step from 1, and its words.
pub(crate) fn print_start<O: Sink>(
    alloc: Global,
    out: &mut O,
    node: &Text,
    step: u64,
    words: &[Text],
) -> Result<(), Trouble>
    ensures { let line = start_line node.now step (spaced words.now) in
        PrintsLine line (O.shown out.old) (O.shown out.new) result }
{
    put_text(out, start_text(alloc, node.as_str(), step, words))
}

fn start_text(alloc: Global, node: &str, step: u64, words: &[Text]) -> Result<String, AllocError>
    ensures { IfOk result (λ text.
        string_bytes text ≡ start_line node.now step (spaced words.now)) }
{
    let words = spaced_text(alloc, words)?;
    format!(in alloc; "start {node} {step} {words}\n")
}

// The words with one space between them.
fn spaced_text(alloc: Global, words: &[Text]) -> Result<String, AllocError>
    ensures { IfOk result (λ text. string_bytes text ≡ spaced words.now) }
{
    let mut text = String::new(alloc);
    let [first, rest @ ..] = words else {
        return Ok(text);
    };
    text.push_str(first.as_str())?;
    for word in rest {
        text.push_str(" ")?;
        text.push_str(word.as_str())?;
    }
    Ok(text)
}

/// The line behind a program's end.
pub(crate) fn print_end<O: Sink>(
    alloc: Global,
    out: &mut O,
    node: &Text,
    step: u64,
    ending: Ending,
) -> Result<(), Trouble>
    ensures { PrintsLine (end_line node.now step ending) (O.shown out.old)
        (O.shown out.new) result }
{
    put_text(out, end_text(alloc, node.as_str(), step, ending))
}

fn end_text(alloc: Global, node: &str, step: u64, ending: Ending) -> Result<String, AllocError>
    ensures { IfOk result (λ text. string_bytes text ≡ end_line node.now step ending) }
{
    match ending {
        Ending::Code(code) => format!(in alloc; "end {node} {step} code {code}\n"),
        Ending::NotStarted => format!(in alloc; "end {node} {step} not started\n"),
    }
}

/// The last line of a run that was not refused.
pub(crate) fn print_over<O: Sink>(
    alloc: Global,
    out: &mut O,
    number: usize,
    good: bool,
) -> Result<(), Trouble>
    ensures { PrintsLine (over_line number good) (O.shown out.old) (O.shown out.new) result }
{
    put_text(out, over_text(alloc, number, good))
}

fn over_text(alloc: Global, number: usize, good: bool) -> Result<String, AllocError>
    ensures { IfOk result (λ text. string_bytes text ≡ over_line number good) }
{
    if good {
        format!(in alloc; "run {number} succeeded\n")
    } else {
        format!(in alloc; "run {number} failed\n")
    }
}
