ghost use Rattle.rb_top.specs.Broken.{broken_line, line_rule, words_rule, word_rule, place_rule, job_rule, run_rule, has_return, broken_rule_text};
ghost use Rattle.rb_top.specs.Names.{HasNames};
ghost use Rattle.std.specs.Prelude.{◌≡◌, map, IfOk};

use crate::lines::{has_empty, read_line, text_of};
use crate::names::Names;
use crate::reading::{MOST_BYTES, add_line, differ, file_lines, may_come};
use crate::script::{DrillLine, Script};
use crate::words::blank_parts;
use rb_causes::{NoMemory, Text};
use std::alloc::Global;

/// Which rule a drill file breaks: that of its size, or that of the first line which is not read.
#[derive(Clone, Copy, Debug, PartialEq, Eq)]
pub enum BrokenRule {
    TooLarge,
    NotUtf8,
    Blanks,
    UnknownWord,
    WrongForm,
    NodeTwice,
    UnknownNode,
    JobTwice,
    NodeTwiceInJob,
    StepWithoutJob,
    UnknownJob,
    JobWithoutStep,
}

/// A broken rule, and whether the line that breaks it holds a carriage return.
#[derive(Clone, Copy, Debug, PartialEq, Eq)]
pub struct Broken {
    pub rule: BrokenRule,
    pub has_return: bool,
}

impl BrokenRule {
    /// The rule in words.
    pub fn text(self) -> &'static str
        ensures { result.now ≡ broken_rule_text self }
    {
        match self {
            BrokenRule::TooLarge => "a drill file has at most 1,048,576 bytes",
            BrokenRule::NotUtf8 => "a line is UTF-8",
            BrokenRule::Blanks =>
                "exactly one space or tab parts two words, and none begins or ends a line",
            BrokenRule::UnknownWord => "a line begins with node, allow, deny, job, step, run or #",
            BrokenRule::WrongForm =>
                "forms: node NAME, allow|deny USER NODE, job ID NODE,.., step WORD.., run USER ID",
            BrokenRule::NodeTwice => "a node is named once",
            BrokenRule::UnknownNode => "a node has its line above",
            BrokenRule::JobTwice => "a job is named once",
            BrokenRule::NodeTwiceInJob => "the nodes of a job differ",
            BrokenRule::StepWithoutJob => "a step has a job above it",
            BrokenRule::UnknownJob => "a run is of a job that has its line above",
            BrokenRule::JobWithoutStep => "a job that is run has a step above the run",
        }
    }
}

/// Which rule the drill file of these bytes breaks first; None exactly where it is read.
pub fn broken_line(alloc: Global, bytes: &[u8]) -> Result<Option<Broken>, NoMemory>
    ensures { IfOk result (λ broken. broken ≡ broken_line bytes.now) }
{
    if bytes.len() > MOST_BYTES {
        return Ok(Some(Broken {
            rule: BrokenRule::TooLarge,
            has_return: false,
        }));
    }
    let lines = file_lines(alloc, bytes)?;
    let mut script = Script::new(alloc);
    let mut names = Names::new(alloc);
    for line_bytes in lines.iter() {
        let has_return = has_return(line_bytes);
        let Some(line) = read_line(alloc, line_bytes)? else {
            let rule = line_rule(alloc, line_bytes)?;
            return Ok(Some(Broken { rule, has_return }));
        };
        if !may_come(alloc, &names, &script, &line)? {
            let rule = place_rule(alloc, &names, &script, &line)?;
            return Ok(Some(Broken { rule, has_return }));
        }
        names.note(alloc, &script, &line)?;
        add_line(alloc, &mut script, line)?;
    }
    Ok(None)
}

fn has_return(line: &[u8]) -> bool
    ensures { result ≡ has_return line.now }
{
    line.iter().any(|byte| *byte == b'\r')
}

// The rule that a line which is not read breaks by itself.
fn line_rule(alloc: Global, bytes: &[u8]) -> Result<BrokenRule, NoMemory>
    ensures { IfOk result (λ rule. rule ≡ line_rule bytes.now) }
{
    let Some(text) = text_of(bytes) else {
        return Ok(BrokenRule::NotUtf8);
    };
    let words = blank_parts(alloc, text)?;
    Ok(words_rule(words.as_slice()))
}

fn words_rule(words: &[&str]) -> BrokenRule
    ensures { result ≡ words_rule (map (λ w. w.now) words.now) }
{
    if has_empty(words) {
        return BrokenRule::Blanks;
    }
    match words {
        [] => BrokenRule::Blanks,
        [word, ..] => word_rule(word),
    }
}

fn word_rule(word: &str) -> BrokenRule
    ensures { result ≡ word_rule word.now }
{
    match word {
        "node" => BrokenRule::WrongForm,
        "allow" => BrokenRule::WrongForm,
        "deny" => BrokenRule::WrongForm,
        "job" => BrokenRule::WrongForm,
        "step" => BrokenRule::WrongForm,
        "run" => BrokenRule::WrongForm,
        _ => BrokenRule::UnknownWord,
    }
}

// The rule that a line breaks which may not stand behind what was read.
fn place_rule(
    alloc: Global,
    names: &Names,
    script: &Script,
    line: &DrillLine,
) -> Result<BrokenRule, NoMemory>
    requires { HasNames names.now script.now }
    ensures { IfOk result (λ rule. rule ≡ place_rule script.now line.now) }
{
    match line {
        DrillLine::Skip => Ok(BrokenRule::WrongForm),
        DrillLine::Node(_) => Ok(BrokenRule::NodeTwice),
        DrillLine::Access(_) => Ok(BrokenRule::UnknownNode),
        DrillLine::Job { id, nodes } => job_rule(alloc, names, script, id, nodes.as_slice()),
        DrillLine::Step(_) => Ok(BrokenRule::StepWithoutJob),
        DrillLine::Run(run) => Ok(run_rule(names, script, &run.job)),
    }
}

fn job_rule(
    alloc: Global,
    names: &Names,
    script: &Script,
    id: &Text,
    nodes: &[Text],
) -> Result<BrokenRule, NoMemory>
    requires { HasNames names.now script.now }
    ensures { IfOk result (λ rule. rule ≡ job_rule script.now id.now nodes.now) }
{
    if names.has_job(script, id) {
        Ok(BrokenRule::JobTwice)
    } else if !differ(alloc, nodes)? {
        Ok(BrokenRule::NodeTwiceInJob)
    } else {
        Ok(BrokenRule::UnknownNode)
    }
}

fn run_rule(names: &Names, script: &Script, id: &Text) -> BrokenRule
    requires { HasNames names.now script.now }
    ensures { result ≡ run_rule script.now id.now }
{
    if names.has_job(script, id) {
        BrokenRule::JobWithoutStep
    } else {
        BrokenRule::UnknownJob
    }
}
