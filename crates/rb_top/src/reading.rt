ghost use Rattle.rb_top.specs.Names.{HasNames};
ghost use Rattle.rb_top.specs.Reading.{job_at, may_come, with_line, with_step, script_of, GivesScript};
ghost use Rattle.rb_top.specs.declared.reading.ScriptErr.TheVariants as variants;
ghost use Rattle.std.specs.List.{list_all, slice_split};
ghost use Rattle.rb_causes.specs.Texts.{is_line_feed, has_text, differ};
ghost use Rattle.std.specs.Prelude.{◌≡◌, ◌&&◌, not, is_some, map, IfOk, OnOk};

use crate::lines::read_line;
use crate::names::Names;
use crate::script::{DrillJob, DrillLine, Script, ScriptFault};
use rb_causes::{Items, NoMemory, SeenTexts, Text};
use std::alloc::{AllocError, Global};

/// The most bytes that a drill file may have.
pub(crate) const MOST_BYTES: usize = 1_048_576;

/// Why `read_script` gives no script.
#[derive(Clone, Copy, Debug, PartialEq, Eq)]
pub enum ScriptErr {
    /// The file is refused: this is its fault, the first of its lines or its size.
    Fault(ScriptFault),
    /// Memory was wanting.
    NoMemory,
}

impl From<NoMemory> for ScriptErr {
    ghost from_gives = { λ _ error. error ≡ variants.NoMemory };

    fn from(_error: NoMemory) -> ScriptErr {
        ScriptErr::NoMemory
    }
}

impl From<AllocError> for ScriptErr {
    ghost from_gives = { λ _ error. error ≡ variants.NoMemory };

    fn from(_error: AllocError) -> ScriptErr {
        ScriptErr::NoMemory
    }
}

/// What a drill file says, read whole. `Fault` tells the first line that breaks a rule.
pub fn read_script(alloc: Global, bytes: &[u8]) -> Result<Script, ScriptErr>
    ensures { GivesScript result (script_of bytes.now) }
{
    if bytes.len() > MOST_BYTES {
        return Err(ScriptErr::Fault(ScriptFault::TooLarge));
    }
    let lines = file_lines(alloc, bytes)?;
    let mut script = Script::new(alloc);
    let mut names = Names::new(alloc);
    for (index, line) in lines.iter().enumerate() {
        let fault = ScriptFault::NotRead(index + 1);
        let Some(line) = read_line(alloc, line)? else {
            return Err(ScriptErr::Fault(fault));
        };
        if !may_come(alloc, &names, &script, &line)? {
            return Err(ScriptErr::Fault(fault));
        }
        names.note(alloc, &script, &line)?;
        add_line(alloc, &mut script, line)?;
    }
    Ok(script)
}

// The lines of a file: what stands between its line feeds.
pub(crate) fn file_lines<'a>(alloc: Global, bytes: &'a [u8]) -> Result<Vec<&'a [u8]>, AllocError>
    ensures { IfOk result (λ lines.
        map (λ line. line.now) lines.items ≡ slice_split is_line_feed bytes.now) }
{
    bytes.split(|byte| *byte == b'\n').collect(alloc)
}

// Whether a line may stand behind what was read.
pub(crate) fn may_come(
    alloc: Global,
    names: &Names,
    script: &Script,
    line: &DrillLine,
) -> Result<bool, NoMemory>
    requires { HasNames names.now script.now }
    ensures { IfOk result (λ may. may ≡ may_come script.now line.now) }
{
    match line {
        DrillLine::Skip => Ok(true),
        DrillLine::Node(name) => Ok(!names.has_node(script, name)),
        DrillLine::Access(access) => Ok(names.has_node(script, &access.node)),
        DrillLine::Job { id, nodes } => may_be_job(alloc, names, script, id, nodes.as_slice()),
        DrillLine::Step(_) => Ok(!script.jobs.is_empty()),
        DrillLine::Run(run) => Ok(names.has_steps(script, &run.job)),
    }
}

fn may_be_job(
    alloc: Global,
    names: &Names,
    script: &Script,
    id: &Text,
    nodes: &[Text],
) -> Result<bool, NoMemory>
    requires { HasNames names.now script.now }
    ensures { IfOk result (λ may.
        may ≡ (not (is_some (job_at script.now.jobs id.now)) && differ nodes.now
        && list_all (has_text script.now.nodes) nodes.now)) }
{
    let differ = differ(alloc, nodes)?;
    Ok(!names.has_job(script, id) && differ && names.has_nodes(script, nodes))
}

pub(crate) fn differ(alloc: Global, names: &[Text]) -> Result<bool, NoMemory>
    ensures { IfOk result (λ b. b ≡ differ names.now) }
{
    let mut seen = SeenTexts::new(alloc);
    for name in names {
        if seen.holds(name.as_str()) {
            return Ok(false);
        }
        seen.note(alloc, name.as_str())?;
    }
    Ok(true)
}

pub(crate) fn add_line(alloc: Global, script: &mut Script, line: DrillLine) -> Result<(), NoMemory>
    ensures { OnOk result (script.new ≡ with_line script.old line) }
{
    match line {
        DrillLine::Skip => Ok(()),
        DrillLine::Node(name) => script.nodes.push(name),
        DrillLine::Access(access) => script.access.push(access),
        DrillLine::Job { id, nodes } => script.jobs.push(DrillJob {
            id,
            nodes,
            steps: Items::new(alloc),
        }),
        DrillLine::Step(words) => add_step(&mut script.jobs, words),
        DrillLine::Run(run) => script.runs.push(run),
    }
}

// Adds a step to the last job.
fn add_step(jobs: &mut Items<DrillJob>, words: Items<Text>) -> Result<(), NoMemory>
    ensures { OnOk result (jobs.new ≡ with_step jobs.old words) }
{
    if let Some(mut job) = jobs.pop() {
        job.steps.push(words)?;
        jobs.push(job)?;
    }
    Ok(())
}
