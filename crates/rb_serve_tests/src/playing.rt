//! A server that is played over objects in memory, and what there is to see of it behind its end.
ghost use Rattle.std.specs.Prelude.{◌≡◌, IfOk, length};

use crate::documents::{ADMIN, DESK, JOBS, NODES, OPS};
use crate::gates::{GatedLine, GatedSpawner, Gates, Place};
use rb_causes::{
    File, FixedClock, Items, MemKeeper, MemLine, MemShelf, MemSink, MemSpawner, NoMemory, Row, Text,
};
use rb_desk::Desk;
use rb_serve::{crew_in, serve_top};
use std::alloc::Global;
use std::sync::Wait;
use std::thread::Threads;
use std::{str, time};

/// The moment of the clock.
const AT: i64 = 1_700_000_000;

/// The files of the shelf.
const FILES: [(&str, &str); 5] = [
    ("desk.yaml", DESK),
    ("admin.aclpolicy", ADMIN),
    ("ops.aclpolicy", OPS),
    ("nodes.yaml", NODES),
    ("jobs.yaml", JOBS),
];

/// What is served: how many workers work, what each door's caller says, and from which call on the
/// keeper fails, with 0 at none.
pub(crate) struct Setting {
    pub(crate) manifest: &'static str,
    pub(crate) workers: &'static str,
    pub(crate) inputs: &'static [&'static str],
    pub(crate) keeper_fails_from: u64,
    /// Which call of the first line fails, with 0 for none.
    pub(crate) line_fails_at: u64,
    /// How many programs have to have begun before one of them ends.
    pub(crate) together: u64,
    /// Whether the first two lines wait for each other.
    pub(crate) lines_meet: bool,
}

/// What there is to see of it.
#[derive(Drop)]
pub(crate) struct Seen {
    pub(crate) status: u8,
    /// What the sink took.
    pub(crate) told: String,
    /// What each caller took, one behind another.
    pub(crate) taken: String,
    /// How many programs were started.
    pub(crate) runs: usize,
    /// The kinds of the rows of the log, each behind a blank.
    pub(crate) kinds: String,
    /// How many rows the desk has kept; none where there is no desk.
    pub(crate) saved: Option<u64>,
    /// How many waits for another thread were given up.
    pub(crate) late: u64,
}

fn bytes(alloc: Global, text: &str) -> Result<Items<u8>, NoMemory> {
    Ok(Items::of(Vec::from_slice(alloc, text.as_bytes())?))
}

fn shelf(alloc: Global) -> Result<MemShelf, NoMemory> {
    let mut files = Vec::new(alloc);
    for (name, text) in &FILES {
        files.push(File {
            name: Text::of(alloc, *name)?,
            bytes: bytes(alloc, *text)?,
        })?;
    }
    Ok(MemShelf::new(files, Vec::new(alloc)))
}

/// A line of one caller who says this, or of none where it is empty. Its call of this number fails.
fn line(alloc: Global, input: &str, fails_at: u64) -> Result<MemLine, NoMemory> {
    let mut callers = Vec::new(alloc);
    if !input.is_empty() {
        callers.push(bytes(alloc, input)?)?;
    }
    let mut failing = Vec::new(alloc);
    if fails_at > 0 {
        failing.push(fails_at)?;
    }
    Ok(MemLine::new(alloc, callers, 100, failing))
}

/// Which calls of the line of this number wait.
fn place_of(setting: &Setting, number: usize) -> Place {
    match (setting.lines_meet, number) {
        (true, 0) => Place::First,
        (true, 1) => Place::Second,
        _ => Place::Any,
    }
}

/// So many lines, each of one caller who says what is set, or of none.
fn lines<'g>(
    alloc: Global,
    count: usize,
    setting: &Setting,
    gates: &'g Gates,
) -> Result<Vec<GatedLine<'g>>, NoMemory>
    ensures { IfOk result (λ lines. length lines.items ≡ count) }
{
    let mut lines = Vec::new(alloc);
    for number in 0..count {
        let input = setting.inputs.get(number).copied().unwrap_or("");
        let fails_at = if number == 0 {
            setting.line_fails_at
        } else {
            0
        };
        lines.push(GatedLine {
            line: line(alloc, input, fails_at)?,
            gates,
            place: place_of(setting, number),
        })?;
    }
    Ok(lines)
}

fn spawners<'g>(
    alloc: Global,
    count: u32,
    gates: &'g Gates,
    together: u64,
) -> Result<Vec<GatedSpawner<'g>>, NoMemory>
    ensures { IfOk result (λ spawners. length spawners.items ≡ count) }
{
    let mut spawners = Vec::new(alloc);
    for _number in 0..count {
        spawners.push(GatedSpawner {
            spawner: MemSpawner::new(alloc, Vec::new(alloc), Vec::new(alloc)),
            gates,
            together,
        })?;
    }
    Ok(spawners)
}

/// The numbers of a hundred calls.
fn calls_from(alloc: Global, first: u64) -> Result<Vec<u64>, NoMemory> {
    let mut calls = Vec::new(alloc);
    if first > 0 {
        for number in 0..100u64 {
            calls.push(first.saturating_add(number))?;
        }
    }
    Ok(calls)
}

fn words(alloc: Global, setting: &Setting) -> Result<Vec<Text>, NoMemory> {
    let mut words = Vec::new(alloc);
    for text in &["serve", setting.manifest, "-", setting.workers, "1"] {
        words.push(Text::of(alloc, *text)?)?;
    }
    for _input in setting.inputs {
        words.push(Text::of(alloc, "127.0.0.1:4440")?)?;
    }
    Ok(words)
}

fn text_of(alloc: Global, bytes: Option<&[u8]>) -> Result<String, NoMemory> {
    let text = match bytes {
        None => "",
        Some(bytes) => str::from_utf8(bytes).unwrap_or("no text"),
    };
    Ok(String::from_str(alloc, text)?)
}

fn taken_of(alloc: Global, lines: &[GatedLine<'_>]) -> Result<String, NoMemory> {
    let mut text = String::new(alloc);
    for line in lines {
        text.push_str(text_of(alloc, line.line.taken(0))?.as_str())?;
        text.push_str("\n")?;
    }
    Ok(text)
}

fn runs_of(spawners: &[GatedSpawner<'_>]) -> usize {
    let mut count = 0usize;
    for spawner in spawners {
        count = count.saturating_add(spawner.spawner.runs().len());
    }
    count
}

fn kinds_text(alloc: Global, rows: &[Row]) -> Result<String, NoMemory> {
    let mut text = String::new(alloc);
    for row in rows {
        let kind = row.kind;
        text.push_str(format!(in alloc; " {kind}")?.as_str())?;
    }
    Ok(text)
}

/// How many rows of a desk are kept, and its rows.
fn log_of(alloc: Global, desk: Result<Desk<MemKeeper>, MemKeeper>) -> (Option<u64>, Vec<Row>) {
    match desk {
        Ok(desk) => {
            let saved = desk.saved();
            (Some(saved), desk.into_log())
        }
        Err(_keeper) => (None, Vec::new(alloc)),
    }
}

/// Plays a server with as many doors as callers.
pub(crate) fn play<R: Threads + Wait + time::Clock + Sync>(
    rt: &R,
    alloc: Global,
    setting: &Setting,
) -> Result<Option<Seen>, NoMemory> {
    let texts = words(alloc, setting)?;
    let words = texts.as_slice();
    let Some(crew) = crew_in(words) else {
        return Ok(None);
    };
    let gates = Gates::new();
    let mut lines = lines(alloc, crew.addresses.len(), setting, &gates)?;
    let mut spawners = spawners(alloc, crew.workers, &gates, setting.together)?;
    let mut shelf = shelf(alloc)?;
    let keeper = MemKeeper::new(
        alloc,
        Vec::new(alloc),
        calls_from(alloc, setting.keeper_fails_from)?,
    );
    let mut sink = MemSink::new(alloc, Vec::new(alloc));
    let clock = FixedClock { at: AT };
    let (status, desk) = serve_top(
        rt,
        alloc,
        words,
        &mut shelf,
        &mut lines,
        &mut spawners,
        keeper,
        &clock,
        0,
        &mut sink,
    );
    let (saved, rows) = log_of(alloc, desk);
    Ok(Some(Seen {
        status,
        told: text_of(alloc, Some(sink.bytes()))?,
        taken: taken_of(alloc, lines.as_slice())?,
        runs: runs_of(spawners.as_slice()),
        kinds: kinds_text(alloc, rows.as_slice())?,
        saved,
        late: gates.late(),
    }))
}
