//! A session that is played, and what there is to see of it behind its end.
use crate::session_files::{ADMIN, DESK, NODES, OPS};
use rb_causes::{
    File, FixedClock, Items, MemKeeper, MemLine, MemShelf, MemSink, MemSpawner, NoMemory, Row,
    SpawnRun, Text,
};
use rb_desk::Desk;
use rb_session_top::session_top;
use std::alloc::Global;
use std::str;

/// The moment of the clock.
const AT: i64 = 1_700_000_000;

/// The files of the shelf.
const FILES: [(&str, &str); 4] = [
    ("desk.yaml", DESK),
    ("admin.aclpolicy", ADMIN),
    ("ops.aclpolicy", OPS),
    ("nodes.yaml", NODES),
];

/// The call of each object that fails, from 1; 0 for none.
#[derive(Clone, Copy)]
pub(crate) struct Failing {
    pub(crate) shelf: u64,
    pub(crate) line: u64,
    pub(crate) spawner: u64,
    pub(crate) keeper: u64,
}

/// What there is to see of a session.
#[derive(Drop)]
pub(crate) struct Played {
    pub(crate) status: u8,
    /// What the sink took.
    pub(crate) told: String,
    /// What the caller took.
    pub(crate) taken: String,
    /// The programs that were started, a line each.
    pub(crate) runs: String,
    /// The kinds of the rows of the log, each behind a blank.
    pub(crate) kinds: String,
    /// How many rows the desk has kept; none where there is no desk.
    pub(crate) saved: Option<u64>,
}

fn bytes(alloc: Global, text: &str) -> Result<Items<u8>, NoMemory> {
    Ok(Items::of(Vec::from_slice(alloc, text.as_bytes())?))
}

fn calls(alloc: Global, number: u64) -> Result<Vec<u64>, NoMemory> {
    Ok(Vec::from_slice(alloc, &[number])?)
}

fn shelf(alloc: Global, failing: u64) -> Result<MemShelf, NoMemory> {
    let mut files = Vec::new(alloc);
    for (name, text) in &FILES {
        files.push(File {
            name: Text::of(alloc, *name)?,
            bytes: bytes(alloc, *text)?,
        })?;
    }
    Ok(MemShelf::new(files, calls(alloc, failing)?))
}

/// A line of one caller, whose reads give at most so many bytes.
fn line(alloc: Global, input: &str, piece: usize, failing: u64) -> Result<MemLine, NoMemory> {
    let mut callers = Vec::new(alloc);
    callers.push(bytes(alloc, input)?)?;
    let failing = calls(alloc, failing)?;
    Ok(MemLine::new(alloc, callers, piece.max(1), failing))
}

fn words(alloc: Global) -> Result<Vec<Text>, NoMemory> {
    let mut words = Vec::new(alloc);
    for text in &["session", "desk.yaml", "-"] {
        words.push(Text::of(alloc, *text)?)?;
    }
    Ok(words)
}

fn text_of(alloc: Global, bytes: Option<&[u8]>) -> Result<String, NoMemory> {
    let text = match bytes {
        None => "",
        Some(bytes) => str::from_utf8(bytes).unwrap_or("no text"),
    };
    Ok(String::from_str(alloc, text)?)
}

fn runs_text(alloc: Global, runs: &[SpawnRun]) -> Result<String, NoMemory> {
    let mut text = String::new(alloc);
    for run in runs {
        for word in run.words.as_slice() {
            text.push_str(word.as_str())?;
            text.push_str(" ")?;
        }
        text.push_str("\n")?;
    }
    Ok(text)
}

fn kinds_text(alloc: Global, rows: &[Row]) -> Result<String, NoMemory> {
    let mut text = String::new(alloc);
    for row in rows {
        let kind = row.kind;
        text.push_str(format!(in alloc; " {kind}")?.as_str())?;
    }
    Ok(text)
}

/// How many rows of a desk are kept, and its rows.
fn log_of(alloc: Global, desk: Result<Desk<MemKeeper>, MemKeeper>) -> (Option<u64>, Vec<Row>) {
    match desk {
        Ok(desk) => {
            let saved = desk.saved();
            (Some(saved), desk.into_log())
        }
        Err(_keeper) => (None, Vec::new(alloc)),
    }
}

/// Plays the session of `desk.yaml` with one caller, over objects in memory.
pub(crate) fn play(
    alloc: Global,
    input: &str,
    piece: usize,
    failing: Failing,
) -> Result<Played, NoMemory> {
    let words = words(alloc)?;
    let mut shelf = shelf(alloc, failing.shelf)?;
    let mut line = line(alloc, input, piece, failing.line)?;
    let started = calls(alloc, failing.spawner)?;
    let kept = calls(alloc, failing.keeper)?;
    let mut spawner = MemSpawner::new(alloc, Vec::new(alloc), started);
    let keeper = MemKeeper::new(alloc, Vec::new(alloc), kept);
    let mut sink = MemSink::new(alloc, Vec::new(alloc));
    let clock = FixedClock { at: AT };
    let (status, desk) = session_top(
        alloc,
        words.as_slice(),
        &mut shelf,
        &mut line,
        &mut spawner,
        keeper,
        &clock,
        0,
        &mut sink,
    );
    let (saved, rows) = log_of(alloc, desk);
    Ok(Played {
        status,
        told: text_of(alloc, Some(sink.bytes()))?,
        taken: text_of(alloc, line.taken(0))?,
        runs: runs_text(alloc, spawner.runs())?,
        kinds: kinds_text(alloc, rows.as_slice())?,
        saved,
    })
}
