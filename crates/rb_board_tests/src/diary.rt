//! What a pass was told, and whether a log tells the same.
use crate::quiet::QuietSpawner;
use rb_causes::Row;
use rb_desk::{Answer, Call, OpenLeaf, Shown};
use std::alloc::Global;

const NODES: u8 = 2;

const JOBS: u8 = 3;

const POLICY: u8 = 4;

const ACCEPT: u8 = 5;

const ABORT: u8 = 7;

const BEGIN: u8 = 8;

const END: u8 = 9;

const CLOSE: u8 = 10;

const ZONE: u8 = 11;

const WITHDRAW: u8 = 12;

/// A row as a pass can know it: of an import its number, of an Accept, an Abort and a Withdraw the
/// execution, of a Begin its execution, node and worker, of an End its execution and node, of a
/// Close its door.
#[derive(Clone, Copy, Debug, PartialEq, Eq)]
pub(crate) struct Note {
    kind: u8,
    a: u64,
    b: u64,
    c: u64,
}

/// What was heard of a call.
#[derive(Clone, Copy, Debug, PartialEq, Eq)]
pub(crate) enum Heard {
    Imported(u64),
    /// The number of the execution.
    Accepted(u64),
    Aborted,
    Fired(u64),
    Task,
    Withdrawn,
    Closed,
    Idle,
    Reported,
    DoorClosed,
    /// The number of the execution that was looked at.
    Shown(u64),
    Saved,
    StoreFault,
    Other,
}

/// The rows that a pass was told of, in order, and how many calls it made.
#[derive(Drop)]
pub(crate) struct Diary {
    /// Of its worker, where it is one.
    worker: u32,
    notes: Vec<Note>,
    /// How many of them were found in a log.
    found: usize,
    pub(crate) turns: u64,
    /// Whether there was memory for all of them.
    pub(crate) whole: bool,
}

impl Note {
    fn leaf(kind: u8, open: OpenLeaf, worker: u32) -> Note {
        Note {
            kind,
            a: open.execution,
            b: u64::from(open.leaf.node),
            c: u64::from(worker),
        }
    }

    fn plain(kind: u8, a: u64) -> Note {
        Note {
            kind,
            a,
            b: 0,
            c: 0,
        }
    }

    /// The row of a call that is answered well, where it has one; an import's number is not known.
    fn of_call(call: &Call) -> Option<Note> {
        match call {
            Call::ImportZone { .. } => Some(Note::plain(ZONE, 0)),
            Call::ImportNodes { .. } => Some(Note::plain(NODES, 0)),
            Call::ImportPolicy { .. } => Some(Note::plain(POLICY, 0)),
            Call::ImportJobs { .. } => Some(Note::plain(JOBS, 0)),
            Call::Abort { execution, .. } => Some(Note::plain(ABORT, *execution)),
            Call::Report { done, .. } => Some(Note::leaf(END, done.claimed(), 0)),
            Call::CloseDoor { door, .. } => Some(Note::plain(CLOSE, u64::from(*door))),
            Call::Run { .. } => None,
            Call::Tick { .. } => None,
            Call::Claim { .. } => None,
            Call::Look { .. } => None,
            Call::Save => None,
        }
    }

    /// What a row says of itself.
    fn of_row(row: &Row) -> Note {
        let (b, c) = match row.kind {
            BEGIN => (row.b, row.c),
            END => (row.b, 0),
            _ => (0, 0),
        };
        Note {
            kind: row.kind,
            a: row.a,
            b,
            c,
        }
    }
}

impl Diary {
    pub(crate) fn new(alloc: Global, worker: u32) -> Diary {
        Diary {
            worker,
            notes: Vec::new(alloc),
            found: 0,
            turns: 0,
            whole: true,
        }
    }

    /// How many rows it was told of.
    pub(crate) fn rows(&self) -> usize {
        self.notes.len()
    }

    fn push(&mut self, note: Option<Note>) {
        if let Some(note) = note {
            self.whole = self.whole && self.notes.push(note).is_ok();
        }
    }

    /// Notes what a call was answered. The first is the row that the call names.
    pub(crate) fn note(&mut self, named: Option<Note>, answer: &Answer) {
        self.turns = self.turns.saturating_add(1);
        let worker = self.worker;
        match answer {
            Answer::Accepted(view) => self.push(Some(Note::plain(ACCEPT, view.id))),
            Answer::Fired(number) => self.push(Some(Note::plain(ACCEPT, *number))),
            Answer::Task(task) => self.push(Some(Note::leaf(BEGIN, task.claimed(), worker))),
            Answer::Withdrawn { execution, .. } => {
                self.push(Some(Note::plain(WITHDRAW, *execution)))
            }
            Answer::Aborted(_) => self.push(named),
            Answer::Reported(_) => self.push(named),
            Answer::DoorClosed(_) => self.push(named),
            Answer::Imported { version, .. } => self.push(imported(named, *version)),
            _ => (),
        }
    }

    /// Whether the next row that it was told of is this; if so, it is found.
    fn tells(&mut self, note: Note) -> bool {
        match self.notes.get(self.found) {
            Some(next) if *next == note => {
                self.found = self.found.saturating_add(1);
                true
            }
            _ => false,
        }
    }

    /// Whether each row that it was told of was found.
    fn is_found(&self) -> bool {
        self.whole && self.found == self.notes.len()
    }
}

fn imported(named: Option<Note>, version: u64) -> Option<Note> {
    match named {
        Some(note) => Some(Note::plain(note.kind, version)),
        None => None,
    }
}

/// The row that a call names.
pub(crate) fn named_in(call: &Call) -> Option<Note> {
    Note::of_call(call)
}

/// What an answer says. A task that is not to be reported is run all the same: it cannot be let go.
pub(crate) fn heard_of(answer: Answer) -> Heard {
    match answer {
        Answer::Imported { version, jobs: _ } => Heard::Imported(version),
        Answer::Accepted(view) => Heard::Accepted(view.id),
        Answer::Aborted(_) => Heard::Aborted,
        Answer::Fired(number) => Heard::Fired(number),
        Answer::Task(task) => {
            let _ = task.start(&mut QuietSpawner).into_parts();
            Heard::Task
        }
        Answer::Withdrawn {
            execution: _,
            node: _,
            decision: _,
        } => Heard::Withdrawn,
        Answer::Closed => Heard::Closed,
        Answer::Idle => Heard::Idle,
        Answer::Reported(_) => Heard::Reported,
        Answer::DoorClosed(_) => Heard::DoorClosed,
        Answer::Shown(shown) => shown_in(shown),
        Answer::Saved => Heard::Saved,
        Answer::StoreFault => Heard::StoreFault,
        Answer::NoMemory => Heard::Other,
        Answer::Full => Heard::Other,
        Answer::BadZone => Heard::Other,
        Answer::BadName => Heard::Other,
        Answer::BadYaml(_) => Heard::Other,
        Answer::BadNodes(_) => Heard::Other,
        Answer::BadPolicy(_) => Heard::Other,
        Answer::BadJobs(_) => Heard::Other,
        Answer::TooManyFiles => Heard::Other,
        Answer::NoProject => Heard::Other,
        Answer::IdTaken(_) => Heard::Other,
        Answer::NameTaken(_) => Heard::Other,
        Answer::Denied(_) => Heard::Other,
        Answer::Refused(_, _) => Heard::Other,
        Answer::NoExecution => Heard::Other,
        Answer::Ended => Heard::Other,
        Answer::Aborting => Heard::Other,
        Answer::Quiet => Heard::Other,
    }
}

fn shown_in(shown: Shown) -> Heard {
    match shown {
        Shown::Execution(view) => Heard::Shown(view.id),
        Shown::State { id, .. } => Heard::Shown(id),
        Shown::Jobs(_) => Heard::Other,
        Shown::Resources(_) => Heard::Other,
        Shown::Executions { .. } => Heard::Other,
    }
}

/// The place of the one diary that tells of this row next.
fn teller(diaries: &mut [Diary], note: Note) -> Option<usize> {
    let mut teller = None;
    for (place, diary) in diaries.iter_mut().enumerate() {
        if diary.tells(note) {
            if teller.is_some() {
                return None;
            }
            teller = Some(place);
        }
    }
    teller
}

/// How often the row behind another is that of another pass, where each row behind the first is
/// what just one diary tells, in each diary's order, and no diary tells more; else None.
pub(crate) fn changes(rows: &[Row], diaries: &mut [Diary]) -> Option<u64> {
    let mut changes = 0u64;
    let mut last = None;
    for row in rows.iter().skip(1) {
        let next = teller(diaries, Note::of_row(row));
        if next.is_none() {
            return None;
        }
        if next != last {
            changes = changes.saturating_add(1);
        }
        last = next;
    }
    if diaries.iter().all(|diary| diary.is_found()) {
        Some(changes)
    } else {
        None
    }
}
