//! Desks that are opened over rows, and asked line by line.
use crate::scripts::{AT, Hands, answered};
use crate::telling::status_name;
use rb_causes::{Ending, Keeper, MemKeeper, NoMemory, Row, SteadySpawner};
use rb_desk::{Desk, OpenErr};
use rb_marks::Status;
use std::alloc::Global;

/// A desk of one door and two workers: its room, the number of the call of its keeper that fails, 0
/// for none, and whether the second program that is run ends with 1.
#[derive(Clone, Copy)]
pub(crate) struct Setting {
    pub(crate) room: u64,
    pub(crate) failing: u64,
    pub(crate) second_fails: bool,
}

pub(crate) const PLAIN: Setting = Setting {
    room: 1000,
    failing: 0,
    second_fails: false,
};

/// What a desk was asked, as it is told, and the rows of its log then.
#[derive(Drop)]
pub(crate) struct Played {
    /// The lines that were answered otherwise, with their answers, and whether the keeper failed;
    /// then the rows, how many of them are kept, the programs that were run, and the status of the
    /// first execution.
    pub(crate) told: String,
    pub(crate) rows: Vec<Row>,
}

/// What a line is answered, and whether the keeper failed at it. Where nothing is changed, it is
/// asked again; a row that only waits for the keeper is as good as kept.
fn retried(
    desk: &mut Desk<MemKeeper>,
    spawner: &mut SteadySpawner,
    hands: &mut Hands,
    alloc: Global,
    line: &str,
) -> Result<(String, bool), NoMemory> {
    let rows = desk.log().len();
    let saved = desk.saved();
    let found = answered(desk, spawner, hands, alloc, line)?;
    if desk.saved() != saved {
        return Ok((found, false));
    }
    let more = desk.log().len().saturating_sub(rows);
    match found.as_str() {
        "StoreFault" if more == 0 => Ok((answered(desk, spawner, hands, alloc, line)?, true)),
        "fault" if more == 1 => Ok((String::from_str(alloc, "all")?, true)),
        _ => Ok((found, false)),
    }
}

/// Asks a line of a script, and tells it where it is answered otherwise.
fn ask_line(
    desk: &mut Desk<MemKeeper>,
    spawner: &mut SteadySpawner,
    hands: &mut Hands,
    alloc: Global,
    line: &str,
    others: &mut String,
) -> Result<(), NoMemory> {
    let (line, wanted) = line.split_once(" => ").unwrap_or((line, ""));
    let (found, failed) = retried(desk, spawner, hands, alloc, line)?;
    if failed {
        others.push_str("a fault; ")?;
    }
    if found.as_str() != wanted {
        others.push_str(line)?;
        others.push_str(": ")?;
        others.push_str(found.as_str())?;
        others.push_str("; ")?;
    }
    Ok(())
}

/// Asks each line.
fn ask_all(
    desk: &mut Desk<MemKeeper>,
    spawner: &mut SteadySpawner,
    hands: &mut Hands,
    alloc: Global,
    scripts: &[&str],
) -> Result<String, NoMemory> {
    let mut others = String::new(alloc);
    for script in scripts {
        for line in script.lines() {
            ask_line(desk, spawner, hands, alloc, line, &mut others)?;
        }
    }
    Ok(others)
}

/// A desk of one door and two workers over a keeper, with a room of at most 2,000,000 rows.
pub(crate) fn opened<K: Keeper + Drop>(
    alloc: Global,
    keeper: K,
    room: u64,
) -> Result<Desk<K>, OpenErr> {
    let room = room.min(2_000_000);
    match Desk::open(alloc, keeper, 1, 2, 0, room, AT) {
        Ok(desk) => Ok(desk),
        Err((_keeper, error)) => Err(error),
    }
}

fn opened_over(
    alloc: Global,
    rows: Vec<Row>,
    setting: Setting,
) -> Result<Desk<MemKeeper>, OpenErr> {
    let Ok(failing) = Vec::from_slice(alloc, &[setting.failing]) else {
        return Err(OpenErr::NoMemory);
    };
    opened(alloc, MemKeeper::new(alloc, rows, failing), setting.room)
}

fn spawner(alloc: Global, setting: Setting) -> Result<SteadySpawner, NoMemory> {
    let mut endings = Vec::new(alloc);
    if setting.second_fails {
        endings.push(Ending::Code(0))?;
        endings.push(Ending::Code(1))?;
    }
    Ok(SteadySpawner::new(alloc, endings))
}

fn played_text(
    others: &str,
    alloc: Global,
    rows: usize,
    saved: u64,
    runs: usize,
    first: Option<Status>,
) -> Result<String, NoMemory> {
    let status = match first {
        None => "none",
        Some(status) => status_name(status),
    };
    Ok(format!(in alloc; "{others}{rows} {saved} {runs} {status}")?)
}

/// Asks a desk, and lets go of it.
fn ended(
    alloc: Global,
    mut desk: Desk<MemKeeper>,
    mut spawner: SteadySpawner,
    scripts: &[&str],
) -> Result<Played, NoMemory> {
    let mut hands = Hands::new();
    let others = ask_all(&mut desk, &mut spawner, &mut hands, alloc, scripts);
    hands.end();
    let saved = desk.saved();
    let first = desk.status(1);
    let rows = desk.into_log();
    let runs = spawner.runs().len();
    let told = played_text(others?.as_str(), alloc, rows.len(), saved, runs, first)?;
    Ok(Played { told, rows })
}

/// What becomes of a desk that is opened over rows and asked scripts.
pub(crate) fn play(
    alloc: Global,
    rows: Vec<Row>,
    setting: Setting,
    scripts: &[&str],
) -> Result<Played, NoMemory> {
    let spawner = spawner(alloc, setting)?;
    match opened_over(alloc, rows, setting) {
        Ok(desk) => ended(alloc, desk, spawner, scripts),
        Err(error) => Ok(Played {
            told: format!(in alloc; "{error:?}")?,
            rows: Vec::new(alloc),
        }),
    }
}

/// What is told of a desk without rows that is asked scripts.
pub(crate) fn told(alloc: Global, setting: Setting, scripts: &[&str]) -> Result<String, NoMemory> {
    let Played { told, rows: _ } = play(alloc, Vec::new(alloc), setting, scripts)?;
    Ok(told)
}

/// Whether a desk opens over rows, or why not.
pub(crate) fn opening(alloc: Global, rows: Vec<Row>) -> Result<(), OpenErr> {
    match opened_over(alloc, rows, PLAIN) {
        Ok(desk) => {
            let _rows = desk.into_log();
            Ok(())
        }
        Err(error) => Err(error),
    }
}
