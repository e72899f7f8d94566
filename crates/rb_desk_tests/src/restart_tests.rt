//! Desks that are opened over rows.
use crate::desks::{PLAIN, Played, opening, play};
use crate::samples::{BEHIND, JOBS, REST, RUN, SAVE, WORLD};
use rb_causes::{NoMemory, Row, Text};
use rb_desk::OpenErr;
use std::alloc::Global;
use std::test::Fail;

/// The rows of a run from its imports to the end of the door.
fn logged(alloc: Global) -> Result<Vec<Row>, NoMemory> {
    let scripts = [WORLD, JOBS, RUN, REST, SAVE];
    let Played { told: _, rows } = play(alloc, Vec::new(alloc), PLAIN, &scripts)?;
    Ok(rows)
}

/// The first so many rows.
fn first_rows(alloc: Global, rows: &[Row], count: usize) -> Result<Vec<Row>, NoMemory> {
    let mut first = Vec::new(alloc);
    for row in rows.iter().take(count) {
        first.push(row.copy(alloc)?)?;
    }
    Ok(first)
}

/// So many rows, how many there are behind them, how many of these are kept, and the run's status.
const BEGINNINGS: [(usize, &str); 11] = [
    (0, "2 2 0 none"),
    (1, "3 3 0 none"),
    (2, "4 4 0 none"),
    (3, "5 5 0 none"),
    (4, "6 6 0 none"),
    (5, "7 7 0 incomplete"),
    (6, "8 8 0 incomplete"),
    (7, "9 9 0 incomplete"),
    (8, "10 10 0 incomplete"),
    (9, "11 11 0 succeeded"),
    (10, "12 12 0 succeeded"),
];

#[test]
fn each_beginning_opens_again(rt: HostRuntime) -> Result<(), Fail> {
    let alloc = rt.alloc();
    let rows = logged(alloc)?;
    assert_eq!(rt; rows.len(), 10);
    for (count, wanted) in &BEGINNINGS {
        let kept = first_rows(alloc, rows.as_slice(), *count)?;
        let played = play(alloc, kept, PLAIN, &[BEHIND])?;
        assert_eq!(rt; played.told.as_str(), *wanted, "{count} rows");
    }
    Ok(())
}

fn longer(alloc: Global, text: &Text) -> Result<Text, NoMemory> {
    let text = text.as_str();
    Ok(Text::from_string(format!(in alloc; "{text}x")?))
}

/// Changes the field of a row with this number.
fn change(alloc: Global, row: &mut Row, field: usize) -> Result<(), NoMemory> {
    match field {
        0 => row.kind = row.kind.saturating_add(1),
        1 => row.at = row.at.saturating_sub(1),
        2 => row.a = row.a.saturating_add(1),
        3 => row.b = row.b.saturating_add(1),
        4 => row.c = row.c.saturating_add(1),
        5 => row.name = longer(alloc, &row.name)?,
        6 => row.who = longer(alloc, &row.who)?,
        _ => row.body = longer(alloc, &row.body)?,
    }
    Ok(())
}

/// Which row may not come, where one field of a row is changed: its kind, its moment, its numbers
/// and its texts; 0 where the log is legal then too. So are other doors, workers and draws, the
/// name of a policy file, whoever imported unchecked, the worker of a claim, and how the last
/// program ended; another project or ending tells at the row behind.
const CHANGED: [[u64; 8]; 10] = [
    [1, 0, 0, 0, 0, 1, 1, 1],
    [2, 2, 2, 2, 2, 0, 0, 2],
    [3, 3, 3, 3, 3, 4, 3, 3],
    [4, 4, 4, 4, 4, 4, 0, 4],
    [5, 5, 5, 5, 5, 5, 5, 5],
    [6, 6, 6, 6, 0, 6, 6, 6],
    [7, 7, 7, 7, 8, 7, 7, 7],
    [8, 8, 8, 8, 8, 8, 8, 8],
    [9, 9, 9, 9, 0, 9, 9, 9],
    [10, 10, 10, 10, 10, 10, 10, 10],
];

/// These rows, of which a field of one is changed.
fn changed(alloc: Global, rows: &[Row], place: usize, field: usize) -> Result<Vec<Row>, NoMemory> {
    let mut kept = first_rows(alloc, rows, rows.len())?;
    if let Some(row) = kept.get_mut(place) {
        change(alloc, row, field)?;
    }
    Ok(kept)
}

#[test]
fn a_changed_row_is_told(rt: HostRuntime) -> Result<(), Fail> {
    let alloc = rt.alloc();
    let rows = logged(alloc)?;
    for (place, row) in CHANGED.iter().enumerate() {
        for (field, number) in row.iter().enumerate() {
            let kept = changed(alloc, rows.as_slice(), place, field)?;
            let wanted = match *number {
                0 => Ok(()),
                _ => Err(OpenErr::BadStore(*number)),
            };
            assert_eq!(rt; opening(alloc, kept), wanted, "row {place}, field {field}");
        }
    }
    Ok(())
}

/// A policy row or a jobs row with another document, and how that is told: its pattern does not
/// read, or grows too big.
const OF_PATTERNS: [(usize, &str, OpenErr); 6] = [
    (
        1,
        "context: {project: '['}\nfor: {}\nby: {group: ops}\n",
        OpenErr::BadStore(2),
    ),
    (
        1,
        "context: {project: '(\\w{30}){30}'}\nfor: {}\nby: {group: ops}\n",
        OpenErr::NoMemory,
    ),
    (
        3,
        "- name: a\n  options:\n  - {name: b, regex: '['}\n  sequence:\n   commands:\n   - exec: c",
        OpenErr::BadStore(4),
    ),
    (
        3,
        "- name: a\n  options:\n  - {name: b, regex: '(\\w{30}){30}'}\n",
        OpenErr::NoMemory,
    ),
    (
        3,
        "- name: a\n  nodefilters: {filter: '['}\n  sequence:\n   commands:\n   - exec: c",
        OpenErr::BadStore(4),
    ),
    (
        3,
        "- name: a\n  nodefilters: {filter: '(\\w{30}){30}'}\n",
        OpenErr::NoMemory,
    ),
];

/// These rows, of which one has another document.
fn with_body(alloc: Global, rows: &[Row], place: usize, body: &str) -> Result<Vec<Row>, NoMemory> {
    let mut kept = first_rows(alloc, rows, rows.len())?;
    if let Some(row) = kept.get_mut(place) {
        row.body = Text::of(alloc, body)?;
    }
    Ok(kept)
}

#[test]
fn a_refused_pattern_is_told_by_its_cause(rt: HostRuntime) -> Result<(), Fail> {
    let alloc = rt.alloc();
    let rows = logged(alloc)?;
    for (place, body, wanted) in &OF_PATTERNS {
        let kept = with_body(alloc, rows.as_slice(), *place, *body)?;
        assert_eq!(rt; opening(alloc, kept), Err(*wanted), "{body}");
    }
    Ok(())
}
