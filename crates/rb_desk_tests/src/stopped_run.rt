//! The rows of a run that began and was stopped.
use crate::scripts::AT;
use rb_causes::{NoMemory, Row, Text};
use std::alloc::Global;

const POLICY: &str = "context: {project: desk}\nby: {group: ops}\nfor:\n  job:\n  - allow: run\n  \
node:\n  - allow: [read, run]\n";

const JOB: &str = "- name: r\n  id: r\n  nodefilters: {filter: 'tags: web'}\n  \
sequence:\n    commands:\n    - exec: echo\n";

const ASK: &str = "{\"due\":null,\"filter\":null,\"given\":[]}";

/// A row but for its moment: kind, numbers, name, caller and text.
type Sample = (u8, [u64; 3], &'static str, &'static str, &'static str);

/// An opening of form 1, a policy file, a node, a job, a run of it, and the beginning of its step.
const RUN: [Sample; 6] = [
    (1, [1, 2, 0], "", "", ""),
    (4, [1, 0, 0], "ops.aclpolicy", "root\nadmin", POLICY),
    (2, [1, 0, 0], "desk", "", "web1: {tags: web}\n"),
    (3, [1, 0, 0], "desk", "root\nadmin", JOB),
    (5, [1, 1, 1], "r", "ann\nops", ASK),
    (8, [1, 0, 0], "", "", ""),
];

/// The rows of the run.
pub(crate) fn run(alloc: Global) -> Result<Vec<Row>, NoMemory> {
    let mut rows = Vec::new(alloc);
    for (kind, [a, b, c], name, who, body) in RUN {
        rows.push(Row {
            kind,
            at: AT,
            a,
            b,
            c,
            name: Text::of(alloc, name)?,
            who: Text::of(alloc, who)?,
            body: Text::of(alloc, body)?,
        })?;
    }
    Ok(rows)
}

fn is_same(row: &Row, other: &Row) -> bool {
    let numbers = (row.kind, row.at, row.a, row.b, row.c);
    numbers == (other.kind, other.at, other.a, other.b, other.c)
        && row.name == other.name
        && row.who == other.who
        && row.body == other.body
}

/// Whether these rows are the others, one by one.
pub(crate) fn are_same(rows: &[Row], others: &[Row]) -> bool {
    rows.len() == others.len()
        && rows
            .iter()
            .zip(others.iter())
            .all(|(row, other)| is_same(row, other))
}
