//! Documents of chains: what they say, or their first flaw.
use crate::showing::shown;
use std::alloc::{AllocError, Global};
use std::test::Fail;

const RELEASE: &str = "runs:
- job: 7b1f0c2a-0001
  args: -mode soft
  undo:
    job: 7b1f0c2a-0001
    args: -mode hard
- job: 7b1f0c2a-0001
  args: -mode odd
";

/// Texts, and what is read of each.
const TABLE: [(&str, &str); 31] = [
    (
        RELEASE,
        "7b1f0c2a-0001 mode=soft undo 7b1f0c2a-0001 mode=hard;7b1f0c2a-0001 mode=odd;",
    ),
    ("runs:\n- job: a", "a;"),
    ("runs:\n- {job: a}\n- {args: -x 1, job: b}", "a;b x=1;"),
    (
        "runs:\n- args: -x 1 -y 'two words'\n  job: a",
        "a x=1 y=two words;",
    ),
    (
        "runs:\n- job: a\n  args:\n  undo: {job: b, args: ' '}",
        "a undo b;",
    ),
    ("runs:\n- job:", ";"),
    ("", "0: BadShape"),
    ("runs:\n- job: a\n---\nruns:\n- job: a", "0: BadShape"),
    ("runs: []", "0: BadShape"),
    ("runs:", "0: BadShape"),
    ("runs:\n  job: a", "0: BadShape"),
    ("- job: a", "0: BadShape"),
    ("Runs:\n- job: a", "0: BadShape"),
    ("runs:\n- job: a\nname: b", "0: BadShape"),
    ("runs:\n- a", "1: BadShape"),
    ("runs:\n- job: a\n- [job, b]", "2: BadShape"),
    ("runs:\n- args: -x 1", "1: BadShape"),
    ("runs:\n- job: [a]", "1: BadShape"),
    ("runs:\n- job: a\n  args: [-x, 1]", "1: BadShape"),
    ("runs:\n- job: a\n  filter: b", "1: BadShape"),
    ("runs:\n- job: a\n  undo: b", "1: BadShape"),
    ("runs:\n- job: a\n  undo: {args: -x 1}", "1: BadShape"),
    (
        "runs:\n- job: a\n  undo:\n    job: b\n    undo: {job: a}",
        "1: BadShape",
    ),
    ("runs:\n- job: a\n- job: b\n  args: x 1", "2: BadArgs"),
    ("runs:\n- job: a\n  args: -x", "1: BadArgs"),
    ("runs:\n- job: a\n  args: -x \"1", "1: BadArgs"),
    ("runs:\n- job: a\n  undo: {job: b, args: x}", "1: BadArgs"),
    ("runs:\n- job: a\n  args: x\n- a", "1: BadArgs"),
    ("runs:\n- job: a\n  args: x\n  undo: b", "1: BadShape"),
    ("runs:\n- a\n- job: a\n  args: x", "1: BadShape"),
    ("runs:\n- job: a\n- job: a\n  job: b", "yaml 4"),
];

#[test]
fn chains_are_read_or_their_first_flaw_is_told(rt: HostRuntime) -> Result<(), Fail> {
    for (text, wanted) in &TABLE {
        assert_eq!(rt; shown(rt.alloc(), *text)?.as_str(), *wanted, "{text}");
    }
    Ok(())
}

/// So many runs of one job, and behind them another.
fn many_runs(alloc: Global, count: u32, last: &str) -> Result<String, AllocError> {
    let mut text = String::from_str(alloc, "runs:\n")?;
    for _ in 0..count {
        text.push_str("- job: a\n")?;
    }
    text.push_str(last)?;
    Ok(text)
}

/// So many runs, the last of them, and whether the chain is read, or the flaw.
const LONG: [(u32, &str, &str); 6] = [
    (100, "", ""),
    (99, "- job: b", ""),
    (100, "- job: b", "101: TooMany"),
    (100, "- job: b\n  args: x", "101: BadArgs"),
    (104, "- b", "105: BadShape"),
    (200, "", "101: TooMany"),
];

#[test]
fn too_many_runs_are_told_behind_all_else(rt: HostRuntime) -> Result<(), Fail> {
    for (count, last, wanted) in &LONG {
        let text = many_runs(rt.alloc(), *count, *last)?;
        let got = shown(rt.alloc(), text.as_str())?;
        if wanted.is_empty() {
            assert_eq!(rt; got.len(), 200, "{count} runs and {last}");
        } else {
            assert_eq!(rt; got.as_str(), *wanted, "{count} runs and {last}");
        }
    }
    Ok(())
}
