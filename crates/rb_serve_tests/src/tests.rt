use crate::documents::{LOOK, RUN, RUN_ON};
use crate::playing::{Seen, Setting, play};
use std::alloc::Global;
use std::sync::Wait;
use std::test::Fail;
use std::thread::Threads;
use std::time;

/// Three doors and two workers; two of the callers run the job.
const WELL: Setting = Setting {
    manifest: "desk.yaml",
    workers: "2",
    inputs: &[RUN, RUN, LOOK],
    keeper_fails_from: 0,
    line_fails_at: 0,
    together: 0,
    lines_meet: false,
};

/// The keeper takes the documents and the run, and nothing behind them.
const FAILING: Setting = Setting {
    manifest: "desk.yaml",
    workers: "1",
    inputs: &[RUN],
    keeper_fails_from: 8,
    line_fails_at: 0,
    together: 0,
    lines_meet: false,
};

const ABSENT: Setting = Setting {
    manifest: "none.yaml",
    workers: "1",
    inputs: &[LOOK],
    keeper_fails_from: 0,
    line_fails_at: 0,
    together: 0,
    lines_meet: false,
};

const IDLE: Setting = Setting {
    manifest: "desk.yaml",
    workers: "0",
    inputs: &[LOOK],
    keeper_fails_from: 0,
    line_fails_at: 0,
    together: 0,
    lines_meet: false,
};

/// The first line fails when its caller is read.
const UNREAD: Setting = Setting {
    manifest: "desk.yaml",
    workers: "2",
    inputs: &[RUN, LOOK],
    keeper_fails_from: 0,
    line_fails_at: 2,
    together: 0,
    lines_meet: false,
};

/// No program ends before two have begun.
const TOGETHER: Setting = Setting {
    manifest: "desk.yaml",
    workers: "2",
    inputs: &[RUN],
    keeper_fails_from: 0,
    line_fails_at: 0,
    together: 2,
    lines_meet: false,
};

/// Nobody calls at the second line, which answers when the first one was read; the first caller's
/// input ends when the second line was asked and a program has begun.
const MEETING: Setting = Setting {
    manifest: "desk.yaml",
    workers: "1",
    inputs: &[RUN_ON, ""],
    keeper_fails_from: 0,
    line_fails_at: 0,
    together: 0,
    lines_meet: true,
};

/// How often the part stands in the text.
fn count(text: &str, part: &str) -> usize {
    let bytes = text.as_bytes();
    let mut found = 0usize;
    for at in 0..bytes.len() {
        if bytes[at..].starts_with(part.as_bytes()) {
            found = found.saturating_add(1);
        }
    }
    found
}

fn seen<R: Threads + Wait + time::Clock + Sync>(
    rt: &R,
    alloc: Global,
    setting: &Setting,
) -> Result<Seen, Fail> {
    match play(rt, alloc, setting)? {
        Some(seen) => Ok(seen),
        None => Err(Fail::new("words of a server")),
    }
}

#[test]
fn each_step_is_started_once_and_each_caller_is_answered(rt: HostRuntime) -> Result<(), Fail> {
    let seen = seen(&rt, rt.alloc(), &WELL)?;
    assert_eq!(rt; seen.status, 0);
    assert!(rt; seen.told.as_str().is_empty());
    assert_eq!(rt; count(seen.taken.as_str(), "HTTP/1.1 200 OK\r\n"), 3);
    assert_eq!(rt;
        count(seen.taken.as_str(), "\"nodes\":[\"web1\",\"web3\"]"),
        2
    );
    assert_eq!(rt; seen.runs, 4);
    assert_eq!(rt; seen.saved, Some(18));
    let kinds = seen.kinds.as_str();
    assert!(rt; kinds.starts_with(" 1 4 4 2 3 "));
    assert_eq!(rt; count(kinds, " 5"), 2);
    assert_eq!(rt; count(kinds, " 8"), 4);
    assert_eq!(rt; count(kinds, " 9"), 4);
    assert_eq!(rt; count(kinds, " 10"), 3);
    Ok(())
}

#[test]
fn a_caller_who_cannot_be_read_leaves_the_others_alone(rt: HostRuntime) -> Result<(), Fail> {
    let seen = seen(&rt, rt.alloc(), &UNREAD)?;
    assert_eq!(rt; seen.status, 5);
    assert!(rt; seen.told.as_str() == "rundeskd: line failed\n");
    assert_eq!(rt; count(seen.taken.as_str(), "HTTP/1.1 200 OK\r\n"), 1);
    assert!(rt; seen.taken.as_str().starts_with("\nHTTP/1.1 200 OK\r\n"));
    assert_eq!(rt; seen.runs, 0);
    assert_eq!(rt; count(seen.kinds.as_str(), " 10"), 2);
    Ok(())
}

#[test]
fn two_programs_run_beside_each_other(rt: HostRuntime) -> Result<(), Fail> {
    let seen = seen(&rt, rt.alloc(), &TOGETHER)?;
    assert_eq!(rt; seen.late, 0);
    assert_eq!(rt; seen.status, 0);
    assert_eq!(rt; seen.runs, 2);
    Ok(())
}

#[test]
fn two_doors_and_a_worker_are_there_at_once(rt: HostRuntime) -> Result<(), Fail> {
    let seen = seen(&rt, rt.alloc(), &MEETING)?;
    assert_eq!(rt; seen.late, 0);
    assert_eq!(rt; seen.status, 0);
    assert_eq!(rt; count(seen.taken.as_str(), "HTTP/1.1 200 OK\r\n"), 1);
    assert_eq!(rt; seen.runs, 2);
    Ok(())
}

#[test]
fn a_worker_whose_store_fails_sixteen_times_ends_with_6(rt: HostRuntime) -> Result<(), Fail> {
    let seen = seen(&rt, rt.alloc(), &FAILING)?;
    assert_eq!(rt; seen.status, 6);
    assert!(rt; seen.told.as_str() == "rundeskd: store failed\n");
    assert_eq!(rt; count(seen.taken.as_str(), "HTTP/1.1 200 OK\r\n"), 1);
    assert_eq!(rt; seen.runs, 0);
    assert_eq!(rt; seen.saved, Some(6));
    Ok(())
}

#[test]
fn nothing_is_served_without_a_manifest(rt: HostRuntime) -> Result<(), Fail> {
    let seen = seen(&rt, rt.alloc(), &ABSENT)?;
    assert_eq!(rt; seen.status, 3);
    assert!(rt; seen.told.as_str() == "rundeskd: none.yaml: not there\n");
    assert!(rt; seen.taken.as_str() == "\n");
    assert_eq!(rt; seen.saved, None);
    Ok(())
}

#[test]
fn a_server_has_a_worker(rt: HostRuntime) -> Result<(), Fail> {
    assert!(rt; play(&rt, rt.alloc(), &IDLE)?.is_none());
    Ok(())
}
