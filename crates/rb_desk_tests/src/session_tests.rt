use crate::session_files::JOBS;
use crate::sessions::{Failing, play};
use std::alloc::{AllocError, Global};
use std::test::Fail;

const IMPORT_HEAD: &str = "POST /api/34/project/desk/jobs/import HTTP/1.1\r\n\
X-Rundeck-Auth-Token: t-root\r\nContent-Length: 508\r\n\r\n";

const RUN: &str = "POST /api/34/job/7b1f0c2a-0001/run HTTP/1.1\r\n\
X-Rundeck-Auth-Token: t-ann\r\nContent-Length: 27\r\n\r\n{\"options\":{\"mode\":\"soft\"}}";

/// The requests of the worked session.
const ASKED: [&str; 5] = [IMPORT_HEAD, JOBS, RUN, IMPORT_HEAD, JOBS];

/// The replies to them.
const REPLIES: &str = "HTTP/1.1 200 OK\r\nContent-Type: application/json\r\n\
Content-Length: 64\r\nConnection: keep-alive\r\n\r\n\
{\"jobs\":[{\"action\":\"created\",\"id\":\"7b1f0c2a-0001\"}],\"version\":1}\
HTTP/1.1 200 OK\r\nContent-Type: application/json\r\n\
Content-Length: 221\r\nConnection: keep-alive\r\n\r\n\
{\"dropped\":[{\"clause\":\"ops.aclpolicy#1 for node rule 2\",\"node\":\"web2\"}],\"id\":1,\
\"job\":\"7b1f0c2a-0001\",\"nodes\":[\"web1\",\"web3\"],\"options\":{\"mode\":\"soft\"},\
\"project\":\"desk\",\"started\":1700000000,\"status\":\"running\",\"user\":\"ann\"}\
HTTP/1.1 200 OK\r\nContent-Type: application/json\r\n\
Content-Length: 61\r\nConnection: keep-alive\r\n\r\n\
{\"jobs\":[{\"action\":\"same\",\"id\":\"7b1f0c2a-0001\"}],\"version\":1}";

/// Parts one behind another.
fn joined(alloc: Global, parts: &[&str]) -> Result<String, AllocError> {
    let mut all = String::new(alloc);
    for part in parts {
        all.push_str(*part)?;
    }
    Ok(all)
}

const NONE: Failing = Failing {
    shelf: 0,
    line: 0,
    spawner: 0,
    keeper: 0,
};

/// The object of this number, of which this call fails.
fn failing(object: u32, call: u64) -> Failing {
    match object {
        0 => Failing {
            shelf: call,
            ..NONE
        },
        1 => Failing { line: call, ..NONE },
        2 => Failing {
            spawner: call,
            ..NONE
        },
        _ => Failing {
            keeper: call,
            ..NONE
        },
    }
}

#[test]
fn an_imported_job_runs_on_the_nodes_that_its_caller_may_run(rt: HostRuntime) -> Result<(), Fail> {
    let alloc = rt.alloc();
    let input = joined(alloc, &ASKED)?;
    for piece in &[4096usize, 7] {
        let played = play(alloc, input.as_str(), *piece, NONE)?;
        assert_eq!(rt; played.status, 0);
        assert!(rt; played.told.as_str().is_empty());
        assert!(rt; played.taken.as_str() == REPLIES);
        assert!(rt; played.runs.as_str() == "echo soft web1 \necho soft web3 \n");
        assert!(rt; played.kinds.as_str() == " 1 4 4 2 3 5 8 9 8 9 10");
        assert_eq!(rt; played.saved, Some(11));
    }
    Ok(())
}

/// Shelf, line, spawner and keeper, with the status that tells a failed call; a program that is
/// not started is none.
const STATUSES: [(u32, u8); 4] = [(0, 4), (1, 5), (2, 0), (3, 6)];

#[test]
fn each_call_of_each_object_may_fail(rt: HostRuntime) -> Result<(), Fail> {
    let alloc = rt.alloc();
    let input = joined(alloc, &ASKED)?;
    for (object, status) in &STATUSES {
        let mut told = 0u32;
        for call in 1..24u64 {
            let played = play(alloc, input.as_str(), 4096, failing(*object, call))?;
            assert!(rt; played.status == 0 || played.status == *status);
            assert_eq!(rt; played.told.as_str().is_empty(), played.status == 0);
            assert!(rt; played.saved.is_none() || played.kinds.as_str().starts_with(" 1"));
            if played.status != 0 {
                told = told.saturating_add(1);
            }
        }
        assert_eq!(rt; told == 0, *status == 0);
    }
    Ok(())
}
