use crate::{ApiRouter, Route, is_version, takes_method};
use std::test::Fail;

/// Paths with what they ask for: a route, the version and the subject, or nothing.
const PATHS: [(&str, Option<(Route, &str, &str)>); 16] = [
    (
        "/api/34/job/7b1f0c2a-0001/run",
        Some((Route::Run, "34", "7b1f0c2a-0001")),
    ),
    ("/api/x/execution/12", Some((Route::Execution, "x", "12"))),
    ("/api/24/execution/1/state", Some((Route::State, "24", "1"))),
    (
        "/api/24/execution/077/abort",
        Some((Route::Abort, "24", "077")),
    ),
    (
        "/api/34/project/desk/jobs",
        Some((Route::Jobs, "34", "desk")),
    ),
    (
        "/api/34/project/desk/jobs/import",
        Some((Route::ImportJobs, "34", "desk")),
    ),
    (
        "/api/34/project/d%20k/resources",
        Some((Route::Resources, "34", "d%20k")),
    ),
    (
        "/api/34/project/desk/executions",
        Some((Route::Executions, "34", "desk")),
    ),
    (
        "/api/34/system/acl/ops.aclpolicy",
        Some((Route::ImportPolicy, "34", "ops.aclpolicy")),
    ),
    ("/nowhere", None),
    ("", None),
    ("/api/34/job//run", None),
    ("/api/34/job/a/b/run", None),
    ("/api/34/execution/1/", None),
    ("/api/34/system/acl", None),
    ("api/34/execution/1", None),
];

#[test]
fn paths_ask_for_one_route(rt: HostRuntime) -> Result<(), Fail> {
    let router = ApiRouter::new(rt.alloc())?;
    for (path, wanted) in PATHS {
        let asked = match router.asked(path) {
            Some(asked) => Some((asked.route, asked.version, asked.subject)),
            None => None,
        };
        assert!(rt; asked == wanted);
    }
    Ok(())
}

#[test]
fn methods_and_versions_are_few(rt: HostRuntime) -> Result<(), Fail> {
    assert!(rt; takes_method(Route::Abort, "GET") && takes_method(Route::Abort, "POST"));
    assert!(rt; takes_method(Route::Run, "POST") && !takes_method(Route::Run, "GET"));
    assert!(rt; !takes_method(Route::Jobs, "get") && !takes_method(Route::Jobs, "HEAD"));
    assert!(rt; is_version("24") && is_version("034") && is_version("34"));
    assert!(rt; !is_version("23") && !is_version("35") && !is_version("v34") && !is_version(""));
    Ok(())
}
