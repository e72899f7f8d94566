use crate::desks::{PLAIN, Setting, told};
use crate::samples::{
    FAILED, FULL_JOBS, FULL_NODES, FULL_ON_ONE_NODE, FULL_POLICY, FULL_RUN, IMPORTS, JOBS,
    LATER_IMPORTS, LOOKS, ON_ONE_NODE, OPENED_GOES_ON, OTHERS, PLANS, REFERENCES, REFUSED_RUNS,
    REST, RUN, SAVE, SCHEDULES, STOPPED, STOPPED_IN_TIME, TWO_RUNS, WITHDRAWN, WORLD,
};
use std::test::Fail;

/// Scripts, and behind them the rows of the log, how many are kept, the programs that were run, and
/// the status of the first execution.
const SCRIPTS: [(&[&str], &str); 10] = [
    (
        &[WORLD, JOBS, RUN, REST, REFUSED_RUNS, SAVE],
        "10 10 2 succeeded",
    ),
    (&[WORLD, JOBS, IMPORTS, LATER_IMPORTS], "10 10 0 none"),
    (&[WORLD, JOBS, RUN, LOOKS], "16 16 2 succeeded"),
    (&[WORLD, OTHERS, TWO_RUNS], "16 16 4 succeeded"),
    (&[WORLD, OTHERS, STOPPED], "10 10 1 aborted"),
    (&[WORLD, JOBS, REFERENCES], "10 10 2 running"),
    (&[PLANS], "34 34 13 succeeded"),
    (&[WORLD, SCHEDULES], "18 18 2 succeeded"),
    (&[WORLD, JOBS, RUN, WITHDRAWN], "10 10 1 failed"),
    (&[WORLD, OTHERS, OPENED_GOES_ON], "10 10 2 succeeded"),
];

#[test]
fn desks_answer_as_their_scripts_say(rt: HostRuntime) -> Result<(), Fail> {
    for (scripts, wanted) in &SCRIPTS {
        assert_eq!(rt; told(rt.alloc(), PLAIN, *scripts)?.as_str(), *wanted);
    }
    let failing = Setting {
        second_fails: true,
        ..PLAIN
    };
    let failed = told(rt.alloc(), failing, &[WORLD, OTHERS, FAILED])?;
    assert_eq!(rt; failed.as_str(), "9 9 2 failed");
    Ok(())
}

/// Rooms, and what is full in them.
const ROOMS: [(u64, &[&str], &str); 8] = [
    (2, &[FULL_POLICY], "1 1 0 none"),
    (3, &[FULL_NODES], "2 2 0 none"),
    (4, &[WORLD, FULL_JOBS], "3 3 0 none"),
    (5, &[WORLD, JOBS, FULL_RUN], "4 4 0 none"),
    (10, &[WORLD, JOBS, FULL_RUN], "4 4 0 none"),
    (11, &[WORLD, JOBS, RUN, REST], "10 10 2 succeeded"),
    (8, &[WORLD, OTHERS, FULL_ON_ONE_NODE], "4 4 0 none"),
    (
        9,
        &[WORLD, OTHERS, ON_ONE_NODE, STOPPED_IN_TIME],
        "7 7 0 aborted",
    ),
];

#[test]
fn a_small_room_is_told_first(rt: HostRuntime) -> Result<(), Fail> {
    for (room, scripts, wanted) in &ROOMS {
        let setting = Setting {
            room: *room,
            ..PLAIN
        };
        assert_eq!(rt;
            told(rt.alloc(), setting, *scripts)?.as_str(),
            *wanted,
            "room {room}"
        );
    }
    Ok(())
}

/// The keeper's calls are: its rows, the opening, and one for each row of the run.
#[test]
fn a_keeper_fails_at_each_call(rt: HostRuntime) -> Result<(), Fail> {
    for failing in 1..12u64 {
        let setting = Setting { failing, ..PLAIN };
        let told = told(rt.alloc(), setting, &[WORLD, JOBS, RUN, REST, SAVE])?;
        let wanted = if failing <= 2 {
            "StoreFault"
        } else {
            "a fault; 10 10 2 succeeded"
        };
        assert_eq!(rt; told.as_str(), wanted, "call {failing}");
    }
    Ok(())
}
