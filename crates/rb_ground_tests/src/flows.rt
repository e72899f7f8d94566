//! Runs of one worker, with the leaves that begin and what comes of them.
ghost use Rattle.std.specs.Prelude.{◌≡◌, [], IfOk};

use rb_causes::{Ending, Items, NoMemory};
use rb_flow::{Act, Flow, Plan, Seq, Status, Step, Strategy};
use std::alloc::Global;
use std::process::Abort;
use std::test::Fail;

/// A run of a step whose handler may keep it, and of a step behind it: on so many nodes, whose
/// programs end with these codes, and of which one may open no unit from so many begun leaves on;
/// the nodes and slots of the leaves that begin, and its status.
#[derive(Clone, Copy)]
struct Row {
    strategy: Strategy,
    nodes: usize,
    keeps: bool,
    codes: [u32; 5],
    refused: u32,
    from: usize,
    begun: &'static [(u32, u32)],
    status: Status,
}

/// A run on two nodes whose programs all end well; there is no ninth node that is refused.
const WELL: Row = Row {
    strategy: Strategy::NodeFirst,
    nodes: 2,
    keeps: true,
    codes: [0; 5],
    refused: 9,
    from: 0,
    begun: &[(0, 0), (0, 2), (1, 0), (1, 2)],
    status: Status::Succeeded,
};

const ROWS: [Row; 9] = [
    WELL,
    // A handler makes a step good where that is kept, and does not where it is not.
    Row {
        nodes: 1,
        codes: [1, 0, 0, 0, 0],
        begun: &[(0, 0), (0, 1), (0, 2)],
        ..WELL
    },
    Row {
        keeps: false,
        codes: [1, 0, 0, 0, 0],
        begun: &[(0, 0), (0, 1)],
        status: Status::Failed,
        ..WELL
    },
    // Each step on all nodes, and each node by itself.
    Row {
        strategy: Strategy::Sequential,
        codes: [0, 1, 0, 0, 0],
        begun: &[(0, 0), (1, 0), (1, 1), (0, 2), (1, 2)],
        ..WELL
    },
    Row {
        keeps: false,
        codes: [0, 0, 0, 3, 0],
        status: Status::Failed,
        ..WELL
    },
    // Node by node: the nodes behind one that is withdrawn go on, and one that is opened goes on to
    // its end.
    Row {
        nodes: 3,
        refused: 1,
        begun: &[(0, 0), (0, 2), (2, 0), (2, 2)],
        status: Status::Failed,
        ..WELL
    },
    Row {
        refused: 0,
        from: 1,
        ..WELL
    },
    // Step by step: a node that ran the first step runs no second.
    Row {
        strategy: Strategy::Sequential,
        refused: 0,
        from: 2,
        begun: &[(0, 0), (1, 0), (1, 2)],
        status: Status::Failed,
        ..WELL
    },
    Row {
        strategy: Strategy::Parallel,
        refused: 0,
        begun: &[(1, 0), (1, 2)],
        status: Status::Failed,
        ..WELL
    },
];

fn steps(alloc: Global, keeps: bool) -> Result<Vec<Step>, NoMemory> {
    let mut steps = Vec::new(alloc);
    steps.push(Step {
        act: Act::Slot(0),
        handler: Some(1),
        keep_on_success: keeps,
    })?;
    steps.push(Step {
        act: Act::Slot(2),
        handler: None,
        keep_on_success: false,
    })?;
    Ok(steps)
}

fn plan(alloc: Global, row: &Row) -> Result<Plan, NoMemory> {
    let mut tiers = Vec::new(alloc);
    tiers.resize(row.nodes, 0)?;
    Ok(Plan {
        strategy: row.strategy,
        tiers: Items::of(tiers),
        seq: Seq {
            keepgoing: false,
            steps: steps(alloc, row.keeps)?,
        },
        slots: 3,
        keep_nodes: false,
        bound: 1,
    })
}

/// A run of a copy of the plan.
fn open(rt: &impl Abort, alloc: Global, row: &Row) -> Result<Flow, NoMemory>
    ensures { IfOk result (λ flow. flow.marks ≡ []) }
{
    let plan = plan(alloc, row)?.copy(alloc)?;
    assert!(rt; plan.is_sound());
    Flow::open(alloc, plan)
}

/// The leaves that one worker begins; the node that may open no unit is withdrawn.
fn play(alloc: Global, flow: &mut Flow, row: &Row) -> Result<Vec<(u32, u32)>, NoMemory>
    ensures { flow.new.plan ≡ flow.old.plan }
{
    let mut begun = Vec::new(alloc);
    for code in &row.codes {
        flow.ready()?;
        let Some(leaf) = flow.first_startable() else {
            return Ok(begun);
        };
        if flow.opens(leaf) && leaf.node == row.refused && begun.len() >= row.from {
            flow.withdraw(leaf.node);
        } else {
            begun.push((leaf.node, leaf.slot))?;
            flow.begin(leaf);
            flow.finish(leaf, Ending::Code(*code));
        }
    }
    Ok(begun)
}

#[test]
fn runs_of_one_worker_go_as_worked(rt: HostRuntime) -> Result<(), Fail> {
    for row in &ROWS {
        let mut flow = open(&rt, rt.alloc(), row)?;
        let begun = play(rt.alloc(), &mut flow, row)?;
        assert_eq!(rt; begun.as_slice(), row.begun);
        assert_eq!(rt; flow.status(), row.status);
    }
    Ok(())
}
