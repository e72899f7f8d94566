//! What a chain asks for, outcome by outcome.
use crate::showing::show_job;
use rb_causes::NoMemory;
use rb_chain::{Chain, ChainErr, ChainNext, ChainRun, read_chain};
use rb_yaml::{YamlErr, read_docs};
use std::alloc::{AllocError, Global};
use std::test::Fail;

/// Four runs, of which the second has no undo.
const RUNS: &str = "runs:
- job: a
  args: -n 1
  undo: {job: back-a, args: -n 2}
- job: b
- job: c
  undo: {job: back-c}
- job: d
  undo: {job: back-d}
";

fn runs_of(alloc: Global, text: &str) -> Result<Vec<ChainRun>, NoMemory> {
    match read_docs(alloc, text.as_bytes()) {
        Ok(docs) => match read_chain(alloc, docs.as_slice()) {
            Ok(runs) => Ok(runs),
            Err(ChainErr::Fault(_)) => Ok(Vec::new(alloc)),
            Err(ChainErr::NoMemory) => Err(NoMemory),
        },
        Err(YamlErr::Fault(_)) => Ok(Vec::new(alloc)),
        Err(YamlErr::NoMemory) => Err(NoMemory),
    }
}

/// Adds what is asked for, and notes how it went; whether the chain went on.
fn note(
    alloc: Global,
    out: &mut String,
    chain: &mut Chain,
    good: bool,
) -> Result<bool, AllocError> {
    match chain.next() {
        ChainNext::Ask { run, undoing } => {
            let mark = if undoing { "undo" } else { "run" };
            let head = format!(in alloc; "{mark} {run} ")?;
            out.push_str(head.as_str())?;
            match chain.ask(alloc) {
                Ok(ask) => show_job(out, &ask.job, &ask.given)?,
                Err(_) => return Err(AllocError),
            }
            out.push(';')?;
            chain.outcome(good);
            Ok(true)
        }
        ChainNext::Over { good: _ } => Ok(false),
    }
}

fn ending(next: ChainNext) -> &'static str {
    match next {
        ChainNext::Ask { run: _, undoing: _ } => "goes on",
        ChainNext::Over { good } => { if good { "well" } else { "ill" } }
    }
}

/// What is asked for with these outcomes, of which a `+` is a good one, and how that ends.
fn followed(alloc: Global, text: &str, outcomes: &str) -> Result<String, AllocError> {
    let mut out = String::new(alloc);
    let Ok(runs) = runs_of(alloc, text) else {
        return Err(AllocError);
    };
    let Ok(mut chain) = Chain::open(alloc, runs) else {
        return Err(AllocError);
    };
    for outcome in outcomes.as_bytes() {
        if !note(alloc, &mut out, &mut chain, *outcome == b'+')? {
            out.push_str("past ")?;
        }
    }
    out.push_str(ending(chain.next()))?;
    Ok(out)
}

/// Outcomes, and what is asked for with them.
const TABLE: [(&str, &str); 9] = [
    ("", "goes on"),
    ("+", "run 0 a n=1;goes on"),
    ("++++", "run 0 a n=1;run 1 b;run 2 c;run 3 d;well"),
    ("-", "run 0 a n=1;ill"),
    ("+-", "run 0 a n=1;run 1 b;goes on"),
    ("+-+", "run 0 a n=1;run 1 b;undo 0 back-a n=2;ill"),
    ("+++-", "run 0 a n=1;run 1 b;run 2 c;run 3 d;goes on"),
    (
        "+++-++",
        "run 0 a n=1;run 1 b;run 2 c;run 3 d;undo 2 back-c;undo 0 back-a n=2;ill",
    ),
    (
        "+++---+",
        "run 0 a n=1;run 1 b;run 2 c;run 3 d;undo 2 back-c;undo 0 back-a n=2;past ill",
    ),
];

#[test]
fn what_went_well_is_undone_in_reverse(rt: HostRuntime) -> Result<(), Fail> {
    for (outcomes, wanted) in &TABLE {
        let got = followed(rt.alloc(), RUNS, *outcomes)?;
        assert_eq!(rt; got.as_str(), *wanted, "{outcomes}");
    }
    assert_eq!(rt; followed(rt.alloc(), "", "")?.as_str(), "well", "no run");
    Ok(())
}
