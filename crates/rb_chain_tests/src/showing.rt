//! Chains as texts.
use rb_causes::{Items, Prop, Text};
use rb_chain::{ChainErr, ChainKind, ChainRun, read_chain};
use rb_yaml::{YamlErr, read_docs};
use std::alloc::{AllocError, Global};

/// Adds a job and the values that it is given.
pub(crate) fn show_job(
    out: &mut String,
    job: &Text,
    given: &Items<Prop>,
) -> Result<(), AllocError> {
    out.push_str(job.as_str())?;
    for prop in given.as_slice() {
        out.push(' ')?;
        out.push_str(prop.key.as_str())?;
        out.push('=')?;
        out.push_str(prop.text.as_str())?;
    }
    Ok(())
}

fn show_run(out: &mut String, run: &ChainRun) -> Result<(), AllocError> {
    show_job(out, &run.job, &run.given)?;
    match &run.undo {
        None => {}
        Some(undo) => {
            out.push_str(" undo ")?;
            show_job(out, &undo.job, &undo.given)?;
        }
    }
    Ok(())
}

fn runs_shown(alloc: Global, runs: &[ChainRun]) -> Result<String, AllocError> {
    let mut out = String::new(alloc);
    for run in runs {
        show_run(&mut out, run)?;
        out.push(';')?;
    }
    Ok(out)
}

fn kind_text(kind: ChainKind) -> &'static str {
    match kind {
        ChainKind::BadShape => "BadShape",
        ChainKind::BadArgs => "BadArgs",
        ChainKind::TooMany => "TooMany",
    }
}

/// The runs of a text, or the first flaw.
pub(crate) fn shown(alloc: Global, text: &str) -> Result<String, AllocError> {
    match read_docs(alloc, text.as_bytes()) {
        Ok(docs) => match read_chain(alloc, docs.as_slice()) {
            Ok(runs) => runs_shown(alloc, runs.as_slice()),
            Err(ChainErr::Fault(fault)) => {
                format!(in alloc; "{}: {}", fault.run, kind_text(fault.kind))
            }
            Err(ChainErr::NoMemory) => String::from_str(alloc, "no memory"),
        },
        Err(YamlErr::Fault(fault)) => format!(in alloc; "yaml {}", fault.line),
        Err(YamlErr::NoMemory) => String::from_str(alloc, "no memory"),
    }
}
