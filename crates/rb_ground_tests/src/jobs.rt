//! The jobs of short documents.
use rb_causes::{NoMemory, Prop, Text};
use rb_cron::{Fields, NamedZone, Schedule, Zone, ZoneErr};
use rb_job::{Job, JobAct, JobStep, Orchestrator, Strategy, read_jobs, same_job};
use rb_option::OptionDef;
use rb_yaml::read_docs;
use std::alloc::{AllocError, Global};
use std::test::Fail;

/// Zones that are known: one of middle Europe, and one that is called UTC and is never used.
const ZONES: [(&str, &str); 2] = [("CET", "CET-1CEST,M3.5.0,M10.5.0/3"), ("UTC", "EST5")];

fn zone_of(alloc: Global, rule: &str) -> Result<Zone, NoMemory> {
    match Zone::read(alloc, rule) {
        Ok(zone) => Ok(zone),
        Err(ZoneErr::BadZone) => Err(NoMemory),
        Err(ZoneErr::NoMemory) => Err(NoMemory),
    }
}

fn zones(alloc: Global) -> Result<Vec<NamedZone>, NoMemory> {
    let mut zones = Vec::new(alloc);
    for (name, rule) in &ZONES {
        zones.push(NamedZone {
            name: Text::of(alloc, *name)?,
            rule: Text::of(alloc, *rule)?,
            zone: zone_of(alloc, *rule)?,
        })?;
    }
    Ok(zones)
}

/// A job with a step, and these lines of its map.
fn with_step(alloc: Global, lines: &str) -> Result<String, AllocError> {
    format!(in alloc; "- name: a\n  sequence:\n    commands:\n    - exec: x\n{lines}\n")
}

fn push_bool(out: &mut String, name: &str, value: bool) -> Result<(), AllocError> {
    if value {
        out.push(' ')?;
        out.push_str(name)?;
    }
    Ok(())
}

fn push_texts(out: &mut String, texts: &[Text]) -> Result<(), AllocError> {
    for text in texts {
        out.push('[')?;
        out.push_str(text.as_str())?;
        out.push(']')?;
    }
    Ok(())
}

fn push_pairs(out: &mut String, pairs: &[Prop]) -> Result<(), AllocError> {
    for pair in pairs {
        out.push('[')?;
        out.push_str(pair.key.as_str())?;
        out.push('=')?;
        out.push_str(pair.text.as_str())?;
        out.push(']')?;
    }
    Ok(())
}

fn push_act(out: &mut String, act: &JobAct) -> Result<(), AllocError> {
    match act {
        JobAct::Exec(words) => push_texts(out, words.as_slice()),
        JobAct::Script { text, args } => {
            out.push_str("script ")?;
            out.push_str(text.as_str())?;
            push_texts(out, args.as_slice())
        }
        JobAct::Refer { group, name, args } => {
            out.push_str(group.as_str())?;
            out.push('/')?;
            out.push_str(name.as_str())?;
            push_pairs(out, args.as_slice())
        }
    }
}

fn push_step(out: &mut String, step: &JobStep) -> Result<(), AllocError> {
    push_act(out, &step.act)?;
    if let Some(handler) = &step.handler {
        out.push_str(" else ")?;
        push_act(out, handler)?;
    }
    push_bool(out, "keep", step.keep_on_success)?;
    out.push(';')
}

fn push_optional(out: &mut String, text: &Option<Text>) -> Result<(), AllocError> {
    match text {
        None => out.push('-'),
        Some(text) => {
            out.push('\'')?;
            out.push_str(text.as_str())?;
            out.push('\'')
        }
    }
}

fn push_option(out: &mut String, option: &OptionDef) -> Result<(), AllocError> {
    out.push_str(option.name.as_str())?;
    push_optional(out, &option.default)?;
    push_texts(out, option.values.as_slice())?;
    push_bool(out, "enforced", option.enforced)?;
    push_bool(out, "required", option.required)?;
    if let Some(pattern) = &option.pattern {
        out.push('~')?;
        out.push_str(pattern.text())?;
    }
    push_bool(out, "multivalued", option.multivalued)?;
    out.push_str(option.delimiter.as_str())?;
    out.push(';')
}

fn strategy_text(strategy: Strategy) -> &'static str {
    match strategy {
        Strategy::NodeFirst => "node-first",
        Strategy::Sequential => "sequential",
        Strategy::Parallel => "parallel",
    }
}

fn orchestrator_text(alloc: Global, orchestrator: Orchestrator) -> Result<String, AllocError> {
    match orchestrator {
        Orchestrator::Plain => String::from_str(alloc, "plain"),
        Orchestrator::Subset(count) => format!(in alloc; "subset {count}"),
        Orchestrator::RankTiered => String::from_str(alloc, "tiered"),
        Orchestrator::MaxPercentage(percent) => format!(in alloc; "percent {percent}"),
    }
}

fn push_fields(out: &mut String, fields: &Fields) -> Result<(), AllocError> {
    push_text(out, &fields.seconds)?;
    push_text(out, &fields.minute)?;
    push_text(out, &fields.hour)?;
    push_text(out, &fields.day)?;
    push_text(out, &fields.month)?;
    push_text(out, &fields.weekday)?;
    push_text(out, &fields.year)
}

fn push_text(out: &mut String, text: &Text) -> Result<(), AllocError> {
    out.push(' ')?;
    out.push_str(text.as_str())
}

fn push_schedule(out: &mut String, schedule: &Option<Schedule>) -> Result<(), AllocError> {
    if let Some(schedule) = schedule {
        out.push_str(" at")?;
        push_fields(out, schedule.source())?;
        out.push_str(" in ")?;
        out.push_str(schedule.rule())?;
    }
    Ok(())
}

fn show_job(alloc: Global, job: &Job) -> Result<String, AllocError> {
    let mut out = String::new(alloc);
    push_optional(&mut out, &job.id)?;
    out.push_str(job.group.as_str())?;
    out.push('/')?;
    out.push_str(job.name.as_str())?;
    out.push('|')?;
    out.push_str(strategy_text(job.strategy))?;
    push_bool(&mut out, "keepgoing", job.keepgoing)?;
    out.push('|')?;
    for step in job.steps.as_slice() {
        push_step(&mut out, step)?;
    }
    out.push('|')?;
    for option in job.options.as_slice() {
        push_option(&mut out, option)?;
    }
    out.push_str(format!(in alloc; "|{}|{}", job.filter.text(), job.threads)?.as_str())?;
    push_bool(&mut out, "keep", job.keep_nodes)?;
    push_bool(&mut out, "exclude", job.exclude_first)?;
    push_bool(&mut out, "empty", job.success_on_empty)?;
    push_optional(&mut out, &job.rank_by)?;
    push_bool(&mut out, "down", job.rank_down)?;
    out.push('|')?;
    out.push_str(orchestrator_text(alloc, job.orchestrator)?.as_str())?;
    push_schedule(&mut out, &job.schedule)?;
    push_bool(&mut out, "multiple", job.multiple)?;
    push_bool(&mut out, "enabled", job.enabled)?;
    push_bool(&mut out, "scheduled", job.schedule_enabled)?;
    Ok(out)
}

/// The first job of a text.
fn first_job(alloc: Global, text: &str) -> Result<Option<Job>, Fail> {
    let docs = read_docs(alloc, text.as_bytes())?;
    let zones = zones(alloc)?;
    match read_jobs(alloc, docs.as_slice(), zones.as_slice()) {
        Ok(mut jobs) => Ok(jobs.pop()),
        Err(_error) => Ok(None),
    }
}

/// Texts of one job, and what it has.
const JOBS: [(&str, &str); 5] = [
    (
        "- name: restart\n  group: ops\n  sequence:\n    commands:\n    - exec: echo hi\n",
        "-ops/restart|node-first|[echo][hi];||localhost|1 exclude-|plain enabled scheduled",
    ),
    (
        "- uuid: u\n  name: a\n  group: b/c\n  sequence:\n    keepgoing: true\n    strategy: step-first\n    commands:\n    - script: s\n      args: d 'e'\n      errorhandler:\n        exec: f\n        keepgoingOnSuccess: true\n    - jobref: {group: g, name: h, args: '-i j -k l', nodeStep: true}\n  nodefilters:\n    filter: 'tags: web'\n    dispatch:\n      threadcount: '3'\n      keepgoing: true\n      excludePrecedence: false\n      rankAttribute: rack\n      rankOrder: descending\n      successOnEmptyNodeFilter: true\n  orchestrator:\n    type: subset\n    configuration: {count: 2}\n  multipleExecutions: true\n  executionEnabled: false\n  scheduleEnabled: false\n  options:\n  - {name: m}\n  - name: n\n    value: o\n    values: [o, p]\n    enforced: true\n    required: true\n    regex: '[op]'\n    multivalued: true\n    delimiter: ';'",
        "'u'b/c/a|sequential keepgoing|script s[d][e] else [f] keep;g/h[i=j][k=l];|m-,;n'o'[o][p] enforced required~[op] multivalued;;|tags: web|3 keep empty'rack' down|subset 2 multiple",
    ),
    (
        "- id: u\n  name: a\n  sequence:\n    strategy: parallel\n    commands:\n    - exec: b\n  orchestrator:\n    type: maxPercentage\n    configuration: {percent: 100}",
        "'u'/a|parallel|[b];||localhost|1 exclude-|percent 100 enabled scheduled",
    ),
    (
        "- name: a\n  sequence:\n    commands:\n    - exec: b\n  schedule: {crontab: 0 30 2 ? * SUN}\n  timeZone: CET",
        "-/a|node-first|[b];||localhost|1 exclude-|plain at 0 30 2 ? * SUN * in CET-1CEST,M3.5.0,M10.5.0/3 enabled scheduled",
    ),
    (
        "- name: a\n  timeZone: UTC\n  sequence:\n    commands:\n    - exec: b\n  schedule:\n    month: 1/3\n    weekday: {day: 2-6}\n    time: {hour: 8-18/2, minute: '15'}",
        "-/a|node-first|[b];||localhost|1 exclude-|plain at 0 15 8-18/2 * 1/3 2-6 * in UTC enabled scheduled",
    ),
];

#[test]
fn a_job_has_what_its_document_says(rt: HostRuntime) -> Result<(), Fail> {
    for (text, wanted) in &JOBS {
        let job = first_job(rt.alloc(), *text)?;
        assert!(rt; job.is_some(), "{text}");
        if let Some(job) = &job {
            assert_eq!(rt; show_job(rt.alloc(), job)?.as_str(), *wanted, "{text}");
        }
    }
    Ok(())
}

/// Whether the first jobs of two texts are the same.
fn are_same(alloc: Global, a: &str, b: &str) -> Result<bool, Fail> {
    let Some(a) = first_job(alloc, a)? else {
        return Ok(false);
    };
    let Some(b) = first_job(alloc, b)? else {
        return Ok(false);
    };
    Ok(same_job(&a, &b))
}

/// Lines of a job, those of another one, and whether both are the same.
const SAME: [(&str, &str, bool); 8] = [
    (
        "  group: g\n  options:\n  - {name: n, regex: a}\n  nodefilters: {filter: b}",
        "  group: g\n  options:\n  - {name: n, regex: a}\n  nodefilters: {filter: b}",
        true,
    ),
    (
        "  group: g\n  options:\n  - {name: n, regex: a}\n  nodefilters: {filter: b}",
        "  options:\n  - {regex: a, name: n, label: x}\n  nodefilters: {filter: b}\n  group: 'g'\n  description: d",
        true,
    ),
    (
        "  group: g\n  options:\n  - {name: n, regex: a}\n  nodefilters: {filter: b}",
        "  group: g\n  options:\n  - {name: n, regex: c}\n  nodefilters: {filter: b}",
        false,
    ),
    (
        "  group: g\n  options:\n  - {name: n, regex: a}\n  nodefilters: {filter: b}",
        "  group: g\n  id: i\n  options:\n  - {name: n, regex: a}\n  nodefilters: {filter: b}",
        false,
    ),
    (
        "  schedule: {crontab: 0 0 7 * * ?}",
        "  schedule:\n    time: {hour: 7}\n    weekday: {day: '?'}\n  timeZone: UTC",
        true,
    ),
    (
        "  schedule: {crontab: 0 0 7 * * ?}",
        "  schedule: {crontab: 0 0 7 * * *}",
        false,
    ),
    (
        "  schedule: {crontab: 0 0 7 * * ?}",
        "  schedule: {crontab: 0 0 7 * * ?}\n  timeZone: CET",
        false,
    ),
    ("  timeZone: CET", "  timeZone: UTC", true),
];

#[test]
fn jobs_are_the_same_by_what_was_read(rt: HostRuntime) -> Result<(), Fail> {
    let alloc = rt.alloc();
    for (lines, others, wanted) in &SAME {
        let first = with_step(alloc, *lines)?;
        let second = with_step(alloc, *others)?;
        let same = are_same(alloc, first.as_str(), second.as_str())?;
        assert_eq!(rt; same, *wanted, "{others}");
    }
    Ok(())
}
