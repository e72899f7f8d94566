//! Jobs.
use rb_causes::Text;
use rb_cron::{NamedZone, Zone};
use rb_export::{ExportErr, export_jobs};
use rb_job::read_jobs;
use rb_yaml::read_docs;
use std::alloc::Global;
use std::test::Fail;

/// Documents with the text that is exported of them.
const JOBS: [(&str, &str); 5] = [
    ("", ""),
    ("[]\n", ""),
    (
        "- name: hello\n  sequence:\n    commands:\n    - exec: echo hi\n",
        "- name: \"hello\"\n  sequence:\n    commands:\n      - exec: \"\\\"echo\\\" \\\"hi\\\"\"\n  nodefilters:\n    filter: \"localhost\"\n",
    ),
    (
        "- defaultTab: nodes\n  description: Restart\n  group: ops\n  id: 7b1f0c2a-0001\n  loglevel: INFO\n  name: restart\n  nodefilters:\n    dispatch:\n      excludePrecedence: true\n      threadcount: '1'\n    filter: 'tags: web'\n  options:\n  - enforced: true\n    name: mode\n    required: true\n    values:\n    - soft\n    - hard\n  plugins:\n    ExecutionLifecycle: null\n  schedules: []\n  sequence:\n    commands:\n    - exec: echo ${option.mode} ${node.name}\n    keepgoing: false\n    strategy: node-first\n  uuid: 7b1f0c2a-0001\n",
        "- id: \"7b1f0c2a-0001\"\n  name: \"restart\"\n  group: \"ops\"\n  sequence:\n    commands:\n      - exec: \"\\\"echo\\\" \\\"${option.mode}\\\" \\\"${node.name}\\\"\"\n  nodefilters:\n    filter: \"tags: web\"\n  options:\n    - name: \"mode\"\n      values:\n        - \"soft\"\n        - \"hard\"\n      enforced: \"true\"\n      required: \"true\"\n",
    ),
    (
        "- name: all\n  uuid: u-1\n  multipleExecutions: true\n  executionEnabled: false\n  scheduleEnabled: false\n  schedule: {crontab: 0 30 2 ? * SUN}\n  timeZone: UTC\n  orchestrator:\n    type: subset\n    configuration: {count: 2}\n  options:\n  - {name: hosts, value: '', regex: '[a-z]+', multivalued: true, delimiter: ';'}\n  nodefilters:\n    dispatch: {threadcount: 4, keepgoing: true, excludePrecedence: false, rankAttribute: os, rankOrder: descending, successOnEmptyNodeFilter: true}\n    filter: .*\n  sequence:\n    strategy: step-first\n    keepgoing: true\n    commands:\n    - exec: a 'b \"c\"' d\\e ''\n      errorhandler: {script: \"x\\ty\", args: p q, keepgoingOnSuccess: true}\n    - script: |\n        one\n        two\n    - jobref: {name: probe, group: ops, args: -port 443, nodeStep: true}\n",
        "- id: \"u-1\"\n  name: \"all\"\n  sequence:\n    keepgoing: \"true\"\n    strategy: \"sequential\"\n    commands:\n      - exec: \"\\\"a\\\" \\\"b \\\\\\\"c\\\\\\\"\\\" \\\"d\\\\\\\\e\\\" \\\"\\\"\"\n        errorhandler:\n          script: \"x\\ty\"\n          args: \"\\\"p\\\" \\\"q\\\"\"\n          keepgoingOnSuccess: \"true\"\n      - script: \"one\\ntwo\\n\"\n      - jobref:\n          name: \"probe\"\n          group: \"ops\"\n          args: \"\\\"-port\\\" \\\"443\\\"\"\n          nodeStep: \"true\"\n  nodefilters:\n    filter: \".*\"\n    dispatch:\n      threadcount: \"4\"\n      keepgoing: \"true\"\n      excludePrecedence: \"false\"\n      rankAttribute: \"os\"\n      rankOrder: \"descending\"\n      successOnEmptyNodeFilter: \"true\"\n  options:\n    - name: \"hosts\"\n      value: \"\"\n      regex: \"[a-z]+\"\n      multivalued: \"true\"\n      delimiter: \";\"\n  orchestrator:\n    type: \"subset\"\n    configuration:\n      count: \"2\"\n  schedule:\n    crontab: \"0 30 2 ? * SUN *\"\n  multipleExecutions: \"true\"\n  executionEnabled: \"false\"\n  scheduleEnabled: \"false\"\n",
    ),
];

/// A zone that is not UTC.
fn zones(alloc: Global) -> Option<Vec<NamedZone>> {
    let rule = "EST5";
    let mut zones = Vec::new(alloc);
    zones
        .push(NamedZone {
            name: Text::of(alloc, "EST").ok()?,
            rule: Text::of(alloc, rule).ok()?,
            zone: Zone::read(alloc, rule).ok()?,
        })
        .ok()?;
    Some(zones)
}

/// What is exported of the jobs of a text, where they are read.
fn exported(alloc: Global, text: &[u8]) -> Option<Result<Vec<u8>, ExportErr>> {
    let docs = read_docs(alloc, text).ok()?;
    let zones = zones(alloc)?;
    let jobs = read_jobs(alloc, docs.as_slice(), zones.as_slice()).ok()?;
    if jobs.len() >= 0x1_0000_0000 {
        return None;
    }
    Some(export_jobs(alloc, jobs.as_slice()))
}

fn text_of(alloc: Global, text: &[u8]) -> Vec<u8> {
    match exported(alloc, text) {
        Some(Ok(text)) => text,
        Some(Err(_)) => Vec::new(alloc),
        None => Vec::new(alloc),
    }
}

#[test]
fn jobs_have_one_text_from_which_they_are_read_again(rt: HostRuntime) -> Result<(), Fail> {
    for (written, wanted) in &JOBS {
        let once = text_of(rt.alloc(), written.as_bytes());
        assert_eq!(rt; once.as_slice(), wanted.as_bytes(), "{written}");
        let twice = text_of(rt.alloc(), once.as_slice());
        assert_eq!(rt; twice.as_slice(), wanted.as_bytes(), "{written}");
    }
    Ok(())
}

#[test]
fn the_first_job_of_another_zone_is_told(rt: HostRuntime) -> Result<(), Fail> {
    let text = "- name: a\n  timeZone: EST\n  sequence:\n    commands:\n    - exec: x\n\
- name: b\n  timeZone: EST\n  schedule: {crontab: 0 0 0 1 1 ?}\n  sequence:\n    commands:\n    - exec: x\n";
    let told = exported(rt.alloc(), text.as_bytes());
    assert!(rt; matches!(told, Some(Err(ExportErr::OtherZone(2)))));
    Ok(())
}
