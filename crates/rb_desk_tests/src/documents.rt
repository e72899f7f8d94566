//! Documents for tests, by name.

const OPS: &str = "\
context:
  project: desk
for:
  job:
    - match:
        group: ops(/.*)?
      allow: [read, run, kill]
  node:
    - contains:
        tags: web
      allow: [read, run]
    - equals:
        nodename: web2
      deny: run
by:
  group: ops
";

const OPS_AND_LISTS: &str = "\
context:
  project: desk
for:
  resource:
    - equals:
        kind: node
      allow: read
  job:
    - allow: [read, run, kill]
  node:
    - contains:
        tags: web
      allow: [read, run]
by:
  group: ops
";

const JOBS_ALONE: &str = "\
context:
  project: desk
for:
  job:
    - allow: [read, run, create, update]
by:
  group: ops
";

const CREATORS: &str = "\
context:
  project: desk
for:
  resource:
    - equals:
        kind: job
      allow: create
  job:
    - allow: [read, run, update]
by:
  group: ops
";

const ADMIN: &str = "\
context:
  application: rundeck
for:
  resource:
    - equals:
        kind: system_acl
      allow: [create, update]
by:
  group: ops
";

/// The same, with another node denied.
const OPS_NOT_WEB3: &str = "\
context:
  project: desk
for:
  job:
    - match:
        group: ops(/.*)?
      allow: [read, run, kill]
  node:
    - contains:
        tags: web
      allow: [read, run]
    - equals:
        nodename: web3
      deny: run
by:
  group: ops
";

/// The same, with the first node denied.
const OPS_NOT_WEB1: &str = "\
context:
  project: desk
for:
  job:
    - match:
        group: ops(/.*)?
      allow: [read, run, kill]
  node:
    - contains:
        tags: web
      allow: [read, run]
    - equals:
        nodename: web1
      deny: run
by:
  group: ops
";

const NODES: &str = "\
web1:
  tags: web,prod
web2:
  tags: [web, prod]
web3:
  tags: web
db1:
  tags: db
";

const TWO_NODES: &str = "web1:\n  tags: web\nweb2:\n  tags: web\n";

const RESTART: &str = "\
- name: restart
  group: ops
  id: 7b1f0c2a-0001
  nodefilters:
    filter: 'tags: web'
  options:
  - name: mode
    values: [soft, hard]
    enforced: true
    required: true
  sequence:
    commands:
    - exec: echo ${option.mode} ${node.name}
";

const RENAMED: &str = "\
- name: again
  group: ops
  id: 7b1f0c2a-0001
  nodefilters:
    filter: 'tags: web'
  sequence:
    commands:
    - exec: echo again
";

const REFERENCES: &str = "\
- name: outer
  group: ops
  id: outer
  nodefilters:
    filter: 'tags: web'
  sequence:
    commands:
    - jobref:
        name: restart
        group: ops
        args: -mode hard
        nodeStep: true
- name: loop
  group: ops
  id: loop
  nodefilters:
    filter: 'tags: web'
  sequence:
    commands:
    - jobref:
        name: loop
        group: ops
        nodeStep: true
";

const OTHERS: &str = "\
- name: first
  group: ops
  id: first
  nodefilters:
    dispatch:
      threadcount: '2'
    filter: 'tags: web'
  sequence:
    commands:
    - exec: first ${node.name}
- name: second
  group: ops
  id: second
  nodefilters:
    filter: 'name: web1'
  sequence:
    commands:
    - exec: second
    - exec: third
- name: empty
  group: ops
  id: empty
  nodefilters:
    dispatch:
      successOnEmptyNodeFilter: true
    filter: 'tags: web'
  sequence:
    commands:
    - exec: never
";

/// One job at each hour in UTC, and one at half past two in a zone.
const SCHEDULED: &str = "\
- name: hourly
  group: ops
  id: b
  nodefilters:
    filter: 'name: web1'
  sequence:
    commands:
    - exec: hourly ${job.username}
  schedule:
    crontab: '0 0 * * * ?'
- name: nightly
  group: ops
  id: a
  multipleExecutions: true
  nodefilters:
    filter: 'name: web1'
  sequence:
    commands:
    - exec: nightly
  schedule:
    time: {hour: '02', minute: '30', seconds: '0'}
    month: '*'
    year: '*'
    weekday: {day: '*'}
  timeZone: here
";

const TWICE: &str = "\
- name: one
  group: ops
  id: same
  nodefilters:
    filter: 'tags: web'
  sequence:
    commands:
    - exec: one
- name: two
  group: ops
  id: same
  nodefilters:
    filter: 'tags: web'
  sequence:
    commands:
    - exec: two
";

const NAMED_RESTART: &str = "\
- name: restart
  group: ops
  id: other
  nodefilters:
    filter: 'tags: web'
  sequence:
    commands:
    - exec: other
";

/// Jobs that are refused, each by the first of several rules, and plans of several kinds.
const PLANS: &str = "\
- name: worst
  id: worst
  group: ops
  executionEnabled: false
  nodefilters: {filter: 'tags: web'}
  options:
  - {name: mode, required: true}
  sequence:
    commands:
    - jobref: {group: dev, name: secret, nodeStep: true}
    - jobref: {group: ops, name: gone, nodeStep: true}
- name: denied
  id: denied
  group: ops
  executionEnabled: false
  nodefilters: {filter: 'tags: web'}
  options:
  - {name: mode, required: true}
  sequence:
    commands:
    - jobref: {group: ops, name: calls, nodeStep: true}
    - jobref: {group: dev, name: secret, nodeStep: true}
- name: secret
  id: secret
  group: dev
  sequence:
    commands:
    - exec: 'true'
- name: calls
  id: calls
  group: ops
  nodefilters: {filter: 'tags: web'}
  options:
  - {name: mode, required: true}
  - {name: code, value: x1, regex: '[0-9]+'}
  sequence:
    commands:
    - exec: echo own
    - jobref: {group: ops, name: restart, args: '-mode ${option.mode}', nodeStep: true}
- name: restart
  id: restart
  group: ops
  nodefilters: {filter: 'tags: web'}
  options:
  - name: mode
    values: [soft, hard]
    enforced: true
    required: true
  sequence:
    commands:
    - exec: echo ${option.mode} ${node.name}
- name: top
  id: top
  group: ops
  nodefilters: {filter: web1}
  options:
  - {name: mode, value: soft}
  sequence:
    commands:
    - exec: begin ${job.name}
    - jobref: {group: ops, name: middle, args: '-mode ${option.mode}er', nodeStep: true}
      errorhandler: {exec: 'tell ${job.execid} ${job.name}', keepgoingOnSuccess: true}
    - exec: end
- name: middle
  id: middle
  group: ops
  options:
  - {name: mode}
  sequence:
    commands:
    - jobref: {group: ops, name: low, args: '-text \"${job.name} ${option.mode}${job.execid}\"', nodeStep: true}
- name: low
  id: low
  group: ops
  options:
  - {name: text}
  sequence:
    commands:
    - exec: say ${option.text} ${job.name}
    - jobref: {group: ops, name: restart, args: -mode hard, nodeStep: true}
- name: tiered
  id: tiered
  group: ops
  nodefilters:
    filter: '!name: web2,db1'
    dispatch: {rankAttribute: rank, threadcount: 5}
  orchestrator: {type: rankTiered}
  sequence:
    commands:
    - exec: true ${node.name}
- name: partly
  id: partly
  group: ops
  nodefilters:
    filter: '!name: web2,db1'
    dispatch: {threadcount: 5}
  orchestrator:
    type: maxPercentage
    configuration: {percent: 25}
  sequence:
    commands:
    - exec: true ${node.name}
";

/// Three nodes of the web, two others, and one without anything.
const RANKED_NODES: &str = "\
web1:
  tags: web,prod
  rank: 10
web2:
  tags: [web, prod]
  rank: 1
web3:
  tags: web
  rank: x
db1:
  tags: db
db2:
  tags: 'db, prod'
  rank: 10
bare:
";

/// Whoever is of ops may run the jobs of ops, on all nodes but two.
const PLANS_POLICY: &str = "\
context:
  project: desk
for:
  job:
    - equals:
        group: ops
      allow: [read, run]
  node:
    - allow: [read, run]
    - equals:
        nodename: web2
      deny: run
    - equals:
        name: db1
      deny: read
by:
  group: ops
";

/// The document of this name; a name that none has is the document itself.
pub(crate) fn document<'a>(name: &'a str) -> &'a str {
    match name {
        "OPS" => OPS,
        "OPS-AND-LISTS" => OPS_AND_LISTS,
        "JOBS-ALONE" => JOBS_ALONE,
        "CREATORS" => CREATORS,
        "ADMIN" => ADMIN,
        "OPS-NOT-WEB3" => OPS_NOT_WEB3,
        "OPS-NOT-WEB1" => OPS_NOT_WEB1,
        "NODES" => NODES,
        "TWO-NODES" => TWO_NODES,
        "RESTART" => RESTART,
        "RENAMED" => RENAMED,
        "REFERENCES" => REFERENCES,
        "OTHERS" => OTHERS,
        "SCHEDULED" => SCHEDULED,
        "TWICE" => TWICE,
        "NAMED-RESTART" => NAMED_RESTART,
        "PLANS" => PLANS,
        "RANKED-NODES" => RANKED_NODES,
        "PLANS-POLICY" => PLANS_POLICY,
        other => other,
    }
}
