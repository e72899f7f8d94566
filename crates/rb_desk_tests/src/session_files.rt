//! The documents of the sessions.

/// Three callers, one project and two policy files.
pub(crate) const DESK: &str = "\
owner: root
owner-groups: [admin]
tokens:
- token: t-ann
  user: ann
  groups: [ops]
- {token: t-bob, user: bob}
- token: t-root
  user: root
  groups: [admin]
projects:
- name: desk
  nodes: nodes.yaml
policies: [admin.aclpolicy, ops.aclpolicy]
";

/// The group admin may do everything.
pub(crate) const ADMIN: &str = "\
description: Admin, all access.
context:
  project: '.*' # all projects
for:
  resource:
    - allow: '*'
  job:
    - allow: '*'
  node:
    - allow: '*'
by:
  group: admin
---
context:
  application: 'rundeck'
for:
  resource:
    - allow: '*'
by:
  group: admin
";

/// The group ops runs the jobs under ops on web nodes, but for web2.
pub(crate) const OPS: &str = "\
context:
  project: desk
for:
  job:
    - match:
        group: ops(/.*)?
      allow: [read, run, kill]
  node:
    - contains:
        tags: web
      allow: [read, run]
    - equals:
        nodename: web2
      deny: run
by:
  group: ops
";

/// Six nodes.
pub(crate) const NODES: &str = "\
web1:
  tags: web,prod
web2:
  tags: [web, prod]
web3:
  tags: web
db1:
  tags: db
db2:
  tags: 'db, prod'
bare:
";

/// One job, which runs on web nodes, one after the other.
pub(crate) const JOBS: &str = "\
- defaultTab: nodes
  description: Restart
  group: ops
  id: 7b1f0c2a-0001
  loglevel: INFO
  name: restart
  nodefilters:
    dispatch:
      excludePrecedence: true
      threadcount: '1'
    filter: 'tags: web'
  options:
  - enforced: true
    name: mode
    required: true
    values:
    - soft
    - hard
  plugins:
    ExecutionLifecycle: null
  schedules: []
  sequence:
    commands:
    - exec: echo ${option.mode} ${node.name}
    keepgoing: false
    strategy: node-first
  uuid: 7b1f0c2a-0001
";
