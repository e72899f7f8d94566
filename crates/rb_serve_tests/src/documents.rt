//! The documents of the servers.

/// A caller, one project with a job, and a policy file.
pub(crate) const DESK: &str = "\
owner: root
owner-groups: [admin]
tokens:
- token: t-ann
  user: ann
  groups: [ops]
projects:
- name: desk
  nodes: nodes.yaml
  jobs: [jobs.yaml]
policies: [admin.aclpolicy, ops.aclpolicy]
";

/// The group admin may do everything.
pub(crate) const ADMIN: &str = "\
context:
  project: '.*'
for:
  resource:
    - allow: '*'
  job:
    - allow: '*'
  node:
    - allow: '*'
by:
  group: admin
---
context:
  application: 'rundeck'
for:
  resource:
    - allow: '*'
by:
  group: admin
";

/// The group ops runs the jobs under ops on web nodes, but for web2.
pub(crate) const OPS: &str = "\
context:
  project: desk
for:
  job:
    - match:
        group: ops(/.*)?
      allow: [read, run]
  node:
    - contains:
        tags: web
      allow: [read, run]
    - equals:
        nodename: web2
      deny: run
by:
  group: ops
";

/// Four nodes.
pub(crate) const NODES: &str = "\
web1:
  tags: web
web2:
  tags: web
web3:
  tags: web
db1:
  tags: db
";

/// One job, which runs on web nodes, two at a time, and may run beside itself.
pub(crate) const JOBS: &str = "\
- name: greet
  group: ops
  id: greet
  multipleExecutions: true
  nodefilters:
    dispatch: {threadcount: 2}
    filter: 'tags: web'
  sequence:
    commands:
    - exec: echo ${node.name}
";

/// One run of the job, as ann.
pub(crate) const RUN: &str = "POST /api/34/job/greet/run HTTP/1.1\r\n\
X-Rundeck-Auth-Token: t-ann\r\nContent-Length: 0\r\nConnection: close\r\n\r\n";

/// A look at the jobs, as ann.
pub(crate) const LOOK: &str = "GET /api/34/project/desk/jobs HTTP/1.1\r\n\
X-Rundeck-Auth-Token: t-ann\r\nConnection: close\r\n\r\n";

/// One run of the job, as ann, whose connection stays.
pub(crate) const RUN_ON: &str = "POST /api/34/job/greet/run HTTP/1.1\r\n\
X-Rundeck-Auth-Token: t-ann\r\nContent-Length: 0\r\n\r\n";
