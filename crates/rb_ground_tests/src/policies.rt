//! Policy documents, with what they decide.
ghost use Rattle.rb_acl.specs.Naming.{IsNamed};
ghost use Rattle.rb_acl.specs.Numbering.{AreNumbered};
ghost use Rattle.std.specs.Prelude.{IfOk, IfSome};

use rb_acl::{Caller, CallerIndex, Context, Decision, Policies, Resource, clause_text, decide};
use rb_acl_doc::read_policies;
use rb_causes::{Items, NoMemory, Prop, Text, comma_items};
use rb_yaml::read_docs;
use std::alloc::Global;
use std::process::Abort;
use std::slice;
use std::test::Fail;

/// What the operators of one project may do.
const OPS: &str = "context:
  project: desk
for:
  job:
    - match:
        group: ops(/.*)?
      allow: [read, run, kill]
  node:
    - contains:
        tags: web
      allow: [read, run]
    - equals:
        nodename: web2
      deny: run
by:
  group: ops
";

/// As the manual of Rundeck 3 writes a policy for administrators.
const MANUAL: &str = "description: Admin project level access control. Applies to resources within \
a specific project.
context:
  project: '.*' # all projects
for:
  resource:
    - equals:
        kind: job
      allow: [create] # allow create jobs
    - equals:
        kind: node
      allow: [read,create,update,refresh] # allow refresh node sources
  adhoc:
    - allow: [read,run,runAs,kill,killAs] # allow running/killing adhoc jobs
  job:
    - allow: [create,read,update,delete,run,runAs,kill,killAs]
  node:
    - allow: [read,run] # allow read/run for nodes
by:
  group: admin

---

description: Admin Application level access control, applies to creating/deleting projects.
context:
  application: 'rundeck'
for:
  resource:
    - equals:
        kind: system_acl
      allow: [read,create,update,delete,admin] # allow modifying system ACL files
  project:
    - match:
        name: '.*'
      allow: [read,import,export,configure,delete,admin]
by:
  group: admin
";

/// A policy for one user and one group, with each kind of test.
const TESTS: &str = "context: {project: 'desk|dock'}
for:
  node:
    - match: {os: 'lin.*'}
      equals: {rack: r1}
      contains:
        tags: [web, prod]
      subset:
        tags: [web, prod, db]
      allow: run
  job:
    - deny: [run, read]
    - allow: '*'
by:
  username: ann
  group: op.*
";

/// Files, questions (user, group, project or none, type, action, tags), and what is told. Each node
/// has the name web2, the system linux and the rack r1; all else that is asked for is of kind job.
const ASKED: [(&str, [&str; 6], &str); 11] = [
    (
        OPS,
        ["ann", "ops", "desk", "node", "read", "web"],
        "allowed by x.aclpolicy#1 for node rule 1",
    ),
    (
        OPS,
        ["ann", "ops", "desk", "node", "run", "web"],
        "denied by x.aclpolicy#1 for node rule 2",
    ),
    (
        OPS,
        ["ann", "ops", "desk", "node", "read", "db"],
        "denied, none allows",
    ),
    (
        OPS,
        ["bob", "dev", "desk", "node", "read", "web"],
        "denied, none allows",
    ),
    (
        OPS,
        ["ann", "ops", "dock", "node", "read", "web"],
        "denied, none allows",
    ),
    (
        TESTS,
        ["ann", "-", "dock", "node", "run", "web,prod"],
        "allowed by x.aclpolicy#1 for node rule 1",
    ),
    (
        TESTS,
        ["bob", "ops", "desk", "node", "run", "web,prod,x"],
        "denied, none allows",
    ),
    (
        TESTS,
        ["bob", "ops", "desk", "job", "read", ""],
        "denied by x.aclpolicy#1 for job rule 1",
    ),
    (
        TESTS,
        ["bob", "ops", "desk", "job", "kill", ""],
        "allowed by x.aclpolicy#1 for job rule 2",
    ),
    (
        MANUAL,
        ["root", "admin", "desk", "resource", "create", ""],
        "allowed by x.aclpolicy#1 for resource rule 1",
    ),
    (
        MANUAL,
        ["root", "admin", "", "resource", "create", ""],
        "denied, none allows",
    ),
];

fn one(alloc: Global, text: &str) -> Result<Items<Text>, NoMemory> {
    let mut items = Items::new(alloc);
    items.push(Text::of(alloc, text)?)?;
    Ok(items)
}

fn prop(alloc: Global, key: &str, text: &str) -> Result<Prop, NoMemory> {
    let key = Text::of(alloc, key)?;
    let text = Text::of(alloc, text)?;
    Ok(Prop { key, text })
}

fn context_of(alloc: Global, project: &str) -> Result<Context, NoMemory> {
    if project.is_empty() {
        return Ok(Context::Application);
    }
    Ok(Context::Project(Text::of(alloc, project)?))
}

fn resource_of(alloc: Global, type_name: &str, tags: &str) -> Result<Resource, NoMemory> {
    let mut props = Items::new(alloc);
    props.push(prop(alloc, "nodename", "web2")?)?;
    props.push(prop(alloc, "os", "linux")?)?;
    props.push(prop(alloc, "rack", "r1")?)?;
    props.push(prop(alloc, "kind", "job")?)?;
    Ok(Resource {
        type_name: Text::of(alloc, type_name)?,
        props,
        tags: Items::of(comma_items(alloc, tags)?),
    })
}

/// The policies of a text, where it is read.
fn policies_of(alloc: Global, text: &str) -> Option<Policies>
    ensures { IfSome result AreNumbered }
{
    let docs = read_docs(alloc, text.as_bytes()).ok()?;
    if docs.len() >= 0x1_0000_0000 {
        return None;
    }
    let docs = Items::of(read_policies(alloc, "x.aclpolicy", docs.as_slice()).ok()?);
    let policies = Policies { docs };
    if policies.are_numbered() {
        return Some(policies);
    }
    None
}

/// The decision on a question, which an index for its caller, context and type gives too.
fn decision(
    rt: &impl Abort,
    alloc: Global,
    policies: &Policies,
    asked: &[&str; 6],
) -> Result<Decision, NoMemory>
    requires { AreNumbered policies.now }
    ensures { IfOk result (IsNamed policies.now) }
{
    let [user, group, project, type_name, action, tags] = asked;
    let caller = Caller {
        user: Text::of(alloc, *user)?,
        groups: one(alloc, *group)?,
    };
    let context = context_of(alloc, *project)?;
    let resource = resource_of(alloc, *type_name, *tags)?;
    let index = CallerIndex::build(
        alloc,
        policies,
        &caller,
        &context,
        resource.type_name.as_str(),
    )?;
    let indexed = index.decide(alloc, policies, &resource, *action)?;
    let decided = decide(alloc, policies, &caller, &context, &resource, *action)?;
    assert_eq!(rt; indexed, decided, "the index of {user}");
    let each = index.decide_each(alloc, policies, slice::from_ref(&resource), *action)?;
    assert_eq!(rt;
        each.as_slice(),
        &[decided][..],
        "of each, the index of {user}"
    );
    Ok(decided)
}

/// The decision on a question by a file, as it is told.
fn told(rt: &impl Abort, alloc: Global, file: &str, asked: &[&str; 6]) -> Result<String, Fail> {
    let Some(policies) = policies_of(alloc, file) else {
        return Ok(String::from_str(alloc, "no policies")?);
    };
    let (verdict, clause) = match decision(rt, alloc, &policies, asked)? {
        Decision::NoneAllows => return Ok(String::from_str(alloc, "denied, none allows")?),
        Decision::Allowed(clause) => ("allowed", clause),
        Decision::Denied(clause) => ("denied", clause),
    };
    let text = clause_text(alloc, &policies, &clause)?;
    Ok(format!(in alloc; "{verdict} by {}", text.as_str())?)
}

#[test]
fn policies_decide_as_they_are_written(rt: HostRuntime) -> Result<(), Fail> {
    for (file, asked, wanted) in &ASKED {
        let line = told(&rt, rt.alloc(), *file, asked)?;
        assert_eq!(rt; line.as_str(), *wanted, "{asked:?}");
    }
    Ok(())
}
