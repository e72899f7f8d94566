//! Policies.
use rb_acl_doc::read_policies;
use rb_export::export_policies;
use rb_yaml::read_docs;
use std::alloc::Global;
use std::test::Fail;

/// Documents with the text that is exported of them.
const POLICIES: [(&str, &str); 3] = [
    ("", ""),
    (
        "description: Admin, all access.\n\
context:\n  project: '.*' # all projects\n\
for:\n  resource:\n    - allow: '*'\n  job:\n    - allow: '*'\n  node:\n    - allow: '*'\n\
by:\n  group: admin\n\
---\n\
context:\n  application: 'rundeck'\n\
for:\n  resource:\n    - allow: '*'\n\
by:\n  group: admin\n",
        "context:\n  project: \".*\"\n\
for:\n  \"resource\":\n    - allow:\n        - \"*\"\n  \"job\":\n    - allow:\n        - \"*\"\n  \"node\":\n    - allow:\n        - \"*\"\n\
by:\n  group:\n    - \"admin\"\n\
---\n\
context:\n  application: \"rundeck\"\n\
for:\n  \"resource\":\n    - allow:\n        - \"*\"\n\
by:\n  group:\n    - \"admin\"\n",
    ),
    (
        "by:\n  group: []\n  username: ['a\"b', 'c\\d']\n\
context: {project: \"x\\ty\"}\n\
for:\n  'a b': []\n  job:\n  - equals:\n      name: ''\n      tags: [p, q]\n    deny: []\n    allow: [read, '']\n    contains: {}\n    match: {group: ops.*}\n",
        "context:\n  project: \"x\\ty\"\n\
for:\n  \"a b\": []\n  \"job\":\n    - allow:\n        - \"read\"\n        - \"\"\n      equals:\n        \"name\":\n          - \"\"\n        \"tags\":\n          - \"p\"\n          - \"q\"\n      match:\n        \"group\":\n          - \"ops.*\"\n\
by:\n  username:\n    - \"a\\\"b\"\n    - \"c\\\\d\"\n",
    ),
];

/// What is exported of the policies of a text.
fn exported(alloc: Global, text: &[u8]) -> Option<Vec<u8>> {
    let docs = read_docs(alloc, text).ok()?;
    if docs.len() >= 0x1_0000_0000 {
        return None;
    }
    let policies = read_policies(alloc, "x.aclpolicy", docs.as_slice()).ok()?;
    export_policies(alloc, policies.as_slice()).ok()
}

#[test]
fn policies_have_one_text_from_which_they_are_read_again(rt: HostRuntime) -> Result<(), Fail> {
    for (written, wanted) in &POLICIES {
        let once = exported(rt.alloc(), written.as_bytes()).unwrap_or(Vec::new(rt.alloc()));
        assert_eq!(rt; once.as_slice(), wanted.as_bytes(), "{written}");
        let twice = exported(rt.alloc(), once.as_slice()).unwrap_or(Vec::new(rt.alloc()));
        assert_eq!(rt; twice.as_slice(), wanted.as_bytes(), "{written}");
    }
    Ok(())
}
