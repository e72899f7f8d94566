//! Files with the lines that are told of them.
use crate::documents::{FileKind, remarks_on};
use rb_causes::NoMemory;
use std::alloc::Global;
use std::test::Fail;

/// A kind of file, its text, and the lines that are told.
const ROWS: [(FileKind, &str, &str); 8] = [
    (
        FileKind::Jobs,
        "- name: a\n  sequence:\n    commands:\n    - scriptfile: /srv/x.sh\n    - exec: ls | wc\n",
        "job \"a\", line 4: scriptfile: this key is not read: paste the text of the file under script
job \"a\", line 4: commands: each command has one of exec, script and jobref
job \"a\", line 5: exec: `|` stays as it is, as no shell reads exec: write it under script
",
    ),
    // A quote holds the sign, and `sh` runs the script anyway.
    (
        FileKind::Jobs,
        "- name: a\n  sequence:\n    commands:\n    - exec: echo 'a | b'\n    - script: '#!/bin/sh'\n",
        "",
    ),
    (
        FileKind::Jobs,
        "- name: a\n  timeout:\n    - 2h\n  sequence:\n    commands:\n    - script: 'echo $RD_A'\n",
        "job \"a\", line 2: timeout: this key is not read: take it out: no run is ended for its time
job \"a\", line 6: script: `RD_A` is not set: write @option.NAME@, or in exec ${option.NAME}
",
    ),
    (
        FileKind::Policy,
        "by: {group: (?=a)b}\nfor:\n  job:\n  - match: {name: a}\n",
        "document 1, line 1: group: `(?=a)b` has a look-ahead or a look-behind: deny what it leaves out
document 1, line 4: job: a rule without allow and deny does nothing: write one of them
document 1, line 1: context: context is missing: write it, and below it project: NAME
",
    ),
    (
        FileKind::Nodes,
        "\"a\\nb\":\n  tags: c\n  d: {e: f}\n",
        "node \"a\\u{a}b\", line 3: d: this is no attribute: an attribute is one text
",
    ),
    (
        FileKind::Nodes,
        "- a\n",
        "this is a list of nodes: write each as its name, with its attributes below it\n",
    ),
    (
        FileKind::Nodes,
        "a: &b\n",
        "line 1: write the value out at each place: anchors and aliases are not read
a resource document is a map of node names, each with a map of attributes
",
    ),
    (
        FileKind::Jobs,
        "<joblist>\n",
        "the file is XML, which is not read: export it as YAML\n",
    ),
];

/// The lines that are told, each with a line feed.
fn told(alloc: Global, kind: FileKind, file: &str) -> Result<String, NoMemory> {
    let lines = remarks_on(alloc, kind, file.as_bytes())?;
    let mut told = String::new(alloc);
    for line in &lines {
        told.push_str(line.as_str())?;
        told.push_str("\n")?;
    }
    Ok(told)
}

#[test]
fn each_file_has_its_lines(rt: HostRuntime) -> Result<(), Fail> {
    for (kind, file, wanted) in &ROWS {
        assert_eq!(rt; told(rt.alloc(), *kind, *file)?.as_str(), *wanted, "{file}");
    }
    Ok(())
}
