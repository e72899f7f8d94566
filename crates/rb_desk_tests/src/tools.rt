//! The tools in a world of one file, n.yaml.
use rb_causes::{File, Items, NoMemory, SteadyShelf, SteadySink, Text};
use rb_tools::laws::check_steadily;
use rb_tools::{is_no_map, tool_top};
use std::alloc::Global;
use std::test::Fail;

const POLICY: &str =
    "context: {project: desk}\nby: {group: ops}\nfor:\n  node:\n  - contains: {tags: web}\n    allow: [read, run]\n  - equals: {nodename: web2}\n    deny: run\n";

/// Words with bars between them, the file, the status, and the text that is printed.
const ANSWERS: [(&str, &str, u8, &str); 17] = [
    ("check|nodes|n.yaml", "a:\n---\nb:\n", 0, "2 nodes\n"),
    ("check|nodes|n.yaml|!name: b|true", "a:\nb:\n", 0, "a\n"),
    (
        "check|nodes|n.yaml|tags:|true",
        "a:",
        3,
        "rundeskd: argument 4: EmptyValue\n",
    ),
    // The file is looked at before the filter.
    (
        "check|nodes|n.yaml|tags:|true",
        "- a",
        3,
        "rundeskd: n.yaml: node : NotMap\n",
    ),
    (
        "check|nodes|n.yaml",
        "a: &b",
        3,
        "rundeskd: n.yaml:1: OutOfProfile(anchor)\n",
    ),
    ("check|nodes|m.yaml", "", 3, "rundeskd: m.yaml: not there\n"),
    ("check|policy|n.yaml", POLICY, 0, "1 documents\n"),
    (
        "check|policy|n.yaml",
        "by: {urn: a}",
        3,
        "rundeskd: n.yaml: document 1: UnknownKey(urn)\n",
    ),
    (
        "explain|n.yaml|ann|ops|project:desk|node|run|nodename=web2|tags=web",
        POLICY,
        0,
        "denied by n.yaml#1 for node rule 2\n",
    ),
    (
        "explain|n.yaml|ann|-|project:desk|node|read|tags=web",
        POLICY,
        0,
        "denied, none allows\n",
    ),
    (
        "check|jobs|n.yaml",
        "- group: a",
        3,
        "rundeskd: n.yaml: job 1: name: MissingKey\n",
    ),
    (
        "check|jobs|n.yaml",
        "- name: a\n  sequence:\n    commands:\n    - exec: echo hi\n  schedule: {crontab: 0 0 7 * * ?}\n  timeZone: UTC\n",
        0,
        "1 jobs\n",
    ),
    (
        "check|jobs|n.yaml",
        "- schedule: {crontab: 0 7 * * *}",
        3,
        "rundeskd: n.yaml: job 1: crontab: BadSchedule\n",
    ),
    (
        "check|jobs|n.yaml",
        "- timeZone: CET",
        3,
        "rundeskd: n.yaml: job 1: timeZone: UnknownZone\n",
    ),
    ("next|0 0 0 29 2 ?|UTC|1709164800|1", "", 0, "1835395200\n"),
    (
        "demo|1",
        "",
        0,
        "nodes 1\nallowed 1\naccepted 3\ndenied 3\nbegins 6\nsucceeded 3\n",
    ),
    ("drill|n.yaml", "", 2, "rundeskd: usage\n"),
];

fn words_of(alloc: Global, line: &str) -> Result<Vec<Text>, NoMemory> {
    let mut words = Vec::new(alloc);
    for word in line.split('|') {
        words.push(Text::of(alloc, word)?)?;
    }
    Ok(words)
}

/// A list of the one file.
fn files_of(alloc: Global, text: &str) -> Result<Vec<File>, NoMemory> {
    let name = Text::of(alloc, "n.yaml")?;
    let bytes = Items::of(Vec::from_slice(alloc, text.as_bytes())?);
    let mut files = Vec::new(alloc);
    files.push(File { name, bytes })?;
    Ok(files)
}

#[test]
fn each_tool_answers(rt: HostRuntime) -> Result<(), Fail> {
    let alloc = rt.alloc();
    for (line, text, status, wanted) in &ANSWERS {
        let words = words_of(alloc, *line)?;
        let mut shelf = SteadyShelf::new(files_of(alloc, *text)?);
        let mut out = SteadySink::new(alloc);
        let got = tool_top(alloc, words.as_slice(), &mut shelf, &mut out);
        assert_eq!(rt; got, *status, "{line}");
        assert_eq!(rt; out.bytes(), wanted.as_bytes(), "{line}");
    }
    Ok(())
}

#[test]
fn a_steady_check_counts_and_a_list_is_no_map(rt: HostRuntime) -> Result<(), Fail> {
    let alloc = rt.alloc();
    let words = words_of(alloc, "check|nodes|n.yaml")?;
    let mut shelf = SteadyShelf::new(files_of(alloc, "a:")?);
    let mut out = SteadySink::new(alloc);
    assert_eq!(rt;
        check_steadily(alloc, words.as_slice(), &mut shelf, &mut out),
        0
    );
    assert_eq!(rt; out.bytes(), b"1 nodes\n".as_slice());
    assert!(rt; is_no_map(alloc, b"- a")?);
    assert!(rt; !is_no_map(alloc, b"a:")?);
    Ok(())
}
