//! Which form the words of a command line are.
use rb_causes::{NoMemory, Text};
use rb_command::{Command, read_words};
use std::alloc::Global;
use std::test::Fail;

/// Lines of words, what they ask for, and with which number.
const LINES: [(&str, &str, u64); 20] = [
    ("drill a.drill", "a drill", 0),
    ("check nodes n.yaml", "nodes", 0),
    ("check nodes n.yaml tags:web true", "a filter", 1),
    ("check nodes n.yaml  false", "a filter", 0),
    ("check jobs j.yaml", "jobs", 0),
    ("check policy p", "policies", 0),
    ("explain p ann - application node run", "a decision", 0),
    (
        "explain p ann a,b project:c node run a=1=2 tags=x,y",
        "a decision",
        2,
    ),
    ("next c z 0 1", "instants", 1),
    ("next c z 999999999999999999 100", "instants", 100),
    ("demo 1000", "a demo", 1_000),
    ("", "no form", 0),
    ("drill a.drill b.drill", "no form", 0),
    ("check nodes n.yaml tags:web TRUE", "no form", 0),
    ("check job n.yaml", "no form", 0),
    ("explain p a,b - application node run", "no form", 0),
    ("explain p ann - application node run =b", "no form", 0),
    ("next c z 0 101", "no form", 0),
    ("next c z -1 1", "no form", 0),
    ("demo 1001", "no form", 0),
];

/// The words of a line with one space between them.
fn words_of(alloc: Global, line: &str) -> Result<Vec<Text>, NoMemory> {
    let mut words = Vec::new(alloc);
    for word in line.split(' ') {
        words.push(Text::of(alloc, word)?)?;
    }
    Ok(words)
}

/// What is asked for, with its number.
fn asked(command: &Option<Command>) -> (&'static str, u64) {
    match command {
        None => ("no form", 0),
        Some(Command::Drill(_)) => ("a drill", 0),
        Some(Command::CheckJobs(_)) => ("jobs", 0),
        Some(Command::CheckPolicy(_)) => ("policies", 0),
        Some(Command::Demo(nodes)) => ("a demo", u64::from(*nodes)),
        Some(
            Command::Explain {
                file: _,
                caller,
                context: _,
                resource: _,
                action: _,
            },
        ) => ("a decision", caller.groups.len() as u64),
        Some(
            Command::Next {
                crontab: _,
                zone: _,
                after: _,
                count,
            },
        ) => ("instants", u64::from(*count)),
        Some(
            Command::CheckNodes {
                file: _,
                filter,
                exclude_first,
            },
        ) => match filter {
            None => ("nodes", 0),
            Some(_) => ("a filter", u64::from(*exclude_first)),
        },
    }
}

#[test]
fn words_are_read_by_their_form(rt: HostRuntime) -> Result<(), Fail> {
    for (line, what, number) in &LINES {
        let words = words_of(rt.alloc(), *line)?;
        let command = read_words(rt.alloc(), words.as_slice())?;
        assert!(rt; asked(&command) == (*what, *number), "{line}");
    }
    Ok(())
}
