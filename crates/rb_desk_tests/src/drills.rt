//! Drills in words, with what they print, what they start and how they end.
use rb_causes::{
    Ending, File, Items, MemShelf, MemSink, MemSpawner, NoMemory, SpawnRun, Text, are_codes,
};
use rb_top::{BrokenRule, broken_line, drill_top};
use std::alloc::{AllocError, Global};
use std::process::Abort;
use std::str;
use std::test::Fail;

const ONE: &str = "node web1\nallow ann web1\njob hello web1\nstep echo hi\nrun ann hello\n";

const TWO: &str = "node web1\nnode db1\nallow ann web1\nallow ann db1\ndeny ann db1\n\
job hello db1,web1\nstep echo hi\nrun ann hello";

/// Drills: their words, their file, the code with which a program ends, and the program that is not
/// started; the status, what is printed, and what is started.
const DRILLS: [(&str, &str, u32, u64, u8, &str, &str); 5] = [
    (
        "drill x.drill",
        ONE,
        0,
        0,
        0,
        "run 1 ann hello\nstart web1 1 echo hi\nend web1 1 code 0\nrun 1 succeeded\n",
        "echo hi \n",
    ),
    (
        "drill x.drill",
        TWO,
        0,
        0,
        0,
        "run 1 ann hello\nrun 1 drops db1 rule 3\nstart web1 1 echo hi\n\
end web1 1 code 0\nrun 1 succeeded\n",
        "echo hi \n",
    ),
    (
        "drill x.drill",
        ONE,
        3,
        0,
        0,
        "run 1 ann hello\nstart web1 1 echo hi\nend web1 1 code 3\nrun 1 failed\n",
        "echo hi \n",
    ),
    (
        "drill x.drill",
        ONE,
        0,
        1,
        0,
        "run 1 ann hello\nstart web1 1 echo hi\nend web1 1 not started\nrun 1 failed\n",
        "echo hi \n",
    ),
    ("drill", ONE, 0, 0, 2, "rundeskd: usage\n", ""),
];

fn words_of(alloc: Global, line: &str) -> Result<Vec<Text>, NoMemory> {
    let mut words = Vec::new(alloc);
    for word in line.split(' ') {
        words.push(Text::of(alloc, word)?)?;
    }
    Ok(words)
}

/// A list of the one file x.drill.
fn files_of(alloc: Global, text: &str) -> Result<Vec<File>, NoMemory> {
    let name = Text::of(alloc, "x.drill")?;
    let bytes = Items::of(Vec::from_slice(alloc, text.as_bytes())?);
    let mut files = Vec::new(alloc);
    files.push(File { name, bytes })?;
    Ok(files)
}

/// What a drill answered, printed and started, a line each.
#[derive(Drop)]
struct Outcome {
    status: u8,
    said: String,
    ran: String,
}

fn runs_text(alloc: Global, runs: &[SpawnRun]) -> Result<String, AllocError> {
    let mut text = String::new(alloc);
    for run in runs {
        for word in run.words.as_slice() {
            text.push_str(word.as_str())?;
            text.push(' ')?;
        }
        text.push('\n')?;
    }
    Ok(text)
}

/// Answers words, where programs end with this code, and this one is not started.
fn answer(
    rt: &impl Abort,
    alloc: Global,
    words: &[Text],
    files: Vec<File>,
    code: u32,
    unstarted: u64,
) -> Result<Outcome, NoMemory> {
    let endings = Vec::from_slice(alloc, &[Ending::Code(code)])?;
    assert!(rt; are_codes(endings.as_slice()));
    let unstarted = Vec::from_slice(alloc, &[unstarted])?;
    let mut shelf = MemShelf::new(files, Vec::new(alloc));
    let mut spawner = MemSpawner::new(alloc, endings, unstarted);
    let mut out = MemSink::new(alloc, Vec::new(alloc));
    let status = drill_top(alloc, words, &mut shelf, &mut spawner, &mut out);
    let said = str::from_utf8(out.bytes()).unwrap_or("no text");
    Ok(Outcome {
        status,
        said: String::from_str(alloc, said)?,
        ran: runs_text(alloc, spawner.runs())?,
    })
}

#[test]
fn drills_answer_print_and_start(rt: HostRuntime) -> Result<(), Fail> {
    let alloc = rt.alloc();
    for (words, file, code, unstarted, status, said, ran) in &DRILLS {
        let words = words_of(alloc, *words)?;
        let files = files_of(alloc, *file)?;
        let outcome = answer(&rt, alloc, words.as_slice(), files, *code, *unstarted)?;
        assert_eq!(rt; outcome.status, *status);
        assert_eq!(rt; outcome.said.as_str(), *said);
        assert_eq!(rt; outcome.ran.as_str(), *ran);
    }
    Ok(())
}

/// The rule that a file breaks.
fn broken(alloc: Global, file: &[u8]) -> Result<Option<BrokenRule>, NoMemory> {
    match broken_line(alloc, file)? {
        Some(broken) => Ok(Some(broken.rule)),
        None => Ok(None),
    }
}

/// A faulty file, and the rule that its first line which is not read breaks.
const FAULTY: [(&str, BrokenRule); 10] = [
    ("node web1\nallow ann db1\n", BrokenRule::UnknownNode),
    ("nod web1\n", BrokenRule::UnknownWord),
    ("node\n", BrokenRule::WrongForm),
    ("node \n", BrokenRule::Blanks),
    ("#\n\nnode a\nnode a\n", BrokenRule::NodeTwice),
    ("node a\njob j a,a\n", BrokenRule::NodeTwiceInJob),
    ("node a\njob j a\njob j a\n", BrokenRule::JobTwice),
    ("node a\nstep x\n", BrokenRule::StepWithoutJob),
    ("node a\njob j a\nrun ann j\n", BrokenRule::JobWithoutStep),
    (
        "node a\nrun ann j\njob j a\nstep x\n",
        BrokenRule::UnknownJob,
    ),
];

#[test]
fn a_faulty_file_is_told_by_its_rule(rt: HostRuntime) -> Result<(), Fail> {
    let alloc = rt.alloc();
    for (file, rule) in &FAULTY {
        assert_eq!(rt; broken(alloc, file.as_bytes())?, Some(*rule), "{file}");
    }
    assert_eq!(rt;
        broken(alloc, b"node a\n\xff\n")?,
        Some(BrokenRule::NotUtf8)
    );
    assert_eq!(rt; broken(alloc, ONE.as_bytes())?, None);
    Ok(())
}
