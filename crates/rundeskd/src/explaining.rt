//! Lines on standard error beside a fault line, which say more of what is wrong and what to do.
ghost use Rattle.rundeskd.specs.Explaining.{checked_kind, ending, has_option_word, is_option, kind_in, kind_of, noted_kind, of_drill, of_file, of_names, of_nodes, of_refused, of_store, reason, remark_on};
ghost use Rattle.std.specs.Option.{option_copied};
ghost use Rattle.std.specs.Prelude.{◌≡◌, IfOk};

use rb_causes::{NoMemory, Text};
use rb_command::status::{DONE, NO_FORM, REFUSED};
use rb_remarks::{FileKind, remarks_on};
use rb_session::status::{BAD_STORE, STORE_FULL};
use rb_tools::is_no_map;
use rb_top::{Broken, broken_line};
use std::alloc::Global;
use std::io::Eprint;

/// What there is to say beside a fault line.
#[derive(Clone, Copy, Debug, PartialEq, Eq)]
pub enum Remark {
    /// Where the forms of the words stand.
    SeeHelp,
    /// Which rule a drill file breaks first.
    BrokenRule(Broken),
    /// A document of a resource file is no map of node names.
    NoMap,
    /// What a store holds up to a row that may not stand there.
    RowsBefore,
    /// A log has its greatest size.
    NewStore,
}

/// Explains the status of these words, where there is more to say than the fault line does. The
/// file is the one that was fetched for them. Where memory is wanting nothing more is said.
pub fn tell_remark<R: Eprint>(
    rt: &R,
    alloc: Global,
    status: u8,
    words: &[Text],
    file: Option<&[u8]>,
) {
    if let Ok(Some(found)) = remark_on(alloc, status, words, file) {
        let reason = reason(found);
        let ending = ending(found);
        let _told = eprintln!(rt; "rundeskd: {reason}{ending}");
    }
    if let Some(kind) = checked_kind(status, words) {
        tell_remarks(rt, alloc, kind, file);
    }
}

// Tells each line of what there is to say of a file that was checked.
fn tell_remarks<R: Eprint>(rt: &R, alloc: Global, kind: FileKind, file: Option<&[u8]>) {
    if let Some(bytes) = file {
        if let Ok(lines) = remarks_on(alloc, kind, bytes) {
            for line in &lines {
                let line = line.as_str();
                let _told = eprintln!(rt; "rundeskd: {line}");
            }
        }
    }
}

// What the file was checked as, where it was read or refused.
fn checked_kind(status: u8, words: &[Text]) -> Option<FileKind>
    ensures { result ≡ checked_kind status words.now }
{
    if status == REFUSED {
        return kind_in(words);
    }
    if status == DONE {
        return noted_kind(kind_in(words));
    }
    None
}

// What there may be notes on where the file was read: jobs alone.
fn noted_kind(kind: Option<FileKind>) -> Option<FileKind>
    ensures { result ≡ noted_kind kind }
{
    match kind {
        Some(FileKind::Jobs) => kind,
        Some(FileKind::Nodes) => None,
        Some(FileKind::Policy) => None,
        None => None,
    }
}

fn kind_in(words: &[Text]) -> Option<FileKind>
    ensures { result ≡ kind_in words.now }
{
    match words {
        [form, kind, ..] if form.as_str() == "check" => kind_of(kind.as_str()),
        _ => None,
    }
}

fn kind_of(word: &str) -> Option<FileKind>
    ensures { result ≡ kind_of word.now }
{
    match word {
        "jobs" => Some(FileKind::Jobs),
        "nodes" => Some(FileKind::Nodes),
        "policy" => Some(FileKind::Policy),
        _ => None,
    }
}

// What explains the status of these words.
fn remark_on(
    alloc: Global,
    status: u8,
    words: &[Text],
    file: Option<&[u8]>,
) -> Result<Option<Remark>, NoMemory>
    ensures { IfOk result (λ found.
        found ≡ remark_on status words.now (option_copied file.entry)) }
{
    if status == NO_FORM {
        return Ok(Some(Remark::SeeHelp));
    }
    if status == REFUSED {
        return of_refused(alloc, words, file);
    }
    Ok(of_store(status))
}

// What a store that was read, and not opened, leaves to be done.
fn of_store(status: u8) -> Option<Remark>
    ensures { result ≡ of_store status }
{
    if status == BAD_STORE {
        return Some(Remark::RowsBefore);
    }
    if status == STORE_FULL {
        return Some(Remark::NewStore);
    }
    None
}

fn of_refused(
    alloc: Global,
    words: &[Text],
    file: Option<&[u8]>,
) -> Result<Option<Remark>, NoMemory>
    ensures { IfOk result (λ found. found ≡ of_refused words.now (option_copied file.entry)) }
{
    match file {
        None => Ok(of_names(words)),
        Some(bytes) => of_file(alloc, words, bytes),
    }
}

// Where no file is at hand, a word may have been meant as an option.
fn of_names(words: &[Text]) -> Option<Remark>
    ensures { result ≡ of_names words.now }
{
    if has_option_word(words) {
        Some(Remark::SeeHelp)
    } else {
        None
    }
}

fn has_option_word(words: &[Text]) -> bool
    ensures { result ≡ has_option_word words.now }
{
    words.iter().any(|word| is_option(word.as_str()))
}

fn is_option(word: &str) -> bool
    ensures { result ≡ is_option word.now }
{
    word.starts_with("--")
}

fn of_file(alloc: Global, words: &[Text], bytes: &[u8]) -> Result<Option<Remark>, NoMemory>
    ensures { IfOk result (λ found. found ≡ of_file words.now bytes.now) }
{
    match words {
        [form, ..] if form.as_str() == "drill" => of_drill(alloc, bytes),
        [form, kind, ..] if form.as_str() == "check" && kind.as_str() == "nodes" => {
            of_nodes(alloc, bytes)
        }
        _ => Ok(None),
    }
}

fn of_drill(alloc: Global, bytes: &[u8]) -> Result<Option<Remark>, NoMemory>
    ensures { IfOk result (λ found. found ≡ of_drill bytes.now) }
{
    match broken_line(alloc, bytes)? {
        None => Ok(None),
        Some(broken) => Ok(Some(Remark::BrokenRule(broken))),
    }
}

fn of_nodes(alloc: Global, bytes: &[u8]) -> Result<Option<Remark>, NoMemory>
    ensures { IfOk result (λ found. found ≡ of_nodes bytes.now) }
{
    if is_no_map(alloc, bytes)? {
        Ok(Some(Remark::NoMap))
    } else {
        Ok(None)
    }
}

// The line that says it.
fn reason(found: Remark) -> &'static str
    ensures { result.now ≡ reason found }
{
    match found {
        Remark::SeeHelp => "see rundeskd --help",
        Remark::BrokenRule(broken) => broken.rule.text(),
        Remark::NoMap => "a resource document is a map of node names",
        Remark::RowsBefore => {
            "the rows before that one are a log by themselves; see docs/OPERATING.md"
        }
        Remark::NewStore => "the log has its greatest size; a new file as STORE begins another one",
    }
}

// What the line ends with.
fn ending(found: Remark) -> &'static str
    ensures { result.now ≡ ending found }
{
    match found {
        Remark::SeeHelp => "",
        Remark::BrokenRule(broken) => {
            if broken.has_return {
                "; the line holds a carriage return, as files with CR LF line ends do"
            } else {
                ""
            }
        }
        Remark::NoMap => "",
        Remark::RowsBefore => "",
        Remark::NewStore => "",
    }
}
