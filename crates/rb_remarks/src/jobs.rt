//! What is told of the jobs of a job file.
use crate::form::{Form, Part};
use crate::lines::tell_found;
use crate::piece::Piece;
use crate::remark::{Found, Matter, tell};
use crate::told::Told;
use crate::walking::{line_of, look_at};
use rb_causes::{Items, NoMemory, SeenTexts, Text};
use rb_job::Part as JobPart;
use rb_values::{items_in, map_entries, text_at};
use rb_yaml::{Doc, Yaml};
use std::alloc::Global;

/// Tells what is the matter with the jobs of documents, and gives how many they are with those
/// before.
pub(crate) fn tell_jobs(
    alloc: Global,
    lines: &mut Told,
    seen: &mut SeenTexts,
    piece: Piece,
    docs: &[Doc],
) -> Result<u32, NoMemory> {
    let mut number = piece.before;
    for doc in docs {
        match items_in(&doc.root) {
            None => {
                number = number.saturating_add(1);
                tell_no_list(alloc, lines, number)?;
            }
            Some(jobs) => number = tell_list(alloc, lines, seen, piece, number, jobs)?,
        }
    }
    Ok(number)
}

fn tell_no_list(alloc: Global, lines: &mut Told, number: u32) -> Result<(), NoMemory> {
    let text = format!(in alloc; "job {number}: write jobs as a list, each behind a dash")?;
    lines.add(Text::from_string(text))
}

/// Tells what is the matter with the jobs of a document behind so many others, and gives the number
/// of the last one.
fn tell_list(
    alloc: Global,
    lines: &mut Told,
    seen: &mut SeenTexts,
    piece: Piece,
    before: u32,
    jobs: &[Yaml],
) -> Result<u32, NoMemory> {
    let mut number = before;
    for job in jobs {
        number = number.saturating_add(1);
        if !lines.is_full() {
            tell_job(alloc, lines, seen, piece, number, job)?;
        }
    }
    Ok(number)
}

fn subject_of(alloc: Global, number: u32, job: &Yaml) -> Result<String, NoMemory> {
    match text_at(map_entries(job), "name") {
        None => Ok(format!(in alloc; "job {number}")?),
        Some(name) => {
            let name = name.as_str();
            Ok(format!(in alloc; "job \"{name}\"")?)
        }
    }
}

fn tell_job(
    alloc: Global,
    lines: &mut Told,
    seen: &mut SeenTexts,
    piece: Piece,
    number: u32,
    job: &Yaml,
) -> Result<(), NoMemory> {
    let subject = subject_of(alloc, number, job)?;
    let mut found: Found = Items::new(alloc);
    let form = Form::Map(Part::OfJob(JobPart::Job));
    look_at(alloc, &mut found, form, "job", job)?;
    look_for_path(alloc, seen, &mut found, job)?;
    look_for_id(alloc, seen, &mut found, job)?;
    tell_found(alloc, lines, piece, subject.as_str(), found.as_slice())
}

/// Remarks that a job before has the same group and name.
fn look_for_path<'a>(
    alloc: Global,
    seen: &mut SeenTexts,
    found: &mut Found<'a>,
    job: &Yaml,
) -> Result<(), NoMemory> {
    let entries = map_entries(job);
    let group = text_or_empty(text_at(entries, "group"));
    match text_at(entries, "name") {
        None => Ok(()),
        Some(name) => {
            let name = name.as_str();
            let path = format!(in alloc; "{group}/{name}")?;
            look_before(alloc, seen, found, path.as_str(), "name", line_of(job))
        }
    }
}

fn text_or_empty(text: Option<&Text>) -> &str {
    match text {
        None => "",
        Some(text) => text.as_str(),
    }
}

/// Remarks that a job before has the same id.
fn look_for_id<'a>(
    alloc: Global,
    seen: &mut SeenTexts,
    found: &mut Found<'a>,
    job: &Yaml,
) -> Result<(), NoMemory> {
    let entries = map_entries(job);
    let id = match text_at(entries, "id") {
        None => text_or_empty(text_at(entries, "uuid")),
        Some(id) => id.as_str(),
    };
    if id.is_empty() {
        return Ok(());
    }
    look_before(alloc, seen, found, id, "id", line_of(job))
}

/// Remarks that a text was seen, and notes it else. An id has no slash, and a path has one.
fn look_before<'a>(
    alloc: Global,
    seen: &mut SeenTexts,
    found: &mut Found<'a>,
    text: &str,
    key: &'a str,
    line: u32,
) -> Result<(), NoMemory> {
    if seen.holds(text) {
        return tell(found, key, line, "", Matter::Twice);
    }
    seen.note(alloc, text)
}
