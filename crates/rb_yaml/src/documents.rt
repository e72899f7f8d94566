//! The documents of a text.
ghost use Rattle.rb_yaml.specs.Documents.{begins_control, control_fault, doc_of, docs_of_rows, docs_of_text, has_control, levels, marked_doc, marked_docs, marker_parts, with_docs, without_mark};
ghost use Rattle.rb_yaml.specs.DocsView.{doc_view, docs_view};
ghost use Rattle.rb_yaml.specs.Faults.{Reads};
ghost use Rattle.rb_yaml.specs.PartsView.{part_view};
ghost use Rattle.rb_yaml.specs.Tree.{docs_tree};
ghost use Rattle.std.specs.Prelude.{◌≡◌, ◌≤◌, ◌^◌, ◌++◌, map, length, IfOk, OnOk};

use crate::edges::{Edge, split_until};
use crate::faults::{beside, earlier, fault_at, fault_with};
use crate::flaw::{Fault, Flaw, Stop};
use crate::line::SourceLine;
use crate::markers::marker_flaw;
use crate::nodes::read_node;
use crate::parts::{BlockPart, split_parts};
use crate::rows::{first_content, read_lines, tab_flaw};
use crate::yaml::{Doc, Yaml};
use rb_causes::NoMemory;
use std::alloc::Global;

/// How deep collections may nest.
fn levels() -> u32
    ensures { result ≡ levels }
{
    32
}

/// Whether a control character other than a tab begins these bytes.
fn begins_control(text: &[u8]) -> bool
    ensures { result ≡ begins_control text.now }
{
    if text.is_empty() {
        return false;
    }
    if text[0] < b' ' && text[0] != b'\t' || text[0] == 127 {
        return true;
    }
    text[0] == 194 && text.len() > 1 && text[1] < 160
}

fn has_control(text: &str) -> bool
    ensures { result ≡ has_control text.now }
{
    let bytes = text.as_bytes();
    for (at, _byte) in bytes.iter().enumerate() {
        if begins_control(&bytes[at..]) {
            return true;
        }
    }
    false
}

/// The fault of the first line with a control character.
fn control_fault(lines: &[SourceLine]) -> Option<Fault>
    ensures { result ≡ control_fault lines.now }
{
    for line in lines {
        if has_control(line.text()) {
            return Some(fault_at(line.number(), Flaw::Form));
        }
    }
    None
}

/// The document of these lines; none where no line has content.
fn read_doc(alloc: Global, lines: &[SourceLine]) -> Result<Option<Yaml>, Stop<Fault>>
    ensures { Reads doc_view result (doc_of lines.now) }
{
    match first_content(lines) {
        None => Ok(None),
        Some((head, rest)) => {
            let read = read_node(alloc, levels(), 0, head, rest);
            Ok(Some(beside(fault_with(head.number(), tab_flaw(head)), read)?))
        }
    }
}

/// The document behind a marker.
fn marked_doc(alloc: Global, part: &BlockPart) -> Result<Option<Yaml>, Stop<Fault>>
    ensures { Reads doc_view result (marked_doc (part_view part.now)) }
{
    if let Some(flaw) = marker_flaw(&part.first) {
        return Err(Stop::At(fault_at(part.first.number(), flaw)));
    }
    read_doc(alloc, part.body)
}

fn push_doc(docs: &mut Vec<Doc>, root: Option<Yaml>) -> Result<(), NoMemory>
    ensures { OnOk result (docs_tree docs.new.items ≡ docs_tree docs.old.items ++ doc_view root) }
{
    if let Some(root) = root {
        docs.push(Doc { root })?;
    }
    Ok(())
}

/// These documents, and those behind the markers.
fn marked_docs(
    alloc: Global,
    mut docs: Vec<Doc>,
    parts: &[BlockPart],
) -> Result<Vec<Doc>, Stop<Fault>>
    ensures { Reads docs_view result
        (with_docs (docs_tree docs.items) (marked_docs (map part_view parts.now))) }
{
    for part in parts {
        let root = marked_doc(alloc, part)?;
        push_doc(&mut docs, root)?;
    }
    Ok(docs)
}

/// The markers, each with the lines behind it.
fn marker_parts<'s, 'a>(
    alloc: Global,
    lines: &'s [SourceLine<'a>],
) -> Result<Vec<BlockPart<'s, 'a>>, NoMemory>
    ensures { IfOk result (λ v. map part_view v.items ≡ marker_parts lines.now) }
{
    if lines.is_empty() {
        return Ok(Vec::new(alloc));
    }
    split_parts(alloc, Edge::Marker, &lines[0], &lines[1..])
}

/// The documents of these lines, as far as their texts and indents show.
fn docs_of_lines(alloc: Global, lines: &[SourceLine]) -> Result<Vec<Doc>, Stop<Fault>>
    ensures { Reads docs_view result (docs_of_rows lines.now) }
{
    let (front, behind) = split_until(Edge::Marker, lines);
    let root = read_doc(alloc, front)?;
    let mut docs = Vec::new(alloc);
    push_doc(&mut docs, root)?;
    let parts = marker_parts(alloc, behind)?;
    marked_docs(alloc, docs, parts.as_slice())
}

/// The text without its byte order mark.
fn without_mark(text: &str) -> &str
    ensures { result.now ≡ without_mark text.now }
{
    let bytes = text.as_bytes();
    if bytes.len() < 3 {
        return text;
    }
    if bytes[0] != 0xEF || bytes[1] != 0xBB || bytes[2] != 0xBF {
        return text;
    }
    &text[3..]
}

/// The documents of a text, or its first fault.
pub(crate) fn docs_of_text(alloc: Global, text: &str) -> Result<Vec<Doc>, Stop<Fault>>
    requires { length text.now ≤ 2 ^ 20 }
    ensures { Reads docs_view result (docs_of_text text.now) }
{
    let lines = read_lines(alloc, without_mark(text))?;
    let read = docs_of_lines(alloc, lines.as_slice());
    match control_fault(lines.as_slice()) {
        None => read,
        Some(fault) => match read {
            Ok(_docs) => Err(Stop::At(fault)),
            Err(Stop::At(other)) => Err(Stop::At(earlier(fault, other))),
            Err(Stop::NoMemory) => Err(Stop::NoMemory),
        },
    }
}
