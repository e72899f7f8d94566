//! The lines that are told of a file.
ghost use Rattle.std.specs.Prelude.{◌≤◌, IfOk, length};

use crate::jobs::tell_jobs;
use crate::nodes::tell_nodes;
use crate::piece::Piece;
use crate::policies::tell_policies;
use crate::told::Told;
use crate::yaml_faults::fault_way;
use rb_causes::{NoMemory, SeenTexts, Text};
use rb_yaml::{Doc, YamlErr, YamlFault, YamlKind, read_docs};
use std::alloc::Global;
use std::str;

/// What a file is checked as.
#[derive(Clone, Copy, Debug, PartialEq, Eq)]
pub enum FileKind {
    Jobs,
    Nodes,
    Policy,
}

const XML: &str = "the file is XML, which is not read: export it as YAML";

const JSON: &str = "the file is JSON, which is read as YAML on single lines: write it as YAML";

const NODES: &str = "a resource document is a map of node names, each with a map of attributes";

/// The lines that are told of a file: what is in the way, and what means something else than in
/// Rundeck. At most 100; none where nothing is to be said.
pub fn remarks_on(alloc: Global, kind: FileKind, bytes: &[u8]) -> Result<Vec<Text>, NoMemory>
    ensures few { IfOk result (λ lines. length lines.items ≤ 100) }
{
    let mut lines = Told::new(alloc);
    match str::from_utf8(bytes) {
        Ok(file) => tell_file(alloc, &mut lines, kind, file)?,
        Err(_) => lines.add(Text::of(alloc, "the file is no text in UTF-8")?)?,
    }
    Ok(lines.into_vec())
}

fn tell_file(alloc: Global, lines: &mut Told, kind: FileKind, file: &str) -> Result<(), NoMemory> {
    if is_xml(file) {
        return lines.add(Text::of(alloc, XML)?);
    }
    let mut seen = SeenTexts::new(alloc);
    let whole = Piece {
        text: file,
        above: 0,
        before: 0,
    };
    match read_docs(alloc, file.as_bytes()) {
        Ok(docs) => {
            let _count = tell_docs(alloc, lines, &mut seen, kind, whole, docs.as_slice())?;
            Ok(())
        }
        Err(YamlErr::Fault(fault)) => tell_refused(alloc, lines, kind, whole, &fault),
        Err(YamlErr::NoMemory) => Err(NoMemory),
    }
}

/// Whether a tag stands first.
fn is_xml(file: &str) -> bool {
    file.trim_start().starts_with("<")
}

/// Whether a map of JSON stands first, perhaps in a list.
fn is_json(file: &str) -> bool {
    let text = file.trim_start();
    match text.strip_prefix("[") {
        None => text.starts_with("{"),
        Some(inner) => inner.trim_start().starts_with("{"),
    }
}

/// Tells what is the matter with documents, and gives how many jobs or documents they hold with
/// those before.
fn tell_docs(
    alloc: Global,
    lines: &mut Told,
    seen: &mut SeenTexts,
    kind: FileKind,
    piece: Piece,
    docs: &[Doc],
) -> Result<u32, NoMemory> {
    match kind {
        FileKind::Jobs => tell_jobs(alloc, lines, seen, piece, docs),
        FileKind::Policy => tell_policies(alloc, lines, piece, docs),
        FileKind::Nodes => {
            tell_nodes(alloc, lines, piece, docs)?;
            Ok(piece.before)
        }
    }
}

/// Tells a rule of YAML that a piece breaks.
fn tell_fault(
    alloc: Global,
    lines: &mut Told,
    piece: Piece,
    fault: &YamlFault,
) -> Result<(), NoMemory> {
    let line = fault.line.saturating_add(piece.above);
    let way = fault_way(&fault.kind);
    let text = format!(in alloc; "line {line}: {way}")?;
    lines.add(Text::from_string(text))
}

/// Tells what is the matter with a file that breaks a rule of YAML: of jobs and policies piece by
/// piece.
fn tell_refused(
    alloc: Global,
    lines: &mut Told,
    kind: FileKind,
    file: Piece,
    fault: &YamlFault,
) -> Result<(), NoMemory> {
    if is_json(file.text) {
        tell_fault(alloc, lines, file, fault)?;
        return lines.add(Text::of(alloc, JSON)?);
    }
    if let FileKind::Nodes = kind {
        tell_fault(alloc, lines, file, fault)?;
        return lines.add(Text::of(alloc, NODES)?);
    }
    if !is_whole(&fault.kind) {
        tell_pieces(alloc, lines, kind, file.text.as_bytes())?;
    }
    if lines.is_empty() {
        return tell_fault(alloc, lines, file, fault);
    }
    Ok(())
}

/// Whether a rule is one of the file as a whole.
fn is_whole(kind: &YamlKind) -> bool {
    matches!(kind, YamlKind::TooLarge | YamlKind::NotUtf8)
}

/// Whether a job, or a policy document, begins here.
fn begins_piece(kind: FileKind, text: &[u8]) -> bool {
    match kind {
        FileKind::Jobs => text.starts_with(b"\n- "),
        FileKind::Policy => text.starts_with(b"\n---"),
        FileKind::Nodes => false,
    }
}

/// Tells what is the matter with each piece of a file. Each but the first begins with a line feed.
fn tell_pieces(
    alloc: Global,
    lines: &mut Told,
    kind: FileKind,
    file: &[u8],
) -> Result<(), NoMemory> {
    let mut seen = SeenTexts::new(alloc);
    let mut start = 0;
    let mut above: u32 = 0;
    let mut feeds: u32 = 0;
    let mut before: u32 = 0;
    for (at, byte) in file.iter().enumerate() {
        if start < at && begins_piece(kind, &file[at..]) {
            let piece = &file[start..at];
            before = tell_piece(alloc, lines, &mut seen, kind, piece, above, before)?;
            start = at;
            above = feeds;
        }
        if *byte == b'\n' {
            feeds = feeds.saturating_add(1);
        }
    }
    if start < file.len() {
        let piece = &file[start..];
        let _count = tell_piece(alloc, lines, &mut seen, kind, piece, above, before)?;
    }
    Ok(())
}

/// Tells what is the matter with a piece of a file, below so many lines and behind so many jobs or
/// documents, and gives how many there are with those in it.
fn tell_piece(
    alloc: Global,
    lines: &mut Told,
    seen: &mut SeenTexts,
    kind: FileKind,
    bytes: &[u8],
    above: u32,
    before: u32,
) -> Result<u32, NoMemory> {
    let Ok(text) = str::from_utf8(bytes) else {
        return Ok(before);
    };
    let piece = Piece {
        text,
        above,
        before,
    };
    match read_docs(alloc, bytes) {
        Ok(docs) => tell_docs(alloc, lines, seen, kind, piece, docs.as_slice()),
        Err(YamlErr::Fault(fault)) => {
            tell_fault(alloc, lines, piece, &fault)?;
            Ok(before.saturating_add(1))
        }
        Err(YamlErr::NoMemory) => Err(NoMemory),
    }
}
