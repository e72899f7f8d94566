//! What is told of the nodes of a resource file.
use crate::form::Form;
use crate::lines::tell_found;
use crate::piece::Piece;
use crate::remark::Found;
use crate::told::Told;
use crate::walking::look_at;
use rb_causes::{Items, NoMemory, Text};
use rb_values::{entries_in, items_in, key_of, value_of};
use rb_yaml::{Doc, Pair, Yaml};
use std::alloc::Global;

const LIST: &str = "this is a list of nodes: write each as its name, with its attributes below it";

/// Tells what is the matter with the nodes of documents.
pub(crate) fn tell_nodes(
    alloc: Global,
    lines: &mut Told,
    piece: Piece,
    docs: &[Doc],
) -> Result<(), NoMemory> {
    for doc in docs {
        match entries_in(&doc.root) {
            None => tell_no_map(alloc, lines, &doc.root)?,
            Some(entries) => tell_node_entries(alloc, lines, piece, entries)?,
        }
    }
    Ok(())
}

fn tell_no_map(alloc: Global, lines: &mut Told, root: &Yaml) -> Result<(), NoMemory> {
    if items_in(root).is_none() {
        return Ok(());
    }
    lines.add(Text::of(alloc, LIST)?)
}

fn tell_node_entries(
    alloc: Global,
    lines: &mut Told,
    piece: Piece,
    entries: &[Pair],
) -> Result<(), NoMemory> {
    for entry in entries {
        if lines.is_full() {
            return Ok(());
        }
        let name = key_of(entry);
        let subject = format!(in alloc; "node \"{name}\"")?;
        let mut found: Found = Items::new(alloc);
        look_at(alloc, &mut found, Form::Node, name, value_of(entry))?;
        tell_found(alloc, lines, piece, subject.as_str(), found.as_slice())?;
    }
    Ok(())
}
