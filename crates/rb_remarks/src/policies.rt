//! What is told of the documents of a policy file.
use crate::form::{Form, Part};
use crate::lines::tell_found;
use crate::piece::Piece;
use crate::remark::Found;
use crate::told::Told;
use crate::walking::look_at;
use rb_causes::{Items, NoMemory};
use rb_yaml::{Doc, Yaml};
use std::alloc::Global;

/// Tells what is the matter with policy documents, and gives how many they are with those before.
pub(crate) fn tell_policies(
    alloc: Global,
    lines: &mut Told,
    piece: Piece,
    docs: &[Doc],
) -> Result<u32, NoMemory> {
    let mut number = piece.before;
    for doc in docs {
        number = number.saturating_add(1);
        if !lines.is_full() {
            tell_policy(alloc, lines, piece, number, &doc.root)?;
        }
    }
    Ok(number)
}

/// Tells what is the matter with the policy document of this number.
fn tell_policy(
    alloc: Global,
    lines: &mut Told,
    piece: Piece,
    number: u32,
    root: &Yaml,
) -> Result<(), NoMemory> {
    let subject = format!(in alloc; "document {number}")?;
    let mut found: Found = Items::new(alloc);
    look_at(alloc, &mut found, Form::Map(Part::Policy), "document", root)?;
    tell_found(alloc, lines, piece, subject.as_str(), found.as_slice())
}
