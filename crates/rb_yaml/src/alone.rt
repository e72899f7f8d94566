//! What stands alone on a line: a scalar or a flow.
ghost use Rattle.rb_yaml.specs.Faults.{Reads};
ghost use Rattle.rb_yaml.specs.Alone.{alone, stray, text_flaw, told_alone};
ghost use Rattle.rb_yaml.specs.Tree.{yaml_tree};
ghost use Rattle.std.specs.Prelude.{◌≡◌, IfOk};

use crate::faults::fault_at;
use crate::flaw::{Fault, Flaw, Stop};
use crate::flow_values::{flow_flaw, flow_of};
use crate::keys::key_part;
use crate::line::SourceLine;
use crate::literals::{literal_flaw, literal_of};
use crate::scalars::{double_flaw, double_of, plain_flaw, plain_of, single_of};
use crate::signs::{begins, begins_item};
use crate::yaml::Yaml;
use rb_causes::NoMemory;
use std::alloc::Global;

/// What is wrong with a text, as far as its line shows.
fn text_flaw(alloc: Global, text: &str) -> Result<Option<Flaw>, NoMemory>
    ensures { IfOk result (λ flaw. flaw ≡ text_flaw text.now) }
{
    if begins(b'|', text) {
        return Ok(literal_flaw(text));
    }
    if begins(b'\'', text) {
        return Ok(None);
    }
    if begins(b'"', text) {
        return double_flaw(alloc, text);
    }
    if begins(b'[', text) || begins(b'{', text) {
        return flow_flaw(alloc, text);
    }
    Ok(plain_flaw(text))
}

/// A scalar or a flow, with so many levels left.
pub(crate) fn alone(
    alloc: Global,
    left: u32,
    floor: usize,
    head: &SourceLine,
    lines: &[SourceLine],
) -> Result<Yaml, Stop<Fault>>
    ensures { Reads yaml_tree result (alone left floor head.now lines.now) }
{
    let text = head.text();
    if begins(b'|', text) {
        if let Some(flaw) = literal_flaw(text) {
            return Err(Stop::At(fault_at(head.number(), flaw)));
        }
        return literal_of(alloc, floor, head, lines);
    }
    if begins(b'\'', text) {
        return single_of(alloc, floor, head, lines);
    }
    if begins(b'"', text) {
        return double_of(alloc, head, lines);
    }
    if begins(b'[', text) || begins(b'{', text) {
        return flow_of(alloc, left, head, lines);
    }
    if let Some(flaw) = plain_flaw(text) {
        return Err(Stop::At(fault_at(head.number(), flaw)));
    }
    plain_of(alloc, head, lines)
}

/// Of what is wrong with a text that may not stand in its place, only a form that is not read is
/// told.
fn told_alone(flaw: Option<Flaw>) -> Flaw
    ensures { result ≡ told_alone flaw }
{
    match flaw {
        Some(Flaw::OutOfProfile(excluded)) => Flaw::OutOfProfile(excluded),
        _ => Flaw::Form,
    }
}

/// What is wrong with a text at a collection's indent that is no item or has no key.
pub(crate) fn stray(alloc: Global, text: &str) -> Result<Flaw, NoMemory>
    ensures { IfOk result (λ flaw. flaw ≡ stray text.now) }
{
    if begins_item(text) {
        return Ok(Flaw::Form);
    }
    match key_part(alloc, text)? {
        Some(part) => Ok(told_alone(part.key.err())),
        None => Ok(told_alone(text_flaw(alloc, text)?)),
    }
}
