//! Flow sequences and maps as values of a line.
ghost use Rattle.rb_yaml.specs.Faults.{Reads};
ghost use Rattle.rb_yaml.specs.FlowView.{read_view, pair_view};
ghost use Rattle.rb_causes.specs.Texts.{are_new};
ghost use Rattle.rb_yaml.specs.FlowValues.{closing, depth_flaw, flow_flaw, flow_of, flow_read, flow_tree, form_flaw, read_flaw, twice_flaw};
ghost use Rattle.rb_yaml.specs.Tree.{yaml_tree};
ghost use Rattle.std.specs.Prelude.{◌≡◌, ◌<◌, [], map, true, false, IfOk, slice_index};

use crate::faults::{either, fault_at, foremost};
use crate::flaw::{Fault, Flaw, Stop};
use crate::flow::{FlowPair, FlowRead, flow_items};
use crate::line::SourceLine;
use crate::scalars::complete;
use crate::signs::{begins, behind_first, is_clear};
use crate::yaml::{Yaml, entry, mapping, scalar, sequence};
use rb_causes::{NoMemory, SeenTexts};
use std::alloc::Global;

/// Whether no key stands among those before it.
fn keys_differ(alloc: Global, items: &[FlowPair]) -> Result<bool, NoMemory>
    ensures { IfOk result (λ yes. yes ≡
        are_new [] (map (λ item. item.0) (map pair_view items.now))) }
{
    let mut seen = SeenTexts::new(alloc);
    for item in items {
        if seen.holds(item.key.as_str()) {
            return Ok(false);
        }
        seen.note(alloc, item.key.as_str())?;
    }
    Ok(true)
}

/// Whether a part of the flow has no form, or something stands behind it.
fn form_flaw(read: &FlowRead) -> Option<Flaw>
    ensures { result ≡ form_flaw (read_view read.now) }
{
    if read.good && is_clear(read.rest) {
        return None;
    }
    Some(Flaw::Form)
}

/// Whether a key stands twice.
fn twice_flaw(alloc: Global, is_map: bool, read: &FlowRead) -> Result<Option<Flaw>, NoMemory>
    ensures { IfOk result (λ flaw. flaw ≡ twice_flaw is_map (read_view read.now)) }
{
    if is_map {
        if !keys_differ(alloc, read.items.as_slice())? {
            return Ok(Some(Flaw::DuplicateKey));
        }
    }
    Ok(None)
}

/// What is wrong with a flow that has been read to its closing sign.
fn read_flaw(alloc: Global, is_map: bool, read: &FlowRead) -> Result<Option<Flaw>, NoMemory>
    ensures { IfOk result (λ flaw. flaw ≡ read_flaw is_map (read_view read.now)) }
{
    Ok(either(form_flaw(read), twice_flaw(alloc, is_map, read)?))
}

/// A flow is a collection of its own, so with no level left it is too deep.
fn depth_flaw(left: u32) -> Option<Flaw>
    ensures { result ≡ depth_flaw left }
{
    if left == 0 {
        return Some(Flaw::TooDeep);
    }
    None
}

fn closing(text: &str) -> u8
    ensures exact { result ≡ closing text.now }
    ensures small { result < 128 }
{
    if begins(b'[', text) { b']' } else { b'}' }
}

fn flow_read<'a>(alloc: Global, text: &'a str) -> Result<FlowRead<'a>, Stop<Flaw>>
    requires { slice_index text.now 0 < 128 }
    ensures { Reads read_view result (flow_read text.now) }
{
    flow_items(alloc, closing(text), behind_first(text))
}

/// What is wrong with a flow.
pub(crate) fn flow_flaw(alloc: Global, text: &str) -> Result<Option<Flaw>, NoMemory>
    requires { slice_index text.now 0 < 128 }
    ensures { IfOk result (λ flaw. flaw ≡ flow_flaw text.now) }
{
    match flow_read(alloc, text) {
        Ok(read) => read_flaw(alloc, begins(b'{', text), &read),
        Err(Stop::At(flaw)) => Ok(Some(flaw)),
        Err(Stop::NoMemory) => Err(NoMemory),
    }
}

fn flow_sequence(alloc: Global, number: u32, items: Vec<FlowPair>) -> Result<Yaml, NoMemory>
    ensures { IfOk result (λ v. yaml_tree v ≡ flow_tree number false (map pair_view items.items)) }
{
    let mut made = Vec::new(alloc);
    for item in items {
        made.push(scalar(number, item.text))?;
    }
    Ok(sequence(number, made))
}

fn flow_map(alloc: Global, number: u32, items: Vec<FlowPair>) -> Result<Yaml, NoMemory>
    ensures { IfOk result (λ v. yaml_tree v ≡ flow_tree number true (map pair_view items.items)) }
{
    let mut made = Vec::new(alloc);
    for item in items {
        made.push(entry(item.key, scalar(number, item.text)))?;
    }
    Ok(mapping(number, made))
}

fn flow_tree(
    alloc: Global,
    number: u32,
    is_map: bool,
    items: Vec<FlowPair>,
) -> Result<Yaml, NoMemory>
    ensures { IfOk result (λ v. yaml_tree v ≡ flow_tree number is_map (map pair_view items.items)) }
{
    if is_map {
        return flow_map(alloc, number, items);
    }
    flow_sequence(alloc, number, items)
}

/// A flow, with so many levels left.
pub(crate) fn flow_of(
    alloc: Global,
    left: u32,
    head: &SourceLine,
    lines: &[SourceLine],
) -> Result<Yaml, Stop<Fault>>
    requires { slice_index head.now.text 0 < 128 }
    ensures { Reads yaml_tree result (flow_of left head.now lines.now) }
{
    let number = head.number();
    let is_map = begins(b'{', head.text());
    match flow_read(alloc, head.text()) {
        Err(Stop::NoMemory) => Err(Stop::NoMemory),
        Err(Stop::At(flaw)) => {
            let flaw = foremost(flaw, depth_flaw(left));
            Err(Stop::At(fault_at(number, flaw)))
        }
        Ok(read) => {
            if let Some(flaw) = either(read_flaw(alloc, is_map, &read)?, depth_flaw(left)) {
                return Err(Stop::At(fault_at(number, flaw)));
            }
            complete(flow_tree(alloc, number, is_map, read.items)?, lines)
        }
    }
}
