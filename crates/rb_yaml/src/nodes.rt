//! Nodes: sequences, maps and what stands alone, by the indent of their lines.
ghost use Rattle.rb_causes.specs.SeenTexts.{HasSeen};
ghost use Rattle.rb_yaml.specs.Faults.{Reads};
ghost use Rattle.rb_yaml.specs.Line.{behind_item, indent_flaw, place_flaw};
ghost use Rattle.rb_yaml.specs.Nodes.{block, compact_flaw, entry_of, inner_value, item_of, item_value, map_of, node, seq_of, value_after_key};
ghost use Rattle.rb_yaml.specs.Tree.{pair_tree, yaml_tree};
ghost use Rattle.std.specs.Prelude.{◌≡◌, ◌<◌, IfOk, List, slice_index, suc, ℕ};

use crate::alone::{alone, stray};
use crate::deep::too_deep;
use crate::edges::{Edge, split_until};
use crate::entries::{key_of, key_text, new_key_flaw, then_ill};
use crate::faults::{beside, either, fault_at, fault_with, foremost};
use crate::flaw::{Fault, Flaw, Stop};
use crate::keys::{begins_collection, begins_with_key, key_part};
use crate::line::SourceLine;
use crate::parts::split_parts;
use crate::rows::{first_content, tab_flaw};
use crate::signs::{begins_item, is_nothing, past_blanks};
use crate::yaml::{Pair, Yaml, entry, mapping, scalar, sequence};
use rb_causes::{NoMemory, SeenTexts, Text};
use std::alloc::Global;

/// Whether the line stands at another indent than this.
fn indent_flaw(indent: usize, line: &SourceLine) -> Option<Flaw>
    ensures { result ≡ indent_flaw indent line.now }
{
    if line.indent() == indent {
        return None;
    }
    Some(Flaw::Indent)
}

/// What is wrong with the place of a line that should begin an item or an entry at this indent.
fn place_flaw(indent: usize, line: &SourceLine) -> Option<Flaw>
    ensures { result ≡ place_flaw indent line.now }
{
    either(tab_flaw(line), indent_flaw(indent, line))
}

/// Whether a tab stands before a collection behind the sign of an item.
fn compact_flaw(
    alloc: Global,
    head: &SourceLine,
    behind: &SourceLine,
) -> Result<Option<Flaw>, NoMemory>
    requires sign { slice_index head.now.text 0 < 128 }
    requires behind { behind.now ≡ behind_item head.now }
    ensures { IfOk result (λ flaw. flaw ≡ compact_flaw head.now) }
{
    if head.tab_behind() {
        if begins_collection(alloc, behind.text())? {
            return Ok(Some(Flaw::Tab));
        }
    }
    Ok(None)
}

/// The node of the next lines, or the empty scalar.
#[cycle(node)]
fn read_block<'s, 'a>(
    alloc: Global,
    left: u32,
    floor: usize,
    number: u32,
    lines: &'s [SourceLine<'a>],
) -> Result<Yaml, Stop<Fault>>
    ensures { Reads yaml_tree result (block (node left) floor number lines.now) }
{
    match first_content(lines) {
        None => Ok(scalar(number, Text::of(alloc, "")?)),
        Some((head, rest)) => {
            let read = read_node(alloc, left, floor, head, rest);
            beside(fault_with(head.number(), tab_flaw(head)), read)
        }
    }
}

/// What stands behind the sign of an item, and the lines behind its first.
#[cycle(node)]
fn read_item_value<'s, 'a>(
    alloc: Global,
    left: u32,
    head: &'s SourceLine<'a>,
    lines: &'s [SourceLine<'a>],
) -> Result<Yaml, Stop<Fault>>
    requires { slice_index head.now.text 0 < 128 }
    ensures { Reads yaml_tree result (item_value (node left) head.now lines.now) }
{
    let behind = head.behind_item();
    if is_nothing(behind.text()) {
        return read_block(alloc, left, head.floor(), head.number(), lines);
    }
    let flaw = compact_flaw(alloc, head, &behind)?;
    let read = read_node(alloc, left, head.floor(), &behind, &*lines);
    beside(fault_with(head.number(), flaw), read)
}

/// An item of a sequence at an indent, and the lines behind its first.
#[cycle(node)]
fn read_item<'s, 'a>(
    alloc: Global,
    left: u32,
    indent: usize,
    head: &'s SourceLine<'a>,
    lines: &'s [SourceLine<'a>],
) -> Result<Yaml, Stop<Fault>>
    ensures { Reads yaml_tree result (item_of (node left) indent head.now lines.now) }
{
    let place = place_flaw(indent, head);
    if begins_item(head.text()) {
        let read = read_item_value(alloc, left, head, lines);
        return beside(fault_with(head.number(), place), read);
    }
    let flaw = foremost(stray(alloc, head.text())?, place);
    Err(Stop::At(fault_at(head.number(), flaw)))
}

/// A sequence: each line at its indent begins an item.
#[cycle(node)]
fn read_sequence<'s, 'a>(
    alloc: Global,
    left: u32,
    head: &'s SourceLine<'a>,
    lines: &'s [SourceLine<'a>],
) -> Result<Yaml, Stop<Fault>>
    ensures { Reads yaml_tree result (seq_of (node left) head.now lines.now) }
{
    let indent = head.indent();
    let parts = split_parts(alloc, Edge::BlockPart(indent), head, lines)?;
    let mut items = Vec::new(alloc);
    for part in &parts {
        let item = read_item(alloc, left, indent, &part.first, part.body)?;
        items.push(item)?;
    }
    Ok(sequence(head.number(), items))
}

/// The value behind a key, where no item stands at the key's indent.
#[cycle(node)]
fn read_inner<'s, 'a>(
    alloc: Global,
    left: u32,
    floor: usize,
    number: u32,
    text: &'a str,
    lines: &'s [SourceLine<'a>],
) -> Result<Yaml, Stop<Fault>>
    ensures { (indent : ℕ) → floor ≡ suc indent →
        Reads yaml_tree result (inner_value left (node left) indent number text.now lines.now) }
{
    if is_nothing(text) {
        return read_block(alloc, left, floor, number, lines);
    }
    alone(alloc, left, floor, &SourceLine::at(number, 0, text), lines)
}

/// The value behind a key: where nothing is there and an item comes first, the sequence at the
/// key's own indent.
#[cycle(node)]
fn read_value<'s, 'a>(
    alloc: Global,
    left: u32,
    head: &'s SourceLine<'a>,
    text: &'a str,
    lines: &'s [SourceLine<'a>],
) -> Result<Yaml, Stop<Fault>>
    ensures { Reads yaml_tree result
        (value_after_key left (node left) head.now.indent head.now.number text.now lines.now) }
{
    let (inside, beyond) = split_until(Edge::Item(head.indent()), lines);
    if beyond.is_empty() {
        return read_inner(alloc, left, head.floor(), head.number(), text, lines);
    }
    if is_nothing(text) && first_content(inside).is_none() {
        return read_node(alloc, left, head.indent(), &beyond[0], &beyond[1..]);
    }
    let read = read_inner(alloc, left, head.floor(), head.number(), text, inside);
    then_ill(read, beyond[0].number())
}

/// An entry of a map at an indent, after the keys before it.
#[cycle(node)]
fn read_entry<'s, 'a>(
    alloc: Global,
    left: u32,
    indent: usize,
    seen: &SeenTexts,
    head: &'s SourceLine<'a>,
    lines: &'s [SourceLine<'a>],
) -> Result<Pair, Stop<Fault>>
    ensures { (keys : List (List ℕ)) → HasSeen seen.now keys →
        Reads pair_tree result (entry_of left (node left) indent keys head.now lines.now) }
{
    let place = place_flaw(indent, head);
    match key_part(alloc, head.text())? {
        None => {
            let flaw = foremost(stray(alloc, head.text())?, place);
            Err(Stop::At(fault_at(head.number(), flaw)))
        }
        Some(part) => {
            let flaw = either(place, new_key_flaw(seen, &part.key));
            let read = read_value(alloc, left, head, past_blanks(part.behind), lines);
            let value = beside(fault_with(head.number(), flaw), read)?;
            let key = key_text(alloc, part.key)?;
            Ok(entry(key, value))
        }
    }
}

/// A map: each line at its indent has a key.
#[cycle(node)]
fn read_map<'s, 'a>(
    alloc: Global,
    left: u32,
    head: &'s SourceLine<'a>,
    lines: &'s [SourceLine<'a>],
) -> Result<Yaml, Stop<Fault>>
    ensures { Reads yaml_tree result (map_of left (node left) head.now lines.now) }
{
    let indent = head.indent();
    let parts = split_parts(alloc, Edge::Entry(indent), head, lines)?;
    let mut seen = SeenTexts::new(alloc);
    let mut entries = Vec::new(alloc);
    for part in &parts {
        let pair = read_entry(alloc, left, indent, &seen, &part.first, part.body)?;
        seen.note(alloc, key_of(&pair))?;
        entries.push(pair)?;
    }
    Ok(mapping(head.number(), entries))
}

/// The node that begins at a line, with so many levels of collections left.
#[cycle(node)]
pub(crate) fn read_node<'s, 'a>(
    alloc: Global,
    left: u32,
    floor: usize,
    head: &'s SourceLine<'a>,
    lines: &'s [SourceLine<'a>],
) -> Result<Yaml, Stop<Fault>>
    ensures { Reads yaml_tree result (node left floor head.now lines.now) }
{
    if left == 0 {
        if begins_collection(alloc, head.text())? {
            return Err(Stop::At(too_deep(alloc, head, lines)?));
        }
        return alone(alloc, 0, floor, head, lines);
    }
    if begins_item(head.text()) {
        return read_sequence(alloc, left - 1, head, lines);
    }
    if begins_with_key(alloc, head.text())? {
        return read_map(alloc, left - 1, head, lines);
    }
    alone(alloc, left, floor, head, lines)
}
