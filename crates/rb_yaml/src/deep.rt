//! What is wrong with a collection with no level left.
ghost use Rattle.rb_yaml.specs.Alone.{alone, key_flaw};
ghost use Rattle.rb_yaml.specs.Deep.{deep_entry, deep_turn, deep_value, too_deep};
ghost use Rattle.rb_yaml.specs.Faults.{Reads, fault_at, sooner_fault, foremost};
ghost use Rattle.rb_yaml.specs.Keys.{key_part};
ghost use Rattle.rb_yaml.specs.KeysView.{key_view};
ghost use Rattle.rb_yaml.specs.Tree.{yaml_tree};
ghost use Rattle.std.specs.Prelude.{◌≡◌, ◌<◌, ◌+◌, IfNone, IfOk, length, slice_index, suc, zero};

use crate::alone::alone;
use crate::faults::{fault_at, foremost, sooner_fault};
use crate::flaw::{Fault, Flaw, Stop};
use crate::keys::{KeyPart, begins_collection, key_part};
use crate::line::SourceLine;
use crate::signs::{begins_item, is_nothing, past_blanks};
use crate::yaml::{Yaml, scalar};
use rb_causes::{NoMemory, Text};
use std::alloc::Global;

/// The flaw of a key with no level left.
fn deep_flaw(part: &KeyPart) -> Flaw
    ensures { result ≡ foremost Flaw.TooDeep (key_flaw (key_view part.now)) }
{
    match part.key {
        Ok(_) => Flaw::TooDeep,
        Err(flaw) => foremost(Flaw::TooDeep, Some(flaw)),
    }
}

/// What is behind a key with no level left, as far as its line shows.
fn deep_value(
    alloc: Global,
    line: &SourceLine,
    text: &str,
    lines: &[SourceLine],
) -> Result<Yaml, Stop<Fault>>
    ensures { Reads yaml_tree result (deep_value line.now text.now lines.now) }
{
    if is_nothing(text) {
        return Ok(scalar(line.number(), Text::of(alloc, "")?));
    }
    alone(
        alloc,
        0,
        line.floor(),
        &SourceLine::at(line.number(), 0, text),
        lines,
    )
}

/// What is wrong with an entry of a map with no level left.
fn deep_entry(alloc: Global, line: &SourceLine, lines: &[SourceLine]) -> Result<Fault, NoMemory>
    ensures { IfOk result (λ fault. fault ≡
        deep_entry line.now lines.now (key_part line.now.text)) }
{
    match key_part(alloc, line.text())? {
        None => Ok(fault_at(line.number(), Flaw::TooDeep)),
        Some(part) => {
            let fault = fault_at(line.number(), deep_flaw(&part));
            sooner_fault(
                fault,
                deep_value(alloc, line, past_blanks(part.behind), lines),
            )
        }
    }
}

/// What is wrong with a scalar item of a sequence with no level left.
fn deep_item(
    alloc: Global,
    line: &SourceLine,
    behind: &SourceLine,
    lines: &[SourceLine],
) -> Result<Fault, NoMemory>
    ensures { IfOk result (λ fault. fault ≡
        sooner_fault (fault_at line.now.number Flaw.TooDeep)
        (alone zero (suc line.now.indent) behind.now lines.now)) }
{
    let fault = fault_at(line.number(), Flaw::TooDeep);
    sooner_fault(fault, alone(alloc, 0, line.floor(), behind, lines))
}

/// What is wrong with a collection with no level left; None where it is an item that is a
/// collection again.
fn deep_turn(
    alloc: Global,
    line: &SourceLine,
    lines: &[SourceLine],
) -> Result<Option<Fault>, NoMemory>
    ensures exact { IfOk result (λ found. found ≡ deep_turn line.now lines.now) }
    ensures sign { IfOk result (λ found. IfNone found (slice_index line.now.text 0 < 128)) }
{
    if !begins_item(line.text()) {
        return Ok(Some(deep_entry(alloc, line, lines)?));
    }
    let behind = line.behind_item();
    if is_nothing(behind.text()) {
        return Ok(Some(fault_at(line.number(), Flaw::TooDeep)));
    }
    if !begins_collection(alloc, behind.text())? {
        return Ok(Some(deep_item(alloc, line, &behind, lines)?));
    }
    if line.tab_behind() {
        return Ok(Some(fault_at(line.number(), Flaw::Tab)));
    }
    Ok(None)
}

/// What is wrong with a collection with no level left: too deep, where its line shows nothing
/// worse.
pub(crate) fn too_deep(
    alloc: Global,
    head: &SourceLine,
    lines: &[SourceLine],
) -> Result<Fault, NoMemory>
    ensures { IfOk result (λ fault. fault ≡
        too_deep (length head.now.text + 1) head.now lines.now) }
{
    let mut line = head.copy();
    for _turn in 0..head.text().len() + 1 {
        if let Some(fault) = deep_turn(alloc, &line, lines)? {
            return Ok(fault);
        }
        line = line.behind_item();
    }
    Ok(fault_at(line.number(), Flaw::TooDeep))
}
