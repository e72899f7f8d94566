//! What is the matter with a map as a whole.
ghost use Rattle.rb_acl_doc.specs.Keys.{is_one_context, names_somebody};
ghost use Rattle.rb_job.specs.Parts.{has_one_act};
ghost use Rattle.rb_yaml.specs.Tree.{pair_tree};
ghost use Rattle.std.specs.Prelude.{◌≡◌, map};

use crate::form::Part;
use crate::remark::{Found, Matter, tell};
use crate::walking::line_of;
use rb_causes::NoMemory;
use rb_job::Part as JobPart;
use rb_values::{entries_at, has_key, items_in, text_at, text_in, value_at};
use rb_yaml::{Pair, Yaml};

/// Remarks that the key is missing, if it is.
fn look_for<'a>(
    found: &mut Found<'a>,
    key: &'a str,
    line: u32,
    entries: &[Pair],
    matter: Matter,
) -> Result<(), NoMemory> {
    if has_key(entries, key) {
        return Ok(());
    }
    tell(found, key, line, "", matter)
}

fn tell_unless<'a>(
    found: &mut Found<'a>,
    holds: bool,
    key: &'a str,
    line: u32,
    matter: Matter,
) -> Result<(), NoMemory> {
    if holds {
        return Ok(());
    }
    tell(found, key, line, "", matter)
}

/// Makes the remarks on a map as a whole.
pub(crate) fn look_at_whole<'a>(
    found: &mut Found<'a>,
    part: Part,
    key: &'a str,
    line: u32,
    entries: &[Pair],
) -> Result<(), NoMemory> {
    match part {
        Part::OfJob(part) => look_at_job_part(found, part, key, line, entries),
        Part::Policy => look_at_policy(found, line, entries),
        Part::Context => tell_unless(
            found,
            is_one_context(entries),
            key,
            line,
            Matter::OneContext,
        ),
        Part::By => tell_unless(found, names_somebody(entries), key, line, Matter::Nobody),
        Part::Rule => tell_unless(found, has_action(entries), key, line, Matter::NoAction),
        _ => Ok(()),
    }
}

fn look_at_job_part<'a>(
    found: &mut Found<'a>,
    part: JobPart,
    key: &'a str,
    line: u32,
    entries: &[Pair],
) -> Result<(), NoMemory> {
    match part {
        JobPart::Job => look_at_job(found, line, entries),
        JobPart::Sequence => look_for(found, "commands", line, entries, Matter::Missing),
        JobPart::Command => look_at_step(found, key, line, entries),
        JobPart::Handler => look_at_step(found, key, line, entries),
        JobPart::Reference => look_at_reference(found, line, entries),
        JobPart::JobOption => look_for(found, "name", line, entries, Matter::Missing),
        JobPart::Orchestrator => {
            tell_unless(found, has_its_number(entries), key, line, Matter::NoCount)
        }
        JobPart::Schedule => look_at_schedule(found, key, line, entries),
        _ => Ok(()),
    }
}

fn look_at_job<'a>(found: &mut Found<'a>, line: u32, entries: &[Pair]) -> Result<(), NoMemory> {
    look_for(found, "name", line, entries, Matter::Missing)?;
    look_for(found, "sequence", line, entries, Matter::Missing)?;
    tell_unless(found, has_one_id(entries), "uuid", line, Matter::OtherId)
}

/// Whether the two ids are the same, where both are there.
fn has_one_id(entries: &[Pair]) -> bool {
    match (text_at(entries, "id"), text_at(entries, "uuid")) {
        (Some(id), Some(other)) => id.as_str() == other.as_str(),
        _ => true,
    }
}

/// Whether an orchestrator that takes a number has one.
fn has_its_number(entries: &[Pair]) -> bool {
    let numbers = entries_at(entries, "configuration");
    match text_at(entries, "type") {
        None => false,
        Some(name) => match name.as_str() {
            "subset" => has_key(numbers, "count"),
            "maxPercentage" => has_key(numbers, "percent"),
            _ => true,
        },
    }
}

fn look_at_schedule<'a>(
    found: &mut Found<'a>,
    key: &'a str,
    line: u32,
    entries: &[Pair],
) -> Result<(), NoMemory> {
    let alone = !has_key(entries, "crontab") || entries.len() == 1;
    tell_unless(found, alone, key, line, Matter::CrontabAlone)?;
    let both = names_days(entries, "weekday") && names_days(entries, "dayofmonth");
    tell_unless(found, !both, key, line, Matter::BothDays)
}

/// Whether the days under a key are some, and not all.
fn names_days(entries: &[Pair], key: &str) -> bool {
    match text_at(entries_at(entries, key), "day") {
        None => false,
        Some(days) => !matches!(days.as_str(), "*" | "?"),
    }
}

fn look_at_policy<'a>(found: &mut Found<'a>, line: u32, entries: &[Pair]) -> Result<(), NoMemory> {
    look_for(found, "context", line, entries, Matter::MissingContext)?;
    look_for(found, "by", line, entries, Matter::Missing)?;
    look_for(found, "for", line, entries, Matter::Missing)
}

fn look_at_reference<'a>(
    found: &mut Found<'a>,
    line: u32,
    entries: &[Pair],
) -> Result<(), NoMemory> {
    look_for(found, "name", line, entries, Matter::Missing)?;
    tell_unless(
        found,
        is_node_step(entries),
        "nodeStep",
        line,
        Matter::NoNodeStep,
    )
}

fn look_at_step<'a>(
    found: &mut Found<'a>,
    key: &'a str,
    line: u32,
    entries: &[Pair],
) -> Result<(), NoMemory> {
    tell_unless(found, has_one_act(entries), key, line, Matter::NoOneAct)?;
    match value_at(entries, "args") {
        None => Ok(()),
        Some(args) => tell_unless(
            found,
            has_key(entries, "script"),
            "args",
            line_of(args),
            Matter::ArgsAlone,
        ),
    }
}

/// Whether exactly one of the three things to do is there.
fn has_one_act(entries: &[Pair]) -> bool
    ensures { result ≡ has_one_act (map pair_tree entries.now) }
{
    let jobref = has_key(entries, "jobref");
    if has_key(entries, "exec") {
        return !has_key(entries, "script") && !jobref;
    }
    if has_key(entries, "script") {
        return !jobref;
    }
    jobref
}

fn is_node_step(entries: &[Pair]) -> bool {
    match text_at(entries, "nodeStep") {
        None => false,
        Some(text) => text.as_str() == "true",
    }
}

fn is_one_context(entries: &[Pair]) -> bool
    ensures { result ≡ is_one_context (map pair_tree entries.now) }
{
    has_key(entries, "project") != has_key(entries, "application")
}

fn names_somebody(entries: &[Pair]) -> bool
    ensures { result ≡ names_somebody (map pair_tree entries.now) }
{
    has_key(entries, "username") || has_key(entries, "group")
}

fn has_action(entries: &[Pair]) -> bool {
    is_filled(value_at(entries, "allow")) || is_filled(value_at(entries, "deny"))
}

fn is_filled(value: Option<&Yaml>) -> bool {
    match value {
        None => false,
        Some(value) => is_filled_text(value) || has_filled_item(value),
    }
}

fn is_filled_text(value: &Yaml) -> bool {
    match text_in(value) {
        None => false,
        Some(text) => !text.as_str().is_empty(),
    }
}

fn has_filled_item(value: &Yaml) -> bool {
    match items_in(value) {
        None => false,
        Some(items) => items.iter().any(|item| is_filled_text(item)),
    }
}
