//! How the nodes of a job are drawn, and when it is due.
ghost use Rattle.rb_canon.specs.Views.{field_view};
ghost use Rattle.rb_causes.specs.Signs.{space};
ghost use Rattle.rb_export.specs.Jobs.{number_slots, numbered_slots, tiered_slots, orchestrator_value, crontab_of, schedule_slots, schedule_value};
ghost use Rattle.rb_export.specs.Slots.{present, map_with};
ghost use Rattle.std.specs.Prelude.{◌≡◌, ◌++◌, ◌∷◌, [], Some, codes, map, string_bytes, IfOk, OnOk};

use crate::fields::{push_number, push_text, push_value};
use rb_canon::{Field, map};
use rb_causes::{NoMemory, Text};
use rb_cron::{Fields, Schedule};
use rb_job::Orchestrator;
use std::alloc::Global;

/// A number alone.
fn number_fields(alloc: Global, key: &str, number: u32) -> Result<Vec<Field>, NoMemory>
    ensures { IfOk result (λ fields. map field_view fields.items
        ≡ present (number_slots key.now number)) }
{
    let mut fields = Vec::new(alloc);
    push_number(alloc, &mut fields, key, number)?;
    Ok(fields)
}

/// An orchestrator with its number.
fn numbered(alloc: Global, name: &str, key: &str, number: u32) -> Result<Vec<Field>, NoMemory>
    ensures { IfOk result (λ fields. map field_view fields.items
        ≡ present (numbered_slots name.now key.now number)) }
{
    let mut fields = Vec::new(alloc);
    push_text(alloc, &mut fields, "type", name)?;
    let numbers = number_fields(alloc, key, number)?;
    push_value(alloc, &mut fields, "configuration", map(numbers))?;
    Ok(fields)
}

fn rank_tiered(alloc: Global) -> Result<Vec<Field>, NoMemory>
    ensures { IfOk result (λ fields. map field_view fields.items ≡ present tiered_slots) }
{
    let mut fields = Vec::new(alloc);
    push_text(alloc, &mut fields, "type", "rankTiered")?;
    Ok(fields)
}

fn push_numbered(
    alloc: Global,
    fields: &mut Vec<Field>,
    name: &str,
    key: &str,
    number: u32,
) -> Result<(), NoMemory>
    ensures { OnOk result (map field_view fields.new.items ≡ map field_view fields.old.items
        ++ present ((
          codes "orchestrator",
          Some (map_with (numbered_slots name.now key.now number)),
        ) ∷ [])) }
{
    let inner = numbered(alloc, name, key, number)?;
    push_value(alloc, fields, "orchestrator", map(inner))
}

fn push_tiered(alloc: Global, fields: &mut Vec<Field>) -> Result<(), NoMemory>
    ensures { OnOk result (map field_view fields.new.items ≡ map field_view fields.old.items
        ++ present ((codes "orchestrator", Some (map_with tiered_slots)) ∷ [])) }
{
    let inner = rank_tiered(alloc)?;
    push_value(alloc, fields, "orchestrator", map(inner))
}

/// Adds the orchestrator of a job, if it has one.
pub(crate) fn push_orchestrator(
    alloc: Global,
    fields: &mut Vec<Field>,
    orchestrator: Orchestrator,
) -> Result<(), NoMemory>
    ensures { OnOk result (map field_view fields.new.items ≡ map field_view fields.old.items
        ++ present ((codes "orchestrator", orchestrator_value orchestrator) ∷ [])) }
{
    match orchestrator {
        Orchestrator::Plain => Ok(()),
        Orchestrator::Subset(count) => push_numbered(alloc, fields, "subset", "count", count),
        Orchestrator::RankTiered => push_tiered(alloc, fields),
        Orchestrator::MaxPercentage(percent) => {
            push_numbered(alloc, fields, "maxPercentage", "percent", percent)
        }
    }
}

fn push_part(text: &mut String, part: &Text) -> Result<(), NoMemory>
    ensures { OnOk result (string_bytes text.new ≡ string_bytes text.old ++ part.now) }
{
    text.push_str(part.as_str())?;
    Ok(())
}

fn push_behind(text: &mut String, part: &Text) -> Result<(), NoMemory>
    ensures { OnOk result (string_bytes text.new ≡ string_bytes text.old ++ space ∷ part.now) }
{
    text.push(' ')?;
    text.push_str(part.as_str())?;
    Ok(())
}

fn push_crontab(text: &mut String, fields: &Fields) -> Result<(), NoMemory>
    ensures { OnOk result
        (string_bytes text.new ≡ string_bytes text.old ++ crontab_of fields.now) }
{
    push_part(text, &fields.seconds)?;
    push_behind(text, &fields.minute)?;
    push_behind(text, &fields.hour)?;
    push_behind(text, &fields.day)?;
    push_behind(text, &fields.month)?;
    push_behind(text, &fields.weekday)?;
    push_behind(text, &fields.year)
}

/// The seven texts of a schedule, parted by blanks.
fn crontab_of(alloc: Global, fields: &Fields) -> Result<String, NoMemory>
    ensures { IfOk result (λ s. string_bytes s ≡ crontab_of fields.now) }
{
    let mut text = String::new(alloc);
    push_crontab(&mut text, fields)?;
    Ok(text)
}

fn schedule_fields(alloc: Global, fields: &Fields) -> Result<Vec<Field>, NoMemory>
    ensures { IfOk result (λ made. map field_view made.items
        ≡ present (schedule_slots fields.now)) }
{
    let crontab = crontab_of(alloc, fields)?;
    let mut made = Vec::new(alloc);
    push_text(alloc, &mut made, "crontab", crontab.as_str())?;
    Ok(made)
}

/// Adds when a job is due by itself, if it ever is.
pub(crate) fn push_schedule(
    alloc: Global,
    fields: &mut Vec<Field>,
    schedule: &Option<Schedule>,
) -> Result<(), NoMemory>
    ensures { OnOk result (map field_view fields.new.items ≡ map field_view fields.old.items
        ++ present ((codes "schedule", schedule_value schedule.now) ∷ [])) }
{
    match schedule {
        None => Ok(()),
        Some(schedule) => {
            let inner = schedule_fields(alloc, schedule.source())?;
            push_value(alloc, fields, "schedule", map(inner))
        }
    }
}
