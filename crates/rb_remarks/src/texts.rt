//! What is the matter with a text of a form, and what it means here.
use crate::form::TextForm;
use crate::remark::{Found, Matter, matter_unless, tell};
use crate::signs::{holds, other_interpreter, rundeck_variable, sign_in_words};
use rb_causes::{NoMemory, SplitErr, decimal, split_words, truth_of};
use rb_cron::{Schedule, ScheduleErr, Zone, ZoneErr};
use rb_job::{ScheduleField, TextForm as JobTextForm};
use rb_node::{Filter, FilterErr};
use rb_option::{ArgsErr, read_args};
use rb_text::{Pattern, PatternErr, Value};
use std::alloc::Global;

/// The matter with a text, if there is one.
type FoundMatter = Result<Option<Matter>, NoMemory>;

fn has_bytes(text: &str, least: usize, most: usize) -> bool {
    least <= text.len() && text.len() <= most
}

fn is_name(text: &str) -> bool {
    has_bytes(text, 1, 100) && !holds(text.as_bytes(), b"/")
}

fn is_id_sign(byte: u8) -> bool {
    byte.is_ascii_alphanumeric() || matches!(byte, b'_' | b'.' | b'-')
}

fn is_id(text: &str) -> bool {
    has_bytes(text, 1, 250) && text.as_bytes().iter().all(|byte| is_id_sign(*byte))
}

fn is_number(text: &str, least: u64, most: u64) -> bool {
    match decimal(text) {
        None => false,
        Some(number) => least <= number && number <= most,
    }
}

fn is_strategy(text: &str) -> bool {
    matches!(
        text,
        "node-first" | "sequential" | "step-first" | "parallel"
    )
}

fn is_orchestrator(text: &str) -> bool {
    matches!(text, "subset" | "rankTiered" | "maxPercentage")
}

/// Whether the text looks ahead or behind, as a pattern of Java may.
fn looks_around(text: &[u8]) -> bool {
    let ahead = holds(text, b"(?=") || holds(text, b"(?!");
    ahead || holds(text, b"(?<=") || holds(text, b"(?<!")
}

fn pattern_matter(text: &str, error: PatternErr) -> FoundMatter {
    match error {
        PatternErr::BadPattern if looks_around(text.as_bytes()) => Ok(Some(Matter::LookAround)),
        PatternErr::BadPattern => Ok(Some(Matter::BadPattern)),
        PatternErr::TooLong => Ok(Some(Matter::LargePattern)),
        PatternErr::TooBig => Ok(Some(Matter::LargePattern)),
        PatternErr::NoMemory => Err(NoMemory),
    }
}

fn check_pattern(alloc: Global, text: &str) -> FoundMatter {
    match Pattern::build(alloc, text) {
        Ok(_pattern) => Ok(None),
        Err(error) => pattern_matter(text, error),
    }
}

fn check_value(alloc: Global, text: &str) -> FoundMatter {
    match Value::read(alloc, text) {
        Ok(_value) => Ok(None),
        Err(error) => pattern_matter(text, error),
    }
}

fn filter_matter(text: &str, error: FilterErr) -> FoundMatter {
    if let FilterErr::NoMemory = error {
        return Err(NoMemory);
    }
    if holds(text.as_bytes(), b"${") {
        return Ok(Some(Matter::VariableInFilter));
    }
    match error {
        FilterErr::BadPattern(error) => pattern_matter(text, error),
        _ => Ok(Some(Matter::BadFilter)),
    }
}

fn check_filter(alloc: Global, text: &str) -> FoundMatter {
    match Filter::read(alloc, text) {
        Ok(_filter) => Ok(None),
        Err(error) => filter_matter(text, error),
    }
}

fn check_words(alloc: Global, text: &str) -> FoundMatter {
    match split_words(alloc, text) {
        Ok(_words) => Ok(None),
        Err(SplitErr::OpenQuote { .. }) => Ok(Some(Matter::OpenQuote)),
        Err(SplitErr::NoMemory) => Err(NoMemory),
    }
}

fn check_pairs(alloc: Global, text: &str) -> FoundMatter {
    if holds(text.as_bytes(), b"${node.") {
        return Ok(Some(Matter::NodeInPairs));
    }
    if text.len() > 1_048_576 {
        return Ok(Some(Matter::BadPairs));
    }
    match read_args(alloc, text) {
        Ok(_pairs) => Ok(None),
        Err(ArgsErr::OpenQuote) => Ok(Some(Matter::OpenQuote)),
        Err(ArgsErr::NoMemory) => Err(NoMemory),
        Err(_) => Ok(Some(Matter::BadPairs)),
    }
}

fn check_crontab(alloc: Global, text: &str) -> FoundMatter {
    match Zone::read(alloc, "UTC") {
        Ok(zone) => match Schedule::crontab(alloc, text, zone) {
            Ok(_schedule) => Ok(None),
            Err(ScheduleErr::NoMemory) => Err(NoMemory),
            Err(_) => Ok(Some(Matter::BadCrontab)),
        },
        Err(_) => Err(NoMemory),
    }
}

/// The crontab with this text as one field.
fn crontab_with(alloc: Global, field: ScheduleField, text: &str) -> Result<String, NoMemory> {
    Ok(match field {
        ScheduleField::Seconds => format!(in alloc; "{text} 0 0 * * ? *")?,
        ScheduleField::Minute => format!(in alloc; "0 {text} 0 * * ? *")?,
        ScheduleField::Hour => format!(in alloc; "0 0 {text} * * ? *")?,
        ScheduleField::Day => format!(in alloc; "0 0 0 {text} * ? *")?,
        ScheduleField::Month => format!(in alloc; "0 0 0 * {text} ? *")?,
        ScheduleField::Weekday => format!(in alloc; "0 0 0 ? * {text} *")?,
        ScheduleField::Year => format!(in alloc; "0 0 0 * * ? {text}")?,
    })
}

fn check_field(alloc: Global, field: ScheduleField, text: &str) -> FoundMatter {
    if text == "?" && matches!(field, ScheduleField::Day | ScheduleField::Weekday) {
        return Ok(None);
    }
    check_crontab(alloc, crontab_with(alloc, field, text)?.as_str())
}

/// What is the matter with a text of a form.
fn text_matter(alloc: Global, form: TextForm, text: &str) -> FoundMatter {
    match form {
        TextForm::OfJob(form) => job_text_matter(alloc, form, text),
        TextForm::Value => check_value(alloc, text),
        TextForm::Script => Ok(None),
    }
}

fn job_text_matter(alloc: Global, form: JobTextForm, text: &str) -> FoundMatter {
    match form {
        JobTextForm::Any => Ok(None),
        JobTextForm::Name => Ok(matter_unless(is_name(text), Matter::NoName)),
        JobTextForm::Group => Ok(matter_unless(has_bytes(text, 0, 100), Matter::NoName)),
        JobTextForm::Id => Ok(matter_unless(is_id(text), Matter::NoId)),
        JobTextForm::Truth => Ok(matter_unless(truth_of(text).is_some(), Matter::NoTruth)),
        JobTextForm::Number { least, most } => {
            Ok(matter_unless(is_number(text, least, most), Matter::NoNumber))
        }
        JobTextForm::Strategy => Ok(matter_unless(is_strategy(text), Matter::NoStrategy)),
        JobTextForm::Filter => check_filter(alloc, text),
        JobTextForm::RankOrder => Ok(matter_unless(
            matches!(text, "ascending" | "descending"),
            Matter::NoRankOrder,
        )),
        // The fault line alone tells of two options of one name.
        JobTextForm::OptionName => Ok(None),
        JobTextForm::Pattern => check_pattern(alloc, text),
        JobTextForm::Orchestrator => {
            Ok(matter_unless(is_orchestrator(text), Matter::NoOrchestrator))
        }
        JobTextForm::Command => Ok(None),
        JobTextForm::Words => check_words(alloc, text),
        JobTextForm::Pairs => check_pairs(alloc, text),
        JobTextForm::Crontab => check_crontab(alloc, text),
        JobTextForm::Field(field) => check_field(alloc, field, text),
        JobTextForm::ZoneName => Ok(matter_unless(text == "UTC", Matter::UnknownZone)),
    }
}

/// Makes the remarks on a text of a form.
pub(crate) fn look_at_text<'a>(
    alloc: Global,
    found: &mut Found<'a>,
    form: TextForm,
    key: &'a str,
    text: &'a str,
    line: u32,
) -> Result<(), NoMemory> {
    match form {
        TextForm::OfJob(JobTextForm::Command) => look_at_command(alloc, found, key, text, line),
        TextForm::Script => look_at_script(found, key, text, line),
        _ => match text_matter(alloc, form, text)? {
            None => Ok(()),
            Some(matter) => tell(found, key, line, text, matter),
        },
    }
}

fn look_at_command<'a>(
    alloc: Global,
    found: &mut Found<'a>,
    key: &'a str,
    text: &'a str,
    line: u32,
) -> Result<(), NoMemory> {
    match split_words(alloc, text) {
        Ok(words) => {
            if words.is_empty() {
                return tell(found, key, line, text, Matter::NoWords);
            }
            if let Some(sign) = sign_in_words(words.as_slice()) {
                tell(found, key, line, sign, Matter::ShellSign)?;
            }
            look_for_variable(found, key, text, line)
        }
        Err(SplitErr::OpenQuote { .. }) => tell(found, key, line, text, Matter::OpenQuote),
        Err(SplitErr::NoMemory) => Err(NoMemory),
    }
}

fn look_for_variable<'a>(
    found: &mut Found<'a>,
    key: &'a str,
    text: &'a str,
    line: u32,
) -> Result<(), NoMemory> {
    match rundeck_variable(text.as_bytes()) {
        None => Ok(()),
        Some(name) => tell(found, key, line, name, Matter::RundeckVariable),
    }
}

fn look_at_script<'a>(
    found: &mut Found<'a>,
    key: &'a str,
    text: &'a str,
    line: u32,
) -> Result<(), NoMemory> {
    if let Some(interpreter) = other_interpreter(text.as_bytes()) {
        tell(found, key, line, interpreter, Matter::Interpreter)?;
    }
    look_for_variable(found, key, text, line)
}
