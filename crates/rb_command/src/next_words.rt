//! The words of `next`.
ghost use Rattle.rb_command.specs.NextWords.{next_command, next_by, instant_in, is_count};
ghost use Rattle.std.specs.Prelude.{◌≡◌, Ok, None, IfOk};

use crate::command::Command;
use rb_causes::{NoMemory, Text, decimal};
use std::alloc::Global;

/// How many instants are asked for at most.
const MOST: u64 = 100;

/// CRONTAB ZONE AFTER COUNT
pub(crate) fn read_next(alloc: Global, words: &[Text]) -> Result<Option<Command>, NoMemory>
    ensures command { IfOk result (λ command. command ≡ next_command words.now) }
    ensures none { next_command words.now ≡ None → result ≡ Ok None }
{
    let [crontab, zone, after, count] = words else {
        return Ok(None);
    };
    let after = instant_in(after.as_str());
    next_by(alloc, crontab, zone, after, decimal(count.as_str()))
}

// A decimal, of at most 18 digits, is a count of seconds.
fn instant_in(word: &str) -> Option<i64>
    ensures { result ≡ instant_in word.now }
{
    match decimal(word) {
        Some(number) => Some(number as i64),
        None => None,
    }
}

fn next_by(
    alloc: Global,
    crontab: &Text,
    zone: &Text,
    after: Option<i64>,
    count: Option<u64>,
) -> Result<Option<Command>, NoMemory>
    ensures command { IfOk result (λ command.
        command ≡ next_by crontab.now zone.now after count) }
    ensures none { next_by crontab.now zone.now after count ≡ None → result ≡ Ok None }
{
    let (Some(after), Some(count)) = (after, count) else {
        return Ok(None);
    };
    if !is_count(count) {
        return Ok(None);
    }
    Ok(Some(Command::Next {
        crontab: crontab.copy(alloc)?,
        zone: zone.copy(alloc)?,
        after,
        count: count as u32,
    }))
}

fn is_count(count: u64) -> bool
    ensures { result ≡ is_count count }
{
    1 <= count && count <= MOST
}
