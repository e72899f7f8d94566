//! `next`: the next instants of a schedule.
ghost use Rattle.rb_causes.specs.Sinks.{StopsAtFault};
ghost use Rattle.rb_cron.specs.Next.{next_due};
ghost use Rattle.rb_cron.specs.ZoneRules.{is_rule};
ghost use Rattle.rb_tools.specs.Instants.{upcoming_text, instant_line, IsSchedule, RefusesCrontab, RefusesSchedule, ReadsInstants};
ghost use Rattle.rb_tools.specs.Printing.{Answered};
ghost use Rattle.std.specs.Prelude.{◌≡◌, ◌⊎◌, ℕ, List, true, false, Ok, Err, IfOk, IfErr, OnOk, ◌++◌, string_bytes};

use crate::printing::give;
use crate::refusal::ToolRefusal;
use rb_causes::{NoMemory, Sink};
use rb_cron::laws::{next_is_least, next_is_one};
use rb_cron::{Schedule, ScheduleErr, Zone, ZoneErr};
use std::alloc::{AllocError, Global};

/// Prints so many instants at which the schedule is due, later than `after`; where they run out
/// earlier, `none` stands behind them.
pub(crate) fn print_next<O: Sink>(
    alloc: Global,
    crontab: &str,
    zone: &str,
    after: i64,
    count: u32,
    out: &mut O,
) -> u8
    ensures next { Answered (ReadsInstants crontab.now zone.now after count) result
        (O.shown out.old) (O.shown out.new) }
    ensures statuses { (result ≡ 0) ⊎ (result ≡ 3) ⊎ (result ≡ 7) ⊎ (result ≡ 9) }
    ensures out { StopsAtFault (O.shown out.old) (O.shown out.new) }
{
    give(out, "", instants_text(alloc, crontab, zone, after, count))
}

fn instants_text(
    alloc: Global,
    crontab: &str,
    zone: &str,
    after: i64,
    count: u32,
) -> Result<String, ToolRefusal>
    ensures ok { IfOk result (λ text.
        ReadsInstants crontab.now zone.now after count (Ok (string_bytes text))) }
    ensures refused { IfErr result (λ refusal.
        ReadsInstants crontab.now zone.now after count (Err refusal)) }
{
    let schedule = read_schedule(alloc, crontab, zone)?;
    match upcoming_text(alloc, &schedule, after, count) {
        Ok(text) => Ok(text),
        Err(NoMemory) => Err(ToolRefusal::NoMemory),
    }
}

// The schedule of both texts. The crontab is looked at first, whatever the zone is.
fn read_schedule(alloc: Global, crontab: &str, zone: &str) -> Result<Schedule, ToolRefusal>
    ensures ok { IfOk result (λ schedule. IsSchedule crontab.now zone.now schedule) }
    ensures refused { IfErr result (RefusesSchedule crontab.now zone.now) }
{
    match Zone::read(alloc, zone) {
        Ok(zone) => read_crontab(alloc, crontab, zone),
        Err(ZoneErr::BadZone) => Err(without_zone(alloc, crontab)),
        Err(ZoneErr::NoMemory) => Err(ToolRefusal::NoMemory),
    }
}

// Why a crontab with a bad zone is no schedule: for a fault of its own, which any zone shows, or
// for that zone.
fn without_zone(alloc: Global, crontab: &str) -> ToolRefusal
    ensures { (zone : List ℕ) → is_rule zone ≡ false →
        RefusesSchedule crontab.now zone result }
{
    let Ok(utc) = Zone::read(alloc, "UTC") else {
        return ToolRefusal::NoMemory;
    };
    match read_crontab(alloc, crontab, utc) {
        Ok(_) => ToolRefusal::Zone,
        Err(refusal) => refusal,
    }
}

fn read_crontab(alloc: Global, crontab: &str, zone: Zone) -> Result<Schedule, ToolRefusal>
    requires { is_rule zone ≡ true }
    ensures ok { IfOk result (λ schedule. IsSchedule crontab.now zone schedule) }
    ensures refused { IfErr result (RefusesCrontab crontab.now) }
{
    match Schedule::crontab(alloc, crontab, zone) {
        Ok(schedule) => Ok(schedule),
        Err(ScheduleErr::NoMemory) => Err(ToolRefusal::NoMemory),
        Err(error) => Err(ToolRefusal::Crontab(error)),
    }
}

// The next instants, a line each.
fn upcoming_text(
    alloc: Global,
    schedule: &Schedule,
    after: i64,
    count: u32,
) -> Result<String, NoMemory>
    ensures { IfOk result (λ text.
        string_bytes text ≡ upcoming_text schedule.now count after) }
{
    let mut text = String::new(alloc);
    push_upcoming(alloc, &mut text, schedule, after, count)?;
    Ok(text)
}

fn push_upcoming(
    alloc: Global,
    text: &mut String,
    schedule: &Schedule,
    after: i64,
    count: u32,
) -> Result<(), NoMemory>
    ensures { OnOk result (string_bytes text.new
        ≡ string_bytes text.old ++ upcoming_text schedule.now count after) }
{
    // That the next instant is a later one.
    next_is_least();
    if count == 0 {
        return Ok(());
    }
    match next_due(schedule, after)? {
        Some(instant) => {
            text.push_str(instant_line(alloc, instant)?.as_str())?;
            push_upcoming(alloc, text, schedule, instant, count - 1)
        }
        None => Ok(text.push_str("none\n")?),
    }
}

fn next_due(schedule: &Schedule, after: i64) -> Result<Option<i64>, NoMemory>
    ensures { IfOk result (λ found. found ≡ next_due schedule.now after) }
{
    // That the clauses of `next` say which instant it is.
    next_is_one();
    next_is_least();
    match schedule.next(after)? {
        Some(instant) => Ok(Some(instant)),
        None => Ok(None),
    }
}

fn instant_line(alloc: Global, instant: i64) -> Result<String, AllocError>
    ensures { IfOk result (λ text. string_bytes text ≡ instant_line instant) }
{
    format!(in alloc; "{instant}\n")
}
