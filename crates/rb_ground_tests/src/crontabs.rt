//! Crontabs and zone rules, with the instants at which they are due or their faults.
use rb_cron::{Fields, Schedule, ScheduleErr, Zone, ZoneErr};
use std::alloc::Global;
use std::test::Fail;

const BERLIN: &str = "CET-1CEST,M3.5.0,M10.5.0/3";

/// The schedule of a crontab and a zone rule.
fn read(alloc: Global, crontab: &str, rule: &str) -> Result<Schedule, Fail> {
    Ok(Schedule::crontab(alloc, crontab, Zone::read(alloc, rule)?)?)
}

/// Whether the first due instants behind one are these; None says that none is left.
fn tells(schedule: &Schedule, after: i64, wanted: &[Option<i64>]) -> Result<bool, Fail> {
    let mut at = after;
    for next in wanted {
        let found = schedule.next(at)?;
        if found != *next {
            return Ok(false);
        }
        at = found.unwrap_or(at);
    }
    Ok(true)
}

/// The same of a crontab and a zone rule. Rows call it, so that their proofs hold no schedule.
fn told(
    alloc: Global,
    crontab: &str,
    rule: &str,
    after: i64,
    wanted: &[Option<i64>],
) -> Result<bool, Fail> {
    let schedule = read(alloc, crontab, rule)?;
    tells(&schedule, after, wanted)
}

#[test]
fn a_gap_is_passed_and_instants_end_with_2199(rt: HostRuntime) -> Result<(), Fail> {
    let alloc = rt.alloc();
    // A gap: 31 March 2024 has no 02:30.
    assert!(rt;
        told(
            alloc,
            "0 30 2 ? * SUN",
            BERLIN,
            1711243800,
            &[Some(1712449800)]
        )?
    );
    // Offsets with seconds, and changes at the ends of days; then a day that never comes.
    let uneven = "AAA-12:45:15<+-9>,M10.5.6/23:59:59,M10.3.4/0";
    let last_days = "51 0 * 31/14 * *";
    assert!(rt; told(alloc, last_days, uneven, 7258060778, &[Some(7258061736)])?);
    assert!(rt; told(alloc, "0 0 0 30 2 ?", BERLIN, 0, &[None])?);
    let last = [Some(7258118399), None];
    assert!(rt; told(alloc, "* * * * * ?", "UTC", 7258118398, &last)?);
    assert!(rt; told(alloc, "* * * * * ?", "UTC", i64::MAX, &[None])?);
    assert!(rt; told(alloc, "* * * * * ?", "UTC", i64::MIN, &[Some(0)])?);
    Ok(())
}

/// The fault of a crontab, if it has one.
fn fault(alloc: Global, crontab: &str) -> Result<Option<ScheduleErr>, Fail> {
    let zone = Zone::read(alloc, "UTC")?;
    Ok(Schedule::crontab(alloc, crontab, zone).err())
}

/// Whether all these crontabs have this fault.
fn have(alloc: Global, wanted: Option<ScheduleErr>, crontabs: &[&str]) -> Result<bool, Fail> {
    for crontab in crontabs {
        if fault(alloc, *crontab)? != wanted {
            return Ok(false);
        }
    }
    Ok(true)
}

/// The same of the bad field with this number.
fn have_bad(alloc: Global, n: u32, crontabs: &[&str]) -> Result<bool, Fail> {
    have(alloc, Some(ScheduleErr::BadField { n }), crontabs)
}

#[test]
fn the_first_bad_field_is_told(rt: HostRuntime) -> Result<(), Fail> {
    let alloc = rt.alloc();
    assert!(rt; have_bad(alloc, 0, &["0 0 0 * *", "0 0 0 * * ? * *"])?);
    assert!(rt; have_bad(alloc, 1, &["60 0 24 1 * 1"])?);
    assert!(rt; have_bad(alloc, 7, &["0 0 0 * * ? 2200"])?);
    assert!(rt; have(alloc, Some(ScheduleErr::BothDays), &["0 0 0 */1 * 1-7"])?);
    assert!(rt; have(alloc, None, &["0 0 22-4/3 ? nov-FEB fri-1,2/7 */100"])?);
    Ok(())
}

/// Whether a text is refused as no zone rule.
fn is_bad_zone(alloc: Global, rule: &str) -> bool {
    matches!(Zone::read(alloc, rule), Err(ZoneErr::BadZone))
}

#[test]
fn a_text_that_is_no_zone_rule_is_refused(rt: HostRuntime) {
    let alloc = rt.alloc();
    for rule in &["utc", "CET-1CEST,M03.5.0,M10.5.0/3"] {
        assert!(rt; is_bad_zone(alloc, *rule), "{rule}");
    }
}

/// The rule of a zone's copy is the zone's.
fn is_copied(alloc: Global, rule: &str) -> Result<bool, Fail> {
    let zone = Zone::read(alloc, rule)?.copy(alloc)?;
    Ok(zone.rule() == rule)
}

#[test]
fn a_zone_is_copied(rt: HostRuntime) -> Result<(), Fail> {
    assert!(rt; is_copied(rt.alloc(), BERLIN)?);
    Ok(())
}

/// Whether these are the texts of Sundays in any year.
fn are_of_sundays(source: &Fields) -> bool {
    source.weekday.as_str() == "SUN" && source.year.as_str() == "*"
}

/// Whether a schedule of Sundays tells its texts.
fn tells_its_texts(schedule: &Schedule, rule: &str) -> bool {
    are_of_sundays(schedule.source()) && schedule.rule() == rule && !schedule.in_utc()
}

/// Whether a schedule in UTC is equal to itself alone.
fn differs(schedule: &Schedule, utc: &Schedule) -> bool {
    utc.in_utc() && !utc.same(schedule) && utc.same(utc)
}

/// Whether the same fields in UTC are another schedule.
fn is_other_in_utc(alloc: Global, schedule: &Schedule) -> Result<bool, Fail> {
    let utc = Schedule::fields(alloc, schedule.source(), Zone::read(alloc, "UTC")?)?;
    Ok(differs(schedule, &utc))
}

/// Whether a schedule of Sundays tells its texts and is another one than that in UTC.
fn is_itself(alloc: Global, crontab: &str, rule: &str) -> Result<bool, Fail> {
    let schedule = read(alloc, crontab, rule)?;
    let is_other = is_other_in_utc(alloc, &schedule)?;
    Ok(is_other && tells_its_texts(&schedule, rule))
}

#[test]
fn a_schedule_tells_its_texts_and_is_another_in_utc(rt: HostRuntime) -> Result<(), Fail> {
    assert!(rt; is_itself(rt.alloc(), "0 30 2 ? * SUN", BERLIN)?);
    Ok(())
}
