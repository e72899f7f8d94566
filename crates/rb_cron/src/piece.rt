//! Pieces of time: stretches of instants in which neither the offset of the clock changes nor the
//! offset that the calendar gives for what the clock shows.
ghost use Rattle.jiff.specs.Words.{plain_zone, plain_offsets};
ghost use Rattle.jiff_core.specs.Calendar.{IsYear, IsBetween, IsWithin};
ghost use Rattle.jiff_core.specs.Date.{epoch_day};
ghost use Rattle.jiff_core.specs.Timestamp.{IsOffsetSeconds};
ghost use Rattle.jiff_tz.specs.PosixDay.{is_rule_day};
ghost use Rattle.jiff_tz.specs.PosixRule as rules;
ghost use Rattle.jiff_tz.specs.PosixText.{day_time_view, dst_view};
ghost use Rattle.rb_cron.specs.Clock as clock;
ghost use Rattle.rb_cron.specs.Readings.{earlier_offset};
ghost use Rattle.rb_cron.specs.Next.{last_instant, end_of_schedules};
ghost use Rattle.rb_cron.specs.Pieces.{IsPieceOf, IsCeiling, IsInYear, IsYearOf, IsNear, IsNearer, IsNearest, AreEdges, AreBounded, IsSteadyTo, IsShownTo, IsGivenTo, clock_of};
ghost use Rattle.std.specs.Int.{IsInRange};
ghost use Rattle.std.specs.Prelude.{◌≡◌, ◌≤◌, ◌<◌, ◌≤ℤ◌, ◌<ℤ◌, ◌+ℤ◌, ◌-ℤ◌, ◌*ℤ◌, pos, neg_ℤ, true, Some, IfSome};

use jiff::Timestamp;
use jiff::tz::{AmbiguousOffset, TimeZone};
use jiff_core::civil::{self, Date};
use jiff_tz::posix::{Day, DayTime, Dst};

const SECONDS_PER_DAY: i64 = 86_400;

/// The first instant behind those of schedules: the beginning of 2200 at UTC.
pub(crate) const END: i64 = 7_258_118_400;

/// A stretch of instants up to an end.
#[derive(Clone, Copy)]
pub(crate) struct Piece {
    /// The first instant behind it.
    pub(crate) end: i64,
    /// How far the clock is ahead of UTC, in seconds.
    pub(crate) offset: i64,
    /// Whether the zone gives this offset for what the clock shows.
    pub(crate) agrees: bool,
}

/// A year by its first second and that of the next year, on a clock.
#[derive(Clone, Copy)]
struct Year {
    number: i16,
    first: i64,
    next: i64,
}

/// The edges on the wall clock: where the year ends and where summer time begins and ends, and
/// where the gap or the fold beside such a change ends.
#[derive(Clone, Copy)]
struct Edges {
    year: i64,
    start: i64,
    finish: i64,
    gap: i64,
    fold: i64,
}

/// The piece that begins at an instant.
pub(crate) fn piece_at(zone: &TimeZone<'static>, at: i64) -> Piece
    requires { IsBetween (neg_ℤ (pos 93_599)) last_instant at }
    ensures piece { IsPieceOf (clock_of (plain_zone zone.now)) at result }
    ensures after { at <ℤ result.end }
    ensures before { result.end ≤ℤ end_of_schedules }
    ensures offset { IsOffsetSeconds result.offset }
{
    let timestamp = match Timestamp::from_second(at) {
        Ok(timestamp) => timestamp,
        Err(_) => unreachable!(),
    };
    let offset = zone.to_offset(timestamp).seconds() as i64;
    let civil = zone.to_datetime(timestamp);
    let given = given_offset(zone.to_ambiguous_timestamp(civil).offset());
    Piece {
        end: piece_end(zone, at, offset),
        offset,
        agrees: given == Some(offset),
    }
}

/// The offset of the instant that the zone gives: of the earlier one in a fold, none in a gap.
fn given_offset(offset: AmbiguousOffset) -> Option<i64>
    ensures { result ≡ earlier_offset (plain_offsets offset) }
{
    match offset {
        AmbiguousOffset::Unambiguous { offset } => Some(offset.seconds() as i64),
        AmbiguousOffset::Gap { .. } => None,
        AmbiguousOffset::Fold { before, .. } => Some(before.seconds() as i64),
    }
}

/// The end of the piece that begins at an instant.
fn piece_end(zone: &TimeZone<'static>, at: i64, offset: i64) -> i64
    requires at { IsBetween (neg_ℤ (pos 93_599)) last_instant at }
    requires offset { IsOffsetSeconds offset }
    ensures steady { IfSome (clock_of (plain_zone zone.now)) (λ z.
        IsSteadyTo z.std_seconds z.dst offset at result) }
    ensures after { at <ℤ result }
    ensures before { result ≤ℤ end_of_schedules }
{
    match zone.to_plain() {
        jiff_tz::TimeZone::Posix(rule) => match rule.dst {
            Some(dst) => end_between(rule.std_offset.seconds as i64, &dst, at, offset),
            None => END,
        },
        jiff_tz::TimeZone::UTC => END,
        jiff_tz::TimeZone::Unknown => END,
        jiff_tz::TimeZone::Fixed(_) => END,
        jiff_tz::TimeZone::Tzif(_) => END,
    }
}

/// The least edge behind the instant. An edge is where a year begins, where summer time begins or
/// ends, at UTC and on the wall clock, and where the gap or the fold beside such a change ends.
fn end_between(std: i64, summer: &Dst, at: i64, offset: i64) -> i64
    requires std { IsOffsetSeconds std }
    requires at { IsBetween (neg_ℤ (pos 93_599)) last_instant at }
    requires offset { IsOffsetSeconds offset }
    ensures steady { IsSteadyTo std (Some (dst_view summer.now)) offset at result }
    ensures after { at <ℤ result }
    ensures before { result ≤ℤ end_of_schedules }
{
    let end = utc_end(std, summer, at);
    wall_end(std, summer, at, offset, end)
}

/// The least edge at UTC.
fn utc_end(std: i64, summer: &Dst, at: i64) -> i64
    requires std { IsOffsetSeconds std }
    requires at { IsBetween (neg_ℤ (pos 93_599)) last_instant at }
    ensures steady { IsShownTo std (dst_view summer.now) at result }
    ensures after { at <ℤ result }
    ensures before { result ≤ℤ end_of_schedules }
{
    let year = year_of(at);
    let start = change_in(&year, summer.rule.start, std);
    let finish = change_in(&year, summer.rule.end, seconds_ahead(summer));
    let end = nearer(at, END, year.next);
    let end = nearer(at, end, start);
    nearer(at, end, finish)
}

/// The least edge on the wall clock, or the end where that is nearer.
fn wall_end(std: i64, summer: &Dst, at: i64, offset: i64, end: i64) -> i64
    requires std { IsOffsetSeconds std }
    requires at { IsBetween (neg_ℤ (pos 93_599)) last_instant at }
    requires offset { IsOffsetSeconds offset }
    requires end { at <ℤ end }
    requires last { end ≤ℤ end_of_schedules }
    ensures steady { IsGivenTo std (dst_view summer.now) offset at result }
    ensures after { at <ℤ result }
    ensures before { result ≤ℤ end }
{
    let year = year_of(at + offset);
    let start = change_in(&year, summer.rule.start, 0);
    let finish = change_in(&year, summer.rule.end, 0);
    let shift = shift_of(summer, std);
    nearest(at, end, wall_edges(year.next, start, finish, shift, offset))
}

/// The edges on the wall clock, as instants at an offset.
fn wall_edges(next: i64, start: i64, finish: i64, shift: i64, offset: i64) -> Edges
    requires next { IsNear next }
    requires start { IsNear start }
    requires finish { IsNear finish }
    requires shift { IsBetween (neg_ℤ (pos 200_000)) (pos 200_000) shift }
    requires offset { IsOffsetSeconds offset }
    ensures edges { AreEdges next start finish shift offset result }
    ensures bounds { AreBounded result }
{
    Edges {
        year: next - offset,
        start: start - offset,
        finish: finish - offset,
        gap: start + shift - offset,
        fold: finish - shift - offset,
    }
}

/// The least edge behind the instant, or the end where that is nearer.
fn nearest(at: i64, end: i64, edges: Edges) -> i64
    requires at { IsBetween (neg_ℤ (pos 93_599)) last_instant at }
    requires end { at <ℤ end }
    requires last { end ≤ℤ end_of_schedules }
    requires edges { AreBounded edges }
    ensures { IsNearest at end edges result }
{
    let end = nearer(at, end, edges.year);
    let end = nearer(at, end, edges.start);
    let end = nearer(at, end, edges.finish);
    let end = nearer(at, end, edges.gap);
    nearer(at, end, edges.fold)
}

/// How far the clock is ahead of UTC in summer time.
fn seconds_ahead(summer: &Dst) -> i64
    ensures value { result ≡ summer.now.offset.seconds }
    ensures bound { IsOffsetSeconds result }
{
    summer.offset.seconds as i64
}

/// How far the clock moves where summer time begins.
fn shift_of(summer: &Dst, std: i64) -> i64
    requires { IsOffsetSeconds std }
    ensures value { result ≡ summer.now.offset.seconds -ℤ std }
    ensures bound { IsBetween (neg_ℤ (pos 200_000)) (pos 200_000) result }
{
    seconds_ahead(summer) - std
}

/// The nearer one of an end and an edge, where the edge lies behind the instant.
fn nearer(at: i64, end: i64, edge: i64) -> i64
    ensures { IsNearer at end edge result }
{
    if at < edge && edge < end { edge } else { end }
}

/// The year in which a second lies.
fn year_of(second: i64) -> Year
    requires { IsBetween (neg_ℤ (pos 187_198)) (pos 7_258_211_999) second }
    ensures year { IsYearOf result }
    ensures holds { IsInYear result.number second }
{
    match Date::from_unix_epoch_day(second.div_euclid(SECONDS_PER_DAY)) {
        Ok(date) => Year {
            number: date.year,
            first: first_day(date.year) as i64 * SECONDS_PER_DAY,
            next: first_day(date.year + 1) as i64 * SECONDS_PER_DAY,
        },
        Err(_) => unreachable!(),
    }
}

/// The number of the day that begins a year.
fn first_day(year: i16) -> i32
    requires { IsYear year }
    ensures value { result ≡ rules.first_day year }
    ensures bound { IsBetween (neg_ℤ (pos 4_371_587)) (pos 2_932_896) result }
{
    Date::constrain(year, 1, 1).to_unix_epoch_day()
}

/// The second at which a change falls in a year, for a clock that is so far ahead; it stays within
/// the year, whose end is the first second of the next one.
fn change_in(year: &Year, change: DayTime, offset: i64) -> i64
    requires year { IsYearOf year.now }
    requires offset { IsOffsetSeconds offset }
    ensures value { IsCeiling
        (clock.change_in year.now.number (day_time_view change) offset) result }
    ensures from { year.now.first ≤ℤ result }
    ensures before { result ≤ℤ year.now.next }
{
    match rule_day(year.number, change.date) {
        Some(day) => within(year, second_of(day, change.time, offset)),
        None => year.next,
    }
}

/// The second, kept within a year and the first second of the next one.
fn within(year: &Year, second: i64) -> i64
    ensures { result ≡ rules.clamp_to year.now.first year.now.next second }
{
    if second < year.first {
        year.first
    } else if year.next < second {
        year.next
    } else {
        second
    }
}

/// So many seconds into a day, on a clock that is so far ahead.
fn second_of(day: i32, time: i32, offset: i64) -> i64
    requires time { IsWithin 604_799 time }
    requires offset { IsOffsetSeconds offset }
    ensures { result ≡ day *ℤ pos 86_400 +ℤ (time -ℤ offset) }
{
    day as i64 * SECONDS_PER_DAY + (time as i64 - offset)
}

/// The number of a rule's day in a year, if the year has it.
fn rule_day(year: i16, day: Day) -> Option<i32>
    requires year { IsYear year }
    requires day { is_rule_day day ≡ true }
    ensures value { result ≡ rules.rule_day year day }
    ensures bound { IfSome result (λ d. IsBetween (neg_ℤ (pos 5_000_000)) (pos 5_000_000) d) }
{
    match day {
        Day::JulianOne(n) => {
            let leap_day = if civil::is_leap_year(year) && n >= 60 {
                1
            } else {
                0
            };
            Some(first_day(year) + (n - 1 + leap_day) as i32)
        }
        Day::JulianZero(n) => {
            if n < civil::days_in_year(year) {
                Some(first_day(year) + n as i32)
            } else {
                None
            }
        }
        Day::WeekdayOfMonth {
            month,
            week,
            weekday,
        } => Some(weekday_of_month(year, month, week, weekday)),
    }
}

/// The number of a weekday's day in a week of a month, in the last one for week 5.
fn weekday_of_month(year: i16, month: u8, week: u8, weekday: u8) -> i32
    requires year { IsYear year }
    requires month { IsInRange 1 12 month }
    requires week { IsInRange 1 5 week }
    requires weekday { weekday ≤ 6 }
    ensures value { result ≡ rules.weekday_of_month year month week weekday }
    ensures bound { IsBetween (neg_ℤ (pos 5_000_000)) (pos 5_000_000) result }
{
    if week == 5 {
        let last = Date::constrain(year, month, 31);
        let back = (sunday_zero(last) + 7 - weekday) % 7;
        last.to_unix_epoch_day() - back as i32
    } else {
        let first = Date::constrain(year, month, 1);
        let ahead = (weekday + 7 - sunday_zero(first)) % 7;
        first.to_unix_epoch_day() + ahead as i32 + 7 * (week as i32 - 1)
    }
}

/// The weekday of a date, from 0 for Sunday.
fn sunday_zero(date: Date) -> u8
    ensures value { result ≡ rules.sunday_number (epoch_day date) }
    ensures bound { result < 7 }
{
    (date.weekday().index() + 1) % 7
}
