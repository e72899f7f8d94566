ghost use Rattle.rb_cron.specs.Crontab.{fields_fault, is_question, names_days, is_bad_field, are_bad_weekdays, IsBadField, IsScheduleFault};
ghost use Rattle.rb_cron.specs.Days.{date_meets, meets_date, in_hour_meets, in_day_meets, NoneMeet, IsNextCivil, NonePass, IsFirstPass};
ghost use Rattle.rb_cron.specs.Fields.{range_of, field_place, runs_of, field_has};
ghost use Rattle.rb_cron.specs.Values.{field_text, IsLeastMet, NoneMetFrom};
ghost use Rattle.std.specs.Prelude.{◌≡◌, ◌≤◌, ◌<◌, ◌+◌, ◌*◌, ◌/◌, ◌⊎◌, true, false, Some, None, IfOk, OnOk, IfErr, IfSome, IfNone};

use crate::field::Field;
use crate::fields::Fields;
use crate::run::{self, Run};
use crate::schedule_err::ScheduleErr;
use jiff_core::civil::Date;
use rb_causes::{Items, Text};
use std::alloc::Global;
use std::marker::Model;

const SECONDS_PER_DAY: u64 = 86_400;

/// How many days lie from 1970 to the end of 2199, behind which no year field has a value.
const DAYS: u64 = 84_006;

/// The civil times that meet the fields of a schedule. Contracts see the texts of the fields.
#[derive(Drop)]
pub(crate) struct Calendar {
    fields: Fields,
    seconds: Items<Run>,
    minute: Items<Run>,
    hour: Items<Run>,
    day: Items<Run>,
    month: Items<Run>,
    weekday: Items<Run>,
    year: Items<Run>,
}

impl Model for Calendar {
    ghost use Rattle.rb_cron.specs.Values.{AreFieldRuns};
    ghost use Rattle.rb_cron.specs.declared.fields.Fields.{Fields};

    ghost Value = { Fields };

    ghost view = { λ c. c.fields };

    ghost invariant = { λ c.
        AreFieldRuns c.fields c.seconds c.minute c.hour c.day c.month c.weekday c.year };
}

impl Calendar {
    /// Reads the texts of all fields.
    pub(crate) fn read(alloc: Global, fields: Fields) -> Result<Calendar, ScheduleErr>
        ensures fields { IfOk result (λ calendar. calendar ≡ fields) }
        ensures good { OnOk result (fields_fault fields ≡ None) }
        ensures fault { IfErr result (IsScheduleFault (fields_fault fields)) }
    {
        let seconds = read_runs(alloc, Field::Seconds, &fields.seconds)?;
        let minute = read_runs(alloc, Field::Minute, &fields.minute)?;
        let hour = read_runs(alloc, Field::Hour, &fields.hour)?;
        let day = read_runs(alloc, Field::Day, &fields.day)?;
        let month = read_runs(alloc, Field::Month, &fields.month)?;
        let weekday = read_weekdays(alloc, &fields.day, &fields.weekday)?;
        let year = read_runs(alloc, Field::Year, &fields.year)?;
        if names_days(&fields.day) && names_days(&fields.weekday) {
            return Err(ScheduleErr::BothDays);
        }
        Ok(Calendar {
            fields,
            seconds,
            minute,
            hour,
            day,
            month,
            weekday,
            year,
        })
    }

    /// The texts of its fields.
    pub(crate) fn fields(&self) -> &Fields
        ensures { result.now ≡ self.now }
    {
        &self.fields
    }

    fn runs(&self, field: Field) -> &[Run]
        ensures { runs_of (range_of field) (field_text self.now field) ≡ Some result.now }
    {
        match field {
            Field::Seconds => self.seconds.as_slice(),
            Field::Minute => self.minute.as_slice(),
            Field::Hour => self.hour.as_slice(),
            Field::Day => self.day.as_slice(),
            Field::Month => self.month.as_slice(),
            Field::Weekday => self.weekday.as_slice(),
            Field::Year => self.year.as_slice(),
        }
    }

    fn has(&self, field: Field, value: u32) -> bool
        ensures { result ≡ field_has (range_of field) (field_text self.now field) value }
    {
        run::meets(field, self.runs(field), value)
    }

    fn least_from(&self, field: Field, from: u32) -> Option<u32>
        ensures found { IfSome result (IsLeastMet (range_of field)
            (runs_of (range_of field) (field_text self.now field)) from) }
        ensures none { IfNone result (NoneMetFrom (range_of field)
            (runs_of (range_of field) (field_text self.now field)) from) }
    {
        run::least_from(field, self.runs(field), from)
    }

    /// The least second of an hour from one on that meets the fields of minutes and seconds.
    fn next_in_hour(&self, from: u32) -> Option<u32>
        requires { from < 3600 }
        ensures found { IfSome result (IsFirstPass (in_hour_meets self.now) from 3600) }
        ensures none { IfNone result (NonePass (in_hour_meets self.now) from 3600) }
    {
        match self.next_in_minute(from) {
            Some(second) => Some(second),
            None => self.next_from_minute(from / 60 + 1),
        }
    }

    /// The least one that lies in the same minute.
    fn next_in_minute(&self, from: u32) -> Option<u32>
        requires { from < 3600 }
        ensures found { let end = (from / 60 + 1) * 60 in
            IfSome result (IsFirstPass (in_hour_meets self.now) from end) }
        ensures none { let end = (from / 60 + 1) * 60 in
            IfNone result (NonePass (in_hour_meets self.now) from end) }
    {
        let minute = from / 60;
        if !self.has(Field::Minute, minute) {
            return None;
        }
        let second = self.least_from(Field::Seconds, from % 60)?;
        Some(minute * 60 + second)
    }

    /// The least one from the beginning of a minute on.
    fn next_from_minute(&self, minute: u32) -> Option<u32>
        requires { minute ≤ 60 }
        ensures found { IfSome result (IsFirstPass (in_hour_meets self.now) (minute * 60) 3600) }
        ensures none { IfNone result (NonePass (in_hour_meets self.now) (minute * 60) 3600) }
    {
        let minute = self.least_from(Field::Minute, minute)?;
        let second = self.least_from(Field::Seconds, 0)?;
        Some(minute * 60 + second)
    }

    /// The least second of a day from one on that meets the fields of times.
    fn next_in_day(&self, from: u32) -> Option<u32>
        requires { from < 86_400 }
        ensures found { IfSome result (IsFirstPass (in_day_meets self.now) from 86_400) }
        ensures none { IfNone result (NonePass (in_day_meets self.now) from 86_400) }
    {
        match self.next_in_same_hour(from) {
            Some(second) => Some(second),
            None => self.next_from_hour(from / 3600 + 1),
        }
    }

    /// The least one that lies in the same hour.
    fn next_in_same_hour(&self, from: u32) -> Option<u32>
        requires { from < 86_400 }
        ensures found { let end = (from / 3600 + 1) * 3600 in
            IfSome result (IsFirstPass (in_day_meets self.now) from end) }
        ensures none { let end = (from / 3600 + 1) * 3600 in
            IfNone result (NonePass (in_day_meets self.now) from end) }
    {
        let hour = from / 3600;
        if !self.has(Field::Hour, hour) {
            return None;
        }
        let second = self.next_in_hour(from % 3600)?;
        Some(hour * 3600 + second)
    }

    /// The least one from the beginning of an hour on.
    fn next_from_hour(&self, hour: u32) -> Option<u32>
        requires { hour ≤ 24 }
        ensures found { IfSome result (IsFirstPass (in_day_meets self.now) (hour * 3600) 86_400) }
        ensures none { IfNone result (NonePass (in_day_meets self.now) (hour * 3600) 86_400) }
    {
        let hour = self.least_from(Field::Hour, hour)?;
        let second = self.next_in_hour(0)?;
        Some(hour * 3600 + second)
    }

    /// Whether the date of a day meets the fields of days, months and years.
    fn meets_on(&self, day: u64) -> bool
        requires { day < 84_006 }
        ensures { result ≡ date_meets self.now day }
    {
        match Date::from_unix_epoch_day(day as i64) {
            Ok(date) => self.meets_date(
                date.year as u32,
                date.month as u32,
                date.day as u32,
                date.weekday().to_sunday_one_offset() as u32,
            ),
            Err(_) => unreachable!(),
        }
    }

    /// Whether a date by its parts meets these fields.
    fn meets_date(&self, year: u32, month: u32, day: u32, weekday: u32) -> bool
        ensures { result ≡ meets_date self.now year month day weekday }
    {
        self.has(Field::Day, day)
            && self.has(Field::Month, month)
            && self.has(Field::Weekday, weekday)
            && self.has(Field::Year, year)
    }

    /// The least civil time from one on and before an end that meets all fields, in seconds since
    /// the beginning of 1970.
    pub(crate) fn next_civil(&self, from: u64, end: u64) -> Option<u64>
        ensures found { IfSome result (IsNextCivil self.now from end) }
        ensures none { IfNone result (NoneMeet self.now from end) }
    {
        let mut start = from % SECONDS_PER_DAY;
        for day in from / SECONDS_PER_DAY..DAYS {
            if end <= day * SECONDS_PER_DAY {
                return None;
            }
            if let Some(second) = self.next_on(day, start as u32) {
                let civil = day * SECONDS_PER_DAY + second as u64;
                return if civil < end { Some(civil) } else { None };
            }
            start = 0;
        }
        None
    }

    /// The least second from one on of a day at which a civil time meets all fields.
    fn next_on(&self, day: u64, from: u32) -> Option<u32>
        requires day { day < 84_006 }
        requires from { from < 86_400 }
        ensures found { IfSome result (λ s. (date_meets self.now day ≡ true)
            × IsFirstPass (in_day_meets self.now) from 86_400 s) }
        ensures none { IfNone result ((date_meets self.now day ≡ false)
            ⊎ NonePass (in_day_meets self.now) from 86_400) }
    {
        if self.meets_on(day) {
            self.next_in_day(from)
        } else {
            None
        }
    }
}

/// The runs of one field.
fn read_runs(alloc: Global, field: Field, text: &Text) -> Result<Items<Run>, ScheduleErr>
    ensures runs { IfOk result (λ runs. runs_of (range_of field) text.now ≡ Some runs) }
    ensures fault { IfErr result
        (IsBadField (field_place field) (is_bad_field (range_of field) text.now)) }
{
    match run::runs_of(alloc, field, text.as_str())? {
        Some(runs) => Ok(runs),
        None => Err(ScheduleErr::BadField { n: field.place() }),
    }
}

/// The runs of the day of week, which is no `?` beside a day of month that is one.
fn read_weekdays(alloc: Global, day: &Text, weekday: &Text) -> Result<Items<Run>, ScheduleErr>
    ensures runs { IfOk result (λ runs.
        runs_of (range_of Field.Weekday) weekday.now ≡ Some runs) }
    ensures good { OnOk result (are_bad_weekdays day.now weekday.now ≡ false) }
    ensures fault { IfErr result (IsBadField 6 (are_bad_weekdays day.now weekday.now)) }
{
    let runs = read_runs(alloc, Field::Weekday, weekday)?;
    if is_question(day) && is_question(weekday) {
        return Err(ScheduleErr::BadField {
            n: Field::Weekday.place(),
        });
    }
    Ok(runs)
}

fn is_question(text: &Text) -> bool
    ensures { result ≡ is_question text.now }
{
    text.as_str() == "?"
}

/// Whether the text of a day field names days.
fn names_days(text: &Text) -> bool
    ensures { result ≡ names_days text.now }
{
    !(text.as_str() == "*" || is_question(text))
}
