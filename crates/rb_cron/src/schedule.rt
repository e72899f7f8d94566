ghost use Rattle.jiff_core.specs.Calendar.{IsBetween};
ghost use Rattle.jiff_core.specs.Timestamp.{IsOffsetSeconds};
ghost use Rattle.rb_cron.specs.Clock.{zone_of};
ghost use Rattle.rb_cron.specs.Crontab.{fields_of, crontab_fault, fields_fault, IsScheduleFault};
ghost use Rattle.rb_cron.specs.Next.{IsDueAfter, NoneDue, natural_of, last_instant, end_of_schedules};
ghost use Rattle.rb_cron.specs.Pieces.{HasPiece, IsNextDue, NoneDueIn};
ghost use Rattle.rb_cron.specs.ZoneRules.{is_utc};
ghost use Rattle.std.specs.Prelude.{◌≡◌, ◌↔◌, ◌≤◌, ◌≤ℤ◌, ◌<ℤ◌, ◌+ℤ◌, ◌-ℤ◌, ◌⊎◌, pos, neg_ℤ, None, Some, Ok, IfOk, IsOk, OnOk, IfErr, IfSome, IfNone, IsTrue};

use crate::calendar::Calendar;
use crate::crontab::read_fields;
use crate::fields::Fields;
use crate::piece::{END, Piece};
use crate::schedule_err::ScheduleErr;
use crate::zone::Zone;
use rb_causes::NoMemory;
use std::alloc::Global;
use std::marker::Model;

/// The instants at which a job is due. Contracts see the texts of its fields and its zone rule.
pub struct Schedule {
    calendar: Calendar,
    zone: Zone,
}

impl Model for Schedule {
    ghost use Rattle.rb_cron.specs.Due.{Source};

    ghost Value = { Source };

    ghost view = { λ s. record { fields = s.calendar; rule = s.zone } };
}

// Not derived: so whoever drops a schedule proves one call, and not the drop of each part anew.
impl Drop for Schedule {
    fn drop(self) {
        let Schedule {
            calendar: _,
            zone: _,
        } = self;
    }
}

impl Schedule {
    /// Reads a crontab of six fields or seven. Which fault comes first is said at `ScheduleErr`.
    pub fn crontab(alloc: Global, text: &str, zone: Zone) -> Result<Schedule, ScheduleErr>
        ensures fields { IfOk result (λ schedule. fields_of text.now ≡ Some schedule.fields) }
        ensures rule { IfOk result (λ schedule. schedule.rule ≡ zone) }
        ensures good { OnOk result (crontab_fault text.now ≡ None) }
        ensures fault { IfErr result (IsScheduleFault (crontab_fault text.now)) }
    {
        let calendar = Calendar::read(alloc, read_fields(alloc, text)?)?;
        Ok(Schedule { calendar, zone })
    }

    /// Reads the texts of all fields.
    pub fn fields(alloc: Global, fields: &Fields, zone: Zone) -> Result<Schedule, ScheduleErr>
        ensures fields { IfOk result (λ schedule. schedule.fields ≡ fields.now) }
        ensures rule { IfOk result (λ schedule. schedule.rule ≡ zone) }
        ensures good { OnOk result (fields_fault fields.now ≡ None) }
        ensures fault { IfErr result (IsScheduleFault (fields_fault fields.now)) }
    {
        let calendar = Calendar::read(alloc, fields.copy(alloc)?)?;
        Ok(Schedule { calendar, zone })
    }

    /// The least due instant later than `after`, up to the end of 2199, in seconds since 1970.
    /// Takes no memory.
    pub fn next(&self, after: i64) -> Result<Option<i64>, NoMemory>
        ensures sure { IsOk result }
        ensures due { IfOk result (λ found. IfSome found (IsDueAfter self.now after)) }
        ensures least { IfOk result (λ found. IfSome found (NoneDue self.now after)) }
        ensures none { IfOk result (λ found.
            IfNone found (NoneDue self.now after end_of_schedules)) }
    {
        Ok(self.next_due(after))
    }

    /// The search, from one piece of time to the next.
    fn next_due(&self, after: i64) -> Option<i64>
        ensures due { IfSome result (IsDueAfter self.now after) }
        ensures least { IfSome result (NoneDue self.now after) }
        ensures none { IfNone result (NoneDue self.now after end_of_schedules) }
    {
        let mut at = self.first_behind(after);
        while at < END {
            let piece = self.zone.piece_at(at);
            if let Some(due) = self.due_in(at, piece) {
                return Some(due);
            }
            at = piece.end;
        }
        None
    }

    /// The first instant behind one that is looked at.
    fn first_behind(&self, after: i64) -> i64
        ensures passed { NoneDue self.now after result }
        ensures early { neg_ℤ (pos 93_599) ≤ℤ result }
        ensures late { result ≤ℤ end_of_schedules }
        ensures later { (after <ℤ result) ⊎ (end_of_schedules ≤ℤ result) }
    {
        if END <= after {
            return END;
        }
        let first = self.zone.first_instant();
        let next = after + 1;
        if next < first { first } else { next }
    }

    /// The least due instant of a piece that begins at an instant.
    fn due_in(&self, at: i64, piece: Piece) -> Option<i64>
        requires at { IsBetween (neg_ℤ (pos 93_599)) last_instant at }
        requires piece { HasPiece (zone_of self.now.rule) at piece }
        requires after { at <ℤ piece.end }
        requires before { piece.end ≤ℤ end_of_schedules }
        requires offset { IsOffsetSeconds piece.offset }
        ensures found { IfSome result (IsNextDue self.now at piece.end) }
        ensures none { IfNone result (NoneDueIn self.now at piece.end) }
    {
        if !piece.agrees {
            return None;
        }
        let from = shown_at(at, piece.offset);
        let end = shown_at(piece.end, piece.offset);
        let civil = self.calendar.next_civil(from, end)?;
        Some(instant_of(civil, piece.offset))
    }

    /// The field texts that are in force.
    pub fn source(&self) -> &Fields
        ensures { result.now ≡ self.now.fields }
    {
        self.calendar.fields()
    }

    /// The rule of its zone.
    pub fn rule(&self) -> &str
        ensures { result.now ≡ self.now.rule }
    {
        self.zone.rule()
    }

    /// Whether its zone was read from the rule `UTC`.
    pub fn in_utc(&self) -> bool
        ensures { result ≡ is_utc self.now.rule }
    {
        self.rule() == "UTC"
    }

    /// Whether both have the same field texts and the same zone rule.
    pub fn same(&self, other: &Schedule) -> bool
        ensures { IsTrue result ↔ (self.now ≡ other.now) }
    {
        self.source().same(other.source()) && self.rule() == other.rule()
    }
}

/// What a clock shows at an instant that is so far ahead; 0 where it shows a time before 1970, at
/// which nothing is due.
fn shown_at(instant: i64, offset: i64) -> u64
    requires instant { IsBetween (neg_ℤ (pos 93_599)) end_of_schedules instant }
    requires offset { IsOffsetSeconds offset }
    ensures { result ≡ natural_of (instant +ℤ offset) }
{
    let shown = instant + offset;
    if shown < 0 { 0 } else { shown as u64 }
}

/// The instant at which a clock that is so far ahead shows a civil time.
fn instant_of(civil: u64, offset: i64) -> i64
    requires civil { civil ≤ 10_000_000_000 }
    requires offset { IsOffsetSeconds offset }
    ensures value { result ≡ pos civil -ℤ offset }
    ensures bound { IsBetween (neg_ℤ (pos 1_000_000)) (pos 20_000_000_000) result }
{
    civil as i64 - offset
}
