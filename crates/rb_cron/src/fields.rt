ghost use Rattle.std.specs.Prelude.{◌≡◌, ◌↔◌, IsTrue, IfOk};

use rb_causes::{NoMemory, Text};
use std::alloc::Global;

/// The texts of a schedule's fields, in the order of a crontab.
#[derive(Drop)]
pub struct Fields {
    /// 0 to 59.
    pub seconds: Text,
    /// 0 to 59.
    pub minute: Text,
    /// 0 to 23.
    pub hour: Text,
    /// 1 to 31, or `?`.
    pub day: Text,
    /// 1 to 12, or JAN to DEC.
    pub month: Text,
    /// 1 to 7, or SUN to SAT, with 1 for Sunday; or `?`.
    pub weekday: Text,
    /// 1970 to 2199.
    pub year: Text,
}

impl Fields {
    /// A copy of these texts.
    pub fn copy(&self, alloc: Global) -> Result<Fields, NoMemory>
        ensures { IfOk result (λ fields. fields ≡ self.now) }
    {
        Ok(Fields {
            seconds: self.seconds.copy(alloc)?,
            minute: self.minute.copy(alloc)?,
            hour: self.hour.copy(alloc)?,
            day: self.day.copy(alloc)?,
            month: self.month.copy(alloc)?,
            weekday: self.weekday.copy(alloc)?,
            year: self.year.copy(alloc)?,
        })
    }

    /// Whether all texts are equal.
    pub fn same(&self, other: &Fields) -> bool
        ensures { IsTrue result ↔ (self.now ≡ other.now) }
    {
        self.seconds == other.seconds
            && self.minute == other.minute
            && self.hour == other.hour
            && self.day == other.day
            && self.month == other.month
            && self.weekday == other.weekday
            && self.year == other.year
    }
}
