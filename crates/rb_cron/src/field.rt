ghost use Rattle.rb_cron.specs.Fields.{range_of, field_place, in_range, checked, value_named, value_in_range, is_any};
ghost use Rattle.std.specs.Prelude.{◌≡◌, ◌≤◌, length, map};

use rb_causes::decimal;

const MONTHS: [&str; 12] = [
    "JAN", "FEB", "MAR", "APR", "MAY", "JUN", "JUL", "AUG", "SEP", "OCT", "NOV", "DEC",
];

const WEEKDAYS: [&str; 7] = ["SUN", "MON", "TUE", "WED", "THU", "FRI", "SAT"];

/// A field of a schedule.
#[derive(Clone, Copy)]
pub(crate) enum Field {
    Seconds,
    Minute,
    Hour,
    Day,
    Month,
    Weekday,
    Year,
}

impl Field {
    /// Its place in a crontab, from 1.
    pub(crate) fn place(self) -> u32
        ensures { result ≡ field_place self }
    {
        match self {
            Field::Seconds => 1,
            Field::Minute => 2,
            Field::Hour => 3,
            Field::Day => 4,
            Field::Month => 5,
            Field::Weekday => 6,
            Field::Year => 7,
        }
    }

    pub(crate) fn least(self) -> u32
        ensures value { result ≡ (range_of self).least }
        ensures bound { result ≤ 1970 }
    {
        match self {
            Field::Seconds => 0,
            Field::Minute => 0,
            Field::Hour => 0,
            Field::Day => 1,
            Field::Month => 1,
            Field::Weekday => 1,
            Field::Year => 1970,
        }
    }

    pub(crate) fn greatest(self) -> u32
        ensures value { result ≡ (range_of self).greatest }
        ensures bound { result ≤ 2199 }
    {
        match self {
            Field::Seconds => 59,
            Field::Minute => 59,
            Field::Hour => 23,
            Field::Day => 31,
            Field::Month => 12,
            Field::Weekday => 7,
            Field::Year => 2199,
        }
    }

    /// Whether a run may go on from the greatest value to the least.
    pub(crate) fn goes_round(self) -> bool
        ensures { result ≡ (range_of self).goes_round }
    {
        match self {
            Field::Seconds => true,
            Field::Minute => true,
            Field::Hour => true,
            Field::Day => true,
            Field::Month => true,
            Field::Weekday => true,
            Field::Year => false,
        }
    }

    fn takes_any(self) -> bool
        ensures { result ≡ (range_of self).takes_any }
    {
        match self {
            Field::Seconds => false,
            Field::Minute => false,
            Field::Hour => false,
            Field::Day => true,
            Field::Month => false,
            Field::Weekday => true,
            Field::Year => false,
        }
    }

    /// Whether the text is `?`, where it may stand.
    pub(crate) fn is_any(self, text: &str) -> bool
        ensures { result ≡ is_any (range_of self) text.now }
    {
        self.takes_any() && text == "?"
    }

    pub(crate) fn holds(self, value: u64) -> bool
        ensures { result ≡ in_range (range_of self) value }
    {
        self.least() as u64 <= value && value <= self.greatest() as u64
    }

    /// The value that a decimal or a name writes.
    pub(crate) fn value(self, text: &str) -> Option<u32>
        ensures { result ≡ value_in_range (range_of self) text.now }
    {
        match decimal(text) {
            Some(number) => self.checked(number),
            None => self.value_named(text),
        }
    }

    fn checked(self, number: u64) -> Option<u32>
        ensures { result ≡ checked (range_of self) number }
    {
        if self.holds(number) {
            Some(number as u32)
        } else {
            None
        }
    }

    fn value_named(self, text: &str) -> Option<u32>
        ensures { result ≡ value_named (range_of self).least (range_of self).names text.now }
    {
        match self {
            Field::Month => place_of(&MONTHS, text),
            Field::Weekday => place_of(&WEEKDAYS, text),
            Field::Seconds => None,
            Field::Minute => None,
            Field::Hour => None,
            Field::Day => None,
            Field::Year => None,
        }
    }
}

/// The place from 1 of a name in any case.
fn place_of(names: &[&str], text: &str) -> Option<u32>
    requires { length names.now ≤ 12 }
    ensures { result ≡ value_named 1 (map (λ name. name.now) names.now) text.now }
{
    let mut place = 1;
    for name in names {
        if name.eq_ignore_ascii_case(text) {
            return Some(place);
        }
        place += 1;
    }
    None
}
