//! Schedules: the instants at which a job is due, by cron fields and a zone rule.
#![tactic(auto)]

mod calendar;
mod crontab;
mod field;
mod fields;
pub mod laws;
mod parting;
mod piece;
mod run;
mod schedule;
mod schedule_err;
mod zone;
mod zone_err;
mod zone_rules;

pub use fields::Fields;
pub use schedule::Schedule;
pub use schedule_err::ScheduleErr;
pub use zone::{NamedZone, Zone};
pub use zone_err::ZoneErr;
