//! The names of what is wrong with a crontab: those of all other faults are rb_faults'.
ghost use Rattle.rb_tools.specs.Kinds.{crontab_kind};
ghost use Rattle.std.specs.Prelude.{◌≡◌};

use rb_cron::ScheduleErr;

/// The name of what is wrong with a crontab.
pub(crate) fn crontab_kind(error: ScheduleErr) -> &'static str
    ensures { result.now ≡ crontab_kind error }
{
    match error {
        ScheduleErr::BadField { .. } => "BadField",
        ScheduleErr::BothDays => "BothDays",
        ScheduleErr::NoMemory => "NoMemory",
    }
}
