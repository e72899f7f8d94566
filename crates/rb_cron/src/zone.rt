ghost use Rattle.rb_cron.specs.Pieces.{HasPiece};
ghost use Rattle.jiff_core.specs.Timestamp.{IsOffsetSeconds};
ghost use Rattle.rb_cron.specs.Clock.{zone_of};
ghost use Rattle.rb_cron.specs.Next.{last_instant, end_of_schedules};
ghost use Rattle.rb_cron.specs.Due.{IsFirstFor};
ghost use Rattle.rb_cron.specs.ZoneRules.{is_rule};
ghost use Rattle.std.specs.Prelude.{◌≡◌, ◌↔◌, ◌≤ℤ◌, ◌<ℤ◌, pos, neg_ℤ, true, false, Err, IfOk, OnOk};

use crate::piece::{self, Piece};
use crate::zone_err::ZoneErr;
use crate::zone_rules::is_rule;
use jiff::tz::TimeZone;
use rb_causes::{NoMemory, Text};
use std::alloc::Global;
use std::marker::Model;

/// A zone, which contracts see as its rule.
#[derive(Drop)]
pub struct Zone {
    rule: Text,
    zone: TimeZone<'static>,
}

impl Model for Zone {
    ghost use Rattle.jiff.specs.Words.{plain_zone};
    ghost use Rattle.rb_cron.specs.Readings.{IsKeptZone};
    ghost use Rattle.std.specs.Prelude.{List, ℕ};

    ghost Value = { List ℕ };

    ghost view = { λ z. z.rule };

    ghost invariant = { λ z. IsKeptZone z.rule (plain_zone z.zone) };
}

/// A zone under the name by which jobs call it.
#[derive(Drop)]
pub struct NamedZone {
    pub name: Text,
    pub rule: Text,
    pub zone: Zone,
}

impl Zone {
    /// Reads a zone rule: `UTC`, or a POSIX rule such as `CET-1CEST,M3.5.0,M10.5.0/3`. What `jiff`
    /// refuses of a zone rule counts as want of memory.
    pub fn read(alloc: Global, rule: &str) -> Result<Zone, ZoneErr>
        ensures rule { IfOk result (λ zone. zone ≡ rule.now) }
        ensures good { OnOk result (is_rule rule.now ≡ true) }
        ensures bad { (result ≡ Err ZoneErr.BadZone) ↔ (is_rule rule.now ≡ false) }
    {
        if !is_rule(rule) {
            return Err(ZoneErr::BadZone);
        }
        Ok(Zone::read_rule(alloc, rule)?)
    }

    fn read_rule(alloc: Global, rule: &str) -> Result<Zone, NoMemory>
        requires { is_rule rule.now ≡ true }
        ensures { IfOk result (λ zone. zone ≡ rule.now) }
    {
        let text = Text::of(alloc, rule)?;
        if rule == "UTC" {
            return Ok(Zone {
                rule: text,
                zone: TimeZone::UTC,
            });
        }
        match TimeZone::posix(rule) {
            Ok(zone) => Ok(Zone { rule: text, zone }),
            Err(_) => Err(NoMemory),
        }
    }

    /// An equal zone.
    pub fn copy(&self, alloc: Global) -> Result<Zone, NoMemory>
        ensures { IfOk result (λ zone. zone ≡ self.now) }
    {
        let rule = self.rule.copy(alloc)?;
        Ok(Zone {
            rule,
            zone: self.zone,
        })
    }

    /// Its rule.
    pub fn rule(&self) -> &str
        ensures { result.now ≡ self.now }
    {
        self.rule.as_str()
    }

    /// No instant before this one is due.
    pub(crate) fn first_instant(&self) -> i64
        ensures value { result ≡ neg_ℤ (pos 93_599) }
        ensures first { IsFirstFor self.now result }
    {
        let _zone = &self.zone;
        -93_599
    }

    /// The piece of time that begins at an instant.
    pub(crate) fn piece_at(&self, at: i64) -> Piece
        requires early { neg_ℤ (pos 93_599) ≤ℤ at }
        requires late { at ≤ℤ last_instant }
        ensures piece { HasPiece (zone_of self.now) at result }
        ensures after { at <ℤ result.end }
        ensures before { result.end ≤ℤ end_of_schedules }
        ensures offset { IsOffsetSeconds result.offset }
    {
        piece::piece_at(&self.zone, at)
    }
}
