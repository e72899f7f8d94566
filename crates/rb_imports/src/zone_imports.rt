//! What an import of a zone changes.
ghost use Rattle.rb_causes.specs.declared.row.Row.{Row};
ghost use Rattle.rb_cron.specs.declared.zone.NamedZone.{NamedZone};
ghost use Rattle.rb_imports.specs.Importing.{zone_moved};
ghost use Rattle.rb_log.specs.LogState.{log_state};
ghost use Rattle.rb_log.specs.Rows.{zone_kind};
ghost use Rattle.rb_tables.specs.Changes.{IsZonesEffect, Makes};
ghost use Rattle.rb_tables.specs.Tables.{IsTabled};
ghost use Rattle.std.specs.Prelude.{◌≡◌, IfOk, List};

use crate::node_imports::{has_body, imported, unchanged};
use rb_causes::{Items, NoMemory, Row, Text};
use rb_cron::{NamedZone, Zone};
use rb_log::Answer;
use rb_tables::change::{Change, TableEffect, ZonesEffect};
use rb_tables::rows::zone_row;
use rb_tables::tables::Tables;
use std::alloc::Global;

/// What becomes of the tables by a row of a zone.
fn zones_effect(
    tables: &Tables,
    alloc: Global,
    row: &Row,
    zone: Zone,
) -> Result<ZonesEffect, NoMemory>
    ensures { IfOk result (λ e. (past : List Row) → IsTabled tables.now past →
        row.now.kind ≡ zone_kind → zone ≡ row.now.body → IsZonesEffect past row.now e) }
{
    let held = tables.world.zones.as_slice().len();
    let room = Vec::with_capacity(alloc, held + 1)?;
    let latest = row.copy(alloc)?;
    let name = row.name.copy(alloc)?;
    let rule = row.body.copy(alloc)?;
    Ok(ZonesEffect {
        latest,
        zone: NamedZone { name, rule, zone },
        room,
    })
}

/// The row of a zone whose rule differs from the last one.
pub(crate) fn zone_change(
    tables: &Tables,
    alloc: Global,
    name: Text,
    rule: Text,
    zone: Zone,
    at: i64,
) -> Result<Change, Answer>
    requires { zone ≡ rule }
    ensures { (past : List Row) → IsTabled tables.now past →
        Makes past (zone_moved (log_state past) at name rule) result }
{
    let number = tables.zones_number;
    if has_body(tables.zones.as_slice(), name.as_str(), rule.as_str()) {
        return Err(unchanged(alloc, number));
    }
    let version = number.saturating_add(1);
    let row = zone_row(alloc, tables.moment(at), version, name, rule);
    let effect = TableEffect::Zone(zones_effect(tables, alloc, &row, zone)?);
    Ok(imported(version, Items::new(alloc), row, effect))
}
