//! Zones in byte order of their names.
ghost use Rattle.rb_tables.specs.Worlds.{put_zone};
ghost use Rattle.std.specs.Prelude.{◌≡◌, ◌<◌, [], length, vec_len, vec_capacity};

use crate::moving::moved_into;
use crate::named::{Named, find_place, put_at};
use rb_causes::Items;
use rb_cron::NamedZone;
use std::alloc::Global;
use std::mem;

impl Named for NamedZone {
    ghost name_of = { λ zone. zone.name };

    fn name(&self) -> &str {
        self.name.as_str()
    }
}

/// Puts a zone in place of the one of its name, or at its place, in the memory that is given.
pub(crate) fn put_in_zones(
    alloc: Global,
    zones: &mut Items<NamedZone>,
    room: Vec<NamedZone>,
    zone: NamedZone,
)
    requires empty { room.items ≡ [] }
    requires memory { length zones.old < vec_capacity room }
    ensures { zones.new ≡ put_zone zone zones.old }
{
    let mut moved = moved_into(room, mem::replace(zones, Items::new(alloc)));
    put_zone(&mut moved, zone);
    *zones = Items::of(moved);
}

/// Puts a zone in place of the one of its name, or at its place, where there is memory for one
/// more.
fn put_zone(zones: &mut Vec<NamedZone>, zone: NamedZone)
    requires { vec_len zones.old < vec_capacity zones.old }
    ensures { zones.new.items ≡ put_zone zone zones.old.items }
{
    match find_place(zones.as_slice(), zone.name.as_str()) {
        Ok(place) => zones[place] = zone,
        Err(place) => put_at(zones, place, zone),
    }
}
