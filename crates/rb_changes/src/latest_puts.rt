//! The last rows of names, with one more.
ghost use Rattle.rb_log.specs.World.{latest_of, put_latest, count_of};
ghost use Rattle.std.specs.Prelude.{◌≡◌, ◌<◌, ◌+◌, ◌^◌, vec_len, vec_capacity};

use crate::named::{Named, find_place, put_at};
use rb_causes::Row;
use rb_tables::latest::{LatestRow, latest_of};

impl Named for LatestRow {
    ghost name_of = { λ l. l.row.name };

    fn name(&self) -> &str {
        self.row.name.as_str()
    }
}

/// Puts a row as the last of its name, where there is memory for one more.
pub(crate) fn put_latest(all: &mut Vec<LatestRow>, row: Row)
    requires memory { vec_len all.old < vec_capacity all.old }
    requires count { count_of (latest_of row.name all.old.items) + 1 < 2 ^ 64 }
    ensures { all.new.items ≡ put_latest row all.old.items }
{
    match find_place(all.as_slice(), row.name.as_str()) {
        Ok(place) => {
            let count = all[place].count + 1;
            all[place] = LatestRow { row, count };
        }
        Err(place) => put_at(all, place, LatestRow { row, count: 1 }),
    }
}
