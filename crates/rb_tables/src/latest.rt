//! The last rows of names.
ghost use Rattle.rb_log.specs.World.{latest_of};
ghost use Rattle.std.specs.Option.{option_copied};
ghost use Rattle.std.specs.Prelude.{◌≡◌};

use rb_causes::Row;
use std::marker::Model;

/// The last row of a name, and how many rows there were of it.
#[derive(Drop)]
pub struct LatestRow {
    pub row: Row,
    pub count: u64,
}

impl Model for LatestRow {
    ghost use Rattle.rb_log.specs.World.{Latest};

    ghost Value = { Latest };

    ghost view = { λ l. record { row = l.row; count = l.count } };
}

/// The one of this name.
pub fn latest_of<'a>(all: &'a [LatestRow], name: &str) -> Option<&'a LatestRow>
    ensures { option_copied result ≡ latest_of name.now all.now }
{
    all.iter().find(|latest| latest.row.name.as_str() == name)
}
