//! What each row changes.
ghost use Rattle.std.specs.Prelude.{◌≡◌, ◌+◌, ◌-◌, ◌^◌, min, Some};

use rb_tables::tables::Tables;

/// A row has come, of this moment and with so many bytes that count.
pub(crate) fn note(tables: &mut Tables, at: i64, counted: u64)
    ensures { tables.new ≡ record tables.old {
      counted = min (tables.old.counted + counted) (2 ^ 64 - 1);
      last = Some at;
    } }
{
    tables.counted = tables.counted.saturating_add(counted);
    tables.last = Some(at);
}

/// A row has come, of this moment and with no bytes that count.
pub(crate) fn note_bare(tables: &mut Tables, at: i64)
    ensures { tables.new ≡ record tables.old { last = Some at } }
{
    tables.last = Some(at);
}
