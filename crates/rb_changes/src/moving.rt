//! Lists that are moved into memory that was asked for before.
ghost use Rattle.std.specs.Prelude.{◌≡◌, ◌≤◌, ◌+◌, ◌++◌, [], length, vec_len, vec_capacity};

use rb_causes::Items;

/// Moves items behind those of a `Vec` that has memory for them.
pub(crate) fn move_behind<T: Drop>(room: &mut Vec<T>, items: Vec<T>)
    requires memory { vec_len room.old + vec_len items ≤ vec_capacity room.old }
    ensures held { room.new.items ≡ room.old.items ++ items.items }
    ensures memory { vec_capacity room.new ≡ vec_capacity room.old }
{
    for item in items {
        room.push_reserved(item);
    }
}

/// Moves all items into an empty `Vec` that has memory for them.
pub(crate) fn moved_into<T: Drop>(mut room: Vec<T>, items: Items<T>) -> Vec<T>
    requires empty { room.items ≡ [] }
    requires memory { length items ≤ vec_capacity room }
    ensures held { result.items ≡ items }
    ensures memory { vec_capacity result ≡ vec_capacity room }
{
    move_behind(&mut room, items.into_vec());
    room
}
