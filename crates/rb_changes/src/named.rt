//! Lists in order of names.
ghost use Rattle.rb_changes.specs.Places.{place_in, is_named, IsHeldAt, IsFreeAt};
ghost use Rattle.std.specs.List.{insert};
ghost use Rattle.std.specs.Prelude.{◌≡◌, ◌<◌, ◌≤◌, ℕ, List, map, slice_get, slice_set, vec_len, vec_capacity, IfOk, IfErr};

use std::cmp::Ordering;

/// What has a name.
pub(crate) trait Named {
    ghost name_of: { Self → List ℕ };

    fn name(&self) -> &str
        ensures { result.now ≡ name_of self.now };
}

/// The place of the first that the name is not behind, or the end.
fn place_of<T: Named>(all: &[T], name: &str) -> usize
    ensures { result ≡ place_in name.now (map T.name_of all.now) }
{
    let mut place = 0;
    while place < all.len() && name.cmp(all[place].name()) == Ordering::Greater {
        place += 1;
    }
    place
}

/// The place of the one of this name, or else the place where it would be put.
pub(crate) fn find_place<T: Named>(all: &[T], name: &str) -> Result<usize, usize>
    ensures ok { IfOk result (λ at. IsHeldAt T.name_of name.now all.now at) }
    ensures err { IfErr result (λ at. IsFreeAt T.name_of name.now all.now at) }
{
    let place = place_of(all, name);
    if is_at(all, place, name) {
        Ok(place)
    } else {
        Err(place)
    }
}

/// Whether the one at this place has the name.
fn is_at<T: Named>(all: &[T], place: usize, name: &str) -> bool
    ensures { result ≡ is_named T.name_of name.now (slice_get all.now place) }
{
    match all.get(place) {
        None => false,
        Some(found) => found.name() == name,
    }
}

/// Puts one at a place, where there is memory for it.
pub(crate) fn put_at<T: Drop>(all: &mut Vec<T>, place: usize, item: T)
    requires memory { vec_len all.old < vec_capacity all.old }
    requires place { place ≤ vec_len all.old }
    ensures held { all.new.items ≡ insert all.old.items place item }
    ensures memory { vec_capacity all.new ≡ vec_capacity all.old }
{
    match all.insert(place, item) {
        Ok(()) => (),
        Err(_) => (),
    }
}

/// Puts one over the one at a place.
pub(crate) fn set_at<T: Drop>(all: &mut Vec<T>, place: usize, item: T)
    requires place { place < vec_len all.old }
    ensures held { all.new.items ≡ slice_set all.old.items place item }
    ensures memory { vec_capacity all.new ≡ vec_capacity all.old }
{
    all[place] = item;
}
