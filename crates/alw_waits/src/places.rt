ghost use Rattle.std.specs.Prelude.{◌≡◌, slice_index_or, slice_set};

/// What stands at a place, and something else where there is no such place.
pub fn at_or<T: Copy>(list: &[T], place: usize, other: T) -> T
    ensures { result ≡ slice_index_or list.now place other }
{
    match list.get(place) {
        Some(item) => *item,
        None => other,
    }
}

/// Something stands at a place, where there is one.
pub fn put<T: Copy>(list: &mut Vec<T>, place: usize, item: T)
    ensures { list.new.items ≡ slice_set list.old.items place item }
{
    if place < list.len() {
        list[place] = item;
    }
}
