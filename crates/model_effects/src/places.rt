//! Places of a list that hold something or nothing: what stands there is taken out, or put back.
ghost use Rattle.std.specs.Prelude.{◌≡◌, None, Some, slice_set};
ghost use Rattle.model_effects.specs.Waiting.{waits_at};

use bson_lite::List;
use std::alloc::Global;
use std::mem;

/// Takes out what stands at a place.
pub fn take_out<T: Drop>(places: &mut List<Option<T>>, alloc: Global, at: usize) -> Option<T>
    ensures found { result ≡ waits_at places.old at }
    ensures left { places.new ≡ slice_set places.old at None }
{
    let mut items = mem::replace(places, List::new(alloc)).into_vec();
    if at >= items.len() {
        *places = List::from_vec(items);
        return None;
    }
    let found = mem::replace(&mut items[at], None);
    *places = List::from_vec(items);
    found
}

/// Puts something at a place.
pub fn put_back<T: Drop>(places: &mut List<Option<T>>, alloc: Global, at: usize, found: T)
    ensures { places.new ≡ slice_set places.old at (Some found) }
{
    let mut items = mem::replace(places, List::new(alloc)).into_vec();
    if at < items.len() {
        items[at] = Some(found);
    }
    *places = List::from_vec(items);
}
