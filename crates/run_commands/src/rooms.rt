//! The one door that serves, out of the list in which the world gave it and back into it.
ghost use Rattle.std.specs.Prelude.{◌≡◌, ◌<◌, [], ◌∷◌, length};

use rtb_num::{List, SpareList};

/// The list's only item, and the room that it leaves.
pub(crate) fn only_item<T>(items: List<T>) -> (T, SpareList<T>)
    requires { length items ≡ 1 }
    ensures item { items ≡ result.0 ∷ [] }
    ensures empty { result.1.items ≡ [] }
    ensures room { 0 < result.1.spare }
{
    let mut items = items.into_vec();
    match items.pop() {
        Some(item) => (item, SpareList::from_vec(items)),
        None => unreachable!(),
    }
}

/// The list with the item in the room.
pub(crate) fn list_with<T>(room: SpareList<T>, item: T) -> List<T>
    requires empty { room.items ≡ [] }
    requires room { 0 < room.spare }
    ensures { result ≡ item ∷ [] }
{
    let mut room = room;
    room.put(item);
    List::from_vec(room.into_vec())
}
