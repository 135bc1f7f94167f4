//! Allocations made before they are used: what was reserved is filled without memory.

ghost use Rattle.std.specs.Prelude.{◌≡◌, ◌<◌, ◌+◌, ◌++◌, ◌∷◌, [], length, slice_set, vec_len};
ghost use Rattle.std.specs.Prelude.{vec_capacity};

/// Adds the item to a vector that has room for it.
#[tactic(auto, using(crate::proofs::Lemmas::Tables::Capacity::made))]
pub(crate) fn push_within<T: Drop>(items: &mut Vec<T>, item: T)
    requires { vec_len items.old < vec_capacity items.old }
    ensures items { items.new.items ≡ items.old.items ++ item ∷ [] }
    ensures len { vec_len items.new ≡ vec_len items.old + 1 }
{
    let _ = items.push(item);
}

/// Puts the item in place of the one that stands there.
pub(crate) fn put_at<T: Drop>(items: &mut Vec<T>, place: usize, item: T)
    requires { place < length items.old.items }
    ensures { items.new.items ≡ slice_set items.old.items place item }
{
    items[place] = item;
}
