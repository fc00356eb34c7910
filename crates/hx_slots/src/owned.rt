//! The first record that a session owns, and lists that grow.
ghost use Rattle.std.specs.Prelude.{◌≡◌, ◌∷◌, ◌++◌, [], take, MatchOption};
ghost use Rattle.std.specs.Prelude.{OnOk, OnErr};
ghost use Rattle.std.specs.Map.{keys_of};
ghost use Rattle.std.specs.List.Sorted.{IsStrictlySortedBy};
ghost use Rattle.std.specs.Ordering.{nat_cmp};
ghost use Rattle.hx_store.specs.Records.{owned_from};
ghost use Rattle.hx_slots.specs.Slots.{IsPopped};

use hx_ids::SessionId;
use hx_lists::Seq;
use hx_store::Store;
use std::alloc::AllocError;

/// Adds an item at the end, or leaves only so many.
pub(crate) fn push_or_cut<T: Drop>(
    items: &mut Seq<T>,
    before: usize,
    item: T,
) -> Result<(), AllocError>
    ensures ok { OnOk result (items.new ≡ items.old ++ item ∷ []) }
    ensures err { OnErr result (items.new ≡ take before items.old) }
{
    if let Err(refused) = items.push(item) {
        items.truncate(before);
        return Err(refused);
    }
    Ok(())
}

/// Takes the first record out that a session owns, and gives its value. Where it owns none the room
/// for its keys goes. It takes no memory.
pub(crate) fn pop_owned<V: Drop>(store: &mut Store<V>, session: SessionId) -> Option<V>
    ensures ordered { IsStrictlySortedBy nat_cmp (keys_of store.old) }
    ensures popped { MatchOption result
        ((owned_from store.old session 0 ≡ []) × (store.new ≡ store.old))
        (λ value. IsPopped store.old session value store.new) }
{
    let Some(key) = store.next_owned(session, 0) else {
        store.end_session(session);
        return None;
    };
    store.remove(key)
}
