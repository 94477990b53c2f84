// The heap of the held items, in place on the state's bytes: the part that the crate `heap` works on, lent and handed back.
#![tactic(auto)]

ghost use Rattle.std.specs.Prelude.{◌<◌, ◌≤◌, ◌≡◌, length, get_or};
ghost use Rattle.layout.specs.Layout.{state_bytes, cache_of};
ghost use Rattle.cache_heap.specs.Inner.{FilledAt, RemovedAt, RoomyAt, InsertedAt, UnsettledAt, SiftedAt, SpotsAt};
ghost use Rattle.basis.specs.InnerDecided.{Decided};

// The item that goes before all others, if any is held.
pub fn root(b: &[u8]) -> usize
    requires { length b.now ≡ state_bytes }
    ensures { (result ≡ get_or (cache_of b.now).heap 0 0) × (result < 256) }
{
    heap::item(&b[layout::AT_KEYS..layout::STATE_BYTES], 0)
}

// The place of a held item.
pub fn place(b: &[u8], i: usize) -> usize
    requires { (length b.now ≡ state_bytes) × (i < 256) }
    ensures { (result ≡ get_or (cache_of b.now).places i 0) × (result < 256) }
{
    heap::place(&b[layout::AT_KEYS..layout::STATE_BYTES], i)
}

// Takes out the item at a place of the heap of `n`.
pub fn remove(b: &mut [u8], n: usize, at: usize)
    requires { FilledAt b.old n at }
    ensures { RemovedAt b.old n at b.new }
{
    heap::remove(&mut b[layout::AT_KEYS..layout::STATE_BYTES], n, at);
}

// Puts in an item that is not among the `n` of the heap.
pub fn insert(b: &mut [u8], n: usize, i: usize)
    requires { RoomyAt b.old n i }
    ensures { InsertedAt b.old n i b.new }
{
    heap::insert(&mut b[layout::AT_KEYS..layout::STATE_BYTES], n, i);
}

// Puts the heap in order where only the item at a place may be out of order.
pub fn fix(b: &mut [u8], n: usize, at: usize)
    requires { UnsettledAt b.old n at }
    ensures { SiftedAt b.old n b.new }
{
    heap::fix(&mut b[layout::AT_KEYS..layout::STATE_BYTES], n, at);
}

// Whether the first `n` places of the heap are as they should be, in one pass.
pub fn spots_ok(b: &[u8], n: usize) -> bool
    requires { (length b.now ≡ state_bytes) × (n ≤ 256) }
    ensures { Decided (SpotsAt (cache_of b.now) n) result }
{
    let part = &b[layout::AT_KEYS..layout::STATE_BYTES];
    let held = &b[layout::AT_HELD..layout::AT_RULE];
    heap::spots_ok(part, held, n)
}
