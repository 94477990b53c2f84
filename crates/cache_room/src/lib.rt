// Room for an item, in place on the state's bytes: the item of least key, its eviction, and evictions until the item fits.
#![tactic(auto)]

ghost use Rattle.std.specs.Prelude.{◌+◌, ◌-◌, ◌/◌, ◌<◌, ◌≡◌, get_or};
ghost use Rattle.queue.specs.Machine.{moved_in, evict_in, make_room_in, victim_in};
ghost use Rattle.cache_state.specs.Cache.{lazy, held_items};
ghost use Rattle.cache_state.specs.InnerView.{queue_of};
ghost use Rattle.layout.specs.Layout.{cache_of};
ghost use Rattle.layout.specs.Inner.{Stands, Readable, BecomesAt};
ghost use Rattle.cache_room.specs.Inner.{DroppedAt, CountableAt, CountedHeld, HoldsAt, LetGoAt, RekeyedAt, ReckonableAt, ReckonedAt, CrowdedAt, WantedAt, counted_of};

// How many items are held: what was loaded and not dropped.
pub fn held_items(b: &[u8]) -> usize
    requires { CountedHeld b.now }
    ensures { result ≡ held_items (cache_of b.now) }
{
    (layout::loads(b) - layout::evictions(b)) as usize
}

// Item `v` is dropped: its place is empty, clean and without credit.
pub fn drop_item(b: &mut [u8], v: usize)
    requires { Readable b.old × (v < 256) }
    ensures { DroppedAt b.old v b.new }
{
    let words = layout::dirty(b);
    layout::put_held(b, v, false);
    layout::put_load_credit(b, v, 0);
    layout::put_write_credit(b, v, 0);
    layout::put_dirty(b, marks::unmark(words, v));
}

// The eviction of item `v` is counted. A dirty item is written back before it goes, and that is paid for.
pub fn count_eviction(b: &mut [u8], v: usize, dirty: bool)
    requires { CountableAt b.old v }
    ensures { Stands b.new (counted_of (cache_of b.old) v dirty) }
{
    // Both are read before either is stored.
    let evictions = layout::evictions(b);
    let dirties = layout::dirty_evictions(b);
    layout::put_evictions(b, evictions + 1);
    if dirty {
        layout::put_dirty_evictions(b, dirties + 1);
        cache_counts::count_writeback(b, v);
    }
}

// Held item `v` goes: it leaves the heap, its place is empty, and its blocks are free, which are the answer. No other key and no credit
// moves, and the level stays.
pub fn let_go(b: &mut [u8], v: usize) -> u8
    requires { HoldsAt b.old v }
    ensures value { result ≡ get_or (cache_of b.old).blocks v 0 }
    ensures let_go_at { LetGoAt b.old v b.new }
{
    let n = held_items(b);
    let at = cache_heap::place(b, v);
    let blocks = layout::blocks(b, v);
    let used = layout::used(b);
    cache_heap::remove(b, n, at);
    layout::put_used(b, used - blocks as u32);
    layout::put_key(b, v, 0);
    drop_item(b, v);
    blocks
}

// Evicts the held item of least key: the level rises to its key, at which each block of the others has lost its rank. Answers how many
// blocks that frees.
pub fn evict(b: &mut [u8]) -> u8
    requires { CrowdedAt b.old }
    ensures value { result ≡ get_or (cache_of b.old).blocks (victim_in (queue_of (cache_of b.old))) 0 }
    ensures becomes_at { BecomesAt (moved_in (lazy (cache_of b.old)) (evict_in (queue_of (cache_of b.old))) (cache_of b.old).closed) b.new }
{
    let v = cache_heap::root(b);
    let key = layout::key(b, v);
    let dirty = layout::is_dirty(b, v);
    let blocks = let_go(b, v);
    layout::put_level(b, key);
    count_eviction(b, v, dirty);
    blocks
}

// Makes room for item `i`, if it is not held: the item of least key goes, until the free blocks are enough.
pub fn make_room(b: &mut [u8], i: usize)
    requires { WantedAt b.old i }
    ensures { BecomesAt (moved_in (lazy (cache_of b.old)) (make_room_in (cache_of b.old).k i (queue_of (cache_of b.old))) (cache_of b.old).closed) b.new }
{
    if layout::held(b, i) {
        return;
    }
    let k = layout::capacity(b);
    let blocks = layout::blocks(b, i) as u32;
    let mut used = layout::used(b);
    while used + blocks > k {
        used -= evict(b) as u32;
    }
}

// The key of held item `i` changes, and the heap is put in order.
pub fn rekey(b: &mut [u8], i: usize, key: u64)
    requires { HoldsAt b.old i }
    ensures { RekeyedAt b.old i key b.new }
{
    let n = held_items(b);
    let at = cache_heap::place(b, i);
    layout::put_key(b, i, key);
    cache_heap::fix(b, n, at);
}

// The credits of held item `i` are reckoned anew: they are stored, and the key is theirs a block, plus the level.
pub fn reckon(b: &mut [u8], i: usize, load: u64, write: u64)
    requires { ReckonableAt b.old i load write }
    ensures { ReckonedAt b.old i load write b.new }
{
    let blocks = layout::blocks(b, i) as u64;
    let key = layout::level(b) + (load + write) / blocks;
    layout::put_load_credit(b, i, load);
    layout::put_write_credit(b, i, write);
    rekey(b, i, key);
}
