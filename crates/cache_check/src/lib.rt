// The check of a state that is handed in, paper 01's refusal 17: decided on the bytes, in one pass. It takes any bytes: the loops over
// the items run only where the catalog has at most 256 of them, and the tests of one item, of the totals and of the sums are those of
// the crate `validity`. The heap is looked at last, where it is known how many items are held.
#![tactic(auto)]

ghost use Rattle.std.specs.Prelude.{◌≡◌, cond, ◌≤◌, ◌<◌, length, get_or};
ghost use Rattle.landlord.specs.Fold.{sum_to};
ghost use Rattle.landlord.specs.Rule.{used, held_count};
ghost use Rattle.marks.specs.Inner.{marks, count_set};
ghost use Rattle.basis.specs.InnerDecided.{Decided};
ghost use Rattle.cache_state.specs.Cache.{Valid};
ghost use Rattle.cache_state.specs.InnerView.{state_of};
ghost use Rattle.cache_state.specs.InnerParts.{LeftOk};
ghost use Rattle.layout.specs.Layout.{state_bytes, cache_of, ValidBytes};
ghost use Rattle.cache_check.specs.Inner.{Zeros, ThreeAt, ZerosThree, BlankMarks, PastTests, CountedItems, CatalogTests, ItemAt, ItemsOk, CountsTests, HeldCounted, HeapTests, totals_in, sums_in};

use validity::{Entry, Sums, Totals};

// Whether every byte from one place to another is 0.
// A call of its own: what calls takes its room below the stack pointer at once, and no red zone (include/recorder.h, INTERRUPTS).
#[inline(never)]
fn zeros(b: &[u8], from: usize, to: usize) -> bool
    requires { (from ≤ to) × (to ≤ length b.now) }
    ensures { Decided (Zeros b.now from to) result }
{
    layout::any_bits(&b[from..to]) == 0
}

// Whether every byte of three stretches is 0, each from `from` to `to` behind a place of its own. The loop's turns are shared, and one
// test at the end lets it go by vectors.
#[tactic(auto, using(crate::proofs::Blanks::three_none, crate::proofs::Blanks::three_more, crate::proofs::Blanks::three_all))]
fn zeros_three(b: &[u8], x: usize, y: usize, z: usize, from: usize, to: usize) -> bool
    requires { ThreeAt b.now x y z from to }
    ensures { Decided (ZerosThree b.now x y z from to) result }
{
    let mut all = 0;
    for i in from..to {
        all |= b[x + i] | b[y + i] | b[z + i];
    }
    all == 0
}

// Whether the marks past the first `n` are not set.
fn marks_blank(words: [u64; 4], n: usize) -> bool
    requires { n ≤ 256 }
    ensures { Decided (BlankMarks words n) result }
{
    256 <= marks::next(words, n)
}

// Whether every place past the catalog is blank, and none of them has a place in the heap. Rows of one width go together.
fn past_ok(b: &[u8], n: usize) -> bool
    requires { CountedItems b.now n }
    ensures { Decided (PastTests b.now n) result }
{
    zeros_three(
        b,
        layout::AT_LOAD_CREDITS,
        layout::AT_WRITE_CREDITS,
        layout::AT_KEYS,
        n * 8,
        2048,
    ) && zeros_three(
        b,
        layout::AT_MINUTES,
        layout::AT_ITEM_LOADS,
        layout::AT_ITEM_WRITEBACKS,
        n * 4,
        1024,
    ) && zeros_three(
        b,
        layout::AT_ITEM_LOAD_COSTS,
        layout::AT_ITEM_WRITE_COSTS,
        layout::AT_ITEM_WRITE_COSTS,
        n * 2,
        512,
    ) && zeros_three(
        b,
        layout::AT_BLOCKS,
        layout::AT_HELD,
        layout::AT_PLACES,
        n,
        256,
    ) && marks_blank(layout::dirty(b), n)
        && marks_blank(layout::left(b), n)
}

// Whether the item at a place of the catalog is as it should be: its marks and credits, its key, and its place in the heap, which is 0
// where it is not held.
fn item_ok(b: &[u8], i: usize) -> bool
    requires { (length b.now ≡ state_bytes) × (i < 256) }
    ensures { Decided (ItemAt (cache_of b.now) i) result }
{
    let entry = Entry {
        blocks: layout::blocks(b, i),
        load: layout::item_load_cost(b, i),
        write: layout::item_write_cost(b, i),
        held: layout::held(b, i),
        dirty: layout::is_dirty(b, i),
        load_credit: layout::load_credit(b, i),
        write_credit: layout::write_credit(b, i),
        minutes: layout::minutes(b, i),
    };
    validity::entry_ok(&entry, layout::closed(b), layout::steps(b))
        && validity::key_ok(
            entry.held,
            layout::level(b),
            layout::key(b, i),
            entry.load_credit + entry.write_credit,
            entry.blocks,
        )
        && (entry.held || cache_heap::place(b, i) == 0)
}

// Whether every item of the catalog is as it should be.
fn items_ok(b: &[u8], n: usize) -> bool
    requires { CountedItems b.now n }
    ensures { Decided (ItemsOk (cache_of b.now)) result }
{
    (0..n).all(|i| item_ok(b, i))
}

// Whether no item that has left is held. It goes from mark to mark: where no item has left, the four words are all that is looked at.
// Kept by hand: the next item is found by the marks, and no range gives it.
fn left_ok(b: &[u8], n: usize) -> bool
    requires { CountedItems b.now n }
    ensures { Decided (LeftOk (cache_of b.now)) result }
{
    let left = layout::left(b);
    let mut i = marks::next(left, 0);
    while i < n {
        if layout::held(b, i) {
            return false;
        }
        i = marks::next(left, i + 1);
    }
    true
}

// How many items have left. Where none has, as in most seasons, no mark is counted.
fn left_count(b: &[u8]) -> u32
    requires { length b.now ≡ state_bytes }
    ensures { result ≡ count_set (marks (cache_of b.now).left) }
{
    let left = layout::left(b);
    if 256 <= marks::next(left, 0) {
        return 0;
    }
    marks::count(left)
}

// What an item adds to a sum over the held items. The bound is for the sums.
fn if_held(held: bool, amount: u8) -> u32
    ensures { (result ≡ cond held amount 0) × (result < 256) }
{
    if held { amount as u32 } else { 0 }
}

// The blocks held, of `n` items.
fn used(b: &[u8], n: usize) -> u32
    requires { CountedItems b.now n }
    ensures { result ≡ used (state_of (cache_of b.now)) }
{
    (0..n)
        .map(|i| if_held(layout::held(b, i), layout::blocks(b, i)))
        .sum()
}

// How many of `n` items are held.
fn held_count(b: &[u8], n: usize) -> u32
    requires { CountedItems b.now n }
    ensures { result ≡ held_count (state_of (cache_of b.now)) }
{
    (0..n).map(|i| if_held(layout::held(b, i), 1)).sum()
}

// The sum of the loads counted for the first `n` items.
fn loads_counted(b: &[u8], n: usize) -> u64
    requires { CountedItems b.now n }
    ensures { result ≡ sum_to n (λ i. get_or (cache_of b.now).itemloads i 0) }
{
    (0..n).map(|i| layout::item_loads(b, i) as u64).sum()
}

// The sum of the writebacks counted for the first `n` items.
fn writebacks_counted(b: &[u8], n: usize) -> u64
    requires { CountedItems b.now n }
    ensures { result ≡ sum_to n (λ i. get_or (cache_of b.now).itemwritebacks i 0) }
{
    (0..n).map(|i| layout::item_writebacks(b, i) as u64).sum()
}

// What the season has counted so far.
fn totals(b: &[u8]) -> Totals
    requires { length b.now ≡ state_bytes }
    ensures { result ≡ totals_in (cache_of b.now) }
{
    Totals {
        steps: layout::steps(b),
        hits: layout::hits(b),
        loads: layout::loads(b),
        load_cost: layout::load_cost(b),
        evictions: layout::evictions(b),
        dirty_evictions: layout::dirty_evictions(b),
        writebacks: layout::writebacks(b),
        write_cost: layout::write_cost(b),
        flushes: layout::flushes(b),
        arrivals: layout::arrivals(b),
        retirements: layout::retirements(b),
    }
}

// What the items come to.
fn sums(b: &[u8], n: usize) -> Sums
    requires { CountedItems b.now n }
    ensures { result ≡ sums_in (cache_of b.now) }
{
    Sums {
        blocks: used(b, n),
        held: held_count(b, n),
        marked: marks::count(layout::dirty(b)),
        left: left_count(b),
        loads: loads_counted(b, n),
        writebacks: writebacks_counted(b, n),
    }
}

// Whether the sums over the items are what is said to be in use, and go together with the capacity and the totals, and these with each
// other.
fn counts_ok(b: &[u8], n: usize) -> bool
    requires { CountedItems b.now n }
    ensures { Decided (CountsTests (cache_of b.now)) result }
{
    let k = layout::capacity(b);
    let totals = totals(b);
    let sums = sums(b, n);
    sums.blocks == layout::used(b)
        && validity::balanced(k, &totals, &sums)
        && validity::counts_ok(k, &totals)
}

// Whether the level is in range, and the heap has as many items as are held, in order, and nothing behind them.
fn heap_ok(b: &[u8]) -> bool
    requires { HeldCounted b.now }
    ensures { Decided (HeapTests b.now) result }
{
    let evictions = layout::evictions(b);
    let held = (layout::loads(b) - evictions) as usize;
    validity::level_ok(layout::level(b), evictions)
        && zeros(b, layout::AT_HEAP + held, layout::AT_PLACES)
        && cache_heap::spots_ok(b, held)
}

// Whether the places past the catalog, its items, the sums over them and the totals are as they should be.
fn catalog_ok(b: &[u8], n: usize) -> bool
    requires { CountedItems b.now n }
    ensures { Decided (CatalogTests b.now n) result }
{
    past_ok(b, n) && items_ok(b, n) && left_ok(b, n) && counts_ok(b, n)
}

// Whether the cache that the bytes stand for is valid. The loops come after the test of `n`, which bounds them, and the heap after the
// counts, which say how many of its places are in use.
fn cache_ok(b: &[u8]) -> bool
    requires { length b.now ≡ state_bytes }
    ensures { Decided (Valid (cache_of b.now)) result }
{
    let n = layout::count(b);
    if n > 256 {
        return false;
    }
    catalog_ok(b, n) && heap_ok(b)
}

// Whether a state is valid, of any bytes.
pub fn valid(b: &[u8]) -> bool
    ensures { Decided (ValidBytes b.now) result }
{
    b.len() == layout::STATE_BYTES && layout::allowed(b) && cache_ok(b)
}
