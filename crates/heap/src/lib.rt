// A binary heap of item numbers below 256 in lent bytes, the item of least key first, and of equal keys the lowest number. Beside it
// stands the place of each item, so that an item whose key changes is found without a search.
//
// The bytes are 2,560: the key of each item, 8 bytes each; the items by their places; the place of each item. No function stores a key.
//
// Kept by hand: the bytes and the count of places in use are two parameters. A struct of both would hold the loan, and each function would
// have to promise that it still holds the same one.
#![tactic(auto)]

ghost use Rattle.std.specs.Prelude.{◌+◌, ◌*◌, ◌-◌, ◌<◌, ◌≤◌, ◌≡◌, ltb, length, get_or};
ghost use Rattle.heap.specs.Heap.{weight_of};
ghost use Rattle.heap.specs.InnerPart.{part_bytes, keys_in, items_in, places_in};
ghost use Rattle.heap.specs.InnerMoves.{Swappable, Swapping, Rises, Lower, Lowest, ClimbingIn, SinkingIn, UnsettledIn, SiftedIn, AppendedIn, CutIn, RoomyIn, InsertedIn, FilledIn, RemovedIn, Spot, Spots, RootOk, SpotOk, SpotsOk, Decided, flagged};

pub const PART_BYTES: usize = 2560;

pub const AT_ITEMS: usize = 2048;

pub const AT_PLACES: usize = 2304;

// The item at a place.
pub fn item(s: &[u8], j: usize) -> usize
    requires { (length s.now ≡ part_bytes) × (j < 256) }
    ensures { (result ≡ get_or (items_in s.now) j 0) × (result < 256) }
{
    s[AT_ITEMS + j] as usize
}

// The place of an item.
pub fn place(s: &[u8], i: usize) -> usize
    requires { (length s.now ≡ part_bytes) × (i < 256) }
    ensures { (result ≡ get_or (places_in s.now) i 0) × (result < 256) }
{
    s[AT_PLACES + i] as usize
}

// The key of an item.
pub fn key(s: &[u8], i: usize) -> u64
    requires { (length s.now ≡ part_bytes) × (i < 256) }
    ensures { result ≡ get_or (keys_in s.now) i 0 }
{
    fields::get(s, i * 8, 8)
}

// Whether one item goes before another: by its key, then by its number.
// Kept by hand: as an order of pairs, `(key, item) < (other_key, other)`, a step of 256 items takes 3 of 100 instructions more.
fn before(key: u64, item: usize, other_key: u64, other: usize) -> bool
    requires { (item < 256) × (other < 256) }
    ensures { result ≡ ltb (key * 256 + item) (other_key * 256 + other) }
{
    if key < other_key {
        return true;
    }
    if other_key < key {
        return false;
    }
    item < other
}

// Whether the item at place `i` goes before that at place `j`.
fn goes(s: &[u8], i: usize, j: usize) -> bool
    requires { Swappable s.now i j }
    ensures { result ≡ ltb (weight_of (keys_in s.now) (items_in s.now) i) (weight_of (keys_in s.now) (items_in s.now) j) }
{
    let a = item(s, i);
    let b = item(s, j);
    before(key(s, a), a, key(s, b), b)
}

// The items at two places change places.
fn swap(s: &mut [u8], i: usize, j: usize)
    requires { Swappable s.old i j }
    ensures { Swapping s.old i j s.new }
{
    let a = item(s, i);
    let b = item(s, j);
    s[AT_ITEMS + i] = b as u8;
    s[AT_ITEMS + j] = a as u8;
    s[AT_PLACES + b] = i as u8;
    s[AT_PLACES + a] = j as u8;
}

// Whether the item at `at` goes before the one above it.
fn rises(s: &[u8], at: usize) -> bool
    requires { (length s.now ≡ part_bytes) × (at < 256) }
    ensures { Rises (weight_of (keys_in s.now) (items_in s.now)) at result }
{
    at != 0 && goes(s, at, (at - 1) / 2)
}

// Of the places `i` and `j`, the one whose item goes first; `i` where the heap ends before `j`.
fn lower(s: &[u8], n: usize, i: usize, j: usize) -> usize
    requires { (length s.now ≡ part_bytes) × (i < n) × (n ≤ 256) }
    ensures { Lower (weight_of (keys_in s.now) (items_in s.now)) n i j result }
{
    if j < n && goes(s, j, i) { j } else { i }
}

// The place among `at` and the two below it whose item goes first.
fn lowest(s: &[u8], n: usize, at: usize) -> usize
    requires { (length s.now ≡ part_bytes) × (at < n) × (n ≤ 256) }
    ensures { Lowest (weight_of (keys_in s.now) (items_in s.now)) n at result }
{
    let left = lower(s, n, at, at * 2 + 1);
    lower(s, n, left, at * 2 + 2)
}

// The item at `at` rises until the one above goes before it.
fn sift_up(s: &mut [u8], n: usize, at: usize)
    requires { ClimbingIn n s.old at }
    ensures { SiftedIn n s.old s.new }
{
    let mut i = at;
    while rises(s, i) {
        let up = (i - 1) / 2;
        swap(s, i, up);
        i = up;
    }
}

// The item at `at` sinks until it goes before both below it.
fn sift_down(s: &mut [u8], n: usize, at: usize)
    requires { SinkingIn n s.old at }
    ensures { SiftedIn n s.old s.new }
{
    let mut i = at;
    let mut next = lowest(s, n, i);
    while next != i {
        swap(s, i, next);
        i = next;
        next = lowest(s, n, i);
    }
}

// Puts the heap of `n` items in order where only the item at `at` may be out of order: its key has changed, either way.
pub fn fix(s: &mut [u8], n: usize, at: usize)
    requires { UnsettledIn n s.old at }
    ensures { SiftedIn n s.old s.new }
{
    if rises(s, at) {
        sift_up(s, n, at);
    } else {
        sift_down(s, n, at);
    }
}

// An item at a new last place.
fn append(s: &mut [u8], n: usize, item: usize)
    requires { (length s.old ≡ part_bytes) × (n < 256) × (item < 256) }
    ensures { AppendedIn n s.old item s.new }
{
    s[AT_ITEMS + n] = item as u8;
    s[AT_PLACES + item] = n as u8;
}

// Without the last place, which is 0 from then on.
fn cut(s: &mut [u8], last: usize)
    requires { (length s.old ≡ part_bytes) × (last < 256) }
    ensures { CutIn (last + 1) s.old last s.new }
{
    let gone = item(s, last);
    s[AT_ITEMS + last] = 0;
    s[AT_PLACES + gone] = 0;
}

// Puts in an item that is not among the `n` of the heap.
pub fn insert(s: &mut [u8], n: usize, item: usize)
    requires { RoomyIn n s.old item }
    ensures { InsertedIn n s.old item s.new }
{
    append(s, n, item);
    sift_up(s, n + 1, n);
}

// Takes out the item at a place of the heap of `n`: at 0, the one that goes before all others.
pub fn remove(s: &mut [u8], n: usize, at: usize)
    requires { FilledIn n s.old at }
    ensures { RemovedIn n s.old at s.new }
{
    let last = n - 1;
    if at == last {
        cut(s, last);
    } else {
        swap(s, at, last);
        cut(s, last);
        fix(s, last, at);
    }
}

// Whether the root is as it should be: it has a held item whose place it is.
fn root_ok(s: &[u8], held: &[u8]) -> bool
    requires { (length s.now ≡ part_bytes) × (length held.now ≡ 256) }
    ensures { Decided (RootOk (flagged held.now) s.now) result }
{
    let i = item(s, 0);
    held[i] != 0 && place(s, i) == 0
}

// Whether place `j` below the root is: it has an item whose place it is, and which does not go before the one above.
fn spot_ok(s: &[u8], j: usize) -> bool
    requires { Spot s.now j }
    ensures { Decided (SpotOk s.now j) result }
{
    place(s, item(s, j)) == j && !goes(s, j, (j - 1) / 2)
}

// Whether all `n` places are: the heap's part in what a valid state is, in one pass over the held items. Where so many are held, and what
// is not in use is 0, each held item is there once, and nothing else (proofs/Spots.antt, `heap_ok`). An item that is not held has place
// 0, so that only the root's has to be looked at for that.
pub fn spots_ok(s: &[u8], held: &[u8], n: usize) -> bool
    requires { Spots s.now held.now n }
    ensures { Decided (SpotsOk (flagged held.now) s.now n) result }
{
    if n == 0 {
        return true;
    }
    if !root_ok(s, held) {
        return false;
    }
    for j in 1..n {
        if !spot_ok(s, j) {
            return false;
        }
    }
    true
}
