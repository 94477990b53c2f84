// Serving a request, and flushing, in place on the state's bytes: what a step of the rule does once there is room for its item.
// The small functions store the fields of one item and count what happened to it; specs/InnerStores.antt says which cache the bytes are
// then. The public ones say where the lazy form stands after it.
#![tactic(auto)]

ghost use Rattle.std.specs.Prelude.{◌≤◌, get_or, ◌≡◌};
ghost use Rattle.types.specs.declared.Step.TheVariants.{Flush};
ghost use Rattle.landlord.specs.Catalog.{full, shares_per_block};
ghost use Rattle.landlord.specs.Slot.{split_of, load_credit, write_credit};
ghost use Rattle.queue.specs.Queue.{now_at};
ghost use Rattle.queue.specs.Machine.{moved_in, serve_read_in, serve_write_in, flush_in, took_in};
ghost use Rattle.cache_state.specs.Cache.{lazy};
ghost use Rattle.cache_state.specs.InnerView.{queue_of};
ghost use Rattle.layout.specs.Layout.{cache_of, ValidBytes};
ghost use Rattle.layout.specs.Inner.{Stands, BecomesAt};
ghost use Rattle.cache_counts.specs.Inner.{PayableAt};
ghost use Rattle.cache_serve.specs.InnerStores.{loss_at, fetched_of, loaded_of, WroteAt, WroteBackAt, EnteredAt};
ghost use Rattle.cache_serve.specs.InnerReady.{SteppableAt, ServableAt, LoadAt, WritableAt, KeyedAt, EnterableAt};

use cache_counts::Total;

// A cost as it is added to a sum of costs.
fn cost(price: u16) -> u64
    ensures { (result ≡ price) × (result ≤ 65535) }
{
    price as u64
}

// The shares a block of a cost of 1, where 1, 2, .. or 16 blocks bear it: 720,720 divided by their number.
const QUOTIENTS: [u32; 16] = [
    720720, 360360, 240240, 180180, 144144, 120120, 102960, 90090, 80080, 72072, 65520, 60060,
    55440, 51480, 48048, 45045,
];

// A cost's shares a block, where so many blocks bear it.
fn shares_per_block(price: u16, blocks: u8) -> u64
    requires { (1 ≤ blocks) × (blocks ≤ 16) }
    ensures { result ≡ shares_per_block price blocks }
{
    cost(price) * (QUOTIENTS[blocks as usize - 1] as u64)
}

// A cost in shares: what a credit is when it is full. 720,720 is a multiple of 1 to 16, so that nothing of it is lost.
fn full_credit(price: u16, blocks: u8) -> u64
    requires { (1 ≤ blocks) × (blocks ≤ 16) }
    ensures { result ≡ full price }
{
    shares_per_block(price, blocks) * (blocks as u64)
}

// What held item `i` has lost since its credits were reckoned, by its key and the level.
fn loss(b: &[u8], i: usize) -> u64
    requires { KeyedAt b.now i }
    ensures { result ≡ loss_at (queue_of (cache_of b.now)) i }
{
    let blocks = layout::blocks(b, i) as u64;
    let worth = (layout::load_credit(b, i) + layout::write_credit(b, i)) / blocks;
    blocks * (layout::level(b) + worth - layout::key(b, i))
}

// The part of that loss that the write credit bears.
fn borne(b: &[u8], i: usize, loss: u64) -> u64
    requires { KeyedAt b.now i }
    ensures { result ≡ split_of (cache_of b.now).rule (get_or (cache_of b.now).blocks i 0) loss (get_or (cache_of b.now).loadcredit i 0) (get_or (cache_of b.now).writecredit i 0) }
{
    landlord::split(
        layout::rule(b),
        loss,
        layout::load_credit(b, i),
        layout::write_credit(b, i),
    )
}

// The write credit of held item `i` as it stands.
fn write_now(b: &[u8], i: usize) -> u64
    requires { KeyedAt b.now i }
    ensures { result ≡ write_credit (now_at (split_of (cache_of b.now).rule) (queue_of (cache_of b.now)) i) }
{
    let lost = loss(b, i);
    layout::write_credit(b, i) - borne(b, i, lost)
}

// The load credit of held item `i` as it stands.
fn load_now(b: &[u8], i: usize) -> u64
    requires { KeyedAt b.now i }
    ensures { result ≡ load_credit (now_at (split_of (cache_of b.now).rule) (queue_of (cache_of b.now)) i) }
{
    let lost = loss(b, i);
    layout::load_credit(b, i) - (lost - borne(b, i, lost))
}

// A request for an item that is not held: its load is counted, and its load cost paid.
fn count_load(b: &mut [u8], i: usize)
    requires { LoadAt b.old i }
    ensures { Stands b.new (loaded_of (cache_of b.old) i) }
{
    let own = layout::item_loads(b, i);
    let paid = layout::load_cost(b);
    let price = cost(layout::item_load_cost(b, i));
    cache_counts::count_step(b, Total::Loads);
    layout::put_item_loads(b, i, own + 1);
    layout::put_load_cost(b, paid + price);
}

// Item `i` comes in with this load credit, and into the heap by its key. What is not held has no mark and no write credit, so it comes in
// clean, and there is nothing to clear.
fn enter(b: &mut [u8], i: usize, credit: u64)
    requires { EnterableAt b.old i credit }
    ensures { EnteredAt b.old i credit b.new }
{
    let n = cache_room::held_items(b);
    let blocks = layout::blocks(b, i);
    let used = layout::used(b);
    let key = layout::level(b) + credit / (blocks as u64);
    layout::put_held(b, i, true);
    layout::put_load_credit(b, i, credit);
    layout::put_used(b, used + blocks as u32);
    layout::put_key(b, i, key);
    cache_heap::insert(b, n, i);
}

// A write also makes the item dirty, and counts its minutes.
fn count_write(b: &mut [u8], i: usize, minutes: u32)
    requires { WritableAt b.old i minutes }
    ensures { WroteAt b.old i minutes b.new }
{
    let words = layout::dirty(b);
    let sofar = layout::minutes(b, i);
    layout::put_dirty(b, marks::mark(words, i));
    layout::put_minutes(b, i, sofar + minutes);
}

// A dirty item without write credit is written back: it pays its write cost, and is clean.
fn write_back(b: &mut [u8], i: usize)
    requires { PayableAt b.old i }
    ensures { WroteBackAt b.old i b.new }
{
    cache_counts::count_writeback(b, i);
    let words = layout::dirty(b);
    layout::put_dirty(b, marks::unmark(words, i));
}

// A read of item `i`, for which there is room if it is not held: its load credit is full from now on.
pub fn serve_read(b: &mut [u8], i: usize)
    requires { ServableAt b.old i }
    ensures { BecomesAt (moved_in (lazy (cache_of b.old)) (serve_read_in (split_of (cache_of b.old).rule) i (queue_of (cache_of b.old))) (cache_of b.old).closed) b.new }
{
    let credit = full_credit(layout::item_load_cost(b, i), layout::blocks(b, i));
    if layout::held(b, i) {
        let write = write_now(b, i);
        cache_room::reckon(b, i, credit, write);
        cache_counts::count_step(b, Total::Hits);
        return;
    }
    enter(b, i, credit);
    count_load(b, i);
}

// Item `i` is held from here on: it was, and a hit is counted, or it comes in with this load credit, and its load is counted.
fn fetch(b: &mut [u8], i: usize, credit: u64)
    requires { ServableAt b.old i × (credit ≡ full (get_or (cache_of b.old).load i 0)) }
    ensures { BecomesAt (fetched_of (lazy (cache_of b.old)) i credit) b.new }
{
    if layout::held(b, i) {
        cache_counts::count_step(b, Total::Hits);
        return;
    }
    enter(b, i, credit);
    count_load(b, i);
}

// A write of item `i`: after it both credits are full, whatever they were.
pub fn serve_write(b: &mut [u8], i: usize, minutes: u32)
    requires { ServableAt b.old i × (minutes ≤ 1440) }
    ensures { BecomesAt (moved_in (lazy (cache_of b.old)) (serve_write_in (split_of (cache_of b.old).rule) i minutes (queue_of (cache_of b.old))) (cache_of b.old).closed) b.new }
{
    let blocks = layout::blocks(b, i);
    let load = full_credit(layout::item_load_cost(b, i), blocks);
    let write = full_credit(layout::item_write_cost(b, i), blocks);
    fetch(b, i, load);
    count_write(b, i, minutes);
    cache_room::reckon(b, i, load, write);
}

// Every dirty item is written back, from the lowest number on. Its load credit remains as it stands, and it is reckoned anew.
pub fn flush(b: &mut [u8])
    requires { ValidBytes b.old }
    ensures { BecomesAt (moved_in (lazy (cache_of b.old)) (flush_in (split_of (cache_of b.old).rule) (queue_of (cache_of b.old))) (cache_of b.old).closed) b.new }
{
    // Below `at` every item is clean.
    let mut at = 0;
    loop {
        let i = marks::next(layout::dirty(b), at);
        if i >= 256 {
            return;
        }
        let load = load_now(b, i);
        cache_room::reckon(b, i, load, 0);
        write_back(b, i);
        at = i + 1;
    }
}

// A flush in the log: counted as a step, then done.
pub fn flush_step(b: &mut [u8])
    requires { SteppableAt b.old }
    ensures { BecomesAt (took_in (lazy (cache_of b.old)) Flush) b.new }
{
    cache_counts::count_step(b, Total::Flushes);
    flush(b);
}
