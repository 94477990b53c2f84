// The state's bytes: a getter and a setter for each field, at the places of the table `rows` (specs/Layout.antt). Each asks that the
// bytes are as many as a state has and an item's number below 256; a setter, that they are the bytes of some cache. A getter says the
// field of the cache that the bytes stand for, a setter which cache they are then.
#![tactic(auto)]

ghost use Rattle.std.specs.Prelude.{◌≡◌, ℕ, ◌+◌, ◌*◌, ◌^◌, ◌<◌, ◌≤◌, ◌↔◌, length, get_or, slice_index, EachIndex, false};
ghost use Rattle.std.proofs.lemmas.List.Edits.{sets};
ghost use Rattle.fields.specs.LittleEndian.{number_at};
ghost use Rattle.fields.specs.Inner.{run_of};
ghost use Rattle.marks.specs.Marks.{marked};
ghost use Rattle.cache_state.specs.Cache.{dirty_at, left_at};
ghost use Rattle.cache_state.specs.InnerWith.{with_capacity, with_count, with_closed, with_rule, with_steps, with_hits, with_loads, with_evictions, with_dirty_evictions, with_writebacks, with_flushes, with_load_cost, with_write_cost, with_dirty, with_load_credit, with_write_credit, with_minutes, with_item_loads, with_item_writebacks, with_item_load_cost, with_item_write_cost, with_blocks, with_held, with_left, with_arrivals, with_retirements, with_level, with_key, with_heap_item, with_place, with_used};
ghost use Rattle.cache_state.specs.InnerBecomes.{Decided};
ghost use Rattle.layout.specs.Layout.{state_bytes, numbers_at, cache_of, AllowedBytes};
ghost use Rattle.layout.specs.Inner.{Stands, Readable, cleared};

use types::Deduction;

// The bytes of a state, and the number of this layout.
pub const STATE_BYTES: usize = 11408;

pub const FORMAT: u64 = 5;

// Where each field stands.
pub const AT_FORMAT: usize = 0;

pub const AT_CAPACITY: usize = 4;

pub const AT_COUNT: usize = 8;

pub const AT_CLOSED: usize = 10;

pub const AT_STEPS: usize = 12;

pub const AT_HITS: usize = 16;

pub const AT_LOADS: usize = 20;

pub const AT_EVICTIONS: usize = 24;

pub const AT_DIRTY_EVICTIONS: usize = 28;

pub const AT_WRITEBACKS: usize = 32;

pub const AT_FLUSHES: usize = 36;

pub const AT_LOAD_COST: usize = 40;

pub const AT_WRITE_COST: usize = 48;

pub const AT_DIRTY: usize = 56;

pub const AT_LOAD_CREDITS: usize = 88;

pub const AT_WRITE_CREDITS: usize = 2136;

pub const AT_MINUTES: usize = 4184;

pub const AT_ITEM_LOADS: usize = 5208;

pub const AT_ITEM_WRITEBACKS: usize = 6232;

pub const AT_ITEM_LOAD_COSTS: usize = 7256;

pub const AT_ITEM_WRITE_COSTS: usize = 7768;

pub const AT_BLOCKS: usize = 8280;

pub const AT_HELD: usize = 8536;

pub const AT_RULE: usize = 8792;

pub const AT_LEFT: usize = 8796;

pub const AT_ARRIVALS: usize = 8828;

pub const AT_RETIREMENTS: usize = 8832;

pub const AT_USED: usize = 8836;

pub const AT_LEVEL: usize = 8840;

// The keys, the heap and the places lie end to end, up to the state's end: they are lent as one part (crate heap).
pub const AT_KEYS: usize = 8848;

pub const AT_HEAP: usize = 10896;

pub const AT_PLACES: usize = 11152;

// ---- the capacity, the count of items and the totals

// The capacity in blocks.
pub fn capacity(b: &[u8]) -> u32
    requires { length b.now ≡ state_bytes }
    ensures { result ≡ (cache_of b.now).k }
{
    fields::get(b, AT_CAPACITY, 4) as u32
}

#[tactic(auto, using(crate::proofs::Stores::capacity_stored))]
pub fn put_capacity(b: &mut [u8], v: u32)
    requires { Readable b.old }
    ensures { Stands b.new (with_capacity (cache_of b.old) v) }
{
    fields::put(b, AT_CAPACITY, 4, v as u64);
}

// How many items the catalog has.
pub fn count(b: &[u8]) -> usize
    requires { length b.now ≡ state_bytes }
    ensures { (result ≡ (cache_of b.now).n) × (result < 65536) }
{
    fields::get(b, AT_COUNT, 2) as usize
}

#[tactic(auto, using(crate::proofs::Stores::count_stored))]
pub fn put_count(b: &mut [u8], v: usize)
    requires { Readable b.old × (v < 65536) }
    ensures { Stands b.new (with_count (cache_of b.old) v) }
{
    fields::put(b, AT_COUNT, 2, v as u64);
}

pub fn steps(b: &[u8]) -> u32
    requires { length b.now ≡ state_bytes }
    ensures { result ≡ (cache_of b.now).steps }
{
    fields::get(b, AT_STEPS, 4) as u32
}

#[tactic(auto, using(crate::proofs::Stores::steps_stored))]
pub fn put_steps(b: &mut [u8], v: u32)
    requires { Readable b.old }
    ensures { Stands b.new (with_steps (cache_of b.old) v) }
{
    fields::put(b, AT_STEPS, 4, v as u64);
}

pub fn hits(b: &[u8]) -> u32
    requires { length b.now ≡ state_bytes }
    ensures { result ≡ (cache_of b.now).hits }
{
    fields::get(b, AT_HITS, 4) as u32
}

#[tactic(auto, using(crate::proofs::Stores::hits_stored))]
pub fn put_hits(b: &mut [u8], v: u32)
    requires { Readable b.old }
    ensures { Stands b.new (with_hits (cache_of b.old) v) }
{
    fields::put(b, AT_HITS, 4, v as u64);
}

pub fn loads(b: &[u8]) -> u32
    requires { length b.now ≡ state_bytes }
    ensures { result ≡ (cache_of b.now).loads }
{
    fields::get(b, AT_LOADS, 4) as u32
}

#[tactic(auto, using(crate::proofs::Stores::loads_stored))]
pub fn put_loads(b: &mut [u8], v: u32)
    requires { Readable b.old }
    ensures { Stands b.new (with_loads (cache_of b.old) v) }
{
    fields::put(b, AT_LOADS, 4, v as u64);
}

pub fn evictions(b: &[u8]) -> u32
    requires { length b.now ≡ state_bytes }
    ensures { result ≡ (cache_of b.now).evictions }
{
    fields::get(b, AT_EVICTIONS, 4) as u32
}

#[tactic(auto, using(crate::proofs::Stores::evictions_stored))]
pub fn put_evictions(b: &mut [u8], v: u32)
    requires { Readable b.old }
    ensures { Stands b.new (with_evictions (cache_of b.old) v) }
{
    fields::put(b, AT_EVICTIONS, 4, v as u64);
}

pub fn dirty_evictions(b: &[u8]) -> u32
    requires { length b.now ≡ state_bytes }
    ensures { result ≡ (cache_of b.now).dirtyevictions }
{
    fields::get(b, AT_DIRTY_EVICTIONS, 4) as u32
}

#[tactic(auto, using(crate::proofs::Stores::dirty_evictions_stored))]
pub fn put_dirty_evictions(b: &mut [u8], v: u32)
    requires { Readable b.old }
    ensures { Stands b.new (with_dirty_evictions (cache_of b.old) v) }
{
    fields::put(b, AT_DIRTY_EVICTIONS, 4, v as u64);
}

pub fn writebacks(b: &[u8]) -> u32
    requires { length b.now ≡ state_bytes }
    ensures { result ≡ (cache_of b.now).writebacks }
{
    fields::get(b, AT_WRITEBACKS, 4) as u32
}

#[tactic(auto, using(crate::proofs::Stores::writebacks_stored))]
pub fn put_writebacks(b: &mut [u8], v: u32)
    requires { Readable b.old }
    ensures { Stands b.new (with_writebacks (cache_of b.old) v) }
{
    fields::put(b, AT_WRITEBACKS, 4, v as u64);
}

pub fn flushes(b: &[u8]) -> u32
    requires { length b.now ≡ state_bytes }
    ensures { result ≡ (cache_of b.now).flushes }
{
    fields::get(b, AT_FLUSHES, 4) as u32
}

#[tactic(auto, using(crate::proofs::Stores::flushes_stored))]
pub fn put_flushes(b: &mut [u8], v: u32)
    requires { Readable b.old }
    ensures { Stands b.new (with_flushes (cache_of b.old) v) }
{
    fields::put(b, AT_FLUSHES, 4, v as u64);
}

pub fn arrivals(b: &[u8]) -> u32
    requires { length b.now ≡ state_bytes }
    ensures { result ≡ (cache_of b.now).arrivals }
{
    fields::get(b, AT_ARRIVALS, 4) as u32
}

#[tactic(auto, using(crate::proofs::Stores::arrivals_stored))]
pub fn put_arrivals(b: &mut [u8], v: u32)
    requires { Readable b.old }
    ensures { Stands b.new (with_arrivals (cache_of b.old) v) }
{
    fields::put(b, AT_ARRIVALS, 4, v as u64);
}

pub fn retirements(b: &[u8]) -> u32
    requires { length b.now ≡ state_bytes }
    ensures { result ≡ (cache_of b.now).retirements }
{
    fields::get(b, AT_RETIREMENTS, 4) as u32
}

#[tactic(auto, using(crate::proofs::Stores::retirements_stored))]
pub fn put_retirements(b: &mut [u8], v: u32)
    requires { Readable b.old }
    ensures { Stands b.new (with_retirements (cache_of b.old) v) }
{
    fields::put(b, AT_RETIREMENTS, 4, v as u64);
}

// The level, and the key of item `i`.
pub fn level(b: &[u8]) -> u64
    requires { length b.now ≡ state_bytes }
    ensures { result ≡ (cache_of b.now).level }
{
    fields::get(b, AT_LEVEL, 8)
}

#[tactic(auto, using(crate::proofs::Stores::level_stored))]
pub fn put_level(b: &mut [u8], v: u64)
    requires { Readable b.old }
    ensures { Stands b.new (with_level (cache_of b.old) v) }
{
    fields::put(b, AT_LEVEL, 8, v);
}

#[tactic(auto, using(crate::proofs::Places::number_at_lem))]
pub fn key(b: &[u8], i: usize) -> u64
    requires { (length b.now ≡ state_bytes) × (i < 256) }
    ensures { result ≡ get_or (cache_of b.now).keys i 0 }
{
    fields::get(b, AT_KEYS + i * 8, 8)
}

#[tactic(auto, using(crate::proofs::Stores::key_stored))]
pub fn put_key(b: &mut [u8], i: usize, v: u64)
    requires { Readable b.old × (i < 256) }
    ensures { Stands b.new (with_key (cache_of b.old) i v) }
{
    fields::put(b, AT_KEYS + i * 8, 8, v);
}

// The item at place `i` of the heap, and the place of item `i` in it.
#[tactic(auto, using(crate::proofs::Places::number_at_lem))]
pub fn heap_item(b: &[u8], i: usize) -> u8
    requires { (length b.now ≡ state_bytes) × (i < 256) }
    ensures { result ≡ get_or (cache_of b.now).heap i 0 }
{
    fields::get(b, AT_HEAP + i, 1) as u8
}

#[tactic(auto, using(crate::proofs::Stores::heap_item_stored))]
pub fn put_heap_item(b: &mut [u8], i: usize, v: u8)
    requires { Readable b.old × (i < 256) }
    ensures { Stands b.new (with_heap_item (cache_of b.old) i v) }
{
    fields::put(b, AT_HEAP + i, 1, v as u64);
}

#[tactic(auto, using(crate::proofs::Places::number_at_lem))]
pub fn place(b: &[u8], i: usize) -> u8
    requires { (length b.now ≡ state_bytes) × (i < 256) }
    ensures { result ≡ get_or (cache_of b.now).places i 0 }
{
    fields::get(b, AT_PLACES + i, 1) as u8
}

#[tactic(auto, using(crate::proofs::Stores::place_stored))]
pub fn put_place(b: &mut [u8], i: usize, v: u8)
    requires { Readable b.old × (i < 256) }
    ensures { Stands b.new (with_place (cache_of b.old) i v) }
{
    fields::put(b, AT_PLACES + i, 1, v as u64);
}

// The blocks held.
pub fn used(b: &[u8]) -> u32
    requires { length b.now ≡ state_bytes }
    ensures { result ≡ (cache_of b.now).used }
{
    fields::get(b, AT_USED, 4) as u32
}

#[tactic(auto, using(crate::proofs::Stores::used_stored))]
pub fn put_used(b: &mut [u8], v: u32)
    requires { Readable b.old }
    ensures { Stands b.new (with_used (cache_of b.old) v) }
{
    fields::put(b, AT_USED, 4, v as u64);
}

// The load costs paid.
pub fn load_cost(b: &[u8]) -> u64
    requires { length b.now ≡ state_bytes }
    ensures { result ≡ (cache_of b.now).loadcost }
{
    fields::get(b, AT_LOAD_COST, 8)
}

#[tactic(auto, using(crate::proofs::Stores::load_cost_stored))]
pub fn put_load_cost(b: &mut [u8], v: u64)
    requires { Readable b.old }
    ensures { Stands b.new (with_load_cost (cache_of b.old) v) }
{
    fields::put(b, AT_LOAD_COST, 8, v);
}

// The write costs paid.
pub fn write_cost(b: &[u8]) -> u64
    requires { length b.now ≡ state_bytes }
    ensures { result ≡ (cache_of b.now).writecost }
{
    fields::get(b, AT_WRITE_COST, 8)
}

#[tactic(auto, using(crate::proofs::Stores::write_cost_stored))]
pub fn put_write_cost(b: &mut [u8], v: u64)
    requires { Readable b.old }
    ensures { Stands b.new (with_write_cost (cache_of b.old) v) }
{
    fields::put(b, AT_WRITE_COST, 8, v);
}

// Whether the log is closed.
pub fn closed(b: &[u8]) -> bool
    requires { length b.now ≡ state_bytes }
    ensures { result ≡ (cache_of b.now).closed }
{
    fields::get(b, AT_CLOSED, 2) != 0
}

#[tactic(auto, using(crate::proofs::Stores::closed_stored))]
pub fn put_closed(b: &mut [u8], f: bool)
    requires { Readable b.old }
    ensures { Stands b.new (with_closed (cache_of b.old) f) }
{
    fields::put(b, AT_CLOSED, 2, f as u64);
}

// The rule of deduction, stored as its number.
pub fn rule(b: &[u8]) -> Deduction
    requires { length b.now ≡ state_bytes }
    ensures { result ≡ (cache_of b.now).rule }
{
    types::deduction_of(fields::get(b, AT_RULE, 4) as u32)
}

#[tactic(auto, using(crate::proofs::Stores::rule_stored))]
pub fn put_rule(b: &mut [u8], rule: Deduction)
    requires { Readable b.old }
    ensures { Stands b.new (with_rule (cache_of b.old) rule) }
{
    fields::put(b, AT_RULE, 4, rule.number() as u64);
}

// ---- marks in four words: of the dirty items, and of those that have left

// Word `j` of those at the place `at`. As a function of its own its eight bytes are read as one number.
fn word(b: &[u8], at: usize, j: usize) -> u64
    requires { (at + 32 ≤ length b.now) × (j < 4) }
    ensures { result ≡ number_at b.now (at + j * 8) 8 }
{
    fields::get(b, at + j * 8, 8)
}

// Whether mark `i` of them is set.
#[tactic(auto, using(crate::proofs::Places::number_at_lem), unfolding(marks::specs::Marks::marked, marks::specs::Marks::bit))]
fn is_marked(b: &[u8], at: usize, i: usize) -> bool
    requires { (at + 32 ≤ length b.now) × (i < 256) }
    ensures { result ≡ marked (numbers_at b.now at 4 8) i }
{
    (word(b, at, i / 64) >> (i % 64)) % 2 == 1
}

#[tactic(auto, using(crate::proofs::Places::read_four))]
fn words(b: &[u8], at: usize) -> [u64; 4]
    requires { at + 32 ≤ length b.now }
    ensures { result ≡ numbers_at b.now at 4 8 }
{
    [
        word(b, at, 0),
        word(b, at, 1),
        word(b, at, 2),
        word(b, at, 3),
    ]
}

fn put_words(b: &mut [u8], at: usize, words: [u64; 4])
    requires { at + 32 ≤ length b.old }
    ensures { b.new ≡ sets b.old at (run_of 8 words) }
{
    for (j, word) in words.iter().enumerate() {
        fields::put(b, at + j * 8, 8, *word);
    }
}

// Whether item `i` is dirty.
pub fn is_dirty(b: &[u8], i: usize) -> bool
    requires { (length b.now ≡ state_bytes) × (i < 256) }
    ensures { result ≡ dirty_at (cache_of b.now) i }
{
    is_marked(b, AT_DIRTY, i)
}

pub fn dirty(b: &[u8]) -> [u64; 4]
    requires { length b.now ≡ state_bytes }
    ensures { result ≡ (cache_of b.now).dirty }
{
    words(b, AT_DIRTY)
}

#[tactic(auto, using(crate::proofs::Stores::dirty_stored))]
pub fn put_dirty(b: &mut [u8], words: [u64; 4])
    requires { Readable b.old }
    ensures { Stands b.new (with_dirty (cache_of b.old) words) }
{
    put_words(b, AT_DIRTY, words);
}

// Whether item `i` has left.
pub fn is_left(b: &[u8], i: usize) -> bool
    requires { (length b.now ≡ state_bytes) × (i < 256) }
    ensures { result ≡ left_at (cache_of b.now) i }
{
    is_marked(b, AT_LEFT, i)
}

pub fn left(b: &[u8]) -> [u64; 4]
    requires { length b.now ≡ state_bytes }
    ensures { result ≡ (cache_of b.now).left }
{
    words(b, AT_LEFT)
}

#[tactic(auto, using(crate::proofs::Stores::left_stored))]
pub fn put_left(b: &mut [u8], words: [u64; 4])
    requires { Readable b.old }
    ensures { Stands b.new (with_left (cache_of b.old) words) }
{
    put_words(b, AT_LEFT, words);
}

// ---- an item's fields

#[tactic(auto, using(crate::proofs::Places::number_at_lem))]
pub fn blocks(b: &[u8], i: usize) -> u8
    requires { (length b.now ≡ state_bytes) × (i < 256) }
    ensures { result ≡ get_or (cache_of b.now).blocks i 0 }
{
    fields::get(b, AT_BLOCKS + i, 1) as u8
}

#[tactic(auto, using(crate::proofs::Stores::blocks_stored))]
pub fn put_blocks(b: &mut [u8], i: usize, v: u8)
    requires { Readable b.old × (i < 256) }
    ensures { Stands b.new (with_blocks (cache_of b.old) i v) }
{
    fields::put(b, AT_BLOCKS + i, 1, v as u64);
}

#[tactic(auto, using(crate::proofs::Places::number_at_lem))]
pub fn item_load_cost(b: &[u8], i: usize) -> u16
    requires { (length b.now ≡ state_bytes) × (i < 256) }
    ensures { result ≡ get_or (cache_of b.now).load i 0 }
{
    fields::get(b, AT_ITEM_LOAD_COSTS + i * 2, 2) as u16
}

#[tactic(auto, using(crate::proofs::Stores::item_load_cost_stored))]
pub fn put_item_load_cost(b: &mut [u8], i: usize, v: u16)
    requires { Readable b.old × (i < 256) }
    ensures { Stands b.new (with_item_load_cost (cache_of b.old) i v) }
{
    fields::put(b, AT_ITEM_LOAD_COSTS + i * 2, 2, v as u64);
}

#[tactic(auto, using(crate::proofs::Places::number_at_lem))]
pub fn item_write_cost(b: &[u8], i: usize) -> u16
    requires { (length b.now ≡ state_bytes) × (i < 256) }
    ensures { result ≡ get_or (cache_of b.now).write i 0 }
{
    fields::get(b, AT_ITEM_WRITE_COSTS + i * 2, 2) as u16
}

#[tactic(auto, using(crate::proofs::Stores::item_write_cost_stored))]
pub fn put_item_write_cost(b: &mut [u8], i: usize, v: u16)
    requires { Readable b.old × (i < 256) }
    ensures { Stands b.new (with_item_write_cost (cache_of b.old) i v) }
{
    fields::put(b, AT_ITEM_WRITE_COSTS + i * 2, 2, v as u64);
}

#[tactic(auto, using(crate::proofs::Places::number_at_lem))]
pub fn load_credit(b: &[u8], i: usize) -> u64
    requires { (length b.now ≡ state_bytes) × (i < 256) }
    ensures { result ≡ get_or (cache_of b.now).loadcredit i 0 }
{
    fields::get(b, AT_LOAD_CREDITS + i * 8, 8)
}

#[tactic(auto, using(crate::proofs::Stores::load_credit_stored))]
pub fn put_load_credit(b: &mut [u8], i: usize, v: u64)
    requires { Readable b.old × (i < 256) }
    ensures { Stands b.new (with_load_credit (cache_of b.old) i v) }
{
    fields::put(b, AT_LOAD_CREDITS + i * 8, 8, v);
}

#[tactic(auto, using(crate::proofs::Places::number_at_lem))]
pub fn write_credit(b: &[u8], i: usize) -> u64
    requires { (length b.now ≡ state_bytes) × (i < 256) }
    ensures { result ≡ get_or (cache_of b.now).writecredit i 0 }
{
    fields::get(b, AT_WRITE_CREDITS + i * 8, 8)
}

#[tactic(auto, using(crate::proofs::Stores::write_credit_stored))]
pub fn put_write_credit(b: &mut [u8], i: usize, v: u64)
    requires { Readable b.old × (i < 256) }
    ensures { Stands b.new (with_write_credit (cache_of b.old) i v) }
{
    fields::put(b, AT_WRITE_CREDITS + i * 8, 8, v);
}

#[tactic(auto, using(crate::proofs::Places::number_at_lem))]
pub fn minutes(b: &[u8], i: usize) -> u32
    requires { (length b.now ≡ state_bytes) × (i < 256) }
    ensures { result ≡ get_or (cache_of b.now).minutes i 0 }
{
    fields::get(b, AT_MINUTES + i * 4, 4) as u32
}

#[tactic(auto, using(crate::proofs::Stores::minutes_stored))]
pub fn put_minutes(b: &mut [u8], i: usize, v: u32)
    requires { Readable b.old × (i < 256) }
    ensures { Stands b.new (with_minutes (cache_of b.old) i v) }
{
    fields::put(b, AT_MINUTES + i * 4, 4, v as u64);
}

#[tactic(auto, using(crate::proofs::Places::number_at_lem))]
pub fn item_loads(b: &[u8], i: usize) -> u32
    requires { (length b.now ≡ state_bytes) × (i < 256) }
    ensures { result ≡ get_or (cache_of b.now).itemloads i 0 }
{
    fields::get(b, AT_ITEM_LOADS + i * 4, 4) as u32
}

#[tactic(auto, using(crate::proofs::Stores::item_loads_stored))]
pub fn put_item_loads(b: &mut [u8], i: usize, v: u32)
    requires { Readable b.old × (i < 256) }
    ensures { Stands b.new (with_item_loads (cache_of b.old) i v) }
{
    fields::put(b, AT_ITEM_LOADS + i * 4, 4, v as u64);
}

#[tactic(auto, using(crate::proofs::Places::number_at_lem))]
pub fn item_writebacks(b: &[u8], i: usize) -> u32
    requires { (length b.now ≡ state_bytes) × (i < 256) }
    ensures { result ≡ get_or (cache_of b.now).itemwritebacks i 0 }
{
    fields::get(b, AT_ITEM_WRITEBACKS + i * 4, 4) as u32
}

#[tactic(auto, using(crate::proofs::Stores::item_writebacks_stored))]
pub fn put_item_writebacks(b: &mut [u8], i: usize, v: u32)
    requires { Readable b.old × (i < 256) }
    ensures { Stands b.new (with_item_writebacks (cache_of b.old) i v) }
{
    fields::put(b, AT_ITEM_WRITEBACKS + i * 4, 4, v as u64);
}

pub fn held(b: &[u8], i: usize) -> bool
    requires { (length b.now ≡ state_bytes) × (i < 256) }
    ensures { result ≡ get_or (cache_of b.now).held i false }
{
    b[AT_HELD + i] != 0
}

#[tactic(auto, using(crate::proofs::Stores::held_stored))]
pub fn put_held(b: &mut [u8], i: usize, f: bool)
    requires { Readable b.old × (i < 256) }
    ensures { Stands b.new (with_held (cache_of b.old) i f) }
{
    fields::put(b, AT_HELD + i, 1, f as u64);
}

// ---- all of them

// Every number becomes 0 and every flag false, behind the number of the layout.
pub fn clear(b: &mut [u8])
    requires { length b.old ≡ state_bytes }
    ensures { Stands b.new cleared }
{
    b.fill(0);
    fields::put(b, AT_FORMAT, 4, FORMAT);
}

// The bits that are set in any of the bytes. They are tested once, in place of a test a byte, so that the loop goes by vectors.
pub fn any_bits(bytes: &[u8]) -> u8
    ensures { (k : ℕ) → (result < 2 ^ k) ↔ EachIndex bytes.now (λ i. slice_index bytes.now i < 2 ^ k) }
{
    let mut all = 0;
    for x in bytes {
        all |= *x;
    }
    all
}

// Whether every field has a value that the layout allows.
pub fn allowed(b: &[u8]) -> bool
    requires { length b.now ≡ state_bytes }
    ensures { Decided (AllowedBytes b.now) result }
{
    fields::get(b, AT_FORMAT, 4) == FORMAT
        && fields::get(b, AT_CLOSED, 2) < 2
        && fields::get(b, AT_RULE, 4) < 2
        && any_bits(&b[AT_HELD..AT_RULE]) < 2
}
