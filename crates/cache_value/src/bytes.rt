// The two conversions: a cache stored over all the bytes of a state, and read back, each field through the layout's setter and getter.
// First the fields that are the cache's own, then those of its items, place by place.
ghost use Rattle.std.specs.Prelude.{◌≡◌, ◌<◌, length};
ghost use Rattle.layout.specs.Layout.{state_bytes, cache_of};
ghost use Rattle.layout.specs.Inner.{Stands};
ghost use Rattle.cache_value.specs.Contract.{record_of};
ghost use Rattle.cache_value.specs.Inner.{places_to};

use crate::Cache;

// Stores the cache's own fields; the places are blank.
fn put_own(c: Cache, b: &mut [u8])
    requires { (length b.old ≡ state_bytes) × (c.n < 65536) }
    ensures { Stands b.new (places_to 0 (record_of c)) }
{
    let dirty = c.dirty;
    let rule = c.rule;
    let left = c.left;
    layout::clear(b);
    layout::put_capacity(b, c.k);
    layout::put_count(b, c.n);
    layout::put_closed(b, c.closed);
    layout::put_steps(b, c.steps);
    layout::put_hits(b, c.hits);
    layout::put_loads(b, c.loads);
    layout::put_evictions(b, c.evictions);
    layout::put_dirty_evictions(b, c.dirtyevictions);
    layout::put_writebacks(b, c.writebacks);
    layout::put_flushes(b, c.flushes);
    layout::put_load_cost(b, c.loadcost);
    layout::put_write_cost(b, c.writecost);
    layout::put_dirty(b, dirty);
    layout::put_rule(b, rule);
    layout::put_left(b, left);
    layout::put_arrivals(b, c.arrivals);
    layout::put_retirements(b, c.retirements);
    layout::put_used(b, c.used);
    layout::put_level(b, c.level);
}

// Stores the cache over all of `b`.
pub fn encode(c: Cache, b: &mut [u8])
    requires { (length b.old ≡ state_bytes) × (c.n < 65536) }
    ensures { Stands b.new (record_of c) }
{
    put_own(c, b);
    for i in 0..256 {
        layout::put_load_credit(b, i, c.loadcredit[i]);
        layout::put_write_credit(b, i, c.writecredit[i]);
        layout::put_minutes(b, i, c.minutes[i]);
        layout::put_item_loads(b, i, c.itemloads[i]);
        layout::put_item_writebacks(b, i, c.itemwritebacks[i]);
        layout::put_item_load_cost(b, i, c.load[i]);
        layout::put_item_write_cost(b, i, c.write[i]);
        layout::put_blocks(b, i, c.blocks[i]);
        layout::put_held(b, i, c.held[i]);
        layout::put_key(b, i, c.keys[i]);
        layout::put_heap_item(b, i, c.heap[i]);
        layout::put_place(b, i, c.places[i]);
    }
}

// The cache of the bytes in its own fields; the places are blank.
fn own(b: &[u8]) -> Cache
    requires { length b.now ≡ state_bytes }
    ensures { record_of result ≡ places_to 0 (cache_of b.now) }
{
    Cache {
        k: layout::capacity(b),
        n: layout::count(b),
        steps: layout::steps(b),
        hits: layout::hits(b),
        loads: layout::loads(b),
        evictions: layout::evictions(b),
        dirtyevictions: layout::dirty_evictions(b),
        writebacks: layout::writebacks(b),
        flushes: layout::flushes(b),
        closed: layout::closed(b),
        loadcost: layout::load_cost(b),
        writecost: layout::write_cost(b),
        dirty: layout::dirty(b),
        loadcredit: [0; 256],
        writecredit: [0; 256],
        minutes: [0; 256],
        itemloads: [0; 256],
        itemwritebacks: [0; 256],
        load: [0; 256],
        write: [0; 256],
        blocks: [0; 256],
        held: [false; 256],
        rule: layout::rule(b),
        left: layout::left(b),
        arrivals: layout::arrivals(b),
        retirements: layout::retirements(b),
        used: layout::used(b),
        level: layout::level(b),
        keys: [0; 256],
        heap: [0; 256],
        places: [0; 256],
    }
}

// The cache that the bytes stand for.
pub fn decode(b: &[u8]) -> Cache
    requires { length b.now ≡ state_bytes }
    ensures { record_of result ≡ cache_of b.now }
{
    let mut c = own(b);
    for i in 0..256 {
        c.loadcredit[i] = layout::load_credit(b, i);
        c.writecredit[i] = layout::write_credit(b, i);
        c.minutes[i] = layout::minutes(b, i);
        c.itemloads[i] = layout::item_loads(b, i);
        c.itemwritebacks[i] = layout::item_writebacks(b, i);
        c.load[i] = layout::item_load_cost(b, i);
        c.write[i] = layout::item_write_cost(b, i);
        c.blocks[i] = layout::blocks(b, i);
        c.held[i] = layout::held(b, i);
        c.keys[i] = layout::key(b, i);
        c.heap[i] = layout::heap_item(b, i);
        c.places[i] = layout::place(b, i);
    }
    c
}
