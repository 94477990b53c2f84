// Arrivals and retirements, in place on the state's bytes: the two steps that change the catalog. The small functions store the fields of
// one item and count what happened to it; specs/InnerStores.antt says which cache the bytes are then. The public ones say where the queue
// stands after it.
#![tactic(auto)]

ghost use Rattle.types.specs.declared.Step.TheVariants.{Arrive, Retire};
ghost use Rattle.queue.specs.Machine.{moved_in, drop_in, took_in};
ghost use Rattle.cache_state.specs.Cache.{lazy};
ghost use Rattle.cache_state.specs.InnerView.{queue_of};
ghost use Rattle.layout.specs.Layout.{cache_of};
ghost use Rattle.cache_counts.specs.Inner.{StepReadyAt};
ghost use Rattle.layout.specs.Inner.{Stands, BecomesAt};
ghost use Rattle.cache_serve.specs.InnerReady.{ServableAt};
ghost use Rattle.cache_arrivals.specs.InnerStores.{listed_of, LeftAt};
ghost use Rattle.cache_arrivals.specs.InnerReady.{ArrivableAt, ListableAt};

use cache_counts::Total;

// One item more, at the end of the catalog. The places past it are blank, so that there is nothing to clear.
fn list_item(b: &mut [u8], blocks: u8, load: u16, write: u16)
    requires { ListableAt b.old }
    ensures { Stands b.new (listed_of (cache_of b.old) blocks load write) }
{
    let n = layout::count(b);
    layout::put_blocks(b, n, blocks);
    layout::put_item_load_cost(b, n, load);
    layout::put_item_write_cost(b, n, write);
    layout::put_count(b, n + 1);
}

// An arrival in the log: counted as a step, and its item listed.
pub fn arrive(b: &mut [u8], blocks: u8, load: u16, write: u16)
    requires { ArrivableAt b.old }
    ensures { BecomesAt (took_in (lazy (cache_of b.old)) (Arrive (cache_of b.old).n blocks load write)) b.new }
{
    cache_counts::count_step(b, Total::Arrivals);
    list_item(b, blocks, load, write);
}

// Item `i` is dropped, if it is held: an eviction, but the level stays, so that no other item is charged for it.
fn drop_held(b: &mut [u8], i: usize)
    requires { ServableAt b.old i }
    ensures { BecomesAt (moved_in (lazy (cache_of b.old)) (drop_in i (queue_of (cache_of b.old))) (cache_of b.old).closed) b.new }
{
    if layout::held(b, i) {
        let dirty = layout::is_dirty(b, i);
        cache_room::let_go(b, i);
        cache_room::count_eviction(b, i, dirty);
    }
}

// Item `i` is marked as one that has left. A retirement in the log is a step.
fn mark_left(b: &mut [u8], i: usize)
    requires { StepReadyAt b.old }
    ensures { LeftAt b.old i b.new }
{
    let words = layout::left(b);
    cache_counts::count_step(b, Total::Retirements);
    layout::put_left(b, marks::mark(words, i));
}

// A retirement in the log: the item is dropped, and stays in the catalog, marked.
pub fn retire(b: &mut [u8], i: usize)
    requires { ServableAt b.old i }
    ensures { BecomesAt (took_in (lazy (cache_of b.old)) (Retire i)) b.new }
{
    drop_held(b, i);
    mark_left(b, i);
}
