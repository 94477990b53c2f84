// The cache by value, in the form of paper 01: a struct whose calls are methods that take it and hand back the answer with the next one,
// and whose report is a method too. A method stores the struct in bytes, makes the call there and reads it back; an opening is judged
// there, and a report is that of the bytes. Only this form pays for it.
#![tactic(auto)]

ghost use Rattle.std.specs.Prelude.{◌≡◌, ◌≤◌, Err, length};
ghost use Rattle.std.specs.Fn.{FnOnceReturnsAtMut};
ghost use Rattle.landlord.specs.Calls.{Call, opening, close, call_of};
ghost use Rattle.landlord.specs.CallNumbers.{calls_of};
ghost use Rattle.catalog_bytes.specs.Inner.{catalog_of_first};
ghost use Rattle.cache_open.specs.Inner.{empty_with};
ghost use Rattle.cache_value.specs.Contract.{record_of, catalog_from, CalledBy, OpenedBy, ReportedBy, Ran};
ghost use Rattle.cache_value.specs.Inner.{nothing_opened, MadeAt, Makes};

use catalog_bytes::Item;
use types::{Deduction, Refusal, Step};

mod bytes;

// The recorder's cache, with what it has counted. Every array has a place for each of the 256 item numbers.
#[derive(Clone, Copy)]
pub struct Cache {
    // capacity in blocks
    pub k: u32,
    // how many items the catalog has; the places past it are empty
    pub n: usize,
    pub blocks: [u8; 256],
    pub load: [u16; 256],
    pub write: [u16; 256],
    pub held: [bool; 256],
    pub loadcredit: [u64; 256],
    pub writecredit: [u64; 256],
    // 256 marks, one for each item that is dirty
    pub dirty: [u64; 4],
    pub minutes: [u32; 256],
    pub itemloads: [u32; 256],
    pub itemwritebacks: [u32; 256],
    pub steps: u32,
    pub hits: u32,
    pub loads: u32,
    pub loadcost: u64,
    pub evictions: u32,
    pub dirtyevictions: u32,
    pub writebacks: u32,
    pub writecost: u64,
    pub flushes: u32,
    pub closed: bool,
    // which credit an item loses from first, as the opening said
    pub rule: Deduction,
    // 256 marks, one for each item that has left
    pub left: [u64; 4],
    pub arrivals: u32,
    pub retirements: u32,
    // the level, which rises with each eviction, and the key of each held item; the credits are as last reckoned
    pub level: u64,
    pub keys: [u64; 256],
    // the held items as a heap, and the place of each in it
    pub heap: [u8; 256],
    pub places: [u8; 256],
    // the blocks held
    pub used: u32,
}

// What a method hands back: its answer, and the next cache.
#[derive(Clone, Copy)]
pub struct Answered {
    pub answer: Result<(), Refusal>,
    pub cache: Cache,
}

// ---- the opening

// An empty cache of these capacity, catalog and rule: in each of the 256 places nothing is held and nothing counted, and no item has left.
fn empty(
    k: u32,
    n: usize,
    blocks: [u8; 256],
    load: [u16; 256],
    write: [u16; 256],
    closed: bool,
    rule: Deduction,
) -> Cache
    ensures { record_of result ≡ empty_with k n blocks load write closed rule }
{
    Cache {
        k,
        n,
        blocks,
        load,
        write,
        held: [false; 256],
        loadcredit: [0; 256],
        writecredit: [0; 256],
        dirty: [0; 4],
        minutes: [0; 256],
        itemloads: [0; 256],
        itemwritebacks: [0; 256],
        steps: 0,
        hits: 0,
        loads: 0,
        loadcost: 0,
        evictions: 0,
        dirtyevictions: 0,
        writebacks: 0,
        writecost: 0,
        flushes: 0,
        closed,
        rule,
        left: [0; 4],
        arrivals: 0,
        retirements: 0,
        level: 0,
        keys: [0; 256],
        heap: [0; 256],
        places: [0; 256],
        used: 0,
    }
}

// A refused opening: a closed cache of 1 block with no items, write-first.
fn refused_opening(refusal: Refusal) -> Answered
    ensures answer { result.answer ≡ Err refusal }
    ensures cache { record_of result.cache ≡ nothing_opened }
{
    Answered {
        answer: Err(refusal),
        cache: empty(
            1,
            0,
            [0; 256],
            [0; 256],
            [0; 256],
            true,
            Deduction::WriteFirst,
        ),
    }
}

// Stores the first `n` items of the three arrays as a catalog in bytes.
fn put_catalog(catalog: &mut [u8], n: usize, blocks: [u8; 256], load: [u16; 256], write: [u16; 256])
    requires { (length catalog.old ≡ 1280) × (n ≤ 256) }
    ensures { catalog_of_first n catalog.new ≡ catalog_from n blocks load write }
{
    for i in 0..n {
        let item = Item {
            blocks: blocks[i],
            load: load[i],
            write: write[i],
        };
        catalog_bytes::put(catalog, i, item);
    }
}

// ---- the calls

// A call on the cache, made in place on its bytes. A cache of more items than there are places is not valid, and has no room in the
// bytes. Refused, the cache is handed back as it was.
fn call<F: FnOnce(&mut [u8]) -> Result<(), Refusal>>(c: Cache, make: F) -> Answered
    requires { F.IsAlwaysCallable make }
    ensures { (call : Call) → Makes call (FnOnceReturnsAtMut F.FnOnce make) → CalledBy c call result }
{
    if c.n > 256 {
        return Answered {
            answer: Err(Refusal::InvalidState { line: 0 }),
            cache: c,
        };
    }
    let mut b = [0u8; layout::STATE_BYTES];
    bytes::encode(c, &mut b);
    match make(&mut b) {
        Ok(()) => Answered {
            answer: Ok(()),
            cache: bytes::decode(&b),
        },
        Err(refusal) => Answered {
            answer: Err(refusal),
            cache: c,
        },
    }
}

impl Cache {
    // Opens a cache of `k` blocks, with a rule of deduction by its number, for the first `n` items of the arrays; entries past them are
    // not looked at. More items than there are places are out of range, whatever else is.
    pub fn open(
        k: u32,
        rule: u32,
        n: usize,
        blocks: [u8; 256],
        load: [u16; 256],
        write: [u16; 256],
    ) -> Answered
        ensures { OpenedBy (opening k rule (catalog_from n blocks load write)) result }
    {
        if n > 256 {
            return refused_opening(Refusal::OutOfRange { line: 0 });
        }
        let mut catalog = [0u8; catalog_bytes::MOST_BYTES];
        put_catalog(&mut catalog, n, blocks, load, write);
        let mut b = [0u8; layout::STATE_BYTES];
        match cache_open::open(&mut b, k, rule, &catalog[..catalog_bytes::ITEM_BYTES * n]) {
            Ok(()) => {
                // The arrays may hold anything past the n items. In the bytes that is blank, so blocks and costs are taken from there.
                let stored = bytes::decode(&b);
                Answered {
                    answer: Ok(()),
                    cache: empty(
                        k,
                        n,
                        stored.blocks,
                        stored.load,
                        stored.write,
                        false,
                        types::deduction_of(rule),
                    ),
                }
            }
            Err(refusal) => refused_opening(refusal),
        }
    }

    // Takes one step.
    pub fn step(self, s: Step) -> Answered
        ensures { CalledBy self (call_of s) result }
    {
        call(
            self,
            |b|
                ensures { MadeAt (call_of s) b.old result b.new }
            { cache::step(b, s.numbers()) },
        )
    }

    // Closes the log: what is dirty is written back.
    pub fn close(self) -> Answered
        ensures { CalledBy self close result }
    {
        call(
            self,
            |b|
                ensures { MadeAt close b.old result b.new }
            { cache::close(b) },
        )
    }

    // Writes the report of the cache alone, with no rival's figures, at the start of the page: 17 if the cache is not valid, 15 if the
    // page is too short. Refused, every byte of the page is as before. More items than there are places have no room in the bytes.
    pub fn report(self, page: &mut [u8]) -> Result<usize, Refusal>
        ensures { ReportedBy self page.old result page.new }
    {
        if self.n > 256 {
            return Err(Refusal::InvalidState { line: 0 });
        }
        let mut b = [0u8; layout::STATE_BYTES];
        bytes::encode(self, &mut b);
        report::report(&b, None, page)
    }
}

// ---- a list of calls

// A whole list of calls from an opening on, given as numbers, seven to a call. The answers are noted as far as there is place; handed
// back are the opening's answer and the cache after the last call.
pub fn run(
    k: u32,
    rule: u32,
    n: usize,
    blocks: [u8; 256],
    load: [u16; 256],
    write: [u16; 256],
    calls: &[u32],
    answers: &mut [u32],
) -> Answered
    ensures { Ran (opening k rule (catalog_from n blocks load write)) (calls_of calls.now) answers.old answers.new result }
{
    let first = Cache::open(k, rule, n, blocks, load, write);
    if first.answer.is_err() {
        return first;
    }
    let mut b = [0u8; layout::STATE_BYTES];
    bytes::encode(first.cache, &mut b);
    cache_run::run_calls(&mut b, calls, answers);
    let end = bytes::decode(&b);
    Answered {
        answer: Ok(()),
        cache: end,
    }
}
