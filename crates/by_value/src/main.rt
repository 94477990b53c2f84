// The cache by value at work: paper 01's unmarked rows and its whole example with its report, then paper 02's two rules of deduction and
// its arrivals and retirements, through the methods, each with what it answers.
#![tactic(auto)]

use cache_value::{Answered, Cache};
use std::io;
use types::{Refusal, Step};

// The paper's number for an answer: 0 if the call was taken.
fn number(answer: Result<(), Refusal>) -> u32 {
    match answer {
        Ok(()) => 0,
        Err(refusal) => refusal.number(),
    }
}

// Opens a cache of `k` blocks for one item of so many.
fn one_item(rt: &impl Print, k: u32, blocks: u8) -> io::Result<Cache> {
    let opened = Cache::open(k, 0, 1, [blocks; 256], [4; 256], [6; 256]);
    println!(rt; "open k {k}: {}", number(opened.answer))?;
    Ok(opened.cache)
}

// An item of 16 blocks, read.
fn read_row(rt: &impl Print, k: u32) -> io::Result<()> {
    let read = one_item(rt, k, 16)?.step(Step::Read { item: 0 });
    println!(rt; "R of 16 blocks: {}", number(read.answer))
}

// A write of so many minutes.
fn write_row(rt: &impl Print, minutes: u32) -> io::Result<()> {
    let wrote = one_item(rt, 1, 1)?.step(Step::Write { item: 0, minutes });
    let kept = wrote.cache.minutes[0];
    println!(rt;
        "W of minutes {minutes}: {}, minutes {kept}",
        number(wrote.answer)
    )
}

// The report of a cache, on a page with room for every one; or the number that it is refused with.
fn print_report(rt: &impl Print, c: Cache) -> io::Result<()> {
    let mut page = report::longest_page();
    match c.report(&mut page) {
        Ok(n) => rt.write_all(&page[..n]),
        Err(refusal) => println!(rt; "report: {}", refusal.number()),
    }
}

// The whole example: five steps and the closing, the cache handed on from call to call.
fn whole_example(rt: &impl Print) -> io::Result<()> {
    let mut blocks = [0; 256];
    let mut load = [0; 256];
    let mut write = [0; 256];
    blocks[0] = 1;
    blocks[1] = 2;
    blocks[2] = 1;
    load[0] = 4;
    load[1] = 6;
    load[2] = 3;
    write[0] = 6;
    write[1] = 2;
    write[2] = 9;
    let a = Cache::open(3, 0, 3, blocks, load, write).cache;
    let b = a
        .step(Step::Write {
            item: 0,
            minutes: 90,
        })
        .cache;
    let c = b.step(Step::Read { item: 1 }).cache;
    let d = c
        .step(Step::Write {
            item: 2,
            minutes: 45,
        })
        .cache;
    let e = d.step(Step::Read { item: 0 }).cache;
    let f = e.step(Step::Flush).cache;
    let closed = f.close();
    println!(rt; "close: {}", number(closed.answer))?;
    let end = closed.cache;
    print_report(rt, end)?;
    let again = end.close();
    println!(rt; "close: {}", number(again.answer))
}

// Load cost and write cost together. They are far from the end of 64 bits.
fn total(c: Cache) -> u64 {
    std::num::wrapping_add_u64(c.loadcost, c.writecost)
}

fn read(c: Cache, item: u32) -> Cache {
    c.step(Step::Read { item }).cache
}

// A cache of 2 blocks for four items of one block, of which one is dear to write back.
fn four_items(rule: u32) -> Answered {
    let mut load = [0; 256];
    let mut write = [0; 256];
    load[0] = 5;
    load[1] = 2;
    load[2] = 4;
    load[3] = 3;
    write[0] = 5;
    Cache::open(2, rule, 4, [1; 256], load, write)
}

// The season where the two rules part: by write-first item 0 is evicted dirty, by load-first it stays till the closing.
fn parting(rt: &impl Print, rule: u32) -> io::Result<()> {
    let opened = four_items(rule).cache;
    let a = opened
        .step(Step::Write {
            item: 0,
            minutes: 0,
        })
        .cache;
    let b = read(read(read(a, 1), 2), 0);
    let c = read(read(read(b, 3), 1), 2);
    let end = c.close().cache;
    let (evictions, dirty) = (end.evictions, end.dirtyevictions);
    println!(rt; "rule {rule}: {evictions} {dirty} {}", total(end))
}

// A number that is no rule's.
fn odd_rule(rt: &impl Print, rule: u32) -> io::Result<()> {
    println!(rt; "open rule {rule}: {}", number(four_items(rule).answer))
}

// Takes a step, and prints what it answers behind the words.
fn take(rt: &impl Print, c: Cache, s: Step, words: &str) -> io::Result<Cache> {
    let taken = c.step(s);
    println!(rt; "{words}: {}", number(taken.answer))?;
    Ok(taken.cache)
}

// A season in which an item arrives, is written and leaves. It stays in the report, and its number is not used again.
fn arrivals(rt: &impl Print) -> io::Result<()> {
    let new = Step::Arrive {
        item: 1,
        blocks: 1,
        load: 3,
        write: 9,
    };
    let wrote = Step::Write {
        item: 1,
        minutes: 12,
    };
    let a = take(rt, one_item(rt, 2, 1)?, Step::Read { item: 0 }, "R 0")?;
    let b = take(rt, a, new, "A 1")?;
    let c = take(rt, b, wrote, "W 1")?;
    let d = take(rt, c, Step::Retire { item: 1 }, "Q 1")?;
    let e = take(rt, d, Step::Read { item: 1 }, "R 1")?;
    let f = take(rt, e, new, "A 1")?;
    let g = take(rt, f, Step::Read { item: 0 }, "R 0")?;
    let end = g.close().cache;
    print_report(rt, end)?;
    let (arrivals, retirements) = (end.arrivals, end.retirements);
    println!(rt; "arrivals {arrivals}, retirements {retirements}")
}

fn main(rt: HostRuntime) -> io::Result<()> {
    read_row(&rt, 16)?;
    read_row(&rt, 15)?;
    write_row(&rt, 5)?;
    write_row(&rt, 6)?;
    write_row(&rt, 1440)?;
    write_row(&rt, 1441)?;
    one_item(&rt, 4096, 1)?;
    one_item(&rt, 4097, 1)?;
    whole_example(&rt)?;
    parting(&rt, 0)?;
    parting(&rt, 1)?;
    odd_rule(&rt, 2)?;
    arrivals(&rt)
}
