// The tests of which the check of a cache is made, on plain numbers: of one item, of the totals and of the sums over the items.
// They take any values: nothing is divided by the blocks of an item before they are known to be some, and every sum and
// product of counts is made in 64 bits, where it cannot wrap.
#![tactic(auto)]

ghost use Rattle.std.specs.Prelude.{◌*◌, ◌≤◌};
ghost use Rattle.landlord.specs.Figures.{totals_of};
ghost use Rattle.basis.specs.InnerDecided.{Decided};
ghost use Rattle.validity.specs.Inner.{CreditOk, MarksOk, EntryOk, KeyFits, Creditable, CountsOk, SumsOk};

// One item of the catalog, by its numbers.
#[derive(Clone, Copy)]
pub struct Entry {
    pub blocks: u8,
    pub load: u16,
    pub write: u16,
    pub held: bool,
    pub dirty: bool,
    pub load_credit: u64,
    pub write_credit: u64,
    pub minutes: u32,
}

// What a season has counted so far.
#[derive(Clone, Copy)]
pub struct Totals {
    pub steps: u32,
    pub hits: u32,
    pub loads: u32,
    pub load_cost: u64,
    pub evictions: u32,
    pub dirty_evictions: u32,
    pub writebacks: u32,
    pub write_cost: u64,
    pub flushes: u32,
    pub arrivals: u32,
    pub retirements: u32,
}

// The sums over the items: the blocks of those that are held and their count, how many are marked dirty, how many have left, and what
// the loads and the writebacks counted for each come to.
#[derive(Clone, Copy)]
pub struct Sums {
    pub blocks: u32,
    pub held: u32,
    pub marked: u32,
    pub left: u32,
    pub loads: u64,
    pub writebacks: u64,
}

// Whether a credit is a multiple of the item's blocks, and no more than the cost in shares. Most are 0, and nothing is divided then.
fn credit_ok(blocks: u8, cost: u16, credit: u64) -> bool
    requires { 1 ≤ blocks }
    ensures { Decided (CreditOk blocks cost credit) result }
{
    credit == 0 || (credit % (blocks as u64) == 0 && credit <= (cost as u64) * 720720)
}

// Whether an item's marks go together with each other, with its credits and with the closing.
fn marks_ok(e: &Entry, closed: bool) -> bool
    ensures { Decided (MarksOk e.now.held e.now.dirty closed e.now.load_credit e.now.write_credit) result }
{
    if e.dirty {
        return !closed && e.held;
    }
    e.write_credit == 0 && (e.held || e.load_credit == 0)
}

// Whether an item of the catalog is as it should be after so many steps, in a log that is open or closed.
pub fn entry_ok(e: &Entry, closed: bool, steps: u32) -> bool
    ensures { Decided (EntryOk e.now.blocks e.now.load e.now.write e.now.held e.now.dirty closed e.now.load_credit e.now.write_credit e.now.minutes steps) result }
{
    1 <= e.blocks
        && e.blocks <= 16
        && marks_ok(e, closed)
        && credit_ok(e.blocks, e.load, e.load_credit)
        && credit_ok(e.blocks, e.write, e.write_credit)
        && (e.minutes as u64) <= 1440 * (steps as u64)
}

// Whether an item's key fits its credits and the level. Both are any numbers of 64 bits: nothing is added to them, and what is
// multiplied is at most the credits.
pub fn key_ok(held: bool, level: u64, key: u64, credits: u64, blocks: u8) -> bool
    requires { Creditable credits blocks }
    ensures { Decided (KeyFits held level key credits blocks) result }
{
    if !held {
        return key == 0;
    }
    if key < level {
        return false;
    }
    let due = key - level;
    due <= credits && due * (blocks as u64) <= credits
}

// Whether the level is no more than so many evictions can have raised it.
pub fn level_ok(level: u64, evictions: u32) -> bool
    requires { evictions ≤ 1000000 }
    ensures { Decided (level ≤ evictions * (131070 * 720720)) result }
{
    level <= (evictions as u64) * 94464770400
}

// Whether the capacity is in range, and the totals go together with each other.
pub fn counts_ok(k: u32, t: &Totals) -> bool
    ensures { Decided (CountsOk k (totals_of t.now.steps t.now.hits t.now.loads t.now.load_cost t.now.evictions t.now.dirty_evictions t.now.writebacks t.now.write_cost t.now.flushes t.now.arrivals t.now.retirements)) result }
{
    let counted = (t.hits as u64)
        + (t.loads as u64)
        + (t.flushes as u64)
        + (t.arrivals as u64)
        + (t.retirements as u64);
    1 <= k
        && k <= 4096
        && t.steps <= 1000000
        && counted == (t.steps as u64)
        && t.dirty_evictions <= t.evictions
        && t.dirty_evictions <= t.writebacks
        && t.load_cost <= 65535 * (t.loads as u64)
        && t.write_cost <= 65535 * (t.writebacks as u64)
}

// Whether the sums over the items are what the capacity and the totals say.
pub fn balanced(k: u32, t: &Totals, s: &Sums) -> bool
    ensures { Decided (SumsOk k s.now.blocks t.now.evictions s.now.held t.now.loads t.now.writebacks s.now.marked t.now.steps s.now.loads s.now.writebacks t.now.retirements s.now.left) result }
{
    s.blocks <= k
        && (t.evictions as u64) + (s.held as u64) == (t.loads as u64)
        && (t.writebacks as u64) + (s.marked as u64) <= (t.steps as u64)
        && s.loads == (t.loads as u64)
        && s.writebacks == (t.writebacks as u64)
        && t.retirements == s.left
}
