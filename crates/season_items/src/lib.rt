// The items as the steps of a text leave them: which are there and which have left, what the table of refusals says of a step, and
// steps and acts as numbers.
#![tactic(auto)]

ghost use Rattle.std.specs.Prelude.{◌≡◌, true, [], ◌∷◌, ◌+◌, ◌*◌, ◌≤◌, length, get_or};
ghost use Rattle.types.specs.declared.Step.TheVariants.{Read};
ghost use Rattle.types.specs.Types.{numbers_of, step_of, act_of, answer_told};
ghost use Rattle.landlord.specs.Steps.{in_range};
ghost use Rattle.landlord.specs.CallNumbers.{call_numbers, numbers_behind};
ghost use Rattle.season_items.specs.Inner.{call_width, act_width, most_noted, item_room, Lookable, Walkable, act_noted, put_at, told_as, known_number, Advanced, CatchesUp, TellsRefusal, with_arrival};

use catalog_bytes::Item;
use types::{Act, Numbers, Refusal, Step};

// The numbers of a step, noted as a call.
pub const CALL_NUMBERS: usize = 7;
// The numbers of an act.
pub const ACT_NUMBERS: usize = 3;
// The most steps, and the most acts, that a text of 65,536 bytes has: each has a line of six bytes or more.
const MOST_NOTED: usize = 10922;
// Room for the numbers of so many steps, and of one call more.
pub const CALL_ROOM: usize = CALL_NUMBERS * (MOST_NOTED + 1);
// Of so many acts, and one more.
pub const ACT_ROOM: usize = ACT_NUMBERS * (MOST_NOTED + 1);

// What is known of the items after some steps: how many there are, and a mark for each that has left. By default there is none.
#[derive(Clone, Copy, Debug, Default, PartialEq, Eq)]
pub struct Present {
    pub n: usize,
    pub left: [u64; 4],
}

impl Present {
    // Refused, on a line of the text, if the item is not there (6) or has left (20).
    #[tactic(auto, unfolding(marks::specs::Marks::bit, marks::specs::Marks::marked))]
    pub fn known(&self, item: u32, line: u32) -> Result<(), Refusal>
        requires { self.now.n ≤ 256 }
        ensures { answer_told result ≡ told_as (known_number self.now item) line item }
    {
        let i = item as usize;
        if self.n <= i {
            return Err(Refusal::UnknownItem { line, item });
        }
        if (self.left[i / 64] >> (i % 64)) % 2 == 1 {
            return Err(Refusal::RetiredItem { line, item });
        }
        Ok(())
    }

    // What the table of refusals says of the item of a read or write: 6, 20, 7, or nothing.
    fn item_refused(&self, k: u32, catalog: &[u8], item: u32, line: u32) -> Result<(), Refusal>
        requires { Lookable self.now catalog.now }
        ensures { TellsRefusal k self.now catalog.now (Read item) line result }
    {
        self.known(item, line)?;
        if k < u32::from(catalog_bytes::get(catalog, item as usize).blocks) {
            return Err(Refusal::ItemTooLarge { line, item });
        }
        Ok(())
    }

    // And of a step: a flush has no item, and an arrival's must be the next, or 19 is told.
    pub fn step_refused(&self, k: u32, catalog: &[u8], step: Step, line: u32) -> Result<(), Refusal>
        requires { Lookable self.now catalog.now }
        ensures { TellsRefusal k self.now catalog.now step line result }
    {
        match step {
            Step::Read { item } | Step::Write { item, .. } => self.item_refused(
                k, catalog, item, line,
            ),
            Step::Flush => Ok(()),
            Step::Arrive { item, .. } if item as usize == self.n => Ok(()),
            Step::Arrive { item, .. } => Err(Refusal::NotNextNumber { line, item }),
            Step::Retire { item } => self.known(item, line),
        }
    }

    // The items after one more step. An item that is not there cannot leave.
    pub fn advance(&mut self, step: Step)
        requires { self.old.n ≤ 256 }
        ensures { Advanced self.old step self.new }
    {
        match step {
            Step::Arrive { .. } => self.n += 1,
            Step::Retire { item } if (item as usize) < self.n => {
                self.left = marks::mark(self.left, item as usize);
            }
            _ => {}
        }
    }

    // The items as the steps before step `to` have left them, where they are known before step `from`.
    pub fn catch_up(&mut self, calls: &[u32], from: usize, to: usize)
        requires { Walkable self.old calls.now from to }
        ensures { CatchesUp self.old calls.now from to self.new }
    {
        for s in from..to {
            self.advance(noted_step(calls, s));
        }
    }
}

// Step `s` of those that are noted.
pub fn noted_step(calls: &[u32], s: usize) -> Step
    requires { (call_width * s + call_width ≤ length calls.now) × (s ≤ most_noted) }
    ensures { result ≡ step_of (numbers_behind calls.now (call_width * s)) }
{
    let i = CALL_NUMBERS * s;
    types::step_of(Numbers {
        kind: calls[i + 1],
        item: calls[i + 2],
        minutes: calls[i + 3],
        blocks: calls[i + 4],
        load: calls[i + 5],
        write: calls[i + 6],
    })
}

// Act `a` of those that are noted.
pub fn noted_act(acts: &[u32], a: usize) -> Act
    requires { (act_width * a + act_width ≤ length acts.now) × (a ≤ most_noted) }
    ensures { result ≡ act_of (get_or acts.now (act_width * a + 1) 0) (get_or acts.now (act_width * a + 2) 0) }
{
    let item = acts[ACT_NUMBERS * a + 2];
    if acts[ACT_NUMBERS * a + 1] == types::EVICT {
        Act::Evict { item }
    } else {
        Act::Fetch { item }
    }
}

// Stores the item of an arrival behind the others.
pub fn put_arrival(catalog: &mut [u8], step: Step)
    requires { (in_range (numbers_of step) ≡ true) × (item_room ≤ length catalog.old) }
    ensures { catalog.new ≡ with_arrival step catalog.old }
{
    if let Step::Arrive {
        item,
        blocks,
        load,
        write,
    } = step
    {
        let listed = Item {
            blocks: blocks as u8,
            load: load as u16,
            write: write as u16,
        };
        catalog_bytes::put(catalog, item as usize, listed);
    }
}

// Notes a step as a call's seven numbers, from place `i` on.
#[tactic(auto, using(crate::proofs::Notes::put_part), unfolding(landlord::specs::CallNumbers::call_numbers))]
pub fn put_step(calls: &mut [u32], i: usize, step: Step)
    requires { (i + call_width ≤ length calls.old) × (i ≤ call_width * most_noted) }
    ensures { calls.new ≡ put_at calls.old i (call_numbers (step ∷ [])) }
{
    let n = step.numbers();
    calls[i..i + CALL_NUMBERS].copy_from_slice(&[
        0, n.kind, n.item, n.minutes, n.blocks, n.load, n.write,
    ]);
}

// Notes an act's three numbers, from place `i` on.
#[tactic(auto, using(crate::proofs::Notes::put_part))]
pub fn put_act(acts: &mut [u32], i: usize, place: u32, act: Act)
    requires { (i + act_width ≤ length acts.old) × (i ≤ act_width * most_noted) }
    ensures { acts.new ≡ put_at acts.old i (act_noted place act) }
{
    acts[i..i + ACT_NUMBERS].copy_from_slice(&[place, act.kind(), act.item()]);
}
