// The plan of a text, run over its steps and priced. Items arrive and leave as it runs; `catalog` has the bytes of all of them, those of
// table 2 and behind them those that arrive.
#![tactic(auto)]

ghost use Rattle.std.specs.Prelude.{◌≡◌, ◌≤◌, IfOk, OnErr};
ghost use Rattle.types.specs.Types.{act_item};
ghost use Rattle.season_plan.specs.Inner.{PlanReady, Known, Loses, Evicts, Fetches, Acts, Owes, Cleans, StepKnown, request, PlanServable, Serves, most, Actable, RunsActs, Priceable, PricedAs};

use season_items::ACT_NUMBERS;
use season_tables::Seen;
use types::{Act, Refusal, Step};

// What the plan has of an item: no copy, a clean one, or one that is dirty.
#[derive(Clone, Copy, PartialEq, Eq)]
pub enum Mark {
    Absent,
    Clean,
    Dirty,
}

// What the plan has: a mark for each item, the blocks that it holds, what it has paid, and how many items there are so far.
#[derive(Clone, Copy)]
pub struct Copies {
    pub marks: [Mark; 256],
    pub used: u32,
    pub paid: u64,
    pub n: usize,
}

impl Copies {
    // The copy of an item goes, if there is one, and its write cost is paid if it is dirty.
    fn lose(&mut self, catalog: &[u8], item: usize)
        requires { Known catalog.now self.old item }
        ensures { Loses catalog.now self.old item self.new }
    {
        let mark = self.marks[item];
        self.marks[item] = Mark::Absent;
        if mark == Mark::Absent {
            return;
        }
        let listed = catalog_bytes::get(catalog, item);
        self.used -= u32::from(listed.blocks);
        if mark == Mark::Dirty {
            self.paid += u64::from(listed.write);
        }
    }

    // D: drops a held item (or 11 is told), and pays its write cost if it is dirty.
    fn evict(&mut self, catalog: &[u8], item: u32, line: u32) -> Result<(), Refusal>
        requires { Known catalog.now self.old item }
        ensures { Evicts catalog.now self.old item line result self.new }
    {
        let i = item as usize;
        if self.marks[i] == Mark::Absent {
            return Err(Refusal::NotHeld { line, item });
        }
        self.lose(catalog, i);
        Ok(())
    }

    // F: fetches an item not held (or 12 is told), clean, and pays its load cost.
    fn fetch(&mut self, catalog: &[u8], item: u32, line: u32) -> Result<(), Refusal>
        requires { Known catalog.now self.old item }
        ensures { Fetches catalog.now self.old item line result self.new }
    {
        let i = item as usize;
        if self.marks[i] != Mark::Absent {
            return Err(Refusal::AlreadyHeld { line, item });
        }
        let listed = catalog_bytes::get(catalog, i);
        self.marks[i] = Mark::Clean;
        self.used += u32::from(listed.blocks);
        self.paid += u64::from(listed.load);
        Ok(())
    }

    // One act.
    fn act(&mut self, catalog: &[u8], act: Act, line: u32) -> Result<(), Refusal>
        requires { Known catalog.now self.old (act_item act) }
        ensures { Acts catalog.now self.old act line result self.new }
    {
        match act {
            Act::Evict { item } => self.evict(catalog, item, line),
            Act::Fetch { item } => self.fetch(catalog, item, line),
        }
    }

    // The acts that stand before step `step`, from act `first` on; each has its line of the text. Answers the first act behind them.
    fn acts_before(
        &mut self,
        seen: &Seen,
        catalog: &[u8],
        acts: &[u32],
        first: usize,
        step: u32,
    ) -> Result<usize, Refusal>
        requires { Actable seen.now catalog.now self.old acts.now first step }
        ensures runs_acts { RunsActs seen.now catalog.now self.old acts.now first step result self.new }
        ensures within { IfOk result (λ next. next ≤ seen.now.acts) }
        ensures low { IfOk result (λ next. self.new.paid ≤ most next step) }
    {
        for a in first..seen.acts {
            if acts[ACT_NUMBERS * a] != step {
                return Ok(a);
            }
            let line = (9 + seen.n + seen.steps + a) as u32;
            self.act(catalog, season_items::noted_act(acts, a), line)?;
        }
        Ok(seen.acts)
    }

    // The write costs that a flush makes the plan pay.
    fn owed(&self, catalog: &[u8]) -> u64
        requires { PlanReady catalog.now self.now }
        ensures { Owes catalog.now self.now result }
    {
        let mut sum = 0;
        for i in 0..self.n {
            if self.marks[i] == Mark::Dirty {
                sum += u64::from(catalog_bytes::get(catalog, i).write);
            }
        }
        sum
    }

    // Every dirty copy becomes clean.
    fn clean(&mut self)
        requires { self.old.n ≤ 256 }
        ensures { Cleans self.old self.new }
    {
        for i in 0..self.n {
            if self.marks[i] == Mark::Dirty {
                self.marks[i] = Mark::Clean;
            }
        }
    }

    // Whether a read or write finds its item, or 14 is told.
    fn request(&self, step: Step, line: u32) -> Result<(), Refusal>
        requires { (self.now.n ≤ 256) × StepKnown self.now step }
        ensures { result ≡ request self.now step line }
    {
        match step {
            Step::Read { item } | Step::Write { item, .. }
                if self.marks[item as usize] == Mark::Absent => {
                Err(Refusal::RequestNotHeld { line, item })
            }
            _ => Ok(()),
        }
    }

    // The step is served: the item of a read or write is held (14), the plan is within its capacity (13); a write makes its item dirty, a
    // flush cleans, an item arrives without a copy, and one that retires is lost.
    fn serve(&mut self, catalog: &[u8], h: u32, step: Step, line: u32) -> Result<(), Refusal>
        requires { PlanServable catalog.now self.old step }
        ensures { Serves catalog.now h self.old step line result self.new }
    {
        self.request(step, line)?;
        if h < self.used {
            return Err(Refusal::OverCapacity { line });
        }
        match step {
            Step::Read { .. } => {}
            Step::Write { item, .. } => self.marks[item as usize] = Mark::Dirty,
            Step::Flush => {
                self.paid += self.owed(catalog);
                self.clean();
            }
            Step::Arrive { .. } => self.n += 1,
            Step::Retire { item } => self.lose(catalog, item as usize),
        }
        Ok(())
    }
}

// Runs the plan of an accepted text, the acts before each step and then the step, and the closing flush; its first fault decides. Answers
// what the plan costs.
pub fn price_plan(seen: &Seen, catalog: &[u8], calls: &[u32], acts: &[u32]) -> Result<u64, Refusal>
    requires { Priceable seen.now catalog.now calls.now acts.now }
    ensures priced_as { PricedAs seen.now catalog.now calls.now acts.now result }
    ensures price_small { IfOk result (λ cost. cost ≤ 1000000000000) }
{
    let mut copies = Copies {
        marks: [Mark::Absent; 256],
        used: 0,
        paid: 0,
        n: seen.n,
    };
    let mut next = 0;
    for s in 0..seen.steps {
        next = copies.acts_before(seen, catalog, acts, next, s as u32)?;
        let line = (7 + seen.n + s) as u32;
        copies.serve(catalog, seen.h, season_items::noted_step(calls, s), line)?;
    }
    Ok(copies.paid + copies.owed(catalog))
}
