// Counting, in place on the state's bytes: a step, in one of the totals that add up to the steps, and a writeback of an item.
#![tactic(auto)]

ghost use Rattle.layout.specs.Layout.{cache_of};
ghost use Rattle.layout.specs.Inner.{Stands};
ghost use Rattle.cache_counts.specs.Inner.{step_counted, writeback_counted, PayableAt, StepReadyAt};

// The totals that add up to the steps: each step is counted in one of them.
#[derive(Clone, Copy)]
pub enum Total {
    Hits,
    Loads,
    Flushes,
    Arrivals,
    Retirements,
}

// One step more, counted in a total.
pub fn count_step(b: &mut [u8], total: Total)
    requires { StepReadyAt b.old }
    ensures { Stands b.new (step_counted (cache_of b.old) total) }
{
    let steps = layout::steps(b);
    match total {
        Total::Hits => {
            let n = layout::hits(b);
            layout::put_hits(b, n + 1);
        }
        Total::Loads => {
            let n = layout::loads(b);
            layout::put_loads(b, n + 1);
        }
        Total::Flushes => {
            let n = layout::flushes(b);
            layout::put_flushes(b, n + 1);
        }
        Total::Arrivals => {
            let n = layout::arrivals(b);
            layout::put_arrivals(b, n + 1);
        }
        Total::Retirements => {
            let n = layout::retirements(b);
            layout::put_retirements(b, n + 1);
        }
    }
    layout::put_steps(b, steps + 1);
}

// A writeback of item `i`, which is paid for.
pub fn count_writeback(b: &mut [u8], i: usize)
    requires { PayableAt b.old i }
    ensures { Stands b.new (writeback_counted (cache_of b.old) i) }
{
    let own = layout::item_writebacks(b, i);
    let writebacks = layout::writebacks(b);
    let paid = layout::write_cost(b);
    let price = layout::item_write_cost(b, i) as u64;
    layout::put_item_writebacks(b, i, own + 1);
    layout::put_writebacks(b, writebacks + 1);
    layout::put_write_cost(b, paid + price);
}
