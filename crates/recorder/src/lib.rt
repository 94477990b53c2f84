// What the firmware calls, on lent bytes; `recorder_c` exports each to C under its name. Each answers 0 or the refusal's number, the log's
// with its line; refused, every lent byte is as before. Nothing is asked of the caller: any bytes, any lengths and any numbers are answered.
#![tactic(auto)]

ghost use Rattle.types.specs.Types.{numbers_from};
ghost use Rattle.landlord.specs.Calls.{opening, step_call, close};
ghost use Rattle.cache_open.specs.Opening.{OpenedLent};
ghost use Rattle.cache.specs.Contract.{lent, Called};
ghost use Rattle.recorder.specs.Reports.{ReportedLent, SaidLent, LoggedLent};

use types::Numbers;

// Opens the state for a cache of `k` blocks, a rule of deduction, 0 for write-first and 1 for load-first, and the items of the catalog,
// five bytes each.
pub fn recorder_open(state: &mut [u8], k: u32, rule: u32, catalog: &[u8]) -> u32
    ensures { OpenedLent state.old (opening k rule catalog.now) result state.new }
{
    cache::number_of(cache_open::open(state, k, rule, catalog))
}

// Takes one step by its numbers: `kind` is the code of its letter, 82 for R, 87 for W, 76 for L, 65 for A, 81 for Q.
pub fn recorder_step(
    state: &mut [u8],
    kind: u32,
    item: u32,
    minutes: u32,
    blocks: u32,
    load: u32,
    write: u32,
) -> u32
    ensures { Called lent state.old (step_call (numbers_from kind item minutes blocks load write)) result state.new }
{
    let n = Numbers {
        kind,
        item,
        minutes,
        blocks,
        load,
        write,
    };
    cache::number_of(cache::step(state, n))
}

// Closes the log.
pub fn recorder_close(state: &mut [u8]) -> u32
    ensures { Called lent state.old close result state.new }
{
    cache::number_of(cache::close(state))
}

// Writes the report of the state on the page, and how long it is in the length's place.
pub fn recorder_report(state: &[u8], page: &mut [u8], written: &mut usize) -> u32
    ensures { ReportedLent state.now page.old written.old result page.new written.new }
{
    match report::report(state, None, page) {
        Ok(n) => {
            *written = n;
            0
        }
        Err(refusal) => refusal.number(),
    }
}

// Writes the sentence of a refusal on the page, and how long it is in the length's place. A caller has the line and the item: 0 for what
// a refusal has not.
pub fn recorder_sentence(
    number: u32,
    line: u32,
    item: u32,
    page: &mut [u8],
    written: &mut usize,
) -> u32
    ensures { SaidLent number line item page.old written.old result page.new written.new }
{
    if !sentence::in_table(number) {
        return 3;
    }
    // No sentence is empty, so nothing is written only where the page is too short.
    let bytes = sentence::write_sentence(number, line, item, page);
    if bytes == 0 {
        return 15;
    }
    *written = bytes;
    0
}

// Writes the log of a list of steps on the page, under a heading, 0 for three names and 1 for six, 24 bytes a step, and how long it is in
// the length's place. Refused, nothing is written, so the line comes back in the answer: the number in its low half, the line in its high
// half.
pub fn recorder_log(heading: u32, list: &[u8], page: &mut [u8], written: &mut usize) -> u64
    ensures { LoggedLent heading list.now page.old written.old result page.new written.new }
{
    match season_log::write_log(heading, list, page) {
        Ok(length) => {
            *written = length;
            0
        }
        Err(refusal) => u64::from(refusal.number()) + (u64::from(refusal.line()) << 32),
    }
}
