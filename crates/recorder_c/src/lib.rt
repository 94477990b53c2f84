// The functions that C calls, by the names of include/recorder.h: each hands its arguments on to the function of the same name in the
// library `recorder` and promises what that one promises.
#![tactic(auto)]

ghost use Rattle.types.specs.Types.{numbers_from};
ghost use Rattle.landlord.specs.Calls.{opening, step_call, close};
ghost use Rattle.cache_open.specs.Opening.{OpenedLent};
ghost use Rattle.cache.specs.Contract.{lent, Called};
ghost use Rattle.recorder.specs.Reports.{ReportedLent, SaidLent, LoggedLent};

#[unsafe(no_mangle)]
pub extern "C" fn recorder_open(state: &mut [u8], k: u32, rule: u32, catalog: &[u8]) -> u32
    ensures { OpenedLent state.old (opening k rule catalog.now) result state.new }
{
    recorder::recorder_open(state, k, rule, catalog)
}

#[unsafe(no_mangle)]
pub extern "C" fn recorder_step(
    state: &mut [u8],
    kind: u32,
    item: u32,
    minutes: u32,
    blocks: u32,
    load: u32,
    write: u32,
) -> u32
    ensures { Called lent state.old (step_call (numbers_from kind item minutes blocks load write)) result state.new }
{
    recorder::recorder_step(state, kind, item, minutes, blocks, load, write)
}

#[unsafe(no_mangle)]
pub extern "C" fn recorder_close(state: &mut [u8]) -> u32
    ensures { Called lent state.old close result state.new }
{
    recorder::recorder_close(state)
}

#[unsafe(no_mangle)]
pub extern "C" fn recorder_report(state: &[u8], page: &mut [u8], written: &mut usize) -> u32
    ensures { ReportedLent state.now page.old written.old result page.new written.new }
{
    recorder::recorder_report(state, page, written)
}

#[unsafe(no_mangle)]
pub extern "C" fn recorder_sentence(
    number: u32,
    line: u32,
    item: u32,
    page: &mut [u8],
    written: &mut usize,
) -> u32
    ensures { SaidLent number line item page.old written.old result page.new written.new }
{
    recorder::recorder_sentence(number, line, item, page, written)
}

#[unsafe(no_mangle)]
pub extern "C" fn recorder_log(
    heading: u32,
    list: &[u8],
    page: &mut [u8],
    written: &mut usize,
) -> u64
    ensures { LoggedLent heading list.now page.old written.old result page.new written.new }
{
    recorder::recorder_log(heading, list, page, written)
}
