// The calls on a state, in place on its bytes: step and close. Every refusal is decided before the first store, so a refused call leaves
// every byte as it was.
#![tactic(auto)]

ghost use Rattle.std.specs.Prelude.{◌≡◌, IfOk};
ghost use Rattle.types.specs.Types.{step_of, step_item, answer_told, answer_number, telling};
ghost use Rattle.queue.specs.Machine.{took_in};
ghost use Rattle.landlord.specs.Steps.{if_known, item_refusal};
ghost use Rattle.landlord.specs.Calls.{refusal_now, step_call, close};
ghost use Rattle.cache_state.specs.Cache.{catalog_of, lazy, view};
ghost use Rattle.layout.specs.Layout.{cache_of, ValidBytes};
ghost use Rattle.layout.specs.Inner.{BecomesAt};
ghost use Rattle.cache.specs.Contract.{lent, Answers, Called};
ghost use Rattle.cache.specs.Inner.{request_refusal, TablePasses};

use types::{Numbers, Refusal, Step};

// The number of an answer, where numbers are handed back or noted: 0 if the call was taken.
pub fn number_of(answer: Result<(), Refusal>) -> u32
    ensures { result ≡ answer_number answer }
{
    match answer {
        Ok(()) => 0,
        Err(refusal) => refusal.number(),
    }
}

// ---- a step

// An item is in the catalog, and has not left: else 6, then 20.
fn item_known(b: &[u8], item: u32) -> Result<(), Refusal>
    requires { ValidBytes b.now }
    ensures { answer_told result ≡ telling (if_known (catalog_of (cache_of b.now)) item 0) 0 item }
{
    let i = item as usize;
    if layout::count(b) <= i {
        return Err(Refusal::UnknownItem { line: 0, item });
    }
    if layout::is_left(b, i) {
        return Err(Refusal::RetiredItem { line: 0, item });
    }
    Ok(())
}

// It is so, and its blocks fit into the cache: else 6, 20, then 7.
fn item_fits(b: &[u8], item: u32) -> Result<(), Refusal>
    requires { ValidBytes b.now }
    ensures { answer_told result ≡ telling (request_refusal (cache_of b.now).k (catalog_of (cache_of b.now)) item) 0 item }
{
    item_known(b, item)?;
    if layout::capacity(b) < u32::from(layout::blocks(b, item as usize)) {
        return Err(Refusal::ItemTooLarge { line: 0, item });
    }
    Ok(())
}

// What the table of refusals says of a step by its item, on a valid state. A flush has none; an arrival is to have the next number (19);
// a retirement needs no room.
fn item_checked(b: &[u8], step: Step) -> Result<(), Refusal>
    requires { ValidBytes b.now }
    ensures { answer_told result ≡ telling (item_refusal (cache_of b.now).k (catalog_of (cache_of b.now)) step) 0 (step_item step) }
{
    match step {
        Step::Flush => Ok(()),
        Step::Arrive { item, .. } => {
            if item as usize != layout::count(b) {
                return Err(Refusal::NotNextNumber { line: 0, item });
            }
            Ok(())
        }
        Step::Retire { item } => item_known(b, item),
        Step::Read { item } | Step::Write { item, .. } => item_fits(b, item),
    }
}

// The step of a call on a valid state, if the table of refusals lets it through: 9, 8, 3, then what it says of the item.
fn checked(b: &[u8], n: Numbers) -> Result<Step, Refusal>
    requires { ValidBytes b.now }
    ensures tells { answer_told result ≡ telling (refusal_now (view (cache_of b.now)) (step_call n)) 0 n.item }
    ensures step { IfOk result (λ s. s ≡ step_of n) }
{
    if layout::closed(b) {
        return Err(Refusal::Closed { line: 0 });
    }
    if 1000000 <= layout::steps(b) {
        return Err(Refusal::LogFull { line: 0 });
    }
    if !landlord::in_range(n) {
        return Err(Refusal::OutOfRange { line: 0 });
    }
    let step = types::step_of(n);
    item_checked(b, step)?;
    Ok(step)
}

// A step that the table does not refuse. For a read and a write room is made first, by one call: the compiler then needs no frame for it.
fn serve(b: &mut [u8], step: Step)
    requires { TablePasses b.old step }
    ensures { BecomesAt (took_in (lazy (cache_of b.old)) step) b.new }
{
    match step {
        Step::Flush => cache_serve::flush_step(b),
        Step::Arrive {
            blocks,
            load,
            write,
            ..
        } => cache_arrivals::arrive(b, blocks as u8, load as u16, write as u16),
        Step::Retire { item } => cache_arrivals::retire(b, item as usize),
        Step::Read { item } | Step::Write { item, .. } => {
            let i = item as usize;
            cache_room::make_room(b, i);
            if let Step::Write { minutes, .. } = step {
                cache_serve::serve_write(b, i, minutes);
            } else {
                cache_serve::serve_read(b, i);
            }
        }
    }
}

// A step by its numbers, on a valid state: as the table says.
pub fn step_valid(b: &mut [u8], n: Numbers) -> Result<(), Refusal>
    requires { ValidBytes b.old }
    ensures answers { Answers lent b.old (step_call n) (answer_number result) b.new }
    ensures tells { answer_told result ≡ telling (answer_number result) 0 n.item }
{
    let step = checked(b, n)?;
    serve(b, step);
    Ok(())
}

// A step by its numbers, on any bytes: 17 if they are no valid state, else as the table says.
pub fn step(b: &mut [u8], n: Numbers) -> Result<(), Refusal>
    ensures called { Called lent b.old (step_call n) (answer_number result) b.new }
    ensures tells { answer_told result ≡ telling (answer_number result) 0 n.item }
{
    if !cache_check::valid(b) {
        return Err(Refusal::InvalidState { line: 0 });
    }
    step_valid(b, n)
}

// ---- the closing

// On a valid state: 9 if it is closed. It flushes, is no step, and closes.
pub fn close_valid(b: &mut [u8]) -> Result<(), Refusal>
    requires { ValidBytes b.old }
    ensures answers { Answers lent b.old close (answer_number result) b.new }
    ensures tells { answer_told result ≡ telling (answer_number result) 0 0 }
{
    if layout::closed(b) {
        return Err(Refusal::Closed { line: 0 });
    }
    cache_serve::flush(b);
    layout::put_closed(b, true);
    Ok(())
}

// On any bytes: 17 if they are no valid state, else as on a valid one.
pub fn close(b: &mut [u8]) -> Result<(), Refusal>
    ensures called { Called lent b.old close (answer_number result) b.new }
    ensures tells { answer_told result ≡ telling (answer_number result) 0 0 }
{
    if !cache_check::valid(b) {
        return Err(Refusal::InvalidState { line: 0 });
    }
    close_valid(b)
}
