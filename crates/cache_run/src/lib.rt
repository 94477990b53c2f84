// A list of calls on a state, in place on its bytes: on a valid one, and from an opening on.
#![tactic(auto)]

ghost use Rattle.std.specs.Prelude.{◌≡◌, set};
ghost use Rattle.types.specs.Types.{answer_number, answer_told, telling};
ghost use Rattle.landlord.specs.Calls.{opening};
ghost use Rattle.landlord.specs.CallNumbers.{call_at, calls_of};
ghost use Rattle.layout.specs.Layout.{ValidBytes};
ghost use Rattle.cache.specs.Contract.{lent, Answers};
ghost use Rattle.cache_run.specs.Season.{RanLent};
ghost use Rattle.cache_run.specs.Inner.{RanCalls};

use types::{Numbers, Refusal};

// How many numbers a call is: what tells the call, and a step's six.
const CALL_NUMBERS: usize = 7;

// Makes the call of these numbers on a valid state: 0 and then a step's numbers; or 1 or any other number, and it is the closing.
fn call(b: &mut [u8], numbers: &[u32; CALL_NUMBERS]) -> Result<(), Refusal>
    requires { ValidBytes b.old }
    ensures { Answers lent b.old (call_at numbers.now 0) (answer_number result) b.new }
{
    let [which, kind, item, minutes, blocks, load, write] = *numbers;
    if which != 0 {
        return cache::close_valid(b);
    }
    let step = Numbers {
        kind,
        item,
        minutes,
        blocks,
        load,
        write,
    };
    cache::step_valid(b, step)
}

// Notes the answer to call `i`, if there is a place for it.
// Kept by hand: of a slice that `get_mut` was called on a proof knows the length alone.
fn note(answers: &mut [u32], i: usize, number: u32)
    ensures { answers.new ≡ set answers.old i number }
{
    if i < answers.len() {
        answers[i] = number;
    }
}

// Makes the calls that the numbers stand for, seven to a call; a remainder is no call. A call on a valid state leaves a valid one, so
// none of them tests it again. The answers are noted as far as there is place.
pub fn run_calls(b: &mut [u8], calls: &[u32], answers: &mut [u32])
    requires { ValidBytes b.old }
    ensures ran_calls { RanCalls lent b.old (calls_of calls.now) answers.old answers.new b.new }
    ensures valid_bytes { ValidBytes b.new }
{
    let (whole, _) = calls.as_chunks::<CALL_NUMBERS>();
    for (i, numbers) in whole.iter().enumerate() {
        let answer = call(b, numbers);
        note(answers, i, cache::number_of(answer));
    }
}

// A whole list of calls on lent bytes, from an opening on; it answers what the opening does.
pub fn run(
    b: &mut [u8],
    k: u32,
    rule: u32,
    catalog: &[u8],
    calls: &[u32],
    answers: &mut [u32],
) -> Result<(), Refusal>
    ensures ran { RanLent b.old (opening k rule catalog.now) (calls_of calls.now) answers.old answers.new (answer_number result) b.new }
    ensures tells { answer_told result ≡ telling (answer_number result) 0 0 }
{
    cache_open::open(b, k, rule, catalog)?;
    run_calls(b, calls, answers);
    Ok(())
}
