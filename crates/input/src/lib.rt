// A reader read to its end into a lent buffer, and a failure told on standard error, for the programs of the office.
#![tactic(auto)]

ghost use Rattle.std.specs.Prelude.{ℕ, ◌≤◌, ◌<◌, IfOk, OnErr, length, take};
ghost use Rattle.std.specs.Io.KnownBytes.{Consumes, IsAtEnd};

use arrayvec::ArrayString;
use std::fmt::Write;
use std::io;
use std::io::Read;

// Reads until the input ends or the buffer is full, and answers how many bytes now stand at the buffer's start. Where a read fails, its
// error is answered, and what was read before it stands there.
pub fn read_all<R: Read>(from: &mut R, text: &mut [u8]) -> io::Result<usize>
    ensures within { IfOk result (λ n. n ≤ length text.new) }
    ensures bytes { IfOk result (λ n. Consumes (R.remaining from.old) (R.remaining from.new) (take n text.new)) }
    ensures whole { IfOk result (λ n. n < length text.new → IsAtEnd (R.remaining from.new)) }
    ensures failed { OnErr result ((n : ℕ) × (n ≤ length text.new) × Consumes (R.remaining from.old) (R.remaining from.new) (take n text.new)) }
{
    // Kept by hand: std's read_exact and read_to_end say little of what stands in the buffer where a read fails.
    let mut n = 0;
    while n < text.len() {
        let more = from.read(&mut text[n..])?;
        if more == 0 {
            break;
        }
        n += more;
    }
    Ok(n)
}

// The system's words for an error: what stands before the number that `Display` puts behind them.
fn words(told: &str) -> &str {
    told.split_once(" (os error ")
        .map_or(told, |(before, _)| before)
}

// Writes a line to standard error: what failed, as the caller names it, a colon and the system's words for the error.
pub fn fail(rt: &impl Eprint, what: &str, error: io::Error) {
    let mut told = ArrayString::<160>::new();
    let _ = write!(told, "{error}");
    let why = words(told.as_str());
    let _ = eprintln!(rt; "{what}: {why}");
}
