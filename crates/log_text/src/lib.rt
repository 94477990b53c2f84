// A log alone to what is printed for it: it is read, and what the writer makes of its steps is put on the page.
#![tactic(auto)]

ghost use Rattle.std.specs.Prelude.{◌≤◌, length};
ghost use Rattle.printed.specs.Printed.{Yields, Printed};
ghost use Rattle.log_text.specs.Answer.{log_outcome};

use types::Refusal;

// The answer to a log: refused, with every byte of the page as before; or read, with the log at the start of the page.
pub fn answer(text: &[u8], page: &mut [u8]) -> Result<usize, Refusal>
    ensures { Yields (log_outcome text.now) page.old result page.new }
{
    // Room for the steps of any log.
    let mut list = [0u8; log_reader::ROOM];
    let log = log_reader::read_log(text, &mut list)?;
    let bytes = 24 * log.count;
    season_log::write_log(log.heading, &list[..bytes], page)
}

// What is printed for a log, at the start of the page: what the writer makes of its steps, or its refusal. Answers how many bytes.
pub fn output(text: &[u8], page: &mut [u8]) -> usize
    ensures printed { Printed 65536 (log_outcome text.now) page.old result page.new }
    ensures upper_bound { result ≤ length page.new }
{
    let answered = answer(text, page);
    printed::print(answered, page)
}
