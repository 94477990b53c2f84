// The report of a state on a lent page, and the output of a refused input: its two numbers and its sentence. The whole length is known
// before the first byte is written, so a page that is too short is left as it was; then each line is written into what remains of the page.
#![tactic(auto)]

ghost use Rattle.std.specs.Prelude.{◌≡◌, ◌≤◌, length, replicate};
ghost use Rattle.cache_state.specs.Cache.{view};
ghost use Rattle.decimal.specs.InnerPages.{text_over};
ghost use Rattle.layout.specs.Layout.{cache_of, ValidBytes};
ghost use Rattle.report_lines.specs.Inner.{RivalOk};
ghost use Rattle.report.specs.Report.{report_of, refusal_text, Put, Reported, longest};

use report_lines::{Rival, ValidState};
use types::Refusal;

// The bytes of the longest report there can be, with or without a rival's figures.
const LONGEST: usize = 7931;

// A blank page with room for every report.
pub fn longest_page() -> [u8; LONGEST]
    ensures { result ≡ replicate longest 0 }
{
    [0; LONGEST]
}

// How many bytes the report of a valid state has.
#[tactic(auto, using(crate::proofs::Laws::report_count, crate::proofs::Longest::items_longest))]
fn report_length(state: &ValidState, rival: Option<Rival>) -> usize
    requires { RivalOk (view (cache_of state.now.bytes.now)) rival }
    ensures { result ≡ length (report_of (view (cache_of state.now.bytes.now)) rival) }
{
    30 + state.items_length() + state.totals_length(rival)
}

// Writes the report of a valid state at the start of the page, which has room for it.
fn put_report(page: &mut [u8], state: &ValidState, rival: Option<Rival>)
    requires fair { RivalOk (view (cache_of state.now.bytes.now)) rival }
    requires room { length (report_of (view (cache_of state.now.bytes.now)) rival) ≤ length page.old }
    ensures { page.new ≡ text_over (report_of (view (cache_of state.now.bytes.now)) rival) page.old }
{
    let mut at = decimal::put_text(b"sail tenths loads writebacks\n", page);
    at += state.put_items(&mut page[at..]);
    at += decimal::put_text(b"\n", &mut page[at..]);
    state.put_totals(&mut page[at..], rival);
}

// The report of a state, open or closed: 17 if the bytes are no valid state, 15 if the page is too short, else the text at the start
// of the page. A rival is asked to be in range for the state.
#[tactic(auto, using(crate::proofs::Laws::put_short, crate::proofs::Laws::put_whole, crate::proofs::Laws::fine_told))]
pub fn report(b: &[u8], rival: Option<Rival>, page: &mut [u8]) -> Result<usize, Refusal>
    requires { ValidBytes b.now → RivalOk (view (cache_of b.now)) rival }
    ensures { Reported b.now rival page.old result page.new }
{
    if !cache_check::valid(b) {
        return Err(Refusal::InvalidState { line: 0 });
    }
    let state = ValidState { bytes: b };
    let needed = report_length(&state, rival);
    if page.len() < needed {
        return Err(Refusal::ShortBuffer { line: 0 });
    }
    put_report(page, &state, rival);
    Ok(needed)
}

// How many bytes the output of a refused input has: the names, the two numbers, and the sentence.
fn refusal_length(r: Refusal) -> usize
    ensures value { result ≡ length (refusal_text r) }
    ensures upper_bound { result ≤ longest }
{
    let number = r.number();
    let line = r.line();
    let item = r.item();
    let numbers = [number as u64, line as u64];
    13 + report_lines::line_length(&numbers) + sentence::sentence_bytes(number, line, item)
}

// Writes the output of a refused input at the start of the page, which has room for it.
fn put_refusal(page: &mut [u8], r: Refusal)
    requires { length (refusal_text r) ≤ length page.old }
    ensures { page.new ≡ text_over (refusal_text r) page.old }
{
    let number = r.number();
    let line = r.line();
    let item = r.item();
    let both = [number as u64, line as u64];
    report_lines::put_table(page, b"refusal line\n", &both);
    let at = 13 + report_lines::line_length(&both);
    sentence::write_sentence(number, line, item, &mut page[at..]);
}

// The output of a refused input: the refusal's number and its line, and the sentence of both and of the item that it names; 15 if the
// page is too short.
pub fn refused(r: Refusal, page: &mut [u8]) -> Result<usize, Refusal>
    ensures put { Put (refusal_text r) page.old result page.new }
    ensures r_len_bound { length (refusal_text r) ≤ longest }
{
    let bytes = refusal_length(r);
    if page.len() < bytes {
        return Err(Refusal::ShortBuffer { line: 0 });
    }
    put_refusal(page, r);
    Ok(bytes)
}
