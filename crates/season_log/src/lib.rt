// The text of a log, which is the third table alone: written from a list of steps on a lent page, under the heading that its caller tells:
// 0 is `step sail minutes`, 1 is `step sail minutes blocks load write`. A list of steps is lent as bytes, 24 a step under both headings: its
// kind, item, minutes, blocks, load and write, four bytes each, the low byte first.
#![tactic(auto)]

ghost use Rattle.std.specs.Prelude.{◌≡◌, true, eqb, ◌+◌, ◌/◌, ◌≤◌, ◌<◌, length};
ghost use Rattle.decimal.specs.InnerPages.{labelled, text_over};
ghost use Rattle.types.specs.declared.Step.TheVariants.{Write, Flush};
ghost use Rattle.types.specs.Types.{step_of};
ghost use Rattle.landlord.specs.Steps.{in_range};
ghost use Rattle.season_lines.specs.Lines.{range_under};
ghost use Rattle.season_log.specs.Log.{no_values, step_text, list_number, list_numbers, told_line, lent_under, lent_log, LogWritten};
ghost use Rattle.season_log.specs.Inner.{names_text, named_text, arrival_text, step_at, Arrives, text_size, LineFits, LinesFit, LinesOn};

use types::{Numbers, Refusal};

// The most bytes that a text may have.
pub const LIMIT: usize = 65536;

// Four bytes of a list, as a number. They are read by two functions of their own, so that the compiler makes one load of them before it
// sees what is asked of the number (docs/DECISIONS.md).
fn four_bytes(list: &[u8], at: usize) -> u64
    requires { at + 4 ≤ length list.now }
    ensures { (result ≡ list_number at list.now) × (result < 4294967296) }
{
    fields::get(list, at, 4)
}

fn word_at(list: &[u8], at: usize) -> u64
    requires { at + 4 ≤ length list.now }
    ensures { (result ≡ list_number at list.now) × (result < 4294967296) }
{
    four_bytes(list, at)
}

// The number at a place of a list.
fn number_at(list: &[u8], at: usize) -> u32
    requires { at + 4 ≤ length list.now }
    ensures { result ≡ list_number at list.now }
{
    word_at(list, at) as u32
}

// The numbers of the step at a place of a list.
fn list_numbers(list: &[u8], at: usize) -> Numbers
    requires { at + 24 ≤ length list.now }
    ensures { result ≡ list_numbers at list.now }
{
    Numbers {
        kind: number_at(list, at),
        item: number_at(list, at + 4),
        minutes: number_at(list, at + 8),
        blocks: number_at(list, at + 12),
        load: number_at(list, at + 16),
        write: number_at(list, at + 20),
    }
}

// Whether a step's numbers are in range, as the heading takes them: the three names have no arrival and no retirement. The kind is asked
// first, so that the compiler makes a way of its own for each.
#[tactic(auto, using(crate::proofs::Sizes::range_kept, crate::proofs::Sizes::range_named), unfolding(landlord::specs::Steps::range_refusal))]
fn in_range_under(heading: u32, n: Numbers) -> bool
    ensures { result ≡ eqb (range_under heading n) 0 }
{
    match n.kind {
        types::FLUSH => true,
        types::READ | types::WRITE => landlord::in_range(n),
        _ => heading == 1 && landlord::in_range(n),
    }
}

// The line of the step at a place of a list, as far as 32 bits hold it.
fn line_of(at: usize) -> u32
    ensures { result ≡ told_line (at / 24 + 2) }
{
    let line = at / 24 + 2;
    line.min(u32::MAX as usize) as u32
}

// How many bytes the end of a line has that has none of the three last values.
fn end_bytes(heading: u32) -> usize
    ensures value { result ≡ length (no_values heading) }
    ensures upper_bound { result ≤ 7 }
{
    if heading == 1 { 7 } else { 1 }
}

// How many bytes the line of an arrival in range has.
#[tactic(auto, using(crate::proofs::Sizes::item_digits, crate::proofs::Sizes::blocks_digits, crate::proofs::Sizes::cost_digits, crate::proofs::Sizes::joined_length))]
fn arrival_bytes(n: Numbers) -> usize
    requires { Arrives n }
    ensures value { result ≡ length (arrival_text n) }
    ensures upper_bound { result ≤ 23 }
{
    let item = decimal::short_width(n.item);
    let blocks = decimal::short_width(n.blocks);
    let load = decimal::width(u64::from(n.load));
    let write = decimal::width(u64::from(n.write));
    8 + item + blocks + load + write
}

// How many bytes the line of a step in range has.
#[tactic(auto, using(crate::proofs::Sizes::item_digits, crate::proofs::Sizes::minutes_digits, crate::proofs::Sizes::item_range, crate::proofs::Sizes::minutes_range, crate::proofs::Sizes::joined_length), unfolding(crate::specs::Log::step_text, types::specs::Types::step_of))]
fn line_bytes(heading: u32, n: Numbers) -> usize
    requires { in_range n ≡ true }
    ensures value { result ≡ length (step_text heading (step_of n)) }
    ensures upper_bound { result ≤ 23 }
{
    match n.kind {
        types::ARRIVE => arrival_bytes(n),
        types::FLUSH => 5 + end_bytes(heading),
        types::WRITE => {
            let digits = decimal::short_width(n.item) + decimal::short_width(n.minutes);
            3 + digits + end_bytes(heading)
        }
        _ => 4 + decimal::short_width(n.item) + end_bytes(heading),
    }
}

// How many bytes the names have, with their line feed.
#[tactic(auto, using(crate::proofs::Sizes::names_are))]
fn names_bytes(heading: u32) -> usize
    ensures value { result ≡ length (names_text heading) }
    ensures upper_bound { result ≤ 36 }
{
    if heading == 1 { 36 } else { 18 }
}

// How many bytes the text of a list has, or the refusal of its first step that is out of range or not whole. A line has fewer bytes than
// its step in the list, so that no sum can wrap, however long the list is.
fn text_size(heading: u32, list: &[u8]) -> Result<usize, Refusal>
    ensures { result ≡ text_size (lent_under heading list.now) }
{
    let whole = list.len() - list.len() % 24;
    let mut bytes = names_bytes(heading);
    // Kept by hand: a `for` over the steps counts its turns beside the place, an instruction more for each step.
    let mut at = 0;
    while at < whole {
        let step = list_numbers(list, at);
        if !in_range_under(heading, step) {
            return Err(Refusal::OutOfRange { line: line_of(at) });
        }
        bytes += line_bytes(heading, step);
        at += 24;
    }
    if whole < list.len() {
        return Err(Refusal::OutOfRange {
            line: line_of(whole),
        });
    }
    Ok(bytes)
}

// Writes the names at the start of the page, which has room for them.
#[tactic(auto, using(crate::proofs::Sizes::names_are))]
fn put_names(heading: u32, page: &mut [u8]) -> usize
    requires { length (names_text heading) ≤ length page.old }
    ensures value { result ≡ length (names_text heading) }
    ensures page_after { page.new ≡ text_over (names_text heading) page.old }
{
    if heading == 1 {
        decimal::put_text(b"step sail minutes blocks load write\n", page)
    } else {
        decimal::put_text(b"step sail minutes\n", page)
    }
}

// Writes the end of a line that has none of the three last values at the start of the page, which has room for it.
fn put_end(heading: u32, page: &mut [u8]) -> usize
    requires { length (no_values heading) ≤ length page.old }
    ensures value { result ≡ length (no_values heading) }
    ensures page_after { page.new ≡ text_over (no_values heading) page.old }
{
    if heading == 1 {
        decimal::put_text(b" - - -\n", page)
    } else {
        decimal::put_text(b"\n", page)
    }
}

// Writes the line of a flush at the start of the page, which has room for it.
#[tactic(auto, unfolding(crate::specs::Log::step_text))]
fn put_flush(heading: u32, page: &mut [u8]) -> usize
    requires { length (step_text heading Flush) ≤ length page.old }
    ensures value { result ≡ length (step_text heading Flush) }
    ensures page_after { page.new ≡ text_over (step_text heading Flush) page.old }
{
    if heading == 1 {
        decimal::put_text(b"L - - - - -\n", page)
    } else {
        decimal::put_text(b"L - -\n", page)
    }
}

// Writes the line of a read or of a retirement at the start of the page, which has room for it.
fn put_named(heading: u32, letter: u8, item: u32, page: &mut [u8]) -> usize
    requires { (item ≤ 255) × (length (named_text heading letter item) ≤ length page.old) }
    ensures value { result ≡ length (named_text heading letter item) }
    ensures page_after { page.new ≡ text_over (named_text heading letter item) page.old }
{
    page[0] = letter;
    page[1] = b' ';
    let mut at = 2 + decimal::put_short(item, &mut page[2..]);
    at += decimal::put_text(b" -", &mut page[at..]);
    at + put_end(heading, &mut page[at..])
}

// Writes the line of a write at the start of the page, which has room for it.
#[tactic(auto, using(crate::proofs::Sizes::joined_length), unfolding(crate::specs::Log::step_text))]
fn put_write(heading: u32, item: u32, minutes: u32, page: &mut [u8]) -> usize
    requires { (item ≤ 255) × (minutes ≤ 1440) × (length (step_text heading (Write item minutes)) ≤ length page.old) }
    ensures value { result ≡ length (step_text heading (Write item minutes)) }
    ensures page_after { page.new ≡ text_over (step_text heading (Write item minutes)) page.old }
{
    let mut at = decimal::put_text(b"W ", page);
    at += decimal::put_short(item, &mut page[at..]);
    at += decimal::put_text(b" ", &mut page[at..]);
    at += decimal::put_short(minutes, &mut page[at..]);
    at + put_end(heading, &mut page[at..])
}

// Writes a value of a step behind its label at the start of the page, which has room for both.
fn put_value(label: &[u8], v: u32, page: &mut [u8]) -> usize
    requires { length (labelled label.now v) ≤ length page.old }
    ensures value { result ≡ length (labelled label.now v) }
    ensures page_after { page.new ≡ text_over (labelled label.now v) page.old }
{
    decimal::put_labelled(label, u64::from(v), page)
}

// Writes the line of an arrival at the start of the page, which has room for it.
fn put_arrival(n: Numbers, page: &mut [u8]) -> usize
    requires { length (arrival_text n) ≤ length page.old }
    ensures value { result ≡ length (arrival_text n) }
    ensures page_after { page.new ≡ text_over (arrival_text n) page.old }
{
    let mut at = put_value(b"A ", n.item, page);
    at += put_value(b" - ", n.blocks, &mut page[at..]);
    at += put_value(b" ", n.load, &mut page[at..]);
    at += put_value(b" ", n.write, &mut page[at..]);
    at + decimal::put_text(b"\n", &mut page[at..])
}

// Writes the line of the step at a place of a list, which is in range, at the start of the page, which has room for it.
#[tactic(auto, using(crate::proofs::Sizes::line_at, crate::proofs::Sizes::kind_at, crate::proofs::Sizes::item_at, crate::proofs::Sizes::minutes_at))]
fn put_step(heading: u32, list: &[u8], at: usize, page: &mut [u8]) -> usize
    requires { LineFits heading list.now at page.old }
    ensures value { result ≡ length (step_text heading (step_at heading at list.now)) }
    ensures page_after { page.new ≡ text_over (step_text heading (step_at heading at list.now)) page.old }
{
    let kind = number_at(list, at);
    match kind {
        types::FLUSH => put_flush(heading, page),
        types::WRITE => put_write(
            heading,
            number_at(list, at + 4),
            number_at(list, at + 8),
            page,
        ),
        types::ARRIVE => put_arrival(list_numbers(list, at), page),
        _ => put_named(heading, kind as u8, number_at(list, at + 4), page),
    }
}

// Writes the lines of a list of steps in range at the start of the page, which has room for them.
fn put_lines(heading: u32, list: &[u8], page: &mut [u8])
    requires { LinesFit heading list.now page.old }
    ensures { LinesOn (lent_under heading list.now) page.old page.new }
{
    // Kept by hand: a `for` over the steps, by `as_chunks` or by their count, takes two instructions more for each.
    let mut at = 0;
    let mut to = 0;
    while at < list.len() {
        to += put_step(heading, list, at, &mut page[to..]);
        at += 24;
    }
}

// Writes the third table of a list of steps on the page, under a heading: 3 for a number that is no heading's, on line 1, or for the first
// step out of range or not whole, then 15 if the text has too many bytes, for the page or for any reader; else the text. A refused page is
// as it was.
pub fn write_log(heading: u32, list: &[u8], page: &mut [u8]) -> Result<usize, Refusal>
    ensures { LogWritten (lent_log heading list.now) page.old result page.new }
{
    if 1 < heading {
        return Err(Refusal::OutOfRange { line: 1 });
    }
    let bytes = text_size(heading, list)?;
    if LIMIT < bytes || page.len() < bytes {
        return Err(Refusal::ShortBuffer { line: 0 });
    }
    let at = put_names(heading, page);
    put_lines(heading, list, &mut page[at..]);
    Ok(bytes)
}
