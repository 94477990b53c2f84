// The text of a log, which is the third table alone: read into a lent list of steps, 24 bytes a step as in `season_log`, which writes it
// and has the definitions.
#![tactic(auto)]

ghost use Rattle.std.specs.Prelude.{◌≡◌, false, cond, [], ◌+◌, ◌≤◌, length, take, get_or, ltb, eqb};
ghost use Rattle.std.proofs.lemmas.List.Edits.{sets};
ghost use Rattle.decimal.specs.Decimal.{text_of};
ghost use Rattle.line_fields.specs.Fields.{split, fields_of};
ghost use Rattle.season_lines.specs.Lines.{line_in};
ghost use Rattle.season_log.specs.Log.{numbers_onto, read_lines, read_table, read_log};
ghost use Rattle.log_reader.specs.Answers.{LogRead};
ghost use Rattle.log_reader.specs.Inner.{DigitsAt, NumberFound, EndAt, FoundIn, three_numbers, first_line, FirstIs, Roomy, ReadsOn, ReadInto};

use line_fields::Field;
use season_lines::Line;
use types::{Numbers, Refusal, Step};

// Room for the steps of any text: a line has six bytes or more.
pub const ROOM: usize = 262128;

// A log that was read: its heading, 0 or 1, and how many steps it has.
#[derive(Clone, Copy, Debug, PartialEq, Eq)]
pub struct Steps {
    pub heading: u32,
    pub count: usize,
}

// Digits in a text: their value, and the place behind them.
#[derive(Clone, Copy)]
struct Digits {
    value: u32,
    end: usize,
}

// The step of the first line of a text, and how many bytes that line has.
#[derive(Clone, Copy)]
struct FirstStep {
    step: Step,
    bytes: usize,
}

// How far a table is read: the place in the text behind the lines that are, and how many they are.
#[derive(Clone, Copy)]
struct Place {
    at: usize,
    count: usize,
}

// At most four digits from a place of a text on.
#[tactic(auto, using(crate::proofs::Finding::digits_small))]
fn digits_at(text: &[u8], from: usize) -> Digits
    requires { from ≤ length text.now }
    ensures { DigitsAt text.now from result.value result.end }
{
    let most = text.len().min(from + 4);
    let mut value: u32 = 0;
    for at in from..most {
        let b = text[at];
        if !b.is_ascii_digit() {
            return Digits { value, end: at };
        }
        value = value * 10 + u32::from(b - b'0');
    }
    Digits { value, end: most }
}

// A number of at most four digits from a place of a text on, if there is one. A zero may only stand alone.
fn short_number(text: &[u8], from: usize) -> Option<Digits>
    requires { from ≤ length text.now }
    ensures { NumberFound text.now from result }
{
    let found = digits_at(text, from);
    if found.end == from || (from + 1 < found.end && text[from] == b'0') {
        return None;
    }
    Some(found)
}

// Whether a byte stands at a place of a text.
fn is_byte(text: &[u8], at: usize, b: u8) -> bool
    ensures { result ≡ cond (ltb at (length text.now)) (eqb (get_or text.now at 0) b) false }
{
    text.get(at) == Some(&b)
}

// The place behind the end of a line that has none of the three last values, if such an end stands at a place of a text.
fn end_at(heading: u32, text: &[u8], at: usize) -> Option<usize>
    requires { at ≤ length text.now }
    ensures { EndAt heading text.now at result }
{
    match (heading, &text[at..]) {
        (1, [b' ', b'-', b' ', b'-', b' ', b'-', b'\n', ..]) => Some(at + 7),
        (1, _) => None,
        (_, [b'\n', ..]) => Some(at + 1),
        _ => None,
    }
}

// The read that a text begins with, if it is written as the writer writes one.
fn read_in(heading: u32, text: &[u8]) -> Option<FirstStep>
    requires { take 2 text.now ≡ text_of "R " }
    ensures { FoundIn heading text.now result }
{
    let item = short_number(text, 2)?;
    let end = item.end;
    if 255 < item.value || !is_byte(text, end, b' ') || !is_byte(text, end + 1, b'-') {
        return None;
    }
    let bytes = end_at(heading, text, end + 2)?;
    Some(FirstStep {
        step: Step::Read { item: item.value },
        bytes,
    })
}

// And the write.
fn write_in(heading: u32, text: &[u8]) -> Option<FirstStep>
    requires { take 2 text.now ≡ text_of "W " }
    ensures { FoundIn heading text.now result }
{
    let item = short_number(text, 2)?;
    let space = item.end;
    if 255 < item.value || !is_byte(text, space, b' ') {
        return None;
    }
    let minutes = short_number(text, space + 1)?;
    if 1440 < minutes.value {
        return None;
    }
    let bytes = end_at(heading, text, minutes.end)?;
    Some(FirstStep {
        step: Step::Write {
            item: item.value,
            minutes: minutes.value,
        },
        bytes,
    })
}

// The step that a text begins with, if its line is as the writer writes it. A line that is taken is never written otherwise, so that this
// finds each read, write and flush; an arrival, a retirement and what it does not find are judged.
fn step_in(heading: u32, text: &[u8]) -> Option<FirstStep>
    ensures { FoundIn heading text.now result }
{
    // No line has fewer bytes. Asked first, it spares each digit of an item the question whether its place is within the text.
    if text.len() < 6 {
        return None;
    }
    match text {
        [b'R', b' ', ..] => read_in(heading, text),
        [b'W', b' ', ..] => write_in(heading, text),
        [b'L', b' ', b'-', b' ', b'-', ..] => {
            let bytes = end_at(heading, text, 5)?;
            Some(FirstStep {
                step: Step::Flush,
                bytes,
            })
        }
        _ => None,
    }
}

// A line of the table without its line feed, judged as in an input of four tables.
fn judge(heading: u32, l: &[u8], line: u32) -> Result<Line, Refusal>
    ensures { result ≡ line_in 2 heading (fields_of l.now) line }
{
    let mut fields = [Field::Empty; 6];
    let mut count: usize = 0;
    // Kept by hand: where a field begins is known once the one before it is found.
    let mut at = 0;
    let mut more = true;
    while more {
        let end = at + line_fields::find(&l[at..], b' ');
        let field = line_fields::field_of(&l[at..end]);
        // No line has an empty field, and none more than six.
        if field.is_empty() || 6 <= count {
            return Err(Refusal::Malformed { line });
        }
        fields[count] = field;
        count += 1;
        more = end < l.len();
        at = end + 1;
    }
    season_lines::line_in(2, heading, &fields[..count], line)
}

// The first line of a text, judged. A line of another table would be no step; under these headings there is none.
#[tactic(auto, using(crate::proofs::Reading::first_unfed, crate::proofs::Reading::first_fed))]
fn judged_line(heading: u32, text: &[u8], line: u32) -> Result<FirstStep, Refusal>
    ensures { FirstIs (first_line heading line text.now) text.now result }
{
    let end = line_fields::find(text, b'\n');
    if text.len() <= end {
        return Err(Refusal::Malformed { line });
    }
    match judge(heading, &text[..end], line)? {
        Line::Step(step) => Ok(FirstStep {
            step,
            bytes: end + 1,
        }),
        _ => Err(Refusal::Malformed { line: 0 }),
    }
}

// Stores three numbers at a place of a list.
#[tactic(auto, using(crate::proofs::Reading::three_put))]
fn put_three(a: u32, b: u32, c: u32, list: &mut [u8], at: usize)
    requires { at + 12 ≤ length list.old }
    ensures { list.new ≡ sets list.old at (three_numbers a b c) }
{
    fields::put(list, at, 4, a as u64);
    fields::put(list, at + 4, 4, b as u64);
    fields::put(list, at + 8, 4, c as u64);
}

// Stores a step's numbers at a place of a list. Kept by hand: an array of the six for a loop would name each of them too.
#[tactic(auto, using(crate::proofs::Reading::numbers_put))]
fn put_numbers(n: Numbers, list: &mut [u8], at: usize)
    requires { at + 24 ≤ length list.old }
    ensures { list.new ≡ sets list.old at (numbers_onto n []) }
{
    put_three(n.kind, n.item, n.minutes, list, at);
    put_three(n.blocks, n.load, n.write, list, at + 12);
}

// Reads on, as long as the lines are found as the writer writes them.
#[tactic(auto, using(crate::proofs::Reading::going_starts, crate::proofs::Reading::found_long, crate::proofs::Reading::going_on))]
fn read_found(heading: u32, text: &[u8], from: Place, list: &mut [u8]) -> Place
    requires { Roomy text.now from.at from.count list.old }
    ensures reads_on { ReadsOn heading text.now from.at from.count list.old result.at result.count list.new }
    ensures at_le_at { from.at ≤ result.at }
{
    let mut place = from;
    // Kept by hand: where a line begins is known once the one before it is read.
    while place.at < text.len() {
        let Some(found) = step_in(heading, &text[place.at..]) else {
            break;
        };
        put_numbers(found.step.numbers(), list, 24 * place.count);
        place.at += found.bytes;
        place.count += 1;
    }
    place
}

// Reads the lines below the names, and stores their steps in a list that has room for those of any text. A line is taken as it is written,
// or else as it is judged.
#[tactic(auto, using(crate::proofs::Reading::reading_begins, crate::proofs::Reading::read_stops, crate::proofs::Reading::read_long, crate::proofs::Reading::read_goes, crate::proofs::Reading::read_ends))]
fn read_lines(heading: u32, text: &[u8], list: &mut [u8]) -> Result<Steps, Refusal>
    requires { (length text.now ≤ 65536) × (262128 ≤ length list.old) }
    ensures { ReadInto (read_lines heading 2 (split 10 text.now)) list.old result list.new }
{
    let start = Place { at: 0, count: 0 };
    let mut place = read_found(heading, text, start, list);
    while place.at < text.len() {
        let at = place.at;
        let count = place.count;
        let first = judged_line(heading, &text[at..], (count + 2) as u32)?;
        put_numbers(first.step.numbers(), list, 24 * count);
        let behind = Place {
            at: at + first.bytes,
            count: count + 1,
        };
        place = read_found(heading, text, behind, list);
    }
    Ok(Steps {
        heading,
        count: place.count,
    })
}

// Reads the names, and then the lines below them.
#[tactic(auto, using(crate::proofs::Reading::table_empty, crate::proofs::Reading::table_unfed, crate::proofs::Reading::table_read, crate::proofs::Reading::table_unknown))]
fn read_table(text: &[u8], list: &mut [u8]) -> Result<Steps, Refusal>
    requires { (length text.now ≤ 65536) × (262128 ≤ length list.old) }
    ensures { ReadInto (read_table (split 10 text.now)) list.old result list.new }
{
    if text.is_empty() {
        return Err(Refusal::Heading { line: 1 });
    }
    let end = line_fields::find(text, b'\n');
    if text.len() <= end {
        return Err(Refusal::Malformed { line: 1 });
    }
    let from = end + 1;
    match season_lines::heading_of(2, &text[..end]) {
        Some(heading) => read_lines(heading, &text[from..], list),
        None => Err(Refusal::Heading { line: 1 }),
    }
}

// Reads the third table alone, and stores its steps at the start of the list. They are read into room of our own first, so that a list
// that is refused, for the text or because it is too short (15, last), is as it was.
pub fn read_log(text: &[u8], list: &mut [u8]) -> Result<Steps, Refusal>
    ensures { LogRead (read_log text.now) list.old result list.new }
{
    if season_log::LIMIT < text.len() {
        return Err(Refusal::InputTooLong { line: 0 });
    }
    let mut room = [0u8; ROOM];
    let steps = read_table(text, &mut room)?;
    let bytes = 24 * steps.count;
    if list.len() < bytes {
        return Err(Refusal::ShortBuffer { line: 0 });
    }
    decimal::put_text(&room[..bytes], list);
    Ok(steps)
}
