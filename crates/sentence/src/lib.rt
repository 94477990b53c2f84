// A refusal in words: one sentence on a line of its own, and read back. The whole length is known before the first byte is written, so a
// page that is too short is left as it was; then each part is written into what remains of the page.
#![tactic(auto)]

ghost use Rattle.std.specs.Prelude.{◌≡◌, ◌≤◌, ◌<◌, length, SomeIff, IfSome};
ghost use Rattle.decimal.specs.Decimal.{text_of, wrote_of, page_of};
ghost use Rattle.types.specs.Types.{names_item};
ghost use Rattle.sentence.specs.Sentences.{words, word_of, in_table, line_part, item_part, sentence_of, SaysThat};
ghost use Rattle.sentence.specs.InnerSentences.{start_of, WordAt, OnPage, piece_of, place_of, part_of, end_of, rest_of, behind_word};

// The words of the refusals, one behind the other in the order of their numbers. 0 and 23 have none. Kept by hand: a table of texts holds
// their addresses, and in an archive for C that is data which may be written.
const LETTERS: [u8; 224] = *b"\
    torn\
    heading\
    off the tape\
    miscounted\
    outsized rival\
    stranger\
    too bulky\
    log full\
    closed\
    out of turn\
    not aboard\
    aboard\
    overstowed\
    missing\
    short page\
    long roll\
    foul locker\
    odd rule\
    misnumbered\
    gone\
    idle\
    unpaired\
    given up\
    many sails\
    long passage\
    no plan";

// Where the word of each number begins among them.
const STARTS: [usize; 28] = [
    0, 0, 4, 11, 23, 33, 47, 55, 64, 72, 78, 89, 99, 105, 115, 122, 132, 141, 152, 160, 171, 175,
    179, 187, 187, 195, 205, 217,
];

// The largest line and the largest item that 32 bits hold: a text that tells more is the sentence of no refusal.
const LIMIT: u64 = u32::MAX as u64;

// What a sentence says: the number of a refusal, the line, 0 if it tells none, and the item, 0 if the number names none.
#[derive(Clone, Copy, Debug, PartialEq, Eq)]
pub struct Sentence {
    pub number: u32,
    pub line: u32,
    pub item: u32,
}

// Where a word begins among the letters, and where it ends.
#[derive(Clone, Copy)]
struct Ends {
    from: usize,
    to: usize,
}

// A number behind its label at the front of a text, and how many bytes both have.
#[derive(Clone, Copy)]
struct Part {
    value: u32,
    bytes: usize,
}

// Whether a refusal of this number names an item.
fn names_item(number: u32) -> bool
    ensures { result ≡ names_item number }
{
    matches!(number, 6 | 7 | 11 | 12 | 14 | 19 | 20)
}

// Where the word of a number begins. That of a number past the table is empty, and stands at the end.
fn start_of(number: usize) -> usize
    ensures { result ≡ start_of number }
{
    if number < 28 { STARTS[number] } else { 224 }
}

// The two ends of the word of a number.
fn word_at(number: u32) -> Ends
    ensures { WordAt number result.from result.to }
{
    let n = number as usize;
    Ends {
        from: start_of(n),
        to: start_of(n + 1),
    }
}

// The word of a number. 0, 23 and the numbers past the table have none.
fn word(number: u32) -> &'static [u8]
    ensures { result.now ≡ word_of number }
{
    let Ends { from, to } = word_at(number);
    &LETTERS[from..to]
}

// Whether a number has a row in the table of refusals.
#[tactic(auto, using(crate::proofs::Laws::row_none, crate::proofs::Laws::row_law))]
pub fn in_table(number: u32) -> bool
    ensures { result ≡ in_table number }
{
    matches!(number, 1..=22 | 24..=27)
}

// How many bytes line and item have: 7 for their label and then their digits, or none where they are not there.
#[tactic(auto, using(crate::proofs::Laws::parts))]
fn line_bytes(line: u32) -> usize
    ensures { result ≡ length (line_part line) }
{
    if 0 < line {
        7 + decimal::width(line.into())
    } else {
        0
    }
}

#[tactic(auto, using(crate::proofs::Laws::parts))]
fn item_bytes(number: u32, item: u32) -> usize
    ensures { result ≡ length (item_part number item) }
{
    if names_item(number) {
        7 + decimal::width(item.into())
    } else {
        0
    }
}

// How many bytes a sentence has.
#[tactic(auto, using(crate::proofs::Laws::sizes))]
pub fn sentence_bytes(number: u32, line: u32, item: u32) -> usize
    ensures { result ≡ length (sentence_of number line item) }
{
    word(number).len() + line_bytes(line) + item_bytes(number, item) + 2
}

// Writes the line, if there is one, at the start of the page, which has room for it.
#[tactic(auto, using(crate::proofs::Laws::parts))]
fn put_line(line: u32, page: &mut [u8]) -> usize
    requires { length (line_part line) ≤ length page.old }
    ensures { OnPage (line_part line) page.old result page.new }
{
    if line == 0 {
        return 0;
    }
    decimal::put_labelled(b", line ", line.into(), page)
}

// Writes the sail, if the number names one, at the start of the page, which has room for it.
#[tactic(auto, using(crate::proofs::Laws::parts))]
fn put_item(number: u32, item: u32, page: &mut [u8]) -> usize
    requires { length (item_part number item) ≤ length page.old }
    ensures { OnPage (item_part number item) page.old result page.new }
{
    if !names_item(number) {
        return 0;
    }
    decimal::put_labelled(b", sail ", item.into(), page)
}

// Writes a sentence at the start of the page, and answers how many bytes that took. A page too short for all of it is left as it was, and
// the answer is 0.
#[tactic(auto, using(crate::proofs::Laws::sentence_count, decimal::proofs::Laws::wrote_none, decimal::proofs::Laws::page_none))]
pub fn write_sentence(number: u32, line: u32, item: u32, page: &mut [u8]) -> usize
    ensures value { result ≡ wrote_of (sentence_of number line item) page.old }
    ensures page_after { page.new ≡ page_of (sentence_of number line item) page.old }
{
    if page.len() < sentence_bytes(number, line, item) {
        return 0;
    }
    let mut at = decimal::put_text(word(number), page);
    at += put_line(line, &mut page[at..]);
    at += put_item(number, item, &mut page[at..]);
    at + decimal::put_text(b".\n", &mut page[at..])
}

// How many bytes stand before the first comma or full stop. No word and no number has one, so this is where either ends.
fn piece(s: &[u8]) -> usize
    ensures value { result ≡ length (piece_of s.now) }
    ensures within { result ≤ length s.now }
{
    s.iter()
        .position(|b| matches!(b, b',' | b'.'))
        .unwrap_or(s.len())
}

// The number whose word a text is. The text with no letter is the word of 0, which has no row.
fn find_word(w: &[u8]) -> Option<u32>
    ensures { SomeIff result (place_of words w.now < 28) (place_of words w.now) }
{
    (0..28).find(|n| decimal::same(word(*n), w))
}

// Reads a number behind its label at the front of a text, up to the comma or the full stop behind it. A label with no number behind it is
// missing too: it stays in the text, and what is read next does not begin with it.
#[tactic(auto, using(crate::proofs::Readings::parting), unfolding(crate::specs::InnerSentences::part_of))]
fn read_part(label: &[u8], s: &[u8]) -> Option<Part>
    ensures value { result ≡ part_of label.now 4294967295 s.now }
    ensures within { IfSome result (λ p. p.bytes ≤ length s.now) }
{
    let behind = s.strip_prefix(label)?;
    let n = piece(behind);
    let value = decimal::read(&behind[..n], LIMIT).ok()?;
    Some(Part {
        value: value as u32,
        bytes: label.len() + n,
    })
}

// Reads the end of a sentence: nothing but a full stop and a line feed.
#[tactic(auto, unfolding(crate::specs::InnerSentences::end_of))]
fn read_end(number: u32, line: u32, item: u32, s: &[u8]) -> Option<Sentence>
    ensures { result ≡ end_of number line item s.now }
{
    if decimal::same(b".\n", s) {
        Some(Sentence { number, line, item })
    } else {
        None
    }
}

// Reads what stands behind the line: the sail exactly if the number names one, and the end.
#[tactic(auto, unfolding(crate::specs::InnerSentences::rest_of))]
fn read_rest(number: u32, line: u32, s: &[u8]) -> Option<Sentence>
    ensures { result ≡ rest_of 4294967295 number line s.now }
{
    if !names_item(number) {
        return read_end(number, line, 0, s);
    }
    let sail = read_part(b", sail ", s)?;
    read_end(number, line, sail.value, &s[sail.bytes..])
}

// Reads what stands behind the word of a number. A text that tells line 0 is the sentence of no refusal: where there is no line, none is told.
#[tactic(auto, unfolding(crate::specs::InnerSentences::behind_word))]
fn read_behind(number: u32, s: &[u8]) -> Option<Sentence>
    ensures { result ≡ behind_word 4294967295 number s.now }
{
    if !in_table(number) {
        return None;
    }
    match read_part(b", line ", s) {
        None => read_rest(number, 0, s),
        Some(Part { value: 0, .. }) => None,
        Some(line) => read_rest(number, line.value, &s[line.bytes..]),
    }
}

// What a text says, if it is a sentence from its first byte to its last; the item is 0 where the number names none.
pub fn read_sentence(s: &[u8]) -> Option<Sentence>
    ensures { SaysThat s.now result }
{
    let n = piece(s);
    let number = find_word(&s[..n])?;
    read_behind(number, &s[n..])
}
