// 256 marks in four words: mark i is digit i % 64 of word i / 64. Plain values go in and come out, and no caller has to show
// anything: an i of 256 or more is no mark, so it is never set and storing it changes nothing.
#![tactic(auto)]

ghost use Rattle.std.specs.Prelude.{◌+◌, ◌≡◌, true, false, set, drop};
ghost use Rattle.marks.specs.Inner.{marks, count_set, first_set};

// The marks with mark `i` as `marked` says.
fn with_mark(words: [u64; 4], i: usize, marked: bool) -> [u64; 4]
    ensures { marks result ≡ set (marks words) i marked }
{
    let mut out = words;
    if i < 256 {
        let digit = 1 << (i % 64);
        if marked {
            out[i / 64] |= digit;
        } else {
            out[i / 64] &= !digit;
        }
    }
    out
}

// The marks with mark `i` set.
pub fn mark(words: [u64; 4], i: usize) -> [u64; 4]
    ensures { marks result ≡ set (marks words) i true }
{
    with_mark(words, i, true)
}

// The marks with mark `i` cleared.
pub fn unmark(words: [u64; 4], i: usize) -> [u64; 4]
    ensures { marks result ≡ set (marks words) i false }
{
    with_mark(words, i, false)
}

// How many marks are set.
pub fn count(words: [u64; 4]) -> u32
    ensures { result ≡ count_set (marks words) }
{
    words.iter().map(|word| word.count_ones()).sum()
}

// The first set mark at or after `from`. Where there is none it is 256, or `from` itself if that lies past the marks.
pub fn next(words: [u64; 4], from: usize) -> usize
    ensures { result ≡ from + first_set (drop from (marks words)) }
{
    let mut at = from;
    while at < 256 {
        // The shift drops the marks below `at`, so the zeros at the low end are the marks to pass over.
        let rest = words[at / 64] >> (at % 64);
        if rest != 0 {
            return at + (u64::trailing_zeros(rest) as usize);
        }
        // None is left in this word: go on at the first mark of the next, from where the shift is 0.
        at = (at / 64 + 1) * 64;
    }
    at
}
