// A line of the text input: which heading of its table it is, and what a value line says under a heading, by its fields. Nothing here
// knows a catalogue or a place among the tables.
#![tactic(auto)]

ghost use Rattle.std.specs.Prelude.{◌≡◌, true, cond, [], ◌∷◌, ◌≤◌, Some, None};
ghost use Rattle.types.specs.Types.{numbers_from, act_of};
ghost use Rattle.landlord.specs.Catalog.{capacity_in_range};
ghost use Rattle.line_fields.specs.Fields.{value_in, none_empty};
ghost use Rattle.season_lines.specs.Lines.{rule_field, value_field, names_in, heading_among, heading_of, kind_under, numbers_under, is_step_kind, is_due, step_shape, is_act_kind, sizes_line, item_line, step_line, act_line, line_in};

use line_fields::Field;
use types::{Act, Deduction, Numbers, Refusal, Step};

// What a value line says: a line of one of the four tables.
#[derive(Clone, Copy, Debug, PartialEq, Eq)]
pub enum Line {
    Sizes {
        k: u32,
        h: u32,
        rule: Deduction,
    },
    Item {
        number: u32,
        blocks: u8,
        load: u16,
        write: u16,
    },
    Step(Step),
    Act {
        place: u32,
        act: Act,
    },
}

fn is_size(x: u32) -> bool
    ensures { result ≡ capacity_in_range x }
{
    (1..=4096).contains(&x)
}

// A line of `locker rival rule`.
#[tactic(auto, unfolding(crate::specs::Lines::sizes_line, types::specs::Types::refusal_from))]
fn sizes_line(k: Field, h: Field, rule: Field, line: u32) -> Result<Line, Refusal>
    ensures { result ≡ sizes_line k h rule line }
{
    let (Field::Number(k), Field::Number(h)) = (k, h) else {
        return Err(Refusal::Malformed { line });
    };
    if !is_size(k) || !is_size(h) {
        return Err(Refusal::OutOfRange { line });
    }
    let Field::Rule(rule) = rule else {
        return Err(Refusal::UnknownRule { line });
    };
    Ok(Line::Sizes { k, h, rule })
}

// A line of `sail blocks load write`.
#[tactic(auto, unfolding(crate::specs::Lines::item_line, types::specs::Types::refusal_from))]
fn item_line(
    number: Field,
    blocks: Field,
    load: Field,
    write: Field,
    line: u32,
) -> Result<Line, Refusal>
    ensures { result ≡ item_line number blocks load write line }
{
    let (Field::Number(number), Field::Number(blocks), Field::Number(load), Field::Number(write)) =
        (number, blocks, load, write) else {
        return Err(Refusal::Malformed { line });
    };
    if 255 < number || !landlord::item_in_range(blocks, load, write) {
        return Err(Refusal::OutOfRange { line });
    }
    Ok(Line::Item {
        number,
        blocks: blocks as u8,
        load: load as u16,
        write: write as u16,
    })
}

// A step's kind as a heading takes it: under the old heading A and Q are no kinds.
fn kind_under(heading: u32, kind: u32) -> u32
    ensures { result ≡ kind_under heading kind }
{
    match kind {
        types::ARRIVE | types::RETIRE if heading != 1 => 0,
        _ => kind,
    }
}

// A step's numbers as a heading takes them.
pub fn numbers_under(heading: u32, n: Numbers) -> Numbers
    ensures { result ≡ numbers_under heading n }
{
    Numbers {
        kind: kind_under(heading, n.kind),
        ..n
    }
}

fn is_step(kind: u32) -> bool
    ensures { result ≡ is_step_kind kind }
{
    matches!(
        kind,
        types::READ | types::WRITE | types::FLUSH | types::ARRIVE | types::RETIRE
    )
}

// Whether a field is as it is due: behind a known kind a number where the step has one and else `-`, behind another a number or `-`.
fn is_due(known: bool, has: bool, f: Field) -> bool
    ensures { result ≡ is_due known has f }
{
    match (known, has) {
        (false, _) => f.is_either(),
        (true, true) => f.is_number(),
        (true, false) => f.is_dash(),
    }
}

// The fields of a step's line. The old heading has none of the last three, and without them `-` is meant.
#[derive(Clone, Copy)]
struct StepFields {
    kind: Field,
    item: Field,
    minutes: Field,
    blocks: Field,
    load: Field,
    write: Field,
}

impl StepFields {
    // The numbers in the fields, as a heading takes them.
    fn numbers(self, heading: u32) -> Numbers
        ensures { result ≡ numbers_under heading (numbers_from (value_in self.kind) (value_in self.item) (value_in self.minutes) (value_in self.blocks) (value_in self.load) (value_in self.write)) }
    {
        let values = Numbers {
            kind: self.kind.value(),
            item: self.item.value(),
            minutes: self.minutes.value(),
            blocks: self.blocks.value(),
            load: self.load.value(),
            write: self.write.value(),
        };
        numbers_under(heading, values)
    }

    // Whether the fields behind a step's kind are numbers and `-` where they are due.
    #[tactic(auto, unfolding(crate::specs::Lines::step_shape))]
    fn are_shaped(self, kind: u32) -> bool
        ensures { result ≡ step_shape kind self.item self.minutes self.blocks self.load self.write }
    {
        let known = is_step(kind);
        is_due(known, kind != types::FLUSH, self.item)
            && is_due(known, kind == types::WRITE, self.minutes)
            && is_due(known, kind == types::ARRIVE, self.blocks)
            && is_due(known, kind == types::ARRIVE, self.load)
            && is_due(known, kind == types::ARRIVE, self.write)
    }
}

// A line of `step sail minutes blocks load write`, or of the old heading, which has nothing behind the minutes.
#[tactic(auto, unfolding(crate::specs::Lines::step_line, landlord::specs::Steps::range_refusal, types::specs::Types::refusal_from))]
fn step_line(heading: u32, fields: StepFields, line: u32) -> Result<Line, Refusal>
    ensures { result ≡ step_line heading fields.kind fields.item fields.minutes fields.blocks fields.load fields.write line }
{
    let n = fields.numbers(heading);
    if !fields.kind.is_letter() || !fields.are_shaped(n.kind) {
        return Err(Refusal::Malformed { line });
    }
    if !landlord::in_range(n) {
        return Err(Refusal::OutOfRange { line });
    }
    Ok(Line::Step(types::step_of(n)))
}

// The act of a letter, if it is one's.
fn act_of(kind: u32, item: u32) -> Option<Act>
    ensures { result ≡ cond (is_act_kind kind) (Some (act_of kind item)) None }
{
    match kind {
        types::EVICT => Some(Act::Evict { item }),
        types::FETCH => Some(Act::Fetch { item }),
        _ => None,
    }
}

// A line of `at act sail`. The field behind an act's kind is a number; behind an unknown kind it may be `-`.
#[tactic(auto, unfolding(crate::specs::Lines::act_line, types::specs::Types::refusal_from))]
fn act_line(place: Field, kind: Field, item: Field, line: u32) -> Result<Line, Refusal>
    ensures { result ≡ act_line place kind item line }
{
    let (Field::Number(place), Field::Letter(letter)) = (place, kind) else {
        return Err(Refusal::Malformed { line });
    };
    let number = item.value();
    let act = act_of(u32::from(letter), number);
    let shaped = if act.is_some() {
        item.is_number()
    } else {
        item.is_either()
    };
    if !shaped {
        return Err(Refusal::Malformed { line });
    }
    match act {
        Some(act) if place <= 999999 && number <= 255 => Ok(Line::Act { place, act }),
        _ => Err(Refusal::OutOfRange { line }),
    }
}

// Which of a table's two headings a line is.
#[tactic(auto, using(decimal::proofs::Texts::same_pointwise), unfolding(crate::specs::Lines::heading_among))]
fn two_headings(line: &[u8], first: &[u8], second: &[u8]) -> Option<u32>
    ensures { result ≡ heading_among 0 (first.now ∷ second.now ∷ []) line.now }
{
    if line == first {
        return Some(0);
    }
    (line == second).then_some(1)
}

// Which heading of its table a line is, the tables and the headings of each counted from 0; none if it is not one of them.
#[tactic(auto, using(decimal::proofs::Texts::same_pointwise), unfolding(crate::specs::Lines::heading_of, crate::specs::Lines::headings, crate::specs::Lines::heading_among))]
pub fn heading_of(table: u32, line: &[u8]) -> Option<u32>
    ensures { result ≡ heading_of table line.now }
{
    match table {
        0 => two_headings(line, b"locker rival", b"locker rival rule"),
        1 => (line == b"sail blocks load write".as_slice()).then_some(0),
        2 => two_headings(
            line,
            b"step sail minutes",
            b"step sail minutes blocks load write",
        ),
        _ => (line == b"at act sail".as_slice()).then_some(0),
    }
}

// How many names a heading of a table has.
#[tactic(auto, using(crate::proofs::Laws::names_are))]
pub fn names_in(table: u32, heading: u32) -> usize
    ensures value { result ≡ names_in table heading }
    ensures upper_bound { result ≤ 6 }
{
    match (table, heading) {
        (0, 1) => 3,
        (0, _) => 2,
        (1, _) => 4,
        (2, 1) => 6,
        _ => 3,
    }
}

// A value line under a heading of a table: as many fields as names, then its shape, then its ranges. None of the fields is empty. Without
// the field of the rule's word, which `locker rival` has not, write-first is meant.
#[tactic(auto, using(crate::proofs::Laws::names_are, crate::proofs::Laws::field_read), unfolding(crate::specs::Lines::line_in, crate::specs::Lines::values_in))]
pub fn line_in(table: u32, heading: u32, fields: &[Field], line: u32) -> Result<Line, Refusal>
    requires { none_empty fields.now ≡ true }
    ensures { result ≡ line_in table heading fields.now line }
{
    if fields.len() != names_in(table, heading) {
        return Err(Refusal::Malformed { line });
    }
    match table {
        0 => {
            let rule = if heading == 1 {
                fields[2]
            } else {
                Field::Rule(Deduction::WriteFirst)
            };
            sizes_line(fields[0], fields[1], rule, line)
        }
        1 => item_line(fields[0], fields[1], fields[2], fields[3], line),
        2 => {
            let (blocks, load, write) = if heading == 1 {
                (fields[3], fields[4], fields[5])
            } else {
                (Field::Dash, Field::Dash, Field::Dash)
            };
            let fields = StepFields {
                kind: fields[0],
                item: fields[1],
                minutes: fields[2],
                blocks,
                load,
                write,
            };
            step_line(heading, fields, line)
        }
        _ => act_line(fields[0], fields[1], fields[2], line),
    }
}
