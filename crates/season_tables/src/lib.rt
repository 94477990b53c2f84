// The text input's tables, read line by line up to the first faulty line.
#![tactic(auto)]

ghost use Rattle.std.specs.Prelude.{◌≡◌, cond, ◌*◌, ◌≤◌, length, eqb, Ok, Err, OnErr};
ghost use Rattle.types.specs.declared.Refusal.TheVariants.{Malformed};
ghost use Rattle.season_lines.specs.declared.Line.TheVariants.{Sizes, Item as ItemLine, Step as StepLine, Act as ActLine};
ghost use Rattle.season_items.specs.Inner.{call_width, act_width, item_room};
ghost use Rattle.season_tables.specs.Tables.{at_start, may_end, must_end, next_table, named_by, takes, at_end};
ghost use Rattle.season_tables.specs.Inner.{nothing_read, end_answer, LeadsFrom, LeadsBy, NotesItem, NotesStep, NotesAct, KeepsPast, Keeps, Moves, ReadsLine, KeepsLine, wants_values, Takeable, StepTakeable, ActTakeable, LineReadable};

use catalog_bytes::Item;
use line_fields::Field;
use season_items::{ACT_NUMBERS, CALL_NUMBERS, Present};
use season_lines::Line;
use types::{Act, Deduction, Refusal, Step};

// The stage of the reading: in which table, the tables counted from 0; and behind its line of names, which of its headings that was.
#[derive(Clone, Copy, Debug, PartialEq, Eq)]
pub struct Stage {
    pub table: u32,
    pub heading: Option<u32>,
}

// What has been read: the sizes, k 0 before they are read, and the rule of deduction, write-first till then; how many items of the
// catalogue, steps and acts, which stand in lent slices; the place of the last act; and the items as all steps have left them, and as the
// steps before the place of the last act have.
// Kept by hand: the slices stand beside it in each function. In one struct with it the arrays would be moved as that is made, which takes
// their room on the stack twice.
#[derive(Clone, Copy)]
pub struct Seen {
    pub k: u32,
    pub h: u32,
    pub rule: Deduction,
    pub n: usize,
    pub steps: usize,
    pub acts: usize,
    pub last: u32,
    pub present: Present,
    pub earlier: Present,
}

// Whether a blank line may stand here: behind the one line of `locker rival`, and in each table after it but the last.
fn may_end(upto: u32, table: u32, k: u32) -> bool
    ensures { result ≡ may_end upto table k }
{
    if table == 0 { 1 <= k } else { table < upto }
}

// Whether nothing else may.
fn must_end(table: u32, k: u32) -> bool
    ensures { result ≡ must_end table k }
{
    table == 0 && 1 <= k
}

// Whether the fields of a line of so many bytes are looked at: a value line is due, and this is not the blank line.
#[tactic(auto, unfolding(crate::specs::Inner::wants_values))]
pub fn wants_values(upto: u32, stage: Stage, k: u32, bytes: usize) -> bool
    ensures { result ≡ wants_values upto stage k bytes }
{
    stage.heading.is_some()
        && !(bytes == 0 && may_end(upto, stage.table, k))
        && !must_end(stage.table, k)
}

// The stage before the first line.
pub fn at_start() -> Stage
    ensures { result ≡ at_start.stage }
{
    Stage {
        table: 0,
        heading: None,
    }
}

// Nothing is read.
pub fn nothing_read() -> Seen
    ensures { result ≡ nothing_read }
{
    Seen {
        k: 0,
        h: 0,
        rule: Deduction::WriteFirst,
        n: 0,
        steps: 0,
        acts: 0,
        last: 0,
        present: Present::default(),
        earlier: Present::default(),
    }
}

impl Stage {
    // The line of names, a heading of its table or not.
    fn take_names(&mut self, heading: Option<u32>, line: u32) -> Result<(), Refusal>
        ensures { Moves self.old (named_by self.old heading line) result self.new }
    {
        if heading.is_none() {
            return Err(Refusal::Heading { line });
        }
        self.heading = heading;
        Ok(())
    }

    // The blank line between two tables, or what stands in its place.
    fn take_blank(&mut self, bytes: usize, line: u32) -> Result<(), Refusal>
        requires { self.old.table ≤ 3 }
        ensures { Moves self.old (cond (eqb bytes 0) (Ok (next_table self.old)) (Err (Malformed line))) result self.new }
    {
        if bytes != 0 {
            return Err(Refusal::Malformed { line });
        }
        self.table += 1;
        self.heading = None;
        Ok(())
    }
}

impl Seen {
    #[tactic(auto, unfolding(crate::specs::Tables::takes))]
    fn take_sizes(&mut self, k: u32, h: u32, rule: Deduction, line: u32) -> Result<(), Refusal>
        ensures leads_by { LeadsBy self.old (λ v. takes v (Sizes k h rule) line) result self.new }
        ensures keeps_seen { OnErr result (self.new ≡ self.old) }
    {
        if k < h {
            return Err(Refusal::PlanTooLarge { line });
        }
        self.k = k;
        self.h = h;
        self.rule = rule;
        Ok(())
    }

    #[tactic(auto, unfolding(crate::specs::Tables::takes))]
    fn take_item(
        &mut self,
        number: u32,
        item: Item,
        line: u32,
        catalog: &mut [u8],
    ) -> Result<(), Refusal>
        requires { (number ≤ 255) × (self.old.steps ≡ 0) × (item_room ≤ length catalog.old) }
        ensures notes_item { NotesItem self.old catalog.old (λ v. takes v (ItemLine number item.blocks item.load item.write) line) result self.new catalog.new }
        ensures keeps_past { KeepsPast (5 * self.new.present.n) self.old catalog.old result self.new catalog.new }
    {
        let i = number as usize;
        if i != self.n {
            return Err(Refusal::OutOfSequence { line });
        }
        catalog_bytes::put(catalog, i, item);
        self.n = i + 1;
        self.present.n = self.n;
        self.earlier.n = self.n;
        Ok(())
    }

    fn take_step(
        &mut self,
        step: Step,
        line: u32,
        catalog: &mut [u8],
        calls: &mut [u32],
    ) -> Result<(), Refusal>
        requires { StepTakeable self.old step catalog.old calls.old }
        ensures notes_step { NotesStep self.old catalog.old calls.old (λ v. takes v (StepLine step) line) result self.new catalog.new calls.new }
        ensures keeps_past { KeepsPast (5 * self.new.present.n) self.old catalog.old result self.new catalog.new }
        ensures keeps_past_2 { KeepsPast (call_width * self.new.steps) self.old calls.old result self.new calls.new }
    {
        self.present.step_refused(self.k, catalog, step, line)?;
        season_items::put_arrival(catalog, step);
        season_items::put_step(calls, CALL_NUMBERS * self.steps, step);
        self.present.advance(step);
        self.steps += 1;
        Ok(())
    }

    fn take_act(
        &mut self,
        place: u32,
        act: Act,
        line: u32,
        calls: &[u32],
        acts: &mut [u32],
    ) -> Result<(), Refusal>
        requires { ActTakeable self.old place act calls.now acts.old }
        ensures notes_act { NotesAct self.old calls.now acts.old (λ v. takes v (ActLine place act) line) result self.new acts.new }
        ensures keeps_past { KeepsPast (act_width * self.new.acts) self.old acts.old result self.new acts.new }
    {
        // It may not fall, and there is such a step.
        if place < self.last || self.steps <= place as usize {
            return Err(Refusal::ActOutOfOrder { line });
        }
        let mut earlier = self.earlier;
        earlier.catch_up(calls, self.last as usize, place as usize);
        earlier.known(act.item(), line)?;
        season_items::put_act(acts, ACT_NUMBERS * self.acts, place, act);
        self.acts += 1;
        self.last = place;
        self.earlier = earlier;
        Ok(())
    }

    // A value line that is shaped and in range.
    fn take_line(
        &mut self,
        values: Line,
        line: u32,
        catalog: &mut [u8],
        calls: &mut [u32],
        acts: &mut [u32],
    ) -> Result<(), Refusal>
        requires { Takeable self.old values catalog.old calls.old acts.old }
        ensures leads_from { LeadsFrom self.old catalog.old calls.old acts.old (λ v. takes v values line) result self.new catalog.new calls.new acts.new }
        ensures keeps { Keeps self.old catalog.old calls.old acts.old result self.new catalog.new calls.new acts.new }
    {
        match values {
            Line::Sizes { k, h, rule } => self.take_sizes(k, h, rule, line),
            Line::Item {
                number,
                blocks,
                load,
                write,
            } => {
                let item = Item {
                    blocks,
                    load,
                    write,
                };
                self.take_item(number, item, line, catalog)
            }
            Line::Step(step) => self.take_step(step, line, catalog, calls),
            Line::Act { place, act } => self.take_act(place, act, line, calls, acts),
        }
    }
}

// A line, ended by its line feed, of a text whose last table is the one numbered `upto`; its fields stand in `fields` if it is one with
// values.
pub fn read_line(
    upto: u32,
    stage: &mut Stage,
    seen: &mut Seen,
    text: &[u8],
    fields: &[Field],
    line: u32,
    catalog: &mut [u8],
    calls: &mut [u32],
    acts: &mut [u32],
) -> Result<(), Refusal>
    requires { LineReadable upto stage.old seen.old text.now fields.now catalog.old calls.old acts.old }
    ensures reads_line { ReadsLine upto stage.old seen.old catalog.old calls.old acts.old text.now line result stage.new seen.new catalog.new calls.new acts.new }
    ensures keeps_line { KeepsLine stage.old seen.old catalog.old calls.old acts.old result stage.new seen.new catalog.new calls.new acts.new }
{
    let Some(heading) = stage.heading else {
        return stage.take_names(season_lines::heading_of(stage.table, text), line);
    };
    if wants_values(upto, *stage, seen.k, text.len()) {
        let values = season_lines::line_in(stage.table, heading, fields, line)?;
        return seen.take_line(values, line, catalog, calls, acts);
    }
    stage.take_blank(text.len(), line)
}

// The end of an input whose last table is the one numbered `upto`: all is read behind its names.
pub fn ended(upto: u32, stage: Stage, line: u32) -> Result<(), Refusal>
    ensures verdict_value { result ≡ end_answer upto stage line }
    ensures leads_by { (q : Seen) → LeadsBy q (λ v. at_end upto (record { stage = stage; read = v }) line) result q }
{
    if stage.heading.is_some() && stage.table == upto {
        return Ok(());
    }
    Err(Refusal::Heading { line })
}
