// The text input's tables: the search for the first faulty line.
#![tactic(auto)]

ghost use Rattle.std.specs.Prelude.{◌≡◌, ◌≤◌, IfSome, OnOk};
ghost use Rattle.season_lines.specs.Lines.{names_in};
ghost use Rattle.season_tables.specs.Tables.{reading_to};
ghost use Rattle.season_tables.specs.Inner.{Leads, FewRead, Scannable};
ghost use Rattle.season_scan.specs.Inner.{Leaves};

use line_fields::Field;
use season_tables::{Seen, Stage};
use types::Refusal;

// How many fields a line of values has, behind a line of names.
fn fields_due(stage: Stage) -> usize
    ensures value { IfSome stage.heading (λ heading. result ≡ names_in stage.table heading) }
    ensures upper_bound { result ≤ 6 }
{
    stage
        .heading
        .map_or(0, |heading| season_lines::names_in(stage.table, heading))
}

// Reads the tables up to the one numbered `upto`, the last, or up to the first faulty line. The items are noted in `catalog`, five
// bytes each, and behind them those that arrive; the steps in `calls`, seven numbers each; and the acts in `acts`, three.
pub fn scan(
    s: &[u8],
    upto: u32,
    seen: &mut Seen,
    catalog: &mut [u8],
    calls: &mut [u32],
    acts: &mut [u32],
) -> Result<(), Refusal>
    requires { Scannable upto s.now catalog.old calls.old acts.old }
    ensures leads { Leads (reading_to upto s.now) result seen.new catalog.new calls.new acts.new }
    ensures few { OnOk result (FewRead seen.new) }
    ensures leaves { Leaves upto s.now catalog.old calls.old acts.old seen.new catalog.new calls.new acts.new }
{
    *seen = season_tables::nothing_read();
    let mut stage = season_tables::at_start();
    let mut at = 0;
    let mut line: u32 = 1;
    'lines: loop {
        if s.len() <= at {
            break season_tables::ended(upto, stage, line);
        }
        let end = at + line_fields::find(&s[at..], b'\n');
        if s.len() <= end {
            break Err(Refusal::Malformed { line });
        }
        let names = fields_due(stage);
        let mut fields = [Field::Empty; 6];
        let mut count = 0;
        let mut i = at;
        let mut more = season_tables::wants_values(upto, stage, seen.k, end - at);
        while more {
            let j = i + line_fields::find(&s[i..end], b' ');
            let field = line_fields::field_of(&s[i..j]);
            // No line has an empty field, and none has more fields than its heading has names.
            if field.is_empty() || names <= count {
                break 'lines Err(Refusal::Malformed { line });
            }
            fields[count] = field;
            count += 1;
            more = j < end;
            i = j + 1;
        }
        season_tables::read_line(
            upto,
            &mut stage,
            seen,
            &s[at..end],
            &fields[..count],
            line,
            catalog,
            calls,
            acts,
        )?;
        at = end + 1;
        line += 1;
    }
}
