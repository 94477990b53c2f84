// A season's text to its report: the tables are read, the plan is priced, the season is run and closed, and the report is written.
#![tactic(auto)]

ghost use Rattle.std.specs.Prelude.{◌≤◌, length};
ghost use Rattle.report.specs.Report.{longest};
ghost use Rattle.printed.specs.Printed.{Yields, Printed};
ghost use Rattle.printed.specs.Inner.{OutcomeFits};
ghost use Rattle.season_text.specs.Answer.{outcome_of};
ghost use Rattle.season_text.specs.Inner.{Closable, Closes, Reportable, Reports};

use report_lines::Rival;
use season_items::CALL_NUMBERS;
use season_tables::Seen;
use types::Refusal;

// Runs the steps of an accepted text and the closing, as calls on a new state. The opening takes the items of the text's catalogue; behind
// them in `catalog` stand those that arrive.
fn close_season(seen: &Seen, catalog: &[u8], calls: &mut [u32], state: &mut [u8])
    requires { Closable seen.now catalog.now calls.old state.old }
    ensures { Closes seen.now catalog.now calls.old state.new }
{
    let end = CALL_NUMBERS * seen.steps;
    // The closing stands behind the steps, as a call's seven numbers of which the first is not 0.
    calls[end] = 1;
    // Every call is accepted, so no answer is kept.
    let _ = cache_run::run(
        state,
        seen.k,
        seen.rule.number(),
        &catalog[..catalog_bytes::ITEM_BYTES * seen.n],
        &calls[..end + CALL_NUMBERS],
        &mut [],
    );
}

// The report of an accepted text whose plan costs so much.
fn report_season(
    seen: &Seen,
    catalog: &[u8],
    cost: u64,
    calls: &mut [u32],
    page: &mut [u8],
) -> Result<usize, Refusal>
    requires { Reportable seen.now catalog.now calls.old cost }
    ensures { Reports seen.now catalog.now calls.old cost page.old result page.new }
{
    let mut state = [0; layout::STATE_BYTES];
    close_season(seen, catalog, calls, &mut state);
    let rival = Rival {
        blocks: seen.h,
        cost,
    };
    report::report(&state, Some(rival), page)
}

// The answer to a text: refused, with every byte of the page as before; or accepted, with its report at the start of the page, and how
// long that is.
#[tactic(auto, using(crate::proofs::Answers::too_long, crate::proofs::Answers::line_refused))]
pub fn answer(text: &[u8], page: &mut [u8]) -> Result<usize, Refusal>
    ensures yields { Yields (outcome_of text.now) page.old result page.new }
    ensures outcome_fits { OutcomeFits longest (outcome_of text.now) }
{
    if 65536 < text.len() {
        return Err(Refusal::InputTooLong { line: 0 });
    }
    let mut seen = season_tables::nothing_read();
    let mut catalog = [0; catalog_bytes::MOST_BYTES];
    let mut calls = [0; season_items::CALL_ROOM];
    let mut acts = [0; season_items::ACT_ROOM];
    season_scan::scan(text, 3, &mut seen, &mut catalog, &mut calls, &mut acts)?;
    let cost = season_plan::price_plan(&seen, &catalog, &calls, &acts)?;
    report_season(&seen, &catalog, cost, &mut calls, page)
}

// What is printed for a text, at the start of the page: its report, or the refusal's two numbers and sentence. Answers how
// many bytes.
pub fn output(text: &[u8], page: &mut [u8]) -> usize
    ensures printed { Printed longest (outcome_of text.now) page.old result page.new }
    ensures upper_bound { result ≤ length page.new }
{
    let answered = answer(text, page);
    printed::print(answered, page)
}
