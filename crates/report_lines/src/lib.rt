// The lines of a report: how long each is, and each written at the start of what remains of a lent page. A line of numbers, the items'
// lines, and the last two with the totals and a rival's figures. What a report is, and when one is refused, is in `report`.
#![tactic(auto)]

ghost use Rattle.std.specs.Prelude.{◌≡◌, ◌++◌, ◌+◌, ◌≤◌, ◌<◌, None, Some, length};
ghost use Rattle.cache_state.specs.Cache.{view, uses_of};
ghost use Rattle.cache_state.specs.InnerView.{usage_of, figures_of};
ghost use Rattle.decimal.specs.Decimal.{digits_of};
ghost use Rattle.decimal.specs.InnerPages.{text_over};
ghost use Rattle.landlord.specs.Figures.{tenths_of, total_cost, left_side, right_side};
ghost use Rattle.layout.specs.Layout.{cache_of, ValidBytes};
ghost use Rattle.report_lines.specs.Lines.{line_of, item_numbers, item_lines, total_numbers, total_lines};
ghost use Rattle.report_lines.specs.Inner.{RivalOk};

// A rival plan, by its blocks and its cost. Where there is one, the last two lines go on with its cost and the two sides of the bound.
#[derive(Clone, Copy, Debug, PartialEq, Eq)]
pub struct Rival {
    pub blocks: u32,
    pub cost: u64,
}

// A valid state, of which the lines of a report are written.
#[derive(Clone, Copy)]
pub struct ValidState<'a> {
    pub bytes: &'a [u8],
    pub ghost valid: { ValidBytes bytes.now },
}

// How many bytes a number of a line has: its digits, and the byte behind it.
#[tactic(auto, using(decimal::proofs::Laws::digits_twenty))]
fn number_length(x: u64) -> usize
    ensures value { result ≡ length (digits_of x) + 1 }
    ensures upper_bound { result ≤ 21 }
{
    decimal::width(x) + 1
}

// How many bytes a line of numbers has: its digits, and one byte behind each number.
pub fn line_length(numbers: &[u64]) -> usize
    requires { length numbers.now ≤ 11 }
    ensures value { result ≡ length (line_of numbers.now) }
    ensures upper_bound { result ≤ 231 }
{
    numbers.iter().map(|&x| number_length(x)).sum()
}

// Writes a line of numbers at the start of the page, which has room for it.
fn put_line(page: &mut [u8], numbers: &[u64]) -> usize
    requires { length (line_of numbers.now) ≤ length page.old }
    ensures value { result ≡ length (line_of numbers.now) }
    ensures page_after { page.new ≡ text_over (line_of numbers.now) page.old }
{
    let mut at = 0;
    for (i, &x) in numbers.iter().enumerate() {
        at += decimal::write(x, &mut page[at..]);
        // A space before the next number, a line feed behind the last.
        page[at] = if i + 1 < numbers.len() { b' ' } else { b'\n' };
        at += 1;
    }
    at
}

// Writes a line of names and a line of numbers at the start of the page, which has room for both.
pub fn put_table(page: &mut [u8], names: &[u8], numbers: &[u64])
    requires { length (names.now ++ line_of numbers.now) ≤ length page.old }
    ensures { page.new ≡ text_over (names.now ++ line_of numbers.now) page.old }
{
    let at = decimal::put_text(names, page);
    put_line(&mut page[at..], numbers);
}

// The whole tenths of an hour in so many minutes.
fn whole_tenths(minutes: u32) -> u32
    ensures { result ≡ tenths_of minutes }
{
    minutes / 6
}

impl ValidState<'_> {
    // The numbers of an item's line.
    fn item_numbers(&self, i: usize) -> [u64; 4]
        requires { i < 256 }
        ensures { result ≡ item_numbers i (usage_of (cache_of self.now.bytes.now) i) }
    {
        let tenths = whole_tenths(layout::minutes(self.bytes, i)) as u64;
        let loads = layout::item_loads(self.bytes, i) as u64;
        let writebacks = layout::item_writebacks(self.bytes, i) as u64;
        [i as u64, tenths, loads, writebacks]
    }

    // How many bytes the items' lines have.
    pub fn items_length(&self) -> usize
        ensures { result ≡ length (item_lines 0 (uses_of (cache_of self.now.bytes.now))) }
    {
        let mut sum = 0;
        for i in 0..layout::count(self.bytes) {
            sum += line_length(&self.item_numbers(i));
        }
        sum
    }

    // Writes the items' lines at the start of the page, which has room for them.
    pub fn put_items(&self, page: &mut [u8]) -> usize
        requires { length (item_lines 0 (uses_of (cache_of self.now.bytes.now))) ≤ length page.old }
        ensures value { result ≡ length (item_lines 0 (uses_of (cache_of self.now.bytes.now))) }
        ensures page_after { page.new ≡ text_over (item_lines 0 (uses_of (cache_of self.now.bytes.now))) page.old }
    {
        let mut at = 0;
        for i in 0..layout::count(self.bytes) {
            at += put_line(&mut page[at..], &self.item_numbers(i));
        }
        at
    }

    // What the season has cost.
    fn total_cost(&self) -> u64
        ensures { result ≡ total_cost (figures_of (cache_of self.now.bytes.now)) }
    {
        let load = layout::load_cost(self.bytes);
        let write = layout::write_cost(self.bytes);
        load + write
    }

    // The bound's left side, for a plan of `h` blocks.
    fn left_side(&self, h: u32) -> u64
        requires { (1 ≤ h) × (h ≤ (cache_of self.now.bytes.now).k) }
        ensures { result ≡ left_side (cache_of self.now.bytes.now).k h (total_cost (figures_of (cache_of self.now.bytes.now))) }
    {
        let total = self.total_cost();
        let k = layout::capacity(self.bytes);
        let factor = (k - h + 1) as u64;
        factor * total
    }

    // And its right side, for a plan that costs so much.
    fn right_side(&self, cost: u64) -> u64
        requires { cost ≤ 1000000000000 }
        ensures { result ≡ right_side (cache_of self.now.bytes.now).k cost }
    {
        let k = layout::capacity(self.bytes) as u64;
        k * cost
    }

    // The eight totals.
    fn totals(&self) -> [u64; 8]
        ensures { result ≡ total_numbers (view (cache_of self.now.bytes.now)) None }
    {
        let hits = layout::hits(self.bytes) as u64;
        let loads = layout::loads(self.bytes) as u64;
        let load = layout::load_cost(self.bytes);
        let evictions = layout::evictions(self.bytes) as u64;
        let dirties = layout::dirty_evictions(self.bytes) as u64;
        let writebacks = layout::writebacks(self.bytes) as u64;
        let write = layout::write_cost(self.bytes);
        let total = self.total_cost();
        [
            hits, loads, load, evictions, dirties, writebacks, write, total,
        ]
    }

    // And behind them the rival's numbers.
    fn totals_against(&self, rival: Rival) -> [u64; 11]
        requires { RivalOk (view (cache_of self.now.bytes.now)) (Some rival) }
        ensures { result ≡ total_numbers (view (cache_of self.now.bytes.now)) (Some rival) }
    {
        let mut numbers = [0; 11];
        numbers[..8].copy_from_slice(&self.totals());
        numbers[8] = rival.cost;
        numbers[9] = self.left_side(rival.blocks);
        numbers[10] = self.right_side(rival.cost);
        numbers
    }

    // How many bytes the last two lines have: the names, and the numbers.
    pub fn totals_length(&self, rival: Option<Rival>) -> usize
        requires { RivalOk (view (cache_of self.now.bytes.now)) rival }
        ensures value { result ≡ length (total_lines (view (cache_of self.now.bytes.now)) rival) }
        ensures upper_bound { result ≤ 312 }
    {
        match rival {
            None => 64 + line_length(&self.totals()),
            Some(rival) => 81 + line_length(&self.totals_against(rival)),
        }
    }

    // Writes the last two lines at the start of the page, which has room for them.
    pub fn put_totals(&self, page: &mut [u8], rival: Option<Rival>)
        requires fair { RivalOk (view (cache_of self.now.bytes.now)) rival }
        requires room { length (total_lines (view (cache_of self.now.bytes.now)) rival) ≤ length page.old }
        ensures { page.new ≡ text_over (total_lines (view (cache_of self.now.bytes.now)) rival) page.old }
    {
        match rival {
            None => put_table(
                page,
                b"hits loads loadcost drops dirtydrops writebacks writecost total\n",
                &self.totals(),
            ),
            Some(rival) => put_table(
                page,
                b"hits loads loadcost drops dirtydrops writebacks writecost total rival left right\n",
                &self.totals_against(rival),
            ),
        }
    }
}
