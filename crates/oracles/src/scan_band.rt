// `scan_band` of lowpass_oracle.rs: a scan with a cursor that is lent and moved.
ghost use Rattle.std.specs.Prelude.{◌≡◌};
ghost use Rattle.numbers.specs.Refusal.{unless};
ghost use Rattle.oracles.specs.RoundRobin.{with_cur};
ghost use Rattle.oracles.specs.Scan.{band_fits, scan_of, first_fault, scan_band_answer};
ghost use Rattle.oracles.specs.laws.ScanRows.{Ready};

use crate::round_robin::{RoundRobin, is_band};
use crate::scan::{Scan, ScanEnd, Swept, scan_rows};
use crate::table::{Rows, is_rows, table_fits};
use numbers::arr::is_dimension;
use numbers::refusal::{Refusal, ask};

// Whether lo and hi are a band of a table of so many rows.
fn band_fits(rows: usize, lo: i32, hi: i32) -> bool
    ensures { result ≡ band_fits rows lo hi }
{
    if !is_rows(rows) {
        return false;
    }
    is_band(lo, hi) & (hi <= rows as i32)
}

// The lent cursor is moved to the last row of the scan. Nothing is left to refuse.
pub(crate) fn scan_cursor(rows: Rows, rr: &mut RoundRobin, lower: f64, upper: Option<f64>) -> Scan
    requires { Ready rows.n rows.table.now rows.x.now rr.old }
    ensures { (result ≡ scan_of rows.entry.n rows.entry.table.now rows.entry.x.now rr.old lower upper) × (rr.new ≡ with_cur rr.old result.last) }
{
    let c = *rr;
    let scan = scan_rows(rows.n, rows.table, rows.x, c, lower, upper);
    rr.cur = scan.last;
    scan
}

// Lends a local cursor to `scan_cursor`, so that its callers have plain parameters.
pub(crate) fn scan_lent(rows: Rows, start: RoundRobin, lower: f64, upper: Option<f64>) -> Swept
    requires { Ready rows.n rows.table.now rows.x.now start }
    ensures { (result.scan ≡ scan_of rows.entry.n rows.entry.table.now rows.entry.x.now start lower upper) × (result.cursor ≡ with_cur start result.scan.last) }
{
    let mut c = start;
    let scan = scan_cursor(rows, &mut c, lower, upper);
    Swept { scan, cursor: c }
}

// Refusals 1 to 4 in their order, by what was found of n, the lengths, the bands and the cursors.
pub(crate) fn first_refusal(
    dimension: bool,
    lengths: bool,
    bands: bool,
    cursors: bool,
) -> Result<(), Refusal>
    ensures { result ≡ unless (first_fault dimension lengths bands cursors) (λ why place. Err why) (Ok tt) }
{
    ask(dimension, Refusal::Dimension)?;
    ask(lengths, Refusal::Length)?;
    ask(bands, Refusal::Band)?;
    ask(cursors, Refusal::Cursor)
}

// `scan_band` with the cursor by value, which stays where it was. Its parameters, and those of the calls below, are `scan_band`'s:
// a public call takes slices.
fn scan_by_value(
    n: usize,
    rows: usize,
    table: &[f64],
    x: &[f64],
    rr: RoundRobin,
    lower: f64,
    upper: Option<f64>,
) -> Result<Scan, Refusal>
    ensures { result ≡ (scan_band_answer n rows table.now x.now rr lower upper).0 }
{
    let lengths = table_fits(n, rows, table.len(), x.len());
    let bands = band_fits(rows, rr.lo, rr.hi);
    first_refusal(is_dimension(n), lengths, bands, rr.is_at())?;
    Ok(scan_rows(n, table, x, rr, lower, upper))
}

// The public call: the cursor is lent, and moved unless the call is refused.
pub fn scan_band(
    n: usize,
    rows: usize,
    table: &[f64],
    x: &[f64],
    rr: &mut RoundRobin,
    lower: f64,
    upper: Option<f64>,
) -> Result<Scan, Refusal>
    ensures { (result, rr.new) ≡ scan_band_answer n rows table.now x.now rr.old lower upper }
{
    let c = *rr;
    let found = scan_by_value(n, rows, table, x, c, lower, upper)?;
    rr.cur = found.last;
    Ok(found)
}

// Lends a local cursor to `scan_band`, for callers who have none to lend.
pub fn scan_at(
    n: usize,
    rows: usize,
    table: &[f64],
    x: &[f64],
    start: RoundRobin,
    lower: f64,
    upper: Option<f64>,
) -> ScanEnd
    ensures { (result.answer, result.cursor) ≡ scan_band_answer n rows table.now x.now start lower upper }
{
    let mut cursor = start;
    let answer = scan_band(n, rows, table, x, &mut cursor, lower, upper);
    ScanEnd { answer, cursor }
}
