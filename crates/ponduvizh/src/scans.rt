// The scan of a band. `found` becomes 0 and 0 where nothing is broken, else 1 for a value below its limit or 2 for one above, and the row;
// `values` the broken row's value, or 0, and the largest value before it; kmax the row of that; cur where the scan ended.
ghost use Rattle.std.specs.Prelude.{◌≡◌};
ghost use Rattle.oracles.specs.Scan.{scan_band_answer};
ghost use Rattle.ponduvizh.specs.ExportedScan.{upper_of, side_of, row_of, value_of, numbers_found, scan_numbers, scan_numbers_or, scan_end};

use numbers::refusal::{Refusal, number};
use oracles::round_robin::RoundRobin;
use oracles::scan::{Scan, Violation};
use oracles::scan_band::scan_at;

fn upper_of(bounded: bool, upper: f64) -> Option<f64>
    ensures { result ≡ upper_of bounded upper }
{
    bounded.then_some(upper)
}

fn side_of(viol: Option<Violation>) -> usize
    ensures { result ≡ side_of viol }
{
    match viol {
        None => 0,
        Some(broken) => {
            if broken.is_over {
                return 2;
            }
            1
        }
    }
}

fn row_of(viol: Option<Violation>) -> usize
    ensures { result ≡ row_of viol }
{
    viol.map_or(0, |broken| broken.row)
}

fn value_of(viol: Option<Violation>) -> f64
    ensures { result ≡ value_of viol }
{
    viol.map_or(0.0, |broken| broken.value)
}

fn put_scan(scan: Scan, found: &mut [usize; 2], values: &mut [f64; 2], kmax: &mut i32)
    ensures { numbers_found found.new values.new kmax.new ≡ scan_numbers scan }
{
    let viol = scan.viol;
    *found = [side_of(viol), row_of(viol)];
    *values = [value_of(viol), scan.fmax];
    let peak = scan.kmax;
    *kmax = peak;
}

// What an answer says, in numbers.
fn put_answer(
    answer: Result<Scan, Refusal>,
    found: &mut [usize; 2],
    values: &mut [f64; 2],
    kmax: &mut i32,
)
    ensures { numbers_found found.new values.new kmax.new
        ≡ scan_numbers_or answer
        (numbers_found found.old values.old kmax.old) }
{
    match answer {
        Err(_) => {}
        Ok(scan) => {
            put_scan(scan, found, values, kmax);
        }
    }
}

fn cursor_at(cur: &i32, lo: i32, hi: i32) -> RoundRobin
    ensures { result ≡ record { cur = cur.entry.now; lo = lo; hi = hi } }
{
    RoundRobin { cur: *cur, lo, hi }
}

// The scan from a cursor.
fn scan_from(
    n: usize,
    rows: usize,
    table: &[f64],
    x: &[f64],
    start: RoundRobin,
    lower: f64,
    upper: Option<f64>,
    cur: &mut i32,
    found: &mut [usize; 2],
    values: &mut [f64; 2],
    kmax: &mut i32,
) -> u64
    ensures { ((result, numbers_found found.new values.new kmax.new), cur.new)
        ≡ scan_end
        (scan_band_answer n rows table.now x.now start lower upper)
        (numbers_found found.old values.old kmax.old) }
{
    let end = scan_at(n, rows, table, x, start, lower, upper);
    let cursor = end.cursor;
    let answer = end.answer;
    let last = cursor.cur;
    *cur = last;
    put_answer(answer, found, values, kmax);
    number(&answer) as u64
}

#[unsafe(no_mangle)]
pub extern "C" fn ponduvizh_scan_band(
    n: usize,
    rows: usize,
    table: &[f64],
    x: &[f64],
    cur: &mut i32,
    lo: i32,
    hi: i32,
    lower: f64,
    bounded: bool,
    upper: f64,
    found: &mut [usize; 2],
    values: &mut [f64; 2],
    kmax: &mut i32,
) -> u64
    ensures { ((result, numbers_found found.new values.new kmax.new), cur.exit.now)
        ≡ scan_end
        (scan_band_answer n rows table.now x.now (record { cur = cur.entry.now; lo = lo; hi = hi }) lower (upper_of bounded upper))
        (numbers_found found.old values.old kmax.old) }
{
    let start = cursor_at(cur, lo, hi);
    let limit = upper_of(bounded, upper);
    scan_from(
        n, rows, table, x, start, lower, limit, cur, found, values, kmax,
    )
}
