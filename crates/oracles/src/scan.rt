// A scan: the rows of a band in turn, from where its cursor stands. The cursor is had by value.
ghost use Rattle.std.specs.Prelude.{◌≡◌, ◌+◌, ◌*◌, ◌≤◌, ◌<◌, T, ◌⊎◌, pos, nat_abs, length};
ghost use Rattle.std.specs.Int.Signed.{non_neg};
ghost use Rattle.oracles.specs.laws.ScanRun.{judged_of, scan_run, RowsLeft};
ghost use Rattle.oracles.specs.Scan.{scan_from, scan_of};
ghost use Rattle.oracles.specs.laws.RoundRobin.{Legal};
ghost use Rattle.oracles.specs.laws.ScanRows.{Ready};

use crate::round_robin::RoundRobin;
use crate::table::Rows;
use numbers::refusal::Refusal;

// The first row that breaks a limit: its number, its value, and whether the value lies above the upper limit. The side is a flag: either way there are both others.
#[derive(Clone, Copy)]
pub struct Violation {
    pub row: usize,
    pub value: f64,
    pub is_over: bool,
}

// What a scan found: the violation, the largest value before it and its row (minus infinity and −1 where there is none), and where cur was left.
#[derive(Clone, Copy)]
pub struct Scan {
    pub viol: Option<Violation>,
    pub fmax: f64,
    pub kmax: i32,
    pub last: i32,
}

// An answer, and the cursor after it.
#[derive(Clone, Copy)]
pub struct ScanEnd {
    pub answer: Result<Scan, Refusal>,
    pub cursor: RoundRobin,
}

// A scan, and the cursor after it.
#[derive(Clone, Copy)]
pub(crate) struct Swept {
    pub(crate) scan: Scan,
    pub(crate) cursor: RoundRobin,
}

// The cursor in row numbers: its band's first row.
fn band_from(rr: RoundRobin) -> usize
    requires { Legal rr }
    ensures { rr.lo ≡ pos result }
{
    rr.lo as usize
}

// The row after its band's last.
fn band_past(rr: RoundRobin) -> usize
    requires { Legal rr }
    ensures { rr.hi ≡ pos result }
{
    rr.hi as usize
}

// The row where it stands.
fn row_at(rr: RoundRobin) -> usize
    requires { T (non_neg rr.cur) }
    ensures { result ≡ nat_abs rr.cur }
{
    rr.cur as usize
}

// A band's limits, the upper one as a number: infinity, above which no value lies, where there is none.
#[derive(Clone, Copy)]
struct Limits {
    lower: f64,
    limit: f64,
}

impl Limits {
    // A row's value against the limits, and the largest value so far with this one.
    fn test_row(self, row: usize, value: f64, fmax: f64, kmax: i32) -> Scan
        requires { row < 1024 }
        ensures { result ≡ judged_of self.lower self.limit row value fmax kmax }
    {
        let last = row as i32;
        let over = value > self.limit;
        if over {
            return Scan {
                viol: Some(Violation {
                    row,
                    value,
                    is_over: true,
                }),
                fmax,
                kmax,
                last,
            };
        }
        let under = value < self.lower;
        if under {
            return Scan {
                viol: Some(Violation {
                    row,
                    value,
                    is_over: false,
                }),
                fmax,
                kmax,
                last,
            };
        }
        if value > fmax {
            return Scan {
                viol: None,
                fmax: value,
                kmax: last,
                last,
            };
        }
        Scan {
            viol: None,
            fmax,
            kmax,
            last,
        }
    }
}

// Four rows, whose values are had side by side, judged in turn up to the first that breaks a limit.
fn look_at_four(rows: Rows, row: usize, limits: Limits, fmax: f64, kmax: i32) -> Scan
    requires { (row + 4 ≤ 1024) × (row * rows.n + 4 * rows.n ≤ length rows.table.now) }
    ensures { result ≡ scan_run rows.entry.n rows.entry.table.now rows.entry.x.now limits.lower limits.limit 4 row fmax kmax }
{
    let values = rows.four_values(row);
    let s = limits.test_row(row, values.a, fmax, kmax);
    if s.viol.is_some() {
        return s;
    }
    let t = limits.test_row(row + 1, values.b, s.fmax, s.kmax);
    if t.viol.is_some() {
        return t;
    }
    let u = limits.test_row(row + 2, values.c, t.fmax, t.kmax);
    if u.viol.is_some() {
        return u;
    }
    limits.test_row(row + 3, values.d, u.fmax, u.kmax)
}

// The next row, or the next four.
fn look_at(rows: Rows, row: usize, many: usize, limits: Limits, fmax: f64, kmax: i32) -> Scan
    requires { ((many ≡ 1) ⊎ (many ≡ 4)) × (row + many ≤ 1024) × (row * rows.n + many * rows.n ≤ length rows.table.now) }
    ensures { result ≡ scan_run rows.entry.n rows.entry.table.now rows.entry.x.now limits.lower limits.limit many row fmax kmax }
{
    if many == 4 {
        return look_at_four(rows, row, limits, fmax, kmax);
    }
    let value = rows.row_value(row);
    limits.test_row(row, value, fmax, kmax)
}

// How many rows to look at together, of those left and those before the band's end.
fn rows_together(left: usize, ahead: usize) -> usize
    requires { (1 ≤ left) × (1 ≤ ahead) }
    ensures { ((result ≡ 1) ⊎ (result ≡ 4)) × (result ≤ left) × (result ≤ ahead) }
{
    if left < 4 {
        return 1;
    }
    if ahead < 4 {
        return 1;
    }
    4
}

// `count` rows from a cursor on, after the largest value so far and its row. The cursor goes on to a row, and from there to the last that is looked at with it.
fn scan_rest(
    rows: Rows,
    start: RoundRobin,
    count: usize,
    limits: Limits,
    peak: f64,
    peak_row: i32,
) -> Scan
    requires { RowsLeft rows.n rows.table.now start count }
    ensures { result ≡ scan_from rows.entry.n rows.entry.table.now rows.entry.x.now limits.lower (Some limits.limit) count start peak peak_row }
{
    let mut rr = start;
    let mut fmax = peak;
    let mut kmax = peak_row;
    let mut left = count;
    // a turn takes one row or four, so this is no `for`
    while left > 0 {
        rr = rr.step();
        let row = row_at(rr);
        let many = rows_together(left, band_past(rr) - row);
        let s = look_at(rows, row, many, limits, fmax, kmax);
        if s.viol.is_some() {
            return s;
        }
        fmax = s.fmax;
        kmax = s.kmax;
        rr.cur = s.last;
        left -= many;
    }
    Scan {
        viol: None,
        fmax,
        kmax,
        last: rr.cur,
    }
}

// The rows of the band in turn, each once at most. The first singly: most scans that break a limit end there. n, table and x come one by one: as `Rows` they would
// go through memory, and a scan that stops at its first row takes 6 to 9 % more.
pub(crate) fn scan_rows(
    n: usize,
    table: &[f64],
    x: &[f64],
    start: RoundRobin,
    lower: f64,
    upper: Option<f64>,
) -> Scan
    requires { Ready n table.now x.now start }
    ensures { result ≡ scan_of n table.now x.now start lower upper }
{
    let rows = Rows { n, table, x };
    let limit = upper.unwrap_or(f64::INFINITY);
    let limits = Limits { lower, limit };
    let all = band_past(start) - band_from(start);
    let fmax = f64::NEG_INFINITY;
    if all == 0 {
        return Scan {
            viol: None,
            fmax,
            kmax: -1,
            last: start.cur,
        };
    }
    let rr = start.step();
    let row = row_at(rr);
    let value = rows.row_value(row);
    let s = limits.test_row(row, value, fmax, -1);
    if s.viol.is_some() {
        return s;
    }
    scan_rest(rows, rr, all - 1, limits, s.fmax, s.kmax)
}
