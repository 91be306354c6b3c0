// The job record: tags 01 to 09, in any order.
ghost use Rattle.numbers.specs.Refusal.{Sound};
ghost use Rattle.std.specs.Prelude.{◌≡◌, ◌*◌, ◌+◌, ◌≤◌, ◌<◌, length};
ghost use Rattle.drivers.specs.Record.{fields_of, no_places, numbers_at, row_count, rows_in, rows_of, fronted, place};
ghost use Rattle.drivers.specs.Job.{signed, part_of, row_end, job_oracle, options_of, job_at, full_job_at, job_walk, job_fault, has_room, read_into, read_job_answer};
ghost use Rattle.drivers.specs.Rules.{matrix_place, point_place};
ghost use Rattle.drivers.specs.laws.Record.{row_filled};
ghost use Rattle.drivers.specs.laws.Job.{oracle_fault, content_fault};

use crate::cutting_plane::Options;
use crate::record::{
    Fields, content_at, count_rows, half_at, is_row, lengths_fault, number_at, numbers_into,
    record_fault, size_fault, start_of,
};
use crate::rules::{BANDS, CURSORS, JOB, KAPPA, LIMITS, MATRIX, N, POINT, SETTINGS, TAGS};
use numbers::bits::{of_bits, word_at};
use numbers::refusal::{Fault, Refusal};
use oracles::lowpass_oracle::LowpassOracle;
use oracles::table::is_rows;

// What a job record keeps, beside its row table, its point and its matrix, which the reader writes into slices.
#[derive(Clone, Copy)]
pub struct Job {
    pub n: usize,
    pub rows: usize,
    pub nwpass: i32,
    pub nwstop: i32,
    pub lp_sq: f64,
    pub up_sq: f64,
    pub sp_sq: f64,
    pub cur1: i32,
    pub cur2: i32,
    pub cur3: i32,
    pub kappa: f64,
    pub options: Options,
}

// The end of the stop rows. A count of rows that no table has is refused by every call, whatever stands here.
fn row_end(rows: usize) -> i32
    ensures { result ≡ row_end rows }
{
    if is_rows(rows) {
        return rows as i32;
    }
    -1
}

impl Job {
    // The oracle that the job starts with.
    pub fn oracle(self) -> LowpassOracle
        ensures { result ≡ job_oracle self }
    {
        LowpassOracle::start(
            self.nwpass,
            self.nwstop,
            row_end(self.rows),
            self.cur1,
            self.cur2,
            self.cur3,
            self.lp_sq,
            self.up_sq,
            self.sp_sq,
        )
    }
}

// ---- what a record says; `places` has where the contents begin, tag 01's first

// Part k of a word of four 16-bit numbers, the lowest first.
fn part(w: u64, k: usize) -> usize
    requires { k < 3 }
    ensures { result ≡ part_of w k }
{
    (w / 65536u64.pow(k as u32) % 65536) as usize
}

// A 16-bit number as a signed one.
fn signed(h: usize) -> i32
    requires { h < 65536 }
    ensures { result ≡ signed h }
{
    (h as u16).cast_signed() as i32
}

// The step limit, and the tolerance two bytes on.
fn job_options(bytes: &[u8], p: usize) -> Options
    ensures { result ≡ options_of bytes.now p }
{
    if bytes.len() < p {
        return Options::new(0, 0.0);
    }
    let content = &bytes[p..];
    Options::new(
        (word_at(content, 0) % 65536) as u16,
        of_bits(word_at(content, 2)),
    )
}

// The job, beside its three lists.
fn job_at(bytes: &[u8], places: &[usize; TAGS]) -> Job
    ensures { result ≡ job_at bytes.now places.now }
{
    let bands = word_at(bytes, places[BANDS]);
    let limits = places[LIMITS];
    let curs = word_at(bytes, places[CURSORS]);
    Job {
        n: half_at(bytes, places[N]),
        rows: count_rows(bytes),
        nwpass: part(bands, 0) as i32,
        nwstop: part(bands, 1) as i32,
        lp_sq: number_at(bytes, limits, 0),
        up_sq: number_at(bytes, limits, 1),
        sp_sq: number_at(bytes, limits, 2),
        cur1: signed(part(curs, 0)),
        cur2: signed(part(curs, 1)),
        cur3: signed(part(curs, 2)),
        kappa: number_at(bytes, places[KAPPA], 0),
        options: job_options(bytes, places[SETTINGS]),
    }
}

// ---- the tests

// Refusal 3 at tag 02, then 4 at tag 06: the tests of the oracle that the job starts with.
fn oracle_fault(job: Job, places: &[usize; TAGS]) -> Result<(), Fault>
    ensures { result ≡ oracle_fault job places.now }
{
    let oracle = job.oracle();
    if !oracle.bands_fit(job.rows) {
        return Err(Fault {
            why: Refusal::Band,
            place: start_of(places[BANDS]),
        });
    }
    if !oracle.cursors_fit() {
        return Err(Fault {
            why: Refusal::Cursor,
            place: start_of(places[CURSORS]),
        });
    }
    Ok(())
}

// The tests that follow the walk: tag 01, the other lengths, 3 and 4.
fn content_fault(bytes: &[u8], places: &[usize; TAGS]) -> Result<(), Fault>
    ensures { result ≡ content_fault bytes.now places.now }
{
    size_fault(bytes, N, 2, places[N])?;
    let job = job_at(bytes, places);
    lengths_fault(bytes, job.n)?;
    oracle_fault(job, places)
}

// The first fault of a job record, in document 01's order; `places` becomes where the contents of its tags begin.
fn job_fault(bytes: &[u8], places: &mut [usize; TAGS]) -> Result<(), Fault>
    requires { places.old ≡ no_places }
    ensures value { result ≡ job_fault bytes.now }
    ensures places_after { places.new ≡ (job_walk bytes.now).1 }
{
    record_fault(bytes, JOB, places)?;
    content_fault(bytes, places)
}

// Refusal 11: whether the three outputs hold a sound job's numbers.
fn has_room(job: Job, table: usize, xc: usize, mq: usize) -> bool
    requires { (job.n ≤ 32) × (job.rows ≤ 1024) }
    ensures { result ≡ has_room job table xc mq }
{
    let n = job.n;
    (job.rows * n <= table) & (n <= xc) & (n * n <= mq)
}

// ---- the reader

// A field's numbers from table[k] on, if it is a row; where the next row is to stand. The table is lent whole, since k is behind its last number where nothing follows.
fn fill_row(bytes: &[u8], at: usize, n: usize, k: usize, table: &mut [f64]) -> usize
    requires { (n ≤ 1024) × (k + rows_in bytes.now at * n ≤ length table.old) }
    ensures { (result, table.new) ≡ row_filled bytes.now at n k table.old }
{
    if !is_row(bytes, at) {
        return k;
    }
    let end = k + n;
    numbers_into(bytes, content_at(bytes, at), &mut table[k..end]);
    end
}

// The rows, in the order of arrival, to the front of the table.
fn fill_table(bytes: &[u8], n: usize, table: &mut [f64])
    requires { (n ≤ 1024) × (row_count bytes.now (fields_of bytes.now) * n ≤ length table.old) }
    ensures { table.new ≡ fronted (rows_of n bytes.now (fields_of bytes.now)) table.old }
{
    let mut k = 0;
    for at in Fields::of(bytes) {
        k = fill_row(bytes, at, n, k, table);
    }
}

// The rows, the point and the matrix to the fronts of the three slices, which go as in `read_job`, whose caller lends them.
fn fill_job(
    bytes: &[u8],
    places: &[usize; TAGS],
    n: usize,
    table: &mut [f64],
    xc: &mut [f64],
    mq: &mut [f64],
)
    requires { (n ≤ 32) × (row_count bytes.now (fields_of bytes.now) * n ≤ length table.old) × (n ≤ length xc.old) × (n * n ≤ length mq.old) }
    ensures table_after { table.new ≡ fronted (rows_of n bytes.now (fields_of bytes.now)) table.old }
    ensures xc_after { xc.new ≡ fronted (numbers_at bytes.now (place places.now point_place) n) xc.old }
    ensures mq_after { mq.new ≡ fronted (numbers_at bytes.now (place places.now matrix_place) (n * n)) mq.old }
{
    let nn = n * n;
    fill_table(bytes, n, table);
    numbers_into(bytes, places[POINT], &mut xc[..n]);
    numbers_into(bytes, places[MATRIX], &mut mq[..nn]);
}

// Reads a sound record, unless there is no room.
fn read_sound(
    bytes: &[u8],
    places: &[usize; TAGS],
    table: &mut [f64],
    xc: &mut [f64],
    mq: &mut [f64],
) -> Result<Job, Fault>
    requires { ((job_at bytes.now places.now).n ≤ 32) × ((job_at bytes.now places.now).rows ≤ 1024) }
    ensures { (result, table.new, xc.new, mq.new)
        ≡ read_into (full_job_at bytes.now places.now) Sound table.old xc.old mq.old }
{
    let job = job_at(bytes, places);
    if !has_room(job, table.len(), xc.len(), mq.len()) {
        return Err(Fault::from(Refusal::Room));
    }
    fill_job(bytes, places, job.n, table, xc, mq);
    Ok(job)
}

// Reads a job record: its rows to the front of `table`, its point to that of xc, its matrix to that of mq.
pub fn read_job(
    bytes: &[u8],
    table: &mut [f64],
    xc: &mut [f64],
    mq: &mut [f64],
) -> Result<Job, Fault>
    ensures { (result, table.new, xc.new, mq.new) ≡ read_job_answer bytes.now table.old xc.old mq.old }
{
    // fixed memory, since there is no heap
    let mut places = [0usize; TAGS];
    job_fault(bytes, &mut places)?;
    read_sound(bytes, &places, table, xc, mq)
}
