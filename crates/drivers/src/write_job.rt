// The job record as it is written: tags rising, rows in table order.
ghost use Rattle.std.specs.Prelude.{◌≡◌, ◌*◌, ◌+◌, ◌≤◌, ◌∷◌, [], length, map};
ghost use Rattle.drivers.specs.Fields.{field_bytes};
ghost use Rattle.drivers.specs.Rules.{settings_tag};
ghost use Rattle.drivers.specs.WriteJob.{with_numbers, row_fields, settings_bytes, job_fields, job_size, write_job_answer};
ghost use Rattle.drivers.specs.laws.Text.{put_all};
ghost use Rattle.drivers.specs.laws.Writer.{Puts};

use crate::cutting_plane::Options;
use crate::job::Job;
use crate::record::HEADER;
use crate::rules::{
    BANDS_TAG, CURSORS_TAG, KAPPA_TAG, LIMITS_TAG, MATRIX_TAG, N_TAG, POINT_TAG, ROW_TAG,
    SETTINGS_TAG,
};
use crate::text::{Writer, has_room};
use numbers::arr::{dimension, lengths};
use numbers::bits::to_bits;
use numbers::refusal::{Refusal, ask};
use oracles::table::table_fits;

// The bytes of a record without its rows and without the numbers of point and matrix: eight headers, and the contents of fixed length.
const FIXED: usize = 78;

// The content of tag 09, a step limit of two bytes and a tolerance, as the table has it: a constant, since the table is made anew at each use.
const SETTINGS_SIZE: usize = 10;

// The bytes of the longest job: n = 32, with 1,024 rows.
pub const LONGEST_JOB: usize = 273_742;

// The bytes of a job's record.
fn job_size(n: usize, rows: usize) -> usize
    requires { (n ≤ 32) × (rows ≤ 1024) }
    ensures { result ≡ job_size n rows }
{
    FIXED + 8 * n + 8 * (n * n) + rows * (HEADER + 8 * n)
}

impl Writer<'_> {
    // A field for each row of a table, in table order.
    fn put_rows(&mut self, n: usize, rows: usize, table: &[f64])
        requires { (n ≤ 32) × (rows ≤ 1024) × (length table.now ≡ rows * n) }
        ensures { Puts self.old self.new (map field_bytes (row_fields n table.now rows)) }
    {
        for i in 0..rows {
            let at = i * n;
            let end = at + n;
            self.put_numbers_field(ROW_TAG, &table[at..end]);
        }
    }

    // The step limit and the tolerance.
    fn put_settings_field(&mut self, options: Options)
        ensures { Puts self.old self.new (field_bytes (settings_tag, settings_bytes options) ∷ []) }
    {
        if !has_room(self.out.len(), self.at, HEADER + SETTINGS_SIZE) {
            return;
        }
        self.put_header(SETTINGS_TAG, SETTINGS_SIZE);
        self.put_integer(2, options.max_iters as u64);
        self.put_integer(8, to_bits(options.tolerance));
    }
}

// The fields of a job at the front of `out`; where they end.
fn put_job(out: &mut [u8], job: Job, table: &[f64], xc: &[f64], mq: &[f64]) -> usize
    requires { (job.n ≤ 32) × (job.rows ≤ 1024) × (length table.now ≡ job.rows * job.n) × (length xc.now ≡ job.n) × (length mq.now ≡ job.n * job.n) }
    ensures { (result, out.new) ≡ put_all out.old 0 (map field_bytes (job_fields (with_numbers job table.now xc.now mq.now))) }
{
    let mut record = Writer::new(out, 0);
    record.put_integer_field(N_TAG, 2, job.n as u64);
    record.put_shorts_field(BANDS_TAG, &[job.nwpass, job.nwstop]);
    record.put_numbers_field(LIMITS_TAG, &[job.lp_sq, job.up_sq, job.sp_sq]);
    record.put_rows(job.n, job.rows, table);
    record.put_numbers_field(POINT_TAG, xc);
    record.put_shorts_field(CURSORS_TAG, &[job.cur1, job.cur2, job.cur3]);
    record.put_numbers_field(KAPPA_TAG, &[job.kappa]);
    record.put_numbers_field(MATRIX_TAG, mq);
    record.put_settings_field(job.options);
    record.end()
}

// Writes a job record to the front of `out`: the job, its row table, its point and its matrix. How many bytes it has.
// It refuses what no reader would take, so that what is written is read again.
pub fn write_job(
    job: Job,
    table: &[f64],
    xc: &[f64],
    mq: &[f64],
    out: &mut [u8],
) -> Result<usize, Refusal>
    ensures { (result, out.new) ≡ write_job_answer (with_numbers job table.now xc.now mq.now) out.old }
{
    let n = job.n;
    let oracle = job.oracle();
    dimension(n)?;
    lengths(table_fits(n, job.rows, table.len(), xc.len()) & (mq.len() == n * n))?;
    ask(oracle.bands_fit(job.rows), Refusal::Band)?;
    ask(oracle.cursors_fit(), Refusal::Cursor)?;
    ask(job_size(n, job.rows) <= out.len(), Refusal::Room)?;
    Ok(put_job(out, job, table, xc, mq))
}
