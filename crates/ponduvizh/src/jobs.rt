// The reading of a job. `sizes` becomes n, the rows and the step limit, `bands` nwpass and nwstop, `marks` the cursors of pass, middle and stop, idx1 to idx3 and kmax,
// `numbers` lp_sq, up_sq, sp_sq, kappa and the tolerance; or `place` becomes the place where the record is refused.
ghost use Rattle.std.specs.Prelude.{◌≡◌, ℕ};
ghost use Rattle.drivers.specs.Job.{read_job_answer};
ghost use Rattle.ponduvizh.specs.ExportedRuns.{JobNumbers, bands_of, numbers_of, numbers_read, job_numbers, place_or, job_numbers_or, read_exported};

use crate::run_numbers::put_marks;
use drivers::job::{Job, read_job};
use numbers::refusal::{Fault, number_at};

fn put_bands(job: Job, bands: &mut [i32; 2])
    ensures { bands.new ≡ bands_of job }
{
    *bands = [job.nwpass, job.nwstop];
}

fn put_numbers(job: Job, numbers: &mut [f64; 5])
    ensures { numbers.new ≡ numbers_of job }
{
    let options = job.options;
    *numbers = [
        job.lp_sq,
        job.up_sq,
        job.sp_sq,
        job.kappa,
        options.tolerance,
    ];
}

fn put_job(
    job: Job,
    sizes: &mut [usize; 3],
    bands: &mut [i32; 2],
    marks: &mut [i32; 7],
    numbers: &mut [f64; 5],
)
    ensures { numbers_read sizes.new bands.new marks.new numbers.new ≡ job_numbers job }
{
    let options = job.options;
    *sizes = [job.n, job.rows, options.max_iters as usize];
    put_bands(job, bands);
    put_marks(job.oracle(), marks);
    put_numbers(job, numbers);
}

// What an answer says, in numbers.
fn put_answer(
    answer: Result<Job, Fault>,
    sizes: &mut [usize; 3],
    place: &mut usize,
    bands: &mut [i32; 2],
    marks: &mut [i32; 7],
    numbers: &mut [f64; 5],
)
    ensures { ◌≡◌ {A = ℕ × JobNumbers}
        (place.new, numbers_read sizes.new bands.new marks.new numbers.new)
        (place_or answer place.old, job_numbers_or answer (numbers_read sizes.old bands.old marks.old numbers.old)) }
{
    match answer {
        Err(fault) => {
            *place = fault.place;
        }
        Ok(job) => {
            put_job(job, sizes, bands, marks, numbers);
        }
    }
}

#[unsafe(no_mangle)]
pub extern "C" fn ponduvizh_read_job(
    bytes: &[u8],
    sizes: &mut [usize; 3],
    place: &mut usize,
    bands: &mut [i32; 2],
    marks: &mut [i32; 7],
    numbers: &mut [f64; 5],
    table: &mut [f64],
    xc: &mut [f64],
    mq: &mut [f64],
) -> u64
    ensures { (
      (result, place.new, numbers_read sizes.new bands.new marks.new numbers.new),
      table.new,
      xc.new,
      mq.new,
    )
        ≡ read_exported
        (read_job_answer bytes.now table.old xc.old mq.old) place.old
        (numbers_read sizes.old bands.old marks.old numbers.old) }
{
    let answer = read_job(bytes, table, xc, mq);
    put_answer(answer, sizes, place, bands, marks, numbers);
    number_at(&answer) as u64
}
