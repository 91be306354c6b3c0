// A job with the fact that a run asks of it.
ghost use Rattle.drivers.specs.laws.Job.{JobSound};

use drivers::job::Job;

// A job that was taken: it passes the tests of every run. It goes beside the console and the buffers, which are lent to be written: a struct of the three would be made at two places, and opened
// in each of the three functions that have it.
#[derive(Clone, Copy)]
pub(crate) struct SoundJob {
    pub(crate) job: Job,
    ghost sound: { JobSound job },
}
