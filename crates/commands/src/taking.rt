// A job is taken from its record, or refused.
ghost use Rattle.commands.specs.laws.Taken.{Took};

use crate::sound_job::SoundJob;
use drivers::input::take_job;
use drivers::trace::Source;
use runner::buffers::Buffers;
use runner::handing::hand_text;
use std::io::Write;
use streams::output::{Console, Stream};
use streams::sink::Sink;

// None where the record is refused, whose line is handed over.
pub(crate) fn take_or_refuse<W: Sink, E: Write>(
    console: &mut Console<'_, W, E>,
    source: Source,
    bytes: &[u8],
    buffers: &mut Buffers,
) -> Option<SoundJob>
    ensures { Took W.Sink console.old console.new source bytes.now buffers.old buffers.new result }
{
    let taken = take_job(
        source,
        bytes,
        &mut buffers.table,
        &mut buffers.xc,
        &mut buffers.mq,
        &mut buffers.out,
    );
    match taken {
        Ok(job) => Some(SoundJob { job }),
        Err(text) => {
            hand_text(console, Stream::Stderr, &buffers.out, text);
            None
        }
    }
}
