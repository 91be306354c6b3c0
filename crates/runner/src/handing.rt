// Texts at the front of a slice, handed over.
ghost use Rattle.drivers.specs.Trace.{text_in};
ghost use Rattle.std.specs.Prelude.{take};
ghost use Rattle.streams.specs.Output.{Hands};

use drivers::trace::Text;
use std::io::Write;
use streams::output::{Console, Stream};
use streams::sink::Sink;

// The first bytes of `out`, so many, or all. The count goes beside the slice, so that no caller has to show that it lies within.
pub fn hand_front<W: Sink, E: Write>(
    console: &mut Console<'_, W, E>,
    to: Stream,
    out: &[u8],
    count: usize,
)
    ensures { Hands W.Sink console.old console.new to (take count out.now) }
{
    console.hand(to, &out[..count.min(out.len())]);
}

pub fn hand_text<W: Sink, E: Write>(
    console: &mut Console<'_, W, E>,
    to: Stream,
    out: &[u8],
    text: Text,
)
    ensures { Hands W.Sink console.old console.new to (text_in text out.now) }
{
    if let Ok(count) = text {
        hand_front(console, to, out, count);
    }
}
