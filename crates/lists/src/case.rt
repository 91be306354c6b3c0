// A list's cases, one after the other, as they are read.
ghost use Rattle.std.specs.Prelude.{◌≡◌, ◌+◌, ◌≤◌, length, IfOk};
ghost use Rattle.lists.specs.Case.{Whole};

use crate::words::word;
use std::fmt;
use std::io::Read;

// A case that stands whole in the two buffers: its operation, and how many words of input and of output it has.
#[derive(Clone, Copy)]
pub struct Case {
    pub op: u64,
    pub ins: usize,
    pub outs: usize,
}

// Why a list ends before its end.
#[derive(Clone, Copy)]
pub enum Damage {
    CutShort,
    TooLong,
}

impl fmt::Display for Damage {
    fn fmt<W: fmt::Write>(&self, f: &mut fmt::Formatter<W>) -> fmt::Result {
        match self {
            Damage::CutShort => write!(f, "cut short"),
            Damage::TooLong => write!(f, "more than 65536 words"),
        }
    }
}

// The most words that a case has beside its operation and its two counts.
const MOST: usize = 65533;

// One read, to the front of `part`; a read that fails gives nothing.
fn read_some<R: Read>(input: &mut R, part: &mut [u8]) -> usize
    ensures { result ≤ length part.old }
{
    input.read(part).unwrap_or(0)
}

// Reads until the slice is full, the input ends or a read fails; how many bytes came, which tells a list's end from a case that is cut short, and which `read_exact` does not say.
// streams' `fill` is nearly this loop, but a read that fails is an error there and loses the count; here the list ends there. The replays use only the layers that they test.
fn read_full<R: Read>(input: &mut R, bytes: &mut [u8]) -> usize
    ensures { result ≤ length bytes.old }
{
    let mut done = 0;
    while done < bytes.len() {
        let count = read_some(input, &mut bytes[done..]);
        if count == 0 {
            return done;
        }
        done += count;
    }
    done
}

// Reads n words to the front of `bytes`.
fn read_words<R: Read>(input: &mut R, bytes: &mut [u8], n: usize) -> Result<(), Damage> {
    if bytes.len() / 8 < n {
        return Err(Damage::CutShort);
    }
    let end = 8 * n;
    if read_full(input, &mut bytes[..end]) < end {
        return Err(Damage::CutShort);
    }
    Ok(())
}

// Reads a count of words. Arrays of a fixed length here and below: the project has no heap.
fn read_count<R: Read>(input: &mut R) -> Result<u64, Damage> {
    let mut count = [0u8; 8];
    read_words(input, &mut count, 1)?;
    Ok(word(&count, 0))
}

// A count that a case has room for.
fn at_most(count: u64, most: usize) -> Result<usize, Damage>
    ensures { IfOk result (λ n. n ≤ most) }
{
    if count > most as u64 {
        return Err(Damage::TooLong);
    }
    Ok(count as usize)
}

// After a read that gave nothing: whether the input has ended, and no read has failed.
fn has_ended<R: Read>(input: &mut R) -> bool {
    let mut byte = [0u8; 1];
    matches!(input.read(&mut byte), Ok(0))
}

// Reads the next case: its input words to the front of `inputs`, its output words to the front of `expected`. Two buffers of 65,536 words hold every case.
pub fn next_case<R: Read>(
    input: &mut R,
    inputs: &mut [u8],
    expected: &mut [u8],
) -> Result<Option<Case>, Damage>
    ensures { Whole result }
{
    let mut head = [0u8; 16];
    let n = read_full(input, &mut head);
    if n == 0 && has_ended(input) {
        return Ok(None);
    }
    if n < 16 {
        return Err(Damage::CutShort);
    }
    let op = word(&head, 0);
    let ins = at_most(word(&head, 1), MOST)?;
    read_words(input, inputs, ins)?;
    let outs = at_most(read_count(input)?, MOST - ins)?;
    read_words(input, expected, outs)?;
    Ok(Some(Case { op, ins, outs }))
}
