// Bytes that stand eight to a word, the last word filled with zeros.
use lists::inputs::Inputs;
use lists::pushes::Got;
use lists::rooms::{part, part_mut};
use lists::tally::Unreplayed;
use numbers::refusal::Refusal;

// How many words hold so many bytes.
pub(crate) fn words_of(len: usize) -> usize {
    len.div_ceil(8)
}

// The bytes from word k on; none where they do not fit.
pub(crate) fn bytes_at<'a>(inputs: &Inputs<'a>, k: usize, len: usize) -> &'a [u8] {
    part(inputs.bytes, k.saturating_mul(8), len)
}

// Writes the bytes from byte `at` on, if they all fit, as an answer's words are written; where the next ones begin.
// The place is the caller's, since `Got` counts words and a text may end within one.
pub(crate) fn put_bytes(got: &mut Got, at: usize, bytes: &[u8]) -> usize {
    let room = part_mut(&mut got.bytes, at, bytes.len());
    if room.len() == bytes.len() {
        room.copy_from_slice(bytes);
    }
    at.saturating_add(bytes.len())
}

// Fills the word in which the bytes end.
pub(crate) fn pad(got: &mut Got, end: usize) {
    let len = (8 - end % 8) % 8;
    part_mut(&mut got.bytes, end, len).fill(0);
}

// What an output of `len` bytes holds before the call, to byte `at` of the answer; the case gives it from word k on.
pub(crate) fn put_output(got: &mut Got, at: usize, inputs: &Inputs<'_>, k: usize, len: usize) {
    let end = put_bytes(got, at, bytes_at(inputs, k, len));
    pad(got, end);
}

// What a writer answers: the number of its refusal, and how many bytes it wrote.
pub(crate) fn put_written(
    got: &mut Got,
    written: Result<usize, Refusal>,
) -> Result<(), Unreplayed> {
    got.refusal(true, &written)?;
    got.word(written.unwrap_or(0) as u64);
    Ok(())
}
