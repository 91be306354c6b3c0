// The answer record: tag 20, 21 and, if a point was found, 22. Its reader takes the tags in any order, its writer puts them in rising order.
ghost use Rattle.numbers.specs.Refusal.{Sound};
ghost use Rattle.std.specs.Prelude.{◌≡◌, true, map, ◌+◌, ◌*◌, ◌≤◌, length};
ghost use Rattle.numbers.specs.Pick.{pick};
ghost use Rattle.drivers.specs.Record.{no_places, fronted};
ghost use Rattle.drivers.specs.Fields.{field_bytes};
ghost use Rattle.drivers.specs.Answer.{outcome_byte, answer_walk, outcome_fault, answer_at, point_at, has_point, read_answer_answer, answer_fields, write_answer_answer, read_answer_tests};
ghost use Rattle.drivers.specs.laws.Answer.{content_fault};
ghost use Rattle.drivers.specs.laws.Text.{put_all};

use crate::record::{
    HEADER, byte_at, half_at, lengths_fault, numbers_into, record_fault, start_of,
};
use crate::rules::{ANSWER, FOUND, FOUND_TAG, OUTCOME, OUTCOME_TAG, STEPS, STEPS_TAG, TAGS};
use crate::text::Writer;
use numbers::arr::{dimension, lengths};
use numbers::refusal::{Fault, Refusal, ask};

// What a run answers, and a record keeps, beside the point: whether there is one, and the steps.
// `found` is a flag: the steps count either way, and the point stands in a lent slice, so that an Option would have nothing to hold.
#[derive(Clone, Copy)]
pub struct Answer {
    pub found: bool,
    pub steps: u16,
}

// The outcome, one byte of a record.
fn outcome_byte(found: bool) -> u64
    ensures { result ≡ outcome_byte «found» }
{
    found as u64
}

// Refusal 12, at tag 20: the outcome is not that of a record with, or without, tag 22.
fn outcome_fault(bytes: &[u8], places: &[usize; TAGS]) -> Result<(), Fault>
    ensures { result ≡ outcome_fault bytes.now places.now }
{
    let outcome = places[OUTCOME];
    if byte_at(bytes, outcome) != outcome_byte(places[FOUND] != 0) {
        return Err(Fault {
            why: Refusal::Outcome,
            place: start_of(outcome),
        });
    }
    Ok(())
}

// The tests that follow the walk: the lengths, 12, and the room for a point.
fn content_fault(n: usize, bytes: &[u8], places: &[usize; TAGS], room: usize) -> Result<(), Fault>
    requires { n ≤ 32 }
    ensures { result ≡ content_fault n bytes.now places.now room }
{
    lengths_fault(bytes, n)?;
    outcome_fault(bytes, places)?;
    if (places[FOUND] != 0) & (room < n) {
        return Err(Fault::from(Refusal::Room));
    }
    Ok(())
}

// The first fault of an answer record, in document 01's order, 11 the last; `places` becomes where the contents of its tags begin.
fn answer_fault(
    n: usize,
    bytes: &[u8],
    places: &mut [usize; TAGS],
    room: usize,
) -> Result<(), Fault>
    requires { places.old ≡ no_places }
    ensures value { result ≡ read_answer_tests n bytes.now room }
    ensures places_after { result ≡ Sound → places.new ≡ (answer_walk bytes.now).1 }
{
    dimension(n)?;
    record_fault(bytes, ANSWER, places)?;
    content_fault(n, bytes, places, room)
}

// What a sound record says, its point at the front of `point`.
fn fill_answer(n: usize, bytes: &[u8], places: &[usize; TAGS], point: &mut [f64]) -> Answer
    requires { (n ≤ 32) × (has_point places.now ≡ true → n ≤ length point.old) }
    ensures value { result ≡ answer_at bytes.now places.now }
    ensures point_after { point.new ≡ fronted (point_at n bytes.now places.now) point.old }
{
    let steps = half_at(bytes, places[STEPS]) as u16;
    if places[FOUND] == 0 {
        return Answer {
            found: false,
            steps,
        };
    }
    numbers_into(bytes, places[FOUND], &mut point[..n]);
    Answer { found: true, steps }
}

// Reads an answer record; a point goes to the front of `point`.
pub fn read_answer(n: usize, bytes: &[u8], point: &mut [f64]) -> Result<Answer, Fault>
    ensures { (result, point.new) ≡ read_answer_answer n bytes.now point.old }
{
    // fixed memory, since there is no heap
    let mut places = [0usize; TAGS];
    answer_fault(n, bytes, &mut places, point.len())?;
    Ok(fill_answer(n, bytes, &places, point))
}

// The bytes of a record without a point: two headers, an outcome of one byte and steps of two.
const WITHOUT_POINT: usize = 9;

// The bytes of an answer's record: tag 22, if there is one, has a header and n numbers.
fn answer_size(n: usize, found: bool) -> usize
    requires { n ≤ 32 }
    ensures { result ≡ pick «found» (12 + 8 * n) 9 }
{
    if !found {
        return WITHOUT_POINT;
    }
    WITHOUT_POINT + HEADER + 8 * n
}

// The fields of an answer at the front of `out`; where they end.
fn put_answer(out: &mut [u8], answer: Answer, point: &[f64]) -> usize
    requires { length point.now ≤ 32 }
    ensures { (result, out.new) ≡ put_all out.old 0 (map field_bytes (answer_fields answer point.now)) }
{
    let mut record = Writer::new(out, 0);
    record.put_integer_field(OUTCOME_TAG, 1, outcome_byte(answer.found));
    record.put_integer_field(STEPS_TAG, 2, answer.steps as u64);
    if !answer.found {
        return record.end();
    }
    record.put_numbers_field(FOUND_TAG, point);
    record.end()
}

// Writes an answer record to the front of `out`: n numbers of `point`, if one was found. How many bytes it has.
pub fn write_answer(
    n: usize,
    answer: Answer,
    point: &[f64],
    out: &mut [u8],
) -> Result<usize, Refusal>
    ensures { (result, out.new) ≡ write_answer_answer n answer point.now out.old }
{
    dimension(n)?;
    lengths(point.len() == n)?;
    ask(answer_size(n, answer.found) <= out.len(), Refusal::Room)?;
    Ok(put_answer(out, answer, point))
}
