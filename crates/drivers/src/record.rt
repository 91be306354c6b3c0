// Records: fields of a one-byte tag, a two-byte length and content, in any order. What a job and an answer share: the walk over the fields, by the table of rules.
ghost use Rattle.std.specs.Prelude.{◌≡◌, ◌≤◌, ◌<◌, ◌+◌, ◌*◌, length, Ok};
ghost use Rattle.numbers.specs.Refusal.{unless, At};
ghost use Rattle.std.specs.Iterator.{YieldsFirst, item_count};
ghost use Rattle.drivers.specs.laws.Record.{fields_after};
ghost use Rattle.drivers.specs.Record.{byte_at, length_at, index_at, half_at, number_at, numbers_at, start_of, content_of, is_row, rows_in, after, field_fault, first_place, fields_of, walk_of, missing_fault, record_fault, size_fault, lengths_fault, row_count};

use crate::rules::{Form, ROW_TAG, TAGS, is_of, rule_at, rule_index, rule_length};
use crate::text::has_room;
use numbers::bits::{of_bits, word_at};
use numbers::refusal::{Fault, Refusal};

// A tag, and two bytes of length.
pub(crate) const HEADER: usize = 3;

// ---- a field's header, and numbers in its content. A place goes beside the bytes, and no slice from it: it may lie past the end, where bytes count as 0.

pub(crate) fn byte_at(bytes: &[u8], at: usize) -> u64
    ensures { result ≡ byte_at bytes.now at }
{
    word_at(bytes, at) % 256
}

pub(crate) fn length_at(bytes: &[u8], at: usize) -> usize
    ensures { result ≡ length_at bytes.now at }
{
    (word_at(bytes, at) / 256 % 65536) as usize
}

pub(crate) fn half_at(bytes: &[u8], at: usize) -> usize
    ensures { result ≡ half_at bytes.now at }
{
    (word_at(bytes, at) % 65536) as usize
}

// Number k of the content that begins at p.
pub(crate) fn number_at(bytes: &[u8], p: usize, k: usize) -> f64
    requires { k ≤ 32768 }
    ensures { result ≡ number_at bytes.now p k }
{
    if bytes.len() < p {
        return 0.0;
    }
    of_bits(word_at(&bytes[p..], 8 * k))
}

// The numbers of a content that begins at p and stands whole in the record: a load each, with no test of its place.
fn whole_numbers_into(bytes: &[u8], p: usize, out: &mut [f64])
    requires { p + 8 * length out.old ≤ length bytes.now }
    ensures { out.new ≡ numbers_at bytes.now p (length out.old) }
{
    for k in 0..out.len() {
        let at = p + 8 * k;
        let end = at + 8;
        out[k] = of_bits(word_at(&bytes[at..end], 0));
    }
}

// The numbers of the content that begins at p, as many as `out` takes.
pub(crate) fn numbers_into(bytes: &[u8], p: usize, out: &mut [f64])
    requires { length out.old ≤ 32768 }
    ensures { out.new ≡ numbers_at bytes.now p (length out.old) }
{
    if has_room(bytes.len(), p, 8 * out.len()) {
        return whole_numbers_into(bytes, p, out);
    }
    for (k, number) in out.iter_mut().enumerate() {
        *number = number_at(bytes, p, k);
    }
}

// The first byte of the field whose content begins at p.
pub(crate) fn start_of(p: usize) -> usize
    ensures { result ≡ start_of p }
{
    if p < HEADER {
        return 0;
    }
    p - HEADER
}

// Where a field's content begins; the end where its header is cut short.
pub(crate) fn content_at(bytes: &[u8], at: usize) -> usize
    ensures { result ≡ content_of bytes.now at }
{
    if !has_room(bytes.len(), at, HEADER) {
        return bytes.len();
    }
    at + HEADER
}

// Whether the field is a row of the table: by its tag, since a search of the rules costs more.
pub(crate) fn is_row(bytes: &[u8], at: usize) -> bool
    ensures { result ≡ is_row bytes.now at }
{
    byte_at(bytes, at) == ROW_TAG as u64
}

// ---- the walk, front to back. A field is the place where it begins, which a refusal says, and not a slice.

// Where the next field begins; the end where this one is cut short.
pub(crate) fn next_field(bytes: &[u8], at: usize) -> usize
    ensures { result ≡ after bytes.now at }
{
    let whole = HEADER + length_at(bytes, at);
    if !has_room(bytes.len(), at, whole) {
        return bytes.len();
    }
    at + whole
}

// Where a record's fields begin, front to back.
#[derive(Drop)]
pub(crate) struct Fields<'a> {
    bytes: &'a [u8],
    at: usize,
}

impl<'a> Iterator for Fields<'a> {
    type Item = usize;

    ghost next_gives = { YieldsFirst (λ s. fields_after s.bytes.now s.at) };

    ghost remaining = { item_count (λ s. fields_after s.bytes.now s.at) };

    fn next(&mut self) -> Option<usize> {
        if self.at < self.bytes.len() {
            let at = self.at;
            self.at = next_field(self.bytes, at);
            return Some(at);
        }
        None
    }
}

impl<'a> Fields<'a> {
    pub(crate) fn of(bytes: &'a [u8]) -> Fields<'a>
        ensures { fields_after result.bytes.now result.at ≡ fields_of bytes.now }
    {
        Fields { bytes, at: 0 }
    }
}

// The tests of one field, in document 01's order; its tag's place in the table.
fn field_index(bytes: &[u8], form: Form, places: &[usize; TAGS], at: usize) -> Result<usize, Fault>
    ensures { result ≡ unless (field_fault bytes.now form places.now at) (λ why place. At why place) (Ok (index_at bytes.now at)) }
{
    if !has_room(bytes.len(), at, HEADER) {
        return Err(Fault {
            why: Refusal::CutShort,
            place: at,
        });
    }
    let i = rule_index(byte_at(bytes, at));
    let rule = rule_at(i);
    if !is_of(form, rule) {
        return Err(Fault {
            why: Refusal::ForeignTag,
            place: at,
        });
    }
    if (places[i] != 0) & !rule.repeats() {
        return Err(Fault {
            why: Refusal::RepeatedTag,
            place: at,
        });
    }
    if !has_room(bytes.len(), at, HEADER + length_at(bytes, at)) {
        return Err(Fault {
            why: Refusal::CutShort,
            place: at,
        });
    }
    Ok(i)
}

// A tag's place when one more field of it is met. Where it has none the place is 0, which is no content's, since a header stands before it. No Option: whoever reads at a place takes any number.
fn first_place(old: usize, p: usize) -> usize
    ensures { result ≡ first_place old p }
{
    if old == 0 {
        return p;
    }
    old
}

// Tests every field and notes, for each tag of the table, where the content of its first field begins.
fn walk(bytes: &[u8], form: Form, places: &mut [usize; TAGS]) -> Result<(), Fault>
    ensures { (result, places.new) ≡ walk_of bytes.now form (fields_of bytes.now) places.old }
{
    for at in Fields::of(bytes) {
        let i = field_index(bytes, form, places, at)?;
        places[i] = first_place(places[i], content_at(bytes, at));
    }
    Ok(())
}

// Refusal 10, at the record's end.
fn missing_fault(end: usize, form: Form, places: &[usize; TAGS]) -> Result<(), Fault>
    ensures { result ≡ missing_fault end form places.now }
{
    for i in 0..TAGS {
        let rule = rule_at(i);
        if is_of(form, rule) & !rule.is_optional() & (places[i] == 0) {
            return Err(Fault {
                why: Refusal::MissingTag,
                place: end,
            });
        }
    }
    Ok(())
}

// The walk, and refusal 10 after it.
pub(crate) fn record_fault(
    bytes: &[u8],
    form: Form,
    places: &mut [usize; TAGS],
) -> Result<(), Fault>
    ensures { (result, places.new) ≡ record_fault bytes.now form places.old }
{
    walk(bytes, form, places)?;
    missing_fault(bytes.len(), form, places)
}

// Of a tag that gives a dimension: its own length, then its range.
pub(crate) fn size_fault(bytes: &[u8], rule: usize, least: usize, p: usize) -> Result<(), Fault>
    ensures { result ≡ size_fault rule least bytes.now p }
{
    let place = start_of(p);
    if length_at(bytes, place) != rule_length(rule, 0) {
        return Err(Fault {
            why: Refusal::Length,
            place,
        });
    }
    let size = half_at(bytes, p);
    if !((least <= size) & (size <= 32)) {
        return Err(Fault {
            why: Refusal::Dimension,
            place,
        });
    }
    Ok(())
}

// Refusal 2: the first field, in record order, whose length is not its rule's. Every tag is in the table.
pub(crate) fn lengths_fault(bytes: &[u8], n: usize) -> Result<(), Fault>
    requires { n ≤ 32 }
    ensures { result ≡ lengths_fault n bytes.now (fields_of bytes.now) }
{
    for at in Fields::of(bytes) {
        let i = rule_index(byte_at(bytes, at));
        if length_at(bytes, at) != rule_length(i, n) {
            return Err(Fault {
                why: Refusal::Length,
                place: at,
            });
        }
    }
    Ok(())
}

fn rows_in(bytes: &[u8], at: usize) -> usize
    ensures { result ≡ rows_in bytes.now at }
{
    is_row(bytes, at) as usize
}

// How many rows a record has. `filter` and `count` would say it in a line; their proof over these fields did not close.
pub(crate) fn count_rows(bytes: &[u8]) -> usize
    ensures { result ≡ row_count bytes.now (fields_of bytes.now) }
{
    let mut rows = 0;
    for at in Fields::of(bytes) {
        rows += rows_in(bytes, at);
    }
    rows
}
