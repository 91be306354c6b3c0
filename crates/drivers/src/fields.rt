// A record's fields, as pieces: what does not fit is not written, and the place stays.
ghost use Rattle.std.specs.Prelude.{◌≡◌, ◌+◌, ◌*◌, ◌<◌, [], ◌∷◌, length};
ghost use Rattle.numbers.specs.Bits.{le_bytes};
ghost use Rattle.drivers.specs.Fields.{header, field_bytes, number_pieces, number_bytes, short_of, short_pieces, short_bytes};
ghost use Rattle.drivers.specs.laws.Writer.{Puts};

use crate::record::HEADER;
use crate::text::{Writer, has_room};
use numbers::bits::{put_bytes, to_bits};

// A whole number from −32,768 to 65,535 as 16 bits: its own, or those of 65,536 more where it is below zero.
fn short_of(z: i32) -> u64
    ensures { result ≡ short_of z }
{
    let size = z.unsigned_abs() as u64;
    if z < 0 {
        return 65536u64.saturating_sub(size);
    }
    size
}

impl Writer<'_> {
    // The k lowest bytes of w.
    pub(crate) fn put_integer(&mut self, k: usize, w: u64)
        ensures { Puts self.old self.new (le_bytes k w ∷ []) }
    {
        if !has_room(self.out.len(), self.at, k) {
            return;
        }
        put_bytes(self.out, self.at, k, w);
        self.at += k;
    }

    // A field's header, for a content of so many bytes.
    pub(crate) fn put_header(&mut self, tag: u8, size: usize)
        requires { size < 65536 }
        ensures { Puts self.old self.new (header tag size ∷ []) }
    {
        self.put_integer(HEADER, tag as u64 + 256 * size as u64);
    }

    // Numbers, eight bytes each.
    fn put_numbers(&mut self, xs: &[f64])
        ensures { Puts self.old self.new (number_pieces xs.now) }
    {
        for x in xs {
            self.put_integer(8, to_bits(*x));
        }
    }

    // Whole numbers, two bytes each.
    fn put_shorts(&mut self, zs: &[i32])
        ensures { Puts self.old self.new (short_pieces zs.now) }
    {
        for z in zs {
            self.put_integer(2, short_of(*z));
        }
    }

    // A field whose content is a number of k bytes.
    pub(crate) fn put_integer_field(&mut self, tag: u8, k: usize, w: u64)
        requires { k < 65536 }
        ensures { Puts self.old self.new (field_bytes (tag, le_bytes k w) ∷ []) }
    {
        if !has_room(self.out.len(), self.at, HEADER + k) {
            return;
        }
        self.put_header(tag, k);
        self.put_integer(k, w);
    }

    // A field whose content is numbers.
    pub(crate) fn put_numbers_field(&mut self, tag: u8, xs: &[f64])
        requires { 8 * length xs.now < 65536 }
        ensures { Puts self.old self.new (field_bytes (tag, number_bytes xs.now) ∷ []) }
    {
        let size = 8 * xs.len();
        if !has_room(self.out.len(), self.at, HEADER + size) {
            return;
        }
        self.put_header(tag, size);
        self.put_numbers(xs);
    }

    // A field whose content is whole numbers of two bytes. It differs from `put_numbers_field` in the numbers' type and size: one function for both would take a trait with a law of its own.
    pub(crate) fn put_shorts_field(&mut self, tag: u8, zs: &[i32])
        requires { 2 * length zs.now < 65536 }
        ensures { Puts self.old self.new (field_bytes (tag, short_bytes zs.now) ∷ []) }
    {
        let size = 2 * zs.len();
        if !has_room(self.out.len(), self.at, HEADER + size) {
            return;
        }
        self.put_header(tag, size);
        self.put_shorts(zs);
    }
}
