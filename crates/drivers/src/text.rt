// Text into a lent slice, piece by piece. A piece that does not fit is not written, and the place stays: no piece asks anything of its caller.
// Digits are not left to `write!`: std's writers into a slice promise nothing of its bytes, and would write a part of what does not fit.
ghost use Rattle.std.specs.Prelude.{◌≡◌, ◌+◌, ◌≤◌, ◌<◌, leb, [], ◌∷◌};
ghost use Rattle.drivers.specs.Text.{digit_char, digits_of, digit_count, decimal, hex};
ghost use Rattle.drivers.specs.laws.Writer.{Puts};

// A digit to a base up to 16, in upper case.
fn digit_char(d: u64) -> u8
    requires { d < 16 }
    ensures { result ≡ digit_char d }
{
    if d < 10 {
        return 48 + d as u8;
    }
    55 + d as u8
}

// A slice that is written piece by piece, and where the next piece begins.
pub(crate) struct Writer<'a> {
    pub(crate) out: &'a mut [u8],
    pub(crate) at: usize,
}

impl<'a> Writer<'a> {
    pub(crate) fn new(out: &'a mut [u8], at: usize) -> Writer<'a>
        ensures place { result.at ≡ at }
        ensures same { result.out.ghost_name ≡ out.entry.ghost_name }
        ensures holds { result.out.now ≡ out.old }
    {
        Writer { out, at }
    }

    pub(crate) fn put_text(&mut self, text: &[u8])
        ensures { Puts self.old self.new (text.now ∷ []) }
    {
        if !has_room(self.out.len(), self.at, text.len()) {
            return;
        }
        let at = self.at;
        let end = at + text.len();
        self.out[at..end].copy_from_slice(text);
        self.at = end;
    }

    // The count lowest digits of w to the base, the highest first.
    fn put_digits(&mut self, w: u64, base: u64, count: usize)
        requires { (2 ≤ base) × (base ≤ 16) }
        ensures { Puts self.old self.new (digits_of base count w ∷ []) }
    {
        if !has_room(self.out.len(), self.at, count) {
            return;
        }
        let at = self.at;
        let end = at + count;
        let mut rest = w;
        for i in (at..end).rev() {
            self.out[i] = digit_char(rest % base);
            rest /= base;
        }
        self.at = end;
    }

    pub(crate) fn put_decimal(&mut self, w: u64)
        ensures { Puts self.old self.new (decimal w ∷ []) }
    {
        self.put_digits(w, 10, digit_count(w));
    }

    // Sixteen digits.
    pub(crate) fn put_hex(&mut self, w: u64)
        ensures { Puts self.old self.new (hex w ∷ []) }
    {
        self.put_digits(w, 16, 16);
    }

    // Where the last piece ended.
    pub(crate) fn end(self) -> usize
        ensures place { result ≡ self.entry.at }
        ensures holds { self.exit.0.now ≡ self.entry.out.now }
    {
        let Writer { out: _, at } = self;
        at
    }
}

// Whether so many bytes from `at` on are within the slice's.
pub(crate) fn has_room(bytes: usize, at: usize, size: usize) -> bool
    ensures { result ≡ leb (at + size) bytes }
{
    if bytes < at {
        return false;
    }
    size <= bytes - at
}

// How many decimal digits w has; 0 has one.
fn digit_count(w: u64) -> usize
    ensures { result ≡ digit_count w }
{
    let mut rest = w;
    let mut count = 1;
    // A `while`, since how often it turns is what it counts.
    while 10 <= rest {
        rest /= 10;
        count += 1;
    }
    count
}
