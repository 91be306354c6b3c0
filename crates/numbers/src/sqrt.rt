// The square root of IEEE 754, from f64 and its bits (document 01, "Root"; it stands for `f64::sqrt`).
ghost use Rattle.std.specs.Prelude.{◌≡◌, true, ◌+◌, ◌-◌, ◌*◌, ◌≤◌, ◌<◌, ◌^◌, T};
ghost use Rattle.std.specs.Float.{binary64};
ghost use Rattle.std.specs.Float.Ieee.{of_bits};
ghost use Rattle.std.specs.Float.Ieee.Positive.{positive};
ghost use Rattle.numbers.specs.Sqrt.{sqrt_of, NearestRoot};
ghost use Rattle.numbers.specs.laws.Isqrt.{IsRoot};
ghost use Rattle.numbers.specs.laws.Rounded.{SquareOfBits};

// The bits of minus zero and of plus infinity.
const SIGN: u64 = 0x8000_0000_0000_0000;

const INFINITY: u64 = 0x7ff0_0000_0000_0000;

// 2 ^ 52: the weight of the exponent's field, and of a significand's leading digit.
const HIDDEN: u64 = 0x0010_0000_0000_0000;

// The bits of a number above zero and below plus infinity.
#[derive(Clone, Copy)]
struct Positive {
    bits: u64,
    ghost above: { 0 < bits },
    ghost below: { bits < 0x7ff0_0000_0000_0000 },
}

// The square of a root in units, as m × 2 ^ 54 × 4 ^ g.
#[derive(Clone, Copy)]
struct Square {
    m: u64,
    g: u64,
}

// A significand of 53 digits, and how many places it was shifted up.
#[derive(Clone, Copy)]
struct Normal {
    m: u64,
    shift: u64,
}

// A subnormal's digits moved up until the leading one is there: as many turns as it has zeros in front.
fn normalise(digits: u64) -> Normal
    requires { (0 < digits) × (digits < 2 ^ 53) }
    ensures { (result.m ≡ digits * 2 ^ result.shift) × (2 ^ 52 ≤ result.m) × (result.m < 2 ^ 53) × (result.shift ≤ 52) }
{
    let mut m = digits;
    let mut shift: u64 = 0;
    while m < HIDDEN {
        m = m * 2;
        shift += 1;
    }
    Normal { m, shift }
}

// m × 2 ^ e with an even exponent.
fn halved(m: u64, e: u64) -> Square
    requires { (2 ^ 52 ≤ m) × (m < 2 ^ 53) × (1022 ≤ e) × (e ≤ 3119) }
    ensures { (result.m * 2 ^ 54 * 4 ^ result.g ≡ m * 2 ^ e) × (2 ^ 52 ≤ result.m) × (result.m ≤ 2 ^ 54 - 2) × (result.g ≤ 1532) }
{
    if e % 2 == 0 {
        return Square { m, g: e / 2 - 27 };
    }
    Square {
        m: m * 2,
        g: e / 2 - 27,
    }
}

// The whole part of √(m × 2 ^ 54), a digit a turn: rest is what the square of the digits so far leaves, d the digits of m to come.
fn root_digits(m: u64) -> u64
    requires { m < 2 ^ 54 }
    ensures { IsRoot (m * 2 ^ 54) result }
{
    let mut a: u64 = 0;
    let mut rest: u64 = 0;
    let mut d = m;
    for _ in 0..54u64 {
        rest = rest * 4 + d / HIDDEN;
        d = d % HIDDEN * 4;
        a = a * 2;
        if 2 * a < rest {
            rest = rest - (2 * a + 1);
            a = a + 1;
        }
    }
    a
}

// Whether q is √(m × 2 ^ 52) rounded: q² - q < m × 2 ^ 52 ≤ q² + q. With q = high × 2 ^ 27 + low the difference left - right is
// m × 2 ^ 52 + q - q²; each test before it refuses what is too far off to be held in 64 bits.
fn is_rounded(m: u64, q: u64) -> bool
    requires { (m < 2 ^ 54) × (q < 2 ^ 53) }
    ensures { result ≡ true → (q * q < m * 2 ^ 52 + q) × (m * 2 ^ 52 ≤ q * q + q) }
{
    let high = q / 0x800_0000;
    let low = q % 0x800_0000;
    let square = 4 * (high * high);
    if m + 2 < square {
        return false;
    }
    let a = m + 2 - square;
    if a > 0x4000_0000 {
        return false;
    }
    let cross = high * low;
    if a * 0x100_0000 < cross {
        return false;
    }
    let b = a * 0x100_0000 - cross;
    if b > 0x8000_0000 {
        return false;
    }
    let left = b * 0x1000_0000 + q;
    let right = 0x20_0000_0000_0000 + low * low;
    (right < left) & (left <= right + 2 * q)
}

impl Positive {
    // The square of its root.
    fn square(self) -> Square
        ensures { SquareOfBits self.bits result.m result.g }
    {
        let field = self.bits / HIDDEN;
        let digits = self.bits % HIDDEN;
        if field == 0 {
            let s = normalise(digits);
            return halved(s.m, 1074 - s.shift);
        }
        halved(HIDDEN + digits, field + 1073)
    }

    // Its root: 54 digits a of it, rounded to 53. Where the last digit is 1 the root lies
    // above the middle: a is odd, so a² is odd and below the even number whose root is sought.
    fn root(self) -> f64
        ensures { result ≡ sqrt_of (of_bits binary64 self.bits) }
    {
        let s = self.square();
        let a = root_digits(s.m);
        f64::from_bits((s.g + 1) * HIDDEN + (a + 1) / 2)
    }

    // A guess at the root of x, which has these bits, of which nothing is proved. Half of the pattern gives a y near 1 / √x. Two steps of Newton's method take g to √x
    // and h to 1 / (2 √x), with constants that make the largest error least. The last step adds the remainder x - g * g times h, corrected for h's own
    // error. `top` is g1 with 26 digits, so that its square is exact, and the remainder nearly so.
    // A step that overflows or loses digits gives a wrong guess, which `is_rounded` refuses.
    fn guess(self, x: f64) -> f64 {
        let y = f64::from_bits(0x5fe4_0000_0000_0000 - self.bits / 2);
        let g0 = x * y;
        let large = g0 * 2e8;
        let r1 = 1.68191 - g0 * (0.70395 * y);
        let g1 = g0 * r1;
        let h1 = 0.5 * y * r1;
        let top = g1 + large - large;
        let rest = x - top * top;
        let r2 = 1.5000003 - g1 * h1;
        let g = g1 * r2;
        let h = h1 * r2;
        let left = rest - (g - top) * (g + top);
        g + left * (1.5 * h * (1.1666666666667867 - g * h))
    }

    // The same root for x, which has these bits: the guess, where it is the rounded root.
    fn guessed_root(self, x: f64) -> f64
        ensures { result ≡ sqrt_of (of_bits binary64 self.bits) }
    {
        let s = self.square();
        let r = self.guess(x);
        if r == r {
            let w = f64::to_bits(r);
            if w / HIDDEN == s.g + 2 {
                if is_rounded(s.m, HIDDEN + w % HIDDEN) {
                    return f64::from_bits(w);
                }
            }
        }
        self.root()
    }
}

// A normal number above zero comes first, being the usual case. What is left at the end is a zero or plus infinity. The second `ensures` is IEEE 754's root.
pub fn sqrt(x: f64) -> f64
    ensures value { result ≡ sqrt_of x }
    ensures nearest_root { T (positive x) → NearestRoot x result }
{
    if x != x {
        return 0.0 / 0.0;
    }
    let bits = f64::to_bits(x);
    if (HIDDEN <= bits) & (bits < INFINITY) {
        return Positive { bits }.guessed_root(x);
    }
    if (0 < bits) & (bits < INFINITY) {
        return Positive { bits }.root();
    }
    if SIGN < bits {
        return 0.0 / 0.0;
    }
    x
}
