// The fixed memory of a job: no program has a heap. Scratch and inputs are arrays where they are used: as fields here they would have to be cleared before each use.
ghost use Rattle.std.specs.Prelude.{◌≡◌, replicate};
ghost use Rattle.numbers.specs.F64.{0ᶠ};

// The longest point, matrix and table.
pub const MAX_N: usize = 32;

pub const MAX_SQUARE: usize = 1024;

pub const MAX_TABLE: usize = 32768;

// The longest text: an answer's record, of three headers, an outcome, steps and 32 numbers.
pub const LONGEST_TEXT: usize = 268;

// Arrays that hold every job, and every text.
#[derive(Drop)]
pub struct Buffers {
    pub table: [f64; MAX_TABLE],
    pub mq: [f64; MAX_SQUARE],
    pub xc: [f64; MAX_N],
    pub out: [u8; LONGEST_TEXT],
}

impl Buffers {
    pub fn new() -> Buffers
        ensures { result ≡ record {
          table = replicate 32768 0ᶠ;
          mq = replicate 1024 0ᶠ;
          xc = replicate 32 0ᶠ;
          out = replicate 268 0;
        } }
    {
        Buffers {
            table: [0.0; MAX_TABLE],
            mq: [0.0; MAX_SQUARE],
            xc: [0.0; MAX_N],
            out: [0; LONGEST_TEXT],
        }
    }
}
