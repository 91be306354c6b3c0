// The mark of a text: one number of all its bytes, which contracts can name.
ghost use Rattle.std.specs.Prelude.{◌≡◌};
ghost use Rattle.streams.specs.Mark.{marked};

const PRIME: u64 = 0xff_ffff_ffff_fffb;

// The mark with the bytes of the text.
pub fn mark_on(from: u64, text: &[u8]) -> u64
    ensures { result ≡ marked from text.now }
{
    text.iter()
        .fold(from, |mark, byte| mark % PRIME * 256 + *byte as u64)
}
