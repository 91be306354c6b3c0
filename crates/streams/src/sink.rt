// A writer of texts, whose writes contracts can name.
ghost use Rattle.std.specs.Prelude.{◌≡◌, ℕ, Bool, false, List, Option, OnOk, is_err};
ghost use Rattle.std.specs.Io.KnownBytes.{Appends};

use std::io::{Error, Write};

// What takes a program's texts. std promises nothing of a write that fails, so what a write may come to is a relation of the writer's own.
// Nothing but a `put` can show it, so that code over a `Sink` can say of no text that it was written, or that it failed, without one.
pub trait Sink {
    // The bytes that it holds, where they are known.
    ghost contents: { Self → Option (List ℕ) };

    // From a writer and a text, whether the write failed and what it left.
    ghost put_gives: { Self → List ℕ → Bool → Self → Type 0 };

    fn put(&mut self, text: &[u8]) -> Result<(), Error>
        ensures given { put_gives self.old text.now (is_err result) self.new }
        ensures appended { OnOk result (Appends (contents self.old) (contents self.new) text.now) };
}

// At std's writers the relation is what `write_all` promises.
impl<W: Write> Sink for W {
    ghost contents = { W.contents };

    ghost put_gives = { λ w text failed v. failed ≡ false → Appends (W.contents w) (W.contents v) text };

    fn put(&mut self, text: &[u8]) -> Result<(), Error> {
        self.write_all(text)
    }
}
