// Handing texts over. Of standard output the writes are promised, and where its writer's contents are known, these. Each byte that is handed over is also taken into a number,
// the mark, which contracts name: of standard error it is all that is promised.
// The programs have no exit status of their own: a write to standard output that fails is said on standard error.
ghost use Rattle.std.specs.Prelude.{◌≡◌, false, [], length};
ghost use Rattle.streams.specs.Input.{Within};
ghost use Rattle.streams.specs.Output.{no_marks, Hands, Keeps};
ghost use Rattle.streams.specs.declared.output.Stream.TheVariants.{Stdout};

use crate::failure::tell;
use crate::input::{read_all, read_argument};
use crate::mark::mark_on;
use crate::sink::Sink;
use std::io::{Read, Write};
use std::rt::{Env, Files};

#[derive(Clone, Copy)]
pub enum Stream {
    Stdout,
    Stderr,
}

// The marks of all that was handed to each stream.
#[derive(Clone, Copy)]
pub struct Marks {
    pub stdout: u64,
    pub stderr: u64,
}

// What was handed over in all, and whether a write to standard output failed: what came after it was not written there. The marks count either way, so it is no Result.
#[derive(Clone, Copy)]
pub struct Handed {
    pub marks: Marks,
    pub has_failed: bool,
}

// A program's two writers, and what was handed to them.
pub struct Console<'a, W, E> {
    output: &'a mut W,
    errors: &'a mut E,
    handed: Handed,
}

impl<'a, W: Sink, E: Write> Console<'a, W, E> {
    pub fn new(output: &'a mut W, errors: &'a mut E) -> Console<'a, W, E>
        ensures handed { result.handed ≡ record { marks = no_marks; has_failed = false } }
        ensures same { result.output.ghost_name ≡ output.entry.ghost_name }
        ensures holds { result.output.now ≡ output.old }
    {
        Console {
            output,
            errors,
            handed: Handed {
                marks: Marks {
                    stdout: 1,
                    stderr: 1,
                },
                has_failed: false,
            },
        }
    }

    // Reads an input to its end. What is told of a read that fails is no text of the program's and has no part in the marks.
    pub fn read_all<R: Read>(
        &mut self,
        input: &mut R,
        name: &[u8],
        bytes: &mut [u8],
    ) -> Option<usize>
        ensures within { Within result (length bytes.old) }
        ensures kept { Keeps self.old self.new }
        ensures told { Hands W.Sink self.old self.new Stdout [] }
    {
        read_all(input, self.errors, name, bytes)
    }

    // Reads the file that argument i names.
    pub fn read_argument<R: Files + Env>(
        &mut self,
        rt: &R,
        i: usize,
        bytes: &mut [u8],
    ) -> Option<usize>
        ensures within { Within result (length bytes.old) }
        ensures kept { Keeps self.old self.new }
        ensures told { Hands W.Sink self.old self.new Stdout [] }
    {
        read_argument(rt, self.errors, i, bytes)
    }

    // Hands a text to standard output, unless a write has failed before, so that what arrives is the front of the whole.
    fn print(&mut self, text: &[u8])
        ensures { Hands W.Sink self.old self.new Stdout text.now }
    {
        self.handed.marks.stdout = mark_on(self.handed.marks.stdout, text);
        if self.handed.has_failed {
            return;
        }
        if let Err(error) = self.output.put(text) {
            self.handed.has_failed = true;
            tell(self.errors, b"standard output", error);
        }
    }

    // Hands a text over, after those before it. What cannot be written to standard error can be told nowhere.
    pub fn hand(&mut self, to: Stream, text: &[u8])
        ensures { Hands W.Sink self.old self.new to text.now }
    {
        match to {
            Stream::Stdout => self.print(text),
            Stream::Stderr => {
                self.handed.marks.stderr = mark_on(self.handed.marks.stderr, text);
                let _ = self.errors.write_all(text);
            }
        }
    }

    // Hands over no more.
    pub fn end(self) -> Handed
        ensures handed { result ≡ self.entry.handed }
        ensures holds { self.exit.0.now ≡ self.entry.output.now }
    {
        let Console {
            output: _,
            errors: _,
            handed: all,
        } = self;
        all
    }
}
