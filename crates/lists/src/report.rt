// The lines that a replay prints, and its counts. Cases and words are counted from 1. A line that cannot be written is lost, and the replay goes on.
ghost use Rattle.std.specs.Prelude.{◌≡◌};
ghost use Rattle.lists.specs.Tally.{verdict_of, empty, tallied, damaged_of, taken_of, none_differ};
ghost use Rattle.lists.specs.Case.{Whole};

use crate::case::{Case, Damage, next_case};
use crate::tally::{Counts, Replayed, Tally, Unreplayed, Verdict, compare};
use crate::words::word;
use std::io::{Read, Write};
use std::{fmt, io};

// What stands at a place of an answer.
#[derive(Clone, Copy)]
enum Shown {
    Word(u64),
    Missing,
    Why(Unreplayed),
}

impl fmt::Display for Shown {
    fn fmt<W: fmt::Write>(&self, f: &mut fmt::Formatter<W>) -> fmt::Result {
        match self {
            Shown::Word(w) => write!(f, "{w:016X}"),
            Shown::Missing => write!(f, "none"),
            Shown::Why(why) => write!(f, "{why}"),
        }
    }
}

// Place k of an answer, which may lie past the end (words.rt).
fn place_of(bytes: &[u8], replayed: Replayed, k: usize) -> Shown {
    match replayed {
        Ok(n) if k < n => Shown::Word(word(bytes, k)),
        Ok(_) => Shown::Missing,
        Err(why) => Shown::Why(why),
    }
}

impl fmt::Display for Counts {
    fn fmt<W: fmt::Write>(&self, f: &mut fmt::Formatter<W>) -> fmt::Result {
        write!(f, "{} agree, {} differ", self.agree, self.differ)
    }
}

// Where the lines go, the counts, and the place in the list of the case that is looked at.
#[derive(Drop)]
pub struct Report<W> {
    pub output: W,
    pub tally: Tally,
    pub position: u64,
}

impl<W: Write> Report<W> {
    pub fn new(output: W) -> Report<W>
        ensures { result.tally ≡ empty }
    {
        Report {
            output,
            tally: Tally::new(),
            position: 1,
        }
    }

    fn print_difference(&mut self, op: u64, k: usize, expected: Shown, got: Shown) -> io::Result<()>
        ensures same { self.new.tally ≡ self.old.tally }
        ensures place { self.new.position ≡ self.old.position }
    {
        let position = self.position;
        let number = k.wrapping_add(1);
        writeln!(
            self.output,
            "case {position}, operation {op}, word {number}: expected {expected}, got {got}"
        )
    }

    // Compares what came of a case with what is expected, prints an operation's first difference, and counts.
    pub fn judge(&mut self, case: Case, expected: &[u8], replayed: Replayed, got: &[u8])
        ensures counted { self.new.tally ≡ tallied self.old.tally case.op (verdict_of case.outs expected.now replayed got.now) }
        ensures place { self.new.position ≡ self.old.position }
    {
        let verdict = compare(case.outs, expected, replayed, got);
        if let Verdict::Differs(k) = verdict {
            if self.tally.is_first(case.op) {
                let there = place_of(expected, Ok(case.outs), k);
                let _ = self.print_difference(case.op, k, there, place_of(got, replayed, k));
            }
        }
        self.tally.count(case.op, verdict);
    }

    // Reads the next case; a list that is damaged is counted.
    pub fn take_case<R: Read>(
        &mut self,
        input: &mut R,
        inputs: &mut [u8],
        expected: &mut [u8],
    ) -> Result<Option<Case>, Damage>
        ensures counted { (self.new.tally ≡ taken_of result self.old.tally) × Whole result }
        ensures place { self.new.position ≡ self.old.position }
    {
        let next = next_case(input, inputs, expected);
        if let Err(damage) = next {
            self.damaged(damage);
        }
        next
    }

    // A list that is damaged here: counted as one case that differs, of no operation.
    pub fn damaged(&mut self, damage: Damage)
        ensures counted { self.new.tally ≡ damaged_of self.old.tally }
        ensures place { self.new.position ≡ self.old.position }
    {
        let position = self.position;
        let _ = writeln!(self.output, "case {position}: {damage}");
        self.tally.damaged();
    }

    // A line for each operation that was met.
    fn print_operations(&mut self)
        ensures { self.new.tally ≡ self.old.tally }
    {
        for (op, counts) in self.tally.ops.iter().enumerate() {
            if counts.agree > 0 || counts.differ > 0 {
                let _ = writeln!(self.output, "{op}: {counts}");
            }
        }
    }

    fn print_sums(&mut self) -> io::Result<()>
        ensures { self.new.tally ≡ self.old.tally }
    {
        let unknown = self.tally.unknown;
        if unknown > 0 {
            writeln!(self.output, "unknown: {unknown}")?;
        }
        writeln!(self.output, "{}", self.tally.all)
    }

    // Prints the numbers of each operation that was met, and of all; whether no case differs.
    pub fn print_totals(&mut self) -> bool
        ensures verdict { result ≡ none_differ self.old.tally }
        ensures same { self.new.tally ≡ self.old.tally }
    {
        self.print_operations();
        let _ = self.print_sums();
        self.tally.none_differ()
    }
}
