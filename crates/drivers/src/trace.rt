// The text of a run, as `filterrun` prints it: a line for each cut, then the answer; or one line that says why a job is refused.
ghost use Rattle.std.specs.Prelude.{◌≡◌, [], ◌∷◌, if◌then◌else◌};
ghost use Rattle.drivers.specs.Trace.{group_word, row_text, beta_pieces, status_word, cut_pieces, answer_pieces, last_pieces, ended_pieces, source_word, refused_pieces, refused_line_answer};
ghost use Rattle.drivers.specs.laws.Writer.{Puts};

use crate::answer::Answer;
use crate::cutting_plane_feas::StepAnswer;
use crate::text::Writer;
use numbers::bits::to_bits;
use numbers::cut::{CutChoice, CutStatus};
use numbers::refusal::{Refusal, ask};
use oracles::lowpass_oracle::Group;

// The count of bytes written to the front of the lent slice, or why nothing was written.
pub type Text = Result<usize, Refusal>;

// Which input a refused record came from; only a command that takes two says so, by the line's last word.
#[derive(Clone, Copy)]
pub enum Source {
    Only,
    Job,
    Answer,
}

// The longest text of a step, its cut and the answer, fits.
pub const ROOM: usize = 128;

// ---- the words, matched by hand where Rust would write Display, since `write!` promises nothing of the bytes

fn group_word(group: Group) -> &'static [u8]
    ensures { result.now ≡ group_word group }
{
    match group {
        Group::Pass(_, _) => b" pass ",
        Group::Stop(_, _) => b" stop ",
        Group::Middle(_) => b" middle ",
        Group::Sign => b" sign ",
    }
}

fn status_word(status: CutStatus) -> &'static [u8]
    ensures { result.now ≡ status_word status }
{
    match status {
        CutStatus::Success => b" Success\n",
        CutStatus::NoSoln => b" NoSoln\n",
        CutStatus::NoEffect => b" NoEffect\n",
    }
}

fn source_word(source: Source) -> &'static [u8]
    ensures { result.now ≡ source_word source }
{
    match source {
        Source::Only => b"\n",
        Source::Job => b" job\n",
        Source::Answer => b" answer\n",
    }
}

// ---- the lines

impl Writer<'_> {
    // Three groups have a row, which is a number, and the sign has none.
    fn put_row(&mut self, group: Group)
        ensures { Puts self.old self.new (row_text group ∷ []) }
    {
        match group {
            Group::Pass(row, _) | Group::Stop(row, _) | Group::Middle(row) => {
                self.put_decimal(row as u64)
            }
            Group::Sign => self.put_text(b"-"),
        }
    }

    // One of two words.
    fn put_either(&mut self, is_first: bool, first: &[u8], second: &[u8])
        ensures { Puts self.old self.new ((if is_first then first.now else second.now) ∷ []) }
    {
        if is_first {
            self.put_text(first);
        } else {
            self.put_text(second);
        }
    }

    fn put_betas(&mut self, beta: CutChoice)
        ensures { Puts self.old self.new (beta_pieces beta) }
    {
        match beta {
            CutChoice::Single(beta0) => {
                self.put_hex(to_bits(beta0));
                self.put_text(b" -");
            }
            CutChoice::Parallel(beta0, beta1) => {
                self.put_hex(to_bits(beta0));
                self.put_text(b" ");
                self.put_hex(to_bits(beta1));
            }
        }
    }

    fn put_cut(&mut self, step: u16, group: Group, beta: CutChoice, status: CutStatus)
        ensures { Puts self.old self.new (cut_pieces step group beta status) }
    {
        self.put_decimal(step as u64);
        self.put_text(group_word(group));
        self.put_row(group);
        self.put_either(group.is_over(), b" over ", b" under ");
        self.put_betas(beta);
        self.put_text(status_word(status));
    }

    // What a step prints of itself: nothing, or its cut.
    pub(crate) fn put_step(&mut self, step: u16, answer: StepAnswer)
        ensures { Puts self.old self.new (answer_pieces step answer) }
    {
        if let Ok(made) = answer {
            if let Some(made) = made {
                let cut = made.cut;
                self.put_cut(step, cut.group, cut.beta, made.status);
            }
        }
    }

    // The last line.
    pub(crate) fn put_last(&mut self, answer: Answer)
        ensures { Puts self.old self.new (last_pieces answer) }
    {
        self.put_either(answer.found, b"found ", b"none ");
        self.put_decimal(answer.steps as u64);
        self.put_text(b"\n");
    }

    // The last line of a run that a step ends.
    pub(crate) fn put_ended(&mut self, answer: Result<Answer, Refusal>)
        ensures { Puts self.old self.new (ended_pieces answer) }
    {
        if let Ok(ended) = answer {
            self.put_last(ended);
        }
    }

    fn put_refused(&mut self, source: Source, why: Refusal, place: usize)
        ensures { Puts self.old self.new (refused_pieces source why place) }
    {
        self.put_text(b"refused ");
        self.put_decimal(u8::from(why) as u64);
        self.put_text(b" ");
        self.put_decimal(place as u64);
        self.put_text(source_word(source));
    }
}

// The one line of a record that is refused.
pub(crate) fn refused_line(source: Source, why: Refusal, place: usize, out: &mut [u8]) -> Text
    ensures { (result, out.new) ≡ refused_line_answer source why place out.old }
{
    ask(ROOM <= out.len(), Refusal::Room)?;
    let mut line = Writer::new(out, 0);
    line.put_refused(source, why, place);
    Ok(line.end())
}
