// What the arguments of `jobfile` ask for.
ghost use Rattle.std.specs.Prelude.{◌≡◌};
ghost use Rattle.commands.specs.Arguments.{hex_value, limit_of, limits_of, asks, command_of};

use numbers::bits::of_bits;

// Other limits of a job: lp_sq, up_sq and sp_sq, none where the job's own is kept.
#[derive(Clone, Copy)]
pub struct Limits {
    pub lp: Option<f64>,
    pub up: Option<f64>,
    pub sp: Option<f64>,
}

impl Limits {
    pub const OWN: Limits = Limits {
        lp: None,
        up: None,
        sp: None,
    };
}

// A command; `file` is `limits` with the job's own.
#[derive(Clone, Copy)]
pub enum Command {
    Answer,
    Belongs,
    File(Limits),
    Usage,
}

// ---- limits

// A word that says no limit.
#[derive(Clone, Copy)]
struct NoLimit;

// The hexadecimal digits of a float.
const DIGITS: usize = 16;

// The number of 16 hexadecimal digits, of either case.
fn hex_value(word: &[u8]) -> Option<u64>
    ensures { result ≡ hex_value word.now }
{
    if word.len() != DIGITS {
        return None;
    }
    let mut value = 0;
    for i in 0..DIGITS {
        let digit = char::from(word[i]).to_digit(16)?;
        value = value * 16 + u64::from(digit);
    }
    Some(value)
}

// What a word says of one limit: a float's digits, as `filterrun` prints them, or `-`.
fn limit_of(word: &[u8]) -> Result<Option<f64>, NoLimit>
    ensures { result ≡ limit_of word.now }
{
    if word == b"-".as_slice() {
        return Ok(None);
    }
    match hex_value(word) {
        Some(bits) => Ok(Some(of_bits(bits))),
        None => Err(NoLimit),
    }
}

fn limits_of(lp: &[u8], up: &[u8], sp: &[u8]) -> Result<Limits, NoLimit>
    ensures { result ≡ limits_of lp.now up.now sp.now }
{
    let lp = limit_of(lp)?;
    let up = limit_of(up)?;
    let sp = limit_of(sp)?;
    Ok(Limits { lp, up, sp })
}

// ---- commands

// Whether there are so many arguments, the program's own name among them, and the first that follows it is this word.
fn asks(count: usize, word: &[u8], arguments: usize, name: &[u8]) -> bool
    ensures { result ≡ asks count word.now arguments name.now }
{
    (count == arguments) & (word == name)
}

// By how many arguments there are, the program's own name among them, and the first four words that follow it.
pub fn command_of(count: usize, first: &[u8], second: &[u8], third: &[u8], fourth: &[u8]) -> Command
    ensures { result ≡ command_of count first.now second.now third.now fourth.now }
{
    let is_answer = asks(count, first, 2, b"answer");
    let is_belongs = asks(count, first, 4, b"belongs");
    let is_file = asks(count, first, 2, b"file");
    let is_limits = asks(count, first, 5, b"limits");
    if is_answer {
        Command::Answer
    } else if is_belongs {
        Command::Belongs
    } else if is_file {
        Command::File(Limits::OWN)
    } else if is_limits {
        limits_of(second, third, fourth).map_or(Command::Usage, Command::File)
    } else {
        Command::Usage
    }
}
