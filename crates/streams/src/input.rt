// Reading an input to its end. Of the bytes no contract can say anything.
ghost use Rattle.std.specs.Prelude.{◌≡◌, ◌≤◌, length, Some, None, IfOk, MatchResult};
ghost use Rattle.streams.specs.Input.{Within};

use crate::failure::tell;
use std::env::FillError;
use std::fs::File;
use std::io::{Error, ErrorKind, Read, Write};
use std::rt::{Env, Files};

// Linux's numbers for a name that is too long and for an argument that is missing.
const ENAMETOOLONG: i32 = 36;

const EINVAL: i32 = 22;

// Reads until the slice is full or the input ends. std has no call that does both: `read_exact` wants the whole slice, and the others a heap.
fn fill<R: Read>(input: &mut R, bytes: &mut [u8]) -> Result<usize, Error>
    ensures { IfOk result (λ count. count ≤ length bytes.old) }
{
    let mut done = 0;
    while done < bytes.len() {
        let count = input.read(&mut bytes[done..])?;
        if count == 0 {
            return Ok(done);
        }
        done += count;
    }
    Ok(done)
}

// How many bytes were read, or none where that failed, which is told on standard error under the input's name.
fn ok_or_tell<E: Write>(errors: &mut E, name: &[u8], read: Result<usize, Error>) -> Option<usize>
    ensures { MatchResult read (λ count. result ≡ Some count) (λ _. result ≡ None) }
{
    match read {
        Ok(count) => Some(count),
        Err(error) => {
            tell(errors, name, error);
            None
        }
    }
}

// How many bytes were read until the slice was full or the input ended.
pub fn read_all<R: Read, E: Write>(
    input: &mut R,
    errors: &mut E,
    name: &[u8],
    bytes: &mut [u8],
) -> Option<usize>
    ensures { Within result (length bytes.old) }
{
    let filled = fill(input, bytes);
    ok_or_tell(errors, name, filled)
}

// Reads the file of this name. std opens none by a name that is not UTF-8.
fn fill_from<R: Files>(rt: &R, name: &[u8], bytes: &mut [u8]) -> Result<usize, Error>
    ensures { IfOk result (λ count. count ≤ length bytes.old) }
{
    match str::from_utf8(name) {
        Ok(text) => {
            let mut file = File::open(rt, text)?;
            fill(&mut file, bytes)
        }
        Err(_) => Err(Error::new(ErrorKind::InvalidFilename, "the name is not UTF-8")),
    }
}

// Reads the file of this name.
pub fn read_file<R: Files, E: Write>(
    rt: &R,
    errors: &mut E,
    name: &[u8],
    bytes: &mut [u8],
) -> Option<usize>
    ensures { Within result (length bytes.old) }
{
    let filled = fill_from(rt, name, bytes);
    ok_or_tell(errors, name, filled)
}

// Why an argument could not be had, by the system's numbers. Both types are std's, so this can be no From.
fn reason(error: FillError) -> Error {
    match error {
        FillError::TooLong => Error::from_raw_os_error(ENAMETOOLONG),
        FillError::NotPresent => Error::from_raw_os_error(EINVAL),
    }
}

// Reads the file that argument i names. The name is read into a fixed array, of Linux's longest name: the project has no heap.
pub fn read_argument<R: Files + Env, E: Write>(
    rt: &R,
    errors: &mut E,
    i: usize,
    bytes: &mut [u8],
) -> Option<usize>
    ensures { Within result (length bytes.old) }
{
    let mut name = [0u8; 4096];
    match rt.arg(i, &mut name) {
        Ok(length) => read_file(rt, errors, &name[..length], bytes),
        Err(error) => {
            tell(errors, b"argument", reason(error));
            None
        }
    }
}
