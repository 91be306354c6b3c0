// A read or a write that failed, told on standard error.
ghost use Rattle.std.specs.Prelude.{◌≤◌, length};

use std::fmt::Display;
use std::io;
use std::io::{Cursor, Error, Write};

// Writes a value's text to the front of `text`, and gives its length.
fn put<D: Display + Drop>(text: &mut [u8], value: D) -> usize
    ensures { result ≤ length text.new }
{
    let mut cursor = Cursor::new(&mut *text);
    let _ = write!(cursor, "{value}");
    let end = cursor.position() as usize;
    end.min(text.len())
}

// The system's reason stands in an error's text before its number. Fixed arrays here and below: the project has no heap, and a text that is longer is cut.
fn put_reason(text: &mut [u8], error: Error) -> usize
    ensures { result ≤ length text.new }
{
    let end = put(text, error);
    match error.raw_os_error() {
        Some(code) => {
            let mut number = [0u8; 32];
            end.saturating_sub(put(&mut number, format_args!(" (os error {code})")))
        }
        None => end,
    }
}

// Writes one line: the name of what failed, a colon and the reason. If that fails too, it can be told nowhere.
pub(crate) fn tell<E: Write>(errors: &mut E, name: &[u8], error: Error) {
    let mut text = [0u8; 512];
    let end = put_reason(&mut text, error);
    let _ = write_line(errors, name, &text[..end]);
}

fn write_line<E: Write>(errors: &mut E, name: &[u8], reason: &[u8]) -> io::Result<()> {
    errors.write_all(name)?;
    errors.write_all(b": ")?;
    errors.write_all(reason)?;
    errors.write_all(b"\n")
}
