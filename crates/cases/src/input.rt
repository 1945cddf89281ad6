// Standard input, read to its end.
ghost use Rattle.std.specs.Prelude.{◌≤◌, length};

use std::io::Read;
use std::{fmt, io};

// Why there may be more of the input than was read.
#[derive(Clone, Copy)]
pub(crate) enum InputError {
    TooLong,
    Unreadable,
}

impl fmt::Display for InputError {
    fn fmt<W: fmt::Write>(&self, f: &mut fmt::Formatter<W>) -> fmt::Result {
        f.write_str(match self {
            InputError::TooLong => "the input is longer than 65536 octets",
            InputError::Unreadable => "the input can't be read",
        })
    }
}

// The octets that were read, and whether they are the whole input.
#[derive(Clone, Copy)]
pub(crate) struct Input<'a> {
    pub(crate) octets: &'a [u8],
    pub(crate) ended: Result<(), InputError>,
}

// Puts into s what it holds of the input.
pub(crate) fn read_all<'a>(from: &mut impl Read, s: &'a mut [u8]) -> Input<'a> {
    let (count, ended) = read_into(from, &mut *s);
    Input {
        octets: &s[..count],
        ended,
    }
}

fn read_into(from: &mut impl Read, s: &mut [u8]) -> (usize, Result<(), InputError>)
    ensures { result.0 ≤ length s.new }
{
    let mut at = 0;
    while at < s.len() {
        let got = from.read(&mut s[at..]);
        let n = got.unwrap_or(0);
        if n == 0 {
            return (at, end_by(got));
        }
        at += n;
    }
    let mut beyond = [0u8; 1];
    (at, end_by(from.read(&mut beyond)))
}

// By the answer of the last read.
fn end_by(got: io::Result<usize>) -> Result<(), InputError> {
    match got {
        Ok(0) => Ok(()),
        Ok(_) => Err(InputError::TooLong),
        Err(_) => Err(InputError::Unreadable),
    }
}
