// What a call answered, and its comparison with what is stored.
ghost use Rattle.std.specs.Prelude.{◌<◌, ◌≤◌};

use crate::arguments::{bytes, numbers};
use crate::fields::field;
use std::error::Error;
use std::fmt;

// Stands in both answer words before a call. No stored answer has it, so a word that a call leaves
// unwritten differs.
const UNWRITTEN: u64 = 0xa5a5_a5a5_a5a5_a5a5;

// Stands in all bytes of an output and a scratch before a call. No UTF-8 has it, so a byte that a
// call leaves unwritten differs.
pub const UNTOUCHED: u8 = 0xff;

#[derive(Clone, Copy, Debug, PartialEq, Eq)]
pub struct Answer {
    number: u64,
    words: [u64; 2],
}

// Why a stored result does not pass.
#[derive(Clone, Copy, Debug, PartialEq, Eq)]
pub enum Failure {
    Malformed,
    Differs(Answer),
}

impl Answer {
    // Makes the call, with two unwritten words lent to it.
    pub fn of<F: FnOnce(&mut [u64; 2]) -> u32>(call: F) -> Answer
        requires { F.IsAlwaysCallable call }
    {
        let mut words = [UNWRITTEN; 2];
        let number = call(&mut words);
        Answer {
            number: u64::from(number),
            words,
        }
    }

    // Compares with `= NUMBER FIRST SECOND`, which stands in the line from field `at` on. How many
    // fields follow it, the call has seen.
    pub fn compare(self, line: &[u8], at: usize) -> Result<(), Failure>
        requires { at < 99 }
    {
        if field(line, at) != b"=".as_slice() {
            return Err(Failure::Malformed);
        }
        let [number, first, second] = numbers::<3>(line, at + 1)?;
        let stored = Answer {
            number,
            words: [first, second],
        };
        self.passes_if(self == stored)
    }

    // Compares what a lent buffer holds with field k, which writes the bytes at its start. They are put
    // into bytes that are untouched as the lent ones were, so that one comparison sees the rest too.
    pub fn compare_lent(self, line: &[u8], k: usize, lent: &[u8; 2048]) -> Result<(), Failure> {
        let mut stored = [UNTOUCHED; 2048];
        // Else a field that writes untouched bytes after the right ones would pass.
        if bytes(line, k, &mut stored)?.ends_with(&[UNTOUCHED]) {
            return Err(Failure::Malformed);
        }
        self.passes_if(*lent == stored)
    }

    // Whether what the call left besides its answer is as stored.
    pub fn passes_if(self, is_stored: bool) -> Result<(), Failure> {
        if is_stored {
            Ok(())
        } else {
            Err(Failure::Differs(self))
        }
    }
}

// Makes the call with an output of `room` bytes, and compares with `= NUMBER FIRST SECOND OUTPUT` from
// field `at` on.
pub fn replay_output<F: FnOnce(&mut [u8], &mut [u64; 2]) -> u32>(
    line: &[u8],
    at: usize,
    room: usize,
    call: F,
) -> Result<(), Failure>
    requires bounds { (at < 99) × (room ≤ 2048) }
    requires callable { F.IsAlwaysCallable call }
{
    let mut out = [UNTOUCHED; 2048];
    let answer = Answer::of(|words| call(&mut out[..room], words));
    answer.compare(line, at)?;
    answer.compare_lent(line, at + 4, &out)
}

impl fmt::Display for Answer {
    fn fmt<W: fmt::Write>(&self, f: &mut fmt::Formatter<W>) -> fmt::Result {
        let [first, second] = self.words;
        write!(f, "{} {first} {second}", self.number)
    }
}

impl fmt::Display for Failure {
    fn fmt<W: fmt::Write>(&self, f: &mut fmt::Formatter<W>) -> fmt::Result {
        match self {
            Failure::Malformed => write!(f, "is malformed"),
            Failure::Differs(answer) => write!(f, "differs: {answer}"),
        }
    }
}

impl Error for Failure {}
