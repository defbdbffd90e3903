// The calls on a register. Its buffer is read and written, and is compared whole; its used length is lent.
use crate::answers::{Answer, Failure, UNTOUCHED};
use crate::arguments::{bytes, expect_fields, number};
use crate::fields::field;
use crate::values::{decimal, decode_hex};

// register_count FORM BUFFER USED = NUMBER FIRST SECOND
pub fn replay_count(line: &[u8]) -> Result<(), Failure> {
    expect_fields(line, 8)?;
    let mut form = [0; 2048];
    let mut buffer = [0; 2048];
    let form = bytes(line, 1, &mut form)?;
    let buffer = bytes(line, 2, &mut buffer)?;
    let used = number(line, 3)?;
    Answer::of(|words| govlezna::govlezna_register_count(form, buffer, used, words)).compare(
        line, 4,
    )
}

// register_add FORM BUFFER USED = NUMBER FIRST SECOND BUFFER USED, and so register_withdraw
pub fn replay_change<F: Fn(&[u8], &mut [u8], &mut u64, &mut [u64; 2]) -> u32>(
    line: &[u8],
    call: F,
) -> Result<(), Failure>
    requires { F.IsAlwaysCallable call }
{
    expect_fields(line, 10)?;
    let mut form = [0; 2048];
    let form = bytes(line, 1, &mut form)?;
    let mut buffer = [UNTOUCHED; 2048];
    let n = bytes(line, 2, &mut buffer)?.len();
    let mut used = number(line, 3)?;
    let answer = Answer::of(|words| call(form, &mut buffer[..n], &mut used, words));
    answer.compare(line, 4)?;
    answer.passes_if(is_left(line, n, &buffer, used))
}

// Are the n bytes of the buffer those of field 8, those after them untouched, and the used length that of field 9?
fn is_left(line: &[u8], n: usize, buffer: &[u8; 2048], used: u64) -> bool {
    let mut stored = [UNTOUCHED; 2048];
    decode_hex(field(line, 8), &mut stored) == Some(n)
        && *buffer == stored
        && decimal(field(line, 9)) == Some(used)
}
