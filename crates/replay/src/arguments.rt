// What the fields of a line hold for a call. A line where they do not is malformed.
ghost use Rattle.std.specs.Prelude.{◌<◌, ◌≤◌, IfOk, length};

use crate::answers::Failure;
use crate::fields::{field, field_count};
use crate::values::{decimal, decode_hex};

// Refuses a line that has not so many fields.
pub fn expect_fields(line: &[u8], count: usize) -> Result<(), Failure> {
    if field_count(line) == count {
        Ok(())
    } else {
        Err(Failure::Malformed)
    }
}

// The number that field k writes.
pub fn number(line: &[u8], k: usize) -> Result<u64, Failure> {
    decimal(field(line, k)).ok_or(Failure::Malformed)
}

// The numbers that fields `at` on write.
pub fn numbers<const N: usize>(line: &[u8], at: usize) -> Result<[u64; N], Failure>
    requires { (at < 100) × (N ≤ 3) }
{
    let mut read = [0; N];
    for (k, n) in read.iter_mut().enumerate() {
        *n = number(line, at + k)?;
    }
    Ok(read)
}

// The number, as the version or the level of a call.
pub fn byte(n: u64) -> Result<u8, Failure> {
    u8::try_from(n).map_err(|_| Failure::Malformed)
}

// The number, as the length of a part of a lent buffer.
pub fn room(n: u64) -> Result<usize, Failure>
    ensures { IfOk result (λ r. r ≤ 2048) }
{
    if n <= 2048 {
        Ok(n as usize)
    } else {
        Err(Failure::Malformed)
    }
}

// The bytes that field k writes, put at the start of the buffer.
pub fn bytes<'a>(line: &[u8], k: usize, buffer: &'a mut [u8; 2048]) -> Result<&'a [u8], Failure>
    ensures { IfOk result (λ b. length b.now ≤ 2048) }
{
    let n = decode_hex(field(line, k), buffer).ok_or(Failure::Malformed)?;
    Ok(&buffer[..n])
}
