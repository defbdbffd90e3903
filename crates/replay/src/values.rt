// What a field writes: a number in decimal, or bytes in hexadecimal.
ghost use Rattle.std.specs.Prelude.{◌≡◌, ◌≤◌, length, take, IfSome, flat_map};
ghost use Rattle.io.specs.Counts.{IsPrefixLen};
ghost use Rattle.replay.specs.Values.{Writes, Digit, HexDigit, When, hex_of, Decodes};

// The number that the field writes in decimal.
pub fn decimal(field: &[u8]) -> Option<u64>
    ensures { Writes field.now result }
{
    if field.is_empty() {
        return None;
    }
    let mut n = 0;
    for b in field {
        n = with_digit(n, *b)?;
    }
    Some(n)
}

// The number that n's digits and then the byte b write.
fn with_digit(n: u64, b: u8) -> Option<u64>
    ensures { Digit n b result }
{
    if !b.is_ascii_digit() {
        return None;
    }
    n.checked_mul(10)?.checked_add(u64::from(b - b'0'))
}

// Puts the bytes that the field writes, two digits each, at the start of out, and says how many they are.
// `-` writes no bytes.
pub fn decode_hex(field: &[u8], out: &mut [u8; 2048]) -> Option<usize>
    ensures prefix_len { IfSome result (λ n. IsPrefixLen n out.new) }
    ensures decodes { Decodes field.now out.new result }
{
    if field == b"-".as_slice() {
        return Some(0);
    }
    let (pairs, odd) = field.as_chunks::<2>();
    if pairs.is_empty() || 2048 < pairs.len() || !odd.is_empty() {
        return None;
    }
    decode_pairs(pairs, out)?;
    Some(pairs.len())
}

// Puts the bytes that pairs of digits write at the start of out, where all are digits.
fn decode_pairs(pairs: &[[u8; 2]], out: &mut [u8]) -> Option<()>
    requires { length pairs.now ≤ length out.old }
    ensures { When result (hex_of (take (length pairs.now) out.new) ≡ flat_map (λ p. p) pairs.now) }
{
    for (i, [high, low]) in pairs.iter().enumerate() {
        out[i] = hex_value(*high)? * 16 + hex_value(*low)?;
    }
    Some(())
}

// What a lower-case hexadecimal digit writes.
fn hex_value(b: u8) -> Option<u8>
    ensures { HexDigit b result }
{
    match b {
        b'0'..=b'9' => Some(b - b'0'),
        b'a'..=b'f' => Some(b - b'a' + 10),
        _ => None,
    }
}
