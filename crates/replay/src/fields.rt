// The fields of a line: what stands between single spaces, from field 0 on.

// How many fields the line has.
pub fn field_count(line: &[u8]) -> usize {
    line.split(|b| *b == b' ').count()
}

// Field k of the line. One that is missing is empty, which neither `decimal` nor `decode_hex` takes.
pub fn field(line: &[u8], k: usize) -> &[u8] {
    line.split(|b| *b == b' ').nth(k).unwrap_or(&[])
}
