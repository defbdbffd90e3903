// Names of XML 1.0, fifth edition: the width of the name character at a place, and where a name ends. What is no UTF-8 is no name.
#![tactic(auto)]

ghost use Rattle.std.specs.Prelude.{◌≡◌, Bool, ℕ, ◌+◌, ◌≤◌, ◌<◌, length, drop, get_or};
ghost use Rattle.text.specs.Bytes.{pick, within};
ghost use Rattle.table_names.specs.NameChars.{is_name_start, is_name_char, char_width, name_chars, name_length};
ghost use Rattle.table_names.specs.NameTerms.{tail_bits, width_of, Numbered};

// [4] NameStartChar below U+0080.
fn is_name_start_byte(b: u8) -> bool
    requires { b < 0x80 }
    ensures { result ≡ is_name_start b }
{
    (b == b':') | ((b'A' <= b) & (b <= b'Z')) | (b == b'_') | ((b'a' <= b) & (b <= b'z'))
}

// [4a] NameChar below U+0080.
fn is_name_byte(b: u8) -> bool
    requires { b < 0x80 }
    ensures { result ≡ is_name_char b }
{
    is_name_start_byte(b) | (b == b'-') | (b == b'.') | ((b'0' <= b) & (b <= b'9'))
}

// [4] NameStartChar.
fn is_name_start(c: usize) -> bool
    ensures { result ≡ is_name_start c }
{
    (c == 0x3a)
        | ((0x41 <= c) & (c <= 0x5a))
        | (c == 0x5f)
        | ((0x61 <= c) & (c <= 0x7a))
        | ((0xc0 <= c) & (c <= 0xd6))
        | ((0xd8 <= c) & (c <= 0xf6))
        | ((0xf8 <= c) & (c <= 0x2ff))
        | ((0x370 <= c) & (c <= 0x37d))
        | ((0x37f <= c) & (c <= 0x1fff))
        | ((0x200c <= c) & (c <= 0x200d))
        | ((0x2070 <= c) & (c <= 0x218f))
        | ((0x2c00 <= c) & (c <= 0x2fef))
        | ((0x3001 <= c) & (c <= 0xd7ff))
        | ((0xf900 <= c) & (c <= 0xfdcf))
        | ((0xfdf0 <= c) & (c <= 0xfffd))
        | ((0x10000 <= c) & (c <= 0xeffff))
}

// [4a] NameChar.
fn is_name_char(c: usize) -> bool
    ensures { result ≡ is_name_char c }
{
    is_name_start(c)
        | (c == 0x2d)
        | (c == 0x2e)
        | ((0x30 <= c) & (c <= 0x39))
        | (c == 0xb7)
        | ((0x300 <= c) & (c <= 0x36f))
        | ((0x203f <= c) & (c <= 0x2040))
}

// A character of two bytes or more, by its number: is it a name start character, or a name character? (A flag, as a closure's F.post would stand
// in the clause of each width.)
fn is_name(c: usize, first: bool) -> bool
    ensures { result ≡ pick first is_name_start is_name_char c }
{
    if first {
        return is_name_start(c);
    }
    is_name_char(c)
}

// The width of a character, by its number, where it is one that may stand there; else 0.
fn width_of(number: Option<usize>, width: usize, first: bool) -> usize
    ensures { result ≡ width_of (pick first is_name_start is_name_char) number width }
{
    match number {
        Some(c) if is_name(c, first) => width,
        _ => 0,
    }
}

// What the byte at i adds to its character's number, where it is a UTF8-tail.
fn tail_at(text: &[u8], i: usize) -> Option<usize>
    requires { i < length text.now }
    ensures { result ≡ tail_bits (get_or text.now i 0) }
{
    let b = text[i];
    if (0x80 <= b) & (b <= 0xbf) {
        return Some(usize::from(b - 0x80));
    }
    None
}

// The number of the character of two bytes at i. (A function for each size: one loop over the tails would be handed the size, what is taken off
// the first byte, and the least number.)
fn two_bytes(text: &[u8], i: usize) -> Option<usize>
    requires { (i < length text.now) × (0xC2 ≤ get_or text.now i 0) × (get_or text.now i 0 < 0xE0) }
    ensures { Numbered text.now i 2 result }
{
    if text.len() - i < 2 {
        return None;
    }
    let c = tail_at(text, i + 1)?;
    Some(64 * (usize::from(text[i]) - 0xc0) + c)
}

// Three bytes; a number below U+0800 is an overlong form.
fn three_bytes(text: &[u8], i: usize) -> Option<usize>
    requires { (i < length text.now) × (0xE0 ≤ get_or text.now i 0) × (get_or text.now i 0 < 0xF0) }
    ensures { Numbered text.now i 3 result }
{
    if text.len() - i < 3 {
        return None;
    }
    let c = tail_at(text, i + 1)?;
    let d = tail_at(text, i + 2)?;
    let number = 64 * (64 * (usize::from(text[i]) - 0xe0) + c) + d;
    if number < 0x800 {
        return None;
    }
    Some(number)
}

// Four bytes; a number below U+10000 is an overlong form.
fn four_bytes(text: &[u8], i: usize) -> Option<usize>
    requires { (i < length text.now) × (0xF0 ≤ get_or text.now i 0) × (get_or text.now i 0 < 0x100) }
    ensures { Numbered text.now i 4 result }
{
    if text.len() - i < 4 {
        return None;
    }
    let c = tail_at(text, i + 1)?;
    let d = tail_at(text, i + 2)?;
    let e = tail_at(text, i + 3)?;
    let number = 64 * (64 * (64 * (usize::from(text[i]) - 0xf0) + c) + d) + e;
    if number < 0x10000 {
        return None;
    }
    Some(number)
}

// The width of a character of two bytes or more.
fn wide_width(text: &[u8], i: usize, first: bool) -> usize
    requires { (i < length text.now) × (0x80 ≤ get_or text.now i 0) }
    ensures { result ≡ char_width (pick first is_name_start is_name_char) (drop i text.now) }
{
    let b = text[i];
    if b < 0xc2 {
        return 0;
    }
    if b < 0xe0 {
        return width_of(two_bytes(text, i), 2, first);
    }
    if b < 0xf0 {
        return width_of(three_bytes(text, i), 3, first);
    }
    width_of(four_bytes(text, i), 4, first)
}

// The width of the name start character at i, 0 where none is: the definition `char_width` says 0.
fn name_start_width(text: &[u8], i: usize) -> usize
    requires { i < length text.now }
    ensures { result ≡ char_width is_name_start (drop i text.now) }
{
    let b = text[i];
    if b < 0x80 {
        if is_name_start_byte(b) {
            return 1;
        }
        return 0;
    }
    wide_width(text, i, true)
}

// The width of the name character at i, 0 where none is. Most are small letters: two comparisons tell.
fn name_char_width(text: &[u8], i: usize) -> usize
    requires { i < length text.now }
    ensures { result ≡ char_width is_name_char (drop i text.now) }
{
    let b = text[i];
    if (b'a' <= b) & (b <= b'z') {
        return 1;
    }
    if b < 0x80 {
        if is_name_byte(b) {
            return 1;
        }
        return 0;
    }
    wide_width(text, i, false)
}

// Where the name characters from `from` on end. (By hand, as a turn goes on by a character's width.)
fn name_chars_end(text: &[u8], from: usize) -> usize
    requires { from ≤ length text.now }
    ensures { (result ≤ length text.now) × (result ≡ from + name_chars 0 (drop from text.now)) }
{
    let mut i = from;
    // By hand: a character has one to four bytes.
    while i < text.len() {
        let width = name_char_width(text, i);
        if width == 0 {
            return i;
        }
        i += width;
    }
    i
}

// [5] Name: where the name at `from` ends; `from` where none is.
pub fn name_end(text: &[u8], from: usize) -> usize
    requires { from ≤ length text.now }
    ensures { (result ≤ length text.now) × (result ≡ from + name_length (drop from text.now)) }
{
    if from == text.len() {
        return from;
    }
    let width = name_start_width(text, from);
    if width == 0 {
        return from;
    }
    name_chars_end(text, from + width)
}
