// The end of the longest well-formed prefix (RFC 3629): by blocks of 32 bytes where these are whole characters, else character by
// character. A block's bytes are tested side by side, each against the three before it, so that the loops run on vectors.
ghost use Rattle.std.specs.Prelude.{◌≡◌, ℕ, ◌+◌, ◌*◌, ◌<◌, ◌≤◌, false, length, get_or};
ghost use Rattle.text.specs.Utf8.{utf8_end};
ghost use Rattle.text.specs.Blocks.{AtMost, Ascii, AsciiRun, Whole, Prefix, Character, Leads, Fitting, Edge, misfit, misfit3, misfit2};

use crate::load;

// The highest bit of each of the eight bytes from i on; 0 where all are ASCII.
fn high_bits(text: &[u8], i: usize) -> u64
    requires { i + 8 ≤ length text.now }
    ensures { result ≡ 0 → AtMost text.now i 8 0x7f }
{
    load::word(text, i) & 0x8080808080808080
}

// The same of so many words, joined.
fn joined_bits(text: &[u8], i: usize, words: usize) -> u64
    requires { i + 8 * words ≤ length text.now }
    ensures { result ≡ 0 → AtMost text.now i (8 * words) 0x7f }
{
    let mut bits: u64 = 0;
    for k in 0..words {
        bits = bits | high_bits(text, i + 8 * k);
    }
    bits
}

// Blocks of so many words of ASCII. By hand: the answer is a place, which chunks_exact does not count.
fn ascii_blocks(text: &[u8], from: usize, words: usize) -> usize
    requires inside { from ≤ length text.now }
    requires words_nonzero { (0 < words) × (words ≤ 8) }
    ensures { AsciiRun text.now from result }
{
    let mut i = from;
    while 8 * words <= text.len() - i {
        if joined_bits(text, i, words) != 0 {
            return i;
        }
        i += 8 * words;
    }
    i
}

// The highest of the 32 bytes from i on.
fn highest(text: &[u8], i: usize) -> u8
    requires { i + 32 ≤ length text.now }
    ensures { AtMost text.now i 32 result }
{
    let mut top: u8 = 0;
    for &b in &text[i..i + 32] {
        top = top.max(b);
    }
    top
}

fn misplaced(p3: u8, p2: u8, p1: u8, b: u8) -> bool
    ensures { result ≡ misfit p3 p2 p1 b }
{
    let wanted = (0xc0 <= p1) | (0xe0 <= p2) | (0xf0 <= p3);
    let tail = (0x80 <= b) & (b < 0xc0);
    (wanted != tail)
        | (p1 == 0xc0)
        | (p1 == 0xc1)
        | (0xf5 <= p1)
        | ((p1 == 0xe0) & (b < 0xa0))
        | ((p1 == 0xed) & (0xa0 <= b))
        | ((p1 == 0xf0) & (b < 0x90))
        | ((p1 == 0xf4) & (0x90 <= b))
}

// The same where no byte before it is 0xf0 or more.
fn misplaced3(p2: u8, p1: u8, b: u8) -> bool
    ensures { result ≡ misfit3 p2 p1 b }
{
    let wanted = (0xc0 <= p1) | (0xe0 <= p2);
    let tail = (0x80 <= b) & (b < 0xc0);
    (wanted != tail)
        | (p1 == 0xc0)
        | (p1 == 0xc1)
        | ((p1 == 0xe0) & (b < 0xa0))
        | ((p1 == 0xed) & (0xa0 <= b))
}

// The same where no byte before it is 0xe0 or more.
fn misplaced2(p1: u8, b: u8) -> bool
    ensures { result ≡ misfit2 p1 b }
{
    let tail = (0x80 <= b) & (b < 0xc0);
    ((0xc0 <= p1) != tail) | (p1 == 0xc0) | (p1 == 0xc1)
}

// Is one of the 32 bytes from j + 3 on misplaced?
fn any_misplaced(text: &[u8], j: usize) -> bool
    requires { j + 35 ≤ length text.now }
    ensures { result ≡ false → Fitting text.now j 32 }
{
    let mut hit = false;
    for k in 0..32usize {
        hit = hit
            | misplaced(
                text[j + k],
                text[j + k + 1],
                text[j + k + 2],
                text[j + k + 3],
            );
    }
    hit
}

// The same where those bytes are below 0xf0.
fn any_misplaced3(text: &[u8], j: usize) -> bool
    requires j_in_bounds { j + 35 ≤ length text.now }
    requires edge { Edge text.now j }
    requires at_most { AtMost text.now (j + 3) 32 0xef }
    ensures { result ≡ false → Fitting text.now j 32 }
{
    let mut hit = false;
    for k in 0..32usize {
        hit = hit | misplaced3(text[j + k + 1], text[j + k + 2], text[j + k + 3]);
    }
    hit
}

// The same where those bytes are below 0xe0.
fn any_misplaced2(text: &[u8], j: usize) -> bool
    requires j_in_bounds { j + 35 ≤ length text.now }
    requires edge { Edge text.now j }
    requires at_most { AtMost text.now (j + 3) 32 0xdf }
    ensures { result ≡ false → Fitting text.now j 32 }
{
    let mut hit = false;
    for k in 0..32usize {
        hit = hit | misplaced2(text[j + k + 2], text[j + k + 3]);
    }
    hit
}

// How many of the 32 bytes from j + 3 on are seen to be whole characters; top is their highest.
fn block_width(text: &[u8], j: usize, top: u8) -> usize
    requires j_in_bounds { j + 35 ≤ length text.now }
    requires at_most { AtMost text.now (j + 3) 32 top }
    ensures { Whole text.now (j + 3) result }
{
    if top < 0x80 {
        return 32;
    }
    if (0xc0 <= text[j + 2]) | (0xe0 <= text[j + 1]) | (0xf0 <= text[j]) {
        return 0;
    }
    if unfit(text, j, top) {
        return 0;
    }
    whole_part(text, j)
}

// Of a fitting block: how far its last whole character goes.
fn whole_part(text: &[u8], j: usize) -> usize
    requires j_in_bounds { j + 35 ≤ length text.now }
    requires edge { Edge text.now j }
    requires fitting { Fitting text.now j 32 }
    ensures { Whole text.now (j + 3) result }
{
    if 0xc0 <= text[j + 34] {
        return 31;
    }
    if 0xe0 <= text[j + 33] {
        return 30;
    }
    if 0xf0 <= text[j + 32] {
        return 29;
    }
    32
}

// Is a byte of the block misplaced? By the cheapest test that its highest byte allows.
fn unfit(text: &[u8], j: usize, top: u8) -> bool
    requires j_in_bounds { j + 35 ≤ length text.now }
    requires edge { Edge text.now j }
    requires at_most { AtMost text.now (j + 3) 32 top }
    ensures { result ≡ false → Fitting text.now j 32 }
{
    if top < 0xe0 {
        return any_misplaced2(text, j);
    }
    if top < 0xf0 {
        return any_misplaced3(text, j);
    }
    any_misplaced(text, j)
}

// A character of more than one byte, by its first: how wide it is (0: no character starts so), and the range of its second byte.
#[derive(Drop)]
pub struct Lead {
    pub width: usize,
    pub low: u8,
    pub high: u8,
}

fn leading(width: usize, low: u8, high: u8) -> Lead
    ensures { result ≡ record { width = «width»; low = «low»; high = «high» } }
{
    Lead { width, low, high }
}

fn lead_of(b: u8) -> Lead
    requires { 0x80 ≤ b }
    ensures { Leads b result }
{
    if b < 0xc2 {
        return leading(0, 0x80, 0xbf);
    }
    if b < 0xe0 {
        return leading(2, 0x80, 0xbf);
    }
    if b == 0xe0 {
        return leading(3, 0xa0, 0xbf);
    }
    if b == 0xed {
        return leading(3, 0x80, 0x9f);
    }
    if b < 0xf0 {
        return leading(3, 0x80, 0xbf);
    }
    if b == 0xf0 {
        return leading(4, 0x90, 0xbf);
    }
    if b < 0xf4 {
        return leading(4, 0x80, 0xbf);
    }
    if b == 0xf4 {
        return leading(4, 0x80, 0x8f);
    }
    leading(0, 0x80, 0xbf)
}

// The width of the character at i, or 0 where none is.
fn char_width(text: &[u8], i: usize) -> usize
    requires { i < length text.now }
    ensures { Character text.now i result }
{
    let b = text[i];
    if b < 0x80 {
        return 1;
    }
    let lead = lead_of(b);
    let width = lead.width;
    if width == 0 {
        return 0;
    }
    if text.len() - i < width {
        return 0;
    }
    let second = text[i + 1];
    if second < lead.low {
        return 0;
    }
    if lead.high < second {
        return 0;
    }
    if width == 2 {
        return 2;
    }
    if text[i + 2] < 0x80 {
        return 0;
    }
    if 0xbf < text[i + 2] {
        return 0;
    }
    if width == 3 {
        return 3;
    }
    if text[i + 3] < 0x80 {
        return 0;
    }
    if 0xbf < text[i + 3] {
        return 0;
    }
    4
}

// Characters one by one until three bytes lie behind.
fn first_chars(text: &[u8], from: usize) -> usize
    requires { Prefix text.now from }
    ensures { Prefix text.now result }
{
    let mut i = from;
    while i < 3 && i < text.len() {
        let width = char_width(text, i);
        if width == 0 {
            return i;
        }
        i += width;
    }
    i
}

// Whole characters by blocks.
fn whole_blocks(text: &[u8], from: usize) -> usize
    requires { Prefix text.now from }
    ensures { Prefix text.now result }
{
    if from < 3 {
        return from;
    }
    let mut i = from;
    while 32 <= text.len() - i {
        let top = highest(text, i);
        let width = block_width(text, i - 3, top);
        if width == 0 {
            return i;
        }
        i += width;
    }
    i
}

// Characters one by one to the end of the longest well-formed prefix.
fn last_chars(text: &[u8], from: usize) -> usize
    requires { Prefix text.now from }
    ensures { result ≡ utf8_end text.now }
{
    let mut i = from;
    while i < text.len() {
        let width = char_width(text, i);
        if width == 0 {
            return i;
        }
        i += width;
    }
    i
}

// Whole characters by blocks, where there is a block.
fn skip_blocks(text: &[u8], from: usize) -> usize
    requires { Prefix text.now from }
    ensures { Prefix text.now result }
{
    if text.len() - from < 32 {
        return from;
    }
    whole_blocks(text, first_chars(text, from))
}

// The text's end, where no more than its last word is left and that is ASCII; it may start before `from`.
fn last_word(text: &[u8], from: usize) -> usize
    requires { Prefix text.now from }
    ensures { Prefix text.now result }
{
    if text.len() < 8 {
        return from;
    }
    let last = text.len() - 8;
    if from < last {
        return from;
    }
    if high_bits(text, last) != 0 {
        return from;
    }
    text.len()
}

// The end of the longest well-formed prefix. A text shorter than a word goes by none of the stages, one of whole blocks of ASCII by the
// first alone.
pub fn utf8_end(text: &[u8]) -> usize
    ensures { result ≡ utf8_end text.now }
{
    if text.len() < 8 {
        return last_chars(text, 0);
    }
    let far = ascii_blocks(text, 0, 8);
    if far == text.len() {
        return far;
    }
    let near = ascii_blocks(text, far, 4);
    let blocks = skip_blocks(text, near);
    let words = ascii_blocks(text, blocks, 1);
    last_chars(text, last_word(text, words))
}

// How many bytes at the start are ASCII.
pub fn ascii_end(text: &[u8]) -> usize
    ensures { Ascii text.now result }
{
    for i in ascii_blocks(text, ascii_blocks(text, 0, 8), 1)..text.len() {
        if 0x7f < text[i] {
            return i;
        }
    }
    text.len()
}
