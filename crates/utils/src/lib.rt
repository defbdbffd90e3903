// White space at the ends of a text, and the pieces of a text for CDATA sections.
#![tactic(auto)]

ghost use Rattle.std.specs.Prelude.{◌≡◌, ◌+◌, ◌-◌, ◌<◌, ◌≤◌, true, false, length, drop};
ghost use Rattle.text.specs.Call.{answered};
ghost use Rattle.utils.specs.Trim.{is_whitespace, trim_start, trim_end, trim_spaces};
ghost use Rattle.utils.specs.CData.{first_cut, outside, cdata_step, piece_answer};
ghost use Rattle.utils.specs.Blocks.{Blank, Skipped, Dropped, closes_at, Clear, Passed};

use text::refusals::Refusal;
use text::{Answer, Success};

// A part of a text.
#[derive(Clone, Copy)]
pub struct Part {
    pub start: usize,
    pub length: usize,
}

// Where the next piece starts, and whether the last one was handed over: any number but 0 says so.
// Two words, so that no byte of a cursor is padding, which a store would write and no equation name.
#[repr(C)]
#[derive(Clone, Copy)]
pub struct Cursor {
    pub offset: u64,
    pub finished: u64,
}

// The next part of a text; or there are no more, or the cursor is outside the text's characters.
pub type Piece = Result<Part, Refusal>;

#[derive(Drop)]
pub struct Stepped {
    pub piece: Piece,
    pub next: Cursor,
}

pub fn is_whitespace(b: u8) -> bool
    ensures { result ≡ is_whitespace b }
{
    (b == b' ') | (b == b'\t') | (b == b'\r') | (b == b'\n')
}

// Is one of the 32 bytes from i on no white space?
fn any_other(text: &[u8], i: usize) -> bool
    requires { i + 32 ≤ length text.now }
    ensures { result ≡ false → Blank text.now i 32 }
{
    let mut hit = false;
    for &b in &text[i..i + 32] {
        hit |= !is_whitespace(b);
    }
    hit
}

// Blocks of white space at the start. Most texts have none, which the first byte shows.
fn skip_blanks(text: &[u8]) -> usize
    ensures { Skipped text.now result }
{
    if text.len() < 32 {
        return 0;
    }
    if !is_whitespace(text[0]) {
        return 0;
    }
    // By hand: the answer is a place, which chunks_exact does not count.
    let mut i: usize = 0;
    while 32 <= text.len() - i {
        if any_other(text, i) {
            return i;
        }
        i += 32;
    }
    i
}

// Blocks of white space at the end, where the last byte is white space.
fn drop_blanks(text: &[u8]) -> usize
    ensures { Dropped text.now result }
{
    let mut end = text.len();
    if end < 32 {
        return end;
    }
    if !is_whitespace(text[end - 1]) {
        return end;
    }
    // By hand: the answer is a place, which chunks_exact does not count.
    while 32 <= end {
        if any_other(text, end - 32) {
            return end;
        }
        end -= 32;
    }
    end
}

pub fn trim_xml_start(text: &[u8]) -> Part
    ensures { result ≡ trim_start text.now }
{
    for i in skip_blanks(text)..text.len() {
        if !is_whitespace(text[i]) {
            return Part {
                start: i,
                length: text.len() - i,
            };
        }
    }
    Part {
        start: text.len(),
        length: 0,
    }
}

pub fn trim_xml_end(text: &[u8]) -> Part
    ensures { result ≡ trim_end text.now }
{
    for i in (0..drop_blanks(text)).rev() {
        if !is_whitespace(text[i]) {
            return Part {
                start: 0,
                length: i + 1,
            };
        }
    }
    Part {
        start: 0,
        length: 0,
    }
}

pub fn trim_xml_spaces(text: &[u8]) -> Part
    ensures { result ≡ trim_spaces text.now }
{
    let first = trim_xml_start(text);
    let start = first.start;
    let last = trim_xml_end(&text[start..]);
    Part {
        start,
        length: last.length,
    }
}

// Does `]]>` stand at i?
fn closes_at(text: &[u8], i: usize) -> bool
    requires { i + 3 ≤ length text.now }
    ensures { result ≡ closes_at text.now i }
{
    (text[i] == b']') & (text[i + 1] == b']') & (text[i + 2] == b'>')
}

// Is there a `>` where a `]]>` ends that stands at one of the count bytes from i on?
fn any_gt(text: &[u8], i: usize, count: usize) -> bool
    requires { i + count + 2 ≤ length text.now }
    ensures { result ≡ false → Clear text.now i count }
{
    let mut hit = false;
    for &b in &text[i + 2..i + count + 2] {
        hit |= b == b'>';
    }
    hit
}

// Does `]]>` stand at one of the count bytes from i on?
fn any_closing(text: &[u8], i: usize, count: usize) -> bool
    requires { i + count + 2 ≤ length text.now }
    ensures { result ≡ false → Clear text.now i count }
{
    // By index: each byte is asked with the two after it.
    let mut hit = false;
    for k in 0..count {
        hit |= closes_at(text, i + k);
    }
    hit
}

// A block of size bytes is passed for want of a `>`, which is quick to see, or of the whole `]]>`.
fn skip_blocks(text: &[u8], from: usize, size: usize) -> usize
    requires from_in_bounds { from ≤ length text.now }
    requires size_nonzero { (0 < size) × (size ≤ 128) }
    ensures { Passed text.now from result }
{
    let mut i = from;
    // By hand: the answer is a place, and each block is asked with the two bytes after it.
    while size + 2 <= text.len() - i {
        if any_gt(text, i, size) {
            if any_closing(text, i, size) {
                return i;
            }
        }
        i += size;
    }
    i
}

// Passes 126 bytes, where no `>` ends a `]]>` that stands at one of them. The blocks of 128 bytes after these are then looked at from
// multiples of 128 on, in a piece that starts where the text does: loads that cross no cache line.
fn skip_first(text: &[u8], from: usize) -> usize
    requires { from ≤ length text.now }
    ensures { Passed text.now from result }
{
    if text.len() - from < 128 {
        return from;
    }
    if any_gt(text, from, 126) {
        return from;
    }
    from + 126
}

// Is there no `]]>` from i on? Seen where the text's last block, which may start before i, has no `>`.
fn ends_clear(text: &[u8], i: usize) -> bool
    ensures { result ≡ true → Clear text.now i (length text.now - 2 - i) }
{
    if text.len() < 34 {
        return false;
    }
    let last = text.len() - 34;
    if i < last {
        return false;
    }
    !any_gt(text, last, 32)
}

// The end of the piece that starts at `from`: the first cut, or the text's end.
fn piece_end(text: &[u8], from: usize) -> usize
    requires { from ≤ length text.now }
    ensures { result ≡ from + first_cut (drop from text.now) }
{
    let near = skip_blocks(text, skip_first(text, from), 128);
    let mut i = skip_blocks(text, near, 32);
    if ends_clear(text, i) {
        return text.len();
    }
    // By hand: each byte is asked with the two after it.
    while 3 <= text.len() - i {
        if closes_at(text, i) {
            return i + 2;
        }
        i += 1;
    }
    text.len()
}

// Is the offset past the end or inside a character?
pub fn is_outside(text: &[u8], offset: u64) -> bool
    ensures { result ≡ outside text.now offset }
{
    let length = text.len() as u64;
    if length < offset {
        return true;
    }
    if length == offset {
        return false;
    }
    let b = text[offset as usize];
    (0x80 <= b) & (b <= 0xbf)
}

// The next piece, and the cursor after it.
pub fn cdata_step(text: &[u8], cursor: Cursor) -> Stepped
    ensures { result ≡ cdata_step text.now cursor }
{
    let offset = cursor.offset;
    if is_outside(text, offset) {
        return Stepped {
            piece: Err(Refusal::CursorOutside(offset)),
            next: cursor,
        };
    }
    if cursor.finished != 0 {
        return Stepped {
            piece: Err(Refusal::NoMore),
            next: cursor,
        };
    }
    let start = offset as usize;
    let end = piece_end(text, start);
    let piece = Ok(Part {
        start,
        length: end - start,
    });
    if end == text.len() {
        return Stepped {
            piece,
            next: Cursor {
                offset,
                finished: 1,
            },
        };
    }
    Stepped {
        piece,
        next: Cursor {
            offset: end as u64,
            finished: 0,
        },
    }
}

// The piece's start and length.
pub fn piece_answer(piece: Piece) -> Answer
    ensures { answered result ≡ piece_answer piece }
{
    let part = piece?;
    Ok(Success {
        first: part.start as u64,
        second: part.length as u64,
    })
}
