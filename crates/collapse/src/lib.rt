// The second stage of XML 1.0, 3.3.3, over a value, and the tokens between spaces (document 02, K5). Most lists have one space between
// two tokens: runs in which no space goes are found by blocks and copied whole.
#![tactic(auto)]

ghost use Rattle.std.specs.Prelude.{◌≡◌, false, [], ◌∷◌, ◌+◌, ◌≤◌, length, drop};
ghost use Rattle.text.specs.Call.{answered, call_of, finish};
ghost use Rattle.output.specs.Over.{over};
ghost use Rattle.runs.specs.RunEnds.{RunEnd};
ghost use Rattle.collapse.specs.Collapse.{is_space, spaces, collapse};
ghost use Rattle.collapse.specs.NextToken.{next_token};
ghost use Rattle.collapse.specs.Stage.{goes, Stays, StayEnd};
ghost use Rattle.collapse.specs.Checked.{moved, token_answer};

use runs::byte::{blocks_without, byte_end};
use text::refusals::Refusal;
use text::{Answer, Success};
use utils::{Part, Piece};

// The place after the spaces at `from`.
fn skip_spaces(text: &[u8], from: usize) -> usize
    requires { from ≤ length text.now }
    ensures { result ≡ from + spaces (drop from text.now) }
{
    // By hand: with `position`, or a `for`, lists of tokens take 3 % more.
    let mut i = from;
    while i < text.len() {
        if text[i] != b' ' {
            return i;
        }
        i += 1;
    }
    i
}

// ---- the second stage

// Does one of the 16 bytes from i on stand for a space before a space? Without branches, so that the loop runs on vectors.
fn any_pair(text: &[u8], i: usize) -> bool
    requires { i + 17 ≤ length text.now }
    ensures { result ≡ false → Stays text.now i (i + 16) }
{
    // By index: each byte is asked with the one after it.
    let mut hit = false;
    for k in 0..16usize {
        hit |= ((text[i + k] == b' ') & (text[i + k + 1] == b' '));
    }
    hit
}

// Passes blocks in which every byte stays.
fn stay_blocks(text: &[u8], from: usize) -> usize
    requires { from ≤ length text.now }
    ensures { Stays text.now from result }
{
    // By hand: the answer is a place, and each block is asked with the byte after it.
    let mut i = from;
    while 17 <= text.len() - i {
        if any_pair(text, i) {
            return i;
        }
        i += 16;
    }
    i
}

// Does a space that goes stand at `at`?
fn goes_at(text: &[u8], at: usize) -> bool
    requires { at + 1 ≤ length text.now }
    ensures { result ≡ goes (drop at text.now) }
{
    if text[at] != b' ' {
        return false;
    }
    let next = at + 1;
    if next == text.len() {
        return true;
    }
    text[next] == b' '
}

// The next space from `from` on that goes, or the text's end.
fn stay_end(text: &[u8], from: usize) -> usize
    requires { from ≤ length text.now }
    ensures { StayEnd text.now from result }
{
    // By hand, as in skip_spaces.
    let mut i = stay_blocks(text, from);
    while i < text.len() {
        if goes_at(text, i) {
            return i;
        }
        i += 1;
    }
    i
}

// Writes what the second stage makes of the value at the start of `out`, as much as there is room for, and gives its length.
fn put_collapsed(value: &[u8], out: &mut [u8]) -> usize
    ensures value { result ≡ length (collapse value.now) }
    ensures out_after { out.new ≡ over (collapse value.now) out.old }
{
    let mut at: usize = 0;
    let mut i = skip_spaces(value, 0);
    // By hand: a turn begins where the white space before it ended.
    loop {
        let end = stay_end(value, i);
        let room = at.min(out.len());
        output::put_over(&value[i..end], &mut out[room..]);
        at += end - i;
        let next = skip_spaces(value, end);
        if next == value.len() {
            return at;
        }
        i = next - 1;
    }
}

// Its length alone.
fn collapsed_length(value: &[u8]) -> usize
    ensures { result ≡ length (collapse value.now) }
{
    let mut none = [0u8; 1];
    put_collapsed(value, &mut none[..0])
}

// The second stage over a value. Where the output has the value's length there is room: no count is needed.
pub fn collapse_into(value: &[u8], second: u64, out: &mut [u8]) -> Answer
    ensures { call_of (answered result) (out.new ∷ []) ≡ finish (collapse value.now) second out.old }
{
    if out.len() < value.len() {
        let length = collapsed_length(value);
        if out.len() < length {
            return Err(Refusal::NoRoom(length as u64));
        }
    }
    let written = put_collapsed(value, out);
    Ok(Success {
        first: written as u64,
        second,
    })
}

// ---- tokens

// The next space from `from` on, or the text's end, by blocks.
fn token_end(text: &[u8], from: usize) -> usize
    requires { from ≤ length text.now }
    ensures { RunEnd is_space text.now from result }
{
    byte_end(text, blocks_without::<16>(text, from, b' '), b' ')
}

// The next token, and the offset after it.
#[derive(Drop)]
pub struct Found {
    pub piece: Piece,
    pub next: u64,
}

pub fn next_token(text: &[u8], offset: u64) -> Found
    ensures { result ≡ next_token text.now offset }
{
    if utils::is_outside(text, offset) {
        return Found {
            piece: Err(Refusal::CursorOutside(offset)),
            next: offset,
        };
    }
    let start = skip_spaces(text, offset as usize);
    if start == text.len() {
        return Found {
            piece: Err(Refusal::NoMore),
            next: offset,
        };
    }
    let end = token_end(text, start);
    Found {
        piece: Ok(Part {
            start,
            length: end - start,
        }),
        next: end as u64,
    }
}

// An answer, and the offset that it leaves.
#[derive(Drop)]
pub struct Moved {
    pub answer: Answer,
    pub offset: u64,
}

// The next token of a text that is checked first.
pub fn checked_token(text: &[u8], offset: u64) -> Moved
    ensures { moved (answered result.answer) result.offset ≡ token_answer text.now offset }
{
    if let Err(refusal) = text::check_text(text) {
        return Moved {
            answer: Err(refusal),
            offset,
        };
    }
    let token = next_token(text, offset);
    let piece = token.piece;
    let next = token.next;
    Moved {
        answer: utils::piece_answer(piece),
        offset: next,
    }
}
