// What the walks over a text's tokens share: a single step's answer, the end of a reference's name, and a character reference.
#![tactic(auto)]

ghost use Rattle.std.specs.Prelude.{IfSome, ◌≡◌, ◌≢◌, List, ◌++◌, ℕ, ◌+◌, ◌≤◌, ◌<◌, length, get_or, take, drop};
ghost use Rattle.text.specs.Call.{answered};
ghost use Rattle.output.specs.Over.{over};
ghost use Rattle.charref.specs.CharRef.{any_character, encode};
ghost use Rattle.charref.specs.Reading.{Found};
ghost use Rattle.tokens.specs.Outcome.{done, number_outcome};
ghost use Rattle.tokens.specs.Seen.{moved_up, met_at, Matches, Kept, Recalled, Remembered, seen_size, next_place};
ghost use Rattle.tokens.specs.Walking.{NameEnd, Stepped, Ended, stepped, short_of, too_short};

use charref::Quick;
use text::refusals::Refusal;
use text::{Answer, Success, load};

// Where the next token starts, the length written and the openings so far.
#[derive(Clone, Copy)]
pub struct Next {
    pub at: usize,
    pub len: usize,
    pub openings: u64,
}

// A single step.
pub type Step = Result<Next, Refusal>;

// Which buffer may be too short for a value.
#[derive(Clone, Copy)]
pub enum Buffer {
    Scratch,
    Output,
    // One that is refused by a number of the caller's own.
    Numbered(u32),
}

impl Buffer {
    // The refusal of one that is shorter than is needed.
    pub fn too_short(self, needed: u64) -> Refusal
        ensures { result ≡ too_short self needed }
    {
        match self {
            Buffer::Scratch => Refusal::NoScratch(needed),
            Buffer::Output => Refusal::NoRoom(needed),
            Buffer::Numbered(number) => Refusal::Numbered(number, needed, 0),
        }
    }
}

// The `;` that ends the name; the text's length where there is none, and where `inner` says that a `&` before it is none.
pub fn name_end(text: &[u8], from: usize, inner: bool) -> usize
    requires { from ≤ length text.now }
    ensures { NameEnd inner text.now from result }
{
    let mut i = from;
    while i < text.len() {
        if text[i] == b';' {
            return i;
        }
        if inner & (text[i] == b'&') {
            return text.len();
        }
        i += 1;
    }
    i
}

// The character reference whose `#` would be at `from`, where its digits end at the `;` by themselves.
pub fn quick_reference(text: &[u8], from: usize) -> Option<Quick>
    requires { from ≤ length text.now }
    ensures { IfSome result (λ q. (q.c ≢ 0) × (from < length text.now) × (get_or text.now from 0 ≡ 35) × Found text.now (from + 1) q) }
{
    if from < text.len() {
        if text[from] == b'#' {
            return charref::quick_number(text, from + 1);
        }
    }
    None
}

// The character's bytes, as many as there is room for. Their count.
fn put_clipped(c: u32, out: &mut [u8]) -> usize
    requires { c ≤ 1114111 }
    ensures { (result ≡ length (encode c)) × (out.new ≡ over (encode c) out.old) }
{
    let mut bytes = [0u8; 4];
    let n = charref::encode_utf8(c, &mut bytes);
    output::put_over(&bytes[..n], out);
    n
}

// The same: a walk that writes has room for all of them, and one that counts for none.
fn put_char(c: u32, out: &mut [u8]) -> usize
    requires { c ≤ 1114111 }
    ensures { (result ≡ length (encode c)) × (out.new ≡ over (encode c) out.old) }
{
    let n = charref::utf8_length(c);
    if n <= out.len() {
        return charref::encode_utf8(c, out);
    }
    if out.len() == 0 {
        return n;
    }
    put_clipped(c, out)
}

// A run of bytes as it stands; its token ends before `next`.
pub fn run_step(run: &[u8], next: usize, openings: u64, out: &mut [u8]) -> Step
    ensures { Stepped next (done run.now openings) out.old out.new (stepped result) }
{
    output::put_over(run, out);
    Ok(Next {
        at: next,
        len: run.len(),
        openings,
    })
}

// A character whose reference ends before `next`.
pub fn char_step(c: u32, next: usize, openings: u64, out: &mut [u8]) -> Step
    requires { c ≤ 1114111 }
    ensures { Stepped next (done (encode c) openings) out.old out.new (stepped result) }
{
    let written = put_char(c, out);
    Ok(Next {
        at: next,
        len: written,
        openings,
    })
}

// A character reference with the text after `#`, at whose end is `next`.
pub fn number_step(digits: &[u8], next: usize, openings: u64, out: &mut [u8]) -> Step
    ensures { Stepped next (number_outcome any_character digits.now openings) out.old out.new (stepped result) }
{
    let len = digits.len();
    if len == 0 {
        return Err(Refusal::InvalidNumber);
    }
    // As a part: a slice that is handed on whole is copied by one load, which waits for the caller's two stores.
    let n = charref::parse_number(&digits[..len], 0);
    // Not `?`: the caller takes the number's answer apart, as the scope asks.
    let Ok(c) = n else {
        return Err(Refusal::from(n.unwrap_err()));
    };
    char_step(c, next, openings, out)
}

// A text that is its own value goes to the start of `out`, unless that is too short.
pub fn copied_whole(text: &[u8], buffer: Buffer, out: &mut [u8]) -> Answer
    ensures { Ended (short_of buffer) (done text.now 0) out.old out.new (answered result) }
{
    if out.len() < text.len() {
        return Err(buffer.too_short(text.len() as u64));
    }
    output::put_run(text, out);
    Ok(Success {
        first: text.len() as u64,
        second: 0,
    })
}

// The number without its highest bits, as many as `shift` says.
fn moved_up(word: u64, shift: u64) -> u64
    requires { shift < 64 }
    ensures { result ≡ moved_up shift word }
{
    word << shift
}

// What is kept of so many references stands in `seen`, part by part and side by side: their bytes as a number first, then the parts
// below, and after all of these the place of the next reference (specs/Seen.antt, `met_at`).
const PLACES: usize = 4;

// The last of the places: after it comes the first again.
const LAST_PLACE: usize = 3;

// From here on the shifts of those numbers.
const SHIFTS: usize = 4;

// Where the values start in the output.
const STARTS: usize = 8;

// The lengths of the values.
const COUNTS: usize = 12;

// The openings that the references made.
const OPENED: usize = 16;

// The place of the next reference.
const NEXT_PLACE: usize = 20;

// How many numbers `seen` has.
pub const SEEN_SIZE: usize = 21;

// Which of the references kept stands at `at`; PLACES where none does.
fn seen_at(text: &[u8], at: usize, seen: &[u64]) -> usize
    requires at_in_bounds { (at ≤ length text.now) × (length seen.now ≡ seen_size) }
    requires by_index { (k : ℕ) → k < 4 → get_or seen.now (k + 4) 0 < 64 }
    ensures { (result ≤ 4) × (result < 4 → Matches text.now at (met_at seen.now result)) }
{
    if text.len() - at < 8 {
        return PLACES;
    }
    let word = load::word(text, at);
    let mut k: usize = 0;
    while k < PLACES {
        if moved_up(word, seen[k + SHIFTS]) == seen[k] {
            return k;
        }
        k += 1;
    }
    k
}

// Writes the `count` bytes at `from` again at `at`.
pub fn put_again(from: usize, count: usize, at: usize, out: &mut [u8])
    requires { (from + count ≤ at) × (at + count ≤ length out.old) }
    ensures { (length out.new ≡ length out.old) × ((value whole : List ℕ) → out.old ≡ over value whole → length value ≡ at → out.new ≡ over (value ++ take count (drop from value)) whole) }
{
    if count == 1 {
        out[at] = out[from];
        return;
    }
    let mut k: usize = 0;
    while k < count {
        out[at + k] = out[from + k];
        k += 1;
    }
}

// The reference at `at`, where one with the same bytes is kept: its value is written again, after the value of `len` bytes. Else
// nothing is written.
pub fn seen_step(
    text: &[u8],
    at: usize,
    len: usize,
    openings: u64,
    limit: u64,
    seen: &[u64],
    out: &mut [u8],
) -> Option<Next>
    requires at_in_bounds { (at ≤ length text.now) × (len ≤ 0x1000000000000) }
    requires kept { Kept seen.now len limit }
    requires openings_le_limit { (openings ≤ limit) × (limit ≤ 1000000) }
    ensures { Recalled text.now at len openings limit seen.now out.old out.new result }
{
    let k = seen_at(text, at, seen);
    if k < PLACES {
        let count = seen[k + COUNTS] as usize;
        let made = openings + seen[k + OPENED];
        if made <= limit {
            if len < out.len() {
                if out.len() - len < count {
                    return None;
                }
                put_again(seen[k + STARTS] as usize, count, len, out);
            }
            return Some(Next {
                at: at + (8 - (seen[k + SHIFTS] / 8) as usize),
                len: count,
                openings: made,
            });
        }
    }
    None
}

// Keeps the reference of `width` bytes at `place` in the place of the one kept longest, where eight bytes hold it.
pub fn remember(
    text: &[u8],
    place: usize,
    width: usize,
    start: usize,
    count: usize,
    opened: u64,
    seen: &mut [u64],
)
    requires le_width { (1 ≤ width) × (place + width ≤ length text.now) }
    requires seen_len { (length seen.old ≡ seen_size) × (next_place seen.old < 4) }
    ensures { Remembered text.now place width start count opened seen.old seen.new }
{
    if (8 < width) | (text.len() - place < 8) {
        return;
    }
    let shift = 64 - 8 * width as u64;
    let slot = seen[NEXT_PLACE] as usize;
    seen[slot] = moved_up(load::word(text, place), shift);
    seen[slot + SHIFTS] = shift;
    seen[slot + STARTS] = start as u64;
    seen[slot + COUNTS] = count as u64;
    seen[slot + OPENED] = opened;
    seen[NEXT_PLACE] = if slot == LAST_PLACE {
        0
    } else {
        (slot + 1) as u64
    };
}
