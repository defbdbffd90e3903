// The writer of the four escape levels and of Canonical XML's two sets: runs of copied bytes and replacements are written in turn, after
// a count where the output may be too short.
#![tactic(auto)]

ghost use Rattle.std.specs.Prelude.{◌≡◌, false, [], ◌∷◌, ◌+◌, ◌≤◌, ◌<◌, length, take, drop};
ghost use Rattle.text.specs.Bytes.{pick};
ghost use Rattle.text.specs.Call.{answered, laid, finish, call_of, longest_text};
ghost use Rattle.escape.specs.Escape.{write, level_of, level_set, level_check};
ghost use Rattle.output.specs.Runs.{Plain, Copied, Ends, Room};
ghost use Rattle.escape.specs.Scan.{escaped_by, reference_by, tab_added, added_by, chars_set, level_chars, shown_byte, shown, Shows};

use text::refusals::Refusal;
use text::{Answer, PASSED, Success};

// The characters that are escaped besides `<`, `&` and CR: LF and TAB, `'`, `"`, `>`; and whether TAB, LF and CR get hexadecimal numbers.
#[derive(Clone, Copy)]
pub struct EscapeChars {
    pub blanks: bool,
    pub apos: bool,
    pub quot: bool,
    pub gt: bool,
    pub hex: bool,
}

// Refusal 4.
pub fn check_level(level: u8) -> Answer
    ensures { answered result ≡ level_check level }
{
    if 3 < level {
        return Err(Refusal::UnknownByte);
    }
    Ok(PASSED)
}

// The level as flags, so that the loops test no level.
pub fn escape_chars(level: u8) -> EscapeChars
    ensures { result ≡ level_chars (level_of level) }
{
    if level == 0 {
        return EscapeChars {
            blanks: false,
            apos: true,
            quot: true,
            gt: true,
            hex: false,
        };
    }
    if level == 1 {
        return EscapeChars {
            blanks: false,
            apos: false,
            quot: false,
            gt: true,
            hex: false,
        };
    }
    if level == 2 {
        return EscapeChars {
            blanks: false,
            apos: false,
            quot: false,
            gt: false,
            hex: false,
        };
    }
    EscapeChars {
        blanks: true,
        apos: true,
        quot: true,
        gt: true,
        hex: false,
    }
}

// Without branches, so that the block loops run on vectors.
fn escapes(chars: EscapeChars, b: u8) -> bool
    ensures { result ≡ escaped_by chars b }
{
    (chars.blanks & ((b == b'\n') | (b == b'\t')))
        | (chars.apos & (b == b'\''))
        | (chars.quot & (b == b'"'))
        | (chars.gt & (b == b'>'))
        | (b == b'<')
        | (b == b'&')
        | (b == b'\r')
}

// The same for a byte by itself: most of a text's bytes are past `>`.
fn is_escaped(chars: EscapeChars, b: u8) -> bool
    ensures { result ≡ escaped_by chars b }
{
    if b'>' < b {
        return false;
    }
    escapes(chars, b)
}

// Is one of the 16 bytes from i on escaped?
fn any_escaped(text: &[u8], i: usize, chars: EscapeChars) -> bool
    requires { i + 16 ≤ length text.now }
    ensures { result ≡ false → Plain (escaped_by chars) text.now i (i + 16) }
{
    let mut hit = false;
    for &b in &text[i..i + 16] {
        hit |= escapes(chars, b);
    }
    hit
}

fn put(reference: &[u8], out: &mut [u8]) -> usize
    requires { length reference.now ≤ length out.old }
    ensures { (result ≡ length reference.now) × (out.new ≡ laid reference.now out.old) }
{
    output::put_run(reference, out);
    reference.len()
}

// One of two references.
fn put_either(first: bool, one: &[u8], other: &[u8], out: &mut [u8]) -> usize
    requires { length (pick first one.now other.now) ≤ length out.old }
    ensures { (result ≡ length (pick first one.now other.now)) × (out.new ≡ laid (pick first one.now other.now) out.old) }
{
    if first {
        put(one, out)
    } else {
        put(other, out)
    }
}

// Writes the reference to the byte at the start of `out`, and keeps the rest. Only the three that have a number ask for its kind: a
// test before the arms took ten instructions more for each byte.
pub fn escape_char(b: u8, hex: bool, out: &mut [u8]) -> usize
    requires { length (reference_by hex b) ≤ length out.old }
    ensures { (result ≡ length (reference_by hex b)) × (out.new ≡ laid (reference_by hex b) out.old) }
{
    match b {
        b'<' => put(b"&lt;", out),
        b'>' => put(b"&gt;", out),
        b'&' => put(b"&amp;", out),
        b'\'' => put(b"&apos;", out),
        b'"' => put(b"&quot;", out),
        b'\r' => put_either(hex, b"&#xD;", b"&#13;", out),
        b'\n' => put_either(hex, b"&#xA;", b"&#10;", out),
        b'\t' => put_either(hex, b"&#x9;", b"&#9;", out),
        _ => {
            out[0] = b;
            1
        }
    }
}

fn when(test: bool, count: u8) -> u8
    ensures { (result ≡ pick test count 0) × (result ≤ count) }
{
    if test { count } else { 0 }
}

// How many bytes more than TAB is written for it: `&#9;` and `&#x9;` differ in length. The loops below ask once.
fn tab_added(chars: EscapeChars) -> u8
    ensures { (result ≡ tab_added chars) × (result ≤ 4) }
{
    when(chars.blanks, 3) + when(chars.blanks & chars.hex, 1)
}

// How many bytes more than the byte itself is written for it.
fn added(chars: EscapeChars, b: u8) -> u8
    ensures { result ≡ added_by chars b }
{
    let three = (b == b'<') | ((b == b'>') & chars.gt);
    let four = (b == b'&') | (b == b'\r') | ((b == b'\n') & chars.blanks);
    let five = ((b == b'\'') & chars.apos) | ((b == b'"') & chars.quot);
    when(three, 3) + when(four, 4) + when(five, 5) + when(b == b'\t', tab_added(chars))
}

// The same of `count` bytes from i on: so few that the sum is a byte, as the vectors' lanes are.
fn added_part(text: &[u8], i: usize, count: usize, chars: EscapeChars) -> u8
    requires { (i + count ≤ length text.now) × (count ≤ 32) }
    ensures { result + count ≡ length (write (chars_set chars) (take count (drop i text.now))) }
{
    let mut n: u8 = 0;
    for &b in &text[i..i + count] {
        n += added(chars, b);
    }
    n
}

// The same for a byte by itself.
pub fn added_one(chars: EscapeChars, b: u8) -> u8
    ensures { result ≡ added_by chars b }
{
    if b'>' < b {
        return 0;
    }
    added(chars, b)
}

// The same of the last bytes.
fn added_rest(text: &[u8], i: usize, count: usize, chars: EscapeChars) -> usize
    requires { (i + count ≤ length text.now) × (count ≤ 32) }
    ensures { result + count ≡ length (write (chars_set chars) (take count (drop i text.now))) }
{
    let mut n: usize = 0;
    for &b in &text[i..i + count] {
        n += usize::from(added_one(chars, b));
    }
    n
}

// The length of the escaped text.
pub fn escaped_length(text: &[u8], chars: EscapeChars) -> usize
    requires { length text.now ≤ 0x1000000000000 }
    ensures { result ≡ length (write (chars_set chars) text.now) }
{
    let mut n: usize = 0;
    let mut i: usize = 0;
    while 32 <= text.len() - i {
        n += usize::from(added_part(text, i, 32, chars));
        i += 32;
    }
    let rest = text.len() - i;
    n + added_rest(text, i, rest, chars) + text.len()
}

// A byte that is copied: TAB and LF as spaces where these are wanted.
fn shown_byte(b: u8, spaces: bool) -> u8
    ensures { result ≡ shown_byte spaces b }
{
    if spaces & ((b == b'\t') | (b == b'\n')) {
        b' '
    } else {
        b
    }
}

// Sixteen of them.
fn put_shown(src: &[u8], spaces: bool, out: &mut [u8])
    requires src_len { length src.now ≡ 16 }
    requires in_bounds { 16 ≤ length out.old }
    ensures { out.new ≡ laid (shown spaces src.now) out.old }
{
    if spaces {
        halts::put_spaced_block(src, out);
        return;
    }
    output::put_block(src, out);
}

// Copies the blocks at the text's start of which no byte is escaped, each as soon as it is tested. The place is counted here, as it is
// what is answered.
fn put_blocks(text: &[u8], chars: EscapeChars, spaces: bool, out: &mut [u8]) -> usize
    requires shows { Shows chars spaces }
    requires room { Room (escaped_by chars) (shown spaces text.now) out.old }
    ensures { Copied (escaped_by chars) (shown spaces text.now) out.old out.new result }
{
    let mut i: usize = 0;
    while 16 <= text.len() - i {
        if any_escaped(text, i, chars) {
            return i;
        }
        put_shown(&text[i..i + 16], spaces, &mut out[i..]);
        i += 16;
    }
    i
}

// Copies the bytes up to the next that is escaped, or to the end.
fn put_bytes(text: &[u8], chars: EscapeChars, spaces: bool, out: &mut [u8]) -> usize
    requires shows { Shows chars spaces }
    requires room { Room (escaped_by chars) (shown spaces text.now) out.old }
    ensures copied { Copied (escaped_by chars) (shown spaces text.now) out.old out.new result }
    ensures ends { Ends (escaped_by chars) (shown spaces text.now) result }
{
    for (i, &b) in text.iter().enumerate() {
        if is_escaped(chars, b) {
            return i;
        }
        out[i] = shown_byte(b, spaces);
    }
    text.len()
}

// The same by blocks first, and says how many.
fn put_plain(text: &[u8], chars: EscapeChars, spaces: bool, out: &mut [u8]) -> usize
    requires shows { Shows chars spaces }
    requires room { Room (escaped_by chars) (shown spaces text.now) out.old }
    ensures copied { Copied (escaped_by chars) (shown spaces text.now) out.old out.new result }
    ensures ends { Ends (escaped_by chars) (shown spaces text.now) result }
{
    let near = put_blocks(text, chars, spaces, out);
    near + put_bytes(&text[near..], chars, spaces, &mut out[near..])
}

// Writes the escaped text at the start of `out`, keeps the rest, and says how many bytes it wrote. Where spaces are wanted, TAB and LF
// are copied as spaces.
pub fn write_escaped(text: &[u8], chars: EscapeChars, spaces: bool, out: &mut [u8]) -> usize
    requires shows { Shows chars spaces }
    requires text_in_bounds { length (write (chars_set chars) (shown spaces text.now)) ≤ length out.old }
    ensures value { result ≡ length (write (chars_set chars) (shown spaces text.now)) }
    ensures out_after { out.new ≡ laid (write (chars_set chars) (shown spaces text.now)) out.old }
{
    let mut at: usize = 0;
    let mut i: usize = 0;
    loop {
        let count = put_plain(&text[i..], chars, spaces, &mut out[at..]);
        let end = i + count;
        at += count;
        if end == text.len() {
            return at;
        }
        at += escape_char(text[end], chars.hex, &mut out[at..]);
        i = end + 1;
    }
}

// By any of the sets. Where the output has six times the text's length there is room for the result: no count is needed.
// Else it counts first, so that 19 leaves the output as it is.
pub fn escape_by(text: &[u8], chars: EscapeChars, out: &mut [u8]) -> Answer
    requires { length text.now ≤ longest_text }
    ensures { call_of (answered result) (out.new ∷ []) ≡ finish (write (chars_set chars) text.now) 0 out.old }
{
    if out.len() < 6 * text.len() {
        let length = escaped_length(text, chars);
        if out.len() < length {
            return Err(Refusal::NoRoom(length as u64));
        }
    }
    let written = write_escaped(text, chars, false, out);
    Ok(Success {
        first: written as u64,
        second: 0,
    })
}

// One of the four levels.
pub fn escape(text: &[u8], level: u8, out: &mut [u8]) -> Answer
    requires { length text.now ≤ longest_text }
    ensures { call_of (answered result) (out.new ∷ []) ≡ finish (write (level_set (level_of level)) text.now) 0 out.old }
{
    escape_by(text, escape_chars(level), out)
}
