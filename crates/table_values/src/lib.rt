// [9] EntityValue: runs of bytes that stand for themselves, line ends, and references. What goes into the pool is written as far as there is
// room, so that a reader that is lent no pool counts.
#![tactic(auto)]

ghost use Rattle.std.specs.Prelude.{◌≡◌, ◌≢◌, true, false, List, [], ◌∷◌, ℕ, ◌+◌, ◌≤◌, ◌<◌, length, get_or};
ghost use Rattle.text.specs.Call.{longest_text};
ghost use Rattle.output.specs.Runs.{Plain};
ghost use Rattle.runs.specs.RunEnds.{RunEnd};
ghost use Rattle.charref.specs.CharRef.{encode};
ghost use Rattle.table_grammar.specs.EntityValue.{read, char_ref_from, entity_ref, reference, value_from};
ghost use Rattle.table_names.specs.NameTerms.{left};
ghost use Rattle.table_values.specs.ValueSteps.{Meets, value_stop, number_stop, Quote, value_step};

use text::pattern;
use text::refusals::Refusal;

pub mod space;

// A reader that goes on: at `at`, with so many bytes for the pool.
#[derive(Drop)]
pub struct Next {
    pub at: usize,
    pub len: usize,
}

// What stops a reader: the character at `at`, or the end, cannot stand there (21); or something passes its limit there (22); or a character
// reference is refused (12 to 15).
#[derive(Drop)]
pub enum Fault {
    Misplaced { at: usize },
    Excessive { at: usize },
    Refused(Refusal),
}

// A byte at which a run of a value may end: its quote, `&`, `%`, or the start of a line end other than LF. Without branches.
fn is_stop(b: u8, quote: u8, newer: bool) -> bool
    ensures { result ≡ value_stop quote newer b }
{
    (b == quote)
        | (b == b'&')
        | (b == b'%')
        | ((b == b'\r') | (newer & ((b == 0xc2) | (b == 0xe2))))
}

// Is one of the 16 bytes from i on a stop?
fn any_stop(text: &[u8], i: usize, quote: u8, newer: bool) -> bool
    requires { i + 16 ≤ length text.now }
    ensures { result ≡ false → Plain (value_stop quote newer) text.now i (i + 16) }
{
    if output::any_of(text, i, 16, quote, b'&') {
        return true;
    }
    if output::any_of(text, i, 16, b'%', b'\r') {
        return true;
    }
    if newer {
        return output::any_of(text, i, 16, 0xc2, 0xe2);
    }
    false
}

// Passes blocks without stops. (By hand, in blocks of 16 bytes for the vectors.)
fn plain_blocks(text: &[u8], from: usize, quote: u8, newer: bool) -> usize
    requires { from ≤ length text.now }
    ensures { Plain (value_stop quote newer) text.now from result }
{
    let mut i = from;
    // By hand: the answer is a place, which chunks_exact does not count.
    while 16 <= text.len() - i {
        if any_stop(text, i, quote, newer) {
            return i;
        }
        i += 16;
    }
    i
}

// The next stop from `from` on, or the text's end, by blocks.
fn far_end(text: &[u8], from: usize, quote: u8, newer: bool) -> usize
    requires { from ≤ length text.now }
    ensures { RunEnd (value_stop quote newer) text.now from result }
{
    let near = plain_blocks(text, from, quote, newer);
    let rest = &text[near..];
    near + rest
        .iter()
        .position(|&b| is_stop(b, quote, newer))
        .unwrap_or(rest.len())
}

// The same where the stop is often near: after a reference the next one may follow.
fn run_end(text: &[u8], from: usize, quote: u8, newer: bool) -> usize
    requires { from ≤ length text.now }
    ensures { RunEnd (value_stop quote newer) text.now from result }
{
    if from == text.len() {
        return from;
    }
    if is_stop(text[from], quote, newer) {
        return from;
    }
    far_end(text, from, quote, newer)
}

// The `;` or the value's quote that comes first from `from` on, or the text's end.
fn number_end(text: &[u8], from: usize, quote: u8) -> usize
    requires { from ≤ length text.now }
    ensures { RunEnd (number_stop quote) text.now from result }
{
    let rest = &text[from..];
    from + rest
        .iter()
        .position(|&b| (b == b';') | (b == quote))
        .unwrap_or(rest.len())
}

// Text and version stay two parameters below: of a struct each clause would say `source.entry.text.now` and `source.entry.newer`, and what is called
// takes them one by one.

// The character c, of whose reference the next byte is at `next`.
fn char_step(
    text: &[u8],
    i: usize,
    c: u32,
    next: usize,
    newer: bool,
    out: &mut [u8],
) -> Result<Next, Fault>
    requires { (i < next) × (next ≤ length text.now) × (c ≤ 1114111) }
    ensures { Meets newer text.now i (read (encode c) (left newer text.now next)) out.old out.new result }
{
    let mut bytes = [0u8; 4];
    let n = charref::encode_utf8(c, &mut bytes);
    output::put_over(&bytes[..n], out);
    Ok(Next { at: next, len: n })
}

// [66] CharRef: the text after `&#` from `from` on, whatever it is up to the `;`.
fn number_step(
    text: &[u8],
    from: usize,
    quote: u8,
    newer: bool,
    out: &mut [u8],
) -> Result<Next, Fault>
    requires { (from ≤ length text.now) × Quote quote × (length text.now ≤ longest_text) }
    ensures { Meets newer text.now from (char_ref_from quote [] (left newer text.now from)) out.old out.new result }
{
    let end = number_end(text, from, quote);
    if end == text.len() {
        return Err(Fault::Misplaced { at: end });
    }
    if text[end] != b';' {
        return Err(Fault::Misplaced { at: end });
    }
    match charref::parse_number(&text[from..end], 0) {
        Ok(c) => char_step(text, from, c, end + 1, newer, out),
        Err(e) => Err(Fault::Refused(Refusal::from(e))),
    }
}

// [68] EntityRef: the reference whose `&` is at i stays as it is written.
fn entity_step(text: &[u8], i: usize, newer: bool, out: &mut [u8]) -> Result<Next, Fault>
    requires { (i < length text.now) × (get_or text.now i 0 ≡ 38) × (length text.now ≤ longest_text) }
    ensures { Meets newer text.now i (entity_ref (left newer text.now (i + 1))) out.old out.new result }
{
    let end = table_names::name_end(text, i + 1);
    if end == i + 1 {
        return Err(Fault::Misplaced { at: end });
    }
    if !pattern::byte_at(text, end, b';') {
        return Err(Fault::Misplaced { at: end });
    }
    output::put_over(&text[i..end + 1], out);
    Ok(Next {
        at: end + 1,
        len: end + 1 - i,
    })
}

// [67] Reference: the one whose `&` is at i.
fn reference_step(
    text: &[u8],
    i: usize,
    quote: u8,
    newer: bool,
    out: &mut [u8],
) -> Result<Next, Fault>
    requires { (i < length text.now) × (get_or text.now i 0 ≡ 38) × Quote quote × (length text.now ≤ longest_text) }
    ensures { Meets newer text.now i (reference quote (left newer text.now (i + 1))) out.old out.new result }
{
    if pattern::byte_at(text, i + 1, b'#') {
        return number_step(text, i + 2, quote, newer, out);
    }
    entity_step(text, i, newer, out)
}

// The line end that may start at i, or the byte that is there.
fn line_step(text: &[u8], i: usize, quote: u8, newer: bool, out: &mut [u8]) -> Result<Next, Fault>
    requires { (i < length text.now) × (get_or text.now i 0 ≢ 37) × (get_or text.now i 0 ≢ 38) × (length text.now ≤ longest_text) }
    ensures { Meets newer text.now i (value_step quote (left newer text.now i)) out.old out.new result }
{
    let width = eols::eol_width(text, i, newer);
    if width == 0 {
        output::put_byte(text[i], 0, out);
        return Ok(Next { at: i + 1, len: 1 });
    }
    output::put_byte(b'\n', 0, out);
    Ok(Next {
        at: i + width,
        len: 1,
    })
}

// What stands at the stop at i, which is no quote.
fn stop_step(text: &[u8], i: usize, quote: u8, newer: bool, out: &mut [u8]) -> Result<Next, Fault>
    requires { (i < length text.now) × Quote quote × (length text.now ≤ longest_text) }
    ensures { Meets newer text.now i (value_step quote (left newer text.now i)) out.old out.new result }
{
    let b = text[i];
    if b == b'&' {
        return reference_step(text, i, quote, newer, out);
    }
    if b == b'%' {
        return Err(Fault::Misplaced { at: i });
    }
    line_step(text, i, quote, newer, out)
}

// The value from `from` on, after its quote, up to its closing quote: the place after that, and the value's length in the pool.
pub fn value_step(
    text: &[u8],
    from: usize,
    quote: u8,
    newer: bool,
    out: &mut [u8],
) -> Result<Next, Fault>
    requires { (from ≤ length text.now) × Quote quote × (length text.now ≤ longest_text) }
    ensures { Meets newer text.now from (value_from quote [] 0 (left newer text.now from)) out.old out.new result }
{
    let mut i = from;
    let mut len: usize = 0;
    // By hand: a turn begins where the one before it ended.
    loop {
        let e = run_end(text, i, quote, newer);
        let room = len.min(out.len());
        output::put_over(&text[i..e], &mut out[room..]);
        len += e - i;
        if e == text.len() {
            return Err(Fault::Misplaced { at: e });
        }
        if text[e] == quote {
            if 65535 < len {
                return Err(Fault::Excessive { at: e });
            }
            return Ok(Next { at: e + 1, len });
        }
        let rest = len.min(out.len());
        let step = stop_step(text, e, quote, newer, &mut out[rest..])?;
        i = step.at;
        len += step.len;
    }
}
