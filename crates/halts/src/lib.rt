// Where a run of an attribute's value ends, and copies of runs. A run ends at a halt: `&`, CR, and under XML 1.1 (`newer`) U+0085 and
// U+2028; all before it is written byte by byte, TAB and LF as spaces. Every search is proved to find what `HaltAt` says, every copy to
// lay what `blanks_spaced` says (specs/Halts.antt). All goes by blocks of 16 bytes that run on vectors.
// Loops over blocks count their place themselves: it is what they answer, and chunks of an iterator would have to be counted back to it.
#![tactic(auto)]

ghost use Rattle.std.specs.Prelude.{◌≡◌, true, false, ◌+◌, ◌≤◌, ◌<◌, eqb, length, take, drop};
ghost use Rattle.text.specs.Bytes.{pick};
ghost use Rattle.text.specs.Call.{laid};
ghost use Rattle.output.specs.Runs.{Plain, either_byte};
ghost use Rattle.halts.specs.Halts.{halts, Smooth, HaltAt, suspect_byte, any_stop, stop_byte, spaced, blanks_spaced, TwoPieces, PieceLaid};

// ---- is there any stop

// Without branches.
fn is_stop(b: u8, newer: bool) -> bool
    ensures { result ≡ stop_byte newer b }
{
    (b == b'\t') | (b == b'\n') | (b == b'\r') | (b == b'&') | (newer & ((b == 0xc2) | (b == 0xe2)))
}

fn stop_in(text: &[u8], newer: bool) -> bool
    ensures { result ≡ any_stop (stop_byte newer) text.now }
{
    let mut hit = false;
    for &b in text {
        hit |= is_stop(b, newer);
    }
    hit
}

// Is there a stop in the text? What refuses at depth 0. Each version has a loop of its own: a vector of `newer` would be kept in the
// frame of every level of a walk.
pub fn has_stop(text: &[u8], newer: bool) -> bool
    ensures { result ≡ any_stop (stop_byte newer) text.now }
{
    if newer {
        return stop_in(text, true);
    }
    stop_in(text, false)
}

// ---- halts of XML 1.0

// Each version has searches of its own: as one function over a constant they were slower, under 1.1 by up to a tenth.

// Is one of the `size` bytes from i on a or b? An accumulator for each: the loop then runs on vectors wherever it is compiled into.
fn any_two(text: &[u8], i: usize, size: usize, a: u8, b: u8) -> bool
    requires { i + size ≤ length text.now }
    ensures { result ≡ any_stop (either_byte a b) (take size (drop i text.now)) }
{
    let mut first = false;
    let mut second = false;
    for &c in &text[i..i + size] {
        first |= c == a;
        second |= c == b;
    }
    first | second
}

// Most bytes are past `&`: one comparison tells.
fn is_older(b: u8) -> bool
    ensures { result ≡ suspect_byte false b }
{
    if b'&' < b {
        return false;
    }
    (b == b'&') | (b == b'\r')
}

// The halt in a block of 16 bytes that has one.
fn older_in_block(text: &[u8], i: usize) -> usize
    requires i_in_bounds { i + 16 ≤ length text.now }
    requires text_value { any_stop (suspect_byte false) (take 16 (drop i text.now)) ≡ true }
    ensures { HaltAt false text.now i result }
{
    for k in 0..16usize {
        if is_older(text[i + k]) {
            return i + k;
        }
    }
    i + 16
}

fn older_bytes(text: &[u8], from: usize) -> usize
    requires { from ≤ length text.now }
    ensures { HaltAt false text.now from result }
{
    for i in from..text.len() {
        if is_older(text[i]) {
            return i;
        }
    }
    text.len()
}

// The rest is shorter than a block: the last block is looked at again.
fn older_rest(text: &[u8], i: usize) -> usize
    requires { (i ≤ length text.now) × (length text.now < i + 16) }
    ensures { HaltAt false text.now i result }
{
    let n = text.len();
    if 16 <= n {
        if !any_two(text, n - 16, 16, b'&', b'\r') {
            return n;
        }
    }
    older_bytes(text, i)
}

fn older_halt(text: &[u8], from: usize) -> usize
    requires { from ≤ length text.now }
    ensures { HaltAt false text.now from result }
{
    let mut i = from;
    while 16 <= text.len() - i {
        if any_two(text, i, 16, b'&', b'\r') {
            return older_in_block(text, i);
        }
        i += 16;
    }
    older_rest(text, i)
}

// ---- halts of XML 1.1

// The bytes with which a halt may start.
fn is_suspect(b: u8) -> bool
    ensures { result ≡ suspect_byte true b }
{
    if (39 <= b) & (b <= 0xc1) {
        return false;
    }
    ((b == b'&') | (b == b'\r')) | ((b == 0xc2) | (b == 0xe2))
}

// Does a halt start at i? A C2 or E2 is one where it starts a line end.
fn is_newer(text: &[u8], i: usize) -> bool
    requires { i < length text.now }
    ensures { result ≡ halts true (drop i text.now) }
{
    let b = text[i];
    if !is_suspect(b) {
        return false;
    }
    if (b == b'&') | (b == b'\r') {
        return true;
    }
    eols::eol_width(text, i, true) != 0
}

// Does a halt start at one of the 16 bytes from i on? It may reach two bytes past them.
fn any_newer(text: &[u8], i: usize) -> bool
    requires { i + 18 ≤ length text.now }
    ensures { result ≡ false → Smooth true text.now i (i + 16) }
{
    let mut amp = false;
    let mut cr = false;
    let mut two = false;
    let mut three = false;
    for k in 0..16usize {
        let b = text[i + k];
        let c = text[i + k + 1];
        amp |= b == b'&';
        cr |= b == b'\r';
        two |= (b == 0xc2) & (c == 0x85);
        three |= (b == 0xe2) & ((c == 0x80) & (text[i + k + 2] == 0xa8));
    }
    amp | cr | two | three
}

// Passes blocks that have no byte with which a halt may start.
fn clear_four(text: &[u8], from: usize) -> usize
    requires { from ≤ length text.now }
    ensures { Smooth true text.now from result }
{
    let mut i = from;
    while 16 <= text.len() - i {
        if any_two(text, i, 16, b'&', b'\r') {
            return i;
        }
        if any_two(text, i, 16, 0xc2, 0xe2) {
            return i;
        }
        i += 16;
    }
    i
}

// Passes blocks in which no halt starts.
fn clear_newer(text: &[u8], from: usize) -> usize
    requires { from ≤ length text.now }
    ensures { Smooth true text.now from result }
{
    let mut i = from;
    while 18 <= text.len() - i {
        if any_newer(text, i) {
            return i;
        }
        i += 16;
    }
    i
}

// The next byte among the 16 from i on with which a halt may start.
fn suspect_in_block(text: &[u8], i: usize) -> usize
    requires { i + 16 ≤ length text.now }
    ensures { Smooth true text.now i result }
{
    for k in 0..16usize {
        if is_suspect(text[i + k]) {
            return i + k;
        }
    }
    i + 16
}

fn newer_bytes(text: &[u8], from: usize) -> usize
    requires { from ≤ length text.now }
    ensures { HaltAt true text.now from result }
{
    for i in from..text.len() {
        if is_newer(text, i) {
            return i;
        }
    }
    text.len()
}

// The rest is shorter than a block: the last block is looked at again.
fn newer_rest(text: &[u8], i: usize) -> usize
    requires { (i ≤ length text.now) × (length text.now < i + 16) }
    ensures { HaltAt true text.now i result }
{
    let n = text.len();
    if 16 <= n {
        if !any_two(text, n - 16, 16, b'&', b'\r') {
            if !any_two(text, n - 16, 16, 0xc2, 0xe2) {
                return n;
            }
        }
    }
    newer_bytes(text, i)
}

// After a C2 or E2 that starts no line end, blocks are looked at exactly.
fn newer_halt(text: &[u8], from: usize) -> usize
    requires { from ≤ length text.now }
    ensures { HaltAt true text.now from result }
{
    let i = clear_four(text, from);
    if text.len() - i < 16 {
        return newer_rest(text, i);
    }
    let near = suspect_in_block(text, i);
    if near < text.len() {
        if is_newer(text, near) {
            return near;
        }
    }
    newer_bytes(text, clear_newer(text, near))
}

// ---- halts of both versions

// The first halt from `from` on, or the text's end.
pub fn next_halt(text: &[u8], from: usize, newer: bool) -> usize
    requires { from ≤ length text.now }
    ensures { HaltAt newer text.now from result }
{
    if newer {
        return newer_halt(text, from);
    }
    older_halt(text, from)
}

// The first 16 bytes one by one: a comparison and a jump for each, without a block's test and the second look at its bytes.
fn near_older(text: &[u8], from: usize) -> usize
    requires { from + 16 ≤ length text.now }
    ensures { HaltAt false text.now from result }
{
    for k in 0..16usize {
        if is_older(text[from + k]) {
            return from + k;
        }
    }
    older_halt(text, from + 16)
}

// The same, up to a byte above ASCII. Both ranges of bytes that may be halts are one comparison, with a sign.
fn near_newer(text: &[u8], from: usize) -> usize
    requires { from + 16 ≤ length text.now }
    ensures { HaltAt true text.now from result }
{
    for k in 0..16usize {
        let b = text[from + k];
        if (b < 39) | (0x7f < b) {
            if (b == b'&') | (b == b'\r') {
                return from + k;
            }
            if 0x7f < b {
                return newer_halt(text, from + k);
            }
        }
    }
    newer_halt(text, from + 16)
}

// The same as next_halt where halts are dense.
pub fn near_halt(text: &[u8], from: usize, newer: bool) -> usize
    requires { from ≤ length text.now }
    ensures { HaltAt newer text.now from result }
{
    if text.len() - from < 16 {
        return next_halt(text, from, newer);
    }
    if newer {
        return near_newer(text, from);
    }
    near_older(text, from)
}

// Passes blocks of 32 bytes that have no halt.
fn clear_wide(text: &[u8]) -> usize
    ensures { Smooth false text.now 0 result }
{
    let mut i: usize = 0;
    while 32 <= text.len() - i {
        if any_two(text, i, 32, b'&', b'\r') {
            return i;
        }
        i += 32;
    }
    i
}

// Is there no halt in a text of 8 to 16 bytes? Its first and its last eight, which may overlap.
pub fn clear_short(text: &[u8]) -> bool
    requires { (8 ≤ length text.now) × (length text.now ≤ 16) }
    ensures { result ≡ true → Smooth false text.now 0 (length text.now) }
{
    !any_two(text, 0, 8, b'&', b'\r') & !any_two(text, text.len() - 8, 8, b'&', b'\r')
}

// The first halt of a text: by wide blocks first.
pub fn first_halt(text: &[u8], newer: bool) -> usize
    ensures { HaltAt newer text.now 0 result }
{
    if newer {
        return newer_halt(text, 0);
    }
    let n = text.len();
    if (8 <= n) & (n < 16) {
        if clear_short(text) {
            return n;
        }
    }
    older_halt(text, clear_wide(text))
}

// ---- runs with blanks as spaces

// What is added to b where it is c.
fn gain(b: u8, c: u8, g: u8) -> u8
    ensures { result ≡ pick (eqb b c) g 0 }
{
    if b == c { g } else { 0 }
}

// TAB and LF as spaces, without branches.
fn spaced_byte(b: u8) -> u8
    ensures { result ≡ spaced b }
{
    b + gain(b, b'\t', 23) + gain(b, b'\n', 22)
}

// The N bytes from `from` on: by way of a local array, which can overlap with neither, so that it takes one load and one store.
fn put_spaced_piece<const N: usize>(src: &[u8], from: usize, out: &mut [u8])
    requires { (from + N ≤ length src.now) × (length src.now ≤ length out.old) }
    ensures { PieceLaid src.now from N out.old out.new }
{
    let mut block = [0u8; N];
    for (k, &b) in src[from..from + N].iter().enumerate() {
        block[k] = spaced_byte(b);
    }

    // Tried as `copy_from_slice`, and slower: 4 or 8 bytes are then joined to a number, in three times the instructions.
    for (k, &b) in block.iter().enumerate() {
        out[from + k] = b;
    }
}

// A run of 16 bytes.
pub fn put_spaced_block(src: &[u8], out: &mut [u8])
    requires src_len { length src.now ≡ 16 }
    requires in_bounds { 16 ≤ length out.old }
    ensures { out.new ≡ laid (blanks_spaced src.now) out.old }
{
    put_spaced_piece::<16>(src, 0, out);
}

// A run of up to 3 bytes: the count is fixed, so that the loop is unrolled.
fn put_spaced_few(src: &[u8], out: &mut [u8])
    requires { (length src.now ≤ 3) × (length src.now ≤ length out.old) }
    ensures { out.new ≡ laid (blanks_spaced src.now) out.old }
{
    let n = src.len();
    for k in 0..3usize {
        if k < n {
            out[k] = spaced_byte(src[k]);
        }
    }
}

// By blocks of 16, the last of which may overlap with the one before it.
fn put_spaced_blocks(src: &[u8], out: &mut [u8])
    requires { (16 ≤ length src.now) × (length src.now ≤ length out.old) }
    ensures { out.new ≡ laid (blanks_spaced src.now) out.old }
{
    let last = src.len() - 16;
    let mut i: usize = 0;
    loop {
        put_spaced_piece::<16>(src, i.min(last), out);
        if last <= i {
            return;
        }
        i += 16;
    }
}

// Its first and its last N bytes, which may overlap. In a loop, so that put_spaced_piece has one user and is compiled into it.
fn put_spaced_ends<const N: usize>(src: &[u8], out: &mut [u8])
    requires { TwoPieces src.now out.old N }
    ensures { out.new ≡ laid (blanks_spaced src.now) out.old }
{
    let last = src.len() - N;
    let mut i: usize = 0;
    loop {
        put_spaced_piece::<N>(src, i, out);
        if last <= i {
            return;
        }
        i = last;
    }
}

// Copies the run to the start of `out`, its blanks as spaces, and keeps the rest. The shortest are the most frequent.
pub fn put_spaced(src: &[u8], out: &mut [u8])
    requires { length src.now ≤ length out.old }
    ensures { out.new ≡ laid (blanks_spaced src.now) out.old }
{
    let n = src.len();
    if n < 4 {
        put_spaced_few(src, out);
        return;
    }
    if n < 8 {
        put_spaced_ends::<4>(src, out);
        return;
    }
    if n < 16 {
        put_spaced_ends::<8>(src, out);
        return;
    }
    put_spaced_blocks(src, out);
}
