// The search for the bytes at which a line end other than LF may start, and copies of the runs between them: CR, and under XML 1.1
// (`newer`) C2 and E2. The output has room for all that is copied, so that nothing is clipped. Every search is proved to pass what
// `Plain` over `line_stop` says, every copy to lay what `Copied` says (specs/RunEnds.antt, output/specs/Runs.antt).
ghost use Rattle.std.specs.Prelude.{◌≡◌, Bool, true, false, ◌+◌, ◌≤◌, length};
ghost use Rattle.output.specs.Runs.{Plain, Copied, Room};
ghost use Rattle.runs.specs.RunEnds.{line_stop};

// Without branches.
fn is_stop(b: u8, newer: bool) -> bool
    ensures { result ≡ line_stop newer b }
{
    (b == b'\r') | (newer & ((b == 0xc2) | (b == 0xe2)))
}

// Letters and most other bytes are stops of neither version: one comparison tells.
fn is_common(b: u8) -> bool
    ensures { result ≡ true → (newer : Bool) → line_stop newer b ≡ false }
{
    (14 <= b) & (b <= 0xc1)
}

// The same as is_stop, told by one comparison for most bytes.
fn ends_run(b: u8, newer: bool) -> bool
    ensures { result ≡ line_stop newer b }
{
    if is_common(b) {
        return false;
    }
    is_stop(b, newer)
}

// Is one of the `size` bytes from i on a stop? Under XML 1.0 the first test tells by itself.
fn any_stop(text: &[u8], i: usize, newer: bool, size: usize) -> bool
    requires { i + size ≤ length text.now }
    ensures { result ≡ false → Plain (line_stop newer) text.now i (i + size) }
{
    if output::any_of(text, i, size, b'\r', b'\r') {
        return true;
    }
    if newer {
        return output::any_of(text, i, size, 0xc2, 0xe2);
    }
    false
}

// Passes blocks without stops.
fn plain_blocks(text: &[u8], from: usize, newer: bool) -> usize
    requires { from ≤ length text.now }
    ensures { Plain (line_stop newer) text.now from result }
{
    // By hand: the answer is a place, which chunks_exact does not count.
    let mut i = from;
    while 16 <= text.len() - i {
        if any_stop(text, i, newer, 16) {
            return i;
        }
        i += 16;
    }
    i
}

// The end of a run without stops that starts at `from`.
pub fn plain_end(text: &[u8], from: usize, newer: bool) -> usize
    requires { from ≤ length text.now }
    ensures { Plain (line_stop newer) text.now from result }
{
    for i in plain_blocks(text, from, newer)..text.len() {
        if is_stop(text[i], newer) {
            return i;
        }
    }
    text.len()
}

// Copies the blocks without stops at the text's start, each as soon as it is tested.
fn put_blocks(text: &[u8], newer: bool, out: &mut [u8]) -> usize
    requires { Room (line_stop newer) text.now out.old }
    ensures { Copied (line_stop newer) text.now out.old out.new result }
{
    let mut i: usize = 0;
    while 16 <= text.len() - i {
        if any_stop(text, i, newer, 16) {
            return i;
        }
        output::put_block(&text[i..i + 16], &mut out[i..]);
        i += 16;
    }
    i
}

// The same by 32 bytes: where there are no stops for long.
pub fn put_wide(text: &[u8], newer: bool, out: &mut [u8]) -> usize
    requires { Room (line_stop newer) text.now out.old }
    ensures { Copied (line_stop newer) text.now out.old out.new result }
{
    let mut i: usize = 0;
    while 32 <= text.len() - i {
        if any_stop(text, i, newer, 32) {
            return i;
        }
        let half = i + 16;
        output::put_block(&text[i..half], &mut out[i..]);
        output::put_block(&text[half..half + 16], &mut out[half..]);
        i += 32;
    }
    i
}

// Copies the bytes up to the first stop.
fn put_bytes(text: &[u8], newer: bool, out: &mut [u8]) -> usize
    requires { Room (line_stop newer) text.now out.old }
    ensures { Copied (line_stop newer) text.now out.old out.new result }
{
    // By index: an iterator takes two instructions more for each byte.
    for i in 0..text.len() {
        let b = text[i];
        if ends_run(b, newer) {
            return i;
        }
        out[i] = b;
    }
    text.len()
}

// Copies the run without stops at the text's start, and says how long it is.
pub fn put_plain(text: &[u8], newer: bool, out: &mut [u8]) -> usize
    requires { Room (line_stop newer) text.now out.old }
    ensures { Copied (line_stop newer) text.now out.old out.new result }
{
    let near = put_blocks(text, newer, out);
    near + put_bytes(&text[near..], newer, &mut out[near..])
}
